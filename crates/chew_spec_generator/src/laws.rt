//! Laws and known values of the definitions.

ghost use Rattle.std.specs.Prelude.{◌≡◌, ◌++◌, ℕ, [], ◌∷◌, IsTrue, Ok, codes, flat_map, length, map};
ghost use Rattle.std.specs.List.{list_all};
ghost use Rattle.chew_spec_text.specs.KeyStroke.{Enter, is_key_stroke};
ghost use Rattle.chew_spec_text.specs.Lines.{lines_of};
ghost use Rattle.chew_spec_text.specs.Script.{script_of};
ghost use Rattle.chew_spec_generator.specs.Generator.{draws_from, generated, generated_keys, line_of_draws, lines_from, next_number, number_after, step_keys, step_text};

/// The first numbers behind 0, behind 7 and behind the greatest number of 64 bits, which a separate program worked out.
pub fn known_numbers()
    ensures zero { next_number 0 ≡ 1_442_695_040_888_963_407 }
    ensures seven { next_number 7 ≡ 9_098_160_460_397_411_210 }
    ensures greatest { next_number 18_446_744_073_709_551_615 ≡ 13_525_302_890_751_722_018 }
{}

/// What is typed for each draw.
pub fn known_steps()
    ensures { map step_text (0 ∷ 1 ∷ 2 ∷ 3 ∷ 4 ∷ 5 ∷ 6 ∷ 7 ∷ [])
        ≡ codes "hk4" ∷ (codes "hk4" ∷ (codes "hk4" ∷ (codes "g4" ∷ (codes "g4" ∷ (codes "hk4g4" ∷ (codes "<E>" ∷ (codes "<L>" ∷ []))))))) }
{}

/// The first draws of 7, of 0 and of the greatest number, which a separate program worked out.
pub fn known_draws()
    ensures seven { draws_from 16 7 ≡ 6 ∷ 7 ∷ 1 ∷ 1 ∷ 1 ∷ 3 ∷ 0 ∷ 4 ∷ 3 ∷ 6 ∷ 3 ∷ 3 ∷ 0 ∷ 0 ∷ 5 ∷ 2 ∷ [] }
    ensures zero { draws_from 16 0 ≡ 7 ∷ 0 ∷ 1 ∷ 4 ∷ 5 ∷ 3 ∷ 0 ∷ 7 ∷ 0 ∷ 3 ∷ 7 ∷ 2 ∷ 6 ∷ 5 ∷ 4 ∷ 6 ∷ [] }
    ensures greatest { draws_from 16 18_446_744_073_709_551_615 ≡ 0 ∷ 7 ∷ 5 ∷ 2 ∷ 0 ∷ 3 ∷ 5 ∷ 7 ∷ 0 ∷ 4 ∷ 3 ∷ 2 ∷ 0 ∷ 2 ∷ 6 ∷ 0 ∷ [] }
{}

/// The first lines of the script of 7, the last of its steps, and the first of other numbers, which a separate program
/// worked out.
pub fn known_lines()
    ensures first { lines_from 2 7
        ≡ codes "1:<E><L>hk4hk4hk4g4hk4g4g4<E>g4g4hk4hk4hk4g4hk4" ∷ (codes "1:hk4g4g4g4<L>hk4hk4<E>hk4hk4g4hk4hk4hk4hk4g4hk4hk4hk4g4" ∷ []) }
    ensures last { line_of_draws (draws_from 16 (number_after 4080 7)) ≡ codes "1:hk4g4<E>g4hk4hk4g4hk4g4<L>hk4g4hk4<L>hk4g4hk4g4<E>" }
    ensures zero { lines_from 1 0 ≡ codes "1:<L>hk4hk4g4hk4g4g4hk4<L>hk4g4<L>hk4<E>hk4g4g4<E>" ∷ [] }
    ensures greatest { lines_from 1 18_446_744_073_709_551_615 ≡ codes "1:hk4<L>hk4g4hk4hk4g4hk4g4<L>hk4g4g4hk4hk4hk4<E>hk4" ∷ [] }
{}

/// A generated script is read, whatever the number: its first context has the keys of 4,096 steps and Enter. It has 256
/// lines of steps and the line of Enter.
pub fn generated_scripts()
    ensures read { (number : ℕ) → script_of (generated number) ≡ Ok (record { contexts = generated_keys number ∷ []; rounds = 0 }) }
    ensures lines { (number : ℕ) → lines_of (generated number) ≡ lines_from 256 number ++ (codes "1:<E>" ∷ ([] ∷ [])) }
    ensures steps { (number : ℕ) → generated_keys number ≡ flat_map step_keys (draws_from 4096 number) ++ Enter ∷ [] }
    ensures count { (number : ℕ) → length (draws_from 4096 number) ≡ 4096 }
    ensures names { (number : ℕ) → IsTrue (list_all is_key_stroke (generated_keys number)) }
{}

/// How many keys the script of 7 has, which a separate program counted.
pub fn known_keys()
    ensures { length (generated_keys 7) ≡ 10_187 }
{}

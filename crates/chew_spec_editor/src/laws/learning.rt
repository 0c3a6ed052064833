//! Known calls of an editor alone, and what they leave of an empty dictionary, over the five rows.

ghost use Rattle.std.specs.Prelude.{◌≡◌, ◌∷◌, ◌-◌, ◌^◌, [], codes, length};
ghost use Rattle.chew_spec_dictionary.specs.Call.{Forget, Hide, Learn, Look};
ghost use Rattle.chew_spec_dictionary.specs.FiveRows.{ce4, shi4};
ghost use Rattle.chew_spec_text.specs.Sample.{bytes_of};
ghost use Rattle.chew_spec_editor.specs.Sample.{after_typing, last_lines, last_of, with_cap, with_cells, without_learning, with_escape};
ghost use Rattle.chew_spec_editor.specs.Settings.{standard_settings};

/// Enter learns what it commits, with the system's frequencies. A phrase that is committed again rises by one.
pub fn known_learning()
    ensures calls { (after_typing standard_settings (codes "hk4g4<E>")).calls
        ≡ Look (ce4 ∷ []) ∷ Look (ce4 ∷ shi4 ∷ []) ∷ Learn (ce4 ∷ shi4 ∷ []) (bytes_of "測試") 9318 9318 ∷ [] }
    ensures twice { (after_typing standard_settings (codes "hk4g4<E>hk4g4<E>")).point.dictionary
        ≡ record { pairs = record { key = ce4 ∷ shi4 ∷ []; phrase = bytes_of "測試"; freq = 9319; time = 1 } ∷ []; life = 2; cap = 65_536 } }
{}

/// Without learning Enter asks nothing.
pub fn known_without_learning()
    ensures { (after_typing without_learning (codes "hk4<E>")).calls ≡ Look (ce4 ∷ []) ∷ [] }
{}

/// Single syllables that follow one another are learnt as one phrase, unless a break or a symbol parts them.
pub fn known_single_syllables()
    ensures joined { last_of 1 (after_typing standard_settings (codes "hk4<V>1g4<E>")).calls ≡ Learn (ce4 ∷ shi4 ∷ []) (bytes_of "策是") 0 9318 ∷ [] }
    ensures broken { last_of 2 (after_typing standard_settings (codes "hk4g4<L><T><E>")).calls
        ≡ Learn (ce4 ∷ []) (bytes_of "策") 200 200 ∷ Learn (shi4 ∷ []) (bytes_of "是") 9000 9000 ∷ [] }
    ensures parted { last_of 2 (after_typing standard_settings (codes "hk4!g4<E>")).calls
        ≡ Learn (ce4 ∷ []) (bytes_of "策") 200 200 ∷ Learn (shi4 ∷ []) (bytes_of "是") 9000 9000 ∷ [] }
{}

/// A full dictionary takes no new pair, which the note tells, and goes on learning those that it has.
pub fn known_full_dictionary()
    ensures lines { last_lines 1 (with_cap 2) (codes "hk4<E>g4<E>hk4g4<E>") ≡ bytes_of "\t0\t\t測試\t\tfull\n" ∷ [] }
    ensures left { (after_typing (with_cap 2) (codes "hk4<E>g4<E>hk4g4<E>hk4<E>")).point.dictionary
        ≡ record {
          pairs = record { key = shi4 ∷ []; phrase = bytes_of "是"; freq = 9000; time = 1 }
              ∷ record { key = ce4 ∷ []; phrase = bytes_of "策"; freq = 201; time = 2 } ∷ [];
          life = 3;
          cap = 2;
        } }
    ensures hide { last_lines 1 (with_cap 1) (codes "hk4<E>hk4g4<H><K2>") ≡ bytes_of "測試\t0\t\t\t\tfull\n" ∷ [] }
{}

/// A released piece is learnt by itself before the cells that are left are looked up.
pub fn known_released_piece()
    ensures { (after_typing (with_cells 2) (codes "hk4g4hk4")).calls
        ≡ Look (ce4 ∷ []) ∷ Look (ce4 ∷ shi4 ∷ []) ∷ Learn (ce4 ∷ shi4 ∷ []) (bytes_of "測試") 9318 9318 ∷ Look (ce4 ∷ []) ∷ [] }
{}

/// What is hidden and what is learnt stand beside each other.
pub fn known_hiding()
    ensures calls { length (after_typing standard_settings (codes "hk4g4<H><K2><E>hk4g4")).calls ≡ 7 }
    ensures left { (after_typing standard_settings (codes "hk4g4<H><K2><E>hk4g4")).point.dictionary
        ≡ record {
          pairs = record { key = ce4 ∷ shi4 ∷ []; phrase = bytes_of "測試"; freq = 0; time = 2 ^ 64 - 1 }
              ∷ record { key = ce4 ∷ shi4 ∷ []; phrase = bytes_of "策是"; freq = 1; time = 0 } ∷ [];
          life = 1;
          cap = 65_536;
        } }
{}

/// Esc empties the buffer only where the settings say so, and learns nothing.
pub fn known_escape()
    ensures kept { last_lines 1 standard_settings (codes "hk4<X>") ≡ bytes_of "策\t2\t\t\t\tbell\n" ∷ [] }
    ensures cleared { last_lines 1 with_escape (codes "hk4<X>") ≡ bytes_of "\t0\t\t\t\t\n" ∷ [] }
    ensures calls { (after_typing with_escape (codes "hk4<X>")).calls ≡ Look (ce4 ∷ []) ∷ [] }
{}

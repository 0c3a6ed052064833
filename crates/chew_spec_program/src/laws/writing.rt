//! Laws and known values of what a sink takes.

ghost use Rattle.std.specs.Prelude.{◌≡◌, ◌++◌, ℕ, Bool, List, [], Option, Some, codes, false, true};
ghost use Rattle.chew_spec_outside.specs.Faults.{Rose};
ghost use Rattle.chew_spec_outside.specs.Sink.{appended};
ghost use Rattle.chew_spec_program.specs.Writing.{Sunk, Writes, sunk};

/// A sink that doesn't fail took the whole text; one whose count didn't rise doesn't fail.
pub fn whole_texts()
    ensures taken { (sink : Sunk) (text : List ℕ) → Writes sink text false → sink.now ≡ appended sink.before text }
    ensures calm { (sink : Sunk) (text : List ℕ) → (Rose sink.faults_before sink.faults_now → ⊥) → Writes sink text true → ⊥ }
    ensures nothing { (sink : Sunk) → Writes sink [] true → ⊥ }
{}

/// A sink that took one text whole and was then given another was given both; one that failed was given nothing more, and
/// took a front of what would have followed too.
pub fn several_texts()
    ensures joined { (before middle now : Option (List ℕ)) (first second third : ℕ) (one other : List ℕ) (failed : Bool)
        → Writes (sunk before middle first second) one false → Writes (sunk middle now second third) other failed
        → Writes (sunk before now first third) (one ++ other) failed }
    ensures ended { (sink : Sunk) (one other : List ℕ) → Writes sink one true → Writes sink (one ++ other) true }
{}

/// A text of three bytes that is taken whole, in part and not at all.
pub fn known_writes()
    ensures whole { Writes (sunk (Some (codes "x")) (Some (codes "xabc")) 7 7) (codes "abc") false }
    ensures part { Writes (sunk (Some (codes "x")) (Some (codes "xab")) 7 8) (codes "abc") true }
    ensures none { Writes (sunk (Some (codes "x")) (Some (codes "x")) 7 8) (codes "abc") true }
    ensures at_end { Writes (sunk (Some []) (Some []) 18_446_744_073_709_551_615 18_446_744_073_709_551_615) (codes "abc") true }
{}

/// What a sink doesn't take of it: a part without a fault, all beside a fault, a part of it that isn't its front, more
/// than all, or anything with a count that moves otherwise.
pub fn wrong_writes()
    ensures part { Writes (sunk (Some []) (Some (codes "ab")) 0 0) (codes "abc") false → ⊥ }
    ensures whole { Writes (sunk (Some []) (Some (codes "abc")) 0 1) (codes "abc") true → ⊥ }
    ensures later { Writes (sunk (Some []) (Some (codes "c")) 0 1) (codes "abc") true → ⊥ }
    ensures more { Writes (sunk (Some []) (Some (codes "abca")) 0 0) (codes "abc") false → ⊥ }
    ensures risen { Writes (sunk (Some []) (Some (codes "abc")) 0 1) (codes "abc") false → ⊥ }
    ensures calm { Writes (sunk (Some []) (Some (codes "ab")) 0 0) (codes "abc") true → ⊥ }
    ensures forgotten { Writes (sunk (Some (codes "x")) (Some (codes "abc")) 0 0) (codes "abc") false → ⊥ }
{}

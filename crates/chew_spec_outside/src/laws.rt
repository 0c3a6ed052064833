//! Laws of the definitions.

ghost use Rattle.std.specs.Prelude.{◌≡◌, ℕ, ◌+◌, ◌-◌, ◌^◌, ◌<◌, ◌≤◌, Bool, true, false, ◌||◌, List, [], ◌∷◌, ◌++◌, length, take, drop, Option, Some, None};
ghost use Rattle.chew_spec_outside.specs.FailingCalls.{names};
ghost use Rattle.chew_spec_outside.specs.Faults.{HasCause, Rose, risen};
ghost use Rattle.chew_spec_outside.specs.Memory.{counted, new_sink, new_source};
ghost use Rattle.chew_spec_outside.specs.Sink.{Takes, appended};
ghost use Rattle.chew_spec_outside.specs.Source.{Loses, Reads, ReadsText, ReadsUpTo};

/// A count that is not at its type's end rose by one at least.
pub fn rose_below_the_end()
    ensures { (before now : ℕ) → before < 2 ^ 64 - 1 → Rose before now → before < now }
{}

/// Counts of faults that are known: the first, some in the middle, and the last of their type, where a
/// fault leaves the count.
pub fn known_counts()
    ensures first { risen 0 ≡ 1 }
    ensures last { risen (2 ^ 64 - 2) ≡ 2 ^ 64 - 1 }
    ensures past_last { risen (2 ^ 64 - 1) ≡ 2 ^ 64 - 1 }
    ensures rose { Rose 4 5 }
    ensures stayed { Rose 4 4 → ⊥ }
    ensures at_last { Rose (2 ^ 64 - 1) (2 ^ 64 - 1) }
    ensures before_last { Rose (2 ^ 64 - 2) (2 ^ 64 - 2) → ⊥ }
    ensures failed { counted true 4 ≡ 5 }
    ensures worked { counted false 4 ≡ 4 }
{}

/// What a call's count says of it: a failure has its rise, a call that worked leaves the count, and
/// no call lowers it.
pub fn known_causes()
    ensures failed { HasCause 4 5 true }
    ensures failed_without_rise { HasCause 4 4 true → ⊥ }
    ensures failed_at_last { HasCause (2 ^ 64 - 1) (2 ^ 64 - 1) true }
    ensures failed_before_last { HasCause (2 ^ 64 - 2) (2 ^ 64 - 2) true → ⊥ }
    ensures worked { HasCause 4 4 false }
    ensures worked_with_rise { HasCause 4 5 false → ⊥ }
    ensures failed_and_fell { HasCause 5 4 true → ⊥ }
    ensures worked_and_fell { HasCause 5 4 false → ⊥ }
    ensures never_falls { (before now : ℕ) (failed : Bool) → HasCause before now failed → before ≤ now }
{}

/// A rise in one of two calls is a rise of both together, and their faults have their cause in
/// both together.
pub fn counts_chain()
    ensures before { (first middle last : ℕ) → first ≤ middle → Rose middle last → Rose first last }
    ensures after { (first middle last : ℕ) → Rose first middle → middle ≤ last → Rose first last }
    ensures causes { (first middle last : ℕ) (one other : Bool) →
        HasCause first middle one → HasCause middle last other → HasCause first last (one || other) }
{}

/// Texts that are read in several reads.
pub fn reads_chain()
    ensures none { (left : Option (List ℕ)) → ReadsText left left [] }
    ensures more { (before middle after : Option (List ℕ)) (text buffer filled : List ℕ) (n : ℕ) →
        ReadsText before middle text → Reads middle after buffer filled n →
        ReadsText before after (text ++ take n filled) }
    ensures full { (before after : Option (List ℕ)) (text : List ℕ) →
        ReadsText before after text → ReadsUpTo before after text (length text) }
    ensures ended { (before middle after : Option (List ℕ)) (text buffer filled : List ℕ) (most : ℕ) →
        ReadsText before middle text → Reads middle after buffer filled 0 → 0 < length buffer →
        length text ≤ most → ReadsUpTo before after text most }
    ensures lost { (before middle after : Option (List ℕ)) (text : List ℕ) (most limit : ℕ) →
        ReadsText before middle text → Loses middle after most → length text + most ≤ limit → Loses before after limit }
    ensures gone { (before after : Option (List ℕ)) (text : List ℕ) (limit : ℕ) →
        ReadsText before after text → length text ≤ limit → Loses before after limit }
{}

/// Reads that are known, of a source that has 1, 2, 3 left and of one that doesn't tell.
pub fn known_reads()
    ensures one { Reads (Some (1 ∷ 2 ∷ 3 ∷ [])) (Some (2 ∷ 3 ∷ [])) (9 ∷ 9 ∷ []) (1 ∷ 9 ∷ []) 1 }
    ensures rest_of_buffer { Reads (Some (1 ∷ 2 ∷ 3 ∷ [])) (Some (2 ∷ 3 ∷ [])) (9 ∷ 9 ∷ []) (1 ∷ 0 ∷ []) 1 → ⊥ }
    ensures other_byte { Reads (Some (1 ∷ 2 ∷ 3 ∷ [])) (Some (2 ∷ 3 ∷ [])) (9 ∷ 9 ∷ []) (2 ∷ 9 ∷ []) 1 → ⊥ }
    ensures nothing_left_out { Reads (Some (1 ∷ 2 ∷ 3 ∷ [])) (Some (3 ∷ [])) (9 ∷ 9 ∷ []) (1 ∷ 9 ∷ []) 1 → ⊥ }
    ensures end { Reads (Some []) (Some []) (9 ∷ []) (9 ∷ []) 0 }
    ensures no_end { Reads (Some (1 ∷ [])) (Some (1 ∷ [])) (9 ∷ []) (9 ∷ []) 0 → ⊥ }
    ensures no_room { Reads (Some (1 ∷ [])) (Some (1 ∷ [])) [] [] 0 }
    ensures past_end { Reads (Some (1 ∷ [])) (Some []) (9 ∷ 9 ∷ []) (1 ∷ 9 ∷ []) 2 → ⊥ }
    ensures untold { Reads None None (9 ∷ []) (5 ∷ []) 1 }
    ensures too_many { Reads None None (9 ∷ []) (5 ∷ []) 2 → ⊥ }
{}

/// What a read that failed may have lost, of a source that had 1, 2, 3 left and room for two.
pub fn known_losses()
    ensures none { Loses (Some (1 ∷ 2 ∷ 3 ∷ [])) (Some (1 ∷ 2 ∷ 3 ∷ [])) 2 }
    ensures two { Loses (Some (1 ∷ 2 ∷ 3 ∷ [])) (Some (3 ∷ [])) 2 }
    ensures three { Loses (Some (1 ∷ 2 ∷ 3 ∷ [])) (Some []) 2 → ⊥ }
    ensures other_bytes { Loses (Some (1 ∷ 2 ∷ 3 ∷ [])) (Some (2 ∷ [])) 2 → ⊥ }
    ensures gained { Loses (Some (1 ∷ [])) (Some (0 ∷ 1 ∷ [])) 2 → ⊥ }
    ensures untold { Loses None None 2 }
{}

/// Bounded reads that are known, of a source that has 1, 2, 3 left: at most the bound, and no less
/// where there is more.
pub fn known_bounded_reads()
    ensures bounded { ReadsUpTo (Some (1 ∷ 2 ∷ 3 ∷ [])) (Some (3 ∷ [])) (1 ∷ 2 ∷ []) 2 }
    ensures whole { ReadsUpTo (Some (1 ∷ 2 ∷ 3 ∷ [])) (Some []) (1 ∷ 2 ∷ 3 ∷ []) 4 }
    ensures less { ReadsUpTo (Some (1 ∷ 2 ∷ 3 ∷ [])) (Some (2 ∷ 3 ∷ [])) (1 ∷ []) 2 → ⊥ }
    ensures more { ReadsUpTo (Some (1 ∷ 2 ∷ 3 ∷ [])) (Some []) (1 ∷ 2 ∷ 3 ∷ []) 2 → ⊥ }
    ensures other_byte { ReadsUpTo (Some (1 ∷ 2 ∷ 3 ∷ [])) (Some (3 ∷ [])) (1 ∷ 3 ∷ []) 2 → ⊥ }
    ensures left_behind { ReadsUpTo (Some (1 ∷ 2 ∷ 3 ∷ [])) (Some []) (1 ∷ 2 ∷ []) 2 → ⊥ }
    ensures told { (left text : List ℕ) (after : Option (List ℕ)) (most : ℕ) →
        ReadsUpTo (Some left) after text most → (text ≡ take most left) × (after ≡ Some (drop most left)) }
    ensures untold { ReadsUpTo None None (7 ∷ []) 1 }
    ensures untold_bound { ReadsUpTo None None (7 ∷ 8 ∷ []) 1 → ⊥ }
{}

/// Writes that are known, of the piece 1, 2 to a sink that has taken 7.
pub fn known_writes()
    ensures one { Takes (Some (7 ∷ [])) (Some (7 ∷ 1 ∷ [])) (1 ∷ 2 ∷ []) 1 }
    ensures all { Takes (Some (7 ∷ [])) (Some (7 ∷ 1 ∷ 2 ∷ [])) (1 ∷ 2 ∷ []) 2 }
    ensures none { Takes (Some (7 ∷ [])) (Some (7 ∷ [])) (1 ∷ 2 ∷ []) 0 → ⊥ }
    ensures none_of_nothing { Takes (Some (7 ∷ [])) (Some (7 ∷ [])) [] 0 }
    ensures past_end { Takes (Some (7 ∷ [])) (Some (7 ∷ 1 ∷ 2 ∷ [])) (1 ∷ 2 ∷ []) 3 → ⊥ }
    ensures other_end { Takes (Some (7 ∷ [])) (Some (7 ∷ 2 ∷ [])) (1 ∷ 2 ∷ []) 1 → ⊥ }
    ensures in_front { Takes (Some (7 ∷ [])) (Some (1 ∷ 7 ∷ [])) (1 ∷ 2 ∷ []) 1 → ⊥ }
    ensures nothing_kept { Takes (Some (7 ∷ [])) (Some (7 ∷ [])) (1 ∷ 2 ∷ []) 1 → ⊥ }
    ensures untold { Takes None None (1 ∷ 2 ∷ []) 2 }
{}

/// Texts that are taken in several writes.
pub fn takes_chain()
    ensures twice { (before : Option (List ℕ)) (one other : List ℕ) →
        appended (appended before one) other ≡ appended before (one ++ other) }
    ensures more { (before after : Option (List ℕ)) (text : List ℕ) (done n : ℕ) →
        Takes (appended before (take done text)) after (drop done text) n →
        after ≡ appended before (take (done + n) text) }
{}

/// The first call of a new object has the number 1.
pub fn calls_from_one()
    ensures source { risen (new_source (5 ∷ []) 1 (record { at = []; from = None })).calls ≡ 1 }
    ensures sink { risen (new_sink (record { at = []; from = None })).calls ≡ 1 }
    ensures source_content { (new_source (5 ∷ []) 1 (record { at = []; from = None })).left ≡ 5 ∷ [] }
    ensures sink_content { (new_sink (record { at = []; from = None })).taken ≡ [] }
    ensures source_faults { (new_source (5 ∷ []) 1 (record { at = []; from = None })).faults ≡ 0 }
    ensures sink_faults { (new_sink (record { at = []; from = None })).faults ≡ 0 }
    ensures sink_refused { (new_sink (record { at = []; from = None })).refused ≡ 0 }
{}

/// Known calls that fail or don't.
pub fn known_failing_calls()
    ensures no_zeroth { names (record { at = 0 ∷ []; from = None }) 1 ≡ false }
    ensures none { names (record { at = []; from = None }) 1 ≡ false }
    ensures single { names (record { at = 2 ∷ []; from = None }) 2 ≡ true }
    ensures before_single { names (record { at = 2 ∷ []; from = None }) 1 ≡ false }
    ensures after_single { names (record { at = 2 ∷ []; from = None }) 3 ≡ false }
    ensures before_from { names (record { at = []; from = Some 2 }) 1 ≡ false }
    ensures from { names (record { at = []; from = Some 2 }) 2 ≡ true }
    ensures after_from { names (record { at = []; from = Some 2 }) 3 ≡ true }
    ensures both { names (record { at = 4 ∷ 1 ∷ []; from = Some 9 }) 1 ≡ true }
{}

//! Laws and known values of what `make` tells.

ghost use Rattle.std.specs.Prelude.{◌≡◌, ℕ, List, [], ◌∷◌, Contains, codes, flat_map, length, map};
ghost use Rattle.chew_spec_outside.specs.Faults.{Rose};
ghost use Rattle.chew_spec_dictionary.specs.History.{Entry, after};
ghost use Rattle.chew_spec_text.specs.KeyStroke.{KeyStroke};
ghost use Rattle.chew_spec_text.specs.Line.{with_line_feed};
ghost use Rattle.chew_spec_editor.specs.Sample.{typed};
ghost use Rattle.chew_spec_session.specs.Context.{Basis, talk_in};
ghost use Rattle.chew_spec_program.specs.Make.{IsMake, alone_by, make_basis, summary_of, summary_text, typed_over};
ghost use Rattle.chew_spec_program.specs.Writing.{Sunk};

/// What is told of no key; of two syllables that Enter commits and learns as one phrase, with two look-ups and a learn; of
/// the same and another syllable, which is looked up and learnt too; and of what isn't committed.
pub fn known_summaries()
    ensures none { summary_text (summary_of 0 0 (typed_over make_basis []))
        ≡ flat_map with_line_feed (codes "steps 0" ∷ (codes "keys 0" ∷ (codes "commits 0" ∷ (codes "entries 0" ∷ (codes "life 0" ∷ (codes "pairs 0" ∷ [])))))) }
    ensures one { summary_text (summary_of 2 6 (typed_over make_basis (typed (codes "hk4g4<E>"))))
        ≡ flat_map with_line_feed (codes "steps 2" ∷ (codes "keys 6" ∷ (codes "commits 1" ∷ (codes "entries 3" ∷ (codes "life 1" ∷ (codes "pairs 1" ∷ [])))))) }
    ensures two { summary_text (summary_of 12 10 (typed_over make_basis (typed (codes "hk4g4<E>g4<E><L>"))))
        ≡ flat_map with_line_feed
        (codes "steps 12" ∷ (codes "keys 10" ∷ (codes "commits 2" ∷ (codes "entries 5" ∷ (codes "life 2" ∷ (codes "pairs 2" ∷ [])))))) }
    ensures again { summary_text (summary_of 4 12 (typed_over make_basis (typed (codes "hk4g4<E>hk4g4<E>"))))
        ≡ flat_map with_line_feed
        (codes "steps 4" ∷ (codes "keys 12" ∷ (codes "commits 2" ∷ (codes "entries 6" ∷ (codes "life 2" ∷ (codes "pairs 1" ∷ [])))))) }
    ensures uncommitted { summary_text (summary_of 1 5 (typed_over make_basis (typed (codes "hk4g4"))))
        ≡ flat_map with_line_feed (codes "steps 1" ∷ (codes "keys 5" ∷ (codes "commits 0" ∷ (codes "entries 2" ∷ (codes "life 0" ∷ (codes "pairs 0" ∷ [])))))) }
{}

/// What an editor alone typed is a talk, whose replies its own calls got in one history.
pub fn typing_is_a_talk()
    ensures talk { (basis : Basis) (keys : List KeyStroke) → talk_in basis (alone_by (typed_over basis keys).calls) 1 keys
        ≡ record { calls = (typed_over basis keys).calls; lines = (typed_over basis keys).lines; editor = (typed_over basis keys).editor; replies = [] } }
    ensures point { (basis : Basis) (keys : List KeyStroke) → (typed_over basis keys).point ≡ after basis.start (alone_by (typed_over basis keys).calls) }
    ensures each { (basis : Basis) (keys : List KeyStroke) → length (typed_over basis keys).lines ≡ length keys }
{}

/// The statuses of `make`: 8 only where the sink's count of faults rose.
pub fn statuses_of_make()
    ensures listed { (number : ℕ) (sink : Sunk) (status : ℕ) → IsMake number sink status → Contains (0 ∷ (8 ∷ (10 ∷ []))) status }
    ensures sink { (number : ℕ) (sink : Sunk) (status : ℕ) → IsMake number sink status → status ≡ 8 → Rose sink.faults_before sink.faults_now }
{}

ghost use Rattle.std.specs.Prelude.{IsTrue};
ghost use Rattle.std.specs.List.{list_all};
ghost use Rattle.chew_spec_syllable.specs.Row.{is_row};

use chew_plain::Lexicon;

/// What every lexicon keeps: its rows are rows. It does nothing, and is there for proofs alone.
pub(crate) fn all_are_rows<L: Lexicon>(system: &L)
    ensures { IsTrue (list_all is_row (L.rows system.now)) }
{
    let _none = system.count(&[]);
}

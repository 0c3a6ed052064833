ghost use Rattle.std.specs.Prelude.{◌≡◌, IsTrue};
ghost use Rattle.std.specs.List.{list_all};
ghost use Rattle.chew_spec_syllable.specs.Row.{is_row};
ghost use Rattle.chew_spec_layers.specs.Mark.{is_proper_mark, row_of_mark};
ghost use Rattle.chew_buffer.specs.Marks.{marked_of, meaning};
ghost use Rattle.chew_merge.specs.Rest.{ahead};

use chew_buffer::{Mark, MarkRef};
use chew_syllable::{KeyRow, Phrase};
use chew_trie_read::EachIter;

/// The first of the rows that are left, if there is one.
pub(crate) fn next_row(rows: &mut EachIter<'_>) -> Option<KeyRow>
    requires { IsTrue (list_all is_row rows.old) }
    ensures { ahead result rows.new ≡ rows.old }
{
    let (key, row) = rows.next()?;
    Some(KeyRow {
        key,
        phrase: Phrase::of(row.phrase),
        freq: row.freq,
        time: row.time,
    })
}

/// The row that a mark gives its pair; a grave gives none.
pub(crate) fn live_row(mark: &MarkRef<'_>) -> Option<KeyRow>
    requires { IsTrue (is_proper_mark (marked_of mark.now.key.now mark.now.phrase.now mark.now.mark)) }
    ensures { result ≡ row_of_mark mark.now.key.now mark.now.phrase.now (meaning mark.now.mark) }
{
    match mark.mark {
        Mark::Live { freq, time } => Some(KeyRow {
            key: mark.key.copy(),
            phrase: mark.phrase.copy(),
            freq,
            time,
        }),
        Mark::Grave => None,
    }
}

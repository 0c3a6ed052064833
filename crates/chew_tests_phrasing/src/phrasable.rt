//! Whether a run surely has a segmentation.

ghost use Rattle.std.specs.Prelude.{◌≡◌, ◌==◌, ◌<◌, ◌≤◌, ℕ, AllPairs, IsTrue, false, nat_le, nat_lt, true};
ghost use Rattle.std.specs.List.{list_all, list_any};
ghost use Rattle.chew_spec_phrasing.specs.CanSegment.{CanSegment, cell_at, interval_of};
ghost use Rattle.chew_spec_phrasing.specs.CombinedRows.{is_hit_at};
ghost use Rattle.chew_spec_phrasing.specs.Usable.{choice_end, meets, phrase_len};

use chew_phrasing::Choice;
use chew_plain::Hit;

/// Whether rows and choices surely have a segmentation of a run of so many cells.
pub(crate) fn can_segment(rows: &[Hit], choices: &[Choice], count: usize) -> bool
    requires { count ≤ 39 }
    ensures { IsTrue result → CanSegment rows.now choices.now count }
{
    if !have_lengths(rows) {
        return false;
    }
    if !have_cells(choices) {
        return false;
    }
    if !are_within(choices, count) {
        return false;
    }
    if !are_apart(choices) {
        return false;
    }
    have_singles(rows, choices, count)
}

/// Whether a row has as many characters as its length.
fn has_length(row: &Hit) -> bool
    ensures { result ≡ (phrase_len row.now.phrase == row.now.len) }
{
    row.phrase.characters() == usize::from(row.len)
}

/// Whether each row has as many characters as its length.
fn have_lengths(rows: &[Hit]) -> bool
    ensures { result ≡ list_all (λ row. phrase_len row.phrase == row.len) rows.now }
{
    rows.iter().all(|row| has_length(row))
}

/// Whether a choice has a character.
fn has_cell(choice: &Choice) -> bool
    ensures { result ≡ nat_lt 0 (phrase_len choice.now.phrase) }
{
    0 < choice.phrase.characters()
}

/// Whether each choice has a character.
fn have_cells(choices: &[Choice]) -> bool
    ensures { result ≡ list_all (λ choice. nat_lt 0 (phrase_len choice.phrase)) choices.now }
{
    choices.iter().all(|choice| has_cell(choice))
}

/// Where a choice ends.
fn end_of(choice: &Choice) -> usize
    ensures { result ≡ choice_end choice.now }
{
    usize::from(choice.start) + choice.phrase.characters()
}

/// Whether a choice ends within a run of so many cells.
fn is_within(choice: &Choice, count: usize) -> bool
    ensures { result ≡ nat_le (choice_end choice.now) count }
{
    end_of(choice) <= count
}

/// Whether each choice ends within a run of so many cells.
fn are_within(choices: &[Choice], count: usize) -> bool
    ensures { result ≡ list_all (λ choice. nat_le (choice_end choice) count) choices.now }
{
    choices.iter().all(|choice| is_within(choice, count))
}

/// Whether two choices have a cell in common.
fn have_common(choice: &Choice, other: &Choice) -> bool
    ensures { result ≡ meets (interval_of choice.now) other.now }
{
    usize::from(other.start) < end_of(choice) && usize::from(choice.start) < end_of(other)
}

/// Whether a choice has a cell in common with one of the others.
fn has_common(choice: &Choice, others: &[Choice]) -> bool
    ensures { result ≡ list_any (meets (interval_of choice.now)) others.now }
{
    others.iter().any(|other| have_common(choice, other))
}

/// Whether no two choices have a cell in common.
fn are_apart(choices: &[Choice]) -> bool
    ensures { IsTrue result → AllPairs (λ choice other. meets (interval_of choice) other ≡ false) choices.now }
{
    match choices {
        [] => true,
        [choice, rest @ ..] => {
            if has_common(choice, rest) {
                return false;
            }
            are_apart(rest)
        }
    }
}

/// Whether a choice has the cell.
fn has_chosen(choice: &Choice, cell: usize) -> bool
    requires { cell < 39 }
    ensures { result ≡ meets (cell_at cell) choice.now }
{
    usize::from(choice.start) < cell + 1 && cell < end_of(choice)
}

/// Whether some choice has the cell.
fn is_chosen(choices: &[Choice], cell: usize) -> bool
    requires { cell < 39 }
    ensures { result ≡ list_any (meets (cell_at cell)) choices.now }
{
    choices.iter().any(|choice| has_chosen(choice, cell))
}

/// Whether a row is that of this cell alone.
fn is_single(row: &Hit, cell: usize) -> bool
    ensures { result ≡ is_hit_at (cell_at cell) row.now }
{
    usize::from(row.start) == cell && row.len == 1
}

/// Whether a cell has a row of its own.
fn has_single(rows: &[Hit], cell: usize) -> bool
    requires { cell < 39 }
    ensures { result ≡ list_any (is_hit_at (cell_at cell)) rows.now }
{
    rows.iter().any(|row| is_single(row, cell))
}

/// Whether a cell has a row of its own or is chosen.
fn is_covered(rows: &[Hit], choices: &[Choice], cell: usize) -> bool
    requires { cell < 39 }
    ensures { IsTrue result → list_any (meets (cell_at cell)) choices.now ≡ false → list_any (is_hit_at (cell_at cell)) rows.now ≡ true }
{
    if is_chosen(choices, cell) {
        return true;
    }
    has_single(rows, cell)
}

/// Whether each cell of a run that no choice has has a row of its own.
fn have_singles(rows: &[Hit], choices: &[Choice], count: usize) -> bool
    requires { count ≤ 39 }
    ensures { IsTrue result
        → ((cell : ℕ) → cell < count → list_any (meets (cell_at cell)) choices.now ≡ false → list_any (is_hit_at (cell_at cell)) rows.now ≡ true) }
{
    for cell in 0..count {
        if !is_covered(rows, choices, cell) {
            return false;
        }
    }
    true
}

ghost use Rattle.std.specs.Prelude.{◌≡◌, map, flat_map};
ghost use Rattle.std.specs.Option.{option_map};
ghost use Rattle.chew_spec_layout.specs.Spelling.{combined, joined};
ghost use Rattle.chew_spec_layout.specs.Spellings.{spelling_of};
ghost use Rattle.chew_layout_pinyin.specs.Tables.{groups_of, marks_in, row_of, spelled_of, text_in, texts_in};

use crate::tables::{Row, Spelled, rows};

/// The marks of an initial and of an ending.
pub(crate) type Marks = (&'static str, &'static str);

/// The marks that the letters spell in a list.
fn marks_in(list: &[Spelled], letters: &[u8]) -> Option<&'static str>
    ensures { text_in result ≡ marks_in (map spelled_of list.now) letters.now }
{
    for (spelled, marks) in list {
        if *spelled == letters {
            return Some(*marks);
        }
    }
    None
}

/// The marks that the letters spell in one of the groups.
fn ending_in(groups: &[&'static [Spelled]], letters: &[u8]) -> Option<&'static str>
    ensures { text_in result ≡ marks_in (groups_of groups.now) letters.now }
{
    for group in groups {
        if let Some(marks) = marks_in(group, letters) {
            return Some(marks);
        }
    }
    None
}

/// The marks that the letters spell with this initial.
fn behind(initial: Spelled, endings: &[&'static [Spelled]], letters: &[u8]) -> Option<Marks>
    ensures { texts_in result ≡ marks_in (map (joined (spelled_of initial.entry)) (groups_of endings.now)) letters.now }
{
    let (spelled, marks) = initial;
    let rest = letters.strip_prefix(spelled)?;
    let ending = ending_in(endings, rest)?;
    Some((marks, ending))
}

/// The marks that the letters spell in a row.
fn in_row(row: Row, letters: &[u8]) -> Option<Marks>
    ensures { texts_in result ≡ marks_in (row_of row) letters.now }
{
    for initial in row.initials {
        if let Some(marks) = behind(*initial, row.endings, letters) {
            return Some(marks);
        }
    }
    None
}

/// The marks that the letters spell.
#[tactic(auto, unfolding(chew_spec_layout::specs::Spellings::spelling_of))]
pub(crate) fn marks_of(letters: &[u8]) -> Option<Marks>
    ensures { texts_in result ≡ option_map (λ spelling. spelling.marks) (spelling_of letters.now) }
{
    for row in rows() {
        if let Some(marks) = in_row(*row, letters) {
            return Some(marks);
        }
    }
    None
}

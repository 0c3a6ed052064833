ghost use Rattle.std.specs.Prelude.{◌≡◌, ◌++◌, IfOk, OnOk, decimal, flat_map, zip};
ghost use Rattle.chew_spec_editor.specs.Editor.{candidate_text, window_text};

use chew_candidates::Window;
use chew_plain::Hit;
use chew_syllable::NoMemory;
use itoa::Buffer;
use std::alloc::Global;

/// The page, the number of pages, and the candidates of the page behind the keys that pick them.
#[tactic(auto, unfolding(chew_spec_editor::specs::Editor::window_text))]
pub(crate) fn window_text(
    alloc: Global,
    selection: &[u8],
    window: &Window,
) -> Result<Vec<u8>, NoMemory>
    ensures { IfOk result (λ text. text.items ≡ window_text selection.now window.now) }
{
    let mut text = Vec::new(alloc);
    push_number(&mut text, window.page_number())?;
    text.push(b'/')?;
    push_number(&mut text, window.pages())?;
    push_candidates(&mut text, selection, window.on_page())?;
    Ok(text)
}

/// Adds a number in decimal digits.
fn push_number(text: &mut Vec<u8>, number: u64) -> Result<(), NoMemory>
    ensures { OnOk result (text.new.items ≡ text.old.items ++ decimal number) }
{
    text.extend_from_slice(Buffer::new().format(number).as_bytes())?;
    Ok(())
}

/// Adds each candidate behind a space and its key.
fn push_candidates(text: &mut Vec<u8>, keys: &[u8], hits: &[Hit]) -> Result<(), NoMemory>
    ensures { OnOk result (text.new.items ≡ text.old.items ++ flat_map candidate_text (zip keys.now hits.now)) }
{
    match keys {
        [key, other_keys @ ..] => match hits {
            [hit, other_hits @ ..] => {
                push_candidate(text, *key, hit)?;
                push_candidates(text, other_keys, other_hits)
            }
            [] => Ok(()),
        },
        [] => Ok(()),
    }
}

/// Adds a candidate behind a space and its key.
fn push_candidate(text: &mut Vec<u8>, key: u8, hit: &Hit) -> Result<(), NoMemory>
    ensures { OnOk result (text.new.items ≡ text.old.items ++ candidate_text (key, hit.now)) }
{
    text.push(b' ')?;
    text.push(key)?;
    text.extend_from_slice(hit.phrase.text().as_bytes())?;
    Ok(())
}

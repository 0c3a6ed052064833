ghost use Rattle.std.specs.Prelude.{◌≡◌, nat_eq};
ghost use Rattle.std.specs.List.{starts_with};
ghost use Rattle.chew_spec_image.specs.Fields.{magic};
ghost use Rattle.chew_spec_program.specs.ImageRows.{rows_of_image};
ghost use Rattle.chew_spec_program.specs.Opening.{ordered, system_rows};
ghost use Rattle.chew_spec_text.specs.DictionaryText.{dictionary_rows};
ghost use Rattle.chewing_cli.specs.Opens.{IsOrNoMemory, rows_of};
ghost use Rattle.chewing_cli.specs.Refusals.{outcome_of};

use crate::refusal::Refusal;
use chew_plain::RowMap;
use chew_rows::{RowCause, SYSTEM_LIMIT, read_rows};
use chew_trie_image::MAGIC;
use chew_trie_read::Trie;
use std::alloc::Global;

/// The system of a run: the rows of a text, or an image that is read as it is.
#[derive(Drop)]
pub(crate) enum System {
    Text(RowMap),
    Image(Trie),
}

/// The system that bytes are: an image where its first eight bytes say so, and else a text.
pub(crate) fn system_of(alloc: Global, bytes: Vec<u8>) -> Result<System, Refusal>
    ensures { IsOrNoMemory (system_rows bytes.items) (outcome_of rows_of result) }
{
    if is_image(bytes.as_slice()) {
        image_of(bytes)
    } else {
        text_of(alloc, bytes.as_slice())
    }
}

/// Whether bytes begin as an image does.
fn is_image(bytes: &[u8]) -> bool
    ensures { result ≡ starts_with nat_eq bytes.now magic }
{
    bytes.starts_with(&MAGIC)
}

/// The image that bytes are, at most 64 MiB of them.
fn image_of(bytes: Vec<u8>) -> Result<System, Refusal>
    ensures { outcome_of rows_of result ≡ rows_of_image bytes.items }
{
    if bytes.len() > SYSTEM_LIMIT {
        return Err(Refusal::WrongSystem {
            line: 0,
            cause: RowCause::Size,
        });
    }
    match Trie::of(bytes) {
        Ok(trie) => Ok(System::Image(trie)),
        Err(fault) => Err(Refusal::of_image(fault)),
    }
}

/// The rows of a text, in image order.
fn text_of(alloc: Global, text: &[u8]) -> Result<System, Refusal>
    ensures { IsOrNoMemory (ordered (dictionary_rows text.now)) (outcome_of rows_of result) }
{
    match read_rows(alloc, text) {
        Ok(rows) => match RowMap::of(rows) {
            Ok(map) => Ok(System::Text(map)),
            Err(_) => Err(Refusal::NoMemory),
        },
        Err(fault) => Err(Refusal::of_system(fault)),
    }
}

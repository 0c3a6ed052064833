ghost use Rattle.std.specs.Prelude.{◌≡◌, ◌≤◌, ◌∷◌, [], Contains, IfOk, IsTrue, length};
ghost use Rattle.chew_spec_syllable.specs.Row.{image_cmp, no_pair_twice};
ghost use Rattle.chew_spec_dictionary.specs.Order.{in_order};
ghost use Rattle.chew_spec_image.specs.Image.{image};
ghost use Rattle.chew_spec_outside.specs.Faults.{Rose};
ghost use Rattle.chew_spec_program.specs.Build.{IsBuild, image_of_text};
ghost use Rattle.chew_spec_program.specs.Reading.{watched};
ghost use Rattle.chew_spec_program.specs.Writing.{sunk};
ghost use Rattle.chew_commands.specs.Outcome.{GivesOrNoMemory};
ghost use Rattle.chew_commands.specs.Refusals.{IsOrNoMemory};
ghost use Rattle.chew_commands.specs.Refusals.{outcome_of};

use crate::answer::{read_input, tell};
use crate::refusal::Refusal;
use chew_outside::{Sink, Source};
use chew_plain::sort_rows;
use chew_rows::read_rows;
use chew_syllable::{KeyRow, NoMemory};
use chew_trie_write::write_image;
use std::alloc::Global;

/// Writes the image of a dictionary's text of at most 64 MiB. The status is 0, or 8 where the sink failed. Where it is 4, 7 or
/// 10, the sink is given a refusal's line alone: the text has a fault, the source failed, or memory was wanting.
pub fn build_call<I: Source, O: Sink>(alloc: Global, from: &mut I, sink: &mut O) -> u8
    ensures build { IsBuild (watched (I.left from.old) (I.left from.new) (I.faults from.old) (I.faults from.new))
        (sunk (O.taken sink.old) (O.taken sink.new) (O.faults sink.old) (O.faults sink.new)) result }
    ensures source { result ≡ 7 → Rose (I.faults from.old) (I.faults from.new) }
    ensures sink { result ≡ 8 → Rose (O.faults sink.old) (O.faults sink.new) }
    ensures statuses { Contains (0 ∷ 4 ∷ 7 ∷ 8 ∷ 10 ∷ []) result }
{
    let answer = image_from(alloc, from);
    tell(sink, answer)
}

/// The image of the text that a source gives.
fn image_from<I: Source>(alloc: Global, from: &mut I) -> Result<Vec<u8>, Refusal>
    ensures { GivesOrNoMemory image_of_text (watched (I.left from.old) (I.left from.new) (I.faults from.old) (I.faults from.new))
        (outcome_of (λ bytes. bytes.items) result) }
{
    let text = read_input(alloc, from)?;
    image_of_text(alloc, text.as_slice())
}

/// The image of a text's rows.
fn image_of_text(alloc: Global, text: &[u8]) -> Result<Vec<u8>, Refusal>
    ensures { IsOrNoMemory (image_of_text text.now) (outcome_of (λ bytes. bytes.items) result) }
{
    match read_rows(alloc, text) {
        Ok(rows) => match image_of_rows(alloc, rows) {
            Ok(image) => Ok(image),
            Err(NoMemory) => Err(Refusal::NoMemory),
        },
        Err(fault) => Err(Refusal::of_text(fault)),
    }
}

/// The image of rows, put in image order.
fn image_of_rows(alloc: Global, mut rows: Vec<KeyRow>) -> Result<Vec<u8>, NoMemory>
    requires distinct { IsTrue (no_pair_twice rows.items) }
    requires few { length rows.items ≤ 250_000 }
    ensures { IfOk result (λ bytes. bytes.items ≡ image (in_order image_cmp rows.items)) }
{
    sort_rows(&mut rows)?;
    write_image(alloc, rows.as_slice())
}

ghost use Rattle.std.specs.Prelude.{◌≡◌, ◌∷◌, [], Contains, IfOk, IsTrue};
ghost use Rattle.chew_spec_syllable.specs.Row.{is_row};
ghost use Rattle.chew_spec_outside.specs.Faults.{Rose};
ghost use Rattle.chew_spec_text.specs.RowText.{rows_text};
ghost use Rattle.chew_spec_program.specs.ImageRows.{IsCheck, IsDump, check_of, counts_line, dump_of, rows_of_image};
ghost use Rattle.chew_spec_program.specs.Reading.{watched};
ghost use Rattle.chew_spec_program.specs.Writing.{sunk};
ghost use Rattle.chew_commands.specs.Outcome.{GivesOrNoMemory};
ghost use Rattle.chew_commands.specs.Refusals.{IsOrNoMemory};
ghost use Rattle.chew_commands.specs.Refusals.{outcome_of};

use crate::answer::{read_input, tell};
use crate::refusal::Refusal;
use chew_outside::{Sink, Source};
use chew_plain::RowRef;
use chew_rows::{RowCause, SYSTEM_LIMIT, print_rows};
use chew_syllable::{Key, KeyRow, NoMemory, Phrase};
use chew_text::append_decimal;
use chew_trie_read::Trie;
use std::alloc::Global;

/// Tells an image's numbers of rows and of nodes. The status is 0, or 8 where the sink failed. Where it is 4, 7 or 10, the
/// sink is given a refusal's line alone: the bytes are no image or more than 64 MiB, the source failed, or memory was
/// wanting.
pub fn check_call<I: Source, O: Sink>(alloc: Global, from: &mut I, sink: &mut O) -> u8
    ensures check { IsCheck (watched (I.left from.old) (I.left from.new) (I.faults from.old) (I.faults from.new))
        (sunk (O.taken sink.old) (O.taken sink.new) (O.faults sink.old) (O.faults sink.new)) result }
    ensures source { result ≡ 7 → Rose (I.faults from.old) (I.faults from.new) }
    ensures sink { result ≡ 8 → Rose (O.faults sink.old) (O.faults sink.new) }
    ensures statuses { Contains (0 ∷ 4 ∷ 7 ∷ 8 ∷ 10 ∷ []) result }
{
    let answer = counts_from(alloc, from);
    tell(sink, answer)
}

/// Writes the text of an image's rows, in image order. Its statuses and refusals are those of `check_call`.
pub fn dump_call<I: Source, O: Sink>(alloc: Global, from: &mut I, sink: &mut O) -> u8
    ensures dump { IsDump (watched (I.left from.old) (I.left from.new) (I.faults from.old) (I.faults from.new))
        (sunk (O.taken sink.old) (O.taken sink.new) (O.faults sink.old) (O.faults sink.new)) result }
    ensures source { result ≡ 7 → Rose (I.faults from.old) (I.faults from.new) }
    ensures sink { result ≡ 8 → Rose (O.faults sink.old) (O.faults sink.new) }
    ensures statuses { Contains (0 ∷ 4 ∷ 7 ∷ 8 ∷ 10 ∷ []) result }
{
    let answer = text_from(alloc, from);
    tell(sink, answer)
}

/// The numbers of the image that a source gives.
fn counts_from<I: Source>(alloc: Global, from: &mut I) -> Result<Vec<u8>, Refusal>
    ensures { GivesOrNoMemory check_of (watched (I.left from.old) (I.left from.new) (I.faults from.old) (I.faults from.new))
        (outcome_of (λ bytes. bytes.items) result) }
{
    let bytes = read_input(alloc, from)?;
    counts_of(alloc, bytes)
}

/// The numbers of an image.
fn counts_of(alloc: Global, bytes: Vec<u8>) -> Result<Vec<u8>, Refusal>
    ensures { IsOrNoMemory (check_of bytes.items) (outcome_of (λ bytes. bytes.items) result) }
{
    let trie = trie_of(bytes)?;
    match counts_line(alloc, &trie) {
        Ok(line) => Ok(line),
        Err(NoMemory) => Err(Refusal::NoMemory),
    }
}

/// The line that tells the numbers of rows and of nodes.
fn counts_line(alloc: Global, trie: &Trie) -> Result<Vec<u8>, NoMemory>
    ensures { IfOk result (λ line. line.items ≡ counts_line trie.now) }
{
    let mut line = Vec::new(alloc);
    line.extend_from_slice(b"rows ")?;
    append_decimal(&mut line, u64::from(trie.total()))?;
    line.extend_from_slice(b" nodes ")?;
    append_decimal(&mut line, u64::from(trie.nodes()))?;
    line.push(b'\n')?;
    Ok(line)
}

/// The text of the image that a source gives.
fn text_from<I: Source>(alloc: Global, from: &mut I) -> Result<Vec<u8>, Refusal>
    ensures { GivesOrNoMemory dump_of (watched (I.left from.old) (I.left from.new) (I.faults from.old) (I.faults from.new))
        (outcome_of (λ bytes. bytes.items) result) }
{
    let bytes = read_input(alloc, from)?;
    text_of(alloc, bytes)
}

/// The text of an image's rows.
fn text_of(alloc: Global, bytes: Vec<u8>) -> Result<Vec<u8>, Refusal>
    ensures { IsOrNoMemory (dump_of bytes.items) (outcome_of (λ bytes. bytes.items) result) }
{
    let trie = trie_of(bytes)?;
    match rows_text(alloc, &trie) {
        Ok(text) => Ok(text),
        Err(NoMemory) => Err(Refusal::NoMemory),
    }
}

/// The lines of a dictionary's rows.
fn rows_text(alloc: Global, trie: &Trie) -> Result<Vec<u8>, NoMemory>
    ensures { IfOk result (λ text. text.items ≡ rows_text trie.now) }
{
    let rows = rows_of(alloc, trie)?;
    print_rows(alloc, rows.as_slice())
}

/// The rows of a dictionary, in image order.
fn rows_of(alloc: Global, trie: &Trie) -> Result<Vec<KeyRow>, NoMemory>
    ensures { IfOk result (λ rows. rows.items ≡ trie.now) }
{
    let total = trie.total();
    let mut rows = Vec::new(alloc);
    rows.reserve(total as usize)?;
    for (key, row) in trie.each() {
        rows.push(key_row(key, &row))?;
    }
    Ok(rows)
}

/// The row of a key, whose phrase is lent.
fn key_row(key: Key, row: &RowRef) -> KeyRow
    requires { IsTrue (is_row (record { key = key; phrase = row.now.phrase.now; freq = row.now.freq; time = row.now.time })) }
    ensures { result ≡ record { key = key; phrase = row.now.phrase.now; freq = row.now.freq; time = row.now.time } }
{
    KeyRow {
        key,
        phrase: Phrase::of(row.phrase),
        freq: row.freq,
        time: row.time,
    }
}

/// The dictionary that bytes are, at most 64 MiB of them.
fn trie_of(bytes: Vec<u8>) -> Result<Trie, Refusal>
    ensures { outcome_of (λ trie. trie) result ≡ rows_of_image bytes.items }
{
    if bytes.len() > SYSTEM_LIMIT {
        return Err(Refusal::WrongText {
            line: 0,
            cause: RowCause::Size,
        });
    }
    match Trie::of(bytes) {
        Ok(trie) => Ok(trie),
        Err(fault) => Err(Refusal::of_image(fault)),
    }
}

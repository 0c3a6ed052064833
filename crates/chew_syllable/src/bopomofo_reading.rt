ghost use Rattle.std.specs.Prelude.{◌≡◌, ◌+◌, ◌≤◌, Ok, Err, IfOk, IfErr, length};
ghost use Rattle.std.specs.List.{range_with_len};
ghost use Rattle.chew_syllable.specs.Front.{Reads, block_byte, tone_byte};
ghost use Rattle.chew_spec_syllable.specs.SyllableText.{tone_marks, front_parts, after_parts, code_reading};

use crate::parts::{LAST_FINAL, LAST_INITIAL, LAST_MEDIAL, Parts};
use crate::syllable::{BadSyllable, Syllable};

/// The place of ㄅ in Unicode's block Bopomofo, from which the initials follow one another.
const FIRST_INITIAL: u8 = 0x05;

/// The place of ㄚ, from which the finals follow one another.
const FIRST_FINAL: u8 = 0x1A;

/// The place of ㄧ, from which the medials follow one another.
const FIRST_MEDIAL: u8 = 0x27;

/// The number of the mark that a text begins with, 0 where it begins with none of its kind, and what follows.
#[derive(Drop)]
struct Front<'a> {
    number: u8,
    rest: &'a [u8],
}

/// The third byte of the character of the block Bopomofo that a text begins with, else 0.
fn block_byte(text: &[u8]) -> u8
    ensures { result ≡ block_byte text.now }
{
    match text {
        [0xE3, 0x84, third, ..] => *third,
        _ => 0,
    }
}

/// Reads one of `count` marks of the block Bopomofo, from its place `first` on.
fn read_block(text: &[u8], first: u8, count: u8) -> Front<'_>
    requires { first + count ≤ 64 }
    ensures value { Reads (range_with_len (0x3100 + first) count) text.now result.number result.rest.now }
    ensures range { result.number ≤ count }
    ensures shorter { length result.rest.now ≤ length text.now }
{
    let byte = block_byte(text);
    let least = 0x80 + first;
    if byte < least {
        return Front {
            number: 0,
            rest: text,
        };
    }
    if byte >= least + count {
        return Front {
            number: 0,
            rest: text,
        };
    }
    Front {
        number: byte - least + 1,
        rest: &text[3..],
    }
}

/// The second byte of a tone's mark that a text begins with, or of another character of its lead; else 0.
fn tone_byte(text: &[u8]) -> u8
    ensures { result ≡ tone_byte text.now }
{
    match text {
        [0xCB, second, ..] => *second,
        _ => 0,
    }
}

/// Reads a tone.
fn read_tone(text: &[u8]) -> Front<'_>
    ensures value { Reads tone_marks text.now result.number result.rest.now }
    ensures range { result.number ≤ 4 }
    ensures shorter { length result.rest.now ≤ length text.now }
{
    match tone_byte(text) {
        0x99 => Front {
            number: 1,
            rest: &text[2..],
        },
        0x8A => Front {
            number: 2,
            rest: &text[2..],
        },
        0x87 => Front {
            number: 3,
            rest: &text[2..],
        },
        0x8B => Front {
            number: 4,
            rest: &text[2..],
        },
        _ => Front {
            number: 0,
            rest: text,
        },
    }
}

/// The parts that a text begins with, and what follows.
#[derive(Drop)]
struct FrontParts<'a> {
    parts: Parts,
    rest: &'a [u8],
}

/// Reads an initial, a medial, a final and a tone, each where it is there.
fn read_parts(text: &[u8]) -> FrontParts<'_>
    ensures parts { result.parts ≡ front_parts text.now }
    ensures rest { result.rest.now ≡ after_parts text.now }
    ensures shorter { length result.rest.now ≤ length text.now }
{
    let initial = read_block(text, FIRST_INITIAL, LAST_INITIAL);
    let medial = read_block(initial.rest, FIRST_MEDIAL, LAST_MEDIAL);
    let final_ = read_block(medial.rest, FIRST_FINAL, LAST_FINAL);
    let tone = read_tone(final_.rest);
    FrontParts {
        parts: Parts {
            initial: initial.number,
            medial: medial.number,
            final_: final_.number,
            tone: tone.number,
        },
        rest: tone.rest,
    }
}

/// Reads a syllable: its marks in the order of its parts, and nothing else.
#[tactic(auto, unfolding(chew_spec_syllable::specs::SyllableText::syllable_reading))]
pub fn read_bopomofo(text: &[u8]) -> Result<Syllable, BadSyllable>
    ensures ok { IfOk result (λ syllable. code_reading text.now ≡ Ok syllable) }
    ensures err { IfErr result (λ bad. code_reading text.now ≡ Err bad.place) }
{
    let front = read_parts(text);
    if !front.rest.is_empty() {
        let place = text.len() - front.rest.len();
        return Err(BadSyllable { place });
    }
    match Syllable::of(front.parts) {
        Some(syllable) => Ok(syllable),
        None => Err(BadSyllable { place: text.len() }),
    }
}

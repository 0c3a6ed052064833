ghost use Rattle.std.specs.Prelude.{◌≡◌, ◌++◌, IfOk, OnOk, flat_map};
ghost use Rattle.chew_spec_text.specs.Line.{with_line_feed};
ghost use Rattle.chew_spec_generator.specs.Generator.{draw_of, draws_from, generated, line_of_draws, lines_from, next_number, number_after, step_text};

use chew_syllable::NoMemory;
use std::alloc::Global;

/// The factor of the generator, modulo 2^64.
const FACTOR: u64 = 6_364_136_223_846_793_005;

/// Its summand.
const SUMMAND: u64 = 1_442_695_040_888_963_407;

/// What a number is divided by to give a draw, 2^33.
const DRAW_DIVISOR: u64 = 8_589_934_592;

/// How many lines of steps a script has.
const LINES: u32 = 256;

/// How many steps a line has.
const STEPS: u32 = 16;

/// The text of the script that is generated for a number: 4,096 steps of context 1 in 256 lines, and a line of Enter. Only
/// want of memory is told.
#[tactic(auto, using(crate::proofs::Generated::script_ended))]
pub fn generate(alloc: Global, number: u64) -> Result<Vec<u8>, NoMemory>
    ensures { IfOk result (λ text. text.items ≡ generated number) }
{
    let mut text = Vec::new(alloc);
    push_lines(&mut text, number, LINES)?;
    text.extend_from_slice(b"1:<E>\n")?;
    Ok(text)
}

/// Appends so many lines of steps behind a number.
fn push_lines(text: &mut Vec<u8>, number: u64, count: u32) -> Result<(), NoMemory>
    ensures { OnOk result (text.new.items ≡ text.old.items ++ flat_map with_line_feed (lines_from count number)) }
{
    if count == 0 {
        return Ok(());
    }
    let next = push_line(text, number)?;
    push_lines(text, next, count - 1)
}

/// Appends a line of steps behind a number, and answers the number of its last step.
fn push_line(text: &mut Vec<u8>, number: u64) -> Result<u64, NoMemory>
    ensures text { OnOk result (text.new.items ≡ text.old.items ++ with_line_feed (line_of_draws (draws_from 16 number))) }
    ensures number { IfOk result (λ next. next ≡ number_after 16 number) }
{
    text.extend_from_slice(b"1:")?;
    let next = push_steps(text, number, STEPS)?;
    text.push(b'\n')?;
    Ok(next)
}

/// Appends the keys of so many steps behind a number, and answers the number of the last one.
#[tactic(auto, using(crate::proofs::Generated::no_number, crate::proofs::Generated::number_more))]
fn push_steps(text: &mut Vec<u8>, number: u64, count: u32) -> Result<u64, NoMemory>
    ensures text { OnOk result (text.new.items ≡ text.old.items ++ flat_map step_text (draws_from count number)) }
    ensures number { IfOk result (λ next. next ≡ number_after count number) }
{
    if count == 0 {
        return Ok(number);
    }
    let next = next_number(number);
    text.extend_from_slice(step_text(draw_of(next)).as_bytes())?;
    push_steps(text, next, count - 1)
}

/// The number behind a number.
#[tactic(auto, using(crate::proofs::Generated::number_cut))]
fn next_number(number: u64) -> u64
    ensures { result ≡ next_number number }
{
    number.wrapping_mul(FACTOR).wrapping_add(SUMMAND)
}

/// What a number draws, 0 to 7.
fn draw_of(number: u64) -> u64
    ensures { result ≡ draw_of number }
{
    number / DRAW_DIVISOR % 8
}

/// The keys of a step, by what was drawn.
fn step_text(draw: u64) -> &'static str
    ensures { result.now ≡ step_text draw }
{
    if draw < 3 {
        "hk4"
    } else if draw < 5 {
        "g4"
    } else if draw == 5 {
        "hk4g4"
    } else if draw == 6 {
        "<E>"
    } else {
        "<L>"
    }
}

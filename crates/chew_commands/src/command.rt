ghost use Rattle.std.specs.Prelude.{◌≡◌, ◌+◌, ◌<◌, ◌^◌, length, map, option_map};
ghost use Rattle.chew_spec_program.specs.Command.{build_of, command_of, is_name, is_run_command, make_of, named, number_in, run_at, run_of, with_file};
ghost use Rattle.chew_commands.specs.Commands.{command_in, kind_of, run_from, with_name};

use arrayvec::ArrayVec;
use chew_text::number_up_to;

/// The word that asks for the trace.
const TRACE: &str = "--trace";

/// The most digits of the number of `make`.
pub const DIGITS_LIMIT: usize = 20;

/// The words have no form of a command.
#[derive(Clone, Copy, Debug, PartialEq, Eq)]
pub struct Words;

/// What the words ask for; a file or folder is told by the place of its name among the words, counted from 0.
#[derive(Clone, Copy, Debug, PartialEq, Eq)]
pub enum Command {
    /// `run SYSTEM SCRIPT FOLDER`, with an optional SETTINGS, and with `--trace` or without.
    Run {
        trace: bool,
        system: usize,
        script: usize,
        folder: usize,
        settings: Option<usize>,
    },
    /// `build FROM TO`.
    Build {
        from: usize,
        to: usize,
    },
    /// `check FROM`.
    Check {
        from: usize,
    },
    /// `dump FROM`.
    Dump {
        from: usize,
    },
    /// `make NUMBER`.
    Make {
        number: u64,
    },
}

/// The command that the words behind the program's name are. It takes no memory.
#[tactic(auto, unfolding(chew_spec_program::specs::Command::command_of))]
pub fn command_of(words: &[&str]) -> Result<Command, Words>
    ensures { command_in result ≡ command_of (map (λ word. word.now) words.now) }
{
    match words {
        [] => Err(Words),
        [name, rest @ ..] => named(name, rest),
    }
}

/// Whether the words are those of a run.
pub fn is_run(words: &[&str]) -> bool
    ensures { result ≡ is_run_command (map (λ word. word.now) words.now) }
{
    match command_of(words) {
        Ok(Command::Run { .. }) => true,
        _ => false,
    }
}

/// The command of this name, by the words behind it.
fn named(name: &str, words: &[&str]) -> Result<Command, Words>
    ensures { command_in result ≡ named name.now (map (λ word. word.now) words.now) }
{
    match name {
        "run" => run_of(words),
        "build" => build_of(words),
        "check" => with_file(Command::Check { from: 1 }, words),
        "dump" => with_file(Command::Dump { from: 1 }, words),
        "make" => make_of(words),
        _ => Err(Words),
    }
}

/// A run, by the words behind `run`.
#[tactic(auto, using(crate::proofs::RunWords::run_words_read))]
fn run_of(words: &[&str]) -> Result<Command, Words>
    ensures { command_in result ≡ run_of (map (λ word. word.now) words.now) }
{
    run_from(words, 1, false, ArrayVec::new())
}

/// A run, by the words from a place on, and by what was read before: whether the trace was asked for, and the places of the
/// names.
fn run_from(
    words: &[&str],
    place: usize,
    trace: bool,
    names: ArrayVec<usize, 4>,
) -> Result<Command, Words>
    requires { place + length words.now < 2 ^ 64 }
    ensures { command_in result ≡ run_from (map (λ word. word.now) words.now) place trace names.items }
{
    match words {
        [] => run_at(trace, names.as_slice()),
        [word, rest @ ..] => {
            if *word == TRACE {
                if trace {
                    return Err(Words);
                }
                return run_from(rest, place + 1, true, names);
            }
            if !is_name(word) {
                return Err(Words);
            }
            match with_name(names, place) {
                Some(names) => run_from(rest, place + 1, trace, names),
                None => Err(Words),
            }
        }
    }
}

/// The places of names, and one more; `None` where four names are there.
fn with_name(mut names: ArrayVec<usize, 4>, place: usize) -> Option<ArrayVec<usize, 4>>
    ensures { option_map (λ names. names.items) result ≡ with_name names.items place }
{
    if names.is_full() {
        return None;
    }
    names.push(place);
    Some(names)
}

/// The run whose names stand at these places.
fn run_at(trace: bool, names: &[usize]) -> Result<Command, Words>
    ensures { command_in result ≡ run_at trace names.now }
{
    match names {
        [system, script, folder] => Ok(Command::Run {
            trace,
            system: *system,
            script: *script,
            folder: *folder,
            settings: None,
        }),
        [system, script, folder, settings] => Ok(Command::Run {
            trace,
            system: *system,
            script: *script,
            folder: *folder,
            settings: Some(*settings),
        }),
        _ => Err(Words),
    }
}

/// The words behind `build`.
fn build_of(words: &[&str]) -> Result<Command, Words>
    ensures { command_in result ≡ build_of (map (λ word. word.now) words.now) }
{
    match words {
        [from, to] => {
            if !is_name(from) {
                return Err(Words);
            }
            if !is_name(to) {
                return Err(Words);
            }
            Ok(Command::Build { from: 1, to: 2 })
        }
        _ => Err(Words),
    }
}

/// The word behind the name of a command that reads one file.
fn with_file(command: Command, words: &[&str]) -> Result<Command, Words>
    ensures { command_in result ≡ with_file (kind_of command) (map (λ word. word.now) words.now) }
{
    match words {
        [from] => {
            if !is_name(from) {
                return Err(Words);
            }
            Ok(command)
        }
        _ => Err(Words),
    }
}

/// The word behind `make`.
fn make_of(words: &[&str]) -> Result<Command, Words>
    ensures { command_in result ≡ make_of (map (λ word. word.now) words.now) }
{
    match words {
        [digits] => match number_in(digits) {
            Some(number) => Ok(Command::Make { number }),
            None => Err(Words),
        },
        _ => Err(Words),
    }
}

/// The number that 1 to 20 digits write, where it fits.
fn number_in(digits: &str) -> Option<u64>
    ensures { result ≡ number_in digits.now }
{
    if digits.len() > DIGITS_LIMIT {
        return None;
    }
    number_up_to(digits.as_bytes(), u64::MAX)
}

/// Whether the word names a file or folder: it isn't empty, and doesn't begin with `-`.
fn is_name(word: &str) -> bool
    ensures { result ≡ is_name word.now }
{
    match word.as_bytes() {
        [] => false,
        [first, ..] => *first != b'-',
    }
}

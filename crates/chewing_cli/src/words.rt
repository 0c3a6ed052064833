ghost use Rattle.std.specs.Prelude.{◌≡◌, map};
ghost use Rattle.chew_spec_program.specs.Command.{asks_trace, names_settings};

use chew_commands::{Command, command_of};

/// Whether the words are those of a run that names settings.
pub(crate) fn names_settings(words: &[&str]) -> bool
    ensures { result ≡ names_settings (map (λ word. word.now) words.now) }
{
    match command_of(words) {
        Ok(
            Command::Run {
                settings: Some(_),
                ..
            },
        ) => true,
        _ => false,
    }
}

/// Whether the words are those of a run that asks for the trace of its calls.
pub(crate) fn asks_trace(words: &[&str]) -> bool
    ensures { result ≡ asks_trace (map (λ word. word.now) words.now) }
{
    match command_of(words) {
        Ok(Command::Run { trace, .. }) => trace,
        _ => false,
    }
}

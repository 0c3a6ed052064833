ghost use Rattle.std.specs.Prelude.{◌≡◌, ◌≤◌, ℕ, length, Ok, Err, All, IfOk, IsErrOf};
ghost use Rattle.chew_spec_text.specs.Script.{script_of};
ghost use Rattle.chew_script.specs.Faults.{cause_of};

use crate::contexts::Contexts;
use crate::fault::{LineFault, ScriptCause, ScriptFault};
use crate::limits::SCRIPT_LIMIT;
use crate::partial_script::PartialScript;
use chew_text::Lines;
use std::alloc::Global;
use std::marker::Model;

/// What a script says.
#[derive(Debug, Drop)]
pub struct Script {
    /// The keys of each context, from number 1 to the greatest that the script names.
    pub contexts: Contexts,
    /// How many rounds it asks for.
    pub rounds: u32,
}

impl Model for Script {
    ghost use Rattle.chew_spec_text.specs.Script as spec;

    ghost Value = { spec.Script };

    ghost view = { λ script. record { contexts = script.contexts; rounds = script.rounds } };
}

/// Reads a script, which has at most 1 MiB, 16 contexts, 65,536 keys and 64 rounds; refused for its first line that
/// can't be taken. Want of memory is told apart, as `NoMemory`.
pub fn read_script(alloc: Global, text: &[u8]) -> Result<Script, ScriptFault>
    ensures ok { IfOk result (λ script. script_of text.now ≡ Ok script) }
    ensures bad { (line : ℕ) (cause : ScriptCause) → IsErrOf result (ScriptFault.Bad line cause)
        → script_of text.now ≡ Err (record { line = line; cause = cause_of cause }) }
    ensures few_contexts { IfOk result (λ script. length script.contexts ≤ 16) }
    ensures few_keys { IfOk result (λ script. All (λ keys. length keys ≤ 65_536) script.contexts) }
    ensures few_rounds { IfOk result (λ script. script.rounds ≤ 64) }
{
    if text.len() > SCRIPT_LIMIT {
        return Err(ScriptFault::Bad {
            line: 0,
            cause: ScriptCause::Size,
        });
    }
    let mut script = PartialScript::new(alloc);
    let mut lines = Lines::of(text);
    let mut number: u32 = 0;
    'lines: while let Some(line) = lines.next_line() {
        number += 1;
        match script.with_line(line) {
            Ok(more) => script = more,
            Err(LineFault::Bad(cause)) => {
                return Err(ScriptFault::Bad {
                    line: number,
                    cause,
                });
            }
            Err(LineFault::NoMemory) => return Err(ScriptFault::NoMemory),
        }
    }
    Ok(script.script())
}

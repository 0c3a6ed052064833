ghost use Rattle.std.specs.Prelude.{◌≡◌, [], ◌∷◌, IfOk, slice_index_or};
ghost use Rattle.chew_spec_generator.specs.Generator.{generated_keys};
ghost use Rattle.chew_script.specs.Keys.{keys_of, lists_of};

use chew_script::{KeyStroke, Script, ScriptFault, generate, read_script};
use chew_syllable::NoMemory;
use std::alloc::Global;

/// The script that is generated for a number.
pub(crate) fn generated_script(alloc: Global, number: u64) -> Result<Script, NoMemory>
    ensures { IfOk result (λ script. script ≡ record { contexts = generated_keys number ∷ []; rounds = 0 }) }
{
    let text = generate(alloc, number)?;
    match read_script(alloc, text.as_slice()) {
        Ok(script) => Ok(script),
        Err(ScriptFault::NoMemory) => Err(NoMemory),
        Err(ScriptFault::Bad { .. }) => unreachable!(),
    }
}

/// The keys of a script's first context.
pub(crate) fn first_keys(script: &Script) -> &[KeyStroke]
    ensures { keys_of result.now ≡ slice_index_or script.now.contexts 0 [] }
{
    first_context(script.contexts.lists())
}

/// The keys of the first context.
fn first_context(contexts: &[Vec<KeyStroke>]) -> &[KeyStroke]
    ensures { keys_of result.now ≡ slice_index_or (lists_of contexts.now) 0 [] }
{
    match contexts {
        [keys, ..] => keys.as_slice(),
        [] => &[],
    }
}

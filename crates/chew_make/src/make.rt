ghost use Rattle.std.specs.Prelude.{◌≡◌, ◌∷◌, [], Contains, IfOk, IsTrue, length};
ghost use Rattle.std.specs.List.{list_all};
ghost use Rattle.chew_spec_outside.specs.Faults.{Rose};
ghost use Rattle.chew_spec_syllable.specs.Row.{image_cmp};
ghost use Rattle.chew_spec_dictionary.specs.FiveRows.{five_rows};
ghost use Rattle.chew_spec_dictionary.specs.Order.{in_order};
ghost use Rattle.chew_spec_text.specs.KeyStroke.{is_key_stroke};
ghost use Rattle.chew_spec_program.specs.Make.{IsMake, made_of, make_basis, summary_of, typed_over};
ghost use Rattle.chew_spec_program.specs.Writing.{sunk};
ghost use Rattle.chew_script.specs.Keys.{keys_of};

use crate::script::{first_keys, generated_script};
use crate::summary::Summary;
use crate::telling::tell;
use crate::typing::type_keys;
use chew_outside::Sink;
use chew_plain::RowMap;
use chew_samples::five;
use chew_script::KeyStroke;
use chew_settings::Settings;
use chew_syllable::NoMemory;
use std::alloc::Global;

/// Has one editor type the script that is generated for a number, with the standard settings, over the five rows and a
/// dictionary without a pair, and writes six lines that tell what came of it. The status is 0, or 8 where the sink failed.
/// Where it is 10 memory was wanting, and the sink is given the line `memory` alone.
pub fn make_call<O: Sink>(alloc: Global, number: u64, sink: &mut O) -> u8
    ensures make { IsMake number (sunk (O.taken sink.old) (O.taken sink.new) (O.faults sink.old) (O.faults sink.new)) result }
    ensures sink { result ≡ 8 → Rose (O.faults sink.old) (O.faults sink.new) }
    ensures statuses { Contains (0 ∷ 8 ∷ 10 ∷ []) result }
{
    let answer = made(alloc, number);
    tell(sink, answer)
}

/// The six lines of a number.
fn made(alloc: Global, number: u64) -> Result<Vec<u8>, NoMemory>
    ensures { IfOk result (λ text. text.items ≡ made_of number) }
{
    let script = generated_script(alloc, number)?;
    let keys = first_keys(&script);
    let summary = summary_of(alloc, keys)?;
    let text = summary.text(alloc)?;
    Ok(text)
}

/// What comes of these keys.
fn summary_of(alloc: Global, keys: &[KeyStroke]) -> Result<Summary, NoMemory>
    requires { IsTrue (list_all is_key_stroke (keys_of keys.now)) }
    ensures { IfOk result (λ summary. summary ≡ summary_of 4096 (length keys.now) (typed_over make_basis (keys_of keys.now))) }
{
    let settings = Settings::standard();
    let system = five_rows(alloc)?;
    let typist = type_keys(alloc, &settings, &system, keys)?;
    Ok(typist.summary(keys.len() as u64))
}

/// The five rows, in image order.
fn five_rows(alloc: Global) -> Result<RowMap, NoMemory>
    ensures { IfOk result (λ map. map ≡ in_order image_cmp five_rows) }
{
    let rows = five(alloc)?;
    RowMap::of(rows)
}

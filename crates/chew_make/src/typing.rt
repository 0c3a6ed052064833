ghost use Rattle.std.specs.Prelude.{◌≡◌, IfOk, IsTrue};
ghost use Rattle.std.specs.List.{list_all};
ghost use Rattle.chew_spec_text.specs.KeyStroke.{is_key_stroke};
ghost use Rattle.chew_spec_editor.specs.Invariant.{is_settings};
ghost use Rattle.chew_spec_program.specs.Make.{typed_over};
ghost use Rattle.chew_script.specs.Keys.{keys_of};
ghost use Rattle.chew_make.specs.Counts.{basis_in, counted, tally_of};

use crate::typist::Typist;
use chew_plain::RowMap;
use chew_script::KeyStroke;
use chew_settings::Settings;
use chew_syllable::NoMemory;
use std::alloc::Global;

/// Has an editor type keys over rows in image order and a dictionary without a pair.
pub(crate) fn type_keys(
    alloc: Global,
    settings: &Settings,
    system: &RowMap,
    keys: &[KeyStroke],
) -> Result<Typist, NoMemory>
    requires settings { IsTrue (is_settings settings.now) }
    requires keys { IsTrue (list_all is_key_stroke (keys_of keys.now)) }
    ensures { IfOk result (λ typist. tally_of typist ≡ counted (typed_over (basis_in settings.now system.now) (keys_of keys.now))) }
{
    let mut typist = Typist::new(alloc, settings)?;
    for key in keys {
        typist = typist.type_key(alloc, system, *key)?;
    }
    Ok(typist)
}

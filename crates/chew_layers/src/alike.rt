//! What the plain map and layers that stand for it have in common.

ghost use Rattle.std.specs.Prelude.{◌≡◌, ◌++◌, ◌∷◌, [], IsTrue, IfOk, OnOk, false};
ghost use Rattle.chew_spec_dictionary.specs.Call.{is_proper};
ghost use Rattle.chew_spec_dictionary.specs.History.{after, answer, is_keepers, start_of};
ghost use Rattle.chew_plain.specs.Call.{call_of, reply_of};

use crate::layers::Layers;
use chew_plain::{Call, Plain, Reply};
use chew_syllable::NoMemory;

/// Both get the same reply to a call of a user, and the layers go on to stand for the plain map.
pub fn replies(
    plain: &mut Plain,
    layers: &mut Layers,
    who: u32,
    call: &Call,
) -> Result<(Reply, Reply), NoMemory>
    requires same { plain.old ≡ after (start_of layers.old.start) layers.old.journal }
    requires proper { IsTrue (is_proper (call_of call.now)) }
    requires user { is_keepers (call_of call.now) ≡ false }
    ensures reply { IfOk result (λ both. reply_of both.0 ≡ (answer plain.old (call_of call.now)).reply) }
    ensures moved { OnOk result (plain.new ≡ (answer plain.old (call_of call.now)).point) }
    ensures journal { OnOk result (layers.new.journal ≡ layers.old.journal ++ record { who = who; call = call_of call.now } ∷ []) }
    ensures alike { IfOk result (λ both. reply_of both.0 ≡ reply_of both.1) }
    ensures same { OnOk result (plain.new ≡ after (start_of layers.new.start) layers.new.journal) }
{
    let layered = layers.apply(who, call)?;
    let plainly = plain.apply(call)?;
    Ok((plainly, layered))
}

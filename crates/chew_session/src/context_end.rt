use chew_script::Text;
use std::marker::Model;

/// How a context ended: its number, how many of its keys it handled, and their lines.
#[derive(Drop)]
pub struct ContextEnd {
    /// The context's number.
    pub who: u32,
    /// How many of its keys were handled; fewer than there are where memory was refused to it.
    pub handled: u32,
    /// The lines of these keys, as they are printed.
    pub bytes: Text,
}

impl Model for ContextEnd {
    ghost use Rattle.chew_spec_session.specs.Session as spec;

    ghost Value = { spec.ContextEnd };

    ghost view = { λ end. record { who = end.who; handled = end.handled; bytes = end.bytes } };
}

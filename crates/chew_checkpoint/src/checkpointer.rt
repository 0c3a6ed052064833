ghost use Rattle.std.specs.Prelude.{◌≡◌};

use chew_slots::Keep;
use std::marker::Model;

/// Writes checkpoints to the two slots of one disk, by what is known of them.
#[derive(Drop)]
pub struct Checkpointer {
    pub(crate) keep: Keep,
}

impl Model for Checkpointer {
    ghost use Rattle.chew_spec_slots.specs.Keep as spec;

    ghost Value = { spec.Keep };

    ghost view = { λ c. c.keep };
}

impl Checkpointer {
    /// From what recovery, or an earlier writer, knows of the slots.
    pub fn of(keep: Keep) -> Checkpointer
        ensures { result ≡ keep }
    {
        Checkpointer { keep }
    }

    /// The number of the acknowledged checkpoint, 0 where there is none.
    pub fn seq(&self) -> u64
        ensures { result ≡ self.now.seq }
    {
        self.keep.seq()
    }
}

//! Numbers by a fixed rule, which look like chance.

ghost use Rattle.std.specs.Prelude.{◌<◌};

/// A sequence of numbers by a linear rule, each from the one before it.
#[derive(Drop)]
pub(crate) struct Draw {
    state: u32,
}

impl Draw {
    /// The sequence of a start.
    pub(crate) fn from(start: u32) -> Draw {
        Draw { state: start }
    }

    /// The next number below a limit.
    pub(crate) fn below(&mut self, limit: u32) -> u32
        requires { 0 < limit }
        ensures { result < limit }
    {
        self.state = self
            .state
            .wrapping_mul(1_664_525)
            .wrapping_add(1_013_904_223);
        (self.state >> 16) % limit
    }

    /// Whether the next number is the one of so many that counts.
    pub(crate) fn is_one_of(&mut self, limit: u32) -> bool
        requires { 0 < limit }
    {
        self.below(limit) == 0
    }
}

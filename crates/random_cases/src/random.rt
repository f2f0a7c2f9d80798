//! Numbers that a seed determines.
ghost use Rattle.std.specs.Prelude.{◌<◌};

/// A sequence of numbers that a seed determines.
#[derive(Drop)]
pub(crate) struct Random {
    state: u64,
}

impl Random {
    /// The sequence of this seed.
    pub(crate) fn new(seed: u64) -> Random {
        Random { state: seed }
    }

    /// The next number below a limit.
    pub(crate) fn below(&mut self, limit: u32) -> u32
        ensures { 0 < limit → result < limit }
    {
        self.state = self
            .state
            .wrapping_mul(6_364_136_223_846_793_005)
            .wrapping_add(1_442_695_040_888_963_407);
        ((self.state >> 33) as u32) % limit.max(1)
    }
}

//! The limits of a test case.
ghost use Rattle.std.specs.Prelude.{◌<◌, ◌↔◌, IsTrue};
ghost use Rattle.tc_entry.specs.Limits.{IsBehaviours};

/// The most behaviours of a test case.
pub const BEHAVIOURS: usize = 256;

/// The most components of a test case, the main test component among them.
pub const COMPONENTS: usize = 1000;

/// The most arguments of a Start, and so the most parameters of a behaviour.
pub const ARGUMENTS: usize = 4;

/// The most bytes of a name.
pub const NAME_BYTES: usize = 32;

/// Whether a test case may have that many behaviours.
pub fn is_behaviours(number: usize) -> bool
    ensures { IsTrue result ↔ IsBehaviours number }
{
    1 <= number && number <= BEHAVIOURS
}

/// Whether a test case of that many components may have one more.
pub fn may_create(components: usize) -> bool
    ensures { IsTrue result ↔ (components < 1000) }
{
    components < COMPONENTS
}

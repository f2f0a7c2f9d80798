//! What a wait is for.
use tc_entry::Target;

/// What a wait is for: that its target is done, or that it is killed.
#[derive(Clone, Copy, PartialEq, Eq, Debug)]
pub struct Awaited {
    pub killed: bool,
    pub target: Target,
}

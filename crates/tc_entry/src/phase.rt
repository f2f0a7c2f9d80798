//! What a component is doing.
use tc_verdict::Run;

/// What a component is doing; the four phases are this project's own division.
#[derive(Clone, Copy, PartialEq, Eq, Debug)]
pub enum Phase {
    /// Created, not started, not killed.
    Inactive,
    /// The run was started on it, and nothing has halted it since.
    Running(Run),
    /// Alive-type, was started, was halted, is not killed.
    Stopped,
    /// Killed, or ordinary and halted after its start, or the case is over.
    Killed,
}

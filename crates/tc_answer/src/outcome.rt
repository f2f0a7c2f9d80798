//! What comes of a task.
use crate::fault::RunFault;

/// The status of a refused command line or input, and of a fault of the memory or a device.
pub const REFUSED: u8 = 3;

/// What came of a task: the exit status, and what became of the lines on standard error.
#[must_use]
#[derive(Debug, Drop, PartialEq, Eq)]
pub struct Outcome {
    /// The exit status.
    pub status: u8,
    /// That the lines were written whole, or that there were none; otherwise why one was not. The status stays then.
    /// Without memory for the line of a fault, the line that says so was written instead.
    pub told: Result<(), RunFault>,
}

//! What a run waits for under the lock, and what it may lack.

use tc_entry::Target;

/// What a run waits for under the lock.
#[derive(Clone, Copy, Debug, PartialEq, Eq)]
pub(crate) enum Until {
    /// Its start, or the end of the case.
    Start,
    /// The target of its parked wait.
    Wake { killed: bool, target: Target },
}

/// What a run lacks that can't continue.
#[derive(Clone, Copy)]
pub(crate) enum Lack {
    /// A place in the history for its Wake.
    PlaceForWake,
    /// A place in the history for its leaving.
    PlaceForLeaving,
    /// Its word, though it was started.
    Word,
}

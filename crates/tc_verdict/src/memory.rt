//! Out of memory.
ghost use Rattle.std.specs.Prelude.{◌≡◌, Some};
ghost use Rattle.tc_verdict.specs.Words.{memory_text};

use std::alloc::{AllocError, AllocFailed};
use std::fmt;
use thiserror::Error;

/// Memory ran out.
#[derive(Clone, Copy, PartialEq, Eq, Debug, Error)]
pub struct NoMemory;

impl NoMemory {
    /// The words that say so.
    pub fn text(self) -> &'static str
        ensures { result.now ≡ memory_text }
    {
        "no memory"
    }
}

impl fmt::Display for NoMemory {
    ghost output = { λ _. Some memory_text };

    fn fmt<W: fmt::Write>(&self, f: &mut fmt::Formatter<W>) -> fmt::Result {
        f.write_str(self.text())
    }
}

impl From<AllocError> for NoMemory {
    fn from(_: AllocError) -> NoMemory {
        NoMemory
    }
}

impl<T: Drop> From<AllocFailed<T>> for NoMemory {
    fn from(_: AllocFailed<T>) -> NoMemory {
        NoMemory
    }
}

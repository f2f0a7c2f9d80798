//! The first fault of a script.
ghost use Rattle.std.specs.Prelude.{◌≡◌, Some};
ghost use Rattle.tc_reader.specs.{ScriptKind.script_fault_text, ScriptKind.read_fault_text, declared.fault.ReadFault.ReadFault};

use crate::{LineFault, ScriptKind};
use std::alloc::AllocError;
use std::fmt;
use thiserror::Error;

/// The first fault of a script.
#[derive(Clone, Copy, Debug, PartialEq, Eq, Error)]
pub struct ScriptFault {
    /// The number of the line, from 1.
    pub line: usize,
    pub kind: ScriptKind,
}

impl fmt::Display for ScriptFault {
    ghost output = { λ x. Some (script_fault_text x) };

    fn fmt<W: fmt::Write>(&self, f: &mut fmt::Formatter<W>) -> fmt::Result {
        let line = self.line;
        let kind = self.kind;
        write!(f, "line {line}: {kind}")
    }
}

/// Why a script could not be read.
#[derive(Clone, Copy, Debug, PartialEq, Eq, Error)]
pub enum ReadFault {
    /// It spells no campaign.
    Script(ScriptFault),
    /// Memory ran out.
    NoMemory,
}

impl fmt::Display for ReadFault {
    ghost output = { λ x. Some (read_fault_text x) };

    fn fmt<W: fmt::Write>(&self, f: &mut fmt::Formatter<W>) -> fmt::Result {
        match self {
            ReadFault::Script(fault) => fault.fmt(f),
            ReadFault::NoMemory => LineFault::NoMemory.fmt(f),
        }
    }
}

impl From<AllocError> for ReadFault {
    ghost from_gives = { λ _ f. f ≡ ReadFault.NoMemory };

    fn from(_error: AllocError) -> ReadFault {
        ReadFault::NoMemory
    }
}

//! Why a call on a pass was not answered by its value.
ghost use Rattle.std.specs.Prelude.{Some};
ghost use Rattle.tc_book.specs.Passes.{halt_text};

use std::fmt;
use tc_entry::{Fault, name_of_fault};
use tc_verdict::NoMemory;
use thiserror::Error;

/// Why a call on a pass was not answered by its value.
#[derive(Clone, Copy, PartialEq, Eq, Debug, Error)]
pub enum Halt {
    /// The run has ended, or its component was halted.
    Ended,
    /// A dynamic error, which ends the case.
    Fault(Fault),
    /// Memory ran out: nothing was recorded, nothing has changed, and the call may be made again.
    NoMemory,
}

impl fmt::Display for Halt {
    ghost output = { λ halt. Some (halt_text halt) };

    fn fmt<W: fmt::Write>(&self, f: &mut fmt::Formatter<W>) -> fmt::Result {
        match self {
            Halt::Ended => f.write_str("ended"),
            Halt::Fault(fault) => {
                let name = name_of_fault(*fault);
                write!(f, "error {name}")
            }
            Halt::NoMemory => NoMemory.fmt(f),
        }
    }
}

//! Why a text did not go out whole.
ghost use Rattle.std.specs.Prelude.{◌≡◌, Some};
ghost use Rattle.tc_report.specs.{Output.out_text, declared.fault.OutFault.OutFault};

use std::fmt;
use tc_entry::NoMemory;
use tc_stream::WriteFault;
use thiserror::Error;

/// Why a text did not go out whole.
#[derive(Clone, Copy, Debug, PartialEq, Eq, Error)]
pub enum OutFault {
    /// Memory ran out; nothing was written.
    NoMemory,
    /// The writer failed, or took no byte; what was written is a prefix of the text.
    Write,
}

impl OutFault {
    /// The words that name the fault.
    pub fn text(self) -> &'static str
        ensures { result.now ≡ out_text self }
    {
        match self {
            OutFault::NoMemory => NoMemory.text(),
            OutFault::Write => WriteFault.text(),
        }
    }
}

impl fmt::Display for OutFault {
    ghost output = { λ f. Some (out_text f) };

    fn fmt<W: fmt::Write>(&self, f: &mut fmt::Formatter<W>) -> fmt::Result {
        f.write_str(self.text())
    }
}

impl From<NoMemory> for OutFault {
    ghost from_gives = { λ _ r. r ≡ OutFault.NoMemory };

    fn from(_: NoMemory) -> OutFault {
        OutFault::NoMemory
    }
}

impl From<WriteFault> for OutFault {
    ghost from_gives = { λ _ r. r ≡ OutFault.Write };

    fn from(_: WriteFault) -> OutFault {
        OutFault::Write
    }
}

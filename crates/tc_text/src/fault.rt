//! What is wrong with a text.
ghost use Rattle.std.specs.Prelude.{◌≡◌, Some};
ghost use Rattle.tc_text.specs.MoveList.{fault_text, text_kind_text};

use std::fmt;
use tc_verdict::{EARLY_END, NoMemory};
use thiserror::Error;

/// What is wrong with a line of a text.
#[derive(Clone, Copy, PartialEq, Eq, Debug, Error)]
pub enum TextKind {
    /// The first line of a list of moves or of a block is not as it should be.
    FirstLine,
    /// A line is no move.
    Move,
    /// A line inside a block is neither an entry nor the line that ends the block.
    Entry,
    /// The text has no line, or ends inside a block.
    Early,
}

impl TextKind {
    /// The words that name the fault.
    pub fn text(self) -> &'static str
        ensures { result.now ≡ text_kind_text self }
    {
        match self {
            TextKind::FirstLine => "bad first line",
            TextKind::Move => "bad move",
            TextKind::Entry => "bad entry",
            TextKind::Early => EARLY_END,
        }
    }
}

impl fmt::Display for TextKind {
    ghost output = { λ k. Some (text_kind_text k) };

    fn fmt<W: fmt::Write>(&self, f: &mut fmt::Formatter<W>) -> fmt::Result {
        f.write_str(self.text())
    }
}

/// Why a text was not read.
#[derive(Clone, Copy, PartialEq, Eq, Debug, Error)]
pub enum TextFault {
    /// The first fault: the number of its line, counted from 1, and its kind.
    At { line: usize, kind: TextKind },
    /// Memory ran out.
    NoMemory,
}

impl TextFault {
    /// The fault of this kind in the line with this number.
    pub fn at(line: usize, kind: TextKind) -> TextFault
        ensures { result ≡ TextFault.At line kind }
    {
        Self::At { line, kind }
    }
}

impl fmt::Display for TextFault {
    ghost output = { λ x. Some (fault_text x) };

    fn fmt<W: fmt::Write>(&self, f: &mut fmt::Formatter<W>) -> fmt::Result {
        match self {
            TextFault::At { line, kind } => write!(f, "line {line}: {kind}"),
            TextFault::NoMemory => NoMemory.fmt(f),
        }
    }
}

impl From<NoMemory> for TextFault {
    ghost use Rattle.std.specs.Prelude.{◌≡◌};
    ghost use Rattle.tc_text.specs.declared.fault.TextFault.{TextFault};

    ghost from_gives = { λ _ f. f ≡ TextFault.NoMemory };

    fn from(_: NoMemory) -> TextFault {
        TextFault::NoMemory
    }
}

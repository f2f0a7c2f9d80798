//! What is wrong with a line of a script.
ghost use Rattle.std.specs.Prelude.{◌≡◌, Some};
ghost use Rattle.tc_reader.specs.{ScriptKind.line_fault_text, ScriptKind.script_kind_text, declared.kind.LineFault.LineFault};

use std::alloc::{AllocError, AllocFailed};
use std::fmt;
use tc_verdict::{EARLY_END, NoMemory};
use thiserror::Error;

/// What is wrong with a line of a script, in the order in which a line is judged.
#[derive(Clone, Copy, Debug, PartialEq, Eq, Error)]
pub enum ScriptKind {
    /// A byte outside 32 to 126.
    BadByte,
    /// The words are of no form.
    BadLine,
    /// A word in the place of a name or of a component is not allowed there.
    BadName,
    /// The line may not be where it is.
    BadPlace,
    /// The line passes a limit.
    TooMany,
    /// There is no test case, or the text ends inside one.
    Cut,
    /// A name that is used for its kind already, or bound already.
    Twice,
    /// A name of a component that is not bound.
    NoReference,
    /// A name of no behaviour of the test case.
    UnknownBehaviour,
    /// The main component's behaviour has a parameter.
    MainParameters,
    /// Another number of arguments than the behaviour has parameters.
    Arguments,
}

impl ScriptKind {
    /// The text of a fault line.
    pub fn text(self) -> &'static str
        ensures { result.now ≡ script_kind_text self }
    {
        match self {
            ScriptKind::BadByte => "byte not allowed",
            ScriptKind::BadLine => "line not understood",
            ScriptKind::BadName => "bad name",
            ScriptKind::BadPlace => "not allowed here",
            ScriptKind::TooMany => "too many",
            ScriptKind::Cut => EARLY_END,
            ScriptKind::Twice => "name already used",
            ScriptKind::NoReference => "unbound reference",
            ScriptKind::UnknownBehaviour => "unknown behaviour",
            ScriptKind::MainParameters => "main behaviour takes no parameters",
            ScriptKind::Arguments => "wrong number of arguments",
        }
    }
}

impl fmt::Display for ScriptKind {
    ghost output = { λ k. Some (script_kind_text k) };

    fn fmt<W: fmt::Write>(&self, f: &mut fmt::Formatter<W>) -> fmt::Result {
        f.write_str(self.text())
    }
}

/// Why a line could not be read.
#[derive(Clone, Copy, Debug, PartialEq, Eq, Error)]
pub enum LineFault {
    /// What is wrong with the line.
    Kind(ScriptKind),
    /// Memory ran out.
    NoMemory,
}

impl fmt::Display for LineFault {
    ghost output = { λ x. Some (line_fault_text x) };

    fn fmt<W: fmt::Write>(&self, f: &mut fmt::Formatter<W>) -> fmt::Result {
        match self {
            LineFault::Kind(kind) => f.write_str(kind.text()),
            LineFault::NoMemory => NoMemory.fmt(f),
        }
    }
}

impl From<ScriptKind> for LineFault {
    ghost from_gives = { λ kind f. f ≡ LineFault.Kind kind };

    fn from(kind: ScriptKind) -> LineFault {
        LineFault::Kind(kind)
    }
}

impl From<AllocError> for LineFault {
    ghost from_gives = { λ _ f. f ≡ LineFault.NoMemory };

    fn from(_error: AllocError) -> LineFault {
        LineFault::NoMemory
    }
}

impl<T: Drop> From<AllocFailed<T>> for LineFault {
    ghost from_gives = { λ _ f. f ≡ LineFault.NoMemory };

    fn from(_error: AllocFailed<T>) -> LineFault {
        LineFault::NoMemory
    }
}

//! Why a case has no report.
ghost use Rattle.std.specs.Prelude.{◌≡◌, Some};
ghost use Rattle.tc_rules.specs.{Report.of_close, Report.refusal_text, declared.refusal.CaseError.CaseError};

use crate::closed::CloseFault;
use std::alloc::AllocError;
use std::fmt;
use tc_verdict::NoMemory;
use thiserror::Error;

/// Why a case has no report.
#[derive(Clone, Copy, PartialEq, Eq, Debug, Error)]
pub enum CaseError {
    /// There is no behaviour.
    NoBehaviours,
    /// There are more than 256 behaviours.
    TooManyBehaviours,
    /// Memory ran out, in the executor or in a behaviour.
    NoMemory,
    /// A behaviour could not be given a thread; no behaviour was called.
    NoThread,
    /// What the behaviours handed back is not whole.
    Torn,
}

impl CaseError {
    /// The words that say why.
    pub fn text(self) -> &'static str
        ensures { result.now ≡ refusal_text self }
    {
        match self {
            CaseError::NoBehaviours => "no behaviours",
            CaseError::TooManyBehaviours => "too many behaviours",
            CaseError::NoMemory => NoMemory.text(),
            CaseError::NoThread => "no thread",
            CaseError::Torn => CloseFault::Torn.text(),
        }
    }
}

impl fmt::Display for CaseError {
    ghost output = { λ e. Some (refusal_text e) };

    fn fmt<W: fmt::Write>(&self, f: &mut fmt::Formatter<W>) -> fmt::Result {
        f.write_str(self.text())
    }
}

impl From<NoMemory> for CaseError {
    ghost from_gives = { λ _ e. e ≡ CaseError.NoMemory };

    fn from(_: NoMemory) -> CaseError {
        CaseError::NoMemory
    }
}

impl From<AllocError> for CaseError {
    ghost from_gives = { λ _ e. e ≡ CaseError.NoMemory };

    fn from(_: AllocError) -> CaseError {
        CaseError::NoMemory
    }
}

impl From<CloseFault> for CaseError {
    ghost from_gives = { λ fault e. e ≡ of_close fault };

    fn from(fault: CloseFault) -> CaseError {
        match fault {
            CloseFault::Torn => CaseError::Torn,
            CloseFault::NoMemory => CaseError::NoMemory,
        }
    }
}

//! Why arguments ask for nothing.
ghost use Rattle.std.specs.Prelude.{◌≡◌, [], Bool, Err, IfOk, List};
ghost use Rattle.clap.specs.Words.{Row};
ghost use Rattle.tc_command.specs.{Asked.IsReadAs, Inside.IsRefusedBy, declared.command.Subcommand.Subcommand, declared.refusal.Refusal.Refusal};

use crate::read::Refused;
use crate::word::WordFault;
use clap::Command;
use clap::error::ErrorKind;
use std::alloc::AllocError;

/// Why options ask for nothing.
#[derive(Debug, Drop)]
pub(crate) enum Refusal {
    /// They exclude each other, or one is missing: an error of this kind says so.
    Options(ErrorKind, String),
    /// The value of an option names nothing.
    Word(WordFault),
    /// Memory ran out.
    NoMemory,
}

impl From<AllocError> for Refusal {
    ghost from_gives = { λ _ r. r ≡ Refusal.NoMemory };

    fn from(_: AllocError) -> Refusal {
        Refusal::NoMemory
    }
}

/// The refusal as it is said: as a value that names nothing, or by an error with the usage of the command.
pub(crate) fn told_by(command: &mut Command<'_>, refusal: Refusal) -> Result<Refused, AllocError>
    ensures { IfOk result (λ r. (at : Bool) (line : Subcommand × List Row) → IsRefusedBy line refusal
        → IsReadAs at [] line (Err r)) }
{
    match refusal {
        Refusal::Options(kind, text) => Ok(Refused::Line(command.error(kind, text.as_str())?)),
        Refusal::Word(fault) => Ok(Refused::Word(fault)),
        Refusal::NoMemory => Err(AllocError),
    }
}

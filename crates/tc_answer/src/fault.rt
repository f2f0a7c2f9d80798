//! The faults of the program, and their lines on standard error.
ghost use Rattle.std.specs.Prelude.{◌≡◌, ◌++◌, IfOk, IfErr, OnOk, OnErr, Some};
ghost use Rattle.std.specs.Io.{StartsWith};
ghost use Rattle.tc_rules.specs.Prelude.{name_of, Verdict as AnyVerdict};
ghost use Rattle.tc_answer.specs.{Fault.run_fault_line, Fault.run_fault_text, Fault.said, Inside.of_input as spec_input, Inside.of_text, Inside.place_text, declared.fault.RunFault.RunFault};

use std::alloc::{AllocError, Global};
use std::fmt;
use tc_command::WordFault;
use tc_entry::NoMemory;
use tc_reader::ScriptFault;
use tc_stream::{InputFault, WriteFault};
use tc_text::{TextFault, append_number, append_text};
use tc_verdict::{Verdict, read_name};
use thiserror::Error;

/// Why a command was not carried out.
#[derive(Clone, Copy, Debug, PartialEq, Eq, Error)]
pub enum RunFault {
    /// The input has more bytes than its limit.
    TooLong,
    /// The input could not be read.
    Read,
    /// The output could not be written whole.
    Write,
    /// Memory ran out.
    NoMemory,
    /// The text of the input is none that the command takes.
    Text(TextFault),
    /// The input spells no campaign.
    Script(ScriptFault),
    /// The value of `--stop-on` is the name of no verdict.
    StopOn,
    /// A value of `--only` matches no test case.
    Only,
}

/// The fault for an input that was not read whole.
pub fn of_input(fault: InputFault) -> RunFault
    ensures { result ≡ spec_input fault }
{
    match fault {
        InputFault::TooLong => RunFault::TooLong,
        InputFault::Read => RunFault::Read,
        InputFault::NoMemory => RunFault::NoMemory,
    }
}

impl From<WriteFault> for RunFault {
    ghost from_gives = { λ _ r. r ≡ RunFault.Write };

    fn from(_: WriteFault) -> RunFault {
        RunFault::Write
    }
}

impl From<NoMemory> for RunFault {
    ghost from_gives = { λ _ r. r ≡ RunFault.NoMemory };

    fn from(_: NoMemory) -> RunFault {
        RunFault::NoMemory
    }
}

impl From<AllocError> for RunFault {
    ghost from_gives = { λ _ r. r ≡ RunFault.NoMemory };

    fn from(_: AllocError) -> RunFault {
        RunFault::NoMemory
    }
}

impl From<TextFault> for RunFault {
    ghost from_gives = { λ fault r. r ≡ of_text fault };

    fn from(fault: TextFault) -> RunFault {
        match fault {
            TextFault::At { .. } => RunFault::Text(fault),
            TextFault::NoMemory => RunFault::NoMemory,
        }
    }
}

impl fmt::Display for RunFault {
    ghost output = { λ f. Some (run_fault_text f) };

    fn fmt<W: fmt::Write>(&self, f: &mut fmt::Formatter<W>) -> fmt::Result {
        match self {
            RunFault::TooLong => InputFault::TooLong.fmt(f),
            RunFault::Read => InputFault::Read.fmt(f),
            RunFault::Write => WriteFault.fmt(f),
            RunFault::NoMemory => NoMemory.fmt(f),
            RunFault::Text(fault) => fault.fmt(f),
            RunFault::Script(fault) => fault.fmt(f),
            RunFault::StopOn => f.write_str(WordFault::StopOn.text()),
            RunFault::Only => f.write_str(WordFault::Only.text()),
        }
    }
}

/// Appends the number of a line; if memory runs out, a part of it.
#[tactic(auto, unfolding(crate::specs::Inside::place_text))]
pub fn append_place(out: &mut Vec<u8>, line: usize) -> Result<(), NoMemory>
    ensures ok { OnOk result (out.new.items ≡ out.old.items ++ place_text line) }
    ensures err { OnErr result (StartsWith out.new.items out.old.items) }
{
    append_text(out, "line ")?;
    append_number(out, line as u64)?;
    append_text(out, ": ")
}

/// The line with these words.
pub fn line_with(alloc: Global, words: &str) -> Result<Vec<u8>, NoMemory>
    ensures { IfOk result (λ v. v.items ≡ said words.now) }
{
    Ok(format!(in alloc; "ttrun: {words}\n")?.into_bytes())
}

/// The fault's line on standard error, its line feed included.
pub(crate) fn line_of(alloc: Global, fault: &RunFault) -> Result<Vec<u8>, NoMemory>
    ensures { IfOk result (λ v. v.items ≡ run_fault_line fault.now) }
{
    Ok(format!(in alloc; "ttrun: {fault}\n")?.into_bytes())
}

/// Appends the fault's line on standard error, its line feed included, or nothing if memory runs out.
pub fn fault_line(fault: &RunFault, out: &mut Vec<u8>) -> Result<(), NoMemory>
    ensures ok { OnOk result (out.new.items ≡ out.old.items ++ run_fault_line fault.now) }
    ensures err { OnErr result (out.new.items ≡ out.old.items) }
{
    let line = line_of(*out.allocator(), fault)?;
    out.extend_from_slice(line.as_slice())?;
    Ok(())
}

/// The verdict of this name. It takes no memory.
pub fn stop_word(word: &str) -> Result<Verdict, RunFault>
    ensures taken { IfOk result (λ v. word.now ≡ name_of v) }
    ensures refused { IfErr result (λ fault. (fault ≡ RunFault.StopOn) × ((v : AnyVerdict) → word.now ≡ name_of v → ⊥)) }
{
    match read_name(word) {
        Some(verdict) => Ok(verdict),
        None => Err(RunFault::StopOn),
    }
}

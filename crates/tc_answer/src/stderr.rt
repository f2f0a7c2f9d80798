//! Lines on standard error, the outcome of what is refused, and how an answer is given.
ghost use Rattle.std.specs.Prelude.{◌≡◌, IfOk, List, ℕ};
ghost use Rattle.tc_answer.specs.{Fault.run_fault_line, Fault.said, Stderr.GivesAnswer, Stderr.IsPrintedRefusal, Stderr.IsTold, Stderr.held_streams};

use crate::fault::{RunFault, line_of, line_with};
use crate::outcome::{Outcome, REFUSED};
use crate::reply::Answer;
use std::alloc::Global;
use std::io::Write;
use tc_stream::write_whole;
use tc_verdict::NoMemory;

/// Writes the text.
pub fn tell<E: Write>(errors: &mut E, text: &[u8]) -> Result<(), RunFault>
    ensures { IsTold (E.contents errors.old) (E.contents errors.new) text.now result }
{
    write_whole(errors, text)?;
    Ok(())
}

/// The outcome of what is refused: this text is printed, or, if memory ran out for it, the line that says so.
pub fn refuse_with<E: Write>(errors: &mut E, text: Result<Vec<u8>, NoMemory>) -> Outcome
    ensures { (wanted : List ℕ) → IfOk text (λ v. v.items ≡ wanted) → IsPrintedRefusal (E.contents errors.old) (E.contents errors.new) wanted result }
{
    Outcome {
        status: REFUSED,
        told: match text {
            Ok(text) => tell(errors, text.as_slice()),
            Err(NoMemory) => tell(errors, b"ttrun: no memory\n"),
        },
    }
}

/// The outcome of what is refused for this fault: its line is printed.
pub fn refuse<E: Write>(alloc: Global, errors: &mut E, fault: RunFault) -> Outcome
    ensures { IsPrintedRefusal (E.contents errors.old) (E.contents errors.new) (run_fault_line fault) result }
{
    refuse_with(errors, line_of(alloc, &fault))
}

/// The outcome of what is refused: a line with these words is printed.
pub fn refuse_words<E: Write>(alloc: Global, errors: &mut E, words: &str) -> Outcome
    ensures { IsPrintedRefusal (E.contents errors.old) (E.contents errors.new) (said words.now) result }
{
    refuse_with(errors, line_with(alloc, words))
}

/// Writes an answer, prints what it has for standard error, and has its status; if the writer fails, that is printed
/// instead.
pub fn give_answer<W: Write, E: Write>(
    alloc: Global,
    answer: &Answer,
    writer: &mut W,
    errors: &mut E,
) -> Outcome
    ensures { GivesAnswer answer.now (held_streams W.contents writer.old writer.new E.contents errors.old errors.new) result }
{
    match write_whole(writer, answer.out.as_slice()) {
        Ok(()) => Outcome {
            status: answer.status,
            told: tell(errors, answer.told.as_slice()),
        },
        Err(fault) => refuse(alloc, errors, RunFault::from(fault)),
    }
}

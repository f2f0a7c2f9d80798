//! What the program does with its arguments.
ghost use Rattle.std.specs.Prelude.{◌≡◌, IfOk, IfErr, OnErr, map, string_bytes};
ghost use Rattle.std.specs.IoError.{error_kind};
ghost use Rattle.clap.specs.Values.{kind_of};
ghost use Rattle.tc_answer.specs.Prelude.{held_streams};
ghost use Rattle.tc_program.specs.{Alone.IsAnsweredAlone, Answer.AnswersWords, Answer.IsNoTask, Answer.IsRefused, Answer.IsUnreadInput, Inside.ShowsText};

use crate::carrying_out::{begin, carry_out};
use clap::Error;
use clap::error::ErrorKind;
use std::alloc::Global;
use std::io;
use std::io::{Read, Write};
use std::sync::Wait;
use std::thread::Threads;
use std::time::Clock;
use tc_answer::{Outcome, REFUSED, RunFault, refuse, refuse_with, refuse_words, tell};
use tc_command::{Refused, read_task};
use tc_rules::NoMemory;
use tc_stream::write_whole;

// Writes the text of a command line that asks for no task.
fn show<W: Write>(alloc: Global, error: &Error, writer: &mut W) -> Result<(), RunFault>
    ensures { ShowsText (W.contents writer.old) (W.contents writer.new) result }
{
    let text = error.to_string(alloc)?;
    write_whole(writer, text.as_bytes())?;
    Ok(())
}

// The text of a command line that is refused.
fn mistake_text(alloc: Global, error: &Error) -> Result<Vec<u8>, NoMemory> {
    match error.to_string(alloc) {
        Ok(text) => Ok(text.into_bytes()),
        Err(_) => Err(NoMemory),
    }
}

// The outcome of arguments that ask for no task: help or the version is written, and for refused arguments standard
// error says why, in clap's texts. If memory runs out for the arguments, standard error says that.
fn answer_no_task<W: Write, E: Write>(
    alloc: Global,
    error: &Error,
    writer: &mut W,
    errors: &mut E,
) -> Outcome
    ensures { IsNoTask (kind_of error.now) (held_streams W.contents writer.old writer.new E.contents errors.old errors.new)
        (writer.new ≡ writer.old) result }
{
    if error.kind() == ErrorKind::OutOfMemory {
        return refuse(alloc, errors, RunFault::NoMemory);
    }
    if error.use_stderr() {
        return refuse_with(errors, mistake_text(alloc, error));
    }
    match show(alloc, error, writer) {
        Ok(()) => Outcome {
            status: 0,
            told: Ok(()),
        },
        Err(fault) => refuse(alloc, errors, fault),
    }
}

/// The outcome of arguments that are refused.
pub(crate) fn answer_refused<W: Write, E: Write>(
    alloc: Global,
    refused: &Refused,
    writer: &mut W,
    errors: &mut E,
) -> Outcome
    ensures { IsRefused refused.now (held_streams W.contents writer.old writer.new E.contents errors.old errors.new)
        (writer.new ≡ writer.old) result }
{
    match refused {
        Refused::Line(error) => answer_no_task(alloc, error, writer, errors),
        Refused::Word(fault) => refuse_words(alloc, errors, fault.text()),
    }
}

/// The outcome of arguments that are not available; standard error says why.
pub(crate) fn answer_unread<E: Write>(alloc: Global, error: &io::Error, errors: &mut E) -> Outcome
    ensures { IsUnreadInput (error_kind error.now) (E.contents errors.old) (E.contents errors.new) result }
{
    if error.kind() == io::ErrorKind::OutOfMemory {
        return refuse(alloc, errors, RunFault::NoMemory);
    }
    Outcome {
        status: REFUSED,
        told: tell(errors, b"ttrun: an argument is not UTF-8\n"),
    }
}

/// The arguments of the program.
#[derive(Drop)]
pub struct Arguments {
    /// The words, the first of which is the program's name; they may not be available.
    pub words: io::Result<Vec<String>>,
    /// Whether standard error is at a terminal, where faults of the input are explained.
    pub at_terminal: bool,
}

/// Does what the arguments ask for.
pub fn answer<R, I: Read, W: Write, E: Write>(
    rt: &R,
    alloc: Global,
    arguments: Arguments,
    reader: &mut I,
    writer: &mut W,
    errors: &mut E,
) -> Outcome
where
    R: Threads + Wait + Clock + Copy + Send + 'static,
    ensures had { IfOk arguments.words (λ given. AnswersWords arguments.at_terminal (map string_bytes given.items) (I.remaining reader.old)
        (held_streams W.contents writer.old writer.new E.contents errors.old errors.new)
        (reader.new ≡ reader.old) (writer.new ≡ writer.old) result) }
    ensures not_had { IfErr arguments.words (λ error. IsUnreadInput (error_kind error) (E.contents errors.old) (E.contents errors.new) result) }
    ensures unread { OnErr arguments.words (reader.new ≡ reader.old) }
    ensures unwritten { OnErr arguments.words (writer.new ≡ writer.old) }
{
    let Arguments { words, at_terminal } = arguments;
    let words = match words {
        Ok(words) => words,
        Err(error) => return answer_unread(alloc, &error, errors),
    };
    match read_task(alloc, words.as_slice(), at_terminal) {
        Ok(task) => carry_out(rt, alloc, &task, reader, writer, errors),
        Err(refused) => answer_refused(alloc, &refused, writer, errors),
    }
}

/// Does what the arguments ask for, as `answer` does, but begins no run: it says that a run needs threads.
pub fn answer_alone<I: Read, W: Write, E: Write>(
    alloc: Global,
    words: io::Result<Vec<String>>,
    reader: &mut I,
    writer: &mut W,
    errors: &mut E,
) -> Outcome
    ensures had { IfOk words (λ given. IsAnsweredAlone (map string_bytes given.items) (I.remaining reader.old)
        (held_streams W.contents writer.old writer.new E.contents errors.old errors.new)
        (reader.new ≡ reader.old) (writer.new ≡ writer.old) result) }
    ensures not_had { IfErr words (λ error. IsUnreadInput (error_kind error) (E.contents errors.old) (E.contents errors.new) result) }
    ensures unwritten { OnErr words (writer.new ≡ writer.old) }
{
    let words = match words {
        Ok(words) => words,
        Err(error) => return answer_unread(alloc, &error, errors),
    };
    let task = match read_task(alloc, words.as_slice(), false) {
        Ok(task) => task,
        Err(refused) => return answer_refused(alloc, &refused, writer, errors),
    };
    match begin(alloc, &task, reader, writer, errors) {
        Ok(_) => refuse_words(
            alloc,
            errors,
            "a run needs threads, and there are none here: try explore",
        ),
        Err(outcome) => outcome,
    }
}

//! The calls of the library that many tests make, without its clauses, and the texts that they are given.
use std::alloc::{AllocError, Global};
use std::io;
use std::io::{Read, Write};
use std::sync::Wait;
use std::test::Fail;
use std::thread::Threads;
use std::time::Clock;
use tc_command::{Refused, Task};
use tc_program::{Arguments, Outcome, RunFault};

/// The bytes of a text, with a line feed for each `;`.
pub(crate) fn in_lines(alloc: Global, text: &str) -> Result<Vec<u8>, AllocError> {
    let mut bytes = Vec::new(alloc);
    for byte in text.as_bytes() {
        bytes.push(if *byte == b';' { b'\n' } else { *byte })?;
    }
    Ok(bytes)
}

fn push_word(alloc: Global, words: &mut Vec<String>, word: &str) -> Result<(), AllocError> {
    Ok(words.push(word.to_string(alloc)?)?)
}

/// The words of a command line, which has a space between each two; an empty line has none.
pub(crate) fn words_of(alloc: Global, line: &str) -> Result<Vec<String>, AllocError> {
    let mut words = Vec::new(alloc);
    if line.is_empty() {
        return Ok(words);
    }
    for word in line.split(' ') {
        push_word(alloc, &mut words, word)?;
    }
    Ok(words)
}

fn read_words(alloc: Global, words: &[String], at_terminal: bool) -> Result<Task, Refused> {
    tc_command::read_task(alloc, words, at_terminal)
}

/// The task that a command line asks for at a terminal, or elsewhere.
pub(crate) fn task_at(alloc: Global, line: &str, at_terminal: bool) -> Result<Task, Fail> {
    let words = words_of(alloc, line)?;
    let task = read_words(alloc, words.as_slice(), at_terminal);
    Ok(task.ok().ok_or("a task")?)
}

/// The task that a command line asks for where there is no terminal.
pub(crate) fn task_of(alloc: Global, line: &str) -> Result<Task, Fail> {
    task_at(alloc, line, false)
}

pub(crate) fn replay<W: Write>(
    alloc: Global,
    input: &[u8],
    writer: &mut W,
) -> Result<u8, RunFault> {
    let mut reader = input;
    tc_program::replay(alloc, &mut reader, writer)
}

pub(crate) fn answer<R, I: Read, W: Write, E: Write>(
    rt: &R,
    alloc: Global,
    words: io::Result<Vec<String>>,
    reader: &mut I,
    writer: &mut W,
    errors: &mut E,
) -> Outcome
where
    R: Threads + Wait + Clock + Copy + Send + 'static,
{
    let arguments = Arguments {
        words,
        at_terminal: false,
    };
    tc_program::answer(rt, alloc, arguments, reader, writer, errors)
}

pub(crate) fn carry_out<R, I: Read, W: Write, E: Write>(
    rt: &R,
    alloc: Global,
    task: &Task,
    reader: &mut I,
    writer: &mut W,
    errors: &mut E,
) -> Outcome
where
    R: Threads + Wait + Clock + Copy + Send + 'static,
{
    tc_program::carry_out(rt, alloc, task, reader, writer, errors)
}

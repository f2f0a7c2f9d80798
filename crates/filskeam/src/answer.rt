//! One call: a command line and its input, and what the program answers.
ghost use Rattle.std.specs.{Prelude.{◌≡◌, ◌⊎◌, [], All, IfOk, IfErr, List, map, string_bytes, ℕ}, IoError.error_kind, Str.IsUtf8, declared.io.ErrorKind.TheVariants.OutOfMemory};
ghost use Rattle.filskeam.specs.Engine.{Answers, line_words as spec_words};
ghost use Rattle.tc_table.specs.Calls.{Fills};

use std::alloc::Global;
use std::io;
use tc_program::answer_alone;
use tc_table::calls::give_text;

// A word as a text.
fn text_of(word: Vec<u8>) -> io::Result<String>
    ensures had { IfOk result (λ s. string_bytes s ≡ word.items) }
    ensures not_had { IfErr result (λ e. IsUtf8 word.items → ⊥) }
{
    match String::from_utf8(word) {
        Ok(text) => Ok(text),
        Err(_) => Err(io::Error::from(io::ErrorKind::InvalidData)),
    }
}

// The words of the line, the first of which is the program's name.
fn words_of(alloc: Global, line: &[u8]) -> io::Result<Vec<String>>
    ensures had { IfOk result (λ words. map string_bytes words.items ≡ spec_words line.now) }
    ensures not_had { IfErr result (λ e. (error_kind e ≡ OutOfMemory) ⊎ (All IsUtf8 (spec_words line.now) → ⊥)) }
{
    let mut words = Vec::new(alloc);
    words.push("ttrun".to_string(alloc)?)?;
    let mut word = Vec::new(alloc);
    let mut left = line;
    while let Some((byte, rest)) = left.split_first() {
        left = rest;
        if *byte == 0 {
            match text_of(word) {
                Ok(text) => words.push(text)?,
                Err(error) => return Err(error),
            }
            word = Vec::new(alloc);
        } else {
            word.push(*byte)?;
        }
    }
    Ok(words)
}

// Answers the line with this input: writes standard output and standard error, and returns the status.
fn answer_line(
    alloc: Global,
    line: &[u8],
    input: &[u8],
    writer: &mut Vec<u8>,
    errors: &mut Vec<u8>,
) -> u8
    requires unwritten { writer.old.items ≡ [] }
    requires untold { errors.old.items ≡ [] }
    ensures { Answers line.now input.now writer.new.items errors.new.items result }
{
    let mut reader = input;
    let words = words_of(alloc, line);
    let outcome = answer_alone(alloc, words, &mut reader, writer, errors);
    outcome.status
}

/// Answers a command line and its input as the program does, but begins no run. Each word of the line ends with a zero
/// byte; the program's name is not among them. Returns the status. Standard output and standard error are copied to
/// `output` and `errors` if they have room there, and how long they are is given in any case.
#[unsafe(no_mangle)]
pub extern "C" fn filskeam_answer(
    alloc: Global,
    line: &[u8],
    input: &[u8],
    output: &mut [u8],
    output_len: &mut usize,
    errors: &mut [u8],
    errors_len: &mut usize,
) -> u8
    ensures { (written : List ℕ) × (told : List ℕ) × Fills output.old output.new output_len.new written
        × Fills errors.old errors.new errors_len.new told × Answers line.now input.now written told result }
{
    let mut written = Vec::new(alloc);
    let mut told = Vec::new(alloc);
    let status = answer_line(alloc, line, input, &mut written, &mut told);
    give_text(output, output_len, written.as_slice(), &[]);
    give_text(errors, errors_len, told.as_slice(), &[]);
    status
}

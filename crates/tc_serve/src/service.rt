//! The service itself.
ghost use Rattle.std.specs.{Prelude.{◌≡◌, ◌+◌, ◌≤◌, ◌<◌, ◌^◌, ◌↔◌, not, true, false, [], ℕ, Bool, List, Option, is_err, length, OnOk, OnErr, IsErrOf}, Borrow.GName, Io.KnownBytes.Appends};
ghost use Rattle.tc_stream.specs.Prelude.{AppendsPrefix};
ghost use Rattle.tc_serve.specs.{Inside.Hears, Inside.IsAt, Inside.IsFed, Inside.IsTurn, Serve.IsServiceEnd};

use crate::order::Refusal;
use crate::serving::{Serving, Texts};
use std::alloc::Global;
use std::io::{Read, Write};
use tc_entry::{NoMemory, Verdict};
use tc_stream::{
    CountedRead, CountedReader, CountedWrite, CountedWriter, WriteFault, write_counted, write_whole,
};

/// Why a service ended before the end of its input.
#[derive(Clone, Copy, PartialEq, Eq, Debug)]
pub enum ServeFault {
    /// The line of this number, counted from 1, was refused outside a test case, for this reason.
    Line(usize, Refusal),
    /// There are more lines, or reads, than can be counted.
    TooLong,
    /// The input could not be read; an interrupted read counts as a failure.
    Read,
    /// The output could not be written.
    Write,
    /// Memory ran out.
    NoMemory,
}

impl From<NoMemory> for ServeFault {
    ghost use Rattle.std.specs.Prelude.{◌≡◌};
    ghost use Rattle.tc_serve.specs.declared.service.ServeFault.TheVariants as faults;

    ghost from_gives = { λ _ f. f ≡ faults.NoMemory };

    fn from(_: NoMemory) -> ServeFault {
        ServeFault::NoMemory
    }
}

/// What came of an input that was served to its end.
#[derive(Clone, Copy, PartialEq, Eq, Debug)]
pub struct Served {
    /// The worst verdict of the test cases; one that was not over counts as error.
    pub worst: Verdict,
    /// Whether a line was refused.
    pub refused: bool,
}

/// How a service ended.
#[derive(Clone, Copy, PartialEq, Eq, Debug)]
pub struct Ending {
    /// What came of the input, or why no further line was served.
    pub outcome: Result<Served, ServeFault>,
    /// Whether standard error took all that was written to it.
    pub told: bool,
}

/// A writer that takes texts whole and flushed, and none after one that failed. The library has no ghost word for a failed
/// flush, so this has one for a failed text. That a text fails only by a write or a flush is in `write_flushed`, and tested.
trait FlushedWrite {
    /// The bytes that it took, if they are known.
    ghost contents: { Self → Option (List ℕ) };
    /// Whether the last text failed.
    ghost has_failed: { Self → Bool };
    /// Which writer it is.
    ghost name: { Self → GName };

    /// Writes the text, and flushes the writer.
    fn put(&mut self, text: &[u8]) -> Result<(), WriteFault>
        requires sound { has_failed self.old ≡ false }
        ensures all { OnOk result (Appends (contents self.old) (contents self.new) text.now) }
        ensures part { OnErr result (AppendsPrefix (contents self.old) (contents self.new) text.now) }
        ensures failed { has_failed self.new ≡ is_err result }
        ensures same { name self.new ≡ name self.old };
}

/// A writer, and whether the last text failed.
#[derive(Drop)]
struct FlushedWriter<'a, W: Write> {
    writer: &'a mut W,
    failed: bool,
}

// Writes the text, and flushes the writer.
fn write_flushed<W: Write>(writer: &mut W, text: &[u8]) -> Result<(), WriteFault>
    ensures all { OnOk result (Appends (W.contents writer.old) (W.contents writer.new) text.now) }
    ensures part { OnErr result (AppendsPrefix (W.contents writer.old) (W.contents writer.new) text.now) }
{
    write_whole(writer, text)?;
    writer.flush().map_err(|_| WriteFault)
}

impl<W: Write> FlushedWrite for FlushedWriter<'_, W> {
    ghost contents = { λ c. W.contents c.writer.now };

    ghost has_failed = { λ c. c.failed };

    ghost name = { λ c. c.writer.ghost_name };

    fn put(&mut self, text: &[u8]) -> Result<(), WriteFault> {
        let result = write_flushed(self.writer, text);
        self.failed = result.is_err();
        result
    }
}

// Writes the text to standard error, unless it did not take an earlier one whole; whether all was taken.
fn tell<E: CountedWrite>(errors: &mut E, heard: bool, text: &[u8]) -> bool
    requires heard { heard ≡ not (E.has_failed errors.old) }
    requires few { E.writes errors.old + length text.now < 2 ^ 128 }
    ensures taken { Hears heard result (E.contents errors.old) (E.contents errors.new) text.now }
    ensures heard { result ≡ not (E.has_failed errors.new) }
    ensures counted { E.writes errors.new ≤ E.writes errors.old + length text.now }
    ensures same { E.name errors.new ≡ E.name errors.old }
{
    if !heard {
        return false;
    }
    write_counted(errors, text).is_ok()
}

// One read, and the answers to the lines that end in what it gave; what came of the input, if it has ended.
fn turn<R: CountedRead, W: FlushedWrite, E: CountedWrite>(
    chunk: &mut [u8],
    texts: &mut Texts,
    serving: &mut Serving,
    reader: &mut R,
    writer: &mut W,
    errors: &mut E,
    heard: &mut bool,
) -> Result<Option<Served>, ServeFault>
    requires heard { heard.old ≡ not (E.has_failed errors.old) }
    requires few { E.writes errors.old + 2 ^ 64 < 2 ^ 128 }
    requires some { 0 < length chunk.old }
    requires read { R.has_failed reader.old ≡ false }
    requires reads { R.reads reader.old + 1 < 2 ^ 128 }
    requires written { W.has_failed writer.old ≡ false }
    ensures turn { (input output reports : Option (List ℕ)) (turns : ℕ)
        → IsAt input (R.remaining reader.old) output (W.contents writer.old) reports (E.contents errors.old)
        heard.old turns serving.old
        → IsTurn (IsAt input (R.remaining reader.new) output (W.contents writer.new) reports (E.contents errors.new)
        heard.new (turns + 1) serving.new)
        (λ o. IsServiceEnd input (R.remaining reader.new) output (W.contents writer.new) reports (E.contents errors.new)
        (record { outcome = o; told = heard.new })) result }
    ensures heard { heard.new ≡ not (E.has_failed errors.new) }
    ensures counted { E.writes errors.new ≤ E.writes errors.old + 2 ^ 64 }
    ensures read { IsErrOf result ServeFault.Read ↔ (R.has_failed reader.new ≡ true) }
    ensures written { IsErrOf result ServeFault.Write ↔ (W.has_failed writer.new ≡ true) }
    ensures reads { R.reads reader.new ≡ R.reads reader.old + 1 }
    ensures same { (R.name reader.new ≡ R.name reader.old) × (W.name writer.new ≡ W.name writer.old) × (E.name errors.new ≡ E.name errors.old) }
{
    let Ok(count) = reader.read(chunk) else {
        return Err(ServeFault::Read);
    };
    texts.out.clear();
    texts.told.clear();
    let end = serving.take_read(&chunk[..count], texts);
    let taken = tell(errors, *heard, texts.told.as_slice());
    *heard = taken;
    match writer.put(texts.out.as_slice()) {
        Ok(()) => end,
        Err(WriteFault) => Err(ServeFault::Write),
    }
}

// Serves each line of the reader, until the input or a fault ends the service. `Read` is returned exactly if a read failed,
// and `Write` exactly if a text could not be written or flushed.
fn serve_lines<R: CountedRead, W: FlushedWrite, E: CountedWrite>(
    texts: &mut Texts,
    serving: &mut Serving,
    reader: &mut R,
    writer: &mut W,
    errors: &mut E,
    heard: &mut bool,
) -> Result<Served, ServeFault>
    requires fed { IsFed [] serving.old [] [] [] [] }
    requires heard { heard.old ≡ true }
    requires sound { heard.old ≡ not (E.has_failed errors.old) }
    requires few { (E.writes errors.old ≡ 0) × (R.reads reader.old ≡ 0) }
    requires read { R.has_failed reader.old ≡ false }
    requires written { W.has_failed writer.old ≡ false }
    ensures ending { IsServiceEnd (R.remaining reader.old) (R.remaining reader.new) (W.contents writer.old)
        (W.contents writer.new) (E.contents errors.old) (E.contents errors.new)
        (record { outcome = result; told = heard.new }) }
    ensures heard { heard.new ≡ not (E.has_failed errors.new) }
    ensures read { IsErrOf result ServeFault.Read ↔ (R.has_failed reader.new ≡ true) }
    ensures written { IsErrOf result ServeFault.Write ↔ (W.has_failed writer.new ≡ true) }
    ensures same { (R.name reader.new ≡ R.name reader.old) × (W.name writer.new ≡ W.name writer.old) × (E.name errors.new ≡ E.name errors.old) }
{
    let mut chunk = [0u8; 4096];
    for _turns in 0..u64::MAX {
        match turn(&mut chunk, texts, serving, reader, writer, errors, heard) {
            Ok(Some(served)) => return Ok(served),
            Ok(None) => (),
            Err(fault) => return Err(fault),
        }
    }
    Err(ServeFault::TooLong)
}

/// Answers each line of the reader on the writer as soon as it has come, by evidence, and reports on standard error the
/// lines whose refusal no run gets. At a fault the lines before it were answered.
pub fn serve<R: Read, W: Write, E: Write>(
    alloc: Global,
    reader: &mut R,
    writer: &mut W,
    errors: &mut E,
) -> Ending
    ensures { IsServiceEnd (R.remaining reader.old) (R.remaining reader.new) (W.contents writer.old)
        (W.contents writer.new) (E.contents errors.old) (E.contents errors.new) result }
{
    let mut texts = Texts {
        out: Vec::new(alloc),
        told: Vec::new(alloc),
    };
    let mut serving = Serving::new(alloc);
    let mut told = true;
    let outcome = serve_lines(
        &mut texts,
        &mut serving,
        &mut CountedReader::new(reader),
        &mut FlushedWriter {
            writer,
            failed: false,
        },
        &mut CountedWriter::new(errors),
        &mut told,
    );
    Ending { outcome, told }
}

//! Lines of a client, answered one by one, and a whole service over readers and writers that move a byte at a time.
ghost use Rattle.std.specs.Prelude.{None};

use crate::checks::is;
use std::alloc::Global;
use std::io;
use std::io::{Read, Write};
use std::process::Abort;
use tc_serve::{Ending, Refusal, ServeFault, serve};
use tc_stream::devices::{NarrowWriter, SlowReader, WriteFailure};
use tc_text::{append_number, append_text};
use tc_verdict::{NoMemory, name};

const NEVER: usize = usize::MAX;

/// Inputs with `~` for each LF; the evidence; the lines on standard error; how the service ends.
const SERVED: &str = "\
 =>  =>  => none
case t 1~0 setverdict pass~0 finish~end~ => evidence 1 t 1~0 setverdict pass -> ok~0 finish -> ok~end pass~ =>  => pass
case t 2~behaviour 1 p~0 create~0 start 1 1~0 wait done 1~1 finish~0 finish~end~ => evidence 1 t 2~behaviour 1 p~0 create -> made 1~0 start 1 1 -> ok~0 wait done 1 -> parked~1 finish -> ok~0 wake done 1 -> matched~0 finish -> ok~end none~ =>  => none
case a 1~0 setverdict fail~0 finish~end~case b 1~0 finish~end~ => evidence 1 a 1~0 setverdict fail -> ok~0 finish -> ok~end fail~evidence 1 b 1~0 finish -> ok~end none~ =>  => fail
case t 1~0 setverdict pass~end~ => evidence 1 t 1~0 setverdict pass -> ok~end pass~ =>  => error
case t 1~0 finish~ => evidence 1 t 1~0 finish -> ok~end none~ => ttrun: the input ended inside a test case~ => none
case t 2~behaviour 1 a~behaviour 1 a~end~ => evidence 1 t 2~behaviour 1 a~end none~ => ttrun: line 3: late name~ => error, refused
case t 2~0 create~0 start 1 1~0 wait done 1~0 getverdict~1 finish~0 finish~end~ => evidence 1 t 2~0 create -> made 1~0 start 1 1 -> ok~0 wait done 1 -> parked~0 ! the run waits~1 finish -> ok~0 wake done 1 -> matched~0 finish -> ok~end none~ =>  => none, refused
case t 1~0 wake done all~0 finish~end~ => evidence 1 t 1~0 ! a wake comes of itself~0 finish -> ok~end none~ =>  => none, refused
case t 1~case u 1~0 finish~end~ => evidence 1 t 1~0 finish -> ok~end none~ => ttrun: line 2: a test case is open~ => none, refused
case t 1~0 fin\u{1}sh~0 # \u{e9}~\u{e9}~0 finish~end~ => evidence 1 t 1~0 ! bad line~0 ! bad remark~0 finish -> ok~end none~ => ttrun: line 4: bad line~ => none, refused
case t 2~0 finish~1 getver => evidence 1 t 2~0 finish -> ok~1 ! no line feed~end none~ => ttrun: the input ended inside a test case~ => none, refused
case t 2~0 finish~end => evidence 1 t 2~0 finish -> ok~end none~ => ttrun: line 3: no line feed~ttrun: the input ended inside a test case~ => none, refused
case t 1 =>  =>  => line 1, no line feed
end~case t 1~ =>  =>  => line 1, no test case is open
case t 257~ =>  =>  => line 1, a test case has 1 to 256 behaviours
case t 1~~0 finish~end~0 finish~ => evidence 1 t 1~0 finish -> ok~end none~ => ttrun: line 2: bad line~ => line 5, no test case is open
case t 256~behaviour 255 z~255 # a~255 ! a~256 # a~0 finish~end~ => evidence 1 t 256~behaviour 255 z~255 # a~255 ! bad line~0 finish -> ok~end none~ => ttrun: line 5: no such run~ => none, refused
case t 2~case t 2~end~end~ => evidence 1 t 2~end none~ => ttrun: line 2: a test case is open~ => line 4, no test case is open
case t 2~1 x~behaviour 1 a~1x~01 x~2 x~0 # x~end~ => evidence 1 t 2~1 ! bad line~0 # x~end none~ => ttrun: line 3: late name~ttrun: line 4: bad line~ttrun: line 5: bad line~ttrun: line 6: bad line~ => error, refused
case t 2~0 wait done 1~0 create~0 wait done 1~end~ => evidence 1 t 2~0 wait done 1 -> error no-component~0 create -> ended~0 wait done 1 -> ended~end error~ =>  => error
case t 1~0 finish -> ok~0 finish\r~0 finish~end~ => evidence 1 t 1~0 ! bad line~0 ! bad line~0 finish -> ok~end none~ =>  => none, refused
case t 3~0 create~0 create~0 start 1 1~0 start 2 2~2 wait done 1~0 wait done 1~1 finish~2 finish~0 finish~end~ => evidence 1 t 3~0 create -> made 1~0 create -> made 2~0 start 1 1 -> ok~0 start 2 2 -> ok~2 wait done 1 -> parked~0 wait done 1 -> parked~1 finish -> ok~0 wake done 1 -> matched~2 wake done 1 -> matched~2 finish -> ok~0 finish -> ok~end none~ =>  => none
case t 4~0 create~0 create~0 create~0 start 1 1~0 start 2 2~0 start 3 3~3 wait done 1~2 wait done 3~0 wait done 1~1 finish~2 getverdict~3 finish~2 finish~0 finish~end~ => evidence 1 t 4~0 create -> made 1~0 create -> made 2~0 create -> made 3~0 start 1 1 -> ok~0 start 2 2 -> ok~0 start 3 3 -> ok~3 wait done 1 -> parked~2 wait done 3 -> parked~0 wait done 1 -> parked~1 finish -> ok~0 wake done 1 -> matched~3 wake done 1 -> matched~2 ! the run waits~3 finish -> ok~2 wake done 3 -> matched~2 finish -> ok~0 finish -> ok~end none~ =>  => none, refused";

/// Appends the text, with LF for each `~`.
fn append_lines(out: &mut Vec<u8>, text: &str) -> Result<(), NoMemory> {
    for byte in text.as_bytes() {
        out.push(if *byte == b'~' { b'\n' } else { *byte })?;
    }
    Ok(())
}

fn append_ending(out: &mut Vec<u8>, ending: &Ending) -> Result<(), NoMemory> {
    match ending.outcome {
        Ok(served) => {
            append_text(out, name(served.worst))?;
            append_text(out, if served.refused { ", refused" } else { "" })
        }
        Err(ServeFault::Line(line, why)) => {
            append_text(out, "line ")?;
            append_number(out, line as u64)?;
            append_text(out, ", ")?;
            append_text(out, why.text())
        }
        Err(ServeFault::TooLong) => append_text(out, "too long"),
        Err(ServeFault::Read) => append_text(out, "read"),
        Err(ServeFault::Write) => append_text(out, "write"),
        Err(ServeFault::NoMemory) => Err(NoMemory),
    }
}

/// A text as the row spells it.
fn is_text(
    rt: &impl Abort,
    alloc: Global,
    what: &str,
    found: &[u8],
    wanted: &str,
) -> Result<(), NoMemory> {
    let mut text = Vec::new(alloc);
    append_lines(&mut text, wanted)?;
    is(rt, what, found, text.as_slice());
    Ok(())
}

fn is_served(rt: &impl Abort, alloc: Global, given: &str, wanted: &str) -> Result<(), NoMemory> {
    let mut input = Vec::new(alloc);
    append_lines(&mut input, given)?;
    let mut reader = SlowReader::new(input.as_slice(), NEVER);
    let mut writer = NarrowWriter::new(alloc, NEVER, WriteFailure::Full);
    let mut errors = NarrowWriter::new(alloc, NEVER, WriteFailure::Full);
    let ending = serve(alloc, &mut reader, &mut writer, &mut errors);
    is(rt, "all was told", ending.told, true);
    let mut found = Vec::new(alloc);
    append_ending(&mut found, &ending)?;
    if let Some((output, rest)) = wanted.split_once(" => ") {
        if let Some((told, end)) = rest.split_once(" => ") {
            is_text(rt, alloc, given, writer.taken.as_slice(), output)?;
            is_text(rt, alloc, "what is told", errors.taken.as_slice(), told)?;
            is_text(rt, alloc, "the end", found.as_slice(), end)?;
        }
    }
    Ok(())
}

#[test]
fn served_lines(rt: HostRuntime) -> Result<(), NoMemory> {
    let mut rows = 0u32;
    for row in SERVED.lines() {
        if let Some((given, wanted)) = row.split_once(" => ") {
            is_served(&rt, rt.alloc(), given, wanted)?;
            rows = rows.wrapping_add(1);
        }
    }
    is(&rt, "the rows", rows, 24);
    Ok(())
}

/// A line of that many bytes of run 0, in a test case.
fn append_long(input: &mut Vec<u8>, bytes: usize) -> Result<(), NoMemory> {
    append_text(input, "case t 1\n0 # ")?;
    for _ in 0..bytes {
        input.push(b'x')?;
    }
    append_text(input, "\n0 finish\nend\n")
}

fn is_long(rt: &impl Abort, alloc: Global, bytes: usize, refused: bool) -> Result<(), NoMemory> {
    let mut input = Vec::new(alloc);
    append_long(&mut input, bytes)?;
    let mut reader = SlowReader::new(input.as_slice(), NEVER);
    let mut writer = NarrowWriter::new(alloc, NEVER, WriteFailure::Full);
    let mut errors = NarrowWriter::new(alloc, NEVER, WriteFailure::Full);
    let ending = serve(alloc, &mut reader, &mut writer, &mut errors);
    match ending.outcome {
        Ok(served) => is(rt, "a long line", served.refused, refused),
        Err(_) => is(rt, "a long line", false, true),
    }
    Ok(())
}

#[test]
fn long_lines(rt: HostRuntime) -> Result<(), NoMemory> {
    is_long(&rt, rt.alloc(), 200, false)?;
    is_long(&rt, rt.alloc(), 201, true)?;
    is_long(&rt, rt.alloc(), 10_000, true)
}

const CASE: &[u8] = b"case t 1\n0 finish\nend\nfly\n";

/// How a service ends whose devices fail at these calls, and how much its output took.
fn ends_at(rt: &impl Abort, alloc: Global, read: usize, write: usize, wanted: (ServeFault, usize)) {
    let mut reader = SlowReader::new(CASE, read);
    let mut writer = NarrowWriter::new(alloc, write, WriteFailure::Broken);
    let mut errors = NarrowWriter::new(alloc, 0, WriteFailure::Broken);
    let ending = serve(alloc, &mut reader, &mut writer, &mut errors);
    is(rt, "the end", ending.outcome, Err(wanted.0));
    is(rt, "the output", writer.taken.as_slice().len(), wanted.1);
}

#[test]
fn devices_that_fail(rt: HostRuntime) {
    ends_at(&rt, rt.alloc(), 0, NEVER, (ServeFault::Read, 0));
    ends_at(&rt, rt.alloc(), 8, NEVER, (ServeFault::Read, 0));
    ends_at(&rt, rt.alloc(), 9, NEVER, (ServeFault::Read, 15));
    ends_at(&rt, rt.alloc(), NEVER, 0, (ServeFault::Write, 0));
    ends_at(&rt, rt.alloc(), NEVER, 7, (ServeFault::Write, 7));
    ends_at(
        &rt,
        rt.alloc(),
        NEVER,
        NEVER,
        (ServeFault::Line(4, Refusal::BadLine), 39),
    );
}

/// Takes all that is written, and notes how much it has at each flush; the flush of this number fails, counted from 0.
/// A flush of an even number fails as one that was interrupted.
#[derive(Drop)]
struct FlushedWriter {
    taken: Vec<u8>,
    flushed: Vec<usize>,
    fails_at: usize,
}

impl FlushedWriter {
    fn new(alloc: Global, fails_at: usize) -> FlushedWriter {
        FlushedWriter {
            taken: Vec::new(alloc),
            flushed: Vec::new(alloc),
            fails_at,
        }
    }
}

impl Write for FlushedWriter {
    ghost contents = { λ _. None };

    fn write(&mut self, buf: &[u8]) -> io::Result<usize> {
        self.taken.extend_from_slice(buf)?;
        Ok(buf.len())
    }

    fn flush(&mut self) -> io::Result<()> {
        if self.flushed.len() == self.fails_at {
            return Err(io::Error::from(if self.fails_at % 2 == 0 {
                io::ErrorKind::Interrupted
            } else {
                io::ErrorKind::BrokenPipe
            }));
        }
        self.flushed.push(self.taken.len())?;
        Ok(())
    }
}

const TALK: &[u8] = b"case t 1\n0 # a\n0 fly\n0 finish\nend\n";

/// How many bytes answer each of its lines.
const ANSWERS: [usize; 5] = [15, 6, 13, 15, 9];

/// Before the next byte is read, each line that has ended was answered, and the answers were flushed.
#[test]
fn answers_before_the_next_read(rt: HostRuntime) {
    let mut reader = SlowReader::new(TALK, NEVER);
    let mut writer = FlushedWriter::new(rt.alloc(), NEVER);
    let mut errors = NarrowWriter::new(rt.alloc(), NEVER, WriteFailure::Full);
    let ending = serve(rt.alloc(), &mut reader, &mut writer, &mut errors);
    is(&rt, "the end", ending.outcome.is_ok(), true);
    let mut lines = 0usize;
    let mut due = 0usize;
    for (place, byte) in TALK.iter().enumerate() {
        if *byte == b'\n' {
            due = due.wrapping_add(ANSWERS.get(lines).copied().unwrap_or(0));
            lines = lines.wrapping_add(1);
        }
        let flushed = writer.flushed.as_slice().get(place).copied();
        is(&rt, "what is flushed", flushed, Some(due));
    }
    is(&rt, "the lines", lines, 5);
    is(&rt, "all", writer.taken.as_slice().len(), due);
}

/// How a service ends in which the flush of this number fails, and how many reads it made.
fn served_until(alloc: Global, fails_at: usize) -> (Ending, usize) {
    let mut reader = SlowReader::new(TALK, NEVER);
    let mut writer = FlushedWriter::new(alloc, fails_at);
    let mut errors = NarrowWriter::new(alloc, NEVER, WriteFailure::Full);
    let ending = serve(alloc, &mut reader, &mut writer, &mut errors);
    (ending, reader.reads)
}

/// Each flush fails in turn.
#[test]
fn a_failed_flush_ends_a_service(rt: HostRuntime) {
    for fails_at in 0..TALK.len() {
        let (ending, reads) = served_until(rt.alloc(), fails_at);
        is(&rt, "the end", ending.outcome, Err(ServeFault::Write));
        is(&rt, "the reads", reads, fails_at + 1);
    }
}

/// A test case that makes that many components.
fn append_creates(input: &mut Vec<u8>, count: u32) -> Result<(), NoMemory> {
    append_text(input, "case t 1\n")?;
    for _ in 0..count {
        append_text(input, "0 create\n")?;
    }
    append_text(input, "end\n")
}

/// Three reads, of which two end some 450 lines each: the answers to each are flushed.
#[test]
fn many_answers_to_a_read_are_flushed(rt: HostRuntime) -> Result<(), NoMemory> {
    let mut input = Vec::new(rt.alloc());
    append_creates(&mut input, 900)?;
    let mut reader = input.as_slice();
    let mut writer = FlushedWriter::new(rt.alloc(), NEVER);
    let mut errors = NarrowWriter::new(rt.alloc(), NEVER, WriteFailure::Full);
    let ending = serve(rt.alloc(), &mut reader, &mut writer, &mut errors);
    is(&rt, "the end", ending.outcome.is_ok(), true);
    let flushes = writer.flushed.as_slice();
    is(&rt, "the flushes", flushes.len(), 3);
    let first = flushes.first().copied().unwrap_or(0);
    is(&rt, "many answers", first > 8_000, true);
    Ok(())
}

/// That many remarks.
fn append_remarks(out: &mut Vec<u8>, remark: &str, count: u32) -> Result<(), NoMemory> {
    for _ in 0..count {
        append_text(out, remark)?;
    }
    Ok(())
}

/// Serves that many remarks, of which the input and the output have these bytes in all.
fn is_remarked<R: Read>(
    rt: &impl Abort,
    alloc: Global,
    reader: &mut R,
    remarks: (&str, u32),
) -> Result<(), NoMemory> {
    let mut wanted = Vec::new(alloc);
    append_text(&mut wanted, "evidence 1 t 1\n")?;
    append_remarks(&mut wanted, remarks.0, remarks.1)?;
    append_text(&mut wanted, "0 finish -> ok\nend none\n")?;
    let mut writer = FlushedWriter::new(alloc, NEVER);
    let mut errors = NarrowWriter::new(alloc, NEVER, WriteFailure::Full);
    let ending = serve(alloc, reader, &mut writer, &mut errors);
    let ended = ending.outcome.is_ok_and(|served| !served.refused);
    is(rt, "no line is refused", ended, true);
    is(
        rt,
        "the remarks",
        writer.taken.as_slice() == wanted.as_slice(),
        true,
    );
    Ok(())
}

fn append_remarked(input: &mut Vec<u8>, remark: &str, count: u32) -> Result<(), NoMemory> {
    append_text(input, "case t 1\n")?;
    append_remarks(input, remark, count)?;
    append_text(input, "0 finish\nend\n")
}

/// Remarks of 61 bytes, which fill the first read with the line before them, and of 64 bytes, which fill the second.
const REMARKS: [(&str, u32); 2] = [
    (
        "0 # xxxxxxxxxxxxxxxxxxxxxxxxxxxxxxxxxxxxxxxxxxxxxxxxxxxxxxxx\n",
        67,
    ),
    (
        "0 # yyyyyyyyyyyyyyyyyyyyyyyyyyyyyyyyyyyyyyyyyyyyyyyyyyyyyyyyyyy\n",
        64,
    ),
];

/// The answers to the second read have as many bytes as the read; they are flushed too.
#[test]
fn answers_as_long_as_a_read_are_flushed(rt: HostRuntime) -> Result<(), NoMemory> {
    let mut input = Vec::new(rt.alloc());
    append_text(&mut input, "case t 1\n")?;
    for (remark, count) in REMARKS {
        append_remarks(&mut input, remark, count)?;
    }
    append_text(&mut input, "0 finish\nend\n")?;
    let mut reader = input.as_slice();
    let mut writer = FlushedWriter::new(rt.alloc(), NEVER);
    let mut errors = NarrowWriter::new(rt.alloc(), NEVER, WriteFailure::Full);
    let ending = serve(rt.alloc(), &mut reader, &mut writer, &mut errors);
    is(&rt, "the end", ending.outcome.is_ok(), true);
    let flushes = writer.flushed.as_slice();
    is(&rt, "the flushes", flushes.len(), 4);
    let first = flushes.first().copied().unwrap_or(0);
    let second = flushes.get(1).copied();
    is(&rt, "the answers", second, first.checked_add(4_096));
    Ok(())
}

/// A piece of 4,096 bytes ends inside a line.
#[test]
fn pieces_of_lines(rt: HostRuntime) -> Result<(), NoMemory> {
    let mut input = Vec::new(rt.alloc());
    append_remarked(&mut input, "0 # abcdefghij\n", 600)?;
    let mut reader = input.as_slice();
    is(&rt, "the pieces", reader.len() > 2 * 4096, true);
    is(
        &rt,
        "the end of the first",
        reader.get(4095).copied() == Some(b'\n'),
        false,
    );
    is_remarked(&rt, rt.alloc(), &mut reader, ("0 # abcdefghij\n", 600))
}

#[test]
fn many_lines(rt: HostRuntime) -> Result<(), NoMemory> {
    let mut input = Vec::new(rt.alloc());
    append_remarked(&mut input, "0 # a\n", 60_000)?;
    let mut reader = input.as_slice();
    is_remarked(&rt, rt.alloc(), &mut reader, ("0 # a\n", 60_000))
}

#[test]
fn many_reads(rt: HostRuntime) -> Result<(), NoMemory> {
    let mut input = Vec::new(rt.alloc());
    append_remarked(&mut input, "0 # a\n", 33_334)?;
    let mut reader = SlowReader::new(input.as_slice(), NEVER);
    is_remarked(&rt, rt.alloc(), &mut reader, ("0 # a\n", 33_334))?;
    is(&rt, "the reads", reader.reads > 200_000, true);
    Ok(())
}

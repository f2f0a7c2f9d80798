//! Texts of evidence, read and written again.
ghost use Rattle.std.specs.Prelude.{◌<◌};
ghost use Rattle.tc_blocks.specs.Prelude.{most_of};

use crate::checks::{got, is};
use std::alloc::Global;
use std::process::Abort;
use tc_blocks::{Block, Limit, append_whole_block, read_evidence, read_evidence_from};
use tc_entry::Sequence;
use tc_stream::InputFault;
use tc_stream::devices::SlowReader;
use tc_text::{TextFault, append_number, append_text};
use tc_verdict::NoMemory;

const NEVER: usize = usize::MAX;

/// Texts with `~` for each LF, and what comes of each: the number of entries if the text is read, and written again
/// as it was; otherwise its fault.
const TEXTS: &str = "\
evidence 1 t 1~end none~ => 0
evidence 1 t 256~behaviour 255 last~end none~ => 0
evidence 1 t 2~behaviour 0 m~0 create -> made 1~0 # is it <b> & \"on\"?~behaviour 1 p~0 start 1 1 -> ok~1 ! bad move~0 finish -> ok~end pass~ => 3
evidence 1 t 2~0 create named pump -> made 1~0 #  ~end none~ => 1
history 1 a 1~0 finish -> ok~end none~evidence 1 a 1~0 # a~end none~history 2 a 256~end error~ => 1
evidence 1 t 1~9 finish -> ended~end none~ => 1
 => line 1: text ends too early
~ => line 1: bad first line
evidence 2 t 1~end none~ => line 1: bad first line
evidence 1 t 0~end none~ => line 1: bad first line
evidence 1 t 257~end none~ => line 1: bad first line
evidence 1 all 1~end none~ => line 1: bad first line
history 1 t 65~end none~ => line 1: bad first line
evidence 1 t 1 ~end none~ => line 1: bad first line
evidence 1 t 1~ => line 2: text ends too early
evidence 1 t 1~0 # a~ => line 3: text ends too early
evidence 1 t 1~end none~end none~ => line 3: bad first line
evidence 1 t 1~end none~0 # a~ => line 3: bad first line
evidence 1 t 1~behaviour 1 p~end none~ => line 2: bad entry
evidence 1 t 1~behaviour 00 p~end none~ => line 2: bad entry
evidence 1 t 1~behaviour 0 self~end none~ => line 2: bad entry
evidence 1 t 1~behaviour 0  p~end none~ => line 2: bad entry
evidence 1 t 1~behaviour 0 p ~end none~ => line 2: bad entry
evidence 1 t 1~behaviour 0 p~behaviour 0 p~end none~ => line 3: bad entry
evidence 1 t 1~0 finish -> ok~behaviour 0 p~end none~ => line 3: bad entry
evidence 1 t 2~0 start 1 1 -> ok~behaviour 1 p~end none~ => line 3: bad entry
evidence 1 t 1~0 # a~behaviour 0 p~end none~ => line 3: bad entry
evidence 1 t 1~0 ! a~behaviour 0 p~end none~ => line 3: bad entry
evidence 1 t 1~1 # a~end none~ => line 2: bad entry
evidence 1 t 1~1 ! a~end none~ => line 2: bad entry
evidence 1 t 1~0 # ~end none~ => line 2: bad entry
evidence 1 t 1~0 #a~end none~ => line 2: bad entry
evidence 1 t 1~0  # a~end none~ => line 2: bad entry
evidence 1 t 1~0 ? a~end none~ => line 2: bad entry
evidence 1 t 1~0 # \u{e9}~end none~ => line 2: bad entry
evidence 1 t 1~0 finish~end none~ => line 2: bad entry
evidence 1 t 1~end passed~ => line 2: bad entry
history 2 t 1~0 # a~end none~ => line 2: bad entry
history 2 t 1~behaviour 0 p~end none~ => line 2: bad entry
history 1 t 1~0 create named pump -> made 1~end none~ => line 2: bad entry";

/// Appends the text, with LF for each `~`.
fn append_lines(out: &mut Vec<u8>, text: &str) -> Result<(), NoMemory> {
    for byte in text.as_bytes() {
        out.push(if *byte == b'~' { b'\n' } else { *byte })?;
    }
    Ok(())
}

/// Appends the texts of the blocks, and gives how many entries their histories have.
fn append_again(alloc: Global, out: &mut Vec<u8>, blocks: &[Block]) -> Result<u64, NoMemory> {
    let mut entries = 0u64;
    for block in blocks {
        append_whole_block(out, &block.header, block.lines.as_slice(), block.verdict)?;
        let history = block.history(alloc)?;
        entries = entries.wrapping_add(history.entries.as_slice().len() as u64);
    }
    Ok(entries)
}

/// Appends what comes of a text, of which this was read.
fn append_found(
    alloc: Global,
    out: &mut Vec<u8>,
    again: &mut Vec<u8>,
    text: &[u8],
    read: Result<Sequence<Block>, TextFault>,
) -> Result<(), NoMemory> {
    match read {
        Ok(blocks) => {
            let entries = append_again(alloc, again, blocks.as_slice())?;
            append_number(out, entries)
        }
        Err(TextFault::At { line, kind }) => {
            again.extend_from_slice(text)?;
            append_text(out, "line ")?;
            append_number(out, line as u64)?;
            append_text(out, ": ")?;
            append_text(out, kind.text())
        }
        Err(TextFault::NoMemory) => Err(NoMemory),
    }
}

fn is_found(
    rt: &impl Abort,
    alloc: Global,
    text: &[u8],
    read: Result<Sequence<Block>, TextFault>,
    wanted: &str,
) -> Result<(), NoMemory> {
    let mut found = Vec::new(alloc);
    let mut again = Vec::new(alloc);
    append_found(alloc, &mut found, &mut again, text, read)?;
    is(rt, wanted, found.as_slice(), wanted.as_bytes());
    is(rt, "written again", again.as_slice(), text);
    Ok(())
}

/// What is read of these bytes, which come one at a time.
fn read_slowly(
    alloc: Global,
    bytes: &[u8],
    fails_at: usize,
    limit: Limit,
) -> Result<Result<Sequence<Block>, TextFault>, InputFault>
    requires { most_of limit < usize.MAX }
{
    let mut reader = SlowReader::new(bytes, fails_at);
    read_evidence_from(alloc, &mut reader, limit)
}

fn comes_of(rt: &impl Abort, alloc: Global, row: &str, wanted: &str) -> Result<(), NoMemory> {
    let mut text = Vec::new(alloc);
    append_lines(&mut text, row)?;
    is_found(rt, alloc, &text, read_evidence(alloc, &text), wanted)?;
    let slowly = got(rt, read_slowly(alloc, &text, NEVER, Limit::Blocks(1000)));
    is_found(rt, alloc, &text, slowly, wanted)
}

#[test]
fn inputs_that_are_not_read(rt: HostRuntime) {
    let bytes = b"x\nend none\n";
    let long = read_slowly(rt.alloc(), bytes, NEVER, Limit::Whole(10)).err();
    is(&rt, "a byte too many", long, Some(InputFault::TooLong));
    let failed = read_slowly(rt.alloc(), bytes, 11, Limit::Whole(11)).err();
    is(&rt, "the read of the end", failed, Some(InputFault::Read));
}

/// Texts with `~` for each LF, and the most bytes of what is one block of them.
const LONGEST: &str = "\
history 2 t 1~end none~ => 23
history 2 t 1~end none~history 2 tt 1~end none~ => 24
history 2 t 1~0 create -> made 1~end none~end none~ => 42
history 2 t 1~end none => 22
endnone~en~ => 11
en~x end ~ end ~ => 16
x~end ~x~end ~endend~ => 7";

fn is_longest(rt: &impl Abort, alloc: Global, row: &str, most: usize) -> Result<(), NoMemory> {
    let mut text = Vec::new(alloc);
    append_lines(&mut text, row)?;
    let right = read_slowly(alloc, &text, NEVER, Limit::Blocks(most)).is_ok();
    is(rt, "as many bytes as a block may have", right, true);
    let long = read_slowly(alloc, &text, NEVER, Limit::Blocks(most.saturating_sub(1))).err();
    is(
        rt,
        "a byte too many in a block",
        long,
        Some(InputFault::TooLong),
    );
    Ok(())
}

#[test]
fn the_longest_blocks(rt: HostRuntime) -> Result<(), NoMemory> {
    for row in LONGEST.lines() {
        if let Some((text, most)) = row.split_once(" => ") {
            is_longest(&rt, rt.alloc(), text, got(&rt, most.parse::<usize>()))?;
        }
    }
    Ok(())
}

#[test]
fn texts_of_evidence(rt: HostRuntime) -> Result<(), NoMemory> {
    for row in TEXTS.lines() {
        if let Some((text, wanted)) = row.split_once(" => ") {
            comes_of(&rt, rt.alloc(), text, wanted)?;
        }
    }
    Ok(())
}

/// A remark of as many bytes.
fn append_remark(out: &mut Vec<u8>, bytes: usize) -> Result<(), NoMemory> {
    append_text(out, "evidence 1 t 1\n0 # ")?;
    for _ in 0..bytes {
        out.push(b'a')?;
    }
    append_text(out, "\nend none\n")
}

fn is_remark(rt: &impl Abort, alloc: Global, bytes: usize, wanted: bool) -> Result<(), NoMemory> {
    let mut text = Vec::new(alloc);
    append_remark(&mut text, bytes)?;
    is(rt, "a remark", read_evidence(alloc, &text).is_ok(), wanted);
    Ok(())
}

#[test]
fn remarks_of_200_bytes(rt: HostRuntime) -> Result<(), NoMemory> {
    is_remark(&rt, rt.alloc(), 200, true)?;
    is_remark(&rt, rt.alloc(), 201, false)
}

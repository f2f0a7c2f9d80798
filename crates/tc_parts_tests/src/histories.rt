//! The text of a history, read and written again.
use crate::checks::{blocks, first, is};
use std::process::Abort;
use tc_blocks::{History, write_block};
use tc_rules::replay_check;
use tc_text::append_text;
use tc_verdict::{NoMemory, Verdict};

/// The operations: each in each of its forms once.
const OPERATIONS: &str = "\
create
create alive
create named alive
create alive named pump
start 1 65535 0 1 2 3
stop 10
stop all
kill all
stopcase
running 4294967295
alive any
done all
killed 4294967295
wait done any
wait killed 4294967295
wake done all
wake killed any
setverdict none
setverdict pass
setverdict inconc
setverdict fail
getverdict
finish";

/// The replies.
const REPLIES: &str = "\
made 4294967295
ok
true
false
none
pass
inconc
fail
error
matched
parked
ended
error no-component
error not-main
error start-main
error already-running
error not-startable
error no-behaviour
error too-many
error stuck";

fn append_entry(out: &mut Vec<u8>, op: &str, reply: &str) -> Result<(), NoMemory> {
    append_text(out, "0 ")?;
    append_text(out, op)?;
    append_text(out, " -> ")?;
    append_text(out, reply)?;
    append_text(out, "\n")
}

/// Appends a history of each operation with each reply.
fn append_history(out: &mut Vec<u8>) -> Result<(), NoMemory> {
    append_text(out, "history 2 t 64\n")?;
    for op in OPERATIONS.lines() {
        for reply in REPLIES.lines() {
            append_entry(out, op, reply)?;
        }
    }
    append_text(out, "end fail\n")
}

fn append_again(out: &mut Vec<u8>, block: &History) -> Result<(), NoMemory> {
    let entries = block.entries.as_slice();
    write_block(out, &block.name, block.behaviours, entries, block.verdict)
}

/// The text is one block of that many entries, and is written again as it was.
fn is_read_and_written(
    rt: &impl Abort,
    out: &mut Vec<u8>,
    text: &[u8],
    blocks: &[History],
    entries: usize,
) -> Result<(), NoMemory> {
    let block = first(rt, blocks);
    is(rt, "blocks", blocks.len(), 1);
    is(rt, "entries", block.entries.as_slice().len(), entries);
    append_again(out, block)?;
    is(rt, "its text", out.as_slice(), text);
    Ok(())
}

// 460 lines between the first and the last one.
#[test]
fn lines_of_a_written_history(rt: HostRuntime) -> Result<(), NoMemory> {
    let mut text = Vec::new(rt.alloc());
    append_history(&mut text)?;
    let blocks = blocks(&rt, rt.alloc(), text.as_slice());
    let mut out = Vec::new(rt.alloc());
    is_read_and_written(&rt, &mut out, text.as_slice(), &blocks, 460)
}

/// Appends a history of more than 100,000 entries.
fn append_long(out: &mut Vec<u8>) -> Result<(), NoMemory> {
    append_text(out, "history 2 t 1\n")?;
    for _ in 0..110_000u32 {
        append_entry(out, "getverdict", "none")?;
    }
    append_text(out, "end none\n")
}

#[test]
fn lines_of_a_long_history(rt: HostRuntime) -> Result<(), NoMemory> {
    let mut text = Vec::new(rt.alloc());
    append_long(&mut text)?;
    let blocks = blocks(&rt, rt.alloc(), text.as_slice());
    let entries = first(&rt, &blocks).entries.as_slice();
    let checked = replay_check(rt.alloc(), 1, entries).ok();
    is(&rt, "their verdict", checked, Some(Verdict::None));
    let mut out = Vec::new(rt.alloc());
    is_read_and_written(&rt, &mut out, text.as_slice(), &blocks, 110_000)
}

//! Two witnesses from where they part: side by side, or run by run.
ghost use Rattle.std.specs.{Prelude.{◌≡◌, ◌≤◌, ◌++◌, IfOk, OnOk, codes, drop, length}, List.common_prefix_len};
ghost use Rattle.tc_blocks.specs.Prelude.{entry_text};
ghost use Rattle.tc_report.specs.Prelude.{named_call, no_names as spec_no_names};
ghost use Rattle.tc_explored.specs.Race as spec;

use crate::parting::append_partings;
use std::alloc::Global;
use tc_course::Witness;
use tc_entry::{Entry, Name};
use tc_report::{append_named_call, no_names};
use tc_text::{append_shown, append_text, write_move, write_reply};
use tc_verdict::{NoMemory, name as name_of};

/// The left column, if nothing is in it.
const COLUMN: &str = "                                    ";

/// How many entries of a witness are shown next to those of another at most.
const ROWS: usize = 12;

/// Appends an entry as histories spell it; if memory runs out, a part of it.
pub(crate) fn append_entry(out: &mut Vec<u8>, entry: &Entry) -> Result<(), NoMemory>
    ensures { OnOk result (out.new.items ≡ out.old.items ++ entry_text entry.now) }
{
    write_move(out, entry.caller, &entry.op)?;
    append_text(out, " -> ")?;
    write_reply(out, &entry.reply)
}

// A call and its reply, by numbers only.
fn plain_call(alloc: Global, entry: &Entry) -> Result<Vec<u8>, NoMemory>
    ensures { IfOk result (λ text. text.items ≡ named_call spec_no_names entry.now.op entry.now.reply) }
{
    let mut text = Vec::new(alloc);
    append_named_call(&mut text, &no_names(alloc), &entry.op, entry.reply)?;
    Ok(text)
}

// Whether two entries are of the same run, with the same call and reply.
fn is_alike(alloc: Global, left: &Entry, right: &Entry) -> Result<bool, NoMemory>
    ensures { IfOk result (λ same. same ≡ spec.is_alike left.now right.now) }
{
    let text = plain_call(alloc, left)?;
    let other = plain_call(alloc, right)?;
    Ok(left.caller.0 == right.caller.0 && text.as_slice() == other.as_slice())
}

/// How many entries two lists have alike in front.
pub(crate) fn alike_count(alloc: Global, left: &[Entry], right: &[Entry]) -> Result<usize, NoMemory>
    ensures is { IfOk result (λ count. count ≡ common_prefix_len spec.is_alike left.now right.now) }
    ensures within { IfOk result (λ count. count ≤ length left.now) }
    ensures within_other { IfOk result (λ count. count ≤ length right.now) }
{
    let mut count = 0;
    let mut rest = left;
    let mut others = right;
    while let Some((entry, later)) = rest.split_first() {
        let Some((other, other_later)) = others.split_first() else {
            return Ok(count);
        };
        if !is_alike(alloc, entry, other)? {
            return Ok(count);
        }
        count += 1;
        rest = later;
        others = other_later;
    }
    Ok(count)
}

// The rest of the left column after this text.
#[tactic(auto, using(std::proofs::lemmas::List::drop_all))]
fn rest_of_column(text: &[u8]) -> &'static [u8]
    ensures { result.now ≡ drop (length text.now) (codes "                                    ") }
{
    COLUMN.as_bytes().get(text.len()..).unwrap_or(&[])
}

fn append_row(out: &mut Vec<u8>, left: &[u8], right: &[u8]) -> Result<(), NoMemory>
    ensures { OnOk result (out.new.items ≡ out.old.items ++ spec.row left.now right.now) }
{
    let alloc = *out.allocator();
    let mut text = Vec::new(alloc);
    append_text(&mut text, " ")?;
    text.extend_from_slice(left)?;
    text.extend_from_slice(rest_of_column(left))?;
    append_text(&mut text, " | ")?;
    text.extend_from_slice(right)?;
    append_shown(alloc, out, text.as_slice())
}

// The text of the entry at a place, if there is one.
fn text_at(alloc: Global, history: &[Entry], at: usize) -> Result<Vec<u8>, NoMemory>
    ensures { IfOk result (λ text. text.items ≡ spec.text_at history.now at) }
{
    let mut text = Vec::new(alloc);
    if let Some(entry) = history.get(at) {
        append_entry(&mut text, entry)?;
    }
    Ok(text)
}

#[tactic(auto, using(tc_course::proofs::Lemmas::next_of))]
fn append_rows(out: &mut Vec<u8>, left: &[Entry], right: &[Entry]) -> Result<(), NoMemory>
    ensures { OnOk result (out.new.items ≡ out.old.items ++ spec.rows left.now right.now) }
{
    for at in 0..left.len().max(right.len()) {
        let text = text_at(*out.allocator(), left, at)?;
        let other = text_at(*out.allocator(), right, at)?;
        append_row(out, text.as_slice(), other.as_slice())?;
    }
    Ok(())
}

// Appends how far two witnesses go alike; if memory runs out, a part of it.
fn append_alike(
    out: &mut Vec<u8>,
    witness: &Witness,
    other: &Witness,
    count: usize,
) -> Result<(), NoMemory>
    ensures { OnOk result (out.new.items ≡ out.old.items ++ spec.alike_line witness.now other.now count) }
{
    let alloc = *out.allocator();
    let (first, second) = (name_of(witness.verdict), name_of(other.verdict));
    let text = format!(in alloc; " {first} and {second}: alike for {count} entries")?;
    append_shown(alloc, out, text.as_bytes())
}

// Appends how far two witnesses are alike, and where they part; if memory runs out, a part of it.
fn append_race(
    out: &mut Vec<u8>,
    names: &[Name],
    behaviours: u16,
    witness: &Witness,
    other: &Witness,
) -> Result<(), NoMemory>
    ensures { OnOk result (out.new.items ≡ out.old.items ++ spec.race names.now behaviours witness.now other.now) }
{
    let left = witness.history.as_slice();
    let right = other.history.as_slice();
    let count = alike_count(*out.allocator(), left, right)?;
    append_alike(out, witness, other, count)?;
    let rest = &left[count..];
    let others = &right[count..];
    if ROWS < rest.len() || ROWS < others.len() {
        return append_partings(out, names, behaviours, left, right);
    }
    let head = name_of(witness.verdict).as_bytes();
    append_row(out, head, name_of(other.verdict).as_bytes())?;
    append_rows(out, rest, others)
}

/// Appends the first witness next to each other one, from where they part, in a test case with these names of behaviours.
/// If memory runs out, a part of it.
pub(crate) fn append_races(
    out: &mut Vec<u8>,
    names: &[Name],
    behaviours: u16,
    found: &[Witness],
) -> Result<(), NoMemory>
    ensures { OnOk result (out.new.items ≡ out.old.items ++ spec.races names.now behaviours found.now) }
{
    let Some((witness, others)) = found.split_first() else {
        return Ok(());
    };
    for other in others {
        append_race(out, names, behaviours, witness, other)?;
    }
    Ok(())
}

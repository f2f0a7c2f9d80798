//! The history of a test case, and writing it.
ghost use Rattle.std.specs.Prelude.{◌≡◌, ◌++◌, ◌∷◌, [], OnOk, OnErr};
ghost use Rattle.std.specs.{Io.StartsWith, List.flat_map};
ghost use Rattle.tc_blocks.specs.{HistoryBlock.{end_text, entry_text, history_text}, Inside.entry_line};

use crate::header::Kind;
use crate::write::append_first;
use tc_entry::{Entry, Name, NoMemory, Sequence, Verdict};
use tc_text::{append_text, write_move, write_reply};
use tc_verdict::name as name_of;

/// The history of a test case, as a text gave it.
#[derive(Drop)]
pub struct History {
    /// The format of the block: 1, or 2, where components may have names.
    pub format: u16,
    /// The name of the test case.
    pub name: Name,
    /// How many behaviours it had.
    pub behaviours: u16,
    /// The number of the block's first line in the text, counted from 1.
    pub first_line: usize,
    /// The entries, the oldest first.
    pub entries: Sequence<Entry>,
    /// The overall verdict.
    pub verdict: Verdict,
}

/// Appends the line of the entry; if memory runs out, a part of it.
pub(crate) fn append_entry(out: &mut Vec<u8>, entry: &Entry) -> Result<(), NoMemory>
    ensures ok { OnOk result (out.new.items ≡ out.old.items ++ entry_line entry.now) }
    ensures err { OnErr result (StartsWith out.new.items out.old.items) }
{
    write_move(out, entry.caller, &entry.op)?;
    append_text(out, " -> ")?;
    write_reply(out, &entry.reply)?;
    out.push(b'\n')?;
    Ok(())
}

/// Appends the line of each entry; if memory runs out, a part of them.
pub fn append_entries(out: &mut Vec<u8>, entries: &[Entry]) -> Result<(), NoMemory>
    ensures ok { OnOk result (out.new.items ≡ out.old.items ++ flat_map (λ e. entry_text e ++ (10 ∷ [])) entries.now) }
    ensures err { OnErr result (StartsWith out.new.items out.old.items) }
{
    for entry in entries {
        append_entry(out, entry)?;
    }
    Ok(())
}

/// Appends the last line of a block; if memory runs out, a part of it.
pub fn append_end(out: &mut Vec<u8>, verdict: Verdict) -> Result<(), NoMemory>
    ensures ok { OnOk result (out.new.items ≡ out.old.items ++ (end_text verdict ++ (10 ∷ []))) }
    ensures err { OnErr result (StartsWith out.new.items out.old.items) }
{
    append_text(out, "end ")?;
    append_text(out, name_of(verdict))?;
    out.push(b'\n')?;
    Ok(())
}

/// Appends the history of a test case, in format 2: its name, the number of its behaviours, its entries and its overall
/// verdict. If memory runs out, nothing is appended.
pub fn write_block(
    out: &mut Vec<u8>,
    name: &Name,
    behaviours: u16,
    entries: &[Entry],
    verdict: Verdict,
) -> Result<(), NoMemory>
    ensures ok { OnOk result (out.new.items ≡ out.old.items ++ history_text 2 name.now behaviours entries.now verdict) }
    ensures err { OnErr result (out.new.items ≡ out.old.items) }
{
    let start = out.len();
    if append_first(out, Kind::History2, name, behaviours).is_ok()
        && append_entries(out, entries).is_ok()
        && append_end(out, verdict).is_ok()
    {
        return Ok(());
    }
    out.truncate(start);
    Err(NoMemory)
}

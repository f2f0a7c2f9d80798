//! Distinct names.
use crate::following::ModelRun;
use indexmap::IndexSet;
use std::alloc::Global;
use tc_entry::{Name, NoMemory};
use tc_text::{append_number, append_text};

/// How many bytes of a name a number may follow.
const HEAD: usize = 26;

// These bytes with the number after them, if they are a name.
fn numbered(alloc: Global, head: &[u8], number: u16) -> Result<Option<Name>, NoMemory> {
    let mut text = Vec::new(alloc);
    for byte in head.iter().take(HEAD) {
        text.push(*byte)?;
    }
    append_text(&mut text, "_")?;
    append_number(&mut text, u64::from(number))?;
    Ok(Name::of_bytes(text.as_slice()))
}

/// Adds the name; if it is one of these, with the first number from 2 on that makes it none.
pub(crate) fn add_distinct(
    alloc: Global,
    names: &mut IndexSet<Name>,
    name: Name,
) -> Result<(), NoMemory> {
    let mut new = name.copy();
    for number in 2..u16::MAX {
        if !names.contains(&new) {
            break;
        }
        if let Some(other) = numbered(alloc, name.bytes(), number)? {
            new = other;
        }
    }
    names.insert(new)?;
    Ok(())
}

/// Gives each of these runs a name of its own for its behaviour: that of the block, otherwise one of its number.
pub(crate) fn name_runs(alloc: Global, runs: &mut [ModelRun]) -> Result<(), NoMemory> {
    let mut names = IndexSet::new(alloc);
    for run in runs.iter_mut() {
        if let Some(name) = run.name.take().or(numbered(alloc, b"run", run.run.0)?) {
            add_distinct(alloc, &mut names, name)?;
        }
        run.name = names.as_slice().last().map(Name::copy);
    }
    Ok(())
}

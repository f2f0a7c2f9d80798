//! Names, and entries that are the same.
use crate::checks::{blocks, first, holds, is};
use std::process::Abort;
use tc_entry::{Entry, Name};

/// Texts that are names.
const NAMES: &str = "\
t_1
abcdefghijklmnopqrstuvwxyz_ABC12";

/// Texts that are none, the empty one among them.
const OTHERS: &str = "\
mtc
all
any
self
_a

1a
a-b
abcdefghijklmnopqrstuvwxyz_ABC123";

/// Entries of which no two are the same: each differs from another in one thing.
const ENTRIES: &str = "\
history 2 t 2
0 create -> made 1
0 create -> made 2
1 create -> made 1
0 create alive -> made 1
0 create alive named pump -> made 1
0 create alive named valve -> made 1
0 create named pump -> made 1
0 start 1 2 3 -> ok
0 start 1 2 -> ok
0 start 1 2 4 -> ok
0 start 1 3 3 -> ok
0 stop 1 -> ok
0 stop all -> ok
0 wait done 1 -> parked
0 wait killed 1 -> parked
0 wake done 1 -> parked
0 setverdict pass -> ok
0 setverdict fail -> ok
0 getverdict -> pass
0 finish -> ok
0 finish -> ended
0 stopcase -> ok
end none
";

fn is_name(rt: &impl Abort, text: &str) {
    let read = Name::read(text);
    holds(rt, text, read.is_some());
    if let Some(name) = read {
        is(rt, text, name.bytes(), text.as_bytes());
        holds(rt, text, name.same(&name.copy()));
    }
}

#[test]
fn names(rt: HostRuntime) {
    for text in NAMES.lines() {
        is_name(&rt, text);
    }
    for text in OTHERS.lines() {
        holds(&rt, text, Name::read(text).is_none());
    }
}

/// An entry is the same as its copy, and as that of these which has its place.
fn is_told_apart(rt: &impl Abort, entry: &Entry, at: usize, entries: &[Entry]) {
    holds(rt, "a copy", entry.same(&entry.copy()));
    for (place, other) in entries.iter().enumerate() {
        is(rt, "the same", entry.same(other), place == at);
        is(rt, "equal", *entry == *other, place == at);
    }
}

#[test]
fn entries_are_told_apart(rt: HostRuntime) {
    let blocks = blocks(&rt, rt.alloc(), ENTRIES.as_bytes());
    let entries = first(&rt, &blocks).entries.as_slice();
    is(&rt, "entries", entries.len(), 22);
    for (at, entry) in entries.iter().enumerate() {
        is_told_apart(&rt, entry, at, entries);
    }
}

// What the documents say of the memory of a report rests on this.
#[test]
fn an_entry_takes_48_bytes(rt: HostRuntime) {
    is(&rt, "size_of::<Entry>()", size_of::<Entry>(), 48);
}

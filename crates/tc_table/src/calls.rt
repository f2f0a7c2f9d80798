//! Calls on a table, text in and text out, and the numbers that they answer.
ghost use Rattle.std.specs.Prelude.{ℕ, List, ◌≡◌, ◌≢◌, ◌<◌, ◌≤◌, ◌+◌, ◌↔◌, ◌++◌, length, IfNone, IfSome, Some, true};
ghost use Rattle.tc_rules.specs.Prelude.{IsName};
ghost use Rattle.tc_text.specs.Prelude.{reply_text};
ghost use Rattle.tc_table.specs.Calls.{Begins, Exceeds, Fills, IsAnswer, IsHistoryGiven, Spells, after_call, host_view, table_reply, written_text};

use crate::held_case::HeldCase;
use itoa::Buffer;
use std::alloc::Global;
use tc_blocks::laws::entries_fit;
use tc_blocks::write_block;
use tc_entry::{Name, Op, Reply, Run, name_of_fault};
use tc_rules::Table;
use tc_text::{read_move, read_short_move};
use tc_verdict::name as name_of;

// The numbers that calls answer, as `clients/cpp/filskeam.h` explains them.
pub const DONE: u8 = 0;

pub const CLOSED: u8 = 1;

pub const UNSPELLED: u8 = 2;

pub const NO_ROOM: u8 = 3;

pub const NO_MEMORY: u8 = 4;

pub const OPEN: u8 = 5;

pub const NO_NUMBER: u8 = 6;

pub const NONE: u8 = 255;

// No reply has more bytes.
const REPLY: usize = 32;

// The two parts of a reply's text.
#[inline(always)]
fn parts(reply: Reply, digits: &mut Buffer) -> (&'static str, &str)
    ensures text { result.0.now ++ result.1.now ≡ reply_text reply }
    ensures short { (length result.0.now ≤ 8) × (length result.1.now ≤ 24) }
{
    match reply {
        Reply::Made(comp) => ("made ", digits.format(comp.0)),
        Reply::Ok => ("ok", ""),
        Reply::Answer(true) => ("true", ""),
        Reply::Answer(false) => ("false", ""),
        Reply::Local(verdict) => (name_of(verdict), ""),
        Reply::Matched => ("matched", ""),
        Reply::Parked => ("parked", ""),
        Reply::Ended => ("ended", ""),
        Reply::Fault(fault) => ("error ", name_of_fault(fault)),
    }
}

/// Copies both parts of a text if they have room, and gives its length in any case.
pub fn give_text(room: &mut [u8], count: &mut usize, first: &[u8], second: &[u8]) -> u8
    requires { length first.now + length second.now ≤ usize.MAX }
    ensures filled { Fills room.old room.new count.new (first.now ++ second.now) }
    ensures given { result ≡ 0 → Begins room.old room.new count.new (first.now ++ second.now) }
    ensures no_room { result ≡ 3 → Exceeds room.old count.new (first.now ++ second.now) × (room.new ≡ room.old) }
    ensures fits { (result ≡ 0) ↔ (length first.now + length second.now ≤ length room.old) }
    ensures any { result ≢ 0 → result ≡ 3 }
{
    let middle = first.len();
    *count = middle + second.len();
    if room.len() < *count {
        return NO_ROOM;
    }
    room[..middle].copy_from_slice(first);
    room[middle..*count].copy_from_slice(second);
    DONE
}

// How many bytes the text of a reply has.
fn size_of(reply: Reply) -> usize
    ensures { result ≡ length (reply_text reply) }
{
    let mut digits = Buffer::new();
    let (first, second) = parts(reply, &mut digits);
    first.len() + second.len()
}

// The reply to the call, which is made if `is_made` and the reply has room. Only in a small room that is asked first. None
// if memory runs out.
#[inline(always)]
fn reply_to(table: &mut Table, caller: Run, op: Op, is_made: bool, room: usize) -> Option<Reply>
    ensures reply { IfSome result (λ r. r ≡ table_reply table.old caller.0 op) }
    ensures left { IfSome result (λ r. length (reply_text r) ≤ room → host_view (Some table.new) ≡ Some (after_call is_made table.old caller.0 op)) }
    ensures kept { IfSome result (λ r. room < 32 → room < length (reply_text r) → host_view (Some table.new) ≡ host_view (Some table.old)) }
    ensures refused { IfNone result ((is_made ≡ true) × (host_view (Some table.new) ≡ host_view (Some table.old))) }
{
    if is_made && REPLY <= room {
        return table.play(caller, op).ok();
    }
    let reply = table.would(caller, &op);
    if is_made && size_of(reply) <= room {
        return table.play(caller, op).ok();
    }
    Some(reply)
}

// Gives the reply to the call, which a text spells, if the reply has room. Makes the call if `is_made`.
#[inline(always)]
fn answer_move(
    table: &mut Table,
    caller: Run,
    op: Op,
    is_made: bool,
    room: &mut [u8],
    count: &mut usize,
) -> u8
    ensures { (text : List ℕ) → Spells text caller.0 op
        → IsAnswer is_made (Some table.old) (Some table.new) text room.old room.new count.old count.new result }
{
    let Some(reply) = reply_to(table, caller, op, is_made, room.len()) else {
        return NO_MEMORY;
    };
    let mut digits = Buffer::new();
    let (first, second) = parts(reply, &mut digits);
    give_text(room, count, first.as_bytes(), second.as_bytes())
}

// Gives the reply to the call that the text spells, if it spells one and the reply has room. Makes the call if `is_made`.
// Most operations are small, and so quickly passed on: they are tried first.
fn answer(table: &mut Table, text: &[u8], is_made: bool, room: &mut [u8], count: &mut usize) -> u8
    ensures { IsAnswer is_made (Some table.old) (Some table.new) text.now room.old room.new count.old count.new result }
{
    if let Some((caller, op)) = read_short_move::<HeldCase>(text) {
        return answer_move(table, caller, op.op(), is_made, room, count);
    }
    match read_move(text) {
        Some((caller, op)) => answer_move(table, caller, op, is_made, room, count),
        None => UNSPELLED,
    }
}

/// Gives the reply to the call that the text spells, if the place holds a test case. Makes the call if `is_made`.
pub fn call(
    alloc: Global,
    case: &mut HeldCase,
    text: &[u8],
    is_made: bool,
    room: &mut [u8],
    count: &mut usize,
) -> u8
    ensures { IsAnswer is_made case.old.owned.case case.new.owned.case text.now room.old room.new count.old count.new result }
{
    let Some(mut table) = case.take(alloc) else {
        return CLOSED;
    };
    let number = answer(&mut table, text, is_made, room, count);
    case.put(table);
    number
}

/// Writes the history of the test case with this name, if it has room.
pub fn history(alloc: Global, table: &Table, name: &[u8], room: &mut [u8], count: &mut usize) -> u8
    ensures done { result ≡ 0 → IsHistoryGiven table.now name.now room.old room.new count.new }
    ensures unnamed { result ≡ 2 ↔ (IsName name.now → ⊥) }
    ensures no_room { result ≡ 3 → IsName name.now × Exceeds room.old count.new (written_text name.now table.now) }
    ensures same { result ≢ 0 → room.new ≡ room.old }
    ensures count { result ≢ 0 → result ≢ 3 → count.new ≡ count.old }
    ensures any { result ≢ 0 → result ≢ 2 → result ≢ 3 → result ≡ 4 }
{
    let Some(name) = Name::of_bytes(name) else {
        return UNSPELLED;
    };
    let mut text = Vec::new(alloc);
    let (behaviours, entries, verdict) = (table.behaviours(), table.history(), table.overall());
    entries_fit(entries);
    match write_block(&mut text, &name, behaviours, entries, verdict) {
        Ok(()) => give_text(room, count, text.as_slice(), &[]),
        Err(_) => NO_MEMORY,
    }
}

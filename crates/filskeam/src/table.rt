//! The component table of a test case, for a host: each call is given the place that holds it.
ghost use Rattle.std.specs.{Prelude.{◌≡◌, ◌≢◌, ◌↔◌, MatchOption, Some, None, is_some, true, false, [], if◌then◌else◌}, Option.option_map_or};
ghost use Rattle.tc_rules.specs.Prelude.{IsBehaviours, IsName, is_over, level_of, overall, past_of};
ghost use Rattle.tc_table.specs.Calls.{Exceeds, IsAnswer, IsHistoryGiven, host_view, written_text};

use std::alloc::Global;
use tc_course::level;
use tc_entry::is_behaviours;
use tc_table::calls::{CLOSED, DONE, NO_MEMORY, NO_NUMBER, NONE, OPEN, call, history};
use tc_table::{HeldCase, Table};

/// Opens a test case of that many behaviours: 0. If the place holds one already: 5. If no test case has that many: 6. If
/// memory runs out: 4.
#[unsafe(no_mangle)]
pub extern "C" fn filskeam_open(alloc: Global, case: &mut HeldCase, behaviours: u16) -> u8
    ensures opened { result ≡ 0 → host_view case.new.owned.case ≡ Some (behaviours, []) }
    ensures was_open { (result ≡ 5) ↔ (is_some case.old.owned.case ≡ true) }
    ensures no_number { (result ≡ 6) ↔ ((case.old.owned.case ≡ None) × (IsBehaviours behaviours → ⊥)) }
    ensures same { result ≢ 0 → case.new.owned.case ≡ case.old.owned.case }
    ensures any { result ≢ 0 → result ≢ 5 → result ≢ 6 → result ≡ 4 }
{
    if case.is_open() {
        return OPEN;
    }
    if !is_behaviours(usize::from(behaviours)) {
        return NO_NUMBER;
    }
    let Ok(table) = Table::new(alloc, behaviours) else {
        return NO_MEMORY;
    };
    match Box::new(alloc, table) {
        Ok(table) => {
            case.put(table);
            DONE
        }
        Err(_) => NO_MEMORY,
    }
}

/// Makes the call that the text spells, and writes its reply: 0. If the place holds no test case: 1. If the text spells
/// no call: 2. If the reply has no room: 3, and its length is given. If memory runs out: 4.
#[unsafe(no_mangle)]
pub extern "C" fn filskeam_play(
    alloc: Global,
    case: &mut HeldCase,
    text: &[u8],
    room: &mut [u8],
    count: &mut usize,
) -> u8
    ensures { IsAnswer true case.old.owned.case case.new.owned.case text.now room.old room.new count.old count.new result }
{
    call(alloc, case, text, true, room, count)
}

/// Writes the reply that `filskeam_play` would write now, and makes no call: 0. If the place holds no test case: 1. If the
/// text spells no call: 2. If the reply has no room: 3, and its length is given.
#[unsafe(no_mangle)]
pub extern "C" fn filskeam_would(
    alloc: Global,
    case: &mut HeldCase,
    text: &[u8],
    room: &mut [u8],
    count: &mut usize,
) -> u8
    ensures { IsAnswer false case.old.owned.case case.new.owned.case text.now room.old room.new count.old count.new result }
{
    call(alloc, case, text, false, room, count)
}

/// The overall verdict: 0 none, 1 pass, 2 inconc, 3 fail, 4 error. If the place holds no test case: 255.
#[unsafe(no_mangle)]
pub extern "C" fn filskeam_overall(alloc: Global, case: &mut HeldCase) -> u8
    ensures is { result ≡ option_map_or (λ t. level_of (overall (past_of t))) case.old.owned.case 255 }
    ensures same { case.new.owned.case ≡ case.old.owned.case }
{
    let Some(table) = case.take(alloc) else {
        return NONE;
    };
    let verdict = level(table.overall()) as u8;
    case.put(table);
    verdict
}

/// Whether the test case is over: 1 or 0. If the place holds none: 255.
#[unsafe(no_mangle)]
pub extern "C" fn filskeam_is_over(alloc: Global, case: &mut HeldCase) -> u8
    ensures is { result ≡ option_map_or (λ t. if is_over (past_of t) then 1 else 0) case.old.owned.case 255 }
    ensures same { case.new.owned.case ≡ case.old.owned.case }
{
    let Some(table) = case.take(alloc) else {
        return NONE;
    };
    let over = u8::from(table.is_over());
    case.put(table);
    over
}

/// Writes the history of the test case with this name: 0. If the place holds no test case: 1. If the name is none: 2.
/// If the history has no room: 3, and its length is given. If memory runs out: 4.
#[unsafe(no_mangle)]
pub extern "C" fn filskeam_history(
    alloc: Global,
    case: &mut HeldCase,
    name: &[u8],
    room: &mut [u8],
    count: &mut usize,
) -> u8
    ensures done { result ≡ 0 → MatchOption case.old.owned.case ⊥ (λ t. IsHistoryGiven t name.now room.old room.new count.new) }
    ensures closed { (result ≡ 1) ↔ (case.old.owned.case ≡ None) }
    ensures unnamed { (result ≡ 2) ↔ ((is_some case.old.owned.case ≡ true) × (IsName name.now → ⊥)) }
    ensures no_room { result ≡ 3 → MatchOption case.old.owned.case ⊥ (λ t. IsName name.now × Exceeds room.old count.new (written_text name.now t)) }
    ensures room_same { result ≢ 0 → room.new ≡ room.old }
    ensures count { result ≢ 0 → result ≢ 3 → count.new ≡ count.old }
    ensures same { case.new.owned.case ≡ case.old.owned.case }
    ensures any { result ≢ 0 → result ≢ 1 → result ≢ 2 → result ≢ 3 → result ≡ 4 }
{
    let Some(table) = case.take(alloc) else {
        return CLOSED;
    };
    let answer = history(alloc, &table, name, room, count);
    case.put(table);
    answer
}

/// Closes the test case: 0. If the place holds none: 1.
#[unsafe(no_mangle)]
pub extern "C" fn filskeam_close(alloc: Global, case: &mut HeldCase) -> u8
    ensures is { result ≡ (if is_some case.old.owned.case then 0 else 1) }
    ensures closed { case.new.owned.case ≡ None }
{
    match case.take(alloc) {
        Some(table) => {
            drop(table);
            DONE
        }
        None => CLOSED,
    }
}

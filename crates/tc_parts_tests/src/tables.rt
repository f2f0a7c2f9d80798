//! Calls on a table and on a state of the same test case, and lists of entries. The calls of the library are in small
//! functions without clauses, so that the proof of a test carries none of the library's.
use crate::checks::{blocks, first, got, holds, is};
use std::alloc::Global;
use std::process::Abort;
use tc_blocks::History;
use tc_rules::{
    CaseState, CheckFault, Comp, NoMemory, Op, Phase, Reply, Run, Table, Verdict, copied_entries,
    replay_check,
};
use tc_text::{read_move, read_reply};

/// What is seen of a test case and of its component 1, by the verdict, the phase, the last run, and whether it is of
/// alive-type; and whether run 1 is active.
#[derive(Clone, Copy, PartialEq, Eq, Debug)]
struct Seen {
    behaviours: u16,
    components: u32,
    overall: Verdict,
    is_over: bool,
    phase: Option<Phase>,
    local: Option<Verdict>,
    last_run: Option<Run>,
    is_alive_type: bool,
    is_active: bool,
}

/// What is seen at first.
const OPENING: Seen = Seen {
    behaviours: 2,
    components: 1,
    overall: Verdict::None,
    is_over: false,
    phase: None,
    local: None,
    last_run: None,
    is_alive_type: false,
    is_active: false,
};

/// What is seen once run 1 has set fail on component 1.
const FAILED: Seen = Seen {
    behaviours: 2,
    components: 2,
    overall: Verdict::Fail,
    is_over: false,
    phase: Some(Phase::Running(Run(1))),
    local: Some(Verdict::Fail),
    last_run: Some(Run(1)),
    is_alive_type: true,
    is_active: true,
};

const STOPPED: Seen = Seen {
    phase: Some(Phase::Stopped),
    is_active: false,
    ..FAILED
};

const OVER: Seen = Seen {
    is_over: true,
    phase: Some(Phase::Killed),
    ..STOPPED
};

fn seen_in(table: &Table) -> Seen {
    Seen {
        behaviours: table.behaviours(),
        components: table.components(),
        overall: table.overall(),
        is_over: table.is_over(),
        phase: table.phase_of(Comp(1)),
        local: table.local(Comp(1)),
        last_run: table.last_run(Comp(1)),
        is_alive_type: table.is_alive_type(Comp(1)),
        is_active: table.is_active(Run(1)),
    }
}

fn seen_in_state(state: &CaseState) -> Seen {
    Seen {
        behaviours: state.behaviours(),
        components: state.components(),
        overall: state.overall(),
        is_over: state.is_over(),
        phase: state.phase_of(Comp(1)),
        local: state.local(Comp(1)),
        last_run: state.last_run(Comp(1)),
        is_alive_type: state.is_alive_type(Comp(1)),
        is_active: state.is_active(Run(1)),
    }
}

fn are_seen(rt: &impl Abort, table: &Table, state: &CaseState, wanted: Seen) {
    is(rt, "in the table", seen_in(table), wanted);
    is(rt, "in the state", seen_in_state(state), wanted);
}

/// What a table would reply, and what it replies.
fn replies(table: &mut Table, caller: Run, op: &Op) -> Result<[Reply; 2], NoMemory> {
    let would = table.would(caller, op);
    Ok([would, table.play(caller, op.copy())?])
}

/// What a state would reply, and what it replies.
fn replies_of_state(state: &mut CaseState, caller: Run, op: &Op) -> Result<[Reply; 2], NoMemory> {
    let would = state.would(caller, op);
    Ok([would, state.play(caller, op.copy())?])
}

/// Plays a move on both, which answer it with this reply.
fn play(
    rt: &impl Abort,
    table: &mut Table,
    state: &mut CaseState,
    text: &str,
    wanted: &str,
) -> Result<(), NoMemory> {
    let (Some((caller, op)), Some(reply)) = (
        read_move(text.as_bytes()),
        read_reply(wanted.as_bytes()),
    ) else {
        panic!(rt; "{text}")
    };
    is(rt, text, replies(table, caller, &op)?, [reply; 2]);
    is(rt, text, replies_of_state(state, caller, &op)?, [reply; 2]);
    Ok(())
}

/// Plays the moves on both.
fn play_all(
    rt: &impl Abort,
    table: &mut Table,
    state: &mut CaseState,
    rows: &str,
) -> Result<(), NoMemory> {
    for row in rows.lines() {
        if let Some((text, wanted)) = row.split_once(" => ") {
            play(rt, table, state, text, wanted)?;
        }
    }
    Ok(())
}

const UP_TO_THE_FAIL: &str = "\
0 create alive => made 1
0 start 1 1 => ok
1 setverdict fail => ok
1 getverdict => fail";

const UP_TO_THE_END: &str = "\
0 finish => ok
0 finish => ended";

/// Copies of both, which end the test case.
fn end(rt: &impl Abort, table: &mut Table, state: &mut CaseState) -> Result<(), NoMemory> {
    are_seen(rt, table, state, STOPPED);
    play_all(rt, table, state, UP_TO_THE_END)?;
    are_seen(rt, table, state, OVER);
    Ok(())
}

/// The copies of both continue by themselves.
fn copies_go_on(
    rt: &impl Abort,
    alloc: Global,
    table: &Table,
    state: &CaseState,
) -> Result<(), NoMemory> {
    let mut table = got(rt, table.copied(alloc));
    let mut state = got(rt, state.copied(alloc));
    end(rt, &mut table, &mut state)
}

/// A copy of the table's entries has as many.
fn are_copied(
    rt: &impl Abort,
    alloc: Global,
    table: &Table,
    wanted: usize,
) -> Result<(), NoMemory> {
    let copies = copied_entries(alloc, table.history())?;
    is(rt, "copies", copies.len(), wanted);
    Ok(())
}

fn play_and_copy(
    rt: &impl Abort,
    alloc: Global,
    table: &mut Table,
    state: &mut CaseState,
) -> Result<(), NoMemory> {
    are_seen(rt, table, state, OPENING);
    play_all(rt, table, state, UP_TO_THE_FAIL)?;
    are_seen(rt, table, state, FAILED);
    play_all(rt, table, state, "0 stop all => ok")?;
    copies_go_on(rt, alloc, table, state)?;
    are_seen(rt, table, state, STOPPED);
    are_copied(rt, alloc, table, 5)
}

#[test]
fn calls_on_a_table(rt: HostRuntime) -> Result<(), NoMemory> {
    let mut table = Table::new(rt.alloc(), 2)?;
    let mut state = CaseState::new(rt.alloc(), 2)?;
    play_and_copy(&rt, rt.alloc(), &mut table, &mut state)
}

#[test]
fn quiet_calls(rt: HostRuntime) -> Result<(), NoMemory> {
    let mut table = Table::new(rt.alloc(), 1)?;
    table.make_room(2)?;
    holds(&rt, "room for two", 2 <= table.room());
    Ok(())
}

/// The check of the entries of a block of one behaviour.
fn checked(alloc: Global, block: &History) -> Result<Verdict, CheckFault> {
    replay_check(alloc, 1, block.entries.as_slice())
}

const MATCHED: &str = "\
history 1 t 1
0 create -> made 1
0 stop 1 -> ok
0 alive 1 -> true
0 wait done 1 -> matched
end none
";

const PARKED: &str = "\
history 1 t 1
0 create -> made 1
0 stop 1 -> ok
0 alive 1 -> true
0 wait done 1 -> parked
end none
";

/// The check of the entries of a history.
fn is_checked(rt: &impl Abort, alloc: Global, text: &str, wanted: Result<Verdict, CheckFault>) {
    let blocks = blocks(rt, alloc, text.as_bytes());
    is(rt, text, checked(alloc, first(rt, &blocks)), wanted);
}

#[test]
fn replay_check_of_a_list(rt: HostRuntime) {
    let reply = Reply::Parked;
    let differs = CheckFault::Differs { at: 3, reply };
    is_checked(&rt, rt.alloc(), MATCHED, Err(differs));
    is_checked(&rt, rt.alloc(), PARKED, Ok(Verdict::None));
    for (text, wanted) in [
        ("made 7", Some(Reply::Made(Comp(7)))),
        ("error", Some(Reply::Local(Verdict::Error))),
        ("made 07", None),
    ] {
        is(&rt, text, read_reply(text.as_bytes()), wanted);
    }
}

/// The text of a fault.
fn is_told(
    rt: &impl Abort,
    alloc: Global,
    fault: CheckFault,
    wanted: &str,
) -> Result<(), NoMemory> {
    let shown = fault.to_string(alloc)?;
    is(rt, "its text", shown.as_str(), wanted);
    Ok(())
}

const REPLIED_OK: &str = "\
history 2 t 1
0 getverdict -> ok
end none
";

#[test]
fn texts_of_a_check(rt: HostRuntime) -> Result<(), NoMemory> {
    let blocks = blocks(&rt, rt.alloc(), REPLIED_OK.as_bytes());
    let Err(differs) = checked(rt.alloc(), first(&rt, &blocks)) else {
        panic!(rt; "a verdict call replied ok was found legal")
    };
    let text = "the entry at 0 has another reply than the table's";
    is_told(&rt, rt.alloc(), differs, text)?;
    is_told(&rt, rt.alloc(), CheckFault::NoMemory, "no memory")
}

//! Names of `tc_table`: the component table of a test case, its operations and replies, and their texts.
use crate::checks::{holds, is};
use std::alloc::Global;
use std::collections::HashSet;
use std::process::Abort;
use std::test::Fail;
use tc_table::laws::names_say_nothing;
use tc_table::{
    Args, Block, CheckFault, Comp, Entry, Fault, Group, InputFault, MoveList, Name, NoMemory, Op,
    Phase, Reply, Run, Table, Target, TextFault, TextKind, read_history, read_input, read_move,
    read_moves, read_reply, replay_check, write_move, write_reply,
};
use tc_verdict::{UserVerdict, Verdict};

/// Plays a call of run 0. `would` gives the same reply before.
fn plays(rt: &impl Abort, table: &mut Table, op: Op, wanted: Reply) -> Result<(), NoMemory> {
    is(rt, "would", table.would(Run(0), &op), wanted);
    is(rt, "play", table.play(Run(0), op)?, wanted);
    Ok(())
}

/// The word of each phase.
fn word_of_phase(phase: Phase) -> &'static str {
    match phase {
        Phase::Inactive => "inactive",
        Phase::Running(Run(_)) => "running",
        Phase::Stopped => "stopped",
        Phase::Killed => "killed",
    }
}

/// What the table says about its components after these calls.
fn are_known(rt: &impl Abort, table: &Table) {
    let phase = table.phase_of(Comp(1)).map(word_of_phase);
    is(rt, "phase_of", phase, Some("inactive"));
    is(rt, "phase_of no component", table.phase_of(Comp(2)), None);
    is(rt, "local", table.local(Comp(0)), Some(Verdict::Pass));
    is(rt, "overall", table.overall(), Verdict::Pass);
    is(rt, "is_over", table.is_over(), false);
    is(rt, "components", table.components(), 2);
}

/// The place of an entry whose reply differs, and the table's own reply; none if memory ran out.
fn difference(fault: CheckFault) -> Option<(usize, Reply)> {
    match fault {
        CheckFault::Differs { at, reply } => Some((at, reply)),
        CheckFault::NoMemory => None,
    }
}

/// The list is legal. With another last reply it is not, and the table's own reply is named.
fn is_checked(rt: &impl Abort, alloc: Global, history: &[Entry]) {
    let legal = replay_check(alloc, 1, history);
    is(rt, "replay_check", legal, Ok(Verdict::Pass));
    let Some(last) = history.last() else {
        return;
    };
    holds(rt, "copy of an entry", last.copy() == *last);
    let other = Entry {
        caller: last.caller,
        op: last.op.copy(),
        reply: Reply::Ended,
    };
    let fault = replay_check(alloc, 1, &[other]).err();
    let place = fault.and_then(difference);
    is(rt, "another reply", place, Some((0, Reply::Ok)));
}

#[test]
fn a_table_plays_calls(rt: HostRuntime) -> Result<(), Fail> {
    let mut table = Table::new(rt.alloc(), 1)?;
    table.make_room(2)?;
    holds(&rt, "room", 2 <= table.room());
    let create = Op::Create {
        alive: false,
        name: None,
    };
    plays(&rt, &mut table, create, Reply::Made(Comp(1)))?;
    let set = Op::SetVerdict(UserVerdict::Pass);
    plays(&rt, &mut table, set, Reply::Ok)?;
    is(&rt, "history", table.history().len(), 2);
    are_known(&rt, &table);
    is_checked(&rt, rt.alloc(), table.history());
    Ok(())
}

/// A move of each operation.
const MOVES: &str = "\
0 create alive named pump
0 start 1 1 0
0 stop 1
0 kill all
0 stopcase
0 running any
0 alive all
0 done 1
0 killed 1
0 wait done 1
0 wake killed any
0 setverdict inconc
0 getverdict
0 finish";

/// The word of each operation.
fn word_of(op: &Op) -> &'static str {
    match op {
        Op::Create { alive: _, name: _ } => "create",
        Op::Start {
            comp: Comp(_),
            run: Run(_),
            args: _,
        } => "start",
        Op::Stop(Group::One(_) | Group::All) => "stop",
        Op::Kill(_) => "kill",
        Op::StopCase => "stopcase",
        Op::Running(Target::One(_) | Target::Any | Target::All) => "running",
        Op::Alive(_) => "alive",
        Op::Done(_) => "done",
        Op::Killed(_) => "killed",
        Op::Wait {
            killed: _,
            target: _,
        } => "wait",
        Op::Wake {
            killed: _,
            target: _,
        } => "wake",
        Op::SetVerdict(_) => "setverdict",
        Op::GetVerdict => "getverdict",
        Op::Finish => "finish",
    }
}

/// A move that is read, copied, and written back.
fn is_move(rt: &impl Abort, alloc: Global, text: &str) -> Result<(), Fail> {
    let (caller, op) = read_move(text.as_bytes()).ok_or("a move")?;
    holds(rt, text, op.copy() == op);
    is(rt, text, text.split(' ').nth(1), Some(word_of(&op)));
    let mut out = Vec::new(alloc);
    write_move(&mut out, caller, &op)?;
    is(rt, text, out.as_slice(), text.as_bytes());
    Ok(())
}

#[test]
fn moves_are_read_and_written(rt: HostRuntime) -> Result<(), Fail> {
    for text in MOVES.lines() {
        is_move(&rt, rt.alloc(), text)?;
    }
    Ok(())
}

/// A reply of each kind, and of each dynamic error.
const REPLIES: &str = "\
made 7
ok
true
fail
matched
parked
ended
error no-component
error not-main
error start-main
error already-running
error not-startable
error no-behaviour
error too-many
error stuck";

fn word_of_fault(fault: Fault) -> &'static str {
    match fault {
        Fault::NoComponent => "error no-component",
        Fault::NotMain => "error not-main",
        Fault::StartMain => "error start-main",
        Fault::AlreadyRunning => "error already-running",
        Fault::NotStartable => "error not-startable",
        Fault::NoBehaviour => "error no-behaviour",
        Fault::TooMany => "error too-many",
        Fault::Stuck => "error stuck",
    }
}

fn word_of_reply(reply: Reply) -> &'static str {
    match reply {
        Reply::Made(Comp(_)) => "made 7",
        Reply::Ok => "ok",
        Reply::Answer(_) => "true",
        Reply::Local(_) => "fail",
        Reply::Matched => "matched",
        Reply::Parked => "parked",
        Reply::Ended => "ended",
        Reply::Fault(fault) => word_of_fault(fault),
    }
}

/// A reply that is read, copied, and written back.
fn is_reply(rt: &impl Abort, alloc: Global, text: &str) -> Result<(), Fail> {
    let reply = read_reply(text.as_bytes()).ok_or("a reply")?;
    is(rt, text, reply.copy(), reply);
    is(rt, text, word_of_reply(reply), text);
    let mut out = Vec::new(alloc);
    write_reply(&mut out, &reply)?;
    is(rt, text, out.as_slice(), text.as_bytes());
    Ok(())
}

#[test]
fn replies_are_read_and_written(rt: HostRuntime) -> Result<(), Fail> {
    for text in REPLIES.lines() {
        is_reply(&rt, rt.alloc(), text)?;
    }
    Ok(())
}

#[test]
fn arguments_are_four_at_most(rt: HostRuntime) {
    let mut args = Args::new();
    for number in 1..5u32 {
        is(&rt, "push", args.push(Comp(number)), true);
    }
    is(&rt, "push of a fifth", args.push(Comp(5)), false);
    let four = [Comp(1), Comp(2), Comp(3), Comp(4)];
    is(&rt, "as_slice", args.as_slice(), four.as_slice());
    holds(&rt, "copy", args.copy() == args);
}

#[test]
fn names_are_read(rt: HostRuntime) -> Result<(), Fail> {
    let name = Name::read("t_1").ok_or("a name")?;
    is(&rt, "bytes", name.bytes(), b"t_1".as_slice());
    holds(&rt, "copy", name.copy() == name);
    holds(&rt, "mtc", Name::read("mtc").is_none());
    let mut names = HashSet::new(rt.alloc());
    names.insert(name.copy())?;
    holds(&rt, "a name has a hash", names.contains(&name));
    Ok(())
}

/// The law of components' names is the contract of a call that does nothing.
#[test]
fn numbers_are_copied(rt: HostRuntime) {
    names_say_nothing();
    is(&rt, "copy of a component", Comp(7).copy(), Comp(7));
    is(&rt, "copy of a run", Run(7).copy(), Run(7));
}

/// The line and the words of a fault of a text; none if memory ran out.
fn told(fault: TextFault) -> Option<(usize, &'static str)> {
    let TextFault::At { line, kind } = fault else {
        return None;
    };
    let words = match kind {
        TextKind::FirstLine => "bad first line",
        TextKind::Move => "bad move",
        TextKind::Entry => "bad entry",
        TextKind::Early => "text ends too early",
    };
    Some((line, words))
}

fn refusal_of_moves(alloc: Global, text: &str) -> Option<(usize, &'static str)> {
    read_moves(alloc, text.as_bytes()).err().and_then(told)
}

fn refusal_of_history(alloc: Global, text: &str) -> Option<(usize, &'static str)> {
    read_history(alloc, text.as_bytes()).err().and_then(told)
}

#[test]
fn lists_of_moves_are_read(rt: HostRuntime) -> Result<(), Fail> {
    let read = read_moves(rt.alloc(), b"behaviours 2\n0 create\n1 finish\n")?;
    let MoveList { behaviours, moves } = read;
    is(&rt, "behaviours", behaviours, 2);
    is(&rt, "moves", moves.as_slice().len(), 2);
    let bad = refusal_of_moves(rt.alloc(), "behaviours 1\n0 fly\n");
    is(&rt, "a bad move", bad, Some((2, "bad move")));
    Ok(())
}

fn is_block(rt: &impl Abort, block: &Block) {
    is(rt, "format", block.format, 2);
    is(rt, "name", block.name.bytes(), b"t".as_slice());
    is(rt, "behaviours", block.behaviours, 1);
    is(rt, "first_line", block.first_line, 1);
    is(rt, "entries", block.entries.as_slice().len(), 1);
    is(rt, "verdict", block.verdict, Verdict::Pass);
}

#[test]
fn histories_are_read(rt: HostRuntime) -> Result<(), Fail> {
    let text = b"history 2 t 1\n0 setverdict pass -> ok\nend pass\n";
    let blocks = read_history(rt.alloc(), text)?;
    is_block(&rt, blocks.first().ok_or("a block")?);
    let first = refusal_of_history(rt.alloc(), "history 3 t 1\n");
    is(&rt, "a bad first line", first, Some((1, "bad first line")));
    let early = refusal_of_history(rt.alloc(), "");
    is(&rt, "no text", early, Some((1, "text ends too early")));
    let entry = refusal_of_history(rt.alloc(), "history 1 t 1\n0 create\n");
    is(&rt, "a bad entry", entry, Some((2, "bad entry")));
    Ok(())
}

/// The words of each refusal of an input.
fn words_of_input(fault: InputFault) -> &'static str {
    match fault {
        InputFault::TooLong => "input too long",
        InputFault::Read => "read fault",
        InputFault::NoMemory => "no memory",
    }
}

#[test]
fn inputs_have_a_limit(rt: HostRuntime) -> Result<(), Fail> {
    let mut reader = b"abc".as_slice();
    let all = read_input(rt.alloc(), &mut reader, 3)?;
    is(&rt, "three bytes", all.as_slice(), b"abc".as_slice());
    let mut reader = b"abcd".as_slice();
    let fault = read_input(rt.alloc(), &mut reader, 3).err();
    let words = fault.map(words_of_input);
    is(&rt, "a fourth byte", words, Some("input too long"));
    Ok(())
}

//! The calls of the tests, as rows of a move and the reply to it: a test looks at what they answer, and its proof carries nothing
//! of what the book promises.
use crate::checks::{got, holds, is};
use std::alloc::Global;
use std::process::Abort;
use std::sync::Wait;
use tc_book::{CloseFault, Closed, Halt, Left, Pass, Shared, Ticket, close_case, open_case};
use tc_rules::{Comp, Fault, Name, Op, Reply, Target, Verdict};
use tc_text::{read_move, read_reply};

/// Opens a case of 1 to 256 behaviours.
pub(crate) fn open(alloc: Global, behaviours: u16) -> Result<(Shared, Pass, Vec<Ticket>), Halt> {
    if behaviours < 1 || 256 < behaviours {
        return Err(Halt::Fault(Fault::NoBehaviour));
    }
    match open_case(alloc, behaviours) {
        Ok(opened) => Ok(opened),
        Err(_) => Err(Halt::NoMemory),
    }
}

/// The pass of a run, or what it leaves if it was never started.
pub(crate) fn await_start<R: Wait>(rt: &R, ticket: Ticket) -> Result<Pass, Left> {
    ticket.await_start(rt)
}

/// The ticket at this place, which is taken out.
pub(crate) fn take<R: Abort>(rt: &R, tickets: &mut Vec<Ticket>, place: usize) -> Ticket {
    assert!(rt; place < tickets.len());
    tickets.remove(place)
}

/// The pass of the run whose ticket is at this place.
pub(crate) fn enter_at<R: Abort + Wait>(rt: &R, tickets: &mut Vec<Ticket>, place: usize) -> Pass {
    match await_start(rt, take(rt, tickets, place)) {
        Ok(pass) => pass,
        Err(_) => panic!(rt; "the run was never started"),
    }
}

/// The pass of the run whose ticket is the first.
pub(crate) fn enter<R: Abort + Wait>(rt: &R, tickets: &mut Vec<Ticket>) -> Pass {
    enter_at(rt, tickets, 0)
}

/// What the run leaves whose ticket is the first, after these calls.
pub(crate) fn left_behind<R: Abort + Wait>(rt: &R, tickets: &mut Vec<Ticket>, rows: &str) -> Left {
    let mut pass = enter(rt, tickets);
    calls(rt, &mut pass, rows);
    leave(rt, pass)
}

/// What the run leaves whose ticket is the first, which was never started.
pub(crate) fn unstarted<R: Abort + Wait>(rt: &R, tickets: &mut Vec<Ticket>) -> Left {
    match await_start(rt, take(rt, tickets, 0)) {
        Ok(_) => panic!(rt; "the run was never started"),
        Err(left) => left,
    }
}

/// The reply of a call that was not answered by its value; none if memory ran out.
fn halted(halt: Halt) -> Option<Reply> {
    match halt {
        Halt::Ended => Some(Reply::Ended),
        Halt::Fault(fault) => Some(Reply::Fault(fault)),
        Halt::NoMemory => None,
    }
}

fn made(answer: Result<Comp, Halt>) -> Option<Reply> {
    match answer {
        Ok(comp) => Some(Reply::Made(comp)),
        Err(halt) => halted(halt),
    }
}

fn told(answer: Result<bool, Halt>) -> Option<Reply> {
    match answer {
        Ok(holds) => Some(Reply::Answer(holds)),
        Err(halt) => halted(halt),
    }
}

fn found(answer: Result<Verdict, Halt>) -> Option<Reply> {
    match answer {
        Ok(verdict) => Some(Reply::Local(verdict)),
        Err(halt) => halted(halt),
    }
}

fn replied(answer: Result<(), Halt>, reply: Reply) -> Option<Reply> {
    match answer {
        Ok(()) => Some(reply),
        Err(halt) => halted(halt),
    }
}

fn create<R: Wait>(rt: &R, pass: &mut Pass, alive: bool, name: &Option<Name>) -> Option<Reply> {
    match name {
        Some(name) => made(pass.create_named(rt, alive, name.copy())),
        None => made(pass.create(rt, alive)),
    }
}

/// A wait until this is done, or killed.
fn wait<R: Wait>(rt: &R, pass: &mut Pass, killed: bool, target: Target) -> Option<Reply> {
    if killed {
        replied(pass.wait_killed(rt, target), Reply::Matched)
    } else {
        replied(pass.wait_done(rt, target), Reply::Matched)
    }
}

/// The reply to a call that asks, or sets or gets the verdict.
fn ask<R: Wait>(rt: &R, pass: &mut Pass, op: &Op) -> Option<Reply> {
    match op {
        Op::Running(target) => told(pass.running(rt, *target)),
        Op::Alive(target) => told(pass.alive(rt, *target)),
        Op::Done(target) => told(pass.done(rt, *target)),
        Op::Killed(target) => told(pass.killed(rt, *target)),
        Op::SetVerdict(verdict) => replied(pass.set_verdict(*verdict), Reply::Ok),
        Op::GetVerdict => found(pass.get_verdict()),
        _ => None,
    }
}

/// The reply to a call.
pub(crate) fn call<R: Wait>(rt: &R, pass: &mut Pass, op: &Op) -> Option<Reply> {
    match op {
        Op::Create { alive, name } => create(rt, pass, *alive, name),
        Op::Start { comp, run, args } => replied(pass.start(rt, *comp, *run, args), Reply::Ok),
        Op::Stop(group) => replied(pass.stop(rt, *group), Reply::Ok),
        Op::Kill(group) => replied(pass.kill(rt, *group), Reply::Ok),
        Op::StopCase => replied(pass.stop_case(rt), Reply::Ok),
        Op::Wait { killed, target } => wait(rt, pass, *killed, *target),
        op => ask(rt, pass, op),
    }
}

/// Makes the call that a move spells, and says what is replied to it.
pub(crate) fn reply_to<R: Abort + Wait>(rt: &R, pass: &mut Pass, text: &str) -> Option<Reply> {
    match read_move(text.as_bytes()) {
        Some((_, op)) => call(rt, pass, &op),
        None => panic!(rt; "{text}"),
    }
}

/// Makes the call of a row, which is replied to as the row says.
fn call_row<R: Abort + Wait>(rt: &R, pass: &mut Pass, row: &str) {
    match row.split_once(" => ") {
        Some((text, reply)) => {
            let wanted = read_reply(reply.as_bytes());
            is(rt, row, reply_to(rt, pass, text), wanted);
        }
        None => holds(rt, row, false),
    }
}

/// Makes the calls of these rows.
pub(crate) fn calls<R: Abort + Wait>(rt: &R, pass: &mut Pass, rows: &str) {
    for row in rows.lines() {
        call_row(rt, pass, row);
    }
}

/// Makes the calls of these rows, those of run 0 on the first pass, and others on the other one.
pub(crate) fn calls_of_two<R: Abort + Wait>(rt: &R, main: &mut Pass, other: &mut Pass, rows: &str) {
    for row in rows.lines() {
        if row.starts_with("0 ") {
            call_row(rt, main, row);
        } else {
            call_row(rt, other, row);
        }
    }
}

pub(crate) fn is_ended(pass: &Pass) -> bool {
    pass.is_ended()
}

pub(crate) fn leave<R: Wait>(rt: &R, pass: Pass) -> Left {
    pass.leave(rt)
}

pub(crate) fn close<R: Wait>(
    rt: &R,
    alloc: Global,
    shared: Shared,
    lefts: Vec<Left>,
) -> Result<Closed, CloseFault> {
    close_case(rt, alloc, shared, lefts)
}

/// Closes a case by what its one run left.
pub(crate) fn close_of_one<R: Abort + Wait>(
    rt: &R,
    alloc: Global,
    shared: Shared,
    left: Left,
) -> Result<Closed, CloseFault> {
    let lefts = got(rt, vec![in alloc; left]);
    close(rt, alloc, shared, lefts)
}

/// Closes a case by what its two runs left.
pub(crate) fn close_of_two<R: Abort + Wait>(
    rt: &R,
    alloc: Global,
    shared: Shared,
    first: Left,
    second: Left,
) -> Result<Closed, CloseFault> {
    let lefts = got(rt, vec![in alloc; first, second]);
    close(rt, alloc, shared, lefts)
}

//! What no clause says: each dynamic error is replied to a pass, calls at their limits are not refused memory, and a run that has left
//! keeps no place.
use crate::calls::{
    await_start, calls, close, enter, enter_at, leave, left_behind, open, unstarted,
};
use crate::checks::{at_least, got, holds, is};
use crate::jobs::{Behaviour, number, report_of, shared_with, start_others, zero};
use std::alloc::{AllocError, Global};
use std::process::Abort;
use std::sync::Wait;
use std::sync::atomic::{AtomicU64, Ordering};
use std::thread;
use std::time::{Clock, Duration};
use tc_book::{Closed, Halt, Left, Pass, Shared, Ticket};
use tc_exec::{Back, Job};
use tc_rules::{Comp, Entry, Op, Reply, Run, Target, Verdict, replay_check};

/// Of a case of three behaviours each: the calls of the main run, and those of run 1. The last call is the error.
const ERRORS: [(&str, &str); 8] = [
    ("0 running 7 => error no-component", ""),
    (
        "0 create => made 1\n0 start 1 1 => ok",
        "1 done any => error not-main",
    ),
    ("0 start 0 1 => error start-main", ""),
    (
        "0 create => made 1\n0 start 1 1 => ok\n0 start 1 2 => error already-running",
        "",
    ),
    (
        "0 create => made 1\n0 kill 1 => ok\n0 start 1 1 => error not-startable",
        "",
    ),
    ("0 create => made 1\n0 start 1 0 => error no-behaviour", ""),
    ("0 create => made 1\n0 start 1 3 => error no-behaviour", ""),
    ("0 create => made 1\n0 wait done 1 => error stuck", ""),
];

/// What a run leaves, whether it was started or not.
fn left_of<R: Wait>(rt: &R, ticket: Ticket) -> Left {
    match await_start(rt, ticket) {
        Ok(pass) => leave(rt, pass),
        Err(left) => left,
    }
}

/// Closes a case by what some runs left, and by what those of these tickets leave.
fn close_all<R: Abort + Wait>(
    rt: &R,
    alloc: Global,
    shared: Shared,
    lefts: Vec<Left>,
    tickets: Vec<Ticket>,
) -> Closed {
    let mut lefts = lefts;
    for ticket in tickets {
        got(rt, lefts.push(left_of(rt, ticket)));
    }
    got(rt, close(rt, alloc, shared, lefts))
}

/// One case with an error; after it the main run is replied Ended, and the case is closed with the verdict error.
fn is_error<R: Abort + Wait>(rt: &R, alloc: Global, main_rows: &str, other_rows: &str) {
    let (shared, main, tickets) = got(rt, open(alloc, 3));
    let (mut main, mut tickets) = (main, tickets);
    let mut lefts = Vec::new(alloc);
    calls(rt, &mut main, main_rows);
    if !other_rows.is_empty() {
        got(rt, lefts.push(left_behind(rt, &mut tickets, other_rows)));
    }
    calls(rt, &mut main, "0 running 0 => ended\n0 stopcase => ended");
    got(rt, lefts.push(leave(rt, main)));
    let closed = close_all(rt, alloc, shared, lefts, tickets);
    is(rt, main_rows, closed.verdict, Verdict::Error);
}

#[test]
fn each_dynamic_error_is_replied_to_a_pass(rt: HostRuntime) {
    for (main_rows, other_rows) in ERRORS {
        is_error(&rt, rt.alloc(), main_rows, other_rows);
    }
}

/// Names of one letter and of 32, and a component without a name.
const NAMES: &str = "\
0 create named a => made 1
0 create alive named abcdefghijklmnopqrstuvwxyzABCDEF => made 2
0 create => made 3";

/// Starts with none to four arguments, the last of them on the last component; and one component too many.
const STARTS: &str = "\
0 start 1 1 => ok
0 start 2 2 1 => ok
0 start 3 3 1 2 => ok
0 start 4 4 1 2 3 => ok
0 start 999 5 3 999 1 2 => ok
0 create => error too-many";

/// Makes alive-type components up to number 999.
fn make_all<R: Abort + Wait>(rt: &R, main: &mut Pass) {
    for number in 4..1_000u32 {
        is(rt, "component", main.create(rt, true), Ok(Comp(number)));
    }
}

/// The last run is on the last component, and has its four arguments in their order.
fn is_last(rt: &impl Abort, last: &Pass) {
    is(rt, "its component", last.me(), Comp(999));
    let args = [Comp(3), Comp(999), Comp(1), Comp(2)];
    is(rt, "its arguments", last.args(), args.as_slice());
}

#[test]
fn as_many_as_there_may_be(rt: HostRuntime) {
    let (shared, main, tickets) = got(&rt, open(rt.alloc(), 6));
    let (mut main, mut tickets) = (main, tickets);
    calls(&rt, &mut main, NAMES);
    make_all(&rt, &mut main);
    calls(&rt, &mut main, STARTS);
    let last = enter_at(&rt, &mut tickets, 4);
    is_last(&rt, &last);
    let lefts = got(&rt, vec![in rt.alloc(); leave(&rt, main), leave(&rt, last)]);
    let closed = close_all(&rt, rt.alloc(), shared, lefts, tickets);
    is(&rt, "overall verdict", closed.verdict, Verdict::Error);
    is(&rt, "logs", closed.logs.as_slice().len(), 6);
}

/// Waits until component 1 is done. Its run ends half a second after all others have come to their waits, so that they are parked.
fn wait_for_one<R: Wait + Clock>(rt: &R, pass: &mut Pass, come: &AtomicU64) -> Result<(), Halt> {
    if pass.me() != Comp(1) {
        come.fetch_add(1, Ordering::SeqCst);
        return pass.wait_done(rt, Target::One(Comp(1)));
    }
    for _ in 0..60_000u32 {
        if number(come) == 255 {
            break;
        }
        thread::sleep(rt, Duration::from_millis(1));
    }
    thread::sleep(rt, Duration::from_millis(500));
    Ok(())
}

/// A behaviour that waits for component 1; the main one starts all others before.
fn waits_for_one<R: Wait + Clock>(rt: &R, pass: Pass, others: u16, come: &AtomicU64) -> Back {
    let mut pass = pass;
    let made = match start_others(rt, &mut pass, others) {
        Ok(()) => wait_for_one(rt, &mut pass, come),
        Err(halt) => Err(halt),
    };
    Back::after(pass, made)
}

fn is_parked(entry: &Entry) -> bool {
    matches!(entry.reply, Reply::Parked)
}

#[test]
fn all_runs_but_one_are_parked(rt: HostRuntime) -> Result<(), AllocError> {
    let come = zero(&rt, rt.alloc());
    let mut jobs = Vec::new(rt.alloc());
    for run in 0..256u16 {
        let others = if run == 0 { 256 } else { 0 };
        let own = shared_with(&rt, &come);
        let job: Behaviour = Box::new(rt.alloc(), move |pass: Pass| {
            waits_for_one(&rt, pass, others, &own)
        })?;
        got(&rt, jobs.push(Job::new(job)));
    }
    let report = got(&rt, report_of(&rt, rt.alloc(), jobs, 255));
    let history = report.history.as_slice();
    let parked = history.iter().filter(|entry| is_parked(entry)).count();
    at_least(&rt, "parked waits", parked as u64, 200);
    is(&rt, "logs", report.logs.as_slice().len(), 256);
    Ok(())
}

/// A history of that many questions for the verdict, and the end of the main behaviour.
fn long_history<R: Abort>(rt: &R, alloc: Global, questions: u32) -> Vec<Entry> {
    let mut history = Vec::new(alloc);
    for _ in 0..questions {
        let entry = Entry {
            caller: Run(0),
            op: Op::GetVerdict,
            reply: Reply::Local(Verdict::None),
        };
        got(rt, history.push(entry));
    }
    let end = Entry {
        caller: Run(0),
        op: Op::Finish,
        reply: Reply::Ok,
    };
    got(rt, history.push(end));
    history
}

#[test]
fn a_long_history_is_played(rt: HostRuntime) {
    let history = long_history(&rt, rt.alloc(), 199_999);
    match replay_check(rt.alloc(), 1, history.as_slice()) {
        Ok(verdict) => is(&rt, "verdict", verdict, Verdict::None),
        Err(_) => holds(&rt, "a legal history", false),
    }
}

fn has_place<R: Wait>(rt: &R, shared: &Shared, run: u16) -> bool {
    shared.look(rt).has_place(Run(run))
}

/// Which of the runs 0 to 4 have a place.
fn places<R: Wait>(rt: &R, shared: &Shared) -> [bool; 5] {
    [
        has_place(rt, shared, 0),
        has_place(rt, shared, 1),
        has_place(rt, shared, 2),
        has_place(rt, shared, 3),
        has_place(rt, shared, 4),
    ]
}

/// Run 0 leaves with a Finish, run 1 after it was stopped, run 2 was never started; there is no run 4.
#[test]
fn places_are_given_up(rt: HostRuntime) {
    let (shared, pass, tickets) = got(&rt, open(rt.alloc(), 4));
    let (mut pass, mut tickets) = (pass, tickets);
    calls(
        &rt,
        &mut pass,
        "0 create alive => made 1\n0 start 1 1 => ok",
    );
    let mut started = enter(&rt, &mut tickets);
    calls(&rt, &mut started, "1 stop 1 => ok\n1 running 1 => ended");
    leave(&rt, started);
    leave(&rt, pass);
    unstarted(&rt, &mut tickets);
    let last = [false, false, false, true, false];
    is(&rt, "places but of the last", places(&rt, &shared), last);
    unstarted(&rt, &mut tickets);
    is(&rt, "places of none", places(&rt, &shared), [false; 5]);
}

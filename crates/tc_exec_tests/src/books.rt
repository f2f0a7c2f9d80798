//! Books, passes and closes, on one thread and on two.
use crate::calls::*;
use crate::checks::{got, holds, is};
use std::alloc::Global;
use std::process::Abort;
use std::sync::Wait;
use std::thread;
use std::thread::{JoinHandle, Threads};
use tc_book::*;
use tc_rules::{Comp, Entry, Op, Reply, Run, UserVerdict, Verdict, replay_check};
use tc_text::read_move;

/// A closed case has that many entries and this overall verdict.
fn is_told(rt: &impl Abort, closed: &Closed, entries: usize, verdict: Verdict) {
    let history = closed.history.as_slice();
    is(rt, "entries of the history", history.len(), entries);
    is(rt, "overall verdict", closed.verdict, verdict);
}

/// The two runs of a closed case have these local verdicts.
fn are_locals(rt: &impl Abort, closed: &Closed, locals: [Verdict; 2]) {
    is(rt, "locals", closed.locals.as_slice(), locals.as_slice());
}

/// How a case is refused that is closed by what the run of another case left.
fn closed_by_another<R: Abort + Wait>(rt: &R, alloc: Global) -> Option<CloseFault> {
    let (first, first_pass, _) = got(rt, open(alloc, 1));
    let (_, second_pass, _) = got(rt, open(alloc, 1));
    let mut second_pass = second_pass;
    calls(rt, &mut second_pass, "0 create => made 1");
    leave(rt, first_pass);
    let left = leave(rt, second_pass);
    close_of_one(rt, alloc, first, left).err()
}

/// How a case is refused whose run has set a verdict, and that is closed by what the run of another case left.
fn closed_without_its_setting<R: Abort + Wait>(rt: &R, alloc: Global) -> Option<CloseFault> {
    let (first, first_pass, _) = got(rt, open(alloc, 1));
    let (_, second_pass, _) = got(rt, open(alloc, 1));
    let mut first_pass = first_pass;
    calls(rt, &mut first_pass, "0 setverdict fail => ok");
    leave(rt, first_pass);
    let left = leave(rt, second_pass);
    close_of_one(rt, alloc, first, left).err()
}

/// How a case of two behaviours is refused that is closed by what one of them left.
fn closed_by_one_of_two<R: Abort + Wait>(rt: &R, alloc: Global) -> Option<CloseFault> {
    let (shared, pass, _) = got(rt, open(alloc, 2));
    let left = leave(rt, pass);
    close_of_one(rt, alloc, shared, left).err()
}

/// A case of two behaviours, closed by what both left, of which the second was never started.
fn closed_by_both<R: Abort + Wait>(rt: &R, alloc: Global) -> Closed {
    let (shared, pass, tickets) = got(rt, open(alloc, 2));
    let mut tickets = tickets;
    let first = leave(rt, pass);
    let second = unstarted(rt, &mut tickets);
    holds(rt, "never started", second.started().is_none());
    got(rt, close_of_two(rt, alloc, shared, first, second))
}

/// A case of three behaviours: run 1 makes this call and leaves, then run 2 on the same component; and what each of them left.
fn one_after_the_other<R: Abort + Wait>(
    rt: &R,
    alloc: Global,
    first: &str,
    second: &str,
) -> (Shared, Left, Left, Left) {
    let (shared, pass, tickets) = got(rt, open(alloc, 3));
    let (mut main, mut tickets) = (pass, tickets);
    calls(rt, &mut main, "0 create alive => made 1");
    calls(rt, &mut main, "0 start 1 1 => ok");
    let one = left_behind(rt, &mut tickets, first);
    calls(rt, &mut main, "0 start 1 2 => ok");
    let other = left_behind(rt, &mut tickets, second);
    (shared, leave(rt, main), one, other)
}

/// How a case is refused that is closed by what its first two runs left, and by what the third run of another case
/// left: it got the verdict that its component had there.
fn closed_by_another_reply<R: Abort + Wait>(rt: &R, alloc: Global) -> Option<CloseFault> {
    let (_, _, _, told) = one_after_the_other(
        rt,
        alloc,
        "1 setverdict fail => ok",
        "2 getverdict => fail",
    );
    let (shared, main, one, _) = one_after_the_other(
        rt,
        alloc,
        "1 setverdict none => ok",
        "2 getverdict => none",
    );
    let lefts = got(rt, vec![in alloc; main, one, told]);
    close(rt, alloc, shared, lefts).err()
}

#[test]
fn torn_closes(rt: HostRuntime) {
    let torn = Some(CloseFault::Torn);
    let another = closed_by_another(&rt, rt.alloc());
    is(&rt, "what another left", another, torn);
    let unset = closed_without_its_setting(&rt, rt.alloc());
    is(&rt, "a log without a setting", unset, torn);
    let one = closed_by_one_of_two(&rt, rt.alloc());
    is(&rt, "what one of two left", one, torn);
    let told = closed_by_another_reply(&rt, rt.alloc());
    is(&rt, "a reply that differs", told, torn);
    let closed = closed_by_both(&rt, rt.alloc());
    is_told(&rt, &closed, 1, Verdict::None);
    is(&rt, "logs", closed.logs.as_slice().len(), 1);
}

/// Whether the last of four entries is a wait that was answered at once.
fn ends_in_a_wait(log: &[Entry]) -> bool {
    match log {
        [_, _, _, last] => matches!(
            last,
            Entry {
                op: Op::Wait { .. },
                reply: Reply::Matched,
                ..
            }
        ),
        _ => false,
    }
}

const QUIET: &str = "\
0 create => made 1
0 done 1 => false
0 kill 1 => ok
0 wait killed 1 => matched";

#[test]
fn quiet_calls(rt: HostRuntime) {
    let (_, pass, _) = got(&rt, open(rt.alloc(), 1));
    let mut pass = pass;
    calls(&rt, &mut pass, QUIET);
    holds(&rt, "four entries, a wait last", ends_in_a_wait(pass.log()));
}

const NAMED: &str = "\
0 create named pump => made 1
0 create alive named pump => made 2
0 create => made 3";

/// Whether the entry is of the move of a row.
fn is_of_row(entry: &Entry, row: &str) -> bool {
    let Some((text, _)) = row.split_once(" => ") else {
        return false;
    };
    match read_move(text.as_bytes()) {
        Some((_, op)) => entry.op.same(&op),
        None => false,
    }
}

/// A history begins with the moves of these rows.
fn are_of_rows(rt: &impl Abort, history: &[Entry], rows: &str) {
    for (entry, row) in history.iter().zip(rows.lines()) {
        holds(rt, row, is_of_row(entry, row));
    }
}

/// Names are in the report; two components may have the same, and none is an error.
#[test]
fn components_with_names(rt: HostRuntime) {
    let (shared, pass, _) = got(&rt, open(rt.alloc(), 1));
    let mut pass = pass;
    calls(&rt, &mut pass, NAMED);
    let left = leave(&rt, pass);
    let closed = got(&rt, close_of_one(&rt, rt.alloc(), shared, left));
    are_of_rows(&rt, closed.history.as_slice(), NAMED);
    is_told(&rt, &closed, 4, Verdict::None);
}

/// A Stop of a component that is not there ends the pass.
fn stop_nobody<R: Abort + Wait>(rt: &R, pass: &mut Pass) {
    calls(rt, pass, "0 stop 7 => error no-component");
    is(rt, "entries", pass.log().len(), 1);
    is(rt, "ended", pass.is_ended(), true);
    calls(rt, pass, "0 create => ended");
    is(rt, "entries then", pass.log().len(), 1);
}

#[test]
fn a_fault_ends_the_pass(rt: HostRuntime) {
    let (shared, pass, _) = got(&rt, open(rt.alloc(), 1));
    let mut pass = pass;
    stop_nobody(&rt, &mut pass);
    let left = leave(&rt, pass);
    let closed = got(&rt, close_of_one(&rt, rt.alloc(), shared, left));
    is_told(&rt, &closed, 1, Verdict::Error);
}

/// A case of two behaviours, in which run 0 has started run 1 on component 1 with component 0 as its argument.
fn case_of_two<R: Abort + Wait>(rt: &R, alloc: Global) -> (Shared, Pass, Pass) {
    let (shared, pass, tickets) = got(rt, open(alloc, 2));
    let (mut main, mut tickets) = (pass, tickets);
    calls(
        rt,
        &mut main,
        "0 create alive => made 1\n0 start 1 1 0 => ok",
    );
    let other = enter(rt, &mut tickets);
    (shared, main, other)
}

/// The calls of both runs from then on. The second is stopped, and its last call comes too late.
const BOTH: &str = "\
0 running 1 => true
0 alive 1 => true
1 setverdict inconc => ok
1 getverdict => inconc
0 stop 1 => ok
0 killed 1 => false
1 getverdict => ended
0 wait done 1 => matched";

/// The calls of both runs on one thread.
fn call_both<R: Abort + Wait>(rt: &R, main: &mut Pass, other: &mut Pass) {
    is(rt, "the second's component", other.me(), Comp(1));
    is(rt, "its arguments", other.args(), [Comp(0)].as_slice());
    calls_of_two(rt, main, other, BOTH);
    is(rt, "ended", other.is_ended(), true);
}

/// Whether run 1 has left, and was started on component 1 with component 0 as its argument.
fn is_left(left: &Left) -> bool {
    let Some((comp, args)) = left.started() else {
        return false;
    };
    left.run() == Run(1) && comp == Comp(1) && args == [Comp(0)].as_slice()
}

#[test]
fn book_on_one_thread(rt: HostRuntime) {
    let (shared, main, other) = case_of_two(&rt, rt.alloc());
    let (mut main, mut other) = (main, other);
    call_both(&rt, &mut main, &mut other);
    let (main, other) = (leave(&rt, main), leave(&rt, other));
    holds(&rt, "what run 1 left", is_left(&other));
    let closed = got(&rt, close_of_two(&rt, rt.alloc(), shared, main, other));
    is_told(&rt, &closed, 11, Verdict::Inconc);
    are_locals(&rt, &closed, [Verdict::None, Verdict::Inconc]);
}

/// The behaviour of run 1: it sets pass.
fn sets_pass<R: Wait>(rt: &R, ticket: Ticket) -> Left {
    match await_start(rt, ticket) {
        Ok(mut pass) => {
            // The close shows whether it was set.
            let _ = pass.set_verdict(UserVerdict::Pass);
            leave(rt, pass)
        }
        Err(left) => left,
    }
}

/// A thread for the run of a ticket, which sets pass.
fn worker<R: Abort + Threads + Wait + Copy + Send + 'static>(
    rt: &R,
    ticket: Ticket,
) -> JoinHandle<Left> {
    let rt = *rt;
    got(&rt, thread::spawn(&rt, move || sets_pass(&rt, ticket)))
}

/// The calls of run 0.
const MAIN: &str = "\
0 create => made 1
0 start 1 1 => ok
0 wait done 1 => matched";

/// The report of a case whose history is legal.
fn is_replayed(rt: &impl Abort, alloc: Global, closed: &Closed) {
    let replayed = replay_check(alloc, 2, closed.history.as_slice());
    is(rt, "replayed", replayed.ok(), Some(Verdict::Pass));
    are_locals(rt, closed, [Verdict::None, Verdict::Pass]);
}

#[test]
fn book_on_two_threads(rt: HostRuntime) {
    let (shared, pass, tickets) = got(&rt, open(rt.alloc(), 2));
    let (mut pass, mut tickets) = (pass, tickets);
    let worker = worker(&rt, take(&rt, &mut tickets, 0));
    calls(&rt, &mut pass, MAIN);
    let (first, second) = (leave(&rt, pass), worker.join(&rt));
    let closed = got(&rt, close_of_two(&rt, rt.alloc(), shared, first, second));
    is_replayed(&rt, rt.alloc(), &closed);
}

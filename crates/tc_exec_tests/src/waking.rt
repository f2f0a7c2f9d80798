//! A thread that waits is woken after each kind of entry by which it can continue, and does not spin.
use crate::calls::{await_start, calls, enter, leave, open, reply_to, take};
use crate::checks::{at_least, got, holds, is};
use crate::hostile;
use crate::jobs::{Behaviour, report_of_two};
use std::alloc::{AllocError, Global};
use std::process::Abort;
use std::sync::atomic::{AtomicBool, Ordering};
use std::sync::{Arc, Wait};
use std::thread;
use std::thread::{JoinHandle, Threads};
use std::time::{Clock, CpuClock, Duration};
use tc_book::{Halt, Left, Pass, Shared, Ticket};
use tc_exec::{Back, Job};
use tc_rules::{Args, Comp, Entry, Fault, Group, Op, Reply, Run, Target};
use tc_text::read_reply;

/// A flag that is not set yet.
fn unset<R: Abort>(rt: &R, alloc: Global) -> Arc<AtomicBool> {
    got(rt, Arc::new(alloc, AtomicBool::new(false)))
}

/// The same flag for another thread.
fn shared_with<R: Abort>(rt: &R, flag: &Arc<AtomicBool>) -> Arc<AtomicBool> {
    got(rt, Arc::try_clone(flag))
}

fn is_set(flag: &AtomicBool) -> bool {
    flag.load(Ordering::SeqCst)
}

/// Looks at a flag each millisecond for ten seconds, and says whether it was set.
fn is_set_soon<R: Clock>(rt: &R, flag: &AtomicBool) -> bool {
    for _ in 0..10_000u32 {
        if flag.load(Ordering::SeqCst) {
            return true;
        }
        thread::sleep(rt, Duration::from_millis(1));
    }
    false
}

/// Lets the other threads come to their waits, on a loaded machine too.
fn pause<R: Clock>(rt: &R) {
    thread::sleep(rt, Duration::from_millis(300));
}

fn pause_long<R: Clock>(rt: &R) {
    thread::sleep(rt, Duration::from_millis(500));
}

/// Makes the calls of these rows, whatever is replied.
fn make<R: Abort + Wait>(rt: &R, pass: &mut Pass, rows: &str) {
    for row in rows.lines() {
        // (the replies are no concern of the test)
        let _ = reply_to(rt, pass, row);
    }
}

/// What a run leaves that makes these calls once it is started.
fn left_after<R: Abort + Wait>(rt: &R, ticket: Ticket, rows: &str) -> Left {
    match await_start(rt, ticket) {
        Ok(mut pass) => {
            make(rt, &mut pass, rows);
            leave(rt, pass)
        }
        Err(left) => left,
    }
}

/// What a run has left, and the processor time that it took, if a clock shows it.
type Done = (Left, Option<Duration>);

/// Lets a run make these calls once it is started, and then sets its flag.
fn done_after<R: Abort + Wait + CpuClock>(
    rt: &R,
    ticket: Ticket,
    rows: &str,
    woken: &AtomicBool,
) -> Done {
    let before = rt.thread_cpu_time();
    let left = left_after(rt, ticket, rows);
    let after = rt.thread_cpu_time();
    woken.store(true, Ordering::SeqCst);
    match (before, after) {
        (Ok(before), Ok(after)) => (left, after.checked_sub(before)),
        _ => (left, None),
    }
}

/// A thread for a run that makes these calls once it is started, and then sets its flag.
fn spawn<R: Abort + Threads + Wait + CpuClock + Copy + Send + 'static>(
    rt: &R,
    ticket: Ticket,
    rows: &'static str,
    woken: &Arc<AtomicBool>,
) -> JoinHandle<Done> {
    let rt = *rt;
    let flag = shared_with(&rt, woken);
    let run = move || done_after(&rt, ticket, rows, &flag);
    got(&rt, thread::spawn(&rt, run))
}

/// The wait of a run until component 2 is done.
const WAIT: &str = "1 wait done 2";

/// Makes components 1 and 2.
const CREATES: &str = "\
0 create alive => made 1
0 create alive => made 2";

/// The reply by which the waiter continued.
fn woken_by(left: &Left) -> Option<Reply> {
    match left.log().get(1) {
        Some(
            Entry {
                op: Op::Wake { .. },
                reply,
                ..
            },
        ) => Some(*reply),
        _ => None,
    }
}

/// What may wake a run that waits until component 2 is done, on which run 2 runs, while the main run does not wait; and
/// the reply by which the waiter continues.
const CAUSES: &str = "\
2 finish => matched
0 stop 2 => matched
0 kill 2 => matched
0 kill all => ended
0 stop 7 => ended
2 stopcase => ended
0 finish => ended";

/// One case, in which run 1 waits on a thread until the main run or run 2 does this, and then continues by this reply.
fn is_woken<R: Abort + Threads + Wait + Clock + CpuClock + Copy + Send + 'static>(
    rt: &R,
    alloc: Global,
    cause: &str,
    reply: &str,
) {
    let (_, main, tickets) = got(rt, open(alloc, 4));
    let (mut main, mut tickets) = (main, tickets);
    let woken = unset(rt, alloc);
    let waiter = spawn(rt, take(rt, &mut tickets, 0), WAIT, &woken);
    calls(rt, &mut main, OF_THREE);
    let (mut second, mut main) = (Some(enter(rt, &mut tickets)), Some(main));
    pause(rt);
    holds(rt, "nothing has happened yet", !is_set(&woken));
    act(rt, &mut second, &mut main, cause);
    holds(rt, cause, is_set_soon(rt, &woken));
    let (waiter, _) = waiter.join(rt);
    is(rt, cause, woken_by(&waiter), read_reply(reply.as_bytes()));
}

/// One case for each of seven causes, after which nothing is called until the waiter is seen to continue.
#[test]
fn a_waiter_is_woken(rt: HostRuntime) {
    for row in CAUSES.lines() {
        match row.split_once(" => ") {
            Some((cause, reply)) => is_woken(&rt, rt.alloc(), cause, reply),
            None => holds(&rt, row, false),
        }
    }
}

/// The main run, which waits on a thread until component 1 is done.
fn spawn_main<R: Abort + Threads + Wait + Copy + Send + 'static>(
    rt: &R,
    main: Pass,
) -> JoinHandle<Result<(), Halt>> {
    let rt = *rt;
    let mut main = main;
    let wait = move || main.wait_done(&rt, Target::One(Comp(1)));
    got(&rt, thread::spawn(&rt, wait))
}

/// A wait that is parked while all others wait is a dynamic error of the main run, which wakes by it.
#[test]
fn a_stuck_main_is_woken(rt: HostRuntime) {
    let (_, main, tickets) = got(&rt, open(rt.alloc(), 2));
    let (mut main, mut tickets) = (main, tickets);
    calls(&rt, &mut main, CREATES);
    calls(&rt, &mut main, "0 start 1 1 => ok");
    let waiter = spawn_main(&rt, main);
    pause(&rt);
    let woken = unset(&rt, rt.alloc());
    let other = spawn(&rt, take(&rt, &mut tickets, 0), WAIT, &woken);
    holds(&rt, "the parked wait wakes", is_set_soon(&rt, &woken));
    let stuck = Err(Halt::Fault(Fault::Stuck));
    is(&rt, "the wait of run 0", waiter.join(&rt), stuck);
    let (other, _) = other.join(&rt);
    is(
        &rt,
        "the wait of run 1",
        woken_by(&other),
        Some(Reply::Ended),
    );
}

/// What the main run and run 1 wait for; what runs 2 and 3 do meanwhile, which wakes nobody; what they do then; and the
/// replies by which both continue. Each run is on the component of its number, which is an ordinary one.
const WAITS: &str = "\
0 wait done 2; 1 wait killed 2; 3 finish, 2 kill 3; 2 finish => matched matched
0 wait done 2; 1 wait done 2; 3 finish; 2 stop 2 => matched matched
0 wait done 2; 1 wait done 2; 2 stop 3; 2 kill 2 => matched matched
0 wait done 2; 1 wait killed 2; 3 running 2; 3 stop 2 => matched matched
0 wait done 2; 1 wait done 2; 2 alive 3; 3 kill 2 => matched matched
0 wait done 1; 1 wait done 2; 3 finish; 2 kill 1 => matched ended
0 wait done 2; 1 wait done 2; 3 finish; 2 stop 7 => ended ended
0 wait done 2; 1 wait killed 2; 3 kill 3; 2 stopcase => ended ended
0 wait done 2; 1 wait done 2; 2 kill 3; 2 stop 0 => ended ended
0 wait killed 2; 1 wait done 2; 3 finish, 2 stop 3; 2 finish => matched matched
0 wait killed 2; 1 wait killed 2; 3 finish; 2 stop 2 => matched matched
0 wait killed 2; 1 wait killed 2; 2 kill 3; 2 kill 2 => matched matched
0 wait killed 2; 1 wait done 2; 3 done 2; 3 stop 2 => matched matched
0 wait killed 2; 1 wait killed 2; 2 killed 3; 3 kill 2 => matched matched
0 wait killed 2; 1 wait done 2; 3 finish; 2 stop 7 => ended ended
0 wait killed 2; 1 wait killed 2; 2 stop 3; 2 stopcase => ended ended
0 wait killed 2; 1 wait done 2; 3 running 1; 3 kill 0 => ended ended
0 wait done any; 1 wait done 2; 2 running 3; 2 finish => matched matched
0 wait done any; 1 wait killed 3; 3 setverdict pass; 3 finish => matched matched
0 wait done any; 1 wait done 2; 2 done 3; 2 stop 2 => matched matched
0 wait done any; 1 wait killed 2; 3 alive 2; 3 kill 2 => matched matched
0 wait done any; 1 wait done 3; 2 killed 3; 3 stop 1 => matched ended
0 wait done any; 1 wait killed 3; 2 alive 3; 2 stop 7 => ended ended
0 wait done any; 1 wait done 3; 3 getverdict; 3 stopcase => ended ended
0 wait done any; 1 wait done 2; 3 running 1; 2 kill 0 => ended ended
0 wait killed any; 1 wait killed 2; 2 alive 1; 2 finish => matched matched
0 wait killed any; 1 wait done 3; 2 getverdict; 3 stop 3 => matched matched
0 wait killed any; 1 wait done 2; 3 running 2; 3 kill 2 => matched matched
0 wait killed any; 1 wait killed 2; 3 killed 1; 2 kill 1 => matched ended
0 wait killed any; 1 wait done 3; 3 done 1; 2 stop 7 => ended ended
0 wait killed any; 1 wait killed 2; 2 setverdict fail; 3 stopcase => ended ended
0 wait killed any; 1 wait killed 3; 2 running 0; 2 stop 0 => ended ended
0 wait done all; 1 wait done 2; 3 finish; 2 finish => matched matched
0 wait done all; 1 wait killed 3; 2 stop 2; 3 finish => matched matched
0 wait done all; 1 wait done 2; 2 kill 3; 2 stop 2 => matched matched
0 wait done all; 1 wait killed 3; 2 finish, 3 stop 2; 3 kill 3 => matched matched
0 wait done all; 1 wait done 2; 3 finish; 2 kill 1, 2 finish => matched ended
0 wait done all; 1 wait done 2; 3 stop 3; 2 stop 7 => ended ended
0 wait done all; 1 wait killed 3; 2 finish; 3 stopcase => ended ended
0 wait done all; 1 wait killed 3; 2 kill 2; 3 kill 0 => ended ended
0 wait killed all; 1 wait killed 2; 3 finish; 2 finish => matched matched
0 wait killed all; 1 wait done 3; 2 finish; 3 stop 3 => matched matched
0 wait killed all; 1 wait killed 2; 2 stop 3; 2 kill 2 => matched matched
0 wait killed all; 1 wait done 3; 3 stop 2; 3 stop 1, 3 finish => matched ended
0 wait killed all; 1 wait done 3; 2 finish; 3 stop 7 => ended ended
0 wait killed all; 1 wait killed 2; 3 finish; 2 stopcase => ended ended
0 wait killed all; 1 wait done 2; 2 kill 3; 2 stop 0 => ended ended";

/// The main run makes this wait on a thread, and then sets its flag; how the wait was answered, and its pass.
fn spawn_wait<R: Abort + Threads + Wait + Copy + Send + 'static>(
    rt: &R,
    main: Pass,
    wait: &'static str,
    woken: &Arc<AtomicBool>,
) -> JoinHandle<(Option<Reply>, Pass)> {
    let rt = *rt;
    let mut main = main;
    let flag = shared_with(&rt, woken);
    let run = move || {
        let reply = reply_to(&rt, &mut main, wait);
        flag.store(true, Ordering::SeqCst);
        (reply, main)
    };
    got(&rt, thread::spawn(&rt, run))
}

/// Makes this call on a pass, or leaves it; nothing if it has left.
fn act_on<R: Abort + Wait>(rt: &R, pass: &mut Option<Pass>, row: &str) {
    let Some(mut own) = pass.take() else {
        return;
    };
    if row.ends_with(" finish") {
        leave(rt, own);
        return;
    }
    // What it wakes is compared, not its reply.
    let _ = reply_to(rt, &mut own, row);
    *pass = Some(own);
}

/// Makes these calls of runs 2 and 3.
fn act<R: Abort + Wait>(rt: &R, second: &mut Option<Pass>, third: &mut Option<Pass>, rows: &str) {
    for row in rows.split(", ") {
        if row.starts_with("2 ") {
            act_on(rt, second, row);
        } else {
            act_on(rt, third, row);
        }
    }
}

/// Lets runs 2 and 3 make calls that wake nobody, looks at the book, and then lets them make those that wake both.
fn wake_both<R: Abort + Wait + Clock>(
    rt: &R,
    shared: &Shared,
    passes: (Pass, Pass),
    (meanwhile, cause): (&str, &str),
    flags: (&AtomicBool, &AtomicBool),
) {
    let (mut second, mut third) = (Some(passes.0), Some(passes.1));
    act(rt, &mut second, &mut third, meanwhile);
    holds(rt, "a place is kept", shared.look(rt).has_place(Run(0)));
    pause(rt);
    holds(rt, meanwhile, !is_set(flags.0) && !is_set(flags.1));
    act(rt, &mut second, &mut third, cause);
    holds(rt, cause, is_set_soon(rt, flags.0));
    holds(rt, cause, is_set_soon(rt, flags.1));
}

/// The main run and run 1 wait on threads, and both continue by these replies.
fn both_wake<R: Abort + Threads + Wait + Clock + CpuClock + Copy + Send + 'static>(
    rt: &R,
    alloc: Global,
    waits: (&'static str, &'static str),
    calls_then: (&str, &str),
    replies: (&str, &str),
) {
    let (shared, main, tickets) = got(rt, open(alloc, 4));
    let (mut main, mut tickets) = (main, tickets);
    let flags = (unset(rt, alloc), unset(rt, alloc));
    let other = spawn(rt, take(rt, &mut tickets, 0), waits.1, &flags.1);
    calls(rt, &mut main, OF_THREE);
    let passes = (enter(rt, &mut tickets), enter(rt, &mut tickets));
    let waiter = spawn_wait(rt, main, waits.0, &flags.0);
    pause(rt);
    wake_both(rt, &shared, passes, calls_then, (&flags.0, &flags.1));
    let (reply, main) = waiter.join(rt);
    is(rt, waits.0, reply, read_reply(replies.0.as_bytes()));
    leave(rt, main);
    let (other, _) = other.join(rt);
    let reply = read_reply(replies.1.as_bytes());
    is(rt, waits.1, woken_by(&other), reply);
}

/// Makes a component for each of runs 1 to 3, and starts them.
const OF_THREE: &str = "\
0 create => made 1
0 create => made 2
0 create => made 3
0 start 1 1 => ok
0 start 2 2 => ok
0 start 3 3 => ok";

/// The case of one row.
fn is_row<R: Abort + Threads + Wait + Clock + CpuClock + Copy + Send + 'static>(
    rt: &R,
    alloc: Global,
    row: &'static str,
) {
    let Some((case, replies)) = row.split_once(" => ") else {
        panic!(rt; "{row}")
    };
    let mut parts = case.split("; ");
    let (main, other, meanwhile, cause) = (parts.next(), parts.next(), parts.next(), parts.next());
    let ((Some(main), Some(other)), (Some(meanwhile), Some(cause)), Some(replies)) = (
        (main, other),
        (meanwhile, cause),
        replies.split_once(' '),
    ) else {
        panic!(rt; "{row}")
    };
    both_wake(rt, alloc, (main, other), (meanwhile, cause), replies);
}

/// How many threads walk over the rows at a time.
const WALKS: usize = 8;

/// A thread for every so manyth row, from this one on.
fn walk<R: Abort + Threads + Wait + Clock + CpuClock + Copy + Send + 'static>(
    rt: &R,
    alloc: Global,
    from: usize,
) -> JoinHandle<()> {
    let rt = *rt;
    let walk = move || {
        for (at, row) in WAITS.lines().enumerate() {
            if at % WALKS == from {
                is_row(&rt, alloc, row);
            }
        }
    };
    got(&rt, thread::spawn(&rt, walk))
}

/// Waits for one, any and all to be done and killed, and each cause by which they end: the main run and another are woken
/// by the same calls, and by none before.
#[test]
fn the_main_and_another_are_woken(rt: HostRuntime) {
    let mut walks = Vec::new(rt.alloc());
    for from in 0..WALKS {
        got(&rt, walks.push(walk(&rt, rt.alloc(), from)));
    }
    for walk in walks {
        walk.join(&rt);
    }
}

/// Whether run 255 was started on component 2, with component 1 as its argument.
fn is_last(left: &Left) -> bool {
    let Some((comp, args)) = left.started() else {
        return false;
    };
    left.run() == Run(255) && comp == Comp(2) && args == [Comp(1)].as_slice()
}

/// The last of 256 runs waits for its start, is woken by it, and has its component and its argument.
#[test]
fn the_last_run_waits_for_its_start(rt: HostRuntime) {
    let (_, main, tickets) = got(&rt, open(rt.alloc(), 256));
    let (mut main, mut tickets) = (main, tickets);
    let woken = unset(&rt, rt.alloc());
    let waiter = spawn(&rt, take(&rt, &mut tickets, 254), "", &woken);
    calls(&rt, &mut main, CREATES);
    pause(&rt);
    holds(&rt, "it is not yet started", !is_set(&woken));
    calls(&rt, &mut main, "0 start 2 255 1 => ok");
    holds(&rt, "the start wakes it", is_set_soon(&rt, &woken));
    let (left, _) = waiter.join(&rt);
    holds(&rt, "its start", is_last(&left));
}

/// Lets the main run leave, by which two runs wake that wait for their start.
fn end_wakes<R: Abort + Wait + Clock>(rt: &R, main: Pass, first: &AtomicBool, last: &AtomicBool) {
    pause(rt);
    holds(rt, "the case goes on", !is_set(first) && !is_set(last));
    leave(rt, main);
    holds(rt, "the end wakes the first", is_set_soon(rt, first));
    holds(rt, "the end wakes the last", is_set_soon(rt, last));
}

fn is_unstarted<R: Abort + Threads>(rt: &R, waiter: JoinHandle<Done>) {
    let (left, _) = waiter.join(rt);
    holds(rt, "never started", left.started().is_none());
}

/// All who wait for a start wake by the end of the case too.
#[test]
fn the_end_wakes_the_unstarted(rt: HostRuntime) {
    let (_, main, tickets) = got(&rt, open(rt.alloc(), 3));
    let mut tickets = tickets;
    let (first_woken, last_woken) = (unset(&rt, rt.alloc()), unset(&rt, rt.alloc()));
    let first = spawn(&rt, take(&rt, &mut tickets, 0), WAIT, &first_woken);
    let last = spawn(&rt, take(&rt, &mut tickets, 0), WAIT, &last_woken);
    end_wakes(&rt, main, &first_woken, &last_woken);
    is_unstarted(&rt, first);
    is_unstarted(&rt, last);
}

/// Starts run 1 after half a second, and kills component 2 after another.
fn start_and_kill_late<R: Abort + Wait + Clock>(rt: &R, main: &mut Pass) {
    calls(rt, main, CREATES);
    pause_long(rt);
    calls(rt, main, "0 start 1 1 => ok");
    pause_long(rt);
    calls(rt, main, "0 kill 2 => ok");
}

/// A run waited until component 2 was done, in less than a tenth of a second of processor time.
fn has_waited(rt: &impl Abort, left: &Left, time: Option<Duration>) {
    is(rt, "its wait", woken_by(left), Some(Reply::Matched));
    let Some(time) = time else {
        panic!(rt; "no clock")
    };
    assert!(rt;
        time < Duration::from_millis(100),
        "{} ms",
        time.as_millis()
    );
}

/// A wait for a start and one until a component is done, of half a second each.
#[test]
fn waits_do_not_spin(rt: HostRuntime) {
    let (_, main, tickets) = got(&rt, open(rt.alloc(), 2));
    let (mut main, mut tickets) = (main, tickets);
    let woken = unset(&rt, rt.alloc());
    let waiter = spawn(&rt, take(&rt, &mut tickets, 0), WAIT, &woken);
    start_and_kill_late(&rt, &mut main);
    let (left, time) = waiter.join(&rt);
    has_waited(&rt, &left, time);
}

/// Waits until component 2 is killed, on which no run was started.
fn waits_killed<R: Wait>(rt: &R, pass: Pass) -> Back {
    let mut pass = pass;
    let made = pass.wait_killed(rt, Target::One(Comp(2)));
    Back::after(pass, made)
}

/// Starts run 1, kills component 2 so late, and waits until run 1 is done.
fn kill_late<R: Wait + Clock>(rt: &R, pass: &mut Pass, late: Option<u64>) -> Result<(), Halt> {
    let waiting = pass.create(rt, false)?;
    let killed = pass.create(rt, false)?;
    pass.start(rt, waiting, Run(1), &Args::new())?;
    hostile::pause(rt, late);
    pass.kill(rt, Group::One(killed))?;
    pass.wait_done(rt, Target::One(waiting))
}

/// How many entries the log of run 1 has in which it waits until another component is killed.
fn entries_of_wait<R: Abort + Threads + Wait + Clock + Copy + Send + 'static>(
    rt: &R,
    alloc: Global,
    first: Job,
    second: Job,
) -> usize {
    let report = report_of_two(rt, alloc, first, second, 1);
    match report.logs.as_slice() {
        [_, waiting] => waiting.entries.as_slice().len(),
        _ => 0,
    }
}

// 1,000 rounds, in one of eight of which the Kill is late: then the Wait is parked, and has its Wake.
#[test]
fn kill_against_a_wait(rt: HostRuntime) -> Result<(), AllocError> {
    let (mut at_once, mut parked) = (0u64, 0u64);
    for round in 0..1_000u32 {
        let late = hostile::lateness(round, 3);
        let first: Behaviour = Box::new(rt.alloc(), move |pass: Pass| {
            let mut pass = pass;
            let made = kill_late(&rt, &mut pass, late);
            Back::after(pass, made)
        })?;
        let second: Behaviour = Box::new(rt.alloc(), move |pass: Pass| waits_killed(&rt, pass))?;
        match entries_of_wait(&rt, rt.alloc(), Job::new(first), Job::new(second)) {
            2 => at_once = at_once.saturating_add(1),
            3 => parked = parked.saturating_add(1),
            other => is(&rt, "entries of the wait", other, 2),
        }
    }
    at_least(&rt, "waits that were not parked", at_once, 20);
    at_least(&rt, "waits that were parked", parked, 20);
    Ok(())
}

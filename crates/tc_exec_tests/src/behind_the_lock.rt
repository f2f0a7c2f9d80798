//! Which calls wait for the lock.
use crate::calls::{calls, open};
use crate::checks::{got, is};
use std::process::Abort;
use std::sync::atomic::{AtomicBool, Ordering};
use std::sync::{Arc, Wait};
use std::thread;
use std::thread::{JoinHandle, Threads};
use std::time::{Clock, Duration};
use tc_book::{Halt, Pass, Shared};
use tc_rules::{Comp, Target};

/// Makes these calls while the book is locked.
fn call_locked<R: Abort + Wait>(rt: &R, shared: &Shared, pass: &mut Pass, rows: &str) {
    let look = shared.look(rt);
    calls(rt, pass, rows);
    drop(look);
}

const VERDICTS: &str = "\
0 setverdict inconc => ok
0 getverdict => inconc
0 setverdict pass => ok
0 getverdict => inconc";

#[test]
fn verdict_calls_pass_by_the_lock(rt: HostRuntime) {
    let (shared, pass, _) = got(&rt, open(rt.alloc(), 1));
    let mut pass = pass;
    call_locked(&rt, &shared, &mut pass, VERDICTS);
}

/// Sets the flag, and asks whether the main component is running.
fn ask<R: Wait>(rt: &R, pass: Pass, begun: &AtomicBool) -> Result<bool, Halt> {
    let mut pass = pass;
    begun.store(true, Ordering::SeqCst);
    pass.running(rt, Target::One(Comp(0)))
}

/// A thread that asks.
fn that_asks<R: Abort + Threads + Wait + Copy + Send + 'static>(
    rt: &R,
    pass: Pass,
    begun: Arc<AtomicBool>,
) -> JoinHandle<Result<bool, Halt>> {
    let rt = *rt;
    got(&rt, thread::spawn(&rt, move || ask(&rt, pass, &begun)))
}

/// Waits until the flag is set, and then long enough for a call.
fn let_call<R: Clock>(rt: &R, begun: &AtomicBool) {
    for _ in 0..10_000u32 {
        if begun.load(Ordering::SeqCst) {
            break;
        }
        thread::sleep(rt, Duration::from_millis(1));
    }
    thread::sleep(rt, Duration::from_millis(50));
}

// A call that finds the lock taken is answered once it is given up, and does not give up itself.
#[test]
fn a_call_waits_for_the_lock(rt: HostRuntime) {
    let (shared, pass, _) = got(&rt, open(rt.alloc(), 1));
    let begun = got(&rt, Arc::new(rt.alloc(), AtomicBool::new(false)));
    let seen = got(&rt, Arc::try_clone(&begun));
    let look = shared.look(&rt);
    let asking = that_asks(&rt, pass, begun);
    let_call(&rt, &seen);
    drop(look);
    is(&rt, "the answer", asking.join(&rt), Ok(true));
}

//! Behaviours that do what they should not, and threads that are refused.
ghost use Rattle.std.specs.Prelude.{⊤};

use crate::checks::{at_least, got, holds, is};
use crate::jobs::*;
use std::alloc::{AllocError, Global};
use std::process::Abort;
use std::rt::Files;
use std::sync::atomic::{AtomicU64, Ordering};
use std::sync::{Arc, Wait};
use std::thread::Threads;
use std::time::{Clock, Duration};
use std::{fs, thread};
use tc_book::{Halt, Pass, open_case};
use tc_exec::*;
use tc_rules::{Args, Comp, Entry, Group, Reply, Run, UserVerdict, Verdict, replay_check};

/// Allows no worker of one run, and keeps the runs that it was asked for.
#[derive(Drop)]
struct Refuses {
    run: Run,
    asked: Vec<Run>,
}

impl Gate for Refuses {
    ghost asks = { λ _ _ _ _. ⊤ };

    fn allow(&mut self, run: Run) -> bool {
        self.asked.push(run).is_ok() && run != self.run
    }
}

/// A gate that allows no worker of run 2.
fn refuses_run_2(alloc: Global) -> Refuses {
    Refuses {
        run: Run(2),
        asked: Vec::new(alloc),
    }
}

#[test]
fn gate_refuses_a_thread(rt: HostRuntime) {
    let alloc = rt.alloc();
    let called = zero(&rt, alloc);
    let jobs = that_mark(&rt, alloc, 4, &called);
    let mut gate = refuses_run_2(alloc);
    let refused = refusal_at(&rt, alloc, jobs, 3, &mut gate);
    is(&rt, "refusal", refused, Some(CaseError::NoThread));
    is(&rt, "calls of behaviours", number(&called), 0);
    let asked = [Run(1), Run(2)];
    is(
        &rt,
        "runs that were asked for",
        gate.asked.as_slice(),
        asked.as_slice(),
    );
}

/// Takes its time to be dropped, and then sets the flag.
struct Lingers(Arc<AtomicU64>);

impl Drop for Lingers {
    fn drop(self) {
        let Lingers(flag) = self;
        for _ in 0..20_000_000u32 {
            // Each load takes time, and nothing else.
            let _ = flag.load(Ordering::SeqCst);
        }
        flag.store(1, Ordering::SeqCst);
    }
}

/// A job that lingers: what it holds takes its time to be dropped, and then sets the flag.
fn that_lingers(alloc: Global, gone: Arc<AtomicU64>) -> Result<Job, AllocError> {
    let lingers = Lingers(gone);
    let run: Behaviour = Box::new(alloc, move |pass: Pass| {
        drop(lingers);
        Back::after(pass, Ok(()))
    })?;
    Ok(Job::new(run))
}

/// Three jobs, of which the second lingers.
fn lingering_jobs<R: Abort>(rt: &R, alloc: Global, gone: &Arc<AtomicU64>) -> Vec<Job> {
    let first = got(rt, that_ends(alloc, Ok(())));
    let second = got(rt, that_lingers(alloc, shared_with(rt, gone)));
    let third = got(rt, that_ends(alloc, Ok(())));
    got(rt, vec![in alloc; first, second, third])
}

#[test]
fn workers_end_before_a_refusal(rt: HostRuntime) {
    let alloc = rt.alloc();
    let gone = zero(&rt, alloc);
    let jobs = lingering_jobs(&rt, alloc, &gone);
    let mut gate = refuses_run_2(alloc);
    let refused = refusal_at(&rt, alloc, jobs, 2, &mut gate);
    is(&rt, "what lingers is gone", number(&gone), 1);
    is(&rt, "refusal", refused, Some(CaseError::NoThread));
}

#[test]
fn workers_end_before_want_of_memory(rt: HostRuntime) {
    let alloc = rt.alloc();
    let gone = zero(&rt, alloc);
    let first = got(&rt, that_ends(alloc, Err(Halt::NoMemory)));
    let second = got(&rt, that_lingers(alloc, shared_with(&rt, &gone)));
    let jobs = got(&rt, vec![in alloc; first, second]);
    let refused = refusal(&rt, alloc, jobs, 1);
    is(&rt, "what lingers is gone", number(&gone), 1);
    is(&rt, "refusal", refused, Some(CaseError::NoMemory));
}

/// The number of threads in what the system says about the program; none if it does not say.
fn threads_told(status: &str) -> u64 {
    for line in status.lines() {
        if let Some(count) = line.strip_prefix("Threads:") {
            return count.trim().parse::<u64>().unwrap_or(0);
        }
    }
    0
}

/// How many threads the program has; none if the system does not say.
fn threads_now<R: Files + Alloc>(rt: &R) -> u64 {
    match fs::read_to_string(rt, "/proc/self/status") {
        Ok(status) => threads_told(status.as_str()),
        Err(_) => 0,
    }
}

/// Looks at the number of threads until it is this one, ten thousand times at most, and says whether it was.
fn are_threads<R: Files + Alloc>(rt: &R, wanted: u64) -> bool {
    for _ in 0..10_000u32 {
        if threads_now(rt) == wanted {
            return true;
        }
    }
    false
}

/// The bytes of a mapping of the program's memory, by its line, as `7f0000000000-7f0000200000 rw-p ..`.
fn mapped(line: &str) -> Option<u64> {
    let (from, rest) = line.split_once('-')?;
    let (to, _) = rest.split_once(' ')?;
    let from = u64::from_str_radix(from, 16).ok()?;
    let to = u64::from_str_radix(to, 16).ok()?;
    to.checked_sub(from)
}

/// How many mappings have the size of a worker's stack, of those that the system lists.
fn stacks_told(maps: &str) -> u64 {
    let mut stacks = 0u64;
    for line in maps.lines() {
        if mapped(line) == Some(WORKER_STACK as u64) {
            stacks = stacks.saturating_add(1);
        }
    }
    stacks
}

/// How many mappings of the program have the size of a worker's stack; none if the system does not say.
fn stacks_now<R: Files + Alloc>(rt: &R) -> u64 {
    match fs::read_to_string(rt, "/proc/self/maps") {
        Ok(maps) => stacks_told(maps.as_str()),
        Err(_) => 0,
    }
}

/// Allows every worker, and keeps how many questions found one thread for each worker that was allowed before, and no more; and
/// how many stacks there were when the last was asked about.
#[derive(Drop)]
struct Counts<R: Files + Alloc> {
    rt: R,
    asked: u64,
    found: u64,
    stacks: u64,
}

impl<R: Files + Alloc> Gate for Counts<R> {
    ghost asks = { λ _ _ _ _. ⊤ };

    fn allow(&mut self, run: Run) -> bool {
        self.asked = self.asked.saturating_add(1);
        if are_threads(&self.rt, self.asked) {
            self.found = self.found.saturating_add(1);
        }
        if run == Run(255) {
            self.stacks = stacks_now(&self.rt);
        }
        true
    }
}

/// A gate that has not been asked yet.
fn counting<R: Files + Alloc + Copy>(rt: &R) -> Counts<R> {
    Counts {
        rt: *rt,
        asked: 0,
        found: 0,
        stacks: 0,
    }
}

/// Sets pass if the program has that many threads, otherwise fail.
fn counts_threads<R: Files + Alloc>(rt: &R, pass: Pass, wanted: u64) -> Back {
    let mut pass = pass;
    let made = pass.set_verdict(if are_threads(rt, wanted) {
        UserVerdict::Pass
    } else {
        UserVerdict::Fail
    });
    Back::after(pass, made)
}

// A thread more than the workers would be there if the first behaviour had one of its own.
#[test]
fn the_first_behaviour_is_called_on_the_calling_thread(rt: HostRuntime) -> Result<(), AllocError> {
    let first: Behaviour = Box::new(rt.alloc(), move |pass: Pass| counts_threads(&rt, pass, 2))?;
    let second = got(&rt, that_ends(rt.alloc(), Ok(())));
    let report = report_of_two(&rt, rt.alloc(), Job::new(first), second, 1);
    is(&rt, "overall verdict", report.verdict, Verdict::Pass);
    Ok(())
}

// Seven questions: when a worker is asked about, the threads of all before it are there, and its own is not.
#[test]
fn a_thread_lives_before_the_next_question(rt: HostRuntime) {
    let jobs = that_return(&rt, rt.alloc(), 8);
    holds(&rt, "one thread before the case", are_threads(&rt, 1));
    let mut gate = counting(&rt);
    let report = got(&rt, report_at(&rt, rt.alloc(), jobs, 7, &mut gate));
    is(&rt, "logs", report.logs.as_slice().len(), 1);
    is(&rt, "questions", gate.asked, 7);
    is(&rt, "questions with one thread each", gate.found, 7);
}

// 254 workers are there at the last question. A stack that lies next to other memory of the program may be listed as
// one with it.
#[test]
fn stacks_of_workers(rt: HostRuntime) {
    is(&rt, "bytes of a stack", WORKER_STACK, 2_097_152);
    let jobs = that_return(&rt, rt.alloc(), 256);
    let mut gate = counting(&rt);
    got(&rt, report_at(&rt, rt.alloc(), jobs, 255, &mut gate));
    at_least(&rt, "stacks", gate.stacks, 240);
}

/// A frame of one and a half MiB, all of which is written.
fn deep(seed: usize) -> u8 {
    let mut frame = [1u8; 0x18_0000];
    let mut at = seed;
    for _ in 0..64 {
        let next = at.wrapping_mul(0x9e37_79b9).wrapping_add(1) % 0x18_0000;
        frame[next] = frame[at % 0x18_0000].wrapping_add(1);
        at = next;
    }
    frame[at % 0x18_0000].min(2)
}

/// Sets pass after a call with a deep frame.
fn goes_deep(pass: Pass) -> Back {
    let mut pass = pass;
    let is_written = (1..3).contains(&deep(usize::from(pass.run().0)));
    let made = pass.set_verdict(if is_written {
        UserVerdict::Pass
    } else {
        UserVerdict::Fail
    });
    Back::after(pass, made)
}

fn that_goes_deep(alloc: Global) -> Result<Job, AllocError> {
    let run: Behaviour = Box::new(alloc, move |pass: Pass| goes_deep(pass))?;
    Ok(Job::new(run))
}

#[test]
fn a_behaviour_with_a_deep_frame(rt: HostRuntime) -> Result<(), AllocError> {
    let first: Behaviour = Box::new(rt.alloc(), move |pass: Pass| starts_all(&rt, pass, 2))?;
    let second = that_goes_deep(rt.alloc())?;
    let report = report_of_two(&rt, rt.alloc(), Job::new(first), second, 1);
    is(&rt, "overall verdict", report.verdict, Verdict::Pass);
    Ok(())
}

/// A call on its own pass, after which the pass of another case is handed back.
fn hands_back<R: Wait>(rt: &R, pass: Pass, other: Pass, ending: Ending) -> Back {
    let mut pass = pass;
    // It halts, as the own component is killed.
    let _ = pass.kill(rt, Group::One(Comp(0)));
    Back {
        pass: other,
        ending,
    }
}

/// The pass of a case of its own.
fn another_pass<R: Abort>(rt: &R, alloc: Global) -> Pass {
    let (_, pass, _) = got(rt, open_case(alloc, 1));
    pass
}

/// Why a case of this behaviour, and of these that are never started, is refused, if it is.
fn refusal_beside<R: Abort + Threads + Wait + Copy + Send + 'static>(
    rt: &R,
    alloc: Global,
    job: Job,
    others: Vec<Job>,
) -> Option<CaseError> {
    let mut jobs = others;
    got(rt, jobs.push(job));
    jobs.reverse();
    refusal(rt, alloc, jobs, 255)
}

// Without a worker, with one, and with many.
#[test]
fn pass_of_another_case(rt: HostRuntime) -> Result<(), AllocError> {
    for (ending, others, wanted) in [
        (Ending::Returned, 0, CaseError::Torn),
        (Ending::Starved, 0, CaseError::NoMemory),
        (Ending::Returned, 1, CaseError::Torn),
        (Ending::Starved, 1, CaseError::NoMemory),
        (Ending::Returned, 5, CaseError::Torn),
        (Ending::Starved, 5, CaseError::NoMemory),
        (Ending::Returned, 255, CaseError::Torn),
        (Ending::Starved, 255, CaseError::NoMemory),
    ] {
        let other = another_pass(&rt, rt.alloc());
        let run: Behaviour = Box::new(rt.alloc(), move |pass: Pass| {
            hands_back(&rt, pass, other, ending)
        })?;
        let others = that_return(&rt, rt.alloc(), others);
        let refused = refusal_beside(&rt, rt.alloc(), Job::new(run), others);
        is(&rt, "refusal", refused, Some(wanted));
    }
    Ok(())
}

/// Lets the other threads continue for that many milliseconds, if any.
pub(crate) fn pause<R: Clock>(rt: &R, late: Option<u64>) {
    if let Some(milliseconds) = late {
        thread::sleep(rt, Duration::from_millis(milliseconds));
    }
}

/// Starts run 1 on component 1 with component 2 as its argument, and kills all, so late.
fn kill_all<R: Wait + Clock>(rt: &R, pass: &mut Pass, late: Option<u64>) -> Result<(), Halt> {
    let comp = pass.create(rt, true)?;
    let other = pass.create(rt, true)?;
    let mut args = Args::new();
    args.push(other);
    pass.start(rt, comp, Run(1), &args)?;
    pause(rt, late);
    pass.kill(rt, Group::All)
}

/// A behaviour that starts run 1, and kills all, so late.
fn kills_all<R: Wait + Clock>(rt: &R, pass: Pass, late: Option<u64>) -> Back {
    let mut pass = pass;
    let made = kill_all(rt, &mut pass, late);
    Back::after(pass, made)
}

/// A behaviour that starts run 2 on the component that is its argument, so late.
fn starts_argument<R: Wait + Clock>(rt: &R, pass: Pass, late: Option<u64>) -> Back {
    let mut pass = pass;
    pause(rt, late);
    let made = match pass.args().first().copied() {
        Some(comp) => pass.start(rt, comp, Run(2), &Args::new()),
        None => Ok(()),
    };
    Back::after(pass, made)
}

/// Whether a history of three runs is legal, and has this verdict.
fn is_legal(alloc: Global, history: &[Entry], verdict: Verdict) -> bool {
    match replay_check(alloc, 3, history) {
        Ok(replayed) => replayed == verdict,
        Err(_) => false,
    }
}

/// The reply to the Start by run 1, if the report is legal and says rightly whether run 2 ran.
fn reply_of_start(alloc: Global, report: &CaseReport, ran: bool) -> Option<Reply> {
    let logs = report.logs.as_slice();
    let is_told = logs.iter().any(|log| log.run == Run(2));
    if is_told != ran || !is_legal(alloc, report.history.as_slice(), report.verdict) {
        return None;
    }
    let start = logs.get(1)?.entries.as_slice().first()?;
    Some(start.reply)
}

/// How late a call is in this round, if it is the one of this place: in one of eight rounds, and more if the threads have been slow.
pub(crate) fn lateness(round: u32, place: u32) -> Option<u64> {
    if round % 8 == place {
        Some(if round < 200 { 2 } else { 20 })
    } else {
        None
    }
}

/// Lets a Kill of all by the first job and a Start by the second run against each other, when the third sets the flag;
/// the reply to the Start, as `reply_of_start`.
fn reply_against_kill<R: Abort + Threads + Wait + Copy + Send + 'static>(
    rt: &R,
    alloc: Global,
    jobs: (Job, Job, Job),
    ran: &AtomicU64,
) -> Option<Reply> {
    let (first, second, third) = jobs;
    let report = report_of_three(rt, alloc, first, second, third);
    reply_of_start(alloc, &report, number(ran) == 1)
}

/// How many rounds there were in which the Start was first, and the Kill.
#[derive(Clone, Copy)]
struct Rounds {
    starts: u64,
    kills: u64,
}

/// Counts a round, by the reply to its Start.
fn count(rt: &impl Abort, rounds: &mut Rounds, reply: Option<Reply>) {
    match reply {
        Some(Reply::Ok) => rounds.starts = rounds.starts.saturating_add(1),
        Some(Reply::Ended) => rounds.kills = rounds.kills.saturating_add(1),
        reply => panic!(rt; "{reply:?}"),
    }
}

// 200 rounds, in 25 of which the Kill is late, and in 25 the Start; and more until each was first in at least 20.
#[test]
fn start_against_kill(rt: HostRuntime) -> Result<(), AllocError> {
    let mut rounds = Rounds {
        starts: 0,
        kills: 0,
    };
    for round in 0..2000u32 {
        if round >= 200 && rounds.starts >= 20 && rounds.kills >= 20 {
            break;
        }
        let (kill, start) = (lateness(round, 3), lateness(round, 7));
        let first: Behaviour = Box::new(rt.alloc(), move |pass: Pass| kills_all(&rt, pass, kill))?;
        let second: Behaviour = Box::new(rt.alloc(), move |pass: Pass| {
            starts_argument(&rt, pass, start)
        })?;
        let ran = zero(&rt, rt.alloc());
        let third = got(
            &rt,
            that_marks(rt.alloc(), shared_with(&rt, &ran), UserVerdict::Fail),
        );
        let jobs = (Job::new(first), Job::new(second), third);
        let reply = reply_against_kill(&rt, rt.alloc(), jobs, &ran);
        count(&rt, &mut rounds, reply);
    }
    at_least(
        &rt,
        "rounds in which the Start was first",
        rounds.starts,
        20,
    );
    at_least(&rt, "rounds in which the Kill was first", rounds.kills, 20);
    Ok(())
}

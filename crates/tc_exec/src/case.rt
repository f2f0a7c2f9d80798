//! The run of a case.
ghost use Rattle.std.specs.Prelude.{◌≡◌, ◌≢◌, ◌↔◌, ◌<◌, ◌≤◌, ◌+◌, ◌-◌, ◌∷◌, ◌⊎◌, [], true, false, IfOk, OnOk, Err, length};
ghost use Rattle.std.specs.Vec.{vec_len, vec_capacity};
ghost use Rattle.tc_entry.specs.declared.limits.TheConstants.{BEHAVIOURS};
ghost use Rattle.tc_book.specs.Prelude.{IsOneEach, IsWhole};
ghost use Rattle.tc_rules.specs.declared.refusal.CaseError.TheVariants.{NoBehaviours, TooManyBehaviours, NoMemory, NoThread, Torn};
ghost use Rattle.tc_exec.specs.{Case.AreCalled, Case.IsCaseReport, Case.IsHandedBack, Case.IsMadeOf, Case.IsOutOfMemory, Gates.IsPassed, Gates.IsStopped, Inside.AreAbove, Inside.Gathers, Inside.IsFirstStarted, Inside.handed_on, Inside.jobs_of, Inside.runs_of, Workers.opening_pass};

use crate::callable::Callable;
use crate::gate::{Everyone, Gate};
use crate::gathered::Gathered;
use crate::handed::{act, pass_by};
use crate::job::Job;
use crate::worker::{Worker, join_workers, make_workers};
use std::alloc::Global;
use std::sync::Wait;
use std::thread::Threads;
use tc_book::{Pass, Shared, close_case, open_case};
use tc_entry::BEHAVIOURS;
use tc_rules::{CaseError, CloseFault, Closed};

/// The number of behaviours, if that many jobs can be run on that many threads.
fn behaviours_of(jobs: usize, threads: u16) -> Result<u16, CaseError>
    ensures none { (jobs ≡ 0) ↔ (result ≡ Err NoBehaviours) }
    ensures many { (BEHAVIOURS < jobs) ↔ (result ≡ Err TooManyBehaviours) }
    ensures threads { ((0 < jobs) × (jobs ≤ BEHAVIOURS) × (threads < jobs - 1)) ↔ (result ≡ Err NoThread) }
    ensures count { IfOk result (λ n. n ≡ jobs) }
    ensures kind { (result ≢ Err NoMemory) × (result ≢ Err Torn) }
{
    if jobs == 0 {
        return Err(CaseError::NoBehaviours);
    }
    if jobs > BEHAVIOURS {
        return Err(CaseError::TooManyBehaviours);
    }
    if jobs - 1 > usize::from(threads) {
        return Err(CaseError::NoThread);
    }
    Ok(jobs as u16)
}

/// What the close of a case is answered by.
fn hand_on(closed: Result<Closed, CloseFault>) -> Result<Closed, CaseError>
    ensures { result ≡ handed_on closed }
{
    Ok(closed?)
}

/// Closes a case of which all runs have left. If memory ran out in a behaviour, nothing else is judged.
#[tactic(auto, using(crate::proofs::Reporting::case_report))]
fn close<R: Wait>(
    rt: &R,
    alloc: Global,
    shared: Shared,
    gathered: Gathered,
) -> Result<Closed, CaseError>
    ensures starved { gathered.starved ≡ true → result ≡ Err NoMemory }
    ensures runs { result ≡ Err NoMemory → gathered.starved ≡ false → IsOneEach (length gathered.lefts.items) gathered.lefts.items }
    ensures kind { (result ≢ Err NoBehaviours) × (result ≢ Err TooManyBehaviours) × (result ≢ Err NoThread) }
    ensures whole { IfOk result (λ c. IsWhole c.behaviours c.history gathered.lefts.items) }
    ensures report { IfOk result (IsCaseReport (vec_len gathered.lefts)) }
{
    if gathered.starved {
        return Err(CaseError::NoMemory);
    }
    hand_on(close_case(rt, alloc, shared, gathered.lefts))
}

/// Calls the behaviour of run 0, and joins all workers, whatever came back.
fn gather<R: Threads + Wait, B: Callable>(
    rt: &R,
    pass: Pass,
    first: B,
    workers: Vec<Worker<B>>,
    gathered: Gathered,
) -> Gathered
    requires main { pass ≡ opening_pass }
    requires empty { gathered.lefts.items ≡ [] }
    requires fed { gathered.starved ≡ false }
    requires room { vec_len workers < vec_capacity gathered.lefts }
    ensures all { vec_len result.lefts ≡ vec_len workers + 1 }
    ensures first { IsFirstStarted result.lefts.items }
    ensures lefts { Gathers B.outcome (opening_pass.run ∷ runs_of workers.items) (first ∷ jobs_of workers.items) result }
{
    let mut gathered = gathered;
    gathered.take(act(rt, first, pass));
    join_workers(rt, workers, &mut gathered);
    gathered
}

/// Ends a case of which no behaviour was called: leaves the pass of run 0, so that no run can be started any more, and joins all workers
/// that were made. What each left is gathered.
fn dismiss<R: Threads + Wait, B: Callable>(
    rt: &R,
    pass: Pass,
    workers: Vec<Worker<B>>,
    gathered: Gathered,
) -> Gathered
    requires room { vec_len gathered.lefts + vec_len workers < vec_capacity gathered.lefts }
    ensures all { vec_len result.lefts ≡ vec_len gathered.lefts + vec_len workers + 1 }
{
    let mut gathered = gathered;
    gathered.take(pass_by(rt, pass));
    join_workers(rt, workers, &mut gathered);
    gathered
}

/// Runs the behaviours of a case of which all workers were made, and closes it.
fn run_made<R: Threads + Wait, B: Callable>(
    rt: &R,
    alloc: Global,
    shared: Shared,
    pass: Pass,
    first: B,
    workers: Vec<Worker<B>>,
    gathered: Gathered,
) -> Result<Closed, CaseError>
    requires main { pass ≡ opening_pass }
    requires empty { gathered.lefts.items ≡ [] }
    requires fed { gathered.starved ≡ false }
    requires room { vec_len workers < vec_capacity gathered.lefts }
    requires runs { AreAbove (runs_of workers.items) }
    ensures kind { (result ≢ Err NoBehaviours) × (result ≢ Err TooManyBehaviours) × (result ≢ Err NoThread) }
    ensures report { IfOk result (IsCaseReport (vec_len workers + 1)) }
    ensures called { IfOk result (AreCalled B.outcome (first ∷ jobs_of workers.items)) }
    ensures made { IfOk result (IsMadeOf B.outcome (first ∷ jobs_of workers.items)) }
    ensures torn { result ≡ Err Torn → IsHandedBack B.outcome (first ∷ jobs_of workers.items) }
    ensures memory { result ≡ Err NoMemory → IsOutOfMemory B.outcome (first ∷ jobs_of workers.items) }
{
    let gathered = gather(rt, pass, first, workers, gathered);
    close(rt, alloc, shared, gathered)
}

/// Room for the workers of that many runs, and for what they leave.
fn room_for<B: Callable>(
    alloc: Global,
    runs: usize,
) -> Result<(Vec<Worker<B>>, Gathered), tc_verdict::NoMemory>
    ensures workers { IfOk result (λ r. r.0.items ≡ []) }
    ensures lefts { IfOk result (λ r. r.1.lefts.items ≡ []) }
    ensures fed { IfOk result (λ r. r.1.starved ≡ false) }
    ensures room_of_workers { IfOk result (λ r. runs ≤ vec_capacity r.0) }
    ensures room_of_lefts { IfOk result (λ r. vec_capacity r.1.lefts ≡ runs) }
{
    let gathered = Gathered {
        lefts: Vec::with_capacity(alloc, runs)?,
        starved: false,
    };
    let workers = Vec::with_capacity(alloc, runs)?;
    Ok((workers, gathered))
}

/// Runs the behaviours of a case, behaviour k as that of run k.
#[tactic(auto, using(crate::proofs::Gates::passed_others, crate::proofs::Gates::stopped_others))]
fn run_jobs<R: Threads + Wait + Copy + Send + 'static, B: Callable, G: Gate>(
    rt: &R,
    alloc: Global,
    behaviours: u16,
    jobs: Vec<B>,
    gate: &mut G,
) -> Result<Closed, CaseError>
    requires some { 1 ≤ behaviours }
    requires few { behaviours ≤ BEHAVIOURS }
    requires each { vec_len jobs ≡ behaviours }
    ensures kind { (result ≢ Err NoBehaviours) × (result ≢ Err TooManyBehaviours) }
    ensures alone { behaviours ≡ 1 → result ≢ Err NoThread }
    ensures report { IfOk result (IsCaseReport behaviours) }
    ensures called { IfOk result (AreCalled B.outcome jobs.items) }
    ensures made { IfOk result (IsMadeOf B.outcome jobs.items) }
    ensures asked { OnOk result (IsPassed G.asks (behaviours - 1) gate.old gate.new) }
    ensures stopped { result ≡ Err NoThread → IsStopped G.asks (behaviours - 1) gate.old gate.new }
    ensures torn { result ≡ Err Torn → IsHandedBack B.outcome jobs.items }
    ensures asked_torn { result ≡ Err Torn → IsPassed G.asks (behaviours - 1) gate.old gate.new }
    ensures asked_refused { result ≡ Err NoMemory → (gate.new ≡ gate.old) ⊎ IsPassed G.asks (behaviours - 1) gate.old gate.new }
    ensures memory { result ≡ Err NoMemory → (gate.new ≡ gate.old) ⊎ IsOutOfMemory B.outcome jobs.items }
{
    let count = usize::from(behaviours);
    let (shared, pass, tickets) = open_case(alloc, behaviours)?;
    let (mut workers, gathered) = room_for(alloc, count)?;
    let mut jobs = jobs;
    let first = jobs.remove(0);
    if !make_workers(rt, gate, tickets, jobs, &mut workers) {
        dismiss(rt, pass, workers, gathered);
        return Err(CaseError::NoThread);
    }
    run_made(rt, alloc, shared, pass, first, workers, gathered)
}

/// Runs a test case: job k is the behaviour of run k (ES 201 873-1, the execute statement).
///
/// Every job except job 0 has a worker, a thread that waits for the start of its run and then calls the job with the
/// pass of the run. The job of a run that is never started is dropped. All workers are made before job 0 is called, on
/// the calling thread, and all are joined before the call returns. A worker's stack has `WORKER_STACK` bytes; one that
/// needs more ends the process. Job 0 has the stack of the calling thread.
///
/// The report is one history of one thread, and each job of which the run was started was called with a new pass of
/// that run. A case is refused without jobs, with more than 256, and if it needs more workers than `threads`. Then,
/// before any job is called, it is refused if memory runs out or a worker cannot be made. Last, it is refused if memory
/// ran out in a job, or if what the jobs handed back is not whole. Jobs and workers are this project's own.
pub fn run_case<R: Threads + Wait + Copy + Send + 'static>(
    rt: &R,
    alloc: Global,
    jobs: Vec<Job>,
    threads: u16,
) -> Result<Closed, CaseError>
    ensures none { (vec_len jobs ≡ 0) ↔ (result ≡ Err NoBehaviours) }
    ensures many { (BEHAVIOURS < vec_len jobs) ↔ (result ≡ Err TooManyBehaviours) }
    ensures threads { (0 < vec_len jobs) × (vec_len jobs ≤ BEHAVIOURS) × (threads < vec_len jobs - 1) → result ≡ Err NoThread }
    ensures alone { vec_len jobs ≡ 1 → result ≢ Err NoThread }
    ensures report { IfOk result (IsCaseReport (vec_len jobs)) }
    ensures called { IfOk result (AreCalled ⟦<Job as Callable>⟧.outcome jobs.items) }
    ensures made { IfOk result (IsMadeOf ⟦<Job as Callable>⟧.outcome jobs.items) }
    ensures torn { result ≡ Err Torn → IsHandedBack ⟦<Job as Callable>⟧.outcome jobs.items }
{
    run_case_with(rt, alloc, jobs, threads, &mut Everyone)
}

/// Runs a test case as `run_case` does, of jobs of any kind. The gate is asked once for each worker, in the order of
/// the runs, right before its thread is made; if it refuses one, no later run is asked about.
pub fn run_case_with<R: Threads + Wait + Copy + Send + 'static, B: Callable, G: Gate>(
    rt: &R,
    alloc: Global,
    jobs: Vec<B>,
    threads: u16,
    gate: &mut G,
) -> Result<Closed, CaseError>
    ensures none { (vec_len jobs ≡ 0) ↔ (result ≡ Err NoBehaviours) }
    ensures many { (BEHAVIOURS < vec_len jobs) ↔ (result ≡ Err TooManyBehaviours) }
    ensures threads { (0 < vec_len jobs) × (vec_len jobs ≤ BEHAVIOURS) × (threads < vec_len jobs - 1) → result ≡ Err NoThread }
    ensures alone { vec_len jobs ≡ 1 → result ≢ Err NoThread }
    ensures report { IfOk result (IsCaseReport (vec_len jobs)) }
    ensures called { IfOk result (AreCalled B.outcome jobs.items) }
    ensures made { IfOk result (IsMadeOf B.outcome jobs.items) }
    ensures asked { OnOk result (IsPassed G.asks (vec_len jobs - 1) gate.old gate.new) }
    ensures stopped { result ≡ Err NoThread → vec_len jobs ≤ threads + 1 → IsStopped G.asks (vec_len jobs - 1) gate.old gate.new }
    ensures torn { result ≡ Err Torn → IsHandedBack B.outcome jobs.items }
    ensures asked_torn { result ≡ Err Torn → IsPassed G.asks (vec_len jobs - 1) gate.old gate.new }
    ensures asked_refused { result ≡ Err NoMemory → (gate.new ≡ gate.old) ⊎ IsPassed G.asks (vec_len jobs - 1) gate.old gate.new }
    ensures memory { result ≡ Err NoMemory → (gate.new ≡ gate.old) ⊎ IsOutOfMemory B.outcome jobs.items }
    ensures unasked { (vec_len jobs ≡ 0) ⊎ (BEHAVIOURS < vec_len jobs) ⊎ (threads + 1 < vec_len jobs) → gate.new ≡ gate.old }
{
    let behaviours = behaviours_of(jobs.len(), threads)?;
    run_jobs(rt, alloc, behaviours, jobs, gate)
}

//! A run of a campaign: who is given its test cases, and what is written and printed of it.
ghost use Rattle.std.specs.{Prelude.{true, false, ◌≡◌, ◌≤◌, ◌||◌, [], All, length, Err, IfOk, IfErr, IfNone, IfSome, List, Ok, None, Option, Some, map, ℕ}, Io.KnownBytes.Appends, Vec.vec_capacity, Vec.vec_len};
ghost use Rattle.tc_verdict.specs.declared.verdict.Verdict.TheVariants.{None as NoVerdict};
ghost use Rattle.tc_answer.specs.Prelude.{case_name, held_streams};
ghost use Rattle.tc_campaign.specs.Prelude.{AreBack, HasNames, outline_of, IsCalled, IsRunTo};
ghost use Rattle.tc_report.specs.Prelude.{form_parts, LeavesPrefix, HasTold, IsToldBy, ending_status, tally_of_cases};
ghost use Rattle.tc_entry.specs.declared.limits.TheConstants.{BEHAVIOURS as MOST_BEHAVIOURS};
ghost use Rattle.tc_run.specs.{Inside.WasTold, Output.AreTimes, Output.live_form as spec_form, Run.IsRun, Run.IsUnwrittenRun, Run.case_names};

use crate::aborts::tell_end;
use crate::output::{live_form, write_results};
use std::alloc::Global;
use std::io::Write;
use std::sync::Wait;
use std::thread::Threads;
use std::time::Clock;
use tc_answer::Outcome;
use tc_book::Sequence;
use tc_campaign::{
    CampaignEnd, Case, Kept, LiveWriter, Observer, OutFault, Progress, Results, run_campaign_with,
    status_of, without_room,
};
use tc_command::RunOptions;
use tc_entry::{BEHAVIOURS, Name, NoMemory};
use tc_exec::Callable;
use tc_report::{Shown, Stopwatch, Timed, Times};

/// How many workers a test case may have.
const THREADS: u16 = BEHAVIOURS as u16;

// The names of the test cases, in their order.
fn names_of<B: Callable>(alloc: Global, cases: &[Case<B>]) -> Result<Vec<Name>, NoMemory>
    ensures { IfOk result (λ v. v.items ≡ map case_name cases.now) }
{
    Ok(cases.iter().map(|case| case.name.copy()).collect(alloc)?)
}

// Runs the test cases with an observer that reports each and passes it on, and has it name those again that have
// failed.
fn run_with<R, B: Callable, O: Observer, E: Write>(
    rt: &R,
    alloc: Global,
    cases: Vec<Case<B>>,
    options: &RunOptions,
    progress: &mut Progress<'_, '_, O, E, R>,
) -> (Option<CampaignEnd>, Result<(), OutFault>, Times)
where
    R: Threads + Wait + Clock + Copy + Send + 'static,
    requires names { All HasNames cases.items }
    requires tells { options.now.progress ≡ true }
    requires only { progress.old.shown.only ≡ options.now.failures }
    requires all_names { progress.old.shown.names.now ≡ map case_name cases.items }
    requires none { HasTold E.contents (E.contents progress.old.writer.now) [] progress.old }
    ensures run { WasTold B.outcome O.takes cases.items options.now progress.old.observer.now progress.new.observer.now
        (E.contents progress.old.writer.now) (E.contents progress.new.writer.now)
        progress.old.watch.now.cases result.2 result.0 result.1 }
    ensures same_watch { progress.new.watch.ghost_name ≡ progress.old.watch.ghost_name }
    ensures same_observer { progress.new.observer.ghost_name ≡ progress.old.observer.ghost_name }
    ensures same_writer { progress.new.writer.ghost_name ≡ progress.old.writer.ghost_name }
    ensures same_failed { progress.new.failed.ghost_name ≡ progress.old.failed.ghost_name }
{
    progress.begin();
    let ending = run_campaign_with(rt, alloc, cases, options.stop_on, THREADS, progress);
    let told = progress.end();
    let times = progress.watch.take_times();
    (ending, told, times)
}

// Runs the test cases with an observer that has each measured and passes it on.
fn run_timed<R, B: Callable, O: Observer>(
    rt: &R,
    alloc: Global,
    cases: Vec<Case<B>>,
    options: &RunOptions,
    timed: &mut Timed<'_, '_, O, R>,
) -> (Option<CampaignEnd>, Times)
where
    R: Threads + Wait + Clock + Copy + Send + 'static,
    requires names { All HasNames cases.items }
    requires silent { options.now.progress ≡ false }
    ensures run { (held : Option (List ℕ)) → WasTold B.outcome O.takes cases.items options.now
        timed.old.observer.now timed.new.observer.now held held timed.old.watch.now.cases result.1 result.0 (Ok tt) }
    ensures same_watch { timed.new.watch.ghost_name ≡ timed.old.watch.ghost_name }
    ensures same_observer { timed.new.observer.ghost_name ≡ timed.old.observer.ghost_name }
{
    timed.watch.begin();
    let ending = run_campaign_with(rt, alloc, cases, options.stop_on, THREADS, timed);
    let times = timed.watch.take_times();
    (ending, times)
}

// Runs the test cases, which have these names, with this observer, measures each, and reports each if it is asked for.
// Says how the campaign ended, if the observer did not end it, and what came of the reporting.
fn run_told<R, B: Callable, O: Observer, E: Write>(
    watch: &mut Stopwatch<'_, R>,
    alloc: Global,
    cases: Vec<Case<B>>,
    options: &RunOptions,
    names: &[Name],
    observer: &mut O,
    errors: &mut E,
) -> (Option<CampaignEnd>, Result<(), OutFault>, Times)
where
    R: Threads + Wait + Clock + Copy + Send + 'static,
    requires names { All HasNames cases.items }
    requires are { names.now ≡ map case_name cases.items }
    ensures { WasTold B.outcome O.takes cases.items options.now observer.old observer.new
        (E.contents errors.old) (E.contents errors.new) watch.old.cases result.2 result.0 result.1 }
{
    let rt = watch.clock;
    if !options.progress {
        let mut timed = Timed::new(watch, observer);
        let (ending, times) = run_timed(rt, alloc, cases, options, &mut timed);
        return (ending, Ok(()), times);
    }
    let mut failed = Vec::new(alloc);
    let shown = Shown {
        names,
        only: options.failures,
    };
    let stop_on = options.stop_on;
    let mut progress = Progress::new(alloc, watch, shown, stop_on, observer, errors, &mut failed);
    run_with(rt, alloc, cases, options, &mut progress)
}

// Runs the test cases, and keeps and reports all of them: there is room.
fn run_kept<R, B: Callable, E: Write>(
    watch: &mut Stopwatch<'_, R>,
    alloc: Global,
    cases: Vec<Case<B>>,
    options: &RunOptions,
    names: &[Name],
    kept: Kept,
    errors: &mut E,
) -> (Results, Result<(), OutFault>, Times)
where
    R: Threads + Wait + Clock + Copy + Send + 'static,
    requires names { All HasNames cases.items }
    requires none { kept.finished.items ≡ [] }
    requires room { vec_len cases ≤ vec_capacity kept.finished }
    requires are { names.now ≡ map case_name cases.items }
    ensures run { IsRunTo outline_of (IsCalled B.outcome) cases.items options.now.stop_on MOST_BEHAVIOURS (AreBack B.outcome)
        result.0.finished result.0.ending }
    ensures told { IsToldBy options.now.progress (options.now.failures, case_names outline_of cases.items)
        (E.contents errors.old) (E.contents errors.new) result.0.finished result.1 }
    ensures timed { watch.old.cases.items ≡ [] → vec_len cases ≤ vec_capacity watch.old.cases
        → length result.2.cases ≡ length result.0.finished }
{
    let mut kept = kept;
    let (ending, told, times) = run_told(watch, alloc, cases, options, names, &mut kept, errors);
    match ending {
        Some(ending) => (kept.into_results(ending), told, times),
        None => unreachable!(),
    }
}

// What keeps that many test cases; there is room for their times too.
fn kept_with_room<R: Clock>(
    alloc: Global,
    watch: &mut Stopwatch<'_, R>,
    cases: usize,
) -> Result<Kept, NoMemory>
    ensures none { IfOk result (λ kept. kept.finished.items ≡ []) }
    ensures room { IfOk result (λ kept. cases ≤ vec_capacity kept.finished) }
    ensures watch_room { IfOk result (λ _. cases ≤ vec_capacity watch.new.cases) }
    ensures untimed { IfOk result (λ _. watch.new.cases.items ≡ []) }
{
    watch.make_room(cases)?;
    Kept::with_room(alloc, cases)
}

// Runs the test cases, and keeps and reports all of them; without room for them none is run.
fn run_or_not<R, B: Callable, E: Write>(
    watch: &mut Stopwatch<'_, R>,
    alloc: Global,
    cases: Vec<Case<B>>,
    options: &RunOptions,
    names: &[Name],
    errors: &mut E,
) -> (Results, Result<(), OutFault>, Times)
where
    R: Threads + Wait + Clock + Copy + Send + 'static,
    requires names { All HasNames cases.items }
    requires are { names.now ≡ map case_name cases.items }
    ensures run { IsRunTo outline_of (IsCalled B.outcome) cases.items options.now.stop_on MOST_BEHAVIOURS (AreBack B.outcome)
        result.0.finished result.0.ending }
    ensures told { IsToldBy options.now.progress (options.now.failures, case_names outline_of cases.items)
        (E.contents errors.old) (E.contents errors.new) result.0.finished result.1 }
    ensures timed { length result.2.cases ≡ length result.0.finished }
{
    match kept_with_room(alloc, watch, cases.len()) {
        Ok(kept) => run_kept(watch, alloc, cases, options, names, kept, errors),
        Err(_) => (without_room(alloc, cases), Ok(()), Times::none(alloc)),
    }
}

// Writes what follows the test cases of a campaign that ended so; without an ending the writer has ended it.
fn close<W: Write>(
    ending: Option<CampaignEnd>,
    live: &mut LiveWriter<'_, W>,
) -> Result<(CampaignEnd, u8), OutFault>
    ensures ended { IfOk result (λ r. ending ≡ Some r.0) }
    ensures all { IfOk result (λ r. Appends (W.contents live.old.writer.now) (W.contents live.new.writer.now)
        ((form_parts live.old.form).2 live.old.tally r.0)) }
    ensures status { IfOk result (λ r. r.1 ≡ ending_status r.0 live.old.worst) }
    ensures cut { IfNone ending (live.new ≡ live.old) }
    ensures why { IfNone ending (IfSome live.old.fault (λ fault. result ≡ Err fault)) }
    ensures part { IfSome ending (λ e. IfErr result (LeavesPrefix (W.contents live.old.writer.now) (W.contents live.new.writer.now)
        ((form_parts live.old.form).2 live.old.tally e))) }
    ensures same { live.new.writer.ghost_name ≡ live.old.writer.ghost_name }
{
    let Some(ending) = ending else {
        return Err(live.fault.unwrap_or(OutFault::Write));
    };
    let status = live.end(&ending)?;
    Ok((ending, status))
}

// Runs the test cases, has the writer write each as it finishes, and returns what came of them.
fn write_live<R, B: Callable, W: Write, E: Write>(
    watch: &mut Stopwatch<'_, R>,
    alloc: Global,
    cases: Vec<Case<B>>,
    options: &RunOptions,
    names: &[Name],
    live: &mut LiveWriter<'_, W>,
    errors: &mut E,
) -> Result<Outcome, OutFault>
where
    R: Threads + Wait + Clock + Copy + Send + 'static,
    requires names { All HasNames cases.items }
    requires are { names.now ≡ map case_name cases.items }
    requires form { spec_form options.now.live options.now.form ≡ Some live.old.form }
    requires tally { live.old.tally ≡ tally_of_cases [] }
    requires worst { live.old.worst ≡ NoVerdict }
    ensures done { IfOk result (IsRun outline_of (IsCalled B.outcome) (AreBack B.outcome) cases.items options.now
        (held_streams W.contents live.old.writer.now live.new.writer.now E.contents errors.old errors.new)) }
    ensures refused { IfErr result (IsUnwrittenRun outline_of (IsCalled B.outcome) (AreBack B.outcome) cases.items options.now
        (held_streams W.contents live.old.writer.now live.new.writer.now E.contents errors.old errors.new)) }
    ensures same { live.new.writer.ghost_name ≡ live.old.writer.ghost_name }
{
    if let Err(fault) = live.begin() {
        return Err(fault);
    }
    let (ending, told, _) = run_told(watch, alloc, cases, options, names, live, errors);
    match close(ending, live) {
        Ok((ending, status)) => {
            let unkept = Results {
                finished: Sequence::new(Vec::new(alloc)),
                ending,
            };
            let told = tell_end(errors, &unkept, told);
            Ok(Outcome { status, told })
        }
        Err(fault) => Err(fault),
    }
}

// These times, if they are asked for.
fn times_if(alloc: Global, asked: bool, times: Times) -> Times
    ensures times { AreTimes asked (length times.cases) result }
    ensures same { asked ≡ true → result ≡ times }
{
    if asked { times } else { Times::none(alloc) }
}

// Runs the test cases, which have these names, writes their results, and returns what came of them.
fn run_named<R, B: Callable, W: Write, E: Write>(
    watch: &mut Stopwatch<'_, R>,
    alloc: Global,
    cases: Vec<Case<B>>,
    options: &RunOptions,
    names: &[Name],
    writer: &mut W,
    errors: &mut E,
) -> Result<Outcome, OutFault>
where
    R: Threads + Wait + Clock + Copy + Send + 'static,
    requires names { All HasNames cases.items }
    requires are { names.now ≡ map case_name cases.items }
    requires wanted { watch.old.reads ≡ (options.now.progress || options.now.times) }
    ensures done { IfOk result (IsRun outline_of (IsCalled B.outcome) (AreBack B.outcome) cases.items options.now
        (held_streams W.contents writer.old writer.new E.contents errors.old errors.new)) }
    ensures refused { IfErr result (IsUnwrittenRun outline_of (IsCalled B.outcome) (AreBack B.outcome) cases.items options.now
        (held_streams W.contents writer.old writer.new E.contents errors.old errors.new)) }
{
    if let Some(form) = live_form(options.live, &options.form) {
        let mut live = LiveWriter::new(alloc, form, writer);
        return write_live(watch, alloc, cases, options, names, &mut live, errors);
    }
    let (results, told, times) = run_or_not(watch, alloc, cases, options, names, errors);
    let times = times_if(alloc, options.times, times);
    write_results(alloc, &options.form, &times, names, &results, writer)?;
    let status = status_of(&results);
    let told = tell_end(errors, &results, told);
    Ok(Outcome { status, told })
}

/// Runs the test cases, writes their results as they finish, if that is asked for and the form has it, or at the end,
/// and returns what came of them. If it is asked for, each test case is reported as it finishes; an aborted campaign
/// always is. If there is no memory for the names of the test cases, none is run.
pub fn run_cases<R, B: Callable, W: Write, E: Write>(
    rt: &R,
    alloc: Global,
    cases: Vec<Case<B>>,
    options: &RunOptions,
    writer: &mut W,
    errors: &mut E,
) -> Result<Outcome, OutFault>
where
    R: Threads + Wait + Clock + Copy + Send + 'static,
    requires names { All HasNames cases.items }
    ensures done { IfOk result (IsRun outline_of (IsCalled B.outcome) (AreBack B.outcome) cases.items options.now
        (held_streams W.contents writer.old writer.new E.contents errors.old errors.new)) }
    ensures refused { IfErr result (IsUnwrittenRun outline_of (IsCalled B.outcome) (AreBack B.outcome) cases.items options.now
        (held_streams W.contents writer.old writer.new E.contents errors.old errors.new)) }
    ensures workers { THREADS ≡ MOST_BEHAVIOURS }
{
    match names_of(alloc, cases.as_slice()) {
        Ok(names) => {
            let mut watch = Stopwatch::new(alloc, rt, options.progress || options.times);
            let names = names.as_slice();
            run_named(&mut watch, alloc, cases, options, names, writer, errors)
        }
        Err(NoMemory) => Err(OutFault::NoMemory),
    }
}

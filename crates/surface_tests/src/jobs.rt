//! Names of `tc_exec`: a test case whose behaviours are jobs, each on a thread of its own.
ghost use Rattle.std.specs.Prelude.{⊤};

use crate::checks::is;
use std::process::Abort;
use std::sync::Wait;
use std::test::Fail;
use tc_book::{Halt, Pass};
use tc_exec::{Back, CaseError, CaseReport, Ending, Gate, Job, run_case, run_case_with};
use tc_table::{Args, Run, Target};
use tc_verdict::{UserVerdict, Verdict};

type Boxed = Box<dyn FnOnce(Pass) -> Back + Send>;

fn ending_after(made: Result<(), Halt>) -> Ending {
    match made {
        Err(Halt::NoMemory) => Ending::Starved,
        Ok(()) | Err(Halt::Ended) | Err(Halt::Fault(_)) => Ending::Returned,
    }
}

/// Creates a component, starts run 1 on it, and waits until it is done.
fn start_one<R: Wait>(rt: &R, pass: &mut Pass) -> Result<(), Halt> {
    let comp = pass.create(rt, false)?;
    pass.start(rt, comp, Run(1), &Args::new())?;
    pass.wait_done(rt, Target::One(comp))
}

/// The behaviour of run 0.
fn leads<R: Wait>(rt: &R, pass: Pass) -> Back {
    let mut pass = pass;
    let ending = ending_after(start_one(rt, &mut pass));
    Back { pass, ending }
}

/// The behaviour of run 1.
fn sets_pass(pass: Pass) -> Back {
    let mut pass = pass;
    let ending = ending_after(pass.set_verdict(UserVerdict::Pass));
    Back { pass, ending }
}

fn is_reported(rt: &impl Abort, report: &CaseReport) {
    let locals = [Verdict::None, Verdict::Pass];
    is(rt, "locals", report.locals.as_slice(), locals.as_slice());
    is(rt, "verdict", report.verdict, Verdict::Pass);
}

#[test]
fn jobs_are_run(rt: HostRuntime) -> Result<(), Fail> {
    let first: Boxed = Box::new(rt.alloc(), move |pass: Pass| leads(&rt, pass))?;
    let second: Boxed = Box::new(rt.alloc(), move |pass: Pass| sets_pass(pass))?;
    let jobs = vec![in rt.alloc(); Job::new(first), Job::new(second)]?;
    let report = run_case(&rt, rt.alloc(), jobs, 1)?;
    is_reported(&rt, &report);
    Ok(())
}

/// A gate that allows no worker, and keeps the run that it was last asked for.
#[derive(Drop)]
struct Refuses {
    asked: Option<Run>,
}

impl Gate for Refuses {
    ghost asks = { λ _ _ _ _. ⊤ };

    fn allow(&mut self, run: Run) -> bool {
        self.asked = Some(run);
        false
    }
}

#[test]
fn a_gate_refuses_a_worker(rt: HostRuntime) -> Result<(), Fail> {
    let first: Boxed = Box::new(rt.alloc(), move |pass: Pass| sets_pass(pass))?;
    let second: Boxed = Box::new(rt.alloc(), move |pass: Pass| sets_pass(pass))?;
    let jobs = vec![in rt.alloc(); Job::new(first), Job::new(second)]?;
    let mut gate = Refuses { asked: None };
    let refused = run_case_with(&rt, rt.alloc(), jobs, 1, &mut gate);
    is(&rt, "the refusal", refused.err(), Some(CaseError::NoThread));
    is(&rt, "who was asked for", gate.asked, Some(Run(1)));
    Ok(())
}

fn words_of(refusal: CaseError) -> &'static str {
    match refusal {
        CaseError::NoBehaviours => "no behaviours",
        CaseError::TooManyBehaviours => "too many behaviours",
        CaseError::NoMemory => "no memory",
        CaseError::NoThread => "no thread",
        CaseError::Torn => "torn",
    }
}

#[test]
fn a_case_without_behaviours_is_refused(rt: HostRuntime) -> Result<(), Fail> {
    let job: Boxed = Box::new(rt.alloc(), move |pass: Pass| sets_pass(pass))?;
    let mut jobs = vec![in rt.alloc(); Job::new(job)]?;
    jobs.clear();
    let refused = run_case(&rt, rt.alloc(), jobs, 1).err();
    is(&rt, "the refusal", refused, Some(CaseError::NoBehaviours));
    let many = CaseError::TooManyBehaviours;
    is(&rt, "the words", many.text(), words_of(many));
    Ok(())
}

//! What the runs of a model can name, and what each is given for that.
ghost use Rattle.std.specs.{Prelude.{◌≡◌, ◌==◌, ◌<◌, ◌++◌, ◌∷◌, [], All, IfOk, OnOk, length, map, nat_le}, List.list_any, Option.{option_map_or, option_to_list}};
ghost use Rattle.tc_rules.specs.Prelude.{is_in as spec_is_in, names, past_of, start};
ghost use Rattle.tc_model.specs.{Inside.{AreAllGiven, AreGiven, AreLacks, AreStartedWith, AreStarts, AreWays, AreWithin, IsGivenOnly, IsTaken, is_given_many, some_lack}, Naming.{can_name as spec_can_name, lacking as spec_lacking}, Reasons.CanCall};

use crate::reason::Reason;
use std::alloc::Global;
use tc_course::Course;
use tc_entry::{ARGUMENTS, Comp, Entry, Group, NoMemory, Op, Run, Target};

/// A run, and how many components there were before it was started; none if it was not.
#[derive(Clone, Copy)]
pub(crate) struct Starter {
    pub(crate) run: Run,
    pub(crate) there: u32,
}

/// The run that started a run, if one did, and how many components there were before that.
#[derive(Clone, Copy)]
pub(crate) struct Start {
    by: Option<Run>,
    there: u32,
}

/// A component that a call names, and the runs that must be given it for that.
#[derive(Drop)]
pub(crate) struct Lack {
    comp: Comp,
    runs: Vec<Starter>,
}

/// The run that started each run, and what each is given.
#[derive(Drop)]
pub(crate) struct Ways {
    starts: Vec<Start>,
    pub(crate) given: Vec<Vec<Comp>>,
}

// Whether the component is one of these.
fn is_in(comps: &[Comp], comp: Comp) -> bool
    ensures { result ≡ list_any (λ c. comp.0 == c.0) comps.now }
{
    comps.iter().any(|other| comp.0 == other.0)
}

// Whether the run can name the component.
#[tactic(auto, using(crate::proofs::Lacking::is_in_any))]
fn can_name(course: &Course, run: Run, comp: Comp) -> bool
    requires { run.0 < course.now.behaviours }
    ensures { result ≡ spec_can_name (past_of course.now) run.0 comp.0 }
{
    let known = course.known(run);
    let is_own = known.comp().is_some_and(|own| own.0 == comp.0);
    comp.0 == 0 || is_own || is_in(known.bound(), comp)
}

/// The component that the operation names first, if it names one.
pub(crate) fn target(op: &Op) -> Option<Comp>
    ensures { option_to_list result ++ option_map_or (λ s. s.2) (start op.now) [] ≡ names op.now }
{
    match op {
        Op::Start { comp, .. }
        | Op::Stop(Group::One(comp))
        | Op::Kill(Group::One(comp))
        | Op::Running(Target::One(comp))
        | Op::Alive(Target::One(comp))
        | Op::Done(Target::One(comp))
        | Op::Killed(Target::One(comp))
        | Op::Wait {
            target: Target::One(comp),
            ..
        }
        | Op::Wake {
            target: Target::One(comp),
            ..
        } => Some(*comp),
        _ => None,
    }
}

// The components that the operation names.
fn names_of(alloc: Global, op: &Op) -> Result<Vec<Comp>, NoMemory>
    ensures { IfOk result (λ v. v.items ≡ names op.now) }
{
    let mut named = Vec::new(alloc);
    if let Some(comp) = target(op) {
        named.push(comp)?;
    }
    if let Op::Start { args, .. } = op {
        named.extend_from_slice(args.as_slice())?;
    }
    Ok(named)
}

// The runs, from this one on, that can name the component only if they are given it.
#[tactic(auto, using(crate::proofs::Lacking::lacking_rules))]
fn lacking(
    alloc: Global,
    course: &Course,
    starts: &[Start],
    run: Run,
    comp: Comp,
) -> Result<Vec<Starter>, NoMemory>
    requires within { run.0 < course.now.behaviours }
    requires starts { AreStarts course.now.behaviours (past_of course.now) starts.now }
    ensures { IfOk result (λ v. v.items ≡ spec_lacking (past_of course.now) run.0 comp.0) }
{
    let mut run = run;
    let mut found = Vec::new(alloc);
    while !can_name(course, run, comp) {
        let Start { by, there } = starts[usize::from(run.0)];
        found.push(Starter { run, there })?;
        match by {
            Some(by) => run = by,
            None => return Ok(found),
        }
    }
    Ok(found)
}

// The components that the call names, each with the runs that lack it.
fn lacks_of(
    alloc: Global,
    course: &Course,
    starts: &[Start],
    entry: &Entry,
) -> Result<Vec<Lack>, NoMemory>
    requires within { entry.now.caller.0 < course.now.behaviours }
    requires starts { AreStarts course.now.behaviours (past_of course.now) starts.now }
    ensures { IfOk result (λ v. AreLacks (past_of course.now) entry.now v.items) }
{
    let mut lacks = Vec::new(alloc);
    for comp in names_of(alloc, &entry.op)? {
        let runs = lacking(alloc, course, starts, entry.caller, comp)?;
        lacks.push(Lack { comp, runs })?;
    }
    Ok(lacks)
}

// Whether the run is given more than a start has arguments.
fn is_overfull(given: &[Vec<Comp>], run: Run) -> bool
    ensures { result ≡ is_given_many given.now run.0 }
{
    given
        .get(usize::from(run.0))
        .is_some_and(|own| own.len() > ARGUMENTS)
}

impl Lack {
    // Whether the component was not yet there when one of the runs was started.
    fn is_too_new(&self) -> bool
        ensures { result ≡ list_any (λ s. nat_le s.there self.now.comp.0) self.now.runs.items }
    {
        self.runs.iter().any(|starter| starter.there <= self.comp.0)
    }

    // Whether one of the runs is given more than a start has arguments.
    fn is_too_much(&self, given: &[Vec<Comp>]) -> bool
        ensures { result ≡ list_any (λ s. is_given_many given.now s.run.0) self.now.runs.items }
    {
        self.runs
            .iter()
            .any(|starter| is_overfull(given, starter.run))
    }
}

// Whether some component was not yet there when a run that lacks it was started.
fn is_too_new(lacks: &[Lack]) -> bool
    ensures { result ≡ some_lack (λ c s. nat_le s.there c) lacks.now }
{
    lacks.iter().any(|lack| lack.is_too_new())
}

// Whether a run that lacks a component is given more than a start has arguments.
fn is_too_much(lacks: &[Lack], given: &[Vec<Comp>]) -> bool
    ensures { result ≡ some_lack (λ c s. is_given_many given.now s.run.0) lacks.now }
{
    lacks.iter().any(|lack| lack.is_too_much(given))
}

// Gives the component to each of these runs that does not have it.
fn give(given: &mut [Vec<Comp>], runs: &[Starter], comp: Comp) -> Result<(), NoMemory>
    requires { All (λ s. s.run.0 < length given.old) runs.now }
    ensures as_many { length given.new ≡ length given.old }
    ensures each { OnOk result (AreGiven comp runs.now given.old given.new) }
{
    for starter in runs {
        let own = &mut given[usize::from(starter.run.0)];
        if !is_in(own.as_slice(), comp) {
            own.push(comp)?;
        }
    }
    Ok(())
}

// Gives each of the components to the runs that lack it.
fn give_all(given: &mut [Vec<Comp>], lacks: &[Lack]) -> Result<(), NoMemory>
    requires { AreWithin (length given.old) lacks.now }
    ensures as_many { length given.new ≡ length given.old }
    ensures each { OnOk result (AreAllGiven lacks.now given.old given.new) }
{
    for lack in lacks {
        give(given, lack.runs.as_slice(), lack.comp)?;
    }
    Ok(())
}

// Gives the run these components instead of what it was given.
fn give_only(given: &mut [Vec<Comp>], run: Run, comps: &[Comp]) -> Result<(), NoMemory>
    requires { run.0 < length given.old }
    ensures as_many { length given.new ≡ length given.old }
    ensures each { OnOk result (IsGivenOnly run.0 comps.now given.old given.new) }
{
    let own = &mut given[usize::from(run.0)];
    own.clear();
    own.extend_from_slice(comps)?;
    Ok(())
}

impl Ways {
    /// Those of that many runs before the first entry.
    pub(crate) fn opening(alloc: Global, behaviours: u16) -> Result<Ways, NoMemory>
        ensures { IfOk result (AreWays behaviours []) }
    {
        let mut starts = Vec::new(alloc);
        let mut given = Vec::new(alloc);
        for _ in 0..behaviours {
            let (by, there) = (None, 0);
            starts.push(Start { by, there })?;
            given.push(Vec::new(alloc))?;
        }
        Ok(Ways { starts, given })
    }

    // Takes in the run that the entry starts, if it starts one.
    fn start(&mut self, course: &Course, entry: &Entry) -> Result<(), NoMemory>
        requires called { CanCall course.now.behaviours (past_of course.now) entry.now }
        requires starts { AreStarts course.now.behaviours (past_of course.now) self.old.starts.items }
        requires many { length self.old.given.items ≡ course.now.behaviours }
        ensures starts { OnOk result (AreStarts course.now.behaviours (entry.now ∷ past_of course.now) self.new.starts.items) }
        ensures given { OnOk result (AreStartedWith (past_of course.now) entry.now self.old.given.items self.new.given.items) }
    {
        let Op::Start { run, args, .. } = &entry.op else {
            return Ok(());
        };
        if !entry.reply.is_ok() || course.known(*run).comp().is_some() {
            return Ok(());
        }
        self.starts[usize::from(run.0)] = Start {
            by: Some(entry.caller),
            there: course.components(),
        };
        give_only(self.given.as_mut_slice(), *run, args.as_slice())
    }

    // Takes in the entry, and gives each run what it lacks of these.
    fn take_in(&mut self, course: &Course, entry: &Entry, lacks: &[Lack]) -> Result<(), NoMemory>
        requires called { CanCall course.now.behaviours (past_of course.now) entry.now }
        requires ways { AreWays course.now.behaviours (past_of course.now) self.old }
        requires lacks { AreLacks (past_of course.now) entry.now lacks.now }
        ensures { OnOk result (AreWays course.now.behaviours (entry.now ∷ past_of course.now) self.new) }
    {
        give_all(self.given.as_mut_slice(), lacks)?;
        self.start(course, entry)
    }

    /// Takes in the entry that follows the course. Or says which of its names no script has; then it is of no more use, as it is if
    /// memory runs out.
    pub(crate) fn take(
        &mut self,
        alloc: Global,
        course: &Course,
        entry: &Entry,
    ) -> Result<Option<Reason>, NoMemory>
        requires called { CanCall course.now.behaviours (past_of course.now) entry.now }
        requires ways { AreWays course.now.behaviours (past_of course.now) self.old }
        ensures { IfOk result (IsTaken course.now.behaviours (past_of course.now) entry.now self.new) }
    {
        let lacks = lacks_of(alloc, course, self.starts.as_slice(), entry)?;
        if is_too_new(lacks.as_slice()) {
            return Ok(Some(Reason::NotGiven));
        }
        self.take_in(course, entry, lacks.as_slice())?;
        if is_too_much(lacks.as_slice(), self.given.as_slice()) {
            return Ok(Some(Reason::ManyArguments));
        }
        Ok(None)
    }
}

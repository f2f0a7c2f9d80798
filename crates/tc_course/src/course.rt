//! A course: what is known of a case after some turns.
ghost use Rattle.std.specs.Prelude.{◌≡◌, ◌≤◌, ◌<◌, ◌∷◌, ℕ, [], IfOk, OnOk, length, slice_index_or};
ghost use Rattle.tc_entry.specs.declared.limits.TheConstants.{BEHAVIOURS};
ghost use Rattle.tc_rules.specs.Prelude.{past_of, entry_made};
ghost use Rattle.tc_rules.specs.Answers as answers;
ghost use Rattle.tc_rules.specs.Local as verdicts;
ghost use Rattle.tc_rules.specs.History as history;
ghost use Rattle.tc_rules.specs.Phases as phases;
ghost use Rattle.tc_rules.specs.Faults as faults;
ghost use Rattle.tc_course.specs.Inside.{CountsOn, TakesIn, TakesInFor};
ghost use Rattle.tc_course.specs.Course as courses;

use crate::entries::has_gone_on;
use crate::standing::Standing;
use std::alloc::Global;
use std::marker::Model;
use tc_entry::{Comp, Entry, Op, Phase, Reply};
use tc_rules::Table;
use tc_step::{Script, Step};
use tc_verdict::{NoMemory, Run, Verdict};

/// The entries of a case so far, and what is known of each run by them. Contracts see the case as that of its table.
#[derive(Drop)]
pub struct Course {
    table: Table,
    standings: Vec<Standing>,
    carried: Vec<usize>,
}

impl Model for Course {
    ghost use Rattle.tc_rules.specs.Prelude.{Case};
    ghost use Rattle.tc_course.specs.Inside.{IsKept, IsCounted};

    ghost Value = { Case };

    ghost view = { λ c. c.table };

    ghost invariant = { λ c. IsKept c.table c.standings.items × IsCounted c.table c.carried.items };
}

// The standings of n runs at the opening.
fn opening_standings(alloc: Global, n: u16) -> Result<Vec<Standing>, NoMemory>
    ensures as_many { IfOk result (λ v. length v.items ≡ n) }
    ensures each { IfOk result (λ v. (b : ℕ) (d : courses.CourseState) → b < n → slice_index_or v.items b d ≡ courses.stand [] b) }
{
    let mut standings = Vec::new(alloc);
    for b in 0..n {
        standings.push(Standing::opening(alloc, b))?;
    }
    Ok(standings)
}

fn copied_standings(alloc: Global, standings: &[Standing]) -> Result<Vec<Standing>, NoMemory>
    ensures { IfOk result (λ v. v.items ≡ standings.now) }
{
    let mut all = Vec::with_capacity(alloc, standings.len())?;
    for standing in standings {
        all.push(standing.copied(alloc)?)?;
    }
    Ok(all)
}

// Takes one more entry in for this run.
fn take_in_for(standings: &mut Vec<Standing>, entry: &Entry, run: Run) -> Result<(), NoMemory>
    ensures as_many { length standings.new.items ≡ length standings.old.items }
    ensures one { OnOk result (TakesInFor run.0 entry.now standings.old.items standings.new.items) }
{
    match standings.get_mut(usize::from(run.0)) {
        Some(standing) => standing.take_in(entry, run.0),
        None => Ok(()),
    }
}

// Takes one more entry in: nothing new is known but of its caller, and of the run that it starts.
#[tactic(auto, using(crate::proofs::Taking::taking_rules))]
fn take_in_all(standings: &mut Vec<Standing>, entry: &Entry) -> Result<(), NoMemory>
    ensures as_many { length standings.new.items ≡ length standings.old.items }
    ensures each { OnOk result (TakesIn entry.now standings.old.items standings.new.items) }
{
    take_in_for(standings, entry, entry.caller)?;
    match &entry.op {
        Op::Start { run, .. } if run.0 != entry.caller.0 => take_in_for(standings, entry, *run),
        _ => Ok(()),
    }
}

// Counts a call that was carried out.
fn count_in(carried: &mut Vec<usize>, entry: &Entry) -> Result<(), NoMemory>
    ensures as_many { length carried.new.items ≡ length carried.old.items }
    ensures each { OnOk result (CountsOn entry.now carried.old.items carried.new.items) }
{
    let at = usize::from(entry.caller.0);
    if at < carried.len() && has_gone_on(entry.reply) {
        carried[at] = carried[at].checked_add(1).ok_or(NoMemory)?;
    }
    Ok(())
}

/// The steps of a run.
pub fn steps_of(scripts: &[Script], run: Run) -> &[Step]
    ensures { result.now ≡ courses.steps_of scripts.now run.0 }
{
    match scripts.get(usize::from(run.0)) {
        Some(script) => script.steps(),
        None => &[],
    }
}

impl Course {
    /// The course in which nothing was called.
    pub fn opening(alloc: Global, behaviours: u16) -> Result<Course, NoMemory>
        requires some { 1 ≤ behaviours }
        requires few { behaviours ≤ BEHAVIOURS }
        ensures behaviours { IfOk result (λ c. c.behaviours ≡ behaviours) }
        ensures opening { IfOk result (λ c. past_of c ≡ []) }
    {
        let table = Table::new(alloc, behaviours)?;
        let standings = opening_standings(alloc, behaviours)?;
        let carried = vec![in alloc; 0; usize::from(behaviours)]?;
        Ok(Course {
            table,
            standings,
            carried,
        })
    }

    /// The same course.
    pub fn copied(&self, alloc: Global) -> Result<Course, NoMemory>
        ensures behaviours { IfOk result (λ c. c.behaviours ≡ self.now.behaviours) }
        ensures entries { IfOk result (λ c. c.history ≡ self.now.history) }
    {
        let table = self.table.copied(alloc)?;
        let standings = copied_standings(alloc, self.standings.as_slice())?;
        let mut carried = Vec::with_capacity(alloc, self.carried.len())?;
        carried.extend_from_slice(&self.carried)?;
        Ok(Course {
            table,
            standings,
            carried,
        })
    }

    /// What is known of a run.
    pub fn known(&self, run: Run) -> &Standing
        requires { run.0 < self.now.behaviours }
        ensures { result.now ≡ courses.stand (past_of self.now) run.0 }
    {
        &self.standings[usize::from(run.0)]
    }

    /// What a run calls next.
    #[tactic(auto, unfolding(crate::specs::Course::turn))]
    pub fn turn(&self, scripts: &[Script], run: Run) -> Option<Op>
        requires { run.0 < self.now.behaviours }
        ensures { result ≡ courses.turn scripts.now (past_of self.now) run.0 }
    {
        self.known(run).turn(steps_of(scripts, run))
    }

    /// The reply that a call would have.
    pub fn would(&self, run: Run, op: &Op) -> Reply
        ensures { result ≡ answers.answer self.now.behaviours (past_of self.now) run.0 op.now }
    {
        self.table.would(run, op)
    }

    /// The course with one more call. If memory runs out it is lost.
    pub fn with(self, run: Run, op: Op) -> Result<Course, NoMemory>
        ensures behaviours { IfOk result (λ c. c.behaviours ≡ self.behaviours) }
        ensures added { IfOk result (λ c. past_of c ≡ entry_made self.behaviours (past_of self) run op ∷ past_of self) }
    {
        let Course {
            mut table,
            mut standings,
            mut carried,
        } = self;
        let entry_op = op.copy();
        let reply = table.play(run, op)?;
        let entry = Entry {
            caller: run,
            op: entry_op,
            reply,
        };
        take_in_all(&mut standings, &entry)?;
        count_in(&mut carried, &entry)?;
        Ok(Course {
            table,
            standings,
            carried,
        })
    }

    /// How many calls a run has carried out.
    pub fn carried(&self, run: Run) -> usize
        requires { run.0 < self.now.behaviours }
        ensures { result ≡ courses.carried_on (past_of self.now) run.0 }
    {
        self.carried[usize::from(run.0)]
    }

    /// Whether the case is over.
    pub fn is_over(&self) -> bool
        ensures { result ≡ history.is_over (past_of self.now) }
    {
        self.table.is_over()
    }

    /// How many components there are.
    pub fn components(&self) -> u32
        ensures { result ≡ faults.components (past_of self.now) }
    {
        self.table.components()
    }

    /// What a component is doing.
    pub fn phase_of(&self, comp: Comp) -> Option<Phase>
        ensures { result ≡ phases.phase_if_any (past_of self.now) comp.0 }
    {
        self.table.phase_of(comp)
    }

    /// Whether a component is alive-type.
    pub fn is_alive_type(&self, comp: u32) -> bool
        ensures { result ≡ history.is_alive_type (past_of self.now) comp }
    {
        self.table.is_alive_type(Comp(comp))
    }

    /// Whether a run continues.
    pub fn is_active(&self, run: Run) -> bool
        ensures { result ≡ answers.is_active (past_of self.now) run.0 }
    {
        self.table.is_active(run)
    }

    /// The local verdict of a component.
    pub fn local(&self, comp: u32) -> Option<Verdict>
        ensures { result ≡ verdicts.local_if_any (past_of self.now) comp }
    {
        self.table.local(Comp(comp))
    }

    /// The overall verdict.
    pub fn verdict(&self) -> Verdict
        ensures { result ≡ verdicts.overall (past_of self.now) }
    {
        self.table.overall()
    }

    /// The entries, the oldest first.
    pub fn history(&self) -> &[Entry]
        ensures { result.now ≡ self.now.history }
    {
        self.table.history()
    }
}

//! The component table.
ghost use Rattle.std.specs.{Prelude.{◌≡◌, ◌<◌, ◌≤◌, ◌+◌, ◌++◌, ◌∷◌, [], None, IfOk, OnErr, OnOk}, Bool.OnTrue, Result.IsOk};
ghost use Rattle.tc_entry.specs.declared.limits.TheConstants.{BEHAVIOURS};
ghost use Rattle.tc_rules.specs.Standing.{past_of};
ghost use Rattle.tc_rules.specs.History as history;
ghost use Rattle.tc_rules.specs.Phases as phases;
ghost use Rattle.tc_rules.specs.Local as verdicts;
ghost use Rattle.tc_rules.specs.Faults as faults;
ghost use Rattle.tc_rules.specs.Answers as answers;
ghost use Rattle.tc_rules.specs.Waiting as waits;
ghost use Rattle.tc_rules.specs.Legal as legal;

use crate::awaited::Awaited;
use crate::state::CaseState;
use std::alloc::Global;
use std::marker::Model;
use tc_entry::{Comp, Entry, Op, Phase, Reply};
use tc_verdict::{NoMemory, Run, Verdict};

/// The components of one test case, and all that was asked of them (ES 201 873-1, test component operations).
///
/// Contracts see the number of behaviours, the history, and how many more entries have their place.
#[derive(Drop)]
pub struct Table {
    state: CaseState,
    history: Vec<Entry>,
}

impl Model for Table {
    ghost use Rattle.std.specs.{Prelude.{reverse, ◌-◌}, Vec.{vec_len, vec_capacity}};
    ghost use Rattle.tc_rules.specs.Standing.{Case, StandsFor};

    ghost Value = { Case };

    ghost view = { λ t. record { behaviours = t.state.behaviours; history = t.history.items; room = vec_capacity t.history - vec_len t.history } };

    ghost invariant = { λ t. StandsFor t.state (reverse t.history.items) };
}

/// The same entries.
pub fn copied_entries(alloc: Global, history: &[Entry]) -> Result<Vec<Entry>, NoMemory>
    ensures { IfOk result (λ v. v.items ≡ history.now) }
{
    Ok(history.iter().map(|entry| entry.copy()).collect(alloc)?)
}

#[tactic(auto, using(crate::proofs::Lemmas::Standing::stands_legal))]
impl Table {
    /// A case of that many behaviours, at its opening.
    pub fn new(alloc: Global, behaviours: u16) -> Result<Table, NoMemory>
        requires some { 1 ≤ behaviours }
        requires few { behaviours ≤ BEHAVIOURS }
        ensures behaviours { IfOk result (λ t. t.behaviours ≡ behaviours) }
        ensures opening { IfOk result (λ t. t.history ≡ []) }
    {
        Ok(Table {
            state: CaseState::new(alloc, behaviours)?,
            history: Vec::new(alloc),
        })
    }

    /// A table with the same entries.
    pub fn copied(&self, alloc: Global) -> Result<Table, NoMemory>
        ensures behaviours { IfOk result (λ t. t.behaviours ≡ self.now.behaviours) }
        ensures entries { IfOk result (λ t. t.history ≡ self.now.history) }
    {
        let state = self.state.copied(alloc)?;
        let history = copied_entries(alloc, self.history.as_slice())?;
        Ok(Table { state, history })
    }

    /// How many behaviours the case has.
    pub fn behaviours(&self) -> u16
        ensures is { result ≡ self.now.behaviours }
        ensures some { 1 ≤ result }
        ensures few { result ≤ BEHAVIOURS }
    {
        self.state.behaviours()
    }

    /// Makes a call: adds its entry, and returns its reply. If memory runs out the history stays as it was.
    pub fn play(&mut self, caller: Run, op: Op) -> Result<Reply, NoMemory>
        ensures reply { IfOk result (λ r. r ≡ answers.answer self.old.behaviours (past_of self.old) caller.0 op) }
        ensures behaviours { self.new.behaviours ≡ self.old.behaviours }
        ensures added { IfOk result (λ r. self.new.history ≡ self.old.history ++ record { caller = caller; op = op; reply = r } ∷ []) }
        ensures room { OnOk result (self.old.room ≤ self.new.room + 1) }
        ensures refused { OnErr result (self.new.history ≡ self.old.history) }
        ensures refused_room { OnErr result (self.old.room ≤ self.new.room) }
        ensures sure { 0 < self.old.room → history.creation op ≡ None → IsOk result }
    {
        let reply = self.state.would(caller, &op);
        let entry = Entry { caller, op, reply };
        self.history.reserve(1)?;
        self.state.take(&entry)?;
        self.history.push_reserved(entry);
        Ok(reply)
    }

    /// The reply that `play` would give now.
    pub fn would(&self, caller: Run, op: &Op) -> Reply
        ensures { result ≡ answers.answer self.now.behaviours (past_of self.now) caller.0 op.now }
    {
        self.state.would(caller, op)
    }

    /// Makes room for that many more calls.
    pub fn make_room(&mut self, more: usize) -> Result<(), NoMemory>
        ensures behaviours { self.new.behaviours ≡ self.old.behaviours }
        ensures history { self.new.history ≡ self.old.history }
        ensures room { OnOk result (more ≤ self.new.room) }
        ensures no_less { self.old.room ≤ self.new.room }
        ensures sure { more ≤ self.old.room → IsOk result }
    {
        self.history.reserve(more)?;
        Ok(())
    }

    /// How many more calls cannot run out of memory, if none of them is a Create.
    pub fn room(&self) -> usize
        ensures { result ≡ self.now.room }
    {
        self.history.capacity() - self.history.len()
    }

    /// The entries, the oldest first; each reply in them is the component table's.
    pub fn history(&self) -> &[Entry]
        ensures entries { result.now ≡ self.now.history }
        ensures legal { legal.IsLegal self.now.behaviours (past_of self.now) }
    {
        self.history.as_slice()
    }

    /// Whether a run is active.
    pub fn is_active(&self, run: Run) -> bool
        ensures { result ≡ answers.is_active (past_of self.now) run.0 }
    {
        self.state.is_active(run)
    }

    /// The last run that was started on a component.
    pub fn last_run(&self, comp: Comp) -> Option<Run>
        ensures { result ≡ phases.last_run (past_of self.now) comp.0 }
    {
        self.state.last_run(comp)
    }

    /// What a component is doing.
    pub fn phase_of(&self, comp: Comp) -> Option<Phase>
        ensures { result ≡ phases.phase_if_any (past_of self.now) comp.0 }
    {
        self.state.phase_of(comp)
    }

    /// Whether a component is there and alive-type.
    pub fn is_alive_type(&self, comp: Comp) -> bool
        ensures { result ≡ history.is_alive_type (past_of self.now) comp.0 }
    {
        self.state.is_alive_type(comp)
    }

    /// The local verdict of a component.
    pub fn local(&self, comp: Comp) -> Option<Verdict>
        ensures { result ≡ verdicts.local_if_any (past_of self.now) comp.0 }
    {
        self.state.local(comp)
    }

    /// The worst of the local verdicts.
    pub fn overall(&self) -> Verdict
        ensures { result ≡ verdicts.overall (past_of self.now) }
    {
        self.state.overall()
    }

    /// Whether the case is over.
    pub fn is_over(&self) -> bool
        ensures is { result ≡ history.is_over (past_of self.now) }
        ensures after { OnTrue result (legal.IsAllOver self.now.behaviours (past_of self.now)) }
    {
        self.state.is_over()
    }

    /// What a run waits for, if its last entry is a Wait or Wake replied Parked.
    pub fn parked(&self, run: Run) -> Option<Awaited>
        ensures { result ≡ waits.waiting (past_of self.now) run.0 }
    {
        self.state.parked(run)
    }

    /// How many components exist.
    pub fn components(&self) -> u32
        ensures { result ≡ faults.components (past_of self.now) }
    {
        self.state.components()
    }
}

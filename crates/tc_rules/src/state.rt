//! What is kept of a test case next to its history.
ghost use Rattle.std.specs.{Prelude.{◌≡◌, ◌≢◌, ◌<◌, ◌≤◌, [], None, List, IfOk, IfSome, IfNone, OnErr}, Bool.OnTrue, Result.IsOk};
ghost use Rattle.tc_entry.specs.declared.limits.TheConstants.{BEHAVIOURS};
ghost use Rattle.tc_rules.specs.Standing.{StandsFor, IsReplyOf, TakesIn};
ghost use Rattle.tc_rules.specs.History as history;
ghost use Rattle.tc_rules.specs.Phases as phases;
ghost use Rattle.tc_rules.specs.Local as verdicts;
ghost use Rattle.tc_rules.specs.Faults as faults;
ghost use Rattle.tc_rules.specs.Legal as legal;

mod adding;
mod answers;
mod faults;
mod status;
mod waiting;

use crate::component_states::ComponentStates;
use crate::run_state::{RunState, opening_runs};
use std::alloc::Global;
use std::marker::Model;
use tc_entry::{Comp, Entry, Fault, Op, Phase, Reply};
use tc_verdict::{NoMemory, Run, Verdict};

/// The state of one test case: it answers as the table does, and keeps no history.
///
/// Contracts say what it answers after each history that it represents.
#[derive(Drop)]
pub struct CaseState {
    behaviours: u16,
    states: ComponentStates,
    runs: Vec<RunState>,
    over: bool,
}

impl Model for CaseState {
    ghost use Rattle.std.specs.Prelude.{List};
    ghost use Rattle.tc_entry.specs.declared.entry.Entry.{Entry};
    ghost use Rattle.tc_rules.specs.{Standing.Kept, Inside.Kept.IsKept};

    ghost Value = { Kept };

    ghost view = { λ s. record { behaviours = s.behaviours; states = s.states; runs = s.runs.items; over = s.over } };

    ghost invariant = { λ s. (past : List Entry) × IsKept s.behaviours past s.states s.runs.items s.over };
}

#[tactic(auto, using(crate::proofs::Lemmas::Kept::kept_rules, crate::proofs::Lemmas::Kept::group_rules), unfolding(crate::specs::Standing::StandsFor))]
impl CaseState {
    /// A case of that many behaviours, at its opening.
    pub fn new(alloc: Global, behaviours: u16) -> Result<CaseState, NoMemory>
        requires some { 1 ≤ behaviours }
        requires few { behaviours ≤ BEHAVIOURS }
        ensures behaviours { IfOk result (λ s. s.behaviours ≡ behaviours) }
        ensures opening { IfOk result (λ s. StandsFor s []) }
    {
        Ok(CaseState {
            behaviours,
            states: ComponentStates::new(alloc)?,
            runs: opening_runs(alloc, behaviours)?,
            over: false,
        })
    }

    /// The same state.
    pub fn copied(&self, alloc: Global) -> Result<CaseState, NoMemory>
        ensures { IfOk result (λ s. s ≡ self.now) }
    {
        Ok(CaseState {
            behaviours: self.behaviours,
            states: self.states.copied(alloc)?,
            runs: Vec::from_slice(alloc, self.runs.as_slice())?,
            over: self.over,
        })
    }

    /// How many behaviours the case has.
    pub fn behaviours(&self) -> u16
        ensures is { result ≡ self.now.behaviours }
        ensures some { 1 ≤ result }
        ensures few { result ≤ BEHAVIOURS }
    {
        self.behaviours
    }

    /// Makes a call, and returns its reply. Only a Create can run out of memory; then the state stays as it was.
    #[inline(always)]
    pub fn play(&mut self, caller: Run, op: Op) -> Result<Reply, NoMemory>
        ensures behaviours { self.new.behaviours ≡ self.old.behaviours }
        ensures reply { IfOk result (λ r. IsReplyOf self.old caller op r) }
        ensures stands { IfOk result (λ r. TakesIn self.old (record { caller = caller; op = op; reply = r }) self.new) }
        ensures refused { OnErr result (self.new ≡ self.old) }
        ensures sure { history.creation op ≡ None → IsOk result }
    {
        let mut entry = Entry {
            caller,
            op,
            reply: Reply::Ended,
        };
        entry.reply = self.would(caller, &entry.op);
        self.take(&entry)?;
        Ok(entry.reply)
    }

    /// Takes in an entry whose reply is the table's. If the reply is another, it takes in nothing, and returns the
    /// table's reply. Only a Create can run out of memory; then the state stays as it was.
    #[inline(always)]
    pub fn play_entry(&mut self, entry: &Entry) -> Result<Option<Reply>, NoMemory>
        ensures behaviours { self.new.behaviours ≡ self.old.behaviours }
        ensures same { IfOk result (λ other. IfNone other (IsReplyOf self.old entry.now.caller entry.now.op entry.now.reply)) }
        ensures stands { IfOk result (λ other. IfNone other (TakesIn self.old entry.now self.new)) }
        ensures other { IfOk result (λ other. IfSome other (IsReplyOf self.old entry.now.caller entry.now.op)) }
        ensures differs { IfOk result (λ other. IfSome other (λ reply. reply ≢ entry.now.reply)) }
        ensures stays { IfOk result (λ other. IfSome other (λ _. self.new ≡ self.old)) }
        ensures refused { OnErr result (self.new ≡ self.old) }
        ensures sure { history.creation entry.now.op ≡ None → IsOk result }
    {
        let reply = self.would(entry.caller, &entry.op);
        if reply.same(&entry.reply) {
            self.take(entry)?;
            Ok(None)
        } else {
            Ok(Some(reply))
        }
    }

    /// The reply that `play` would give now.
    #[tactic(auto, using(crate::proofs::Lemmas::Kept::kept_rules, crate::proofs::Lemmas::Kept::wait_rules), unfolding(crate::specs::Answers::answer, crate::specs::Faults::fault, crate::specs::Standing::StandsFor))]
    #[inline(always)]
    pub fn would(&self, caller: Run, op: &Op) -> Reply
        ensures { IsReplyOf self.now caller op.now result }
    {
        match self.active_on(caller) {
            None => Reply::Ended,
            Some(own) => match self.fault(caller, op) {
                Some(fault) => Reply::Fault(fault),
                None => self.plain_answer(caller, own, op),
            },
        }
    }

    /// What a component is doing.
    pub fn phase_of(&self, comp: Comp) -> Option<Phase>
        ensures { (past : List Entry) → StandsFor self.now past → result ≡ phases.phase_if_any past comp.0 }
    {
        Some(self.states.as_slice().get(comp.0 as usize)?.phase)
    }

    /// Whether a component is there and alive-type.
    #[tactic(auto, using(crate::proofs::Lemmas::Kept::kind_rules), unfolding(crate::specs::Standing::StandsFor))]
    pub fn is_alive_type(&self, comp: Comp) -> bool
        ensures { (past : List Entry) → StandsFor self.now past → result ≡ history.is_alive_type past comp.0 }
    {
        match self.states.as_slice().get(comp.0 as usize) {
            Some(state) => state.alive_type,
            None => false,
        }
    }

    /// The last run that was started on a component.
    #[tactic(auto, using(crate::proofs::Lemmas::Kept::last_rules), unfolding(crate::specs::Standing::StandsFor))]
    pub fn last_run(&self, comp: Comp) -> Option<Run>
        ensures { (past : List Entry) → StandsFor self.now past → result ≡ phases.last_run past comp.0 }
    {
        self.states.as_slice().get(comp.0 as usize)?.last
    }

    /// The local verdict of a component.
    pub fn local(&self, comp: Comp) -> Option<Verdict>
        ensures { (past : List Entry) → StandsFor self.now past → result ≡ verdicts.local_if_any past comp.0 }
    {
        Some(self.states.as_slice().get(comp.0 as usize)?.local)
    }

    /// The worst of the local verdicts.
    #[tactic(auto, using(crate::proofs::Lemmas::Kept::overall_rules), unfolding(crate::specs::Standing::StandsFor))]
    pub fn overall(&self) -> Verdict
        ensures { (past : List Entry) → StandsFor self.now past → result ≡ verdicts.overall past }
    {
        self.states.worst()
    }

    /// Whether the case is over.
    #[tactic(auto, using(crate::proofs::Lemmas::Over::over_rules), unfolding(crate::specs::Standing::StandsFor))]
    pub fn is_over(&self) -> bool
        ensures is { (past : List Entry) → StandsFor self.now past → result ≡ history.is_over past }
        ensures after { (past : List Entry) → StandsFor self.now past → OnTrue result (legal.IsAllOver self.now.behaviours past) }
    {
        self.over
    }

    /// How many components exist.
    pub fn components(&self) -> u32
        ensures { (past : List Entry) → StandsFor self.now past → result ≡ faults.components past }
    {
        self.states.as_slice().len() as u32
    }
}

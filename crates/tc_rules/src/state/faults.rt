//! The dynamic errors of a call.
ghost use Rattle.std.specs.Prelude.{◌≡◌, ◌<◌, true, List, length, is_none};
ghost use Rattle.tc_entry.specs.declared.entry.Entry.{Entry};
ghost use Rattle.tc_rules.specs.Standing.{StandsFor};
ghost use Rattle.tc_rules.specs.Faults as faults;
ghost use Rattle.tc_rules.specs.Inside.States as tests;
ghost use Rattle.tc_rules.specs.Inside.Words as words;

use crate::component_state::{all_below, is_killed, is_running};
use crate::state::CaseState;
use tc_entry::{Comp, Fault, Group, Op, Target, may_create};
use tc_verdict::Run;

#[tactic(auto, using(crate::proofs::Lemmas::Kept::kept_rules, crate::proofs::Lemmas::Kept::below_rules), unfolding(crate::specs::Standing::StandsFor))]
impl CaseState {
    /// Whether all components that the call names exist.
    #[inline(always)]
    pub(crate) fn names_exist(&self, op: &Op) -> bool
        ensures { result ≡ tests.all_below (faults.names op.now) (length self.now.states) }
    {
        match op {
            Op::Start { comp, args, .. } => {
                self.exists(*comp) && all_below(args.as_slice(), self.states.as_slice().len())
            }
            _ => match target_of(op) {
                Some(Target::One(comp)) => self.exists(comp),
                Some(Target::Any | Target::All) | None => true,
            },
        }
    }

    /// The error of a Start of this component with this run.
    #[tactic(auto, using(crate::proofs::Lemmas::Kept::kept_rules), unfolding(crate::specs::Faults::start_fault, crate::specs::Standing::StandsFor))]
    pub(crate) fn start_fault(&self, comp: Comp, run: Run) -> Option<Fault>
        requires { comp.0 < length self.now.states }
        ensures { (past : List Entry) → StandsFor self.now past → result ≡ faults.start_fault self.now.behaviours past comp.0 run.0 }
    {
        if comp.0 == 0 {
            return Some(Fault::StartMain);
        }
        let phase = self.states.get(comp.0 as usize).phase;
        if is_running(phase) {
            return Some(Fault::AlreadyRunning);
        }
        if is_killed(phase) {
            return Some(Fault::NotStartable);
        }
        if run.0 == 0 || self.behaviours <= run.0 || self.comp_of(run).is_some() {
            return Some(Fault::NoBehaviour);
        }
        None
    }

    /// The dynamic error of a call, if it is one.
    #[tactic(auto, using(crate::proofs::Lemmas::Kept::kept_rules, crate::proofs::Lemmas::Kept::below_rules), unfolding(crate::specs::Faults::fault, crate::specs::Standing::StandsFor))]
    #[inline(always)]
    pub(crate) fn fault(&self, caller: Run, op: &Op) -> Option<Fault>
        ensures known { is_none result ≡ true → tests.all_below (faults.names op.now) (length self.now.states) ≡ true }
        ensures is { (past : List Entry) → StandsFor self.now past → result ≡ faults.fault self.now.behaviours past caller.0 op.now }
    {
        if !self.names_exist(op) {
            return Some(Fault::NoComponent);
        }
        if asks_many(op) && caller.0 != 0 {
            return Some(Fault::NotMain);
        }
        match op {
            Op::Create { .. } if !may_create(self.components() as usize) => Some(Fault::TooMany),
            Op::Start { comp, run, .. } => self.start_fault(*comp, *run),
            _ => None,
        }
    }
}

/// The target of a call that has one.
#[inline(always)]
fn target_of(op: &Op) -> Option<Target>
    ensures { result ≡ faults.target_of op.now }
{
    match op {
        Op::Stop(Group::One(comp)) | Op::Kill(Group::One(comp)) => Some(Target::One(*comp)),
        Op::Stop(Group::All) | Op::Kill(Group::All) => Some(Target::All),
        Op::Running(target) | Op::Alive(target) | Op::Done(target) | Op::Killed(target) => Some(
            *target,
        ),
        Op::Wait { target, .. } | Op::Wake { target, .. } => Some(*target),
        _ => None,
    }
}

/// Whether a call is about Any or All.
#[inline(always)]
fn asks_many(op: &Op) -> bool
    ensures { result ≡ words.asks_many op.now }
{
    matches!(target_of(op), Some(Target::Any | Target::All))
}

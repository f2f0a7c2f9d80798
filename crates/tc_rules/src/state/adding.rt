//! Taking in an entry, and what it does to all that is kept.
ghost use Rattle.std.specs.{Prelude.{◌≡◌, true, false, Some, None, List, OnErr, OnOk}, Result.IsOk};
ghost use Rattle.tc_entry.specs.Prelude.{is_fault};
ghost use Rattle.tc_rules.specs.Standing.{StandsFor, IsReplyOf, TakesIn};
ghost use Rattle.tc_rules.specs.History as history;
ghost use Rattle.tc_rules.specs.Inside.Step as step;

use crate::entries::{created, ends_case};
use crate::state::CaseState;
use crate::step::{asks, take_in, take_in_run, take_in_runs};
use tc_entry::{Comp, Entry, Group, Op, Reply};
use tc_verdict::{NoMemory, Run, UserVerdict};

#[tactic(auto, using(crate::proofs::Lemmas::Kept::kept_rules, crate::proofs::Settled::settled_rules), unfolding(crate::specs::Standing::StandsFor))]
impl CaseState {
    /// Takes in an entry that makes no component.
    #[inline(always)]
    pub(crate) fn add(&mut self, entry: &Entry)
        requires legal { IsReplyOf self.old entry.now.caller entry.now.op entry.now.reply }
        requires makes_none { history.created entry.now.op entry.now.reply ≡ None }
        ensures behaviours { self.new.behaviours ≡ self.old.behaviours }
        ensures stands { TakesIn self.old entry.now self.new }
    {
        let own = self.comp_of(entry.caller);
        take_in(&mut self.states, own, entry);
        take_in_runs(&mut self.runs, entry);
        self.over |= ends_case(entry);
    }

    /// Takes in an entry that asks or waits, without an error.
    #[inline(always)]
    pub(crate) fn ask(&mut self, entry: &Entry)
        requires legal { IsReplyOf self.old entry.now.caller entry.now.op entry.now.reply }
        requires asks { step.asks entry.now.op ≡ true }
        requires plain { is_fault entry.now.reply ≡ false }
        ensures behaviours { self.new.behaviours ≡ self.old.behaviours }
        ensures stands { TakesIn self.old entry.now self.new }
    {
        take_in_run(&mut self.runs, entry, entry.caller);
    }

    /// Takes in an entry that makes a component.
    pub(crate) fn make(&mut self, entry: &Entry, comp: Comp) -> Result<(), NoMemory>
        requires legal { IsReplyOf self.old entry.now.caller entry.now.op entry.now.reply }
        requires makes { history.created entry.now.op entry.now.reply ≡ Some comp }
        ensures behaviours { self.new.behaviours ≡ self.old.behaviours }
        ensures stands { OnOk result (TakesIn self.old entry.now self.new) }
        ensures refused { OnErr result (self.new ≡ self.old) }
    {
        self.states
            .add(matches!(entry.op, Op::Create { alive: true, .. }))?;
        take_in_runs(&mut self.runs, entry);
        Ok(())
    }

    /// Takes in an entry with the reply that is the answer to it, which may change components. If memory runs out, the
    /// state stays as it was.
    #[inline(never)]
    pub(crate) fn change(&mut self, entry: &Entry) -> Result<(), NoMemory>
        requires legal { IsReplyOf self.old entry.now.caller entry.now.op entry.now.reply }
        ensures behaviours { self.new.behaviours ≡ self.old.behaviours }
        ensures stands { OnOk result (TakesIn self.old entry.now self.new) }
        ensures refused { OnErr result (self.new ≡ self.old) }
        ensures sure { history.creation entry.now.op ≡ None → IsOk result }
    {
        match created(&entry.op, entry.reply) {
            None => {
                self.add(entry);
                Ok(())
            }
            Some(comp) => self.make(entry, comp),
        }
    }

    /// Takes in a setting of a verdict that counts.
    #[inline(never)]
    fn set_verdict(&mut self, caller: Run, setting: UserVerdict)
        requires legal { IsReplyOf self.old caller (Op.SetVerdict setting) Reply.Ok }
        ensures behaviours { self.new.behaviours ≡ self.old.behaviours }
        ensures stands { TakesIn self.old (record { caller = caller; op = Op.SetVerdict setting; reply = Reply.Ok }) self.new }
    {
        self.add(&Entry {
            caller,
            op: Op::SetVerdict(setting),
            reply: Reply::Ok,
        });
    }

    /// Takes in a stop.
    #[inline(never)]
    fn stop(&mut self, caller: Run, group: Group)
        requires legal { IsReplyOf self.old caller (Op.Stop group) Reply.Ok }
        ensures behaviours { self.new.behaviours ≡ self.old.behaviours }
        ensures stands { TakesIn self.old (record { caller = caller; op = Op.Stop group; reply = Reply.Ok }) self.new }
    {
        self.add(&Entry {
            caller,
            op: Op::Stop(group),
            reply: Reply::Ok,
        });
    }

    /// Takes in a kill.
    #[inline(never)]
    fn kill(&mut self, caller: Run, group: Group)
        requires legal { IsReplyOf self.old caller (Op.Kill group) Reply.Ok }
        ensures behaviours { self.new.behaviours ≡ self.old.behaviours }
        ensures stands { TakesIn self.old (record { caller = caller; op = Op.Kill group; reply = Reply.Ok }) self.new }
    {
        self.add(&Entry {
            caller,
            op: Op::Kill(group),
            reply: Reply::Ok,
        });
    }

    /// Takes in an entry with the reply that is the answer to it. If memory runs out, the state stays as it was.
    #[inline(always)]
    pub(crate) fn take(&mut self, entry: &Entry) -> Result<(), NoMemory>
        requires legal { IsReplyOf self.old entry.now.caller entry.now.op entry.now.reply }
        ensures behaviours { self.new.behaviours ≡ self.old.behaviours }
        ensures stands { OnOk result (TakesIn self.old entry.now self.new) }
        ensures refused { OnErr result (self.new ≡ self.old) }
        ensures sure { history.creation entry.now.op ≡ None → IsOk result }
    {
        if asks(&entry.op) && !entry.reply.is_fault() {
            self.ask(entry);
            return Ok(());
        }
        match (&entry.op, entry.reply) {
            (Op::SetVerdict(setting), Reply::Ok) => {
                self.set_verdict(entry.caller, *setting);
                Ok(())
            }
            (Op::Stop(group), Reply::Ok) => {
                self.stop(entry.caller, *group);
                Ok(())
            }
            (Op::Kill(group), Reply::Ok) => {
                self.kill(entry.caller, *group);
                Ok(())
            }
            _ => self.change(entry),
        }
    }
}

//! A test case that is open.
ghost use Rattle.std.specs.{Prelude.{◌≡◌, ◌<◌, ◌++◌, ◌∷◌, [], nat_lt, true, ℕ, List, IfOk, OnOk, ◌&&◌}, Io.StartsWith, Result.result_err};
ghost use Rattle.tc_rules.specs.Prelude.{IsBehaviours, Reply as AnyReply};
ghost use Rattle.tc_text.specs.Prelude.{move_text};
ghost use Rattle.tc_blocks.specs.Prelude.{outcome_text, with_lf, entry_in, is_met, AreMet};
ghost use Rattle.tc_serve.specs.{Inside.{Becomes, Changes, IsCalled, IsOpen, Moves, after_call, entry, wakes_nobody as spec_wakes_nobody, woken_once, called, counted as spec_counted}, Protocol.{Played as AnyPlayed, made, why_text, with_added_line, with_name, woken}};

use crate::order::{Refusal, Tried};
use std::alloc::Global;
use tc_blocks::{Line, MetRuns, append_line, append_said};
use tc_entry::{Name, NoMemory, Op, Reply, Run, Verdict};
use tc_rules::{CaseState, keeps_phases};
use tc_text::{append_text, write_move, write_reply};

/// A test case that is open: what is kept of it besides its evidence.
#[derive(Drop)]
pub(crate) struct OpenCase {
    /// What is kept of its history.
    pub state: CaseState,
    /// Only runs before this one can sleep: after a call only these may be woken.
    waited: u16,
    /// The runs that some line is about.
    met: MetRuns,
}

// Adds the runs that the line of a call is about: its caller, as for a line that is refused, and the run that it starts.
fn meet(met: &mut MetRuns, caller: Run, op: &Op)
    ensures { (reply : AnyReply) (ls : List Line) → AreMet met.old ls → AreMet met.new (Line.Entry (entry caller op.now reply) ∷ ls) }
{
    met.add_refused(caller);
    if let Op::Start { run, .. } = op {
        met.add_refused(*run);
    }
}

// Appends what follows the move of an entry; if memory runs out, a part of it.
fn append_outcome(out: &mut Vec<u8>, reply: Reply) -> Result<(), NoMemory>
    ensures ok { OnOk result (out.new.items ≡ out.old.items ++ with_lf (outcome_text reply)) }
    ensures any { StartsWith out.new.items out.old.items }
{
    append_text(out, " -> ")?;
    write_reply(out, &reply)?;
    out.push(b'\n')?;
    Ok(())
}

// Whether after an entry with this reply no run can continue that could not before it.
fn wakes_nobody(keeps_phases: bool, reply: Reply) -> bool
    ensures { result ≡ spec_wakes_nobody keeps_phases reply }
{
    match reply {
        Reply::Ended => true,
        Reply::Parked | Reply::Fault(_) => false,
        Reply::Made(_) | Reply::Ok | Reply::Answer(_) | Reply::Local(_) | Reply::Matched =>
            keeps_phases,
    }
}

impl OpenCase {
    /// A test case that was just opened.
    pub fn new(alloc: Global, behaviours: u16) -> Result<OpenCase, NoMemory>
        requires { IsBehaviours behaviours }
        ensures { IfOk result (λ o. (name : List ℕ) → IsOpen o (record { name = name; behaviours = behaviours; lines = [] })) }
    {
        Ok(OpenCase {
            state: CaseState::new(alloc, behaviours)?,
            waited: 0,
            met: MetRuns::none(),
        })
    }

    // Why a client may not make the call for the run, if it may not.
    fn bar(&self, caller: Run, op: &Op) -> Option<Refusal>
        ensures { (p : AnyPlayed) → IsOpen self.now p → result ≡ result_err (made caller op.now p) }
    {
        if matches!(op, Op::Wake { .. }) {
            Some(Refusal::Wake)
        } else if self.has(caller) && self.state.parked(caller).is_some() {
            Some(Refusal::Waiting)
        } else {
            None
        }
    }

    // Whether the run is one of the test case.
    fn has(&self, run: Run) -> bool
        ensures is { (p : AnyPlayed) → IsOpen self.now p → result ≡ nat_lt run.0 p.behaviours }
        ensures few { result ≡ true → run.0 < 256 }
    {
        run.0 < self.state.behaviours()
    }

    // Whether the run is one of the test case, and some line is about it.
    fn has_met(&self, run: Run) -> bool
        ensures { (p : AnyPlayed) → IsOpen self.now p → result ≡ (nat_lt run.0 p.behaviours && is_met run.0 p.lines) }
    {
        self.has(run) && self.met.contains(run)
    }

    /// Adds the line of this run, which is no entry; why it is refused, if it is. If memory runs out, a part of it is
    /// appended.
    pub fn add(&mut self, run: Run, line: &Line, out: &mut Vec<u8>) -> Tried
        requires { entry_in line.now ≡ [] }
        ensures ok { IfOk result (λ why. Changes (with_added_line run line.now) why self.old self.new out.old.items out.new.items) }
        ensures any { StartsWith out.new.items out.old.items }
    {
        if !self.has(run) {
            return Ok(Some(Refusal::NoRun));
        }
        append_line(out, line)?;
        self.met.add_line(line);
        Ok(None)
    }

    /// Names the behaviour of the run; why that is refused, if it is. If memory runs out, a part of its line is appended.
    pub fn name(&mut self, run: Run, name: Name, out: &mut Vec<u8>) -> Tried
        ensures ok { IfOk result (λ why. Changes (with_name run name) why self.old self.new out.old.items out.new.items) }
        ensures any { StartsWith out.new.items out.old.items }
    {
        if self.has_met(run) {
            return Ok(Some(Refusal::LateName));
        }
        self.add(run, &Line::Named { run, name }, out)
    }

    /// Adds that a line of the run was refused; why even that is refused, if it is. If memory runs out, a part is appended.
    pub fn refuse(&mut self, run: Run, why: Refusal, out: &mut Vec<u8>) -> Tried
        ensures ok { IfOk result (λ other. Changes (with_added_line run (Line.Refused run (why_text why))) other
            self.old self.new out.old.items out.new.items) }
        ensures any { StartsWith out.new.items out.old.items }
    {
        if !self.has(run) {
            return Ok(Some(Refusal::NoRun));
        }
        append_said(out, run, true, why.text().as_bytes())?;
        self.met.add_refused(run);
        Ok(None)
    }

    // Makes the call whose move was appended, and appends the rest of its line; if memory runs out, a part of that.
    fn call(&mut self, caller: Run, op: Op, out: &mut Vec<u8>) -> Result<Reply, NoMemory>
        ensures ok { IfOk result (λ r. (text : List ℕ) → out.old.items ≡ text ++ move_text caller.0 op
            → IsCalled caller op r self.old self.new text out.new.items) }
        ensures any { StartsWith out.new.items out.old.items }
    {
        meet(&mut self.met, caller, &op);
        let reply = self.state.play(caller, op)?;
        append_outcome(out, reply)?;
        Ok(reply)
    }

    // Makes the call that the line asks for, and appends its entry; its reply. If memory runs out, a part is appended.
    fn ask(
        &mut self,
        caller: Run,
        op: Op,
        line: &[u8],
        out: &mut Vec<u8>,
    ) -> Result<Reply, NoMemory>
        requires { line.now ≡ move_text caller.0 op }
        ensures ok { OnOk result (Becomes (λ p. record p { lines = after_call p caller op }) self.old self.new out.old.items out.new.items) }
        ensures reply { IfOk result (λ r. (p : AnyPlayed) → IsOpen self.old p → r ≡ (called p.behaviours p.lines caller op).reply) }
        ensures any { StartsWith out.new.items out.old.items }
    {
        let is_own = self.has(caller);
        out.extend_from_slice(line)?;
        let reply = self.call(caller, op, out)?;
        if is_own && matches!(reply, Reply::Parked) {
            self.waited = self.waited.max(caller.0 + 1);
        }
        Ok(reply)
    }

    // Wakes the run, if it sleeps and can continue.
    fn wake(&mut self, run: Run, out: &mut Vec<u8>) -> Result<(), NoMemory>
        ensures ok { OnOk result (Becomes (λ p. record p { lines = woken_once p.behaviours p.lines run.0 }) self.old self.new out.old.items out.new.items) }
        ensures same { OnOk result (self.new.waited ≡ self.old.waited) }
        ensures any { StartsWith out.new.items out.old.items }
    {
        let Some(awaited) = self.state.parked(run) else {
            return Ok(());
        };
        let op = Op::Wake {
            killed: awaited.killed,
            target: awaited.target,
        };
        if matches!(self.state.would(run, &op), Reply::Parked) {
            return Ok(());
        }
        write_move(out, run, &op)?;
        self.call(run, op, out)?;
        Ok(())
    }

    // Wakes each run that sleeps and can continue, in the order of their numbers.
    fn wake_all(&mut self, out: &mut Vec<u8>) -> Result<(), NoMemory>
        ensures ok { OnOk result (Becomes (λ p. record p { lines = woken p.behaviours p.lines p.behaviours })
            self.old self.new out.old.items out.new.items) }
        ensures any { StartsWith out.new.items out.old.items }
    {
        for run in 0..self.waited {
            self.wake(Run(run), out)?;
        }
        Ok(())
    }

    // Makes the call that the line asks for, of a run that does not sleep, and then wakes each run that can continue, of
    // which none could before.
    fn play(&mut self, caller: Run, op: Op, line: &[u8], out: &mut Vec<u8>) -> Result<(), NoMemory>
        requires { line.now ≡ move_text caller.0 op }
        ensures ok { OnOk result (Moves caller op self.old self.new out.old.items out.new.items) }
        ensures any { StartsWith out.new.items out.old.items }
    {
        let keeps_phases = keeps_phases(&op);
        let reply = self.ask(caller, op, line, out)?;
        if wakes_nobody(keeps_phases, reply) {
            return Ok(());
        }
        self.wake_all(out)
    }

    /// Makes the call that the line asks for, and appends its entry, and those of the wakes; why it is refused, if it is. If
    /// memory runs out, a part of these is appended.
    pub fn make(&mut self, caller: Run, op: Op, line: &[u8], out: &mut Vec<u8>) -> Tried
        requires { line.now ≡ move_text caller.0 op }
        ensures ok { IfOk result (λ why. Changes (made caller op) why self.old self.new out.old.items out.new.items) }
        ensures any { StartsWith out.new.items out.old.items }
    {
        if let Some(why) = self.bar(caller, &op) {
            return Ok(Some(why));
        }
        self.play(caller, op, line, out)?;
        Ok(None)
    }

    /// The verdict that the test case counts as: error if it is not over.
    pub fn counted(&self) -> Verdict
        ensures { (p : AnyPlayed) → IsOpen self.now p → result ≡ spec_counted p }
    {
        if self.state.is_over() {
            self.state.overall()
        } else {
            Verdict::Error
        }
    }
}

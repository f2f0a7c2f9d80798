//! The pass of a started run: what its behaviour calls the case by.
ghost use Rattle.std.specs.Prelude.{◌≡◌, ◌<◌, ◌≤◌, ◌||◌, [], true, false, IfOk, Some, None};
ghost use Rattle.tc_rules.specs.Prelude.{Reply, is_ended, is_fault, is_ok, is_verdict_call};
ghost use Rattle.tc_book.specs.{Hands.IsHandOf, Inside.Waiting.waiting_places, Inside.is_halt, Passes.IsCall, Passes.IsWait, Passes.has_ended, Passes.reply_of, Passes.with_own_entry, Inside.Replies.is_answer, Inside.Replies.suits_plainly};

use crate::halt::Halt;
use crate::left::Left;
use crate::logged_book::log::Log;
use crate::shared::Shared;
use std::marker::Model;
use std::sync::Wait;
use tc_board::Hand;
use tc_entry::{Args, Comp, Entry, Group, Name, Op, Reply, Target};
use tc_verdict::{NoMemory, Run, UserVerdict, Verdict};

/// What the behaviour of a started run calls the case by, with the log of its calls and the run's hand on the verdict board.
#[derive(Drop)]
pub struct Pass {
    shared: Shared,
    log: Log,
}

impl Model for Pass {
    ghost use Rattle.std.specs.Prelude.{◌<◌, ◌≤◌};
    ghost use Rattle.tc_book.specs.{Passes.PassState, Inside.Waiting.waiting_places};

    ghost Value = { PassState };

    ghost view = { λ p. record { run = p.log.started.run; me = p.log.started.comp; args = p.log.started.args; log = p.log.entries } };

    ghost invariant = { λ p. (1 ≤ p.log.room) × (p.log.started.run.0 < waiting_places p.shared) };
}

/// The answer by a reply.
fn heard(reply: Reply) -> Result<Reply, Halt>
    ensures by { reply_of (λ r. r) result ≡ Some reply }
    ensures plain { IfOk result (λ r. is_halt r ≡ false) }
{
    match reply {
        Reply::Ended => Err(Halt::Ended),
        Reply::Fault(fault) => Err(Halt::Fault(fault)),
        _ => Ok(reply),
    }
}

impl Pass {
    /// The pass of a run with its log, in which nothing is yet.
    pub(crate) fn new(shared: Shared, log: Log) -> Pass
        requires waits { log.started.run.0 < waiting_places shared }
        requires empty { log.entries ≡ [] }
        requires room { 1 ≤ log.room }
        ensures { result ≡ record { run = log.started.run; me = log.started.comp; args = log.started.args; log = [] } }
    {
        Pass { shared, log }
    }

    /// The run.
    pub fn run(&self) -> Run
        ensures { result ≡ self.now.run }
    {
        self.log.run()
    }

    /// The component that the run was started on.
    pub fn me(&self) -> Comp
        ensures { result ≡ self.now.me }
    {
        self.log.own()
    }

    /// The arguments that the run was started with.
    pub fn args(&self) -> &[Comp]
        ensures { result.now ≡ self.now.args }
    {
        self.log.args()
    }

    /// The entries of the run so far, the oldest first.
    pub fn log(&self) -> &[Entry]
        ensures { result.now ≡ self.now.log }
    {
        self.log.entries()
    }

    /// Makes room in the log for that many calls, so that it need not grow at each. Only a hint: without the memory, each
    /// call makes the room that it needs.
    pub fn make_room(&mut self, calls: usize)
        ensures { self.new ≡ self.old }
    {
        // As many more as each call makes.
        let _ = self.log.make_room(calls.saturating_add(3));
    }

    /// The run's hand on the verdict board: it met the word of the run, and then had the answers of the log's verdict
    /// entries. So each step on the word has its entry, and each entry its step.
    pub fn hand(&self) -> &Hand
        ensures { IsHandOf result.now self.now.run.0 self.now.log }
    {
        self.log.hand()
    }

    /// Whether the run has ended: then each call is replied Ended, and nothing is recorded.
    pub fn is_ended(&self) -> bool
        ensures { result ≡ has_ended self.now }
    {
        self.log.is_ended()
    }

    /// Records a call and logs its entry.
    fn call<R: Wait>(&mut self, rt: &R, op: Op) -> Result<Reply, Halt>
        requires other { is_verdict_call op ≡ false }
        ensures call { IsCall (λ r. r) op self.old self.new result }
        ensures plain { IfOk result (λ r. suits_plainly op r ≡ true) }
    {
        if self.log.is_ended() {
            return Err(Halt::Ended);
        }
        match self.shared.record(rt, op, &mut self.log) {
            Ok(reply) => heard(reply),
            Err(NoMemory) => Err(Halt::NoMemory),
        }
    }

    /// Makes a call that is replied Ok.
    fn give<R: Wait>(&mut self, rt: &R, op: Op) -> Result<(), Halt>
        requires other { is_verdict_call op ≡ false }
        requires plain { (r : Reply) → suits_plainly op r ≡ is_ok r }
        ensures { IsCall (λ _. Reply.Ok) op self.old self.new result }
    {
        match self.call(rt, op)? {
            Reply::Ok => Ok(()),
            _ => unreachable!(),
        }
    }

    /// Makes a call that is replied yes or no.
    fn ask<R: Wait>(&mut self, rt: &R, op: Op) -> Result<bool, Halt>
        requires other { is_verdict_call op ≡ false }
        requires plain { (r : Reply) → suits_plainly op r ≡ is_answer r }
        ensures { IsCall Reply.Answer op self.old self.new result }
    {
        match self.call(rt, op)? {
            Reply::Answer(answer) => Ok(answer),
            _ => unreachable!(),
        }
    }

    // Creates a component with this name, or without one.
    fn make<R: Wait>(&mut self, rt: &R, alive: bool, name: Option<Name>) -> Result<Comp, Halt>
        ensures { IsCall Reply.Made (Op.Create alive name) self.old self.new result }
    {
        match self.call(rt, Op::Create { alive, name })? {
            Reply::Made(comp) => Ok(comp),
            _ => unreachable!(),
        }
    }

    /// Creates a component, ordinary or alive-type, without a name (ES 201 873-1, the create operation).
    pub fn create<R: Wait>(&mut self, rt: &R, alive: bool) -> Result<Comp, Halt>
        ensures { IsCall Reply.Made (Op.Create alive None) self.old self.new result }
    {
        self.make(rt, alive, None)
    }

    /// Creates a component, ordinary or alive-type, with a name (ES 201 873-1, the create operation). The name is in
    /// the log, the report and the history; several components may have the same, and no call takes it for a component.
    pub fn create_named<R: Wait>(&mut self, rt: &R, alive: bool, name: Name) -> Result<Comp, Halt>
        ensures { IsCall Reply.Made (Op.Create alive (Some name)) self.old self.new result }
    {
        self.make(rt, alive, Some(name))
    }

    /// Starts a run on a component (ES 201 873-1, the start test component operation).
    pub fn start<R: Wait>(&mut self, rt: &R, comp: Comp, run: Run, args: &Args) -> Result<(), Halt>
        ensures { IsCall (λ _. Reply.Ok) (Op.Start comp run args.now) self.old self.new result }
    {
        let args = args.copy();
        self.give(rt, Op::Start { comp, run, args })
    }

    /// Stops a component, or all parallel ones (ES 201 873-1, the stop test component operation).
    pub fn stop<R: Wait>(&mut self, rt: &R, group: Group) -> Result<(), Halt>
        ensures { IsCall (λ _. Reply.Ok) (Op.Stop group) self.old self.new result }
    {
        self.give(rt, Op::Stop(group))
    }

    /// Kills a component, or all parallel ones (ES 201 873-1, the kill test component operation).
    pub fn kill<R: Wait>(&mut self, rt: &R, group: Group) -> Result<(), Halt>
        ensures { IsCall (λ _. Reply.Ok) (Op.Kill group) self.old self.new result }
    {
        self.give(rt, Op::Kill(group))
    }

    /// Ends the test case with the verdict error (ES 201 873-1, the test case stop operation), as an end of the main
    /// component does: all components are killed, and the caller's local verdict is error.
    pub fn stop_case<R: Wait>(&mut self, rt: &R) -> Result<(), Halt>
        ensures { IsCall (λ _. Reply.Ok) Op.StopCase self.old self.new result }
    {
        self.give(rt, Op::StopCase)
    }

    /// Whether components are running (ES 201 873-1, the running operation).
    pub fn running<R: Wait>(&mut self, rt: &R, target: Target) -> Result<bool, Halt>
        ensures { IsCall Reply.Answer (Op.Running target) self.old self.new result }
    {
        self.ask(rt, Op::Running(target))
    }

    /// Whether components are alive (ES 201 873-1, the alive operation).
    pub fn alive<R: Wait>(&mut self, rt: &R, target: Target) -> Result<bool, Halt>
        ensures { IsCall Reply.Answer (Op.Alive target) self.old self.new result }
    {
        self.ask(rt, Op::Alive(target))
    }

    /// Whether components are done (ES 201 873-1, the done operation as a boolean).
    pub fn done<R: Wait>(&mut self, rt: &R, target: Target) -> Result<bool, Halt>
        ensures { IsCall Reply.Answer (Op.Done target) self.old self.new result }
    {
        self.ask(rt, Op::Done(target))
    }

    /// Whether components are killed (ES 201 873-1, the killed operation as a boolean).
    pub fn killed<R: Wait>(&mut self, rt: &R, target: Target) -> Result<bool, Halt>
        ensures { IsCall Reply.Answer (Op.Killed target) self.old self.new result }
    {
        self.ask(rt, Op::Killed(target))
    }

    /// Makes the caller's local verdict no better than this (ES 201 873-1, verdict operations): one step on the word of the
    /// run, without the lock.
    pub fn set_verdict(&mut self, value: UserVerdict) -> Result<(), Halt>
        ensures { IsCall (λ _. Reply.Ok) (Op.SetVerdict value) self.old self.new result }
    {
        if self.log.is_ended() {
            return Err(Halt::Ended);
        }
        if self.log.make_room(3).is_err() {
            return Err(Halt::NoMemory);
        }
        match heard(self.log.set_verdict(value))? {
            Reply::Ok => Ok(()),
            _ => unreachable!(),
        }
    }

    /// The caller's local verdict (ES 201 873-1, verdict operations): one step on the word of the run, without the lock.
    pub fn get_verdict(&mut self) -> Result<Verdict, Halt>
        ensures { IsCall Reply.Local Op.GetVerdict self.old self.new result }
    {
        if self.log.is_ended() {
            return Err(Halt::Ended);
        }
        if self.log.make_room(3).is_err() {
            return Err(Halt::NoMemory);
        }
        match heard(self.log.get_verdict())? {
            Reply::Local(verdict) => Ok(verdict),
            _ => unreachable!(),
        }
    }

    /// Waits until components are done (ES 201 873-1, the done operation).
    pub fn wait_done<R: Wait>(&mut self, rt: &R, target: Target) -> Result<(), Halt>
        ensures { IsWait false target self.old self.new result }
    {
        self.wait(rt, false, target)
    }

    /// Waits until components are killed (ES 201 873-1, the killed operation).
    pub fn wait_killed<R: Wait>(&mut self, rt: &R, target: Target) -> Result<(), Halt>
        ensures { IsWait true target self.old self.new result }
    {
        self.wait(rt, true, target)
    }

    /// Records a Wait, and if that is parked a Wake.
    fn wait<R: Wait>(&mut self, rt: &R, killed: bool, target: Target) -> Result<(), Halt>
        ensures { IsWait killed target self.old self.new result }
    {
        if self.log.is_ended() {
            return Err(Halt::Ended);
        }
        let wait = Op::Wait { killed, target };
        let Ok(mut reply) = self.shared.record(rt, wait, &mut self.log) else {
            return Err(Halt::NoMemory);
        };
        if matches!(reply, Reply::Parked) {
            reply = self.shared.wake(rt, killed, target, &mut self.log);
        }
        match heard(reply)? {
            Reply::Matched => Ok(()),
            _ => unreachable!(),
        }
    }

    /// Leaves the case, with a Finish if the run has not ended.
    pub fn leave<R: Wait>(self, rt: &R) -> Left
        ensures run { result.run ≡ self.run }
        ensures started { result.started ≡ Some (self.me, self.args) }
        ensures ended { has_ended self ≡ true → result.log ≡ self.log }
        ensures finished { has_ended self ≡ false → (r : Reply)
            × (result.log ≡ (with_own_entry self Op.Finish r).log) × ((is_ok r || is_ended r || is_fault r) ≡ true) }
    {
        let Pass { shared, mut log } = self;
        let (_, given_up) = shared.leave(rt, &mut log);
        Left::new(given_up, log)
    }
}

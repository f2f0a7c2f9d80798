//! The calls of a case's runs on the book under its lock. Each that can change what others wait for gives whom to wake.
ghost use Rattle.std.specs.Prelude.{◌≡◌, ◌≢◌, ◌||◌, true, false, IfOk, OnOk, OnErr, IfErr, IfSome, IfNone, OnSome, IsFalse, Some, None, [], is_none};
ghost use Rattle.tc_rules.specs.Prelude.{is_ended, is_fault, is_ok, is_verdict_call};
ghost use Rattle.tc_board.specs.{Prelude.answered, declared.answer.Answer.TheVariants.Met};
ghost use Rattle.tc_rules.specs.History as history;
ghost use Rattle.tc_book.specs.{Inside.{IsAwaitedIn, Replies.suits, StaysParked}, OpenCase.{NobodyWakes, open_past, places_after, places_at, with_entry, without_leave, without_wake}};
ghost use Rattle.tc_book.specs.OpenCase as cases;

pub(crate) mod log;

use crate::book::Book;
use crate::conditions::WakeUp;
use crate::run_hand::RunHand;
use tc_entry::{Args, Comp, Op, Reply, Target};
use tc_verdict::{NoMemory, Run};

/// What a run was started with. Only the book that started it makes one, and the opening that of run 0.
#[derive(Drop)]
pub(crate) struct Started {
    run: Run,
    comp: Comp,
    args: Args,
}

impl Started {
    /// The start of run 0, on the main component.
    pub(crate) fn at_opening() -> Started
        ensures run { result.run.0 ≡ 0 }
        ensures comp { result.comp.0 ≡ 0 }
        ensures args { result.args ≡ [] }
    {
        Started {
            run: Run(0),
            comp: Comp(0),
            args: Args::new(),
        }
    }
}

/// That a run was never started in a case that is over. Only the book that says so makes one.
#[derive(Drop)]
pub(crate) struct Unstarted {
    run: Run,
}

impl Unstarted {
    /// The run.
    pub(crate) fn run(&self) -> Run
        ensures { result ≡ self.now.run }
    {
        self.run
    }
}

/// That the place for a run's leaving was given up. Only the book that gives it up makes one.
#[derive(Drop)]
pub(crate) struct GivenUp {
    run: Run,
}

impl GivenUp {
    /// The run.
    pub(crate) fn run(&self) -> Run
        ensures { result ≡ self.now.run }
    {
        self.run
    }
}

impl Book {
    /// Adds a call as `call` does, and returns its reply, and whom to wake.
    #[tactic(auto, using(crate::proofs::Keeping::answer_suits))]
    pub(crate) fn make(&mut self, run: Run, op: Op) -> Result<(Reply, WakeUp), NoMemory>
        requires other { is_verdict_call op ≡ false }
        ensures suits { IfOk result (λ r. suits op r.0 ≡ true) }
        ensures silent { IfOk result (λ r. r.1.anyone ≡ false → NobodyWakes self.old self.new) }
        ensures history { IfOk result (λ r. self.new.history ≡ with_entry self.old run op r.0) }
        ensures places { IfOk result (λ r. self.new.places ≡ places_after self.old run r.0) }
        ensures refused { OnErr result (self.new ≡ self.old) }
    {
        let (reply, tells) = self.call(run, op)?;
        Ok((reply, WakeUp::new(tells)))
    }

    /// Adds the Wake of a parked wait as `call_wake` does, and returns its reply, and whom to wake.
    #[tactic(auto, using(crate::proofs::Keeping::answer_suits))]
    pub(crate) fn make_wake(
        &mut self,
        run: Run,
        killed: bool,
        target: Target,
    ) -> Option<(Reply, WakeUp)>
        ensures none { IfNone result (self.new ≡ self.old) }
        ensures asleep { IfNone result (StaysParked self.old run killed target) }
        ensures awake { IfSome result (λ r. r.0 ≢ Reply.Parked) }
        ensures suits { IfSome result (λ r. suits (Op.Wake killed target) r.0 ≡ true) }
        ensures silent { IfSome result (λ r. r.1.anyone ≡ false → NobodyWakes self.old self.new) }
        ensures history { IfSome result (λ r. self.new.history ≡ with_entry self.old run (Op.Wake killed target) r.0) }
        ensures places { OnSome result (self.new.places ≡ without_wake self.old run) }
    {
        let (reply, tells) = self.call_wake(run, killed, target)?;
        Some((reply, WakeUp::new(tells)))
    }

    /// Gives up the place of a run as `leave` does, and returns the reply to its Finish, if it has not ended, and whom to
    /// wake.
    #[tactic(auto, using(crate::proofs::Keeping::answer_finishes))]
    pub(crate) fn make_leave(
        &mut self,
        run: Run,
        ended: bool,
    ) -> Option<(Option<Reply>, WakeUp, GivenUp)>
        ensures none { IfNone result (self.new ≡ self.old) }
        ensures gone { IfNone result (IsFalse (places_at self.old.places run).leave) }
        ensures ended { IfSome result (λ f. is_none f.0 ≡ ended) }
        ensures silent { IfSome result (λ f. f.1.anyone ≡ false → NobodyWakes self.old self.new) }
        ensures given_up { IfSome result (λ f. f.2.run ≡ run) }
        ensures finish { IfSome result (λ f. IfSome f.0 (λ r. (is_ok r || is_ended r || is_fault r) ≡ true)) }
        ensures history { IfSome result (λ f. IfSome f.0 (λ r. self.new.history ≡ with_entry self.old run Op.Finish r)) }
        ensures places { OnSome result (self.new.places ≡ without_leave self.old run) }
    {
        let finish = self.leave(run, ended)?;
        Some((finish, WakeUp::new(finish.is_some()), GivenUp { run }))
    }

    /// Gives up the place of a run that was never started, if it is still kept.
    pub(crate) fn give_up(&mut self, unstarted: Unstarted) -> Option<GivenUp>
        ensures behaviours { self.new.behaviours ≡ self.old.behaviours }
        ensures history { self.new.history ≡ self.old.history }
        ensures given_up { IfSome result (λ g. g.run ≡ unstarted.run) }
        ensures places { OnSome result (self.new.places ≡ without_leave self.old unstarted.run) }
        ensures gone { IfNone result (IsFalse (places_at self.old.places unstarted.run).leave) }
        ensures none { IfNone result (self.new ≡ self.old) }
    {
        let run = unstarted.run();
        self.leave(run, true)?;
        Some(GivenUp { run })
    }

    /// The answer to a wait for a run's start: the start, once its hand has met its word; or that the run was not
    /// started, if the case is over without that. There is none before.
    pub(crate) fn start_or_end(
        &self,
        run: Run,
        hand: &mut RunHand,
    ) -> Option<Result<Started, Unstarted>>
        ensures waits { IfNone result (cases.start_of (open_past self.now) run.0 ≡ None → history.is_over (open_past self.now) ≡ false) }
        ensures unmet { IfNone result (hand.new ≡ hand.old) }
        ensures met { IfSome result (λ s. OnOk s (hand.new ≡ answered hand.old Met)) }
        ensures started { IfSome result (λ s. IfOk s (λ c. IsAwaitedIn self.now run (Some (c.comp, c.args)))) }
        ensures unstarted { IfSome result (λ s. OnErr s (IsAwaitedIn self.now run None)) }
        ensures run { IfSome result (λ s. IfOk s (λ c. c.run ≡ run)) }
        ensures run_unstarted { IfSome result (λ s. IfErr s (λ u. u.run ≡ run)) }
    {
        match self.start_of(run) {
            Some((comp, args)) => {
                if !hand.meet() {
                    return None;
                }
                Some(Ok(Started { run, comp, args }))
            }
            None if self.is_over() => Some(Err(Unstarted { run })),
            None => None,
        }
    }
}

//! The lock and the conditions of a case: each entry but those of verdict calls is added in one hold.
ghost use Rattle.std.specs.{Prelude.{◌≡◌, ◌≢◌, ◌≤◌, ◌<◌, ◌+◌, ◌||◌, true, false, IfOk, OnOk, OnErr, IfErr, IfSome, IfNone, IsTrue, Err, All, is_none}, Sync.Mutex.mutex_guard_value};
ghost use Rattle.tc_rules.specs.Prelude.{IsOneHistory, IsLegal, is_ended, is_fault, is_ok, is_verdict_call};
ghost use Rattle.tc_board.specs.{Prelude.answered, declared.answer.Answer.TheVariants.Met};
ghost use Rattle.tc_book.specs.{Closing.Agrees, Closing.IsMerged, Closing.IsOneEach, Closing.merged, Inside.Waiting.waiting_places, Inside.goes_on, Inside.is_closed, Inside.with_own, OpenCase.AreOthers, OpenCase.places_at, OpenCase.open_past, Inside.Replies.suits, Words.record_at};

use crate::book::Book;
use crate::conditions::Conditions;
use crate::left::Left;
use crate::logged_book::log::Log;
use crate::logged_book::{GivenUp, Started, Unstarted};
use crate::run_hand::RunHand;
use crate::until::{Lack, Until};
use std::alloc::Global;
use std::marker::Model;
use std::sync::{Arc, Mutex, MutexGuard, Wait};
use tc_entry::{Op, Reply, Target};
use tc_rules::{CloseFault, Closed};
use tc_verdict::{NoMemory, Run};

#[derive(Drop)]
struct Held {
    book: Mutex<Book>,
    changed: Conditions,
}

/// A look at the book of a case, which nobody changes meanwhile. Contracts see the book.
#[derive(Drop)]
pub struct Look<'b> {
    book: MutexGuard<'b, Book>,
}

impl<'b> Model for Look<'b> {
    ghost use Rattle.std.specs.Sync.Mutex.{mutex_guard_value};
    ghost use Rattle.tc_book.specs.OpenCase.{OpenCase};

    ghost Value = { OpenCase };

    ghost view = { λ l. mutex_guard_value l.book };
}

impl Look<'_> {
    /// Whether a place in the history is still kept for the leaving of a run: until its behaviour has left, or its ticket
    /// has found the case over.
    pub fn has_place(&self, run: Run) -> bool
        ensures { result ≡ (places_at self.now.places run).leave }
    {
        self.book.has_place(run)
    }

    /// The report of the case, by the book as it is and by what came back. The case continues. If not one of each run
    /// came back, or the word of one does not agree with its log, that is Torn, whatever memory there is.
    pub fn close(&self, alloc: Global, lefts: Vec<Left>) -> Result<Closed, CloseFault>
        ensures whole { IfOk result (λ _. IsMerged self.now lefts.items) }
        ensures torn { IfErr result (λ f. f ≡ CloseFault.Torn → IsMerged self.now lefts.items → ⊥) }
        ensures runs { result ≡ Err CloseFault.NoMemory → IsOneEach self.now.behaviours lefts.items }
        ensures words { result ≡ Err CloseFault.NoMemory
            → All (λ l. Agrees (record_at self.now.words l.run.0) l.log) lefts.items }
        ensures behaviours { IfOk result (λ c. c.behaviours ≡ self.now.behaviours) }
        ensures history { IfOk result (λ c. c.history ≡ merged self.now.history lefts.items) }
        ensures report { IfOk result (λ c. IsOneHistory c) }
    {
        self.book.close(alloc, lefts)
    }
}

/// A shared owner of a case's book.
#[derive(Drop)]
pub struct Shared {
    held: Arc<Held>,
}

impl Shared {
    /// The owner of a book of a case of that many behaviours, at its opening. Each of its runs has a condition to wait on.
    pub(crate) fn new(alloc: Global, book: Book, behaviours: u16) -> Result<Shared, NoMemory>
        requires { book.behaviours ≡ behaviours }
        ensures { IfOk result (λ s. waiting_places s ≡ behaviours) }
    {
        let held = Held {
            book: Mutex::new(book),
            changed: Conditions::new(alloc, behaviours)?,
        };
        Ok(Shared {
            held: Arc::new(alloc, held)?,
        })
    }

    /// Another owner of the same book.
    pub(crate) fn another(&self) -> Result<Shared, NoMemory>
        ensures { IfOk result (λ s. waiting_places s ≡ waiting_places self.now) }
    {
        Ok(Shared {
            held: Arc::try_clone(&self.held)?,
        })
    }

    /// The book, once the run continues that waits for this on its own condition.
    fn wait<R: Wait>(&self, rt: &R, run: Run, until: Until) -> MutexGuard<'_, Book>
        requires { run.0 < waiting_places self.now }
        ensures { IsTrue (goes_on (mutex_guard_value result) run until) }
    {
        let book = self.held.book.lock(rt);
        self.held.changed.of(run).wait(rt, book, until)
    }

    /// Records a call of the log's run in the history and in the log, and wakes each run that can continue by it.
    pub(crate) fn record<R: Wait>(&self, rt: &R, op: Op, log: &mut Log) -> Result<Reply, NoMemory>
        requires other { is_verdict_call op ≡ false }
        requires going_on { is_closed log.old ≡ false }
        ensures started { log.new.started ≡ log.old.started }
        ensures suits { IfOk result (λ r. suits op r ≡ true) }
        ensures entries { IfOk result (λ r. log.new.entries ≡ with_own log.old op r) }
        ensures room { OnOk result (2 ≤ log.new.room) }
        ensures refused { OnErr result (log.new.entries ≡ log.old.entries) }
        ensures refused_room { OnErr result (log.old.room ≤ log.new.room) }
    {
        // The log gets its places and its own copy of the operation outside of the hold, so that no run waits for them.
        log.make_room(3)?;
        let logged = op.copy();
        let mut book = self.held.book.lock(rt);
        let (reply, wake_up) = book.make(log.run(), op)?;
        wake_up.give(&self.held.changed, &book);
        drop(book);
        log.add(logged, reply);
        Ok(reply)
    }

    /// Records the Wake of a parked wait in the first hold in which it is not parked again, in its place in the log.
    pub(crate) fn wake<R: Wait>(&self, rt: &R, killed: bool, target: Target, log: &mut Log) -> Reply
        requires waits { log.old.started.run.0 < waiting_places self.now }
        requires room { 1 ≤ log.old.room }
        ensures started { log.new.started ≡ log.old.started }
        ensures suits { suits (Op.Wake killed target) result ≡ true }
        ensures awake { result ≢ Reply.Parked }
        ensures entries { log.new.entries ≡ with_own log.old (Op.Wake killed target) result }
        ensures room { log.new.room + 1 ≡ log.old.room }
    {
        let mut book = self.wait(rt, log.run(), Until::Wake { killed, target });
        let Some((reply, wake_up)) = book.make_wake(log.run(), killed, target) else {
            self.held
                .changed
                .of(log.run())
                .stay(rt, book, Lack::PlaceForWake);
            unreachable!()
        };
        wake_up.give(&self.held.changed, &book);
        drop(book);
        log.add(Op::Wake { killed, target }, reply);
        reply
    }

    /// Gives up the place of the log's run, and records its Finish if the run has not ended.
    pub(crate) fn leave<R: Wait>(&self, rt: &R, log: &mut Log) -> (Option<Reply>, GivenUp)
        requires waits { log.old.started.run.0 < waiting_places self.now }
        requires room { 1 ≤ log.old.room }
        ensures started { log.new.started ≡ log.old.started }
        ensures none { is_none result.0 ≡ is_closed log.old }
        ensures quiet { IfNone result.0 (log.new ≡ log.old) }
        ensures finish { IfSome result.0 (λ r. (is_ok r || is_ended r || is_fault r) ≡ true) }
        ensures entries { IfSome result.0 (λ r. log.new.entries ≡ with_own log.old Op.Finish r) }
        ensures given_up { result.1.run ≡ log.old.started.run }
    {
        let mut book = self.held.book.lock(rt);
        let Some((finish, wake_up, given_up)) = book.make_leave(log.run(), log.is_ended()) else {
            self.held
                .changed
                .of(log.run())
                .stay(rt, book, Lack::PlaceForLeaving);
            unreachable!()
        };
        wake_up.give(&self.held.changed, &book);
        drop(book);
        if let Some(reply) = finish {
            log.add(Op::Finish, reply);
        }
        (finish, given_up)
    }

    /// Gives up the place of a run that was never started.
    pub(crate) fn give_up<R: Wait>(&self, rt: &R, unstarted: Unstarted) -> GivenUp
        requires { unstarted.run.0 < waiting_places self.now }
        ensures { result.run ≡ unstarted.run }
    {
        let run = unstarted.run();
        let mut book = self.held.book.lock(rt);
        let Some(given_up) = book.give_up(unstarted) else {
            self.held
                .changed
                .of(run)
                .stay(rt, book, Lack::PlaceForLeaving);
            unreachable!()
        };
        given_up
    }

    /// What a run was started with, once it was started and its hand has met its word; or that it was not started, once
    /// the case is over without that.
    pub(crate) fn await_start<R: Wait>(
        &self,
        rt: &R,
        run: Run,
        hand: &mut RunHand,
    ) -> Result<Started, Unstarted>
        requires waits { run.0 < waiting_places self.now }
        ensures met { OnOk result (hand.new ≡ answered hand.old Met) }
        ensures run { IfOk result (λ s. s.run ≡ run) }
        ensures unstarted { IfErr result (λ u. u.run ≡ run) }
    {
        let book = self.wait(rt, run, Until::Start);
        let Some(start) = book.start_or_end(run, hand) else {
            self.held.changed.of(run).stay(rt, book, Lack::Word);
            unreachable!()
        };
        start
    }

    /// A look at the book, which is locked until the look is let go.
    pub fn look<R: Wait>(&self, rt: &R) -> Look<'_>
        ensures legal { IsLegal result.behaviours (open_past result) }
        ensures others { AreOthers (open_past result) }
    {
        let book = self.held.book.lock(rt);
        book.is_legal();
        Look { book }
    }
}

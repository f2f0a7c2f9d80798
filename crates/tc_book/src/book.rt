//! What the lock of a case holds.
ghost use Rattle.std.specs.{Prelude.{◌≡◌, ◌≤◌, ◌≢◌, ◌++◌, ◌∷◌, ℕ, List, [], Some, None, IfOk, OnErr, OnOk, IfSome, IfNone, OnSome, IsTrue, IsFalse, true, false, length, replicate}, Arc.arc_value};
ghost use Rattle.tc_entry.specs.declared.limits.TheConstants.{BEHAVIOURS};
ghost use Rattle.tc_rules.specs.Prelude.{IsLegal, is_verdict_call};
ghost use Rattle.tc_board.specs.Prelude.{new_keeper};
ghost use Rattle.tc_rules.specs.History as history;
ghost use Rattle.tc_book.specs.{Inside.{start_at, opening_place}, OpenCase.{AreOthers, WouldPark, open_past, places_after, places_at, reply_to, with_entry, without_leave, without_wake}, Words.{StayClosed, WordsAgree, record_at}};
ghost use Rattle.tc_book.specs.OpenCase as cases;

mod closing;
mod waking;

use crate::places::{Places, places_of, put};
use crate::starts::{no_starts, note_start, start_of};
use crate::words::Words;
use std::alloc::Global;
use std::marker::Model;
use std::sync::Arc;
use tc_board::{Board, Keeper, Record};
use tc_entry::{Args, Comp, Entry, Op, Reply, Target};
use tc_rules::Table;
use tc_verdict::{NoMemory, Run, UserVerdict};

/// What the lock of a case holds: the component table with its history, what each run was started with, the places kept
/// for each run in the history, and the record of each run's word. The history has no entries of verdict calls.
///
/// Contracts see the number of behaviours, the history, the places and the words.
#[derive(Drop)]
pub struct Book {
    table: Table,
    starts: Vec<Option<(Comp, Args)>>,
    places: Vec<Places>,
    count: usize,
    words: Words,
}

impl Model for Book {
    ghost use Rattle.std.specs.Prelude.{reverse};
    ghost use Rattle.tc_book.specs.{OpenCase.OpenCase, Inside.IsKept};

    ghost Value = { OpenCase };

    ghost view = { λ b. record { behaviours = b.table.behaviours; history = b.table.history; places = b.places.items; words = b.words } };

    ghost invariant = { λ b. IsKept b.table.behaviours (reverse b.table.history) b.starts.items b.places.items b.count b.table.room b.words };
}

/// A table at the opening, with room for the leaving of each run, and for a few calls.
fn table_with_room(alloc: Global, behaviours: u16) -> Result<Table, NoMemory>
    requires some { 1 ≤ behaviours }
    requires few { behaviours ≤ BEHAVIOURS }
    ensures behaviours { IfOk result (λ t. t.behaviours ≡ behaviours) }
    ensures opening { IfOk result (λ t. t.history ≡ []) }
    ensures room { IfOk result (λ t. behaviours ≤ t.room) }
{
    let mut table = Table::new(alloc, behaviours)?;
    table.make_room(usize::from(behaviours) + 8)?;
    Ok(table)
}

/// A place for the leaving of each run.
fn opening_places(alloc: Global, behaviours: u16) -> Result<Vec<Places>, NoMemory>
    ensures { IfOk result (λ v. v.items ≡ replicate behaviours opening_place) }
{
    let opening = Places {
        leave: true,
        wake: false,
    };
    Ok(vec![in alloc; opening; usize::from(behaviours)]?)
}

type Opening = (Table, Vec<Option<(Comp, Args)>>, Vec<Places>);

/// What a book keeps at its opening, except for the words.
fn at_opening(alloc: Global, behaviours: u16) -> Result<Opening, NoMemory>
    requires some { 1 ≤ behaviours }
    requires few { behaviours ≤ BEHAVIOURS }
    ensures behaviours { IfOk result (λ o. o.0.behaviours ≡ behaviours) }
    ensures opening { IfOk result (λ o. o.0.history ≡ []) }
    ensures room { IfOk result (λ o. behaviours ≤ o.0.room) }
    ensures as_many { IfOk result (λ o. length o.1.items ≡ behaviours) }
    ensures starts { IfOk result (λ o. (b : ℕ) → start_at o.1.items b ≡ None) }
    ensures places { IfOk result (λ o. o.2.items ≡ replicate behaviours opening_place) }
{
    let places = opening_places(alloc, behaviours)?;
    let starts = no_starts(alloc, behaviours)?;
    let table = table_with_room(alloc, behaviours)?;
    Ok((table, starts, places))
}

/// The newest entry of a table that has one.
fn newest(table: &Table) -> &Entry
    requires { 1 ≤ length table.now.history }
    ensures { (h : List Entry) (e : Entry) → table.now.history ≡ h ++ e ∷ [] → result.now ≡ e }
{
    let history = table.history();
    &history[history.len() - 1]
}

#[tactic(auto, using(crate::proofs::Keeping::book_rules))]
impl Book {
    /// The book of a case at its opening, which keeps a place for each run and the words of a new board.
    pub fn new(
        alloc: Global,
        behaviours: u16,
        keeper: Keeper,
        board: Arc<Board>,
    ) -> Result<Book, NoMemory>
        requires some { 1 ≤ behaviours }
        requires few { behaviours ≤ BEHAVIOURS }
        requires keeper { keeper ≡ new_keeper (arc_value board) behaviours }
        ensures behaviours { IfOk result (λ b. b.behaviours ≡ behaviours) }
        ensures opening { IfOk result (λ b. b.history ≡ []) }
        // Each run has a place for its leaving.
        ensures places { IfOk result (λ b. b.places
            ≡ replicate behaviours (record { leave = true; wake = false })) }
    {
        let words = Words::new(alloc, behaviours, keeper, board)?;
        let (table, starts, places) = at_opening(alloc, behaviours)?;
        Ok(Book {
            table,
            starts,
            places,
            count: usize::from(behaviours),
            words,
        })
    }

    /// Adds a call to the history, and returns its reply. The word of a run that it starts is begun, and those of the
    /// runs that it halts are closed.
    pub fn record(&mut self, run: Run, op: Op) -> Result<Reply, NoMemory>
        requires other { is_verdict_call op ≡ false }
        ensures behaviours { self.new.behaviours ≡ self.old.behaviours }
        ensures reply { IfOk result (λ r. r ≡ reply_to self.old run op) }
        ensures history { IfOk result (λ r. self.new.history ≡ with_entry self.old run op r) }
        ensures places { IfOk result (λ r. self.new.places ≡ places_after self.old run r) }
        ensures closed { OnOk result (StayClosed self.old.words self.new.words) }
        ensures refused { OnErr result (self.new ≡ self.old) }
    {
        self.table.make_room(self.count + 2)?;
        let carried = self.words.carried_to(&self.table, &op);
        let reply = self.table.play(run, op)?;
        self.words.follow(&self.table, carried);
        note_start(&mut self.starts, &newest(&self.table).op, reply);
        if matches!(reply, Reply::Parked) {
            let now = Places {
                leave: places_of(&self.places, run).leave,
                wake: true,
            };
            self.count = put(&mut self.places, self.count, run, now);
        }
        Ok(reply)
    }

    /// Adds the Wake of a parked wait, unless it would be parked again or no place is kept for it.
    pub fn wake(&mut self, run: Run, killed: bool, target: Target) -> Option<Reply>
        ensures behaviours { self.new.behaviours ≡ self.old.behaviours }
        ensures none { IfNone result (self.new ≡ self.old) }
        ensures asleep { IfNone result ((places_at self.old.places run).wake ≡ true → WouldPark self.old run killed target) }
        ensures kept { OnSome result (IsTrue (places_at self.old.places run).wake) }
        ensures awake { IfSome result (λ r. r ≢ Reply.Parked) }
        ensures reply { IfSome result (λ r. r ≡ reply_to self.old run (Op.Wake killed target)) }
        ensures history { IfSome result (λ r. self.new.history ≡ with_entry self.old run (Op.Wake killed target) r) }
        ensures places { OnSome result (self.new.places ≡ without_wake self.old run) }
        ensures closed { OnSome result (StayClosed self.old.words self.new.words) }
    {
        let was = places_of(&self.places, run);
        let op = Op::Wake { killed, target };
        if !was.wake || matches!(self.table.would(run, &op), Reply::Parked) {
            return None;
        }
        let Ok(reply) = self.table.play(run, op) else {
            unreachable!()
        };
        self.words.follow(&self.table, UserVerdict::None);
        let now = Places {
            leave: was.leave,
            wake: false,
        };
        self.count = put(&mut self.places, self.count, run, now);
        Some(reply)
    }

    /// Gives up a run's place for its leaving, and adds its Finish if its pass has not ended.
    pub fn leave(&mut self, run: Run, ended: bool) -> Option<Option<Reply>>
        ensures behaviours { self.new.behaviours ≡ self.old.behaviours }
        ensures none { IfNone result (self.new ≡ self.old) }
        ensures gone { IfNone result (IsFalse (places_at self.old.places run).leave) }
        ensures kept { OnSome result (IsTrue (places_at self.old.places run).leave) }
        ensures places { OnSome result (self.new.places ≡ without_leave self.old run) }
        ensures quiet { IfSome result (λ f. IfNone f (IsTrue ended × (self.new.history ≡ self.old.history))) }
        ensures finish { IfSome result (λ f. IfSome f (λ _. IsFalse ended)) }
        ensures reply { IfSome result (λ f. IfSome f (λ r. r ≡ reply_to self.old run Op.Finish)) }
        ensures history { IfSome result (λ f. IfSome f (λ r. self.new.history ≡ with_entry self.old run Op.Finish r)) }
        ensures closed { OnSome result (StayClosed self.old.words self.new.words) }
    {
        let was = places_of(&self.places, run);
        if !was.leave {
            return None;
        }
        let reply = if ended {
            None
        } else {
            let Ok(reply) = self.table.play(run, Op::Finish) else {
                unreachable!()
            };
            self.words.follow(&self.table, UserVerdict::None);
            Some(reply)
        };
        let now = Places {
            leave: false,
            wake: was.wake,
        };
        self.count = put(&mut self.places, self.count, run, now);
        Some(reply)
    }

    /// The newest entry of a book that has one.
    pub(crate) fn newest(&self) -> &Entry
        requires { 1 ≤ length self.now.history }
        ensures { (h : List Entry) (e : Entry) → self.now.history ≡ h ++ e ∷ [] → result.now ≡ e }
    {
        newest(&self.table)
    }

    /// Whether a place is still kept for the leaving of a run.
    pub(crate) fn has_place(&self, run: Run) -> bool
        ensures { result ≡ (places_at self.now.places run).leave }
    {
        places_of(&self.places, run).leave
    }

    /// The component and the arguments with which a run was started.
    pub fn start_of(&self, run: Run) -> Option<(Comp, Args)>
        ensures start { result ≡ cases.start_of (open_past self.now) run.0 }
        ensures legal { IsLegal self.now.behaviours (open_past self.now) }
    {
        start_of(&self.starts, run)
    }

    /// What was done with the word of a run.
    pub fn word_of(&self, run: Run) -> Record
        ensures word { result ≡ record_at self.now.words run.0 }
        ensures agreeing { WordsAgree self.now.behaviours (open_past self.now) self.now.words }
        ensures others { AreOthers (open_past self.now) }
    {
        self.words.record_of(run)
    }

    /// Does nothing. Every book is so.
    pub(crate) fn is_legal(&self)
        ensures legal { IsLegal self.now.behaviours (open_past self.now) }
        ensures others { AreOthers (open_past self.now) }
    {
        // A field is read, so that the proof has what every book keeps.
        let _ = &self.count;
    }

    /// The reply that a call would be given now.
    pub(crate) fn would(&self, run: Run, op: &Op) -> Reply
        ensures { result ≡ reply_to self.now run op.now }
    {
        self.table.would(run, op)
    }

    /// Whether the case is over.
    pub(crate) fn is_over(&self) -> bool
        ensures { result ≡ history.is_over (open_past self.now) }
    {
        self.table.is_over()
    }
}

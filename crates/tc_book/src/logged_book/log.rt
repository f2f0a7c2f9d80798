//! The log of a started run.
ghost use Rattle.std.specs.{Prelude.{◌≡◌, ◌<◌, ◌≤◌, ◌+◌, ◌++◌, ◌∷◌, [], true, false, OnErr, OnOk}, Vec.{vec_len, vec_capacity}};
ghost use Rattle.tc_board.specs.declared.answer.Answer.TheVariants.{Met};
ghost use Rattle.tc_rules.specs.Prelude.{is_verdict_call};
ghost use Rattle.tc_book.specs.{Hands.IsHandOf, Inside.{is_closed, with_own, ended_by, Replies.suits}};

use crate::logged_book::Started;
use crate::run_hand::RunHand;
use std::marker::Model;
use tc_board::Hand;
use tc_entry::{Args, Comp, Entry, Op, Reply};
use tc_rules::ends_pass;
use tc_verdict::{NoMemory, Run, UserVerdict};

/// The log of a started run with the run's hand, and whether one of its entries has ended it. The hand's answers are those of
/// the log's verdict entries.
#[derive(Drop)]
pub(crate) struct Log {
    started: Started,
    entries: Vec<Entry>,
    ended: bool,
    hand: RunHand,
}

impl Model for Log {
    ghost use Rattle.std.specs.{Prelude.{◌≡◌, ◌-◌}, Vec.{vec_len, vec_capacity}};
    ghost use Rattle.tc_book.specs.{Inside.{ended_by, LogState}, Hands.IsHandOf};

    ghost Value = { LogState };

    ghost view = { λ l. record { started = l.started; entries = l.entries.items; room = vec_capacity l.entries - vec_len l.entries } };

    ghost invariant = { λ l. (l.ended ≡ ended_by l.started.comp l.entries.items) × IsHandOf l.hand l.started.run.0 l.entries.items };
}

/// Adds an entry in its place to those of a run on component own, and returns whether one of them has ended the run.
fn add_to(entries: &mut Vec<Entry>, own: Comp, ended: bool, entry: Entry) -> bool
    requires ended { ended ≡ ended_by own entries.old.items }
    requires room { vec_len entries.old < vec_capacity entries.old }
    ensures items { entries.new.items ≡ entries.old.items ++ entry ∷ [] }
    ensures ended { result ≡ ended_by own entries.new.items }
    ensures capacity { vec_capacity entries.new ≡ vec_capacity entries.old }
{
    let ended = ended || ends_pass(own, &entry);
    entries.push_reserved(entry);
    ended
}

#[tactic(auto, using(crate::proofs::Handed::hand_rules))]
impl Log {
    /// The log of a run that was started so, with these places and no entry, and with the run's hand, which has met its word.
    pub(crate) fn new(started: Started, places: Vec<Entry>, hand: RunHand) -> Log
        requires of_run { hand.run ≡ started.run.0 }
        requires met { hand.answers ≡ Met ∷ [] }
        requires empty { places.items ≡ [] }
        requires room { vec_len places < vec_capacity places }
        ensures started { result.started ≡ started }
        ensures entries { result.entries ≡ [] }
        ensures room { 1 ≤ result.room }
    {
        Log {
            started,
            entries: places,
            ended: false,
            hand,
        }
    }

    pub(crate) fn run(&self) -> Run
        ensures { result ≡ self.now.started.run }
    {
        self.started.run
    }

    /// The component that the run was started on.
    pub(crate) fn own(&self) -> Comp
        ensures { result ≡ self.now.started.comp }
    {
        self.started.comp
    }

    /// The arguments that the run was started with.
    pub(crate) fn args(&self) -> &[Comp]
        ensures { result.now ≡ self.now.started.args }
    {
        self.started.args.as_slice()
    }

    pub(crate) fn entries(&self) -> &[Entry]
        ensures { result.now ≡ self.now.entries }
    {
        &self.entries
    }

    /// The run's hand on the verdict board.
    pub(crate) fn hand(&self) -> &Hand
        ensures { IsHandOf result.now self.now.started.run.0 self.now.entries }
    {
        self.hand.hand()
    }

    pub(crate) fn is_ended(&self) -> bool
        ensures { result ≡ is_closed self.now }
    {
        self.ended
    }

    /// Makes the places for that many more entries.
    pub(crate) fn make_room(&mut self, more: usize) -> Result<(), NoMemory>
        ensures started { self.new.started ≡ self.old.started }
        ensures entries { self.new.entries ≡ self.old.entries }
        ensures room { OnOk result (more ≤ self.new.room) }
        ensures no_less { self.old.room ≤ self.new.room }
        ensures refused { OnErr result (self.new ≡ self.old) }
    {
        self.entries.reserve(more)?;
        Ok(())
    }

    /// Adds an entry of the run in its place, which is none of a verdict call.
    pub(crate) fn add(&mut self, op: Op, reply: Reply)
        requires other { is_verdict_call op ≡ false }
        requires room { 1 ≤ self.old.room }
        ensures started { self.new.started ≡ self.old.started }
        ensures entries { self.new.entries ≡ with_own self.old op reply }
        ensures room { self.new.room + 1 ≡ self.old.room }
    {
        let entry = Entry {
            caller: self.started.run,
            op,
            reply,
        };
        self.ended = add_to(&mut self.entries, self.started.comp, self.ended, entry);
    }

    /// Sets a verdict by one step of the run's hand, adds the entry in its place, and returns its reply.
    pub(crate) fn set_verdict(&mut self, value: UserVerdict) -> Reply
        requires room { 1 ≤ self.old.room }
        ensures started { self.new.started ≡ self.old.started }
        ensures suits { suits (Op.SetVerdict value) result ≡ true }
        ensures entries { self.new.entries ≡ with_own self.old (Op.SetVerdict value) result }
        ensures room { self.new.room + 1 ≡ self.old.room }
    {
        let reply = self.hand.set(value);
        let entry = Entry {
            caller: self.started.run,
            op: Op::SetVerdict(value),
            reply,
        };
        self.ended = add_to(&mut self.entries, self.started.comp, self.ended, entry);
        reply
    }

    /// Gets the verdict by one step of the run's hand, adds the entry in its place, and returns its reply.
    pub(crate) fn get_verdict(&mut self) -> Reply
        requires room { 1 ≤ self.old.room }
        ensures started { self.new.started ≡ self.old.started }
        ensures suits { suits Op.GetVerdict result ≡ true }
        ensures entries { self.new.entries ≡ with_own self.old Op.GetVerdict result }
        ensures room { self.new.room + 1 ≡ self.old.room }
    {
        let reply = self.hand.get();
        let entry = Entry {
            caller: self.started.run,
            op: Op::GetVerdict,
            reply,
        };
        self.ended = add_to(&mut self.entries, self.started.comp, self.ended, entry);
        reply
    }

    /// The entries, and what the run was started with.
    pub(crate) fn into_parts(self) -> (Vec<Entry>, Comp, Args)
        ensures { (result.0.items ≡ self.entries) × (result.1 ≡ self.started.comp) × (result.2 ≡ self.started.args) }
    {
        let Log {
            started,
            entries,
            hand: _,
            ..
        } = self;
        let Started { comp, args, .. } = started;
        (entries, comp, args)
    }
}

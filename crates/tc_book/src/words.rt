//! The keeper of a board, next to the component table of its case.
ghost use Rattle.std.specs.{Prelude.{◌≡◌, ◌<◌, ◌≤◌, ◌+◌, [], IfOk, true, drop, set, length}, Arc.arc_value};
ghost use Rattle.tc_rules.specs.Prelude.{past_of};
ghost use Rattle.tc_board.specs.{Prelude.new_keeper, declared.record.Record.TheVariants.{Unbegun, Open as IsOpen, Closed as IsClosed}};
ghost use Rattle.tc_rules.specs.Laws as laws;
ghost use Rattle.tc_book.specs.{Inside.Words.CanBegin, Inside.Words.WordsLag, Inside.Words.opening, Inside.Words.with_start, Words.StayClosed, Words.WordsAgree};
ghost use Rattle.tc_book.specs.Words as rules;
ghost use Rattle.tc_book.specs.Inside.Words as inside;

use std::alloc::Global;
use std::marker::Model;
use std::sync::Arc;
use tc_board::{Board, Keeper, Record};
use tc_entry::{Op, Reply};
use tc_rules::{Table, is_halting};
use tc_verdict::{NoMemory, Run, UserVerdict};

/// The keeper of a board, an owner of the board, and what was done with the word of each run. Contracts see the last.
#[derive(Drop)]
pub struct Words {
    keeper: Keeper,
    board: Arc<Board>,
    records: Vec<Record>,
}

impl Model for Words {
    ghost use Rattle.std.specs.{Prelude.{◌≡◌, List}, Arc.arc_value};
    ghost use Rattle.tc_board.specs.declared.record.Record.{Record};

    ghost Value = { List Record };

    ghost view = { λ w. w.records.items };

    ghost invariant = { λ w. (w.keeper.board ≡ arc_value w.board) × (w.keeper.records ≡ w.records.items) };
}

fn is_open(word: Record) -> bool
    ensures { result ≡ inside.is_open word }
{
    matches!(word, Record::Open(_))
}

fn opening_of(word: Record) -> UserVerdict
    ensures { result ≡ opening word }
{
    match word {
        Record::Open(carried) => carried,
        Record::Closed(carried, _) => carried,
        Record::Unbegun => UserVerdict::None,
    }
}

fn closing(word: Record) -> Option<UserVerdict>
    ensures { result ≡ rules.closing word }
{
    match word {
        Record::Closed(_, counted) => Some(counted),
        _ => None,
    }
}

/// Whether an entry of this operation and reply may halt a run.
fn may_halt(op: &Op, reply: Reply) -> bool
    ensures { result ≡ laws.may_halt op.now reply }
{
    is_halting(op) || reply.is_fault()
}

#[tactic(auto, using(crate::proofs::Opened::word_rules))]
impl Words {
    /// The words of a new board, as its case is opened.
    pub fn new(
        alloc: Global,
        behaviours: u16,
        keeper: Keeper,
        board: Arc<Board>,
    ) -> Result<Words, NoMemory>
        requires some { 1 ≤ behaviours }
        requires keeper { keeper ≡ new_keeper (arc_value board) behaviours }
        ensures { IfOk result (λ w. WordsAgree behaviours [] w) }
    {
        let mut records = vec![in alloc; Record::Unbegun; usize::from(behaviours)]?;
        records[0] = Record::Open(UserVerdict::None);
        Ok(Words {
            keeper,
            board,
            records,
        })
    }

    /// What was done with the word of a run.
    pub fn record_of(&self, run: Run) -> Record
        ensures { result ≡ rules.record_at self.now run.0 }
    {
        self.records
            .get(usize::from(run.0))
            .copied()
            .unwrap_or(Record::Unbegun)
    }

    /// What the component carries on which a call would start a run, to be asked before the table plays the call. It is
    /// what the close of the word of the last run on it gave, and none if there is no such run or the call is no Start.
    pub fn carried_to(&self, table: &Table, op: &Op) -> UserVerdict
        ensures { result ≡ inside.carried_to self.now (past_of table.now) op.now }
    {
        match op {
            Op::Start { comp, .. } => self.left_by(table.last_run(*comp)),
            _ => UserVerdict::None,
        }
    }

    /// Brings the words up to the newest entry of the table. Begins the word of the run that it starts with what the
    /// run's component carried, and closes the word of each run that it halts. It takes no memory.
    pub fn follow(&mut self, table: &Table, carried: UserVerdict)
        requires agreeing { WordsAgree table.now.behaviours (drop 1 (past_of table.now)) self.old }
        requires carried { carried ≡ inside.carried_to_newest self.old (past_of table.now) }
        ensures agreeing { WordsAgree table.now.behaviours (past_of table.now) self.new }
        ensures closed { StayClosed self.old self.new }
    {
        if let Some((entry, _)) = table.history().split_last() {
            self.begin_started(&entry.op, entry.reply, carried);
            if may_halt(&entry.op, entry.reply) {
                self.settle(table);
            }
        }
    }

    /// What the close of a run's word gave.
    fn left_by(&self, last: Option<Run>) -> UserVerdict
        ensures { result ≡ inside.left_by self.now last }
    {
        match last {
            Some(run) => closing(self.record_of(run)).unwrap_or(UserVerdict::None),
            None => UserVerdict::None,
        }
    }

    /// Begins the word of a run.
    fn begin(&mut self, run: Run, carried: UserVerdict)
        requires within { run.0 < length self.old }
        requires unbegun { rules.record_at self.old run.0 ≡ Unbegun }
        ensures { self.new ≡ set self.old run.0 (IsOpen carried) }
    {
        self.keeper.begin(&self.board, run, carried);
        self.records[usize::from(run.0)] = Record::Open(carried);
    }

    /// Closes the word of a run, and keeps what the close gave.
    fn close(&mut self, run: Run) -> UserVerdict
        requires within { run.0 < length self.old }
        requires open { inside.is_open (rules.record_at self.old run.0) ≡ true }
        ensures { self.new ≡ set self.old run.0 (IsClosed (opening (rules.record_at self.old run.0)) result) }
    {
        let carried = opening_of(self.record_of(run));
        let counted = self.keeper.close(&self.board, run);
        self.records[usize::from(run.0)] = Record::Closed(carried, counted);
        counted
    }

    /// Begins the word of the run that a call starts.
    fn begin_started(&mut self, op: &Op, reply: Reply, carried: UserVerdict)
        requires { CanBegin op.now reply self.old }
        ensures { self.new ≡ with_start op.now reply carried self.old }
    {
        if let (Op::Start { run, .. }, Reply::Ok) = (op, reply) {
            self.begin(*run, carried);
        }
    }

    /// Closes the word of a run that no longer continues.
    fn settle_one(&mut self, table: &Table, b: u16)
        requires within { b < table.now.behaviours }
        requires lagging { WordsLag table.now.behaviours (past_of table.now) self.old b }
        ensures lagging { WordsLag table.now.behaviours (past_of table.now) self.new (b + 1) }
        ensures closed { StayClosed self.old self.new }
    {
        let run = Run(b);
        if is_open(self.record_of(run)) && !table.is_active(run) {
            self.close(run);
        }
    }

    /// Closes the word of each run that no longer continues.
    fn settle(&mut self, table: &Table)
        requires lagging { WordsLag table.now.behaviours (past_of table.now) self.old 0 }
        ensures agreeing { WordsAgree table.now.behaviours (past_of table.now) self.new }
        ensures closed { StayClosed self.old self.new }
    {
        for b in 0..table.behaviours() {
            self.settle_one(table, b);
        }
    }
}

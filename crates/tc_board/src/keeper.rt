//! The keeper, which opens and closes the words.
ghost use Rattle.std.specs.Prelude.{◌≡◌, ◌++◌, ◌∷◌, [], Contains, slice_get};
ghost use Rattle.tc_entry.specs.Prelude.{given};
ghost use Rattle.tc_board.specs.declared.record.Record.{Record, TheVariants.Closed as IsClosed, TheVariants.Open as IsBegun, TheVariants.Unbegun};

use crate::board::Board;
use crate::hand::Hand;
use crate::rule::{BoardSeat, CLOSED};
use crate::steps::{Close, Look, Open, TakeBack};
use std::marker::Model;
use tc_verdict::{Run, UserVerdict, of_rank, rank};

/// The keeper opens and closes the words, and takes back hands. To a contract it is its board, what it did with each
/// word, and the answers of the hands that it took back.
#[derive(Drop)]
pub struct Keeper {
    pub(crate) seat: BoardSeat,
}

impl Model for Keeper {
    ghost use Rattle.std.specs.Prelude.{◌≡◌, length};
    ghost use Rattle.tc_board.specs.{Keeper.KeeperView, Inside.Steps.IsKeeper};

    ghost Value = { KeeperView };

    ghost view = { λ k. record { board = k.seat.table_id; records = k.seat.me.0.records; gathered = k.seat.me.0.lists } };

    ghost invariant = { λ k. IsKeeper k.seat.me × (length k.seat.me.0.records ≡ k.seat.table_id.words) };
}

impl Keeper {
    ghost use Rattle.tc_board.specs.{Answers.worst_answer, declared.answer.AnswerList.AnswerList, Rule.AnswersAgree, Keeper.{IsOpen, carried_by, recorded}};

    /// Opens the word of a run, with the verdict that its component carries.
    pub fn begin(&mut self, board: &Board, run: Run, carried: UserVerdict)
        requires board { self.old.board ≡ board.now }
        requires unbegun { slice_get self.old.records run.0 ≡ Some Unbegun }
        ensures { self.new ≡ recorded self.old run.0 (IsBegun carried) }
    {
        let word = run.0 as usize;
        board
            .table
            .shared
            .store::<Open>(&mut self.seat, word, rank(carried));
    }

    /// Closes the word of a run: no setting is taken from now on. It gives the worst of the carried verdict and of
    /// exactly the settings that were taken; of a hand that is still out this is known once it is gathered.
    pub fn close(&mut self, board: &Board, run: Run) -> UserVerdict
        requires board { self.old.board ≡ board.now }
        requires open { IsOpen self.old.records run.0 }
        ensures closes { self.new ≡ recorded self.old run.0 (IsClosed (carried_by self.old.records run.0) result) }
        // By each list of answers of the run that was taken back.
        ensures counts { (list : AnswerList) → Contains self.old.gathered list → list.run ≡ run.0
            → given result ≡ worst_answer (carried_by self.old.records run.0) list.answers }
    {
        let word = run.0 as usize;
        let found = board
            .table
            .shared
            .fetch_or::<Close>(&mut self.seat, word, CLOSED);
        let Some(counted) = of_rank(found) else {
            unreachable!()
        };
        counted
    }

    /// Takes back a hand. Its answers agree with what the keeper did with its word.
    pub fn gather(&mut self, board: &Board, hand: Hand)
        requires board { self.old.board ≡ board.now }
        requires hand { hand.board ≡ board.now }
        ensures list { self.new ≡ record self.old {
          gathered = self.old.gathered ++ record { run = hand.run; answers = hand.answers } ∷ [];
        } }
        ensures agrees { (r : Record) × (slice_get self.old.records hand.run ≡ Some r) × AnswersAgree r hand.answers }
    {
        let Hand { run, seat } = hand;
        let word = run.0 as usize;
        let shared = &board.table.shared;
        shared.join_seat::<TakeBack>(&mut self.seat, seat);
        shared.load::<Look>(&mut self.seat, word);
    }
}

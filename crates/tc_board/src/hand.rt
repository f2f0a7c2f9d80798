//! The hand of a run, which sets and gets its verdict.
ghost use Rattle.std.specs.{Prelude.{◌≡◌, ◌≢◌, [], true, MatchBool}, Option.option_map_or};
ghost use Rattle.tc_board.specs.declared.answer.Answer.TheVariants.{Found, Met, Shut};

use crate::board::Board;
use crate::rule::{BoardSeat, CLOSED, UNBEGUN};
use crate::steps::{Get, Meet, Set};
use std::marker::Model;
use tc_verdict::{Run, UserVerdict, of_rank, rank};

/// What a setting is answered.
#[derive(Clone, Copy, PartialEq, Eq, Debug)]
pub enum Said {
    /// It counts.
    Taken,
    /// The word was closed, and the setting does not count.
    Closed,
}

/// The hand of a behaviour, which sets and gets its verdict. To a contract it is its board, its run, and the answers
/// that it had.
#[derive(Drop)]
pub struct Hand {
    pub(crate) run: Run,
    pub(crate) seat: BoardSeat,
}

impl Model for Hand {
    ghost use Rattle.std.specs.Prelude.{◌≡◌, ◌<◌, []};
    ghost use Rattle.tc_board.specs.{Hand.HandView, Inside.Seats.{hand_view, answers_of}};

    ghost Value = { HandView };

    ghost view = { λ h. record { board = h.seat.table_id; run = h.run.0; answers = answers_of h.seat.me.0.lists } };

    ghost invariant = { λ h. (h.seat.me ≡ (hand_view h.run.0 (answers_of h.seat.me.0.lists), [])) × (h.run.0 < h.seat.table_id.words) };
}

impl Hand {
    ghost use Rattle.tc_board.specs.Hand.{answer_to_set, answered};

    /// The run whose word it sets.
    pub fn run(&self) -> Run
        ensures { result.0 ≡ self.now.run }
    {
        self.run.copy()
    }

    /// Whether the word was begun. If it was, the hand has met it and may set and get.
    pub fn meet(&mut self, board: &Board) -> bool
        requires { self.old.board ≡ board.now }
        ensures answer { MatchBool result (self.new ≡ answered self.old Met) (self.new ≡ self.old) }

        // A word that was met stays begun.
        ensures again { self.old.answers ≢ [] → result ≡ true }
    {
        let word = self.run.0 as usize;
        board.table.shared.load::<Meet>(&mut self.seat, word) != UNBEGUN
    }

    /// Sets a verdict (ES 201 873-1, verdict operations): the word keeps the worst.
    pub fn set(&mut self, board: &Board, verdict: UserVerdict) -> Said
        requires board { self.old.board ≡ board.now }
        requires met { self.old.answers ≢ [] }
        ensures { self.new ≡ answered self.old (answer_to_set verdict result) }
    {
        let word = self.run.0 as usize;
        let found = board
            .table
            .shared
            .fetch_max::<Set>(&mut self.seat, word, rank(verdict));
        if found < CLOSED {
            Said::Taken
        } else {
            Said::Closed
        }
    }

    /// The worst verdict so far: none if the word is closed.
    #[tactic(auto, using(crate::proofs::Numbers::read_answer))]
    pub fn get(&mut self, board: &Board) -> Option<UserVerdict>
        requires board { self.old.board ≡ board.now }
        requires met { self.old.answers ≢ [] }
        ensures { self.new ≡ answered self.old (option_map_or Found result Shut) }
    {
        let word = self.run.0 as usize;
        of_rank(board.table.shared.load::<Get>(&mut self.seat, word))
    }
}

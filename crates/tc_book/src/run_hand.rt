//! The hand of a run, with an owner of its board.
ghost use Rattle.std.specs.{Prelude.{◌≡◌, ◌≢◌, [], true, MatchBool}, Arc.arc_value};
ghost use Rattle.tc_board.specs.{Prelude.answered, declared.answer.Answer.TheVariants.Met};
ghost use Rattle.tc_rules.specs.Prelude.{Op};
ghost use Rattle.tc_book.specs.{Inside.Says, Inside.Replies.suits};

use std::marker::Model;
use std::sync::Arc;
use tc_board::{Board, Hand, Said};
use tc_entry::Reply;
use tc_verdict::{UserVerdict, from_user};

/// The hand of a run, with an owner of its board. Contracts see the hand.
#[derive(Drop)]
pub(crate) struct RunHand {
    board: Arc<Board>,
    hand: Hand,
}

impl Model for RunHand {
    ghost use Rattle.std.specs.{Prelude.◌≡◌, Arc.arc_value};
    ghost use Rattle.tc_board.specs.Prelude.{HandView};

    ghost Value = { HandView };

    ghost view = { λ h. h.hand };

    ghost invariant = { λ h. h.hand.board ≡ arc_value h.board };
}

impl RunHand {
    pub(crate) fn new(board: Arc<Board>, hand: Hand) -> RunHand
        requires board { hand.board ≡ arc_value board }
        ensures { result ≡ hand }
    {
        RunHand { board, hand }
    }

    /// Only the hand.
    pub(crate) fn hand(&self) -> &Hand
        ensures { result.now ≡ self.now }
    {
        &self.hand
    }

    /// Whether the word of the run was begun; if it was, the hand has met it.
    pub(crate) fn meet(&mut self) -> bool
        ensures { MatchBool result (self.new ≡ answered self.old Met) (self.new ≡ self.old) }
    {
        self.hand.meet(&self.board)
    }

    /// Sets a verdict on the word of the run, in one step, and returns the reply of the setting.
    pub(crate) fn set(&mut self, value: UserVerdict) -> Reply
        requires met { self.old.answers ≢ [] }
        ensures answer { Says (Op.SetVerdict value) result self.old self.new }
        ensures suits { suits (Op.SetVerdict value) result ≡ true }
    {
        match self.hand.set(&self.board, value) {
            Said::Taken => Reply::Ok,
            Said::Closed => Reply::Ended,
        }
    }

    /// Gets the verdict in the word of the run, in one step, as a reply.
    #[tactic(auto, using(crate::proofs::Handed::found_given, crate::proofs::Handed::found_suits))]
    pub(crate) fn get(&mut self) -> Reply
        requires met { self.old.answers ≢ [] }
        ensures answer { Says Op.GetVerdict result self.old self.new }
        ensures suits { suits Op.GetVerdict result ≡ true }
    {
        match self.hand.get(&self.board) {
            Some(verdict) => Reply::Local(from_user(verdict)),
            None => Reply::Ended,
        }
    }
}

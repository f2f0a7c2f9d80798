//! The rule of the board, as its table of atomic words sees it.
use crate::answer::AnswerList;
use crate::record::Record;
use atomic_table::{Seat, TableRule};

/// What a seat of the table knows: the answers that are in its view, and at the keeper's seat the record of each word.
/// No value of it is made: a clause reads an array as a list of any length.
pub(crate) struct View {
    pub lists: [AnswerList; 0],
    pub is_keeper: bool,
    pub records: [Record; 0],
}

/// The rule of the board. Its key is the number of words.
pub(crate) struct BoardRule;

impl TableRule<(), View, u64> for BoardRule {
    ghost use Rattle.tc_board.specs.{Inside.Seats.opening_view, Inside.Table.Holds};

    ghost holds = { λ _. Holds };

    ghost first = { opening_view };
}

pub(crate) type BoardSeat = Seat<(), View>;

/// An unbegun word.
pub(crate) const UNBEGUN: u64 = 16;

/// The bit that closes a word. An open word is less.
pub(crate) const CLOSED: u64 = 8;

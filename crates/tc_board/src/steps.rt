//! The kinds of step, by what each shows its caller.
ghost use Rattle.tc_board.specs.Inside.{Seats.left_over, Seats.spent_view, Seats.split_off, Seats.taken_back, Steps.was_closed, Steps.was_got, Steps.was_met, Steps.was_opened, Steps.was_seen, Steps.was_set};

use crate::rule::View;
use atomic_table::{Join, Play, Split};

/// A hand sets a verdict.
pub(crate) struct Set;

impl Play<(), View> for Set {
    ghost then = { was_set };
}

/// A hand gets its verdict.
pub(crate) struct Get;

impl Play<(), View> for Get {
    ghost then = { was_got };
}

/// A hand asks whether its word was begun.
pub(crate) struct Meet;

impl Play<(), View> for Meet {
    ghost then = { was_met };
}

/// The keeper opens a word.
pub(crate) struct Open;

impl Play<(), View> for Open {
    ghost then = { was_opened };
}

/// The keeper closes a word.
pub(crate) struct Close;

impl Play<(), View> for Close {
    ghost then = { was_closed };
}

/// The keeper looks at a word whose hand it took back.
pub(crate) struct Look;

impl Play<(), View> for Look {
    ghost then = { was_seen };
}

/// A hand is split off the keeper's seat.
pub(crate) struct SplitOff;

impl Split<View> for SplitOff {
    ghost left = { left_over };

    ghost right = { split_off };
}

/// The keeper takes a hand back.
pub(crate) struct TakeBack;

impl Join<View> for TakeBack {
    ghost both = { taken_back };

    ghost spent = { spent_view };
}

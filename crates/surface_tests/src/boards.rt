//! Names of `tc_board`: a word for each behaviour, its hand, and the keeper of all words.
ghost use Rattle.std.specs.Prelude.{◌≡◌, ◌≢◌, []};
ghost use Rattle.tc_board.specs.Board.{new_hand, new_keeper};

use crate::checks::is;
use std::process::Abort;
use std::test::Fail;
use tc_board::{Board, Hand, Keeper, Said};
use tc_verdict::{Run, UserVerdict};

/// The word of run 0 is open from the making.
fn is_open(rt: &impl Abort, board: &Board, zero: &mut Hand)
    requires { zero.old ≡ new_hand board.now 0 }
{
    is(rt, "run", zero.run(), Run(0));
    is(rt, "get", zero.get(board), Some(UserVerdict::None));
}

/// The word was begun, and the hand meets it.
fn meets(rt: &impl Abort, board: &Board, hand: &mut Hand)
    requires { hand.old.board ≡ board.now }
    ensures board { hand.new.board ≡ hand.old.board }
    ensures met { hand.new.answers ≢ [] }
{
    if !hand.meet(board) {
        panic!(rt; "the word was not begun")
    }
}

/// A setting while the word is open.
fn sets(rt: &impl Abort, board: &Board, hand: &mut Hand)
    requires board { hand.old.board ≡ board.now }
    requires met { hand.old.answers ≢ [] }
    ensures board { hand.new.board ≡ hand.old.board }
    ensures met { hand.new.answers ≢ [] }
{
    let said = hand.set(board, UserVerdict::Inconc);
    is(rt, "set", said, Said::Taken);
    is(rt, "get", hand.get(board), Some(UserVerdict::Inconc));
}

/// A setting once the word is closed.
fn comes_late(rt: &impl Abort, board: &Board, hand: &mut Hand)
    requires board { hand.old.board ≡ board.now }
    requires met { hand.old.answers ≢ [] }
    ensures { hand.new.board ≡ hand.old.board }
{
    let said = hand.set(board, UserVerdict::Fail);
    is(rt, "late set", said, Said::Closed);
    is(rt, "late get", hand.get(board), None);
}

/// The word of run 1 from its begin to its close.
fn begin_and_close(rt: &impl Abort, board: &Board, keeper: &mut Keeper, one: &mut Hand)
    requires keeper { keeper.old ≡ new_keeper board.now 2 }
    requires one { one.old ≡ new_hand board.now 1 }
    ensures keeper { keeper.new.board ≡ board.now }
    ensures one { one.new.board ≡ board.now }
{
    is(rt, "meet too early", one.meet(board), false);
    keeper.begin(board, Run(1), UserVerdict::None);
    meets(rt, board, one);
    sets(rt, board, one);
    let counted = keeper.close(board, Run(1));
    is(rt, "close", counted, UserVerdict::Inconc);
    comes_late(rt, board, one);
}

#[test]
fn words_are_begun_set_and_closed(rt: HostRuntime) -> Result<(), Fail> {
    let (board, mut keeper, mut hands) = Board::new(rt.alloc(), 2)?;
    let (Some(mut one), Some(mut zero)) = (hands.pop(), hands.pop()) else {
        panic!(rt; "two hands")
    };
    is_open(&rt, &board, &mut zero);
    begin_and_close(&rt, &board, &mut keeper, &mut one);
    keeper.gather(&board, one);
    Ok(())
}

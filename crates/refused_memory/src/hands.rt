//! The wakes of a book, and the hands of a board: none of it takes memory. There is room for the text of what they
//! answer, so what an append to it returns is not looked at.
ghost use Rattle.std.specs.Prelude.{◌≡◌};
ghost use Rattle.tc_board.specs.Prelude.{new_hands, new_keeper};

use crate::trial::Trial;
use std::alloc::Global;
use std::sync::Arc;
use tc_board::{Board, Hand, Keeper, Record, Said};
use tc_book::laws::Book;
use tc_entry::{Args, Comp, Op, Reply, Run, Target, UserVerdict};
use tc_text::write_reply;

const CREATE: Op = Op::Create {
    alive: false,
    name: None,
};

const FIRST: Target = Target::One(Comp(1));

const WAIT: Op = Op::Wait {
    killed: false,
    target: FIRST,
};

fn new_book(alloc: Global) -> Option<Book> {
    let (board, keeper, _) = Board::new(alloc, 2).ok()?;
    match Arc::new(alloc, board) {
        Ok(board) => Book::new(alloc, 2, keeper, board).ok(),
        Err(_) => None,
    }
}

/// Appends a reply, if there is one.
fn tell_reply(out: &mut Vec<u8>, reply: Option<Reply>) {
    if let Some(reply) = reply {
        let _ = write_reply(out, &reply);
    }
    let _ = out.push(b'\n');
}

/// The wakes of a wait before and after a run leaves.
fn wake_on(trial: &mut Trial, book: &mut Book, leaving: Run) {
    trial.begin_each("Book::wake Book::leave Book::call_wake Book::start_of Book::word_of");
    let is_unbegun = book.word_of(Run(1)) == Record::Unbegun;
    let is_started = book.start_of(Run(1)).is_some();
    tell_reply(&mut trial.out, book.wake(Run(0), false, FIRST));
    let left = book.leave(leaving, !is_started).unwrap_or(None);
    tell_reply(&mut trial.out, left);
    if let Some((reply, _)) = book.call_wake(Run(0), false, FIRST) {
        tell_reply(&mut trial.out, Some(reply));
    }
    trial.holds(is_unbegun != is_started);
    trial.end();
}

/// The wake of a wait that is stuck; or the wakes of one that continues to wait for a run that was started, and then is matched.
fn wake(trial: &mut Trial, starts: bool) {
    if let Some(mut book) = new_book(trial.alloc) {
        // The text shows what the book holds after the calls.
        let _ = book.record(Run(0), CREATE);
        if starts {
            let start = Op::Start {
                comp: Comp(1),
                run: Run(1),
                args: Args::new(),
            };
            let _ = book.record(Run(0), start);
        }
        let _ = book.record(Run(0), WAIT);
        wake_on(trial, &mut book, Run(u16::from(starts)));
    }
}

/// The wakes of both.
pub(crate) fn wake_both(trial: &mut Trial) {
    wake(trial, false);
    wake(trial, true);
}

/// Whether a hand is met, and answered so to a set, and to a get after it.
fn is_answered(board: &Board, hand: &mut Hand, said: Said, got: Option<UserVerdict>) -> bool
    requires { hand.old.board ≡ board.now }
    ensures { hand.new.board ≡ hand.old.board }
{
    hand.meet(board) && hand.set(board, UserVerdict::Inconc) == said && hand.get(board) == got
}

/// The calls of a hand, before its word is begun, while it is open, and after its close, and how the keeper takes both hands back.
fn call(trial: &mut Trial, board: &Board, keeper: &mut Keeper, one: Hand, zero: Hand)
    requires keeper { keeper.old ≡ new_keeper board.now 2 }
    requires one { one.board ≡ board.now }
    requires zero { zero.board ≡ board.now }
{
    let mut one = one;
    trial.begin_each("Hand::meet Hand::set Hand::get Keeper::begin Keeper::close Keeper::gather");
    let is_early = one.meet(board);
    keeper.begin(board, Run(1), UserVerdict::None);
    let is_heard = is_answered(board, &mut one, Said::Taken, Some(UserVerdict::Inconc));
    let closed = keeper.close(board, Run(1));
    let is_late = is_answered(board, &mut one, Said::Closed, None);
    keeper.gather(board, one);
    keeper.gather(board, zero);
    trial.holds(!is_early & is_heard & is_late & (closed == UserVerdict::Inconc));
    trial.end();
}

/// The calls of these hands.
fn call_hands(trial: &mut Trial, board: &Board, keeper: &mut Keeper, hands: &mut Vec<Hand>)
    requires keeper { keeper.old ≡ new_keeper board.now 2 }
    requires hands { hands.old.items ≡ new_hands board.now 0 2 }
{
    if let Some(one) = hands.pop()
        && let Some(zero) = hands.pop()
    {
        call(trial, board, keeper, one, zero);
    }
}

/// The calls of the hands of a board.
pub(crate) fn call_both(trial: &mut Trial) {
    if let Ok((board, mut keeper, mut hands)) = Board::new(trial.alloc, 2) {
        call_hands(trial, &board, &mut keeper, &mut hands);
    }
}

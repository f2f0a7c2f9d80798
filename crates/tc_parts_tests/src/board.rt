//! Hands and a keeper, on one thread and on two.
ghost use Rattle.std.specs.Prelude.{◌≡◌, ◌≢◌, [], Some, slice_get};
ghost use Rattle.tc_board.specs.declared.record.Record.TheVariants.{Unbegun};
ghost use Rattle.tc_board.specs.Prelude.{new_hand, new_keeper, IsOpen};

use crate::checks::{holds, is};
use std::alloc::AllocGlobal;
use std::process::Abort;
use std::sync::atomic::{AtomicU64, Ordering};
use std::thread;
use std::thread::Threads;
use tc_board::{Board, Hand, Keeper, Said};
use tc_verdict::{NoMemory, Run, UserVerdict};

/// The word of the hand was begun.
fn meets(rt: &impl Abort, board: &Board, hand: &mut Hand)
    requires { hand.old.board ≡ board.now }
    ensures board { hand.new.board ≡ hand.old.board }
    ensures met { hand.new.answers ≢ [] }
{
    if !hand.meet(board) {
        panic!(rt; "the word was not begun")
    }
}

/// The calls of a hand while its word is open.
fn set_and_get(rt: &impl Abort, board: &Board, hand: &mut Hand)
    requires board { hand.old.board ≡ board.now }
    requires met { hand.old.answers ≢ [] }
    ensures board { hand.new.board ≡ hand.old.board }
    ensures met { hand.new.answers ≢ [] }
{
    is(
        rt,
        "inconc",
        hand.set(board, UserVerdict::Inconc),
        Said::Taken,
    );
    is(rt, "pass", hand.set(board, UserVerdict::Pass), Said::Taken);
    is(rt, "get", hand.get(board), Some(UserVerdict::Inconc));
}

/// The calls of a hand once its word is closed.
fn come_late(rt: &impl Abort, board: &Board, hand: &mut Hand)
    requires board { hand.old.board ≡ board.now }
    requires met { hand.old.answers ≢ [] }
{
    is(rt, "fail", hand.set(board, UserVerdict::Fail), Said::Closed);
    is(rt, "late get", hand.get(board), None);
}

/// The word of run 1 from its begin to its close, and after that.
fn open_and_close(rt: &impl Abort, board: &Board, keeper: &mut Keeper, one: &mut Hand)
    requires keeper { keeper.old ≡ new_keeper board.now 2 }
    requires one { one.old ≡ new_hand board.now 1 }
{
    is(rt, "met too early", one.meet(board), false);
    keeper.begin(board, Run(1), UserVerdict::None);
    meets(rt, board, one);
    set_and_get(rt, board, one);
    is(
        rt,
        "close",
        keeper.close(board, Run(1)),
        UserVerdict::Inconc,
    );
    come_late(rt, board, one);
}

/// The word of run 0 is open from the first.
fn is_open(rt: &impl Abort, board: &Board, zero: &mut Hand)
    requires { zero.old ≡ new_hand board.now 0 }
{
    is(rt, "get", zero.get(board), Some(UserVerdict::None));
}

#[test]
fn board_of_two(rt: HostRuntime) -> Result<(), NoMemory> {
    let (board, mut keeper, mut hands) = Board::new(rt.alloc(), 2)?;
    let (Some(mut one), Some(mut zero)) = (hands.pop(), hands.pop()) else {
        panic!(rt; "two hands")
    };
    is_open(&rt, &board, &mut zero);
    open_and_close(&rt, &board, &mut keeper, &mut one);
    Ok(())
}

/// The word of the last of 256 runs carries a verdict.
fn is_carried(rt: &impl Abort, board: &Board, keeper: &mut Keeper, last: &mut Hand)
    requires board { keeper.old.board ≡ board.now }
    requires unbegun { slice_get keeper.old.records 255 ≡ Some Unbegun }
    requires hand { last.old.board ≡ board.now }
{
    keeper.begin(board, Run(255), UserVerdict::Pass);
    meets(rt, board, last);
    is(rt, "get", last.get(board), Some(UserVerdict::Pass));
    is(
        rt,
        "close",
        keeper.close(board, Run(255)),
        UserVerdict::Pass,
    );
}

#[test]
fn many_behaviours(rt: HostRuntime) -> Result<(), NoMemory> {
    let (board, mut keeper, mut hands) = Board::new(rt.alloc(), 256)?;
    let Some(mut last) = hands.pop() else {
        panic!(rt; "a hand for each run")
    };
    is_carried(&rt, &board, &mut keeper, &mut last);
    Ok(())
}

/// The keeper is there.
const READY: u64 = 1;
/// A setting was made.
const BEGUN: u64 = 2;
/// The word is closed.
const CLOSED: u64 = 3;

fn wait_for(stage: &AtomicU64, wanted: u64) {
    for _ in 0..100_000_000 {
        if wanted <= stage.load(Ordering::SeqCst) {
            break;
        }
    }
}

/// How a thousand settings of inconc were answered.
#[derive(Clone, Copy)]
struct Tally {
    taken: u32,
    closed: u32,
    taken_after_a_closed: bool,
}

impl Tally {
    fn count(&mut self, said: Said) {
        match said {
            Said::Taken => {
                self.taken = self.taken.saturating_add(1);
                self.taken_after_a_closed = self.taken_after_a_closed || 0 < self.closed;
            }
            Said::Closed => self.closed = self.closed.saturating_add(1),
        }
    }
}

/// Sets a thousand times: first once the keeper is there, then without a pause, and last once the word is closed.
fn set_often(board: &Board, hand: &mut Hand, stage: &AtomicU64) -> Tally
    requires board { hand.old.board ≡ board.now }
    requires met { hand.old.answers ≢ [] }
    ensures { hand.new.board ≡ board.now }
{
    let mut tally = Tally {
        taken: 0,
        closed: 0,
        taken_after_a_closed: false,
    };
    wait_for(stage, READY);
    tally.count(hand.set(board, UserVerdict::Inconc));
    stage.store(BEGUN, Ordering::SeqCst);
    for _ in 0..998 {
        tally.count(hand.set(board, UserVerdict::Inconc));
    }
    wait_for(stage, CLOSED);
    tally.count(hand.set(board, UserVerdict::Inconc));
    tally
}

/// Closes the word once a setting was made.
fn close_begun(board: &Board, keeper: &mut Keeper, stage: &AtomicU64) -> UserVerdict
    requires board { keeper.old.board ≡ board.now }
    requires open { IsOpen keeper.old.records 0 }
    ensures { keeper.new.board ≡ board.now }
{
    stage.store(READY, Ordering::SeqCst);
    wait_for(stage, BEGUN);
    let counted = keeper.close(board, Run(0));
    stage.store(CLOSED, Ordering::SeqCst);
    counted
}

/// One thread sets while another closes: what the settings were answered, and what the close counted.
fn settings_and_a_close<R: Abort + AllocGlobal + Threads>(
    rt: &R,
) -> Result<(Tally, UserVerdict), NoMemory> {
    let (board, mut keeper, mut hands) = Board::new(rt.alloc(), 1)?;
    let Some(mut hand) = hands.pop() else {
        panic!(rt; "one hand")
    };
    let stage = AtomicU64::new(0);
    let stage = &stage;
    let shared = &board;
    let ((hand, tally), (mut keeper, counted)) = thread::join(
        rt,
        move || -> (Hand, Tally)
            requires { (hand.board ≡ shared.now) × (hand.answers ≢ []) }
            ensures { result.0.board ≡ shared.entry.now }
        {
            let tally = set_often(shared, &mut hand, stage);
            (hand, tally)
        },
        move || -> (Keeper, UserVerdict)
            requires { (keeper.board ≡ shared.now) × IsOpen keeper.records 0 }
            ensures { result.0.board ≡ shared.entry.now }
        {
            let counted = close_begun(shared, &mut keeper, stage);
            (keeper, counted)
        },
    );
    keeper.gather(&board, hand);
    Ok((tally, counted))
}

/// What the close counted depends on the settings, of which none is taken after one that is not.
fn is_right(rt: &impl Abort, tally: Tally, counted: UserVerdict) {
    let wanted = if 0 < tally.taken {
        UserVerdict::Inconc
    } else {
        UserVerdict::None
    };
    is(rt, "counted", counted, wanted);
    is(
        rt,
        "settings",
        tally.taken.saturating_add(tally.closed),
        1000,
    );
    holds(rt, "taken after a closed", !tally.taken_after_a_closed);
}

/// 100 rounds; in at least 90 of them the close comes between two settings.
#[test]
fn settings_against_a_close(rt: HostRuntime) -> Result<(), NoMemory> {
    let mut between = 0u32;
    for _ in 0..100 {
        let (tally, counted) = settings_and_a_close(&rt)?;
        is_right(&rt, tally, counted);
        if 0 < tally.taken && 0 < tally.closed {
            between = between.saturating_add(1);
        }
    }
    holds(&rt, "the close came between two settings", 90 <= between);
    Ok(())
}

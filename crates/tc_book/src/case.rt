//! The opening and the close of a case.
ghost use Rattle.std.specs.{Prelude.{◌≡◌, ◌<◌, ◌≤◌, ◌+◌, ◌-◌, ℕ, [], IfOk, Err, length, slice_index_or}, Arc.arc_value, Vec.{vec_capacity, vec_len}};
ghost use Rattle.tc_entry.specs.declared.limits.TheConstants.{BEHAVIOURS};
ghost use Rattle.tc_board.specs.Prelude.{new_hand, new_hands, new_keeper};
ghost use Rattle.tc_rules.specs.Prelude.{Run, IsOneHistory};
ghost use Rattle.tc_book.specs.{Closing.IsOneEach, Closing.IsWhole, Inside.Waiting.waiting_places};

use crate::book::Book;
use crate::left::Left;
use crate::logged_book::Started;
use crate::logged_book::log::Log;
use crate::pass::Pass;
use crate::run_hand::RunHand;
use crate::shared::Shared;
use crate::ticket::Ticket;
use std::alloc::Global;
use std::sync::{Arc, Wait};
use tc_board::{Board, Hand, Keeper};
use tc_entry::Entry;
use tc_rules::{CloseFault, Closed};
use tc_verdict::{NoMemory, Run};

/// A log without entries, with a place for one. It has some more, since most logs have a few entries.
fn place(alloc: Global) -> Result<Vec<Entry>, NoMemory>
    ensures empty { IfOk result (λ v. v.items ≡ []) }
    ensures room { IfOk result (λ v. vec_len v < vec_capacity v) }
{
    Vec::with_capacity(alloc, 8).map_err(|_| NoMemory)
}

/// The ticket of a run above 0, whose hand has met nothing yet.
fn ticket_of(
    alloc: Global,
    shared: &Shared,
    board: &Arc<Board>,
    run: Run,
    hand: Hand,
) -> Result<Ticket, NoMemory>
    requires above { 0 < run.0 }
    requires waits { run.0 < waiting_places shared.now }
    requires hand { hand ≡ record { board = arc_value board.now; run = run.0; answers = [] } }
    ensures { IfOk result (λ t. t ≡ run) }
{
    let hand = RunHand::new(Arc::try_clone(board)?, hand);
    let log = place(alloc)?;
    Ok(Ticket::new(shared.another()?, run, log, hand))
}

/// The tickets of all runs but run 0, with their hands.
fn tickets_of(
    alloc: Global,
    shared: &Shared,
    board: &Arc<Board>,
    hands: &mut Vec<Hand>,
    behaviours: u16,
) -> Result<Vec<Ticket>, NoMemory>
    requires some { 1 ≤ behaviours }
    requires waits { waiting_places shared.now ≡ behaviours }
    requires hands { hands.old.items ≡ new_hands (arc_value board.now) 1 (behaviours - 1) }
    ensures count { IfOk result (λ v. length v.items + 1 ≡ behaviours) }
    ensures tickets { IfOk result (λ v. (k : ℕ) (d : Run) → k + 1 < behaviours → (slice_index_or v.items k d).0 ≡ k + 1) }
{
    let mut tickets = Vec::with_capacity(alloc, hands.len())?;
    for k in 1..behaviours {
        let hand = hands.remove(0);
        tickets.push(ticket_of(alloc, shared, board, Run(k), hand)?)?;
    }
    Ok(tickets)
}

/// The pass of run 0, whose hand has met its word.
fn main_pass(
    alloc: Global,
    shared: &Shared,
    board: &Arc<Board>,
    hand: Hand,
) -> Result<Pass, NoMemory>
    requires waits { 0 < waiting_places shared.now }
    requires hand { hand ≡ new_hand (arc_value board.now) 0 }
    ensures { IfOk result (λ p. p ≡ record { run = record { 0 = 0 }; me = record { 0 = 0 }; args = []; log = [] }) }
{
    let hand = RunHand::new(Arc::try_clone(board)?, hand);
    let log = Log::new(Started::at_opening(), place(alloc)?, hand);
    Ok(Pass::new(shared.another()?, log))
}

/// Opens a case with the hands of a new board.
fn open_with(
    alloc: Global,
    behaviours: u16,
    keeper: Keeper,
    board: &Arc<Board>,
    hands: &mut Vec<Hand>,
) -> Result<(Shared, Pass, Vec<Ticket>), NoMemory>
    requires some { 1 ≤ behaviours }
    requires few { behaviours ≤ BEHAVIOURS }
    requires keeper { keeper ≡ new_keeper (arc_value board.now) behaviours }
    requires hands { hands.old.items ≡ new_hands (arc_value board.now) 0 behaviours }
    ensures pass { IfOk result (λ r. r.1 ≡ record { run = record { 0 = 0 }; me = record { 0 = 0 }; args = []; log = [] }) }
    ensures count { IfOk result (λ r. length r.2.items + 1 ≡ behaviours) }
    ensures tickets { IfOk result (λ r. (k : ℕ) (d : Run) → k + 1 < behaviours → (slice_index_or r.2.items k d).0 ≡ k + 1) }
{
    let book = Book::new(alloc, behaviours, keeper, Arc::try_clone(board)?)?;
    let shared = Shared::new(alloc, book, behaviours)?;
    let hand = hands.remove(0);
    let pass = main_pass(alloc, &shared, board, hand)?;
    let tickets = tickets_of(alloc, &shared, board, hands, behaviours)?;
    Ok((shared, pass, tickets))
}

/// Opens a case of that many behaviours: its shared book, the pass of run 0, and the tickets of the other runs.
pub fn open_case(alloc: Global, behaviours: u16) -> Result<(Shared, Pass, Vec<Ticket>), NoMemory>
    requires some { 1 ≤ behaviours }
    requires few { behaviours ≤ BEHAVIOURS }
    ensures pass { IfOk result (λ r. r.1 ≡ record { run = record { 0 = 0 }; me = record { 0 = 0 }; args = []; log = [] }) }
    ensures count { IfOk result (λ r. length r.2.items + 1 ≡ behaviours) }
    ensures tickets { IfOk result (λ r. (k : ℕ) (d : Run) → k + 1 < behaviours → (slice_index_or r.2.items k d).0 ≡ k + 1) }
{
    let (board, keeper, mut hands) = Board::new(alloc, behaviours)?;
    let board = Arc::new(alloc, board)?;
    let opened = open_with(alloc, behaviours, keeper, &board, &mut hands);
    drop(hands);
    drop(board);
    opened
}

/// Closes a case in one hold of its lock: its report, if each run's pass came back whole. If not one of
/// each run came back, that is Torn, whatever memory there is; so too if a log and its word disagree (`Look::close`).
pub fn close_case<R: Wait>(
    rt: &R,
    alloc: Global,
    shared: Shared,
    lefts: Vec<Left>,
) -> Result<Closed, CloseFault>
    ensures whole { IfOk result (λ c. IsWhole c.behaviours c.history lefts.items) }
    ensures runs { result ≡ Err CloseFault.NoMemory → IsOneEach (length lefts.items) lefts.items }
    ensures report { IfOk result (λ c. IsOneHistory c) }
{
    let look = shared.look(rt);
    look.close(alloc, lefts)
}

//! The ticket of a run that is not yet started.
ghost use Rattle.std.specs.{Prelude.{◌≡◌, ◌<◌, [], None, IfOk, IfErr}, Vec.{vec_len, vec_capacity}};
ghost use Rattle.tc_book.specs.Inside.Waiting.{waiting_places};

use crate::left::Left;
use crate::logged_book::log::Log;
use crate::pass::Pass;
use crate::run_hand::RunHand;
use crate::shared::Shared;
use std::marker::Model;
use std::sync::Wait;
use tc_entry::Entry;
use tc_verdict::Run;

/// The right of one run above 0 to be started. Contracts see the run.
#[derive(Drop)]
pub struct Ticket {
    shared: Shared,
    run: Run,
    log: Vec<Entry>,
    hand: RunHand,
}

impl Model for Ticket {
    ghost use Rattle.std.specs.{Prelude.{◌≡◌, ◌<◌, []}, Vec.{vec_len, vec_capacity}};
    ghost use Rattle.tc_rules.specs.Prelude.{Run};
    ghost use Rattle.tc_book.specs.{Inside.IsNewHand, Inside.Waiting.waiting_places};

    ghost Value = { Run };

    ghost view = { λ t. t.run };

    ghost invariant = { λ t. (0 < t.run.0) × (t.run.0 < waiting_places t.shared)
        × (t.log.items ≡ []) × (vec_len t.log < vec_capacity t.log) × IsNewHand t.hand t.run.0 };
}

impl Ticket {
    pub(crate) fn new(shared: Shared, run: Run, log: Vec<Entry>, hand: RunHand) -> Ticket
        requires run { hand.run ≡ run.0 }
        requires answers { hand.answers ≡ [] }
        requires above { 0 < run.0 }
        requires waits { run.0 < waiting_places shared }
        requires empty { log.items ≡ [] }
        requires room { vec_len log < vec_capacity log }
        ensures { result ≡ run }
    {
        Ticket {
            shared,
            run,
            log,
            hand,
        }
    }

    /// The run.
    pub fn run(&self) -> Run
        ensures { result ≡ self.now }
    {
        self.run
    }

    /// The pass of the run once it was started, or what it leaves once the case is over without that. Only clauses of
    /// the book under the lock say which of them it is, and what the pass was started with.
    pub fn await_start<R: Wait>(self, rt: &R) -> Result<Pass, Left>
        ensures pass { IfOk result (λ p. (p.run ≡ self) × (p.log ≡ [])) }
        ensures above { IfOk result (λ p. 0 < p.run.0) }
        ensures left { IfErr result (λ l. l ≡ record { run = self; log = []; started = None }) }
    {
        let Ticket {
            shared,
            run,
            log,
            mut hand,
        } = self;
        match shared.await_start(rt, run, &mut hand) {
            Ok(started) => Ok(Pass::new(shared, Log::new(started, log, hand))),
            Err(unstarted) => Err(Left::never_started(shared.give_up(rt, unstarted), log)),
        }
    }
}

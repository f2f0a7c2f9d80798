//! What a run leaves.
ghost use Rattle.std.specs.Prelude.{◌≡◌, ◌↔◌, IsTrue, MatchOption, Some, None};

use crate::logged_book::GivenUp;
use crate::logged_book::log::Log;
use std::marker::Model;
use tc_entry::{Args, Comp, Entry, Sequence};
use tc_verdict::Run;

/// What a run leaves: its log, and what it was started with.
#[derive(Drop)]
pub struct Left {
    run: Run,
    log: Vec<Entry>,
    started: Option<(Comp, Args)>,
}

impl Model for Left {
    ghost use Rattle.tc_book.specs.Passes.{LeftState};

    ghost Value = { LeftState };

    ghost view = { λ l. record { run = l.run; log = l.log.items; started = l.started } };
}

impl Left {
    /// What the pass of a started run leaves.
    pub(crate) fn new(given_up: GivenUp, log: Log) -> Left
        ensures { result ≡ record { run = given_up.run; log = log.entries; started = Some (log.started.comp, log.started.args) } }
    {
        let (log, comp, args) = log.into_parts();
        Left {
            run: given_up.run(),
            log,
            started: Some((comp, args)),
        }
    }

    /// What a run leaves that was never started.
    pub(crate) fn never_started(given_up: GivenUp, log: Vec<Entry>) -> Left
        ensures { result ≡ record { run = given_up.run; log = log.items; started = None } }
    {
        Left {
            run: given_up.run(),
            log,
            started: None,
        }
    }

    /// The run.
    pub fn run(&self) -> Run
        ensures { result ≡ self.now.run }
    {
        self.run
    }

    /// The entries of the run, the oldest first.
    pub fn log(&self) -> &[Entry]
        ensures { result.now ≡ self.now.log }
    {
        &self.log
    }

    /// The component and the arguments of the pass that left; none if the run was never started.
    pub fn started(&self) -> Option<(Comp, &[Comp])>
        ensures { MatchOption result (self.now.started ≡ None) (λ s. self.now.started ≡ Some (s.0, s.1.now)) }
    {
        match &self.started {
            Some((comp, args)) => Some((*comp, args.as_slice())),
            None => None,
        }
    }

    /// The run and its log.
    pub(crate) fn into_log(self) -> (Run, Sequence<Entry>)
        ensures { (result.0 ≡ self.run) × (result.1 ≡ self.log) }
    {
        (self.run, Sequence::new(self.log))
    }

    /// Whether the run was started so.
    pub(crate) fn was_started_so(&self, start: &Option<(Comp, Args)>) -> bool
        ensures { IsTrue result ↔ (self.now.started ≡ start.now) }
    {
        match (&self.started, start) {
            (None, None) => true,
            (Some((comp, args)), Some((other, others))) => *comp == *other && args.same(others),
            _ => false,
        }
    }
}

//! Calls, with whether one that waits can continue by them.
ghost use Rattle.std.specs.Prelude.{◌≡◌, ◌≢◌, ◌&&◌, not, true, false, IfOk, IfSome, OnErr, OnSome, IfNone, IsTrue};
ghost use Rattle.tc_rules.specs.Prelude.{is_verdict_call, waiting};
ghost use Rattle.tc_rules.specs.Laws as laws;
ghost use Rattle.tc_book.specs.{Inside.goes_on, Inside.newest_wakes, Inside.parked_goes_on, Inside.wakes, OpenCase.NobodyWakes, OpenCase.WouldPark, OpenCase.open_past, OpenCase.places_after, OpenCase.places_at, OpenCase.reply_to, OpenCase.with_entry, OpenCase.without_wake};

use crate::book::Book;
use crate::until::Until;
use tc_entry::{Op, Reply, Target};
use tc_rules::{Awaited, ends_case, keeps_phases, started_on};
use tc_verdict::{NoMemory, Run};

/// Whether the caller continues after this reply.
fn lets_go_on(reply: Reply) -> bool
    ensures { result ≡ laws.lets_go_on reply }
{
    !matches!(reply, Reply::Ended | Reply::Parked | Reply::Fault(_))
}

/// Whether one that waits can continue by an entry with this reply.
fn tells(keeps_phases: bool, reply: Reply) -> bool
    ensures { result ≡ not (keeps_phases && laws.lets_go_on reply) }
{
    !(keeps_phases && lets_go_on(reply))
}

impl Book {
    /// Adds a call as `record` does, and returns its reply, and whether one that waits can continue by it.
    pub fn call(&mut self, run: Run, op: Op) -> Result<(Reply, bool), NoMemory>
        requires other { is_verdict_call op ≡ false }
        ensures behaviours { self.new.behaviours ≡ self.old.behaviours }
        ensures reply { IfOk result (λ r. r.0 ≡ reply_to self.old run op) }
        ensures history { IfOk result (λ r. self.new.history ≡ with_entry self.old run op r.0) }
        ensures places { IfOk result (λ r. self.new.places ≡ places_after self.old run r.0) }
        ensures silent { IfOk result (λ r. r.1 ≡ false → NobodyWakes self.old self.new) }
        ensures refused { OnErr result (self.new ≡ self.old) }
    {
        // A field is read, so that the proof has what every book keeps.
        let _ = &self.count;
        let keeps = keeps_phases(&op);
        let reply = self.record(run, op)?;
        Ok((reply, tells(keeps, reply)))
    }

    /// Adds the Wake of a parked wait as `wake` does, and returns its reply, and whether another that waits can
    /// continue by it.
    pub fn call_wake(&mut self, run: Run, killed: bool, target: Target) -> Option<(Reply, bool)>
        ensures behaviours { self.new.behaviours ≡ self.old.behaviours }
        ensures none { IfNone result (self.new ≡ self.old) }
        ensures asleep { IfNone result ((places_at self.old.places run).wake ≡ true → WouldPark self.old run killed target) }
        ensures kept { OnSome result (IsTrue (places_at self.old.places run).wake) }
        ensures awake { IfSome result (λ r. r.0 ≢ Reply.Parked) }
        ensures reply { IfSome result (λ r. r.0 ≡ reply_to self.old run (Op.Wake killed target)) }
        ensures history { IfSome result (λ r. self.new.history ≡ with_entry self.old run (Op.Wake killed target) r.0) }
        ensures places { OnSome result (self.new.places ≡ without_wake self.old run) }
        ensures silent { IfSome result (λ r. r.1 ≡ false → NobodyWakes self.old self.new) }
    {
        // A field is read, so that the proof has what every book keeps.
        let _ = &self.count;
        let reply = self.wake(run, killed, target)?;
        Some((reply, tells(true, reply)))
    }

    /// Whether a run that waits for this can continue now.
    pub(crate) fn goes_on(&self, run: Run, until: Until) -> bool
        ensures { result ≡ goes_on self.now run until }
    {
        match until {
            Until::Start => self.start_of(run).is_some() || self.is_over(),
            Until::Wake { killed, target } => {
                !matches!(self.would(run, &Op::Wake { killed, target }), Reply::Parked)
            }
        }
    }

    /// Whether a run is woken: the newest entry ends the case or starts the run, or the run is parked and can continue
    /// now.
    pub(crate) fn wakes(&self, run: Run) -> bool
        ensures { result ≡ wakes self.now run }
    {
        self.newest_wakes(run) || self.parked_goes_on(run)
    }

    fn newest_wakes(&self, run: Run) -> bool
        ensures { result ≡ newest_wakes (open_past self.now) run.0 }
    {
        match self.table.history().split_last() {
            Some((entry, _)) => ends_case(entry) || started_on(entry, run.0).is_some(),
            None => false,
        }
    }

    fn parked_goes_on(&self, run: Run) -> bool
        ensures { result ≡ parked_goes_on self.now run (waiting (open_past self.now) run.0) }
    {
        match self.table.parked(run) {
            Some(Awaited { killed, target }) => self.goes_on(run, Until::Wake { killed, target }),
            None => false,
        }
    }
}

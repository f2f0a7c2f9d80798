//! How long a run and its test cases take.
ghost use Rattle.std.specs.{Prelude.{◌≡◌, ◌≤◌, ◌<◌, ◌++◌, ◌∷◌, [], true, false, None, IfOk, IfErr, IfSome}, Option.option_or, Vec.vec_capacity, Vec.vec_len};
ghost use Rattle.tc_report.specs.Observers.{KeepsTimes};
ghost use Rattle.tc_report.specs.Junit as spec;

use crate::observer::Observer;
use crate::results::Finished;
use jiff_core::civil::DateTime;
use std::alloc::Global;
use std::time::{Clock, Instant};
use tc_entry::{NoMemory, Sequence};

/// When a run began, and how long it and its test cases took, each if a clock said it: seconds, and thousandths.
#[derive(Drop)]
pub struct Times {
    /// When the first test case began, in UTC.
    pub begun: Option<DateTime>,
    /// How long all took.
    pub whole: Option<(u64, u32)>,
    /// How long each took, in their order.
    pub cases: Sequence<Option<(u64, u32)>>,
}

impl Times {
    /// Nothing is known of them.
    pub fn none(alloc: Global) -> Times
        ensures { result ≡ spec.no_times }
    {
        Times {
            begun: None,
            whole: None,
            cases: Sequence::new(Vec::new(alloc)),
        }
    }
}

// The second that a clock says, in UTC.
fn second(clock: &impl Clock) -> Option<DateTime> {
    let since = clock.since_1970().ok()?;
    DateTime::from_nanosecond(since.as_secs() as i128 * 1_000_000_000).ok()
}

// How long ago that was, if a clock says it.
fn time_since(clock: &impl Clock, then: Option<Instant>) -> Option<(u64, u32)>
    ensures unbegun { then ≡ None → result ≡ None }
    ensures thousandths { IfSome result (λ time. time.1 < 1000) }
{
    let time = then?.elapsed(clock).ok()?;
    Some((time.as_secs(), time.subsec_millis()))
}

/// Measures test cases one after the other, and keeps the times of those that it has room for.
#[derive(Drop)]
pub struct Stopwatch<'a, C: Clock> {
    /// The clock.
    pub clock: &'a C,
    /// Whether the clock is read; otherwise no time is known.
    pub reads: bool,
    alloc: Global,
    /// When the first of them began, in UTC, if the clock said it.
    pub begun: Option<DateTime>,
    /// The same, as what times are counted from.
    pub start: Option<Instant>,
    /// The same of the last.
    pub since: Option<Instant>,
    /// The times that are kept.
    pub cases: Vec<Option<(u64, u32)>>,
}

impl<'a, C: Clock> Stopwatch<'a, C> {
    /// Measures by this clock, which it reads or not, and has no room.
    pub fn new(alloc: Global, clock: &'a C, reads: bool) -> Stopwatch<'a, C>
        ensures clock { result.clock ≡ clock.entry }
        ensures reads { result.reads ≡ reads }
        ensures begun { result.begun ≡ None }
        ensures start { result.start ≡ None }
        ensures since { result.since ≡ None }
        ensures none { result.cases.items ≡ [] }
    {
        Stopwatch {
            clock,
            reads,
            alloc,
            begun: None,
            start: None,
            since: None,
            cases: Vec::new(alloc),
        }
    }

    /// Makes room for the times of that many test cases, and keeps none.
    pub fn make_room(&mut self, cases: usize) -> Result<(), NoMemory>
        ensures room { IfOk result (λ _. cases ≤ vec_capacity self.new.cases) }
        ensures none { IfOk result (λ _. self.new.cases.items ≡ []) }
        ensures only { self.new ≡ record self.old { cases = self.new.cases } }
        ensures refused { IfErr result (λ _. self.new ≡ self.old) }
    {
        self.cases = Vec::with_capacity(self.alloc, cases)?;
        Ok(())
    }

    /// The next test case begins.
    pub fn begin(&mut self)
        ensures unread { self.old.reads ≡ false → self.new ≡ self.old }
        ensures start { self.old.reads ≡ true
            → self.new.start ≡ option_or self.old.start self.new.since }
        ensures begun { IfSome self.old.start (λ _. self.new.begun ≡ self.old.begun) }
        ensures reads { self.new.reads ≡ self.old.reads }
        ensures cases { self.new.cases ≡ self.old.cases }
    {
        if !self.reads {
            return;
        }
        self.since = Instant::now(self.clock).ok();
        if self.start.is_none() {
            self.start = self.since;
            self.begun = second(self.clock);
        }
    }

    /// The test case that began last has finished. Returns how long it took, and keeps it after the others if there is
    /// room.
    pub fn finish(&mut self) -> Option<(u64, u32)>
        ensures unbegun { self.old.since ≡ None → result ≡ None }
        ensures thousandths { IfSome result (λ time. time.1 < 1000) }
        ensures kept { vec_len self.old.cases < vec_capacity self.old.cases
            → self.new.cases.items ≡ self.old.cases.items ++ result ∷ [] }
        ensures full { vec_capacity self.old.cases ≤ vec_len self.old.cases → self.new ≡ self.old }
        ensures room { vec_capacity self.new.cases ≡ vec_capacity self.old.cases }
        ensures only { self.new ≡ record self.old { cases = self.new.cases } }
    {
        let time = time_since(self.clock, self.since);
        if self.cases.len() < self.cases.capacity() {
            self.cases.push_reserved(time);
        }
        time
    }

    /// How long all have taken.
    pub fn whole(&self) -> Option<(u64, u32)>
        ensures unbegun { self.now.start ≡ None → result ≡ None }
        ensures thousandths { IfSome result (λ time. time.1 < 1000) }
    {
        time_since(self.clock, self.start)
    }

    /// The times that it has kept, and keeps no longer.
    pub fn take_times(&mut self) -> Times
        ensures begun { result.begun ≡ self.old.begun }
        ensures unbegun { self.old.start ≡ None → result.whole ≡ None }
        ensures cases { result.cases ≡ self.old.cases.items }
        ensures none { self.new.cases.items ≡ [] }
        ensures only { self.new ≡ record self.old { cases = self.new.cases } }
    {
        let whole = self.whole();
        let kept = std::mem::replace(&mut self.cases, Vec::new(self.alloc));
        Times {
            begun: self.begun,
            whole,
            cases: Sequence::new(kept),
        }
    }
}

/// Has a stopwatch measure each test case, and passes it on to another observer.
#[derive(Drop)]
pub struct Timed<'a, 'c, O: Observer, C: Clock> {
    /// The stopwatch.
    pub watch: &'a mut Stopwatch<'c, C>,
    /// The observer that is given the test cases.
    pub observer: &'a mut O,
}

impl<'a, 'c, O: Observer, C: Clock> Timed<'a, 'c, O, C> {
    /// Has this stopwatch measure, and passes on to this observer.
    pub fn new(watch: &'a mut Stopwatch<'c, C>, observer: &'a mut O) -> Timed<'a, 'c, O, C>
        ensures same_watch { result.watch.ghost_name ≡ watch.entry.ghost_name }
        ensures same_observer { result.observer.ghost_name ≡ observer.entry.ghost_name }
        ensures cases { result.watch.now.cases ≡ watch.old.cases }
        ensures observer { result.observer.now ≡ observer.old }
    {
        Timed { watch, observer }
    }
}

impl<O: Observer, C: Clock> Observer for Timed<'_, '_, O, C> {
    ghost takes = { λ before f after goes_on.
        O.takes before.observer.now f after.observer.now goes_on
        × KeepsTimes before.watch.now.cases 1 after.watch.now.cases
        × (after.observer.ghost_name ≡ before.observer.ghost_name)
        × (after.watch.ghost_name ≡ before.watch.ghost_name) };

    fn take(&mut self, case: Finished) -> bool {
        self.watch.finish();
        let goes_on = self.observer.take(case);
        self.watch.begin();
        goes_on
    }
}

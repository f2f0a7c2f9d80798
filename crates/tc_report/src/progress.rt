//! What is printed about test cases as they begin and finish.
ghost use Rattle.std.specs.{Prelude.{ℕ, List, Option, ◌≡◌, ◌+◌, ◌/◌, ◌++◌, ◌∷◌, [], true, None, IfOk, OnOk, OnErr, codes, drop}, Fmt.decimal, Io.KnownBytes.Appends, Option.option_map_or};
ghost use Rattle.tc_stream.specs.Prelude.{AppendsPrefix};
ghost use Rattle.tc_report.specs.{Inside.IsOneMore, Inside.OnlyPrints, Inside.after_verdict, Inside.again_by, Inside.line_by_place, Inside.rest_by, Observers.KeepsTimes, Progress.HasTold, Progress.IsToldBy, Progress.again_lines, Progress.begun_text, Progress.case_place, Progress.finished_text, Progress.last_line, Progress.time_text};

use crate::cause::append_decision;
use crate::fault::OutFault;
use crate::observer::Observer;
use crate::output::{append_between, append_count, print};
use crate::results::{Finished, Tally, tally_cases, with_case};
use crate::status::{is_met, verdict_status};
use crate::stopwatch::Stopwatch;
use crate::summary::summary_of_case;
use std::alloc::Global;
use std::io::Write;
use std::time::Clock;
use tc_entry::{Name, NoMemory, Verdict};
use tc_text::{append_number, append_text};
use tc_verdict::name as name_of;

// Appends a place, and how many there are. A number that the machine lacks is more than there is memory for.
fn append_place(out: &mut Vec<u8>, at: usize, names: &[Name]) -> Result<(), NoMemory>
    ensures { OnOk result (out.new.items ≡ out.old.items ++ case_place names.now at) }
{
    let place = at.checked_add(1).ok_or(NoMemory)?;
    append_number(out, place as u64)?;
    append_count(out, "/", names.len())
}

// Appends the end of the line of a test case that begins.
fn append_begun(out: &mut Vec<u8>, name: &Name) -> Result<(), NoMemory>
    ensures { OnOk result (out.new.items ≡ out.old.items ++ (codes " " ++ (name.now ++ codes " ..\n"))) }
{
    append_between(out, " ", name.bytes(), " ..\n")
}

/// Which lines are printed.
#[derive(Clone, Copy)]
pub struct Shown<'a> {
    /// The names of the test cases that are run, in their order.
    pub names: &'a [Name],
    /// Whether only those are reported that have failed, with inconc, fail or error.
    pub only: bool,
}

// Appends the line of the test case in this place as it begins, if there is one and it is printed.
fn append_begun_line(out: &mut Vec<u8>, shown: Shown<'_>, at: usize) -> Result<(), NoMemory>
    ensures { OnOk result (out.new.items ≡ out.old.items ++ begun_text (shown.entry.only, shown.entry.names.now) at) }
{
    match shown.names.get(at) {
        Some(name) if !shown.only => {
            append_place(out, at, shown.names)?;
            append_begun(out, name)
        }
        _ => Ok(()),
    }
}

// Appends a time: seconds, to a thousandth.
#[tactic(auto, using(std::proofs::lemmas::List::drop_min))]
fn append_seconds(out: &mut Vec<u8>, time: (u64, u32)) -> Result<(), NoMemory>
    ensures { OnOk result (out.new.items ≡ out.old.items ++ (decimal time.0 ++ (codes "." ++ drop 1 (decimal (1000 + time.1))))) }
{
    let mut digits = Vec::new(*out.allocator());
    append_number(&mut digits, 1000 + u64::from(time.1))?;
    append_number(out, time.0)?;
    append_text(out, ".")?;
    out.extend_from_slice(&digits.as_slice()[1.min(digits.len())..])?;
    Ok(())
}

/// Appends how long something took, between these texts, if a clock said it.
pub(crate) fn append_time(
    out: &mut Vec<u8>,
    first: &str,
    time: Option<(u64, u32)>,
    last: &str,
) -> Result<(), NoMemory>
    ensures { OnOk result (out.new.items ≡ out.old.items ++ time_text first.now time last.now) }
{
    let Some(time) = time else {
        return Ok(());
    };
    append_text(out, first)?;
    append_seconds(out, time)?;
    append_text(out, last)
}

// What decided the verdict of the test case, if it is one worse than pass.
fn why(alloc: Global, case: &Finished) -> Result<Vec<u8>, NoMemory>
    ensures { IfOk result (λ v. v.items ≡ after_verdict case.now) }
{
    let summary = summary_of_case(alloc, case)?;
    let mut text = Vec::new(alloc);
    if let Some(cause) = &summary.cause {
        append_text(&mut text, ": ")?;
        append_decision(&mut text, &summary.names, cause)?;
    }
    Ok(text)
}

fn append_line(
    out: &mut Vec<u8>,
    case: &Finished,
    time: Option<(u64, u32)>,
    why: &[u8],
) -> Result<(), NoMemory>
    ensures { OnOk result (out.new.items ≡ out.old.items ++ rest_by why.now time case.now) }
{
    append_between(out, " ", case.name.bytes(), " ")?;
    append_text(out, name_of(case.report.verdict))?;
    append_time(out, " ", time, " s")?;
    out.extend_from_slice(why)?;
    append_text(out, "\n")
}

// Appends the line that names the test case again, if it has failed and not only failures are printed.
fn append_failed(out: &mut Vec<u8>, case: &Finished, only: bool, why: &[u8]) -> Result<(), NoMemory>
    ensures { OnOk result (out.new.items ≡ out.old.items ++ again_by only why.now case.now) }
{
    if only || verdict_status(case.report.verdict) == 0 {
        return Ok(());
    }
    append_text(out, "failed:")?;
    append_line(out, case, None, why)
}

// Appends how long all took, if a clock said it: seconds, to a tenth.
fn append_whole_time(out: &mut Vec<u8>, time: Option<(u64, u32)>) -> Result<(), NoMemory>
    ensures { OnOk result (out.new.items ≡ out.old.items ++ option_map_or (λ (s : ℕ × ℕ).
        codes ", " ++ (decimal s.0 ++ (codes "." ++ (decimal (s.1 / 100) ++ codes " s")))) time []) }
{
    let Some((seconds, thousandths)) = time else {
        return Ok(());
    };
    let tenths = thousandths / 100;
    let text = format!(in *out.allocator(); ", {seconds}.{tenths} s")?;
    append_text(out, text.as_str())
}

// Appends the last line: how many have passed and how many have failed, and how long all took; nothing if there is none.
// A number that the machine lacks is more than there is memory for.
fn append_last(out: &mut Vec<u8>, tally: &Tally, time: Option<(u64, u32)>) -> Result<(), NoMemory>
    ensures { OnOk result (out.new.items ≡ out.old.items ++ last_line time tally.now) }
{
    if tally.cases == 0 {
        return Ok(());
    }
    let passed = tally.none.checked_add(tally.pass).ok_or(NoMemory)?;
    let failed = tally.inconc.checked_add(tally.fail).ok_or(NoMemory)?;
    let failed = failed.checked_add(tally.error).ok_or(NoMemory)?;
    append_number(out, passed as u64)?;
    append_count(out, " passed, ", failed)?;
    append_text(out, " failed")?;
    append_whole_time(out, time)?;
    append_text(out, "\n")
}

/// Reports each test case by a line as it begins and by one as it finishes, and passes it on to another observer, which
/// says whether the campaign continues. The test cases that have failed, with inconc, fail or error, are named again by
/// `end`, and counted. Or only these have a line, and none is named again. If a line can't be printed, nothing more is, and the campaign continues all the same.
#[derive(Drop)]
pub struct Progress<'a, 'c, O: Observer, E: Write, C: Clock> {
    alloc: Global,
    /// What measures the test cases.
    pub watch: &'a mut Stopwatch<'c, C>,
    /// The stopping rule of the campaign.
    stop_on: Option<Verdict>,
    /// Which lines are printed.
    pub shown: Shown<'a>,
    /// How many test cases were reported as they finished, by their verdicts.
    pub tally: Tally,
    /// Whether the next one has begun.
    pub begun: bool,
    /// The observer that is given the test cases.
    pub observer: &'a mut O,
    /// The writer that is printed to.
    pub writer: &'a mut E,
    /// The lines that name the failed test cases again.
    pub failed: &'a mut Vec<u8>,
    /// Why nothing more is printed, if a line could not be.
    pub fault: Option<OutFault>,
}

impl<'a, 'c, O: Observer, E: Write, C: Clock> Progress<'a, 'c, O, E, C> {
    /// Reports test cases by these lines, which are run under this stopping rule, and has this stopwatch measure them.
    /// Prints to this writer, and passes on to this observer. The lines that name the failed test cases again are kept in
    /// `failed`, instead of what it holds.
    pub fn new(
        alloc: Global,
        watch: &'a mut Stopwatch<'c, C>,
        shown: Shown<'a>,
        stop_on: Option<Verdict>,
        observer: &'a mut O,
        writer: &'a mut E,
        failed: &'a mut Vec<u8>,
    ) -> Progress<'a, 'c, O, E, C>
        ensures same_watch { result.watch.ghost_name ≡ watch.entry.ghost_name }
        ensures same_observer { result.observer.ghost_name ≡ observer.entry.ghost_name }
        ensures same_writer { result.writer.ghost_name ≡ writer.entry.ghost_name }
        ensures same_failed { result.failed.ghost_name ≡ failed.entry.ghost_name }
        ensures cases { result.watch.now.cases ≡ watch.old.cases }
        ensures observer { result.observer.now ≡ observer.old }
        ensures writer { result.writer.now ≡ writer.old }
        ensures shown { result.shown ≡ shown.entry }
        ensures none { HasTold E.contents (E.contents writer.old) [] result }
    {
        failed.clear();
        Progress {
            alloc,
            watch,
            stop_on,
            shown,
            tally: tally_cases(&[]),
            begun: false,
            observer,
            writer,
            failed,
            fault: None,
        }
    }

    #[tactic(auto, using(crate::proofs::Writing::prefix_none))]
    fn print_next(&mut self) -> Result<(), OutFault>
        ensures all { OnOk result (Appends (E.contents self.old.writer.now) (E.contents self.new.writer.now)
            (begun_text (self.old.shown.only, self.old.shown.names.now) self.old.tally.cases)) }
        ensures part { OnErr result (AppendsPrefix (E.contents self.old.writer.now) (E.contents self.new.writer.now)
            (begun_text (self.old.shown.only, self.old.shown.names.now) self.old.tally.cases)) }
        ensures only { OnlyPrints self.old self.new }
        ensures failed { self.new.failed ≡ self.old.failed }
    {
        let mut line = Vec::new(self.alloc);
        append_begun_line(&mut line, self.shown, self.tally.cases)?;
        print(self.writer, line.as_slice())
    }

    // Reports that the next test case begins, if it was not reported, there is one, and lines are still printed.
    fn tell_next(&mut self)
        ensures told { (start : Option (List ℕ)) (fs : List Finished)
            → HasTold E.contents start fs self.old → HasTold E.contents start fs self.new }
        ensures begun { self.new.fault ≡ None → self.new.begun ≡ true }
        ensures shown { self.new.shown ≡ self.old.shown }
        ensures watch { self.new.watch ≡ self.old.watch }
        ensures others { self.new.observer ≡ self.old.observer }
        ensures same_writer { self.new.writer.ghost_name ≡ self.old.writer.ghost_name }
        ensures same_failed { self.new.failed.ghost_name ≡ self.old.failed.ghost_name }
    {
        if self.begun {
            return;
        }
        match self.fault {
            Some(_) => {}
            None => match self.print_next() {
                Ok(()) => self.begun = true,
                Err(fault) => self.fault = Some(fault),
            },
        }
    }

    /// The next test case begins: reports it, if there is one, it was not reported, and lines are still printed. It is
    /// called before the campaign; `take` calls it before each test case after the first.
    pub fn begin(&mut self)
        ensures told { (start : Option (List ℕ)) (fs : List Finished)
            → HasTold E.contents start fs self.old → HasTold E.contents start fs self.new }
        ensures begun { self.new.fault ≡ None → self.new.begun ≡ true }
        ensures shown { self.new.shown ≡ self.old.shown }
        ensures watch { self.new.watch.now.cases ≡ self.old.watch.now.cases }
        ensures same_watch { self.new.watch.ghost_name ≡ self.old.watch.ghost_name }
        ensures others { self.new.observer ≡ self.old.observer }
        ensures same_writer { self.new.writer.ghost_name ≡ self.old.writer.ghost_name }
        ensures same_failed { self.new.failed.ghost_name ≡ self.old.failed.ghost_name }
    {
        self.tell_next();
        self.watch.begin();
    }

    // The line of the test case, which took this time, for this reason; none if only failures have one.
    fn line(
        &self,
        case: &Finished,
        time: Option<(u64, u32)>,
        why: &[u8],
    ) -> Result<Vec<u8>, NoMemory>
        ensures { IfOk result (λ v. v.items
            ≡ line_by_place (self.now.shown.only, self.now.shown.names.now) self.now.tally.cases why.now time case.now) }
    {
        let mut line = Vec::new(self.alloc);
        if !self.shown.only || verdict_status(case.report.verdict) != 0 {
            append_place(&mut line, self.tally.cases, self.shown.names)?;
            append_line(&mut line, case, time, why)?;
        }
        Ok(line)
    }

    // Prints the line of the test case, which took this time, and keeps the line that names it again if it has failed.
    #[tactic(auto, using(crate::proofs::Writing::prefix_none))]
    fn print_case(
        &mut self,
        case: &Finished,
        time: Option<(u64, u32)>,
        why: &[u8],
    ) -> Result<(), OutFault>
        ensures all { OnOk result (Appends (E.contents self.old.writer.now) (E.contents self.new.writer.now)
            (line_by_place (self.old.shown.only, self.old.shown.names.now) self.old.tally.cases why.now time case.now)) }
        ensures part { OnErr result (AppendsPrefix (E.contents self.old.writer.now) (E.contents self.new.writer.now)
            (line_by_place (self.old.shown.only, self.old.shown.names.now) self.old.tally.cases why.now time case.now)) }
        ensures failed { OnOk result (self.new.failed.now.items
            ≡ self.old.failed.now.items ++ again_by self.old.shown.only why.now case.now) }
        ensures only { OnlyPrints self.old self.new }
    {
        let line = self.line(case, time, why)?;
        append_failed(self.failed, case, self.shown.only, why)?;
        print(self.writer, line.as_slice())
    }

    // Reports the test case, which took this time. Returns the tally with it.
    #[tactic(auto, using(crate::proofs::Writing::prefix_none, crate::proofs::Lemmas::Telling::again_one))]
    fn tell_case(&mut self, case: &Finished, time: Option<(u64, u32)>) -> Result<Tally, OutFault>
        ensures all { OnOk result (Appends (E.contents self.old.writer.now) (E.contents self.new.writer.now)
            (finished_text (self.old.shown.only, self.old.shown.names.now) self.old.tally.cases time case.now)) }
        ensures part { OnErr result (AppendsPrefix (E.contents self.old.writer.now) (E.contents self.new.writer.now)
            (finished_text (self.old.shown.only, self.old.shown.names.now) self.old.tally.cases time case.now)) }
        ensures failed { OnOk result (self.new.failed.now.items
            ≡ self.old.failed.now.items ++ again_lines self.old.shown.only (case.now ∷ [])) }
        ensures only { OnlyPrints self.old self.new }
        ensures tally { IfOk result (IsOneMore self.old.tally case.now) }
    {
        let why = why(self.alloc, case)?;
        let tally = with_case(&self.tally, case)?;
        self.print_case(case, time, why.as_slice())?;
        Ok(tally)
    }

    // Reports the test case, which took this time, if lines are still printed.
    fn tell(&mut self, case: &Finished, time: Option<(u64, u32)>)
        ensures told { (start : Option (List ℕ)) (fs : List Finished)
            → HasTold E.contents start fs self.old → HasTold E.contents start (fs ++ case.now ∷ []) self.new }
        ensures shown { self.new.shown ≡ self.old.shown }
        ensures watch { self.new.watch ≡ self.old.watch }
        ensures others { self.new.observer ≡ self.old.observer }
        ensures same_writer { self.new.writer.ghost_name ≡ self.old.writer.ghost_name }
        ensures same_failed { self.new.failed.ghost_name ≡ self.old.failed.ghost_name }
    {
        self.tell_next();
        match self.fault {
            Some(_) => {}
            None => match self.tell_case(case, time) {
                Ok(tally) => {
                    self.tally = tally;
                    self.begun = false;
                }
                Err(fault) => self.fault = Some(fault),
            },
        }
    }

    // Prints the lines that name the test cases again that have failed, and the last one with this time.
    #[tactic(auto, using(crate::proofs::Writing::prefix_none))]
    fn print_closing(&mut self, time: Option<(u64, u32)>) -> Result<(), OutFault>
        ensures all { OnOk result (Appends (E.contents self.old.writer.now) (E.contents self.new.writer.now)
            (self.old.failed.now.items ++ last_line time self.old.tally)) }
        ensures part { OnErr result (AppendsPrefix (E.contents self.old.writer.now) (E.contents self.new.writer.now)
            (self.old.failed.now.items ++ last_line time self.old.tally)) }
        ensures only { OnlyPrints self.old self.new }
    {
        append_last(self.failed, &self.tally, time)?;
        print(self.writer, self.failed.as_slice())
    }

    /// Names the test cases again that have failed, and counts all, if lines are still printed; returns why a line could
    /// not be printed, if it is so.
    pub fn end(&mut self) -> Result<(), OutFault>
        ensures told { (start : Option (List ℕ)) (fs : List Finished) → HasTold E.contents start fs self.old
            → IsToldBy true (self.old.shown.only, self.old.shown.names.now) start (E.contents self.new.writer.now) fs result }
        ensures watch { self.new.watch ≡ self.old.watch }
        ensures others { self.new.observer ≡ self.old.observer }
        ensures same_writer { self.new.writer.ghost_name ≡ self.old.writer.ghost_name }
        ensures same_failed { self.new.failed.ghost_name ≡ self.old.failed.ghost_name }
        ensures shown { self.new.shown ≡ self.old.shown }
    {
        match self.fault {
            Some(fault) => Err(fault),
            None => {
                let time = self.watch.whole();
                self.print_closing(time)
            }
        }
    }
}

impl<O: Observer, E: Write, C: Clock> Observer for Progress<'_, '_, O, E, C> {
    ghost use Rattle.tc_report.specs.declared.results.Finished.{Finished};

    ghost takes = { λ before f after goes_on.
        O.takes before.observer.now f after.observer.now goes_on
        × ((start : Option (List ℕ)) (fs : List Finished)
        → HasTold E.contents start fs before → HasTold E.contents start (fs ++ f ∷ []) after)
        × KeepsTimes before.watch.now.cases 1 after.watch.now.cases
        × (after.watch.ghost_name ≡ before.watch.ghost_name)
        × (after.observer.ghost_name ≡ before.observer.ghost_name)
        × (after.writer.ghost_name ≡ before.writer.ghost_name)
        × (after.failed.ghost_name ≡ before.failed.ghost_name)
        × (after.shown ≡ before.shown) };

    fn take(&mut self, case: Finished) -> bool {
        let last = is_met(self.stop_on, case.report.verdict);
        let time = self.watch.finish();
        self.tell(&case, time);
        let goes_on = self.observer.take(case);
        if goes_on && !last {
            self.begin();
        }
        goes_on
    }
}

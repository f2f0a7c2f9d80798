//! The text of a campaign, written as its test cases finish.
ghost use Rattle.std.specs.{Prelude.{◌≡◌, [], None, OnOk, OnErr, IfOk, IfErr}, Io.KnownBytes.Appends};
ghost use Rattle.tc_verdict.specs.declared.verdict.Verdict.TheVariants.{None as NoVerdict};
ghost use Rattle.tc_rules.specs.Prelude.{worse};
ghost use Rattle.tc_report.specs.{Inside.IsOneMore, Live.Writes, Live.form_parts, Output.LeavesPrefix, Report.tally_of_cases, Status.ending_status as spec_status};

use crate::blocks::append_block;
use crate::fault::OutFault;
use crate::observer::Observer;
use crate::output::write_flushed;
use crate::records::{case_row, csv_header};
use crate::report::{append_case, append_ending, append_tally};
use crate::results::{CampaignEnd, Finished, Tally, tally_cases, with_case};
use crate::status::ending_status;
use std::alloc::Global;
use std::io::Write;
use tc_blocks::Kind;
use tc_entry::{NoMemory, Verdict};
use tc_verdict::worse_of;

/// In which form a `LiveWriter` writes the results of a campaign.
#[derive(Clone, Copy, Debug, PartialEq, Eq)]
pub enum LiveForm {
    /// The text report.
    Text,
    /// The CSV report.
    Csv,
    /// The history of each test case.
    History,
    /// The evidence of each test case.
    Evidence,
}

fn opening_text(alloc: Global, form: LiveForm) -> Result<Vec<u8>, NoMemory>
    ensures { IfOk result (λ v. v.items ≡ (form_parts form).0) }
{
    match form {
        LiveForm::Csv => csv_header(alloc),
        LiveForm::Text | LiveForm::History | LiveForm::Evidence => Ok(Vec::new(alloc)),
    }
}

fn part_text(alloc: Global, form: LiveForm, case: &Finished) -> Result<Vec<u8>, NoMemory>
    ensures { IfOk result (λ v. v.items ≡ (form_parts form).1 case.now) }
{
    let mut text = Vec::new(alloc);
    match form {
        LiveForm::Text => append_case(&mut text, case)?,
        LiveForm::Csv => return case_row(alloc, case),
        LiveForm::History => append_block(&mut text, Kind::History2, case)?,
        LiveForm::Evidence => append_block(&mut text, Kind::Evidence, case)?,
    }
    Ok(text)
}

fn closing_text(
    alloc: Global,
    form: LiveForm,
    tally: &Tally,
    ending: &CampaignEnd,
) -> Result<Vec<u8>, NoMemory>
    ensures { IfOk result (λ v. v.items ≡ (form_parts form).2 tally.now ending.now) }
{
    let mut text = Vec::new(alloc);
    if form == LiveForm::Text {
        append_tally(&mut text, tally)?;
        append_ending(&mut text, ending)?;
    }
    Ok(text)
}

/// Writes the text of a campaign as its test cases finish, and keeps none of them. What is before them is written by
/// `begin`, each of them as it is taken, and what follows them by `end`. Each piece is made whole before anything of it
/// is written, and the writer is flushed after it. At a fault it ends the campaign.
#[derive(Drop)]
pub struct LiveWriter<'a, W: Write> {
    alloc: Global,
    /// The form of the text.
    pub form: LiveForm,
    /// What is written to.
    pub writer: &'a mut W,
    /// The test cases that were written.
    pub tally: Tally,
    /// Their worst overall verdict.
    pub worst: Verdict,
    /// Why the campaign was ended, if it was.
    pub fault: Option<OutFault>,
}

impl<'a, W: Write> LiveWriter<'a, W> {
    /// Writes to this writer in this form; nothing is written so far.
    pub fn new(alloc: Global, form: LiveForm, writer: &'a mut W) -> LiveWriter<'a, W>
        ensures same { result.writer.ghost_name ≡ writer.entry.ghost_name }
        ensures now { result.writer.now ≡ writer.old }
        ensures form { result.form ≡ form }
        ensures tally { result.tally ≡ tally_of_cases [] }
        ensures worst { result.worst ≡ NoVerdict }
        ensures fault { result.fault ≡ None }
    {
        LiveWriter {
            alloc,
            form,
            writer,
            tally: tally_cases(&[]),
            worst: Verdict::None,
            fault: None,
        }
    }

    /// Writes what is before the test cases.
    pub fn begin(&mut self) -> Result<(), OutFault>
        ensures all { OnOk result (Appends (W.contents self.old.writer.now) (W.contents self.new.writer.now)
            (form_parts self.old.form).0) }
        ensures part { IfErr result (LeavesPrefix (W.contents self.old.writer.now) (W.contents self.new.writer.now)
            (form_parts self.old.form).0) }
        ensures form { self.new.form ≡ self.old.form }
        ensures tally { self.new.tally ≡ self.old.tally }
        ensures worst { self.new.worst ≡ self.old.worst }
        ensures fault { self.new.fault ≡ self.old.fault }
        ensures same { self.new.writer.ghost_name ≡ self.old.writer.ghost_name }
    {
        let text = opening_text(self.alloc, self.form)?;
        write_flushed(self.writer, text.as_slice())
    }

    // Writes the test case, and counts it.
    fn write_case(&mut self, case: &Finished) -> Result<(), OutFault>
        ensures all { OnOk result (Appends (W.contents self.old.writer.now) (W.contents self.new.writer.now)
            ((form_parts self.old.form).1 case.now)) }
        ensures part { IfErr result (LeavesPrefix (W.contents self.old.writer.now) (W.contents self.new.writer.now)
            ((form_parts self.old.form).1 case.now)) }
        ensures form { self.new.form ≡ self.old.form }
        ensures tally { OnOk result (IsOneMore self.old.tally case.now self.new.tally) }
        ensures worst { OnOk result (self.new.worst ≡ worse self.old.worst case.now.report.verdict) }
        ensures uncounted { OnErr result (self.new.tally ≡ self.old.tally) }
        ensures unjudged { OnErr result (self.new.worst ≡ self.old.worst) }
        ensures fault { self.new.fault ≡ self.old.fault }
        ensures same { self.new.writer.ghost_name ≡ self.old.writer.ghost_name }
    {
        let tally = with_case(&self.tally, case)?;
        let text = part_text(self.alloc, self.form, case)?;
        write_flushed(self.writer, text.as_slice())?;
        self.tally = tally;
        self.worst = worse_of(self.worst, case.report.verdict);
        Ok(())
    }

    /// Writes what follows the test cases, and returns the exit status for a campaign of them that ended so.
    pub fn end(&mut self, ending: &CampaignEnd) -> Result<u8, OutFault>
        ensures all { OnOk result (Appends (W.contents self.old.writer.now) (W.contents self.new.writer.now)
            ((form_parts self.old.form).2 self.old.tally ending.now)) }
        ensures part { IfErr result (LeavesPrefix (W.contents self.old.writer.now) (W.contents self.new.writer.now)
            ((form_parts self.old.form).2 self.old.tally ending.now)) }
        ensures status { IfOk result (λ status. status ≡ spec_status ending.now self.old.worst) }
        ensures fault { self.new.fault ≡ self.old.fault }
        ensures same { self.new.writer.ghost_name ≡ self.old.writer.ghost_name }
    {
        let text = closing_text(self.alloc, self.form, &self.tally, ending)?;
        write_flushed(self.writer, text.as_slice())?;
        Ok(ending_status(ending, self.worst))
    }
}

impl<W: Write> Observer for LiveWriter<'_, W> {
    ghost takes = { λ before f after goes_on.
        Writes W.contents before f after goes_on
        × (after.writer.ghost_name ≡ before.writer.ghost_name) };

    fn take(&mut self, case: Finished) -> bool {
        match self.write_case(&case) {
            Ok(()) => true,
            Err(fault) => {
                self.fault = Some(fault);
                false
            }
        }
    }
}

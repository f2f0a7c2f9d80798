//! The results of a campaign, as the program writes them.
ghost use Rattle.std.specs.{Prelude.{◌≡◌, [], IfOk, IfErr, OnOk}, Io.KnownBytes.Appends};
ghost use Rattle.tc_report.specs.Prelude.{results_status, LeavesPrefix, no_times};
ghost use Rattle.tc_run.specs.Output.{LeavesUnwritten, of_output, live_form as spec_form, results_in_form};

use std::alloc::Global;
use std::io::Write;
use tc_answer::RunFault;
use tc_campaign::{
    LiveForm, OutFault, Results, status_of, write_csv, write_evidence, write_history, write_text,
};
use tc_command::{Form, VERSION};
use tc_entry::Name;
use tc_report::{Times, summaries_of_results, write_junit};

/// The fault of a text that was not written whole.
pub fn fault_of(fault: OutFault) -> RunFault
    ensures { result ≡ of_output fault }
{
    match fault {
        OutFault::NoMemory => RunFault::NoMemory,
        OutFault::Write => RunFault::Write,
    }
}

/// The form in which test cases are written as they finish, if it is asked for that they are; a JUnit report has none,
/// since its head counts all of them.
pub(crate) fn live_form(live: bool, form: &Form) -> Option<LiveForm>
    ensures { result ≡ spec_form live form.now }
{
    if !live {
        return None;
    }
    match form {
        Form::Text => Some(LiveForm::Text),
        Form::Csv => Some(LiveForm::Csv),
        Form::History => Some(LiveForm::History),
        Form::Evidence => Some(LiveForm::Evidence),
        Form::Junit(_) => None,
    }
}

/// Writes the results of test cases with these names and times in this form.
pub(crate) fn write_results<W: Write>(
    alloc: Global,
    form: &Form,
    times: &Times,
    names: &[Name],
    results: &Results,
    writer: &mut W,
) -> Result<(), OutFault>
    ensures done { OnOk result (Appends (W.contents writer.old) (W.contents writer.new)
        (results_in_form form.now times.now names.now results.now)) }
    ensures refused { IfErr result (LeavesPrefix (W.contents writer.old) (W.contents writer.new)
        (results_in_form form.now times.now names.now results.now)) }
{
    match form {
        Form::Text => write_text(alloc, results, writer),
        Form::Csv => write_csv(alloc, results, writer),
        Form::History => write_history(alloc, results, writer),
        Form::Evidence => write_evidence(alloc, results, writer),
        Form::Junit(suite) => {
            let cases = summaries_of_results(alloc, names, results)?;
            write_junit(alloc, VERSION, suite, times, cases.as_slice(), writer)
        }
    }
}

/// Writes the results in this form, and returns the exit status for them. The text is made whole before anything is
/// written. A JUnit report has the test cases of the results, and none that was not run, and no times.
pub fn give<W: Write>(
    alloc: Global,
    results: &Results,
    form: &Form,
    writer: &mut W,
) -> Result<u8, RunFault>
    ensures status { IfOk result (λ status. status ≡ results_status results.now) }
    ensures done { OnOk result (Appends (W.contents writer.old) (W.contents writer.new)
        (results_in_form form.now no_times [] results.now)) }
    ensures refused { IfErr result (LeavesUnwritten (W.contents writer.old) (W.contents writer.new)
        (results_in_form form.now no_times [] results.now)) }
{
    match write_results(alloc, form, &Times::none(alloc), &[], results, writer) {
        Ok(()) => Ok(status_of(results)),
        Err(fault) => Err(fault_of(fault)),
    }
}

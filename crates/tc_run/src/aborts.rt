//! The line for a campaign that was aborted.
ghost use Rattle.std.specs.{Prelude.{◌≡◌, ◌++◌, IfOk, OnErr, OnOk, Result, is_some}, Io.StartsWith};
ghost use Rattle.tc_report.specs.Prelude.{abort_text, aborted_case, aborted_text};
ghost use Rattle.tc_answer.specs.Prelude.{IsTold, said};
ghost use Rattle.tc_run.specs.Inside.{first_fault};

use crate::output::fault_of;
use std::io::Write;
use tc_answer::RunFault;
use tc_entry::{Name, NoMemory};
use tc_report::{CampaignEnd, OutFault, Results, append_aborted, write_abort};
use tc_rules::CaseError;
use tc_text::append_text;

// Appends the line for a campaign that was aborted; if memory runs out, a part of it.
fn append_abort(out: &mut Vec<u8>, name: &Name, why: CaseError) -> Result<(), NoMemory>
    ensures ok { OnOk result (out.new.items ≡ out.old.items ++ said (aborted_text name.now why)) }
    ensures err { OnErr result (StartsWith out.new.items out.old.items) }
{
    append_text(out, "ttrun: ")?;
    append_aborted(out, name, why)?;
    out.push(b'\n')?;
    Ok(())
}

/// If the campaign was aborted, appends its line on standard error and returns true; otherwise appends nothing and
/// returns false. If memory runs out nothing is appended.
pub fn abort_line(results: &Results, out: &mut Vec<u8>) -> Result<bool, NoMemory>
    ensures answer { IfOk result (λ is. is ≡ is_some (aborted_case results.now.ending)) }
    ensures ok { OnOk result (out.new.items ≡ out.old.items ++ abort_text results.now.ending) }
    ensures err { OnErr result (out.new.items ≡ out.old.items) }
{
    let CampaignEnd::Aborted { name, why } = &results.ending else {
        return Ok(false);
    };
    let start = out.len();
    match append_abort(out, name, *why) {
        Ok(()) => Ok(true),
        Err(error) => {
            out.truncate(start);
            Err(error)
        }
    }
}

/// Writes the line for a campaign that was aborted; that takes no memory.
fn tell_abort<E: Write>(errors: &mut E, results: &Results) -> Result<(), RunFault>
    ensures { IsTold (E.contents errors.old) (E.contents errors.new) (abort_text results.now.ending) result }
{
    write_abort(results, errors)?;
    Ok(())
}

/// Writes the line for a campaign that was aborted, after what was printed of its test cases; returns the first fault
/// of both.
pub(crate) fn tell_end<E: Write>(
    errors: &mut E,
    results: &Results,
    told: Result<(), OutFault>,
) -> Result<(), RunFault>
    ensures { (line : Result (Unit {0}) RunFault)
        × IsTold (E.contents errors.old) (E.contents errors.new) (abort_text results.now.ending) line
        × (result ≡ first_fault told line) }
{
    let line = tell_abort(errors, results);
    match told {
        Ok(()) => line,
        Err(fault) => Err(fault_of(fault)),
    }
}

//! What the program's parts say together: each function changes nothing, and its contract is the law.
ghost use Rattle.std.specs.Prelude.{All, List, map};
ghost use Rattle.tc_rules.specs.Prelude.{IsName};
ghost use Rattle.tc_blocks.specs.declared.header.Kind.{Kind};
ghost use Rattle.tc_command.specs.declared.task.Form.{Form};
ghost use Rattle.tc_campaign.specs.Prelude.{Outline};
ghost use Rattle.tc_report.specs.Prelude.{no_times};
ghost use Rattle.tc_run.specs.Prelude.{results_in_form};
ghost use Rattle.tc_program.specs.{Inside.FitsItsTypes, Inside.WereRun, WrittenHistories.AreFoundLegal, WrittenHistories.AreReported};

use tc_blocks::laws::entries_fit;
use tc_campaign::{Finished, Results};
use tc_entry::Name;

fn name_fits(name: &Name)
    ensures { IsName name.now }
{
    let _bytes = name.bytes();
}

fn names_fit(names: &[Name])
    ensures { All IsName names.now }
{
    for name in names {
        name_fits(name);
    }
}

fn case_fits(case: &Finished)
    ensures { FitsItsTypes case.now }
{
    let _name = case.name.bytes();
    names_fit(case.names.as_slice());
    entries_fit(case.report.history.as_slice());
}

fn cases_fit(cases: &[Finished])
    ensures { All FitsItsTypes cases.now }
{
    for case in cases {
        case_fits(case);
    }
}

// The finished test cases of a campaign were run, each to its end; the names and the numbers in their histories are
// those of their types.
fn were_run(results: &Results)
    ensures histories { (cases : List Outline)
        → AreReported cases results.now → WereRun Kind.History2 results.now }
    ensures evidence { (cases : List Outline)
        → AreReported cases results.now → WereRun Kind.Evidence results.now }
{
    cases_fit(results.finished.as_slice());
}

/// What is written of them as histories or as evidence is found legal by `check`, and reported as the run by `report`.
/// It is refused only if memory runs out.
pub fn written_is_legal(results: &Results)
    ensures histories { (cases : List Outline) → AreReported cases results.now
        → AreFoundLegal Kind.History2 (results_in_form Form.History no_times (map (λ c. c.name) cases) results.now) results.now }
    ensures evidence { (cases : List Outline) → AreReported cases results.now
        → AreFoundLegal Kind.Evidence (results_in_form Form.Evidence no_times (map (λ c. c.name) cases) results.now) results.now }
{
    were_run(results);
}

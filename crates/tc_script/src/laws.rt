//! Laws of the reports of runs of scripts: each function does nothing, and its contract is the law.
ghost use Rattle.std.specs.Prelude.{◌≡◌, List, true};
ghost use Rattle.tc_rules.specs.declared.closed.Closed.{Closed};
ghost use Rattle.tc_step.specs.Prelude.{ScriptView};
ghost use Rattle.tc_course.specs.{declared.witness.Witness.Witness, Prelude.{AllFound, IsWitness, is_found}};
ghost use Rattle.tc_script.specs.Laws.{IsReportOf};

/// The history of a report of a run of scripts is a complete course of them, with the verdict of the report.
pub fn report_is_course()
    ensures { (scripts : List ScriptView) (c : Closed) → IsReportOf scripts c
        → IsWitness scripts c.history c.verdict }
{}

/// If the verdict of each complete course is found, the verdict of each report of a run of the scripts is.
#[tactic(auto, using(crate::proofs::Lemmas::Reports::report_is_found))]
pub fn report_is_found()
    ensures { (scripts : List ScriptView) (found : List Witness) (c : Closed) → AllFound scripts found
        → IsReportOf scripts c → is_found found c.verdict ≡ true }
{}

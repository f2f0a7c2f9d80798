//! What the dynamic error of a deciding call means.
ghost use Rattle.std.specs.Prelude.{◌≡◌, ◌++◌, OnOk, reverse};
ghost use Rattle.tc_report.specs.Meaning as spec;

use crate::naming::{Names, append_around_run};
use tc_entry::{Entry, Fault, NoMemory, Op, Reply, Run};
use tc_rules::component_of;
use tc_text::append_text;

/// The run that a Start is refused since this history started it.
pub(crate) fn started_before(history: &[Entry], entry: &Entry) -> Option<Run>
    ensures { result ≡ spec.started_before (reverse history.now) entry.now.op entry.now.reply }
{
    match (&entry.op, entry.reply) {
        (Op::Start { run, .. }, Reply::Fault(Fault::NoBehaviour))
            if run.0 != 0 && component_of(history, *run).is_some() => { Some(*run) }
        _ => None,
    }
}

fn fault_words(fault: Fault) -> &'static str
    ensures { result.now ≡ spec.fault_words fault }
{
    match fault {
        Fault::NoComponent => ": a component that the call names does not exist",
        Fault::NotMain => ": only run 0 may say any or all",
        Fault::StartMain => ": the main component is never started",
        Fault::AlreadyRunning => ": another run is running on the component",
        Fault::NotStartable => ": the component is killed",
        Fault::NoBehaviour => ": there is no such run to start",
        Fault::TooMany => ": there are as many components as a test case may have",
        Fault::Stuck => ": no run can continue",
    }
}

/// Appends what a reply means, after a colon, if it is a dynamic error: that this run was started before, if there is one.
/// If memory runs out, a part of it.
pub(crate) fn append_meaning(
    out: &mut Vec<u8>,
    names: &Names,
    again: Option<Run>,
    reply: Reply,
) -> Result<(), NoMemory>
    ensures { OnOk result (out.new.items ≡ out.old.items ++ spec.meaning_text names.now again reply) }
{
    match (again, reply) {
        (Some(run), _) => {
            let last = " was started before: a behaviour is started at most once";
            append_around_run(out, ": run ", names, run, last)
        }
        (None, Reply::Fault(fault)) => append_text(out, fault_words(fault)),
        (None, _) => Ok(()),
    }
}

//! What is wrong with the report of a case.
ghost use Rattle.std.specs.Prelude.{◌≤◌};
ghost use Rattle.tc_entry.specs.declared.limits.TheConstants.{BEHAVIOURS};

use std::alloc::Global;
use tc_book::Closed;
use tc_entry::{Args, BEHAVIOURS, Comp, Entry, Op, Reply, Run, UserVerdict, Verdict};
use tc_rules::replay_check;
use tc_verdict::overwrite;

/// How many entries a case of that many behaviours has at least; one of a few may end soon after its starts.
fn least(behaviours: u16) -> usize {
    match usize::from(behaviours) {
        BEHAVIOURS => 200,
        few if few < 10 => few,
        some => 3 * some,
    }
}

/// Whether nine of ten runs of a case were started.
fn has_started(behaviours: u16, started: usize) -> bool {
    usize::from(behaviours) * 9 <= started.saturating_mul(10)
}

/// Whether the local verdict of the run's component is no better than a setting of the run.
fn is_counted(
    comps: &[Comp; BEHAVIOURS],
    locals: &[Verdict],
    run: Run,
    setting: UserVerdict,
) -> bool {
    let Some(comp) = comps.get(usize::from(run.0)) else {
        return false;
    };
    match locals.get(comp.0 as usize) {
        Some(local) => overwrite(*local, setting) == *local,
        None => false,
    }
}

/// Whether each setting that was replied Ok is counted in the local verdict of its component.
fn are_counted(history: &[Entry], locals: &[Verdict]) -> bool {
    let mut comps = [Comp(0); BEHAVIOURS];
    for entry in history {
        match (&entry.op, entry.reply) {
            (Op::Start { comp, run, .. }, Reply::Ok) => {
                if let Some(place) = comps.get_mut(usize::from(run.0)) {
                    *place = *comp;
                }
            }
            (Op::SetVerdict(setting), Reply::Ok) => {
                if !is_counted(&comps, locals, entry.caller, *setting) {
                    return false;
                }
            }
            _ => {}
        }
    }
    true
}

/// What is wrong with the report of a case of that many behaviours, if anything is.
pub(crate) fn complaint(alloc: Global, behaviours: u16, closed: &Closed) -> Option<&'static str>
    requires some { 1 ≤ behaviours }
    requires few { behaviours ≤ BEHAVIOURS }
{
    let history = closed.history.as_slice();
    if replay_check(alloc, behaviours, history).ok() != Some(closed.verdict) {
        return Some("it is replayed otherwise");
    }
    if !are_counted(history, closed.locals.as_slice()) {
        return Some("a setting is not counted");
    }
    if !has_started(behaviours, closed.logs.as_slice().len()) {
        return Some("it started too few runs");
    }
    if history.len() < least(behaviours) {
        return Some("it has too few entries");
    }
    None
}

/// An entry of a run that was replied Ok.
fn entry(caller: u16, op: Op) -> Entry {
    Entry {
        caller: Run(caller),
        op,
        reply: Reply::Ok,
    }
}

/// Whether a setting that a report lost is seen, and none of those that it has.
pub(crate) fn sees_lost_settings() -> bool {
    let start = Op::Start {
        comp: Comp(1),
        run: Run(2),
        args: Args::new(),
    };
    let setting = Op::SetVerdict(UserVerdict::Inconc);
    let history = [entry(0, start), entry(2, setting)];
    !are_counted(&history, &[Verdict::Fail, Verdict::Pass])
        & are_counted(&history, &[Verdict::Fail, Verdict::Inconc])
        & are_counted(&history, &[Verdict::Fail, Verdict::Fail])
}

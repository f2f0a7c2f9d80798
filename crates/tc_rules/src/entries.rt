//! What one entry says of the case, of a component and of a run.
ghost use Rattle.std.specs.Prelude.{◌≡◌, ◌||◌};
ghost use Rattle.tc_rules.specs.History as history;
ghost use Rattle.tc_rules.specs.Laws as laws;
ghost use Rattle.tc_rules.specs.Inside.Words.{started_run};
ghost use Rattle.tc_rules.specs.Phases as phases;
ghost use Rattle.tc_rules.specs.Waiting as waits;

use crate::awaited::Awaited;
use tc_entry::{Comp, Entry, Op, Reply};
use tc_verdict::Run;

pub(crate) fn is_stop_of(op: &Op, comp: u32) -> bool
    ensures { result ≡ history.is_stop_of op.now comp }
{
    matches!(op, Op::Stop(group) if group.is_of(comp))
}

pub(crate) fn is_kill_of(op: &Op, comp: u32) -> bool
    ensures { result ≡ history.is_kill_of op.now comp }
{
    matches!(op, Op::Kill(group) if group.is_of(comp))
}

/// Whether the operation can halt a component's run by its reply Ok: stop, kill, testcase.stop, or the end of a behaviour.
pub fn is_halting(op: &Op) -> bool
    ensures { result ≡ laws.halting_op op.now }
{
    matches!(op, Op::Stop(_) | Op::Kill(_) | Op::StopCase | Op::Finish)
}

/// Whether the operation starts, halts and kills nothing.
pub fn keeps_phases(op: &Op) -> bool
    ensures { result ≡ laws.keeps_phases op.now }
{
    !is_halting(op) && !matches!(op, Op::Start { .. })
}

/// Whether this is the component.
pub fn is_comp(own: Option<Comp>, comp: u32) -> bool
    ensures { result ≡ history.is_comp own comp }
{
    matches!(own, Some(c) if c.0 == comp)
}

/// Whether the entry ends the test case.
pub fn ends_case(entry: &Entry) -> bool
    ensures { result ≡ history.ends_case entry.now }
{
    !entry.reply.is_ended()
        && (entry.reply.is_fault()
            || matches!(entry.op, Op::StopCase)
            || (matches!(entry.op, Op::Finish) && entry.caller.0 == 0)
            || is_stop_of(&entry.op, 0)
            || is_kill_of(&entry.op, 0))
}

/// Whether the operation is a Stop or Kill of the component.
fn is_end_of(op: &Op, comp: u32) -> bool
    ensures { result ≡ (history.is_stop_of op.now comp || history.is_kill_of op.now comp) }
{
    matches!(op, Op::Stop(group) | Op::Kill(group) if group.is_of(comp))
}

/// Whether an entry by a run on component own ends its pass.
#[tactic(auto, unfolding(crate::specs::History::ends_pass))]
pub fn ends_pass(own: Comp, entry: &Entry) -> bool
    ensures { result ≡ history.ends_pass own entry.now }
{
    match entry.reply {
        Reply::Ended | Reply::Fault(_) => true,
        _ => {
            matches!(entry.op, Op::Finish | Op::StopCase)
                || is_end_of(&entry.op, 0)
                || is_end_of(&entry.op, own.0)
        }
    }
}

pub(crate) fn kills(entry: &Entry, comp: u32) -> bool
    ensures { result ≡ history.kills entry.now comp }
{
    ends_case(entry) || (!entry.reply.is_ended() && is_kill_of(&entry.op, comp))
}

pub(crate) fn halts(own: Option<Comp>, entry: &Entry, comp: u32) -> bool
    ensures { result ≡ history.halts own entry.now comp }
{
    ends_case(entry)
        || (!entry.reply.is_ended()
            && ((matches!(entry.op, Op::Finish) && is_comp(own, comp))
                || is_stop_of(&entry.op, comp)
                || is_kill_of(&entry.op, comp)))
}

pub(crate) fn halts_from_outside(own: Option<Comp>, entry: &Entry, comp: u32) -> bool
    ensures { result ≡ phases.halts_from_outside own entry.now comp }
{
    halts(own, entry, comp)
        && (is_stop_of(&entry.op, comp) || is_kill_of(&entry.op, comp))
        && !is_comp(own, comp)
}

pub(crate) fn start_in(entry: &Entry, comp: u32) -> Option<Run>
    ensures { result ≡ phases.start_in entry.now comp }
{
    match &entry.op {
        Op::Start { comp: c, run, .. } if entry.reply.is_ok() && c.0 == comp => Some(*run),
        _ => None,
    }
}

pub(crate) fn parks(op: &Op, reply: Reply) -> Option<Awaited>
    ensures { result ≡ waits.parks op.now reply }
{
    match (op, reply) {
        (Op::Wait { killed, target } | Op::Wake { killed, target }, Reply::Parked) => {
            let (killed, target) = (*killed, *target);
            Some(Awaited { killed, target })
        }
        _ => None,
    }
}

/// The component on which an entry starts the run.
pub fn started_on(entry: &Entry, run: u16) -> Option<Comp>
    ensures { result ≡ history.started_on entry.now run }
{
    match &entry.op {
        Op::Start { comp, run: b, .. } if entry.reply.is_ok() && b.0 == run => Some(*comp),
        _ => None,
    }
}

/// The run that an operation starts.
pub(crate) fn started_run(op: &Op) -> Option<Run>
    ensures { result ≡ started_run op.now }
{
    match op {
        Op::Start { run, .. } => Some(*run),
        _ => None,
    }
}

/// The component that a Create made.
pub fn created(op: &Op, reply: Reply) -> Option<Comp>
    ensures { result ≡ history.created op.now reply }
{
    match (op, reply) {
        (Op::Create { .. }, Reply::Made(comp)) => Some(comp),
        _ => None,
    }
}

//! What one entry says of its caller and of the run that it starts.
ghost use Rattle.std.specs.{Prelude.{◌≡◌, []}, Option.option_map_or};
ghost use Rattle.tc_rules.specs.Prelude.{start};
ghost use Rattle.tc_entry.specs.Reply as replies;
ghost use Rattle.tc_course.specs.Inside.{wake_if};
ghost use Rattle.tc_course.specs.Course as courses;

use tc_entry::{Comp, Entry, Op, Reply};

/// Whether the operation is a Wake.
pub(crate) fn is_wake(op: &Op) -> bool
    ensures { result ≡ replies.is_wake op.now }
{
    matches!(op, Op::Wake { .. })
}

/// The Wake to come after this entry.
pub(crate) fn wake_after(entry: &Entry) -> Option<Op>
    ensures { result ≡ wake_if entry.now.op entry.now.reply }
{
    match (entry.reply, &entry.op) {
        (Reply::Parked, Op::Wait { killed, target } | Op::Wake { killed, target }) => {
            Some(Op::Wake {
                killed: *killed,
                target: *target,
            })
        }
        _ => None,
    }
}

/// Whether after this reply the caller has continued, or the case is over.
pub fn has_gone_on(reply: Reply) -> bool
    ensures { result ≡ courses.goes_on reply }
{
    !matches!(reply, Reply::Ended | Reply::Parked)
}

/// The arguments with which this operation starts a run, if it starts one.
pub(crate) fn arguments(op: &Op) -> &[Comp]
    ensures { result.now ≡ option_map_or (λ t. t.2) (start op.now) [] }
{
    match op {
        Op::Start { args, .. } => args.as_slice(),
        _ => &[],
    }
}

//! How many bytes the input of a task may have.
ghost use Rattle.std.specs.Prelude.{◌≡◌, true};
ghost use Rattle.tc_blocks.specs.declared.limit.Limit.{Limit};
ghost use Rattle.tc_program.specs.{Inside.is_whole, Limits.has_blocks as spec_blocks, Limits.limit_of};

use tc_answer::{HISTORY_LIMIT, SCRIPT_LIMIT};
use tc_command::Task;

/// Whether the text of the task has histories or evidence after a script.
pub(crate) fn has_blocks(task: &Task) -> bool
    ensures { result ≡ spec_blocks task.now }
{
    match task {
        Task::Compare { .. } => true,
        Task::List { choice, .. } => choice.failed,
        Task::Run(options) => options.choice.failed,
        Task::Explore(options) => options.choice.failed,
        _ => false,
    }
}

/// How many bytes a text of the task may have that is kept.
pub(crate) fn text_limit(task: &Task) -> usize
    ensures { is_whole (limit_of task.now) ≡ true → limit_of task.now ≡ Limit.Whole result }
{
    match task {
        Task::Check { .. } | Task::Report { .. } | Task::Model { .. } => HISTORY_LIMIT,
        _ if has_blocks(task) => HISTORY_LIMIT,
        _ => SCRIPT_LIMIT,
    }
}

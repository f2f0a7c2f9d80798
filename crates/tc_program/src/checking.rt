//! The subcommand `check`, over a reader and a writer.
ghost use Rattle.std.specs.Prelude.{Bool};
ghost use Rattle.tc_command.specs.declared.task.Task.TheVariants.{Check};
ghost use Rattle.tc_judge.specs.Prelude.{ChoosesEach};
ghost use Rattle.tc_program.specs.Made.{Does};

use crate::made::write_answer;
use std::alloc::Global;
use std::io::{Read, Write};
use tc_answer::RunFault;
use tc_command::Choice;
use tc_judge::check_input;

/// Checks histories and evidence: replays each block on a table of its own, writes which are legal, and returns the status: 0 if all are,
/// otherwise 3.
///
/// The whole input is read, part by part, and the output made, before anything is written.
pub fn check<R: Read, W: Write>(
    alloc: Global,
    reader: &mut R,
    writer: &mut W,
) -> Result<u8, RunFault>
    ensures { (choice : Choice) (explains : Bool) → ChoosesEach choice
        → Does (Check choice explains) (R.remaining reader.old) (W.contents writer.old) (W.contents writer.new) result }
{
    match check_input(alloc, &Choice::all(alloc), reader) {
        Ok(answer) => write_answer(Ok(answer), writer),
        Err(fault) => Err(fault),
    }
}

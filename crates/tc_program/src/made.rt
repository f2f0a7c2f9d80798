//! What is made of a text, as it is written.
ghost use Rattle.std.specs.Prelude.{List, ℕ};
ghost use Rattle.tc_program.specs.{Inside.WritesTo, Made.IsMade};

use std::io::Write;
use tc_answer::{Answer, RunFault};
use tc_command::Task;
use tc_stream::write_whole;

/// Writes what an answer has for standard output, and returns its status; a fault stays.
pub(crate) fn write_answer<W: Write>(
    made: Result<Answer, RunFault>,
    writer: &mut W,
) -> Result<u8, RunFault>
    ensures { (task : Task) (text : List ℕ) → IsMade task text made → WritesTo task text (W.contents writer.old) (W.contents writer.new) result }
{
    let answer = made?;
    write_whole(writer, answer.out.as_slice())?;
    Ok(answer.status)
}

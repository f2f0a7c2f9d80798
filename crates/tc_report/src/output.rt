//! Appending to a text, and writing one that was made whole.
ghost use Rattle.std.specs.{Prelude.{◌≡◌, ◌++◌, OnOk, OnErr, IfErr}, Fmt.decimal, Io.KnownBytes.Appends, Io.StartsWith};
ghost use Rattle.tc_stream.specs.Prelude.{AppendsPrefix};
ghost use Rattle.tc_report.specs.Output.{LeavesPrefix};

use crate::fault::OutFault;
use std::io::Write;
use tc_entry::NoMemory;
use tc_stream::{WriteFault, write_whole};
use tc_text::{append_number, append_text};

/// Appends bytes between two texts; if memory runs out, a part of them.
pub(crate) fn append_between(
    out: &mut Vec<u8>,
    before: &str,
    bytes: &[u8],
    after: &str,
) -> Result<(), NoMemory>
    ensures ok { OnOk result (out.new.items ≡ out.old.items
        ++ (before.now ++ (bytes.now ++ after.now))) }
    ensures err { OnErr result (StartsWith out.new.items out.old.items) }
{
    append_text(out, before)?;
    out.extend_from_slice(bytes)?;
    append_text(out, after)
}

/// Appends the words, and then the number.
pub(crate) fn append_count(out: &mut Vec<u8>, words: &str, count: usize) -> Result<(), NoMemory>
    ensures { OnOk result (out.new.items ≡ out.old.items ++ (words.now ++ decimal count)) }
{
    append_text(out, words)?;
    append_number(out, count as u64)
}

/// Writes the text.
pub(crate) fn write_made<W: Write>(writer: &mut W, text: &[u8]) -> Result<(), OutFault>
    ensures all { OnOk result (Appends (W.contents writer.old) (W.contents writer.new) text.now) }
    ensures part { IfErr result (λ fault. LeavesPrefix (W.contents writer.old) (W.contents writer.new) text.now fault) }
{
    match write_whole(writer, text) {
        Ok(()) => Ok(()),
        Err(fault) => Err(fault.into()),
    }
}

/// Writes lines, or a prefix of them if the writer fails.
pub(crate) fn print<W: Write>(writer: &mut W, lines: &[u8]) -> Result<(), OutFault>
    ensures all { OnOk result (Appends (W.contents writer.old) (W.contents writer.new) lines.now) }
    ensures part { OnErr result (AppendsPrefix (W.contents writer.old) (W.contents writer.new) lines.now) }
{
    write_whole(writer, lines)?;
    Ok(())
}

/// Writes the text, and flushes the writer.
pub(crate) fn write_flushed<W: Write>(writer: &mut W, text: &[u8]) -> Result<(), OutFault>
    ensures all { OnOk result (Appends (W.contents writer.old) (W.contents writer.new) text.now) }
    ensures part { IfErr result (λ fault. LeavesPrefix (W.contents writer.old) (W.contents writer.new) text.now fault) }
{
    write_made(writer, text)?;
    match writer.flush() {
        Ok(()) => Ok(()),
        Err(_) => Err(OutFault::Write),
    }
}

/// Writes two texts one after the other, or a prefix of both if the writer fails.
#[tactic(auto, using(crate::proofs::Writing::appends_both, crate::proofs::Writing::prefix_behind, crate::proofs::Writing::prefix_longer))]
pub(crate) fn write_both<W: Write>(
    writer: &mut W,
    first: &[u8],
    second: &[u8],
) -> Result<(), WriteFault>
    ensures all { OnOk result (Appends (W.contents writer.old) (W.contents writer.new) (first.now ++ second.now)) }
    ensures part { OnErr result (AppendsPrefix (W.contents writer.old) (W.contents writer.new) (first.now ++ second.now)) }
{
    write_whole(writer, first)?;
    write_whole(writer, second)?;
    Ok(())
}

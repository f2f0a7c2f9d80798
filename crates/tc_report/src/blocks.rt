//! The histories and the evidence of a campaign.
ghost use Rattle.std.specs.{Prelude.{◌≡◌, ◌≤◌, ◌++◌, OnOk, IfErr, length, take}, Io.KnownBytes.Appends, List.flat_map};
ghost use Rattle.tc_blocks.specs.{declared.header.Kind.TheVariants.{Evidence, History2}, Prelude.{with_lf, line_text, naming_text}};
ghost use Rattle.tc_report.specs.{Blocks.block_names, Blocks.blocks_text, Blocks.case_block, Blocks.named_block, Inside.namings, Output.LeavesPrefix};

use crate::fault::OutFault;
use crate::output::write_made;
use crate::results::{Finished, Results};
use std::alloc::Global;
use std::io::Write;
use tc_blocks::{Header, Kind, Line, append_end, append_entries, append_first_line, append_line};
use tc_entry::{Entry, Name, NoMemory, Run, Verdict};

fn append_naming(out: &mut Vec<u8>, run: u16, name: &Name) -> Result<(), NoMemory>
    ensures { OnOk result (out.new.items ≡ out.old.items ++ with_lf (naming_text run name.now)) }
{
    let (run, name) = (Run(run), name.copy());
    append_line(out, &Line::Named { run, name })
}

fn append_namings(out: &mut Vec<u8>, names: &[Name]) -> Result<(), NoMemory>
    requires { length names.now ≤ u16.MAX }
    ensures { OnOk result (out.new.items ≡ out.old.items
        ++ flat_map (λ l. with_lf (line_text l)) (namings 0 names.now)) }
{
    let mut run = 0;
    let mut rest = names;
    while let Some((name, others)) = rest.split_first() {
        append_naming(out, run, name)?;
        run += 1;
        rest = others;
    }
    Ok(())
}

/// The names of that many behaviours, for a block.
pub fn first_names(names: &[Name], behaviours: u16) -> &[Name]
    ensures names { result.now ≡ take behaviours names.now }
    ensures few { length result.now ≤ u16.MAX }
{
    names.get(..usize::from(behaviours)).unwrap_or(names)
}

// The names of behaviours that are in the block of a finished test case.
fn names_in_block(kind: Kind, case: &Finished) -> &[Name]
    ensures names { result.now ≡ block_names kind case.now }
    ensures few { length result.now ≤ u16.MAX }
{
    match kind {
        Kind::Evidence => first_names(case.names.as_slice(), case.report.behaviours),
        Kind::History1 | Kind::History2 => &[],
    }
}

/// Appends a block: its first line, the names of behaviours, that of run 0 first, the entries, and the verdict. If memory
/// runs out, a part of it.
pub fn append_named_block(
    out: &mut Vec<u8>,
    header: &Header,
    names: &[Name],
    history: &[Entry],
    verdict: Verdict,
) -> Result<(), NoMemory>
    requires { length names.now ≤ u16.MAX }
    ensures { OnOk result (out.new.items ≡ out.old.items ++ named_block header.now names.now history.now verdict) }
{
    append_first_line(out, header)?;
    append_namings(out, names)?;
    append_entries(out, history)?;
    append_end(out, verdict)
}

/// Appends the block of a finished test case.
pub(crate) fn append_block(out: &mut Vec<u8>, kind: Kind, case: &Finished) -> Result<(), NoMemory>
    ensures { OnOk result (out.new.items ≡ out.old.items ++ case_block kind case.now) }
{
    let report = &case.report;
    let header = Header {
        kind,
        name: case.name.copy(),
        behaviours: report.behaviours,
    };
    let names = names_in_block(kind, case);
    let history = report.history.as_slice();
    append_named_block(out, &header, names, history, report.verdict)
}

fn write_blocks<W: Write>(
    alloc: Global,
    kind: Kind,
    results: &Results,
    writer: &mut W,
) -> Result<(), OutFault>
    ensures all { OnOk result (Appends (W.contents writer.old) (W.contents writer.new)
        (blocks_text kind results.now)) }
    ensures part { IfErr result (LeavesPrefix (W.contents writer.old) (W.contents writer.new)
        (blocks_text kind results.now)) }
{
    let mut text = Vec::new(alloc);
    for case in results.finished.as_slice() {
        append_block(&mut text, kind, case)?;
    }
    write_made(writer, text.as_slice())
}

/// Writes the history of each finished test case, in order. The text is made whole before anything is written.
pub fn write_history<W: Write>(
    alloc: Global,
    results: &Results,
    writer: &mut W,
) -> Result<(), OutFault>
    ensures all { OnOk result (Appends (W.contents writer.old) (W.contents writer.new)
        (blocks_text History2 results.now)) }
    ensures part { IfErr result (LeavesPrefix (W.contents writer.old) (W.contents writer.new)
        (blocks_text History2 results.now)) }
{
    write_blocks(alloc, Kind::History2, results, writer)
}

/// Writes the evidence of each finished test case, in order: its history with the names of its behaviours. The text is
/// made whole before anything is written.
pub fn write_evidence<W: Write>(
    alloc: Global,
    results: &Results,
    writer: &mut W,
) -> Result<(), OutFault>
    ensures all { OnOk result (Appends (W.contents writer.old) (W.contents writer.new)
        (blocks_text Evidence results.now)) }
    ensures part { IfErr result (LeavesPrefix (W.contents writer.old) (W.contents writer.new)
        (blocks_text Evidence results.now)) }
{
    write_blocks(alloc, Kind::Evidence, results, writer)
}

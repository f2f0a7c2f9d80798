//! Writing blocks.
ghost use Rattle.std.specs.Prelude.{◌≡◌, ◌++◌, OnOk, OnErr};
ghost use Rattle.std.specs.{Io.StartsWith, List.flat_map};
ghost use Rattle.tc_blocks.specs.{Block.block_text, Block.header_text, Block.kind_text, Block.with_lf, Inside.mark_text, Line.line_text, Line.naming_text, Line.said_text};

use crate::append_end;
use crate::header::{Header, Kind};
use crate::history_block::append_entry;
use crate::line::Line;
use tc_entry::{Name, NoMemory, Run, Verdict};
use tc_text::{append_number, append_text};

// The words of a first line that say the kind of its block.
fn words_of(kind: Kind) -> &'static str
    ensures { result.now ≡ kind_text kind }
{
    match kind {
        Kind::History1 => "history 1 ",
        Kind::History2 => "history 2 ",
        Kind::Evidence => "evidence 1 ",
    }
}

/// Appends the first line of a block of this kind and name, which had that many behaviours; if memory runs out, a part of it.
pub(crate) fn append_first(
    out: &mut Vec<u8>,
    kind: Kind,
    name: &Name,
    behaviours: u16,
) -> Result<(), NoMemory>
    ensures ok { OnOk result (out.new.items ≡ out.old.items
        ++ with_lf (header_text (record { kind = kind; name = name.now; behaviours = behaviours }))) }
    ensures err { OnErr result (StartsWith out.new.items out.old.items) }
{
    append_text(out, words_of(kind))?;
    out.extend_from_slice(name.bytes())?;
    append_text(out, " ")?;
    append_number(out, u64::from(behaviours))?;
    out.push(b'\n')?;
    Ok(())
}

/// Appends the first line of a block; if memory runs out, a part of it.
pub fn append_first_line(out: &mut Vec<u8>, header: &Header) -> Result<(), NoMemory>
    ensures ok { OnOk result (out.new.items ≡ out.old.items ++ with_lf (header_text header.now)) }
    ensures err { OnErr result (StartsWith out.new.items out.old.items) }
{
    append_first(out, header.kind, &header.name, header.behaviours)
}

// Appends the name of a run's behaviour; if memory runs out, a part of it.
fn append_naming(out: &mut Vec<u8>, run: Run, name: &Name) -> Result<(), NoMemory>
    ensures ok { OnOk result (out.new.items ≡ out.old.items ++ with_lf (naming_text run.0 name.now)) }
    ensures err { OnErr result (StartsWith out.new.items out.old.items) }
{
    append_text(out, "behaviour ")?;
    append_number(out, u64::from(run.0))?;
    append_text(out, " ")?;
    out.extend_from_slice(name.bytes())?;
    out.push(b'\n')?;
    Ok(())
}

// What is between a run and its sentence.
fn mark_of(refused: bool) -> &'static str
    ensures { result.now ≡ mark_text refused }
{
    if refused { " ! " } else { " # " }
}

/// Appends a remark of the run, or that a line of it was refused; if memory runs out, a part of it.
pub fn append_said(
    out: &mut Vec<u8>,
    run: Run,
    refused: bool,
    sentence: &[u8],
) -> Result<(), NoMemory>
    ensures ok { OnOk result (out.new.items ≡ out.old.items ++ with_lf (said_text refused run.0 sentence.now)) }
    ensures err { OnErr result (StartsWith out.new.items out.old.items) }
{
    append_number(out, u64::from(run.0))?;
    append_text(out, mark_of(refused))?;
    out.extend_from_slice(sentence)?;
    out.push(b'\n')?;
    Ok(())
}

/// Appends a line inside a block; if memory runs out, a part of it.
pub fn append_line(out: &mut Vec<u8>, line: &Line) -> Result<(), NoMemory>
    ensures ok { OnOk result (out.new.items ≡ out.old.items ++ with_lf (line_text line.now)) }
    ensures err { OnErr result (StartsWith out.new.items out.old.items) }
{
    match line {
        Line::Named { run, name } => append_naming(out, *run, name),
        Line::Entry(entry) => append_entry(out, entry),
        Line::Remark { run, sentence } => append_said(out, *run, false, sentence.bytes()),
        Line::Refused { run, sentence } => append_said(out, *run, true, sentence.bytes()),
    }
}

// Appends each line; if memory runs out, a part of them.
fn append_lines(out: &mut Vec<u8>, lines: &[Line]) -> Result<(), NoMemory>
    ensures ok { OnOk result (out.new.items ≡ out.old.items ++ flat_map (λ l. with_lf (line_text l)) lines.now) }
    ensures err { OnErr result (StartsWith out.new.items out.old.items) }
{
    for line in lines {
        append_line(out, line)?;
    }
    Ok(())
}

/// Appends the text of a block. If memory runs out, nothing is appended.
#[tactic(auto, using(std::proofs::lemmas::Grind::common_steps))]
pub fn append_whole_block(
    out: &mut Vec<u8>,
    header: &Header,
    lines: &[Line],
    verdict: Verdict,
) -> Result<(), NoMemory>
    ensures ok { OnOk result (out.new.items ≡ out.old.items ++ block_text header.now lines.now verdict) }
    ensures err { OnErr result (out.new.items ≡ out.old.items) }
{
    let start = out.len();
    if append_first_line(out, header).is_ok()
        && append_lines(out, lines).is_ok()
        && append_end(out, verdict).is_ok()
    {
        return Ok(());
    }
    out.truncate(start);
    Err(NoMemory)
}

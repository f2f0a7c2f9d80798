//! What is printed about a refused text.
ghost use Rattle.std.specs.{Prelude.{◌<◌, ◌+◌, ◌^◌, [], ◌∷◌, IfOk, OnOk, length, not, option_copied}, Fmt.decimal, List.position, Option.option_map_or};
ghost use Rattle.tc_text.specs.Prelude.{TellsAmong, TellsLine, is_plain};
ghost use Rattle.tc_explain.specs.Explanation.{explanation, line_note, open_note, quoted};

use crate::help::{Around, near_word};
use crate::hints::hints;
use crate::quote::{append_odd, odd_place, quoted_begin, quoted_rest};
use crate::scan::{Opened, find_line};
use crate::sort::{Refusal, Sort, seen_sort};
use std::alloc::Global;
use tc_reader::Lines;
use tc_text::{Part, append_parts};
use tc_verdict::NoMemory;

// Appends the lines of a text.
#[tactic(auto, using(tc_text::proofs::Lemmas::Among::among_rules))]
fn append_lines(out: &mut Vec<u8>, text: &[u8]) -> Result<(), NoMemory>
    ensures { OnOk result (TellsAmong [] out.old.items out.new.items) }
{
    let mut rest = Lines::new(text);
    while let Some(line) = rest.next() {
        append_parts(*out.allocator(), out, &[Part::Text(line)])?;
    }
    Ok(())
}

// Appends a line with this number after a text.
fn append_numbered(out: &mut Vec<u8>, head: &str, number: usize) -> Result<(), NoMemory>
    ensures { OnOk result (TellsLine (decimal number ∷ []) out.old.items out.new.items) }
{
    let head = Part::Text(head.as_bytes());
    append_parts(*out.allocator(), out, &[head, Part::Number(number as u64)])
}

// Appends what the text seems to be, if it should be something else.
#[tactic(auto, using(tc_text::proofs::Lemmas::Among::among_rules))]
fn append_sort(out: &mut Vec<u8>, sort: Sort, seen: Option<Sort>) -> Result<(), NoMemory>
    ensures { OnOk result (TellsAmong [] out.old.items out.new.items) }
{
    match seen {
        Some(seen) if seen != sort => append_lines(out, seen.text().as_bytes()),
        _ => Ok(()),
    }
}

// Appends the line in quotation.
fn append_shown(out: &mut Vec<u8>, line: &[u8]) -> Result<(), NoMemory>
    ensures { OnOk result (TellsLine (quoted line.now ∷ []) out.old.items out.new.items) }
{
    let alloc = *out.allocator();
    let begin = quoted_begin(alloc, line)?;
    let rest = quoted_rest(alloc, line)?;
    let shown = [
        Part::Text(b"line:"),
        Part::Word(begin.as_slice()),
        Part::Text(rest.as_slice()),
    ];
    append_parts(alloc, out, &shown)
}

// Appends the column of the odd byte after that many, and what it is.
fn append_odd_at(out: &mut Vec<u8>, line: &[u8], at: usize) -> Result<(), NoMemory>
    requires { at < length line.now }
    ensures { OnOk result (TellsLine (decimal (at + 1) ∷ []) out.old.items out.new.items) }
{
    let alloc = *out.allocator();
    let mut what = Vec::new(alloc);
    append_odd(&mut what, &line[at..])?;
    let number = Part::Number(at as u64 + 1);
    let what = Part::Text(what.as_slice());
    let parts = [Part::Text(b"column"), number, Part::Text(b":"), what];
    append_parts(alloc, out, &parts)
}

// Appends that the text ends before the line with this number.
#[tactic(auto, using(tc_text::proofs::Lemmas::Among::among_rules))]
fn append_ended(out: &mut Vec<u8>, number: usize) -> Result<(), NoMemory>
    ensures { OnOk result (TellsAmong [] out.old.items out.new.items) }
{
    if number <= 1 {
        return append_lines(out, b"the text is empty");
    }
    append_numbered(out, "the text ends after line", number - 1)
}

// Appends what else helps with the line, or with the end of the text before it.
fn append_hints(out: &mut Vec<u8>, around: Around, line: Option<&[u8]>) -> Result<(), NoMemory>
    ensures { OnOk result (TellsAmong [] out.old.items out.new.items) }
{
    let hints = hints(*out.allocator(), around, line)?;
    append_lines(out, hints.as_slice())
}

// Appends what is wrong with a line: an odd byte, or what its words are not.
#[tactic(auto, using(tc_text::proofs::Lemmas::Among::among_rules))]
fn append_wrong(out: &mut Vec<u8>, around: Around, line: &[u8]) -> Result<(), NoMemory>
    ensures { OnOk result (TellsAmong (option_map_or (λ at. (decimal (at + 1) ∷ []) ∷ []) (position (λ b. not (is_plain b)) line.now) [])
        out.old.items out.new.items) }
{
    match odd_place(line) {
        Some(at) => append_odd_at(out, line, at),
        None => append_hints(out, around, Some(line)),
    }
}

// Appends the line with its fault, or that the text ends before it, and what helps.
#[tactic(auto, using(tc_text::proofs::Lemmas::Among::among_rules))]
fn append_line(out: &mut Vec<u8>, around: Around, line: Option<&[u8]>) -> Result<(), NoMemory>
    ensures { OnOk result (TellsAmong (option_map_or line_note (option_copied line.entry) []) out.old.items out.new.items) }
{
    match line {
        None => {
            append_ended(out, around.number)?;
            append_hints(out, around, None)
        }
        Some(line) => {
            append_shown(out, line)?;
            append_wrong(out, around, line)
        }
    }
}

// Appends what is open in a text of this sort.
#[tactic(auto, using(tc_text::proofs::Lemmas::Among::among_rules))]
fn append_opened(out: &mut Vec<u8>, sort: Sort, opened: Opened) -> Result<(), NoMemory>
    ensures { OnOk result (TellsAmong (open_note opened) out.old.items out.new.items) }
{
    let begun = match sort {
        Sort::Histories => "a history began in line",
        _ => "a test case began in line",
    };
    match opened {
        Opened::Nothing => Ok(()),
        Opened::Begun(outer, _) => append_numbered(out, begun, outer),
        Opened::Inside(outer, inner) => {
            append_numbered(out, "a behaviour began in line", inner)?;
            append_numbered(out, begun, outer)
        }
    }
}

/// What is printed about a refused text besides its first fault, which is of this kind and in the line with this
/// number. Memory may run out instead.
///
/// Each line ends with a line feed and begins with two spaces. It shows only printable bytes of the text, others by
/// their numbers, and of a long line the first 60 bytes.
#[tactic(auto, unfolding(crate::specs::Explanation::explanation), using(tc_text::proofs::Lemmas::Among::among_rules))]
pub fn explain(
    alloc: Global,
    text: &[u8],
    number: usize,
    refusal: Refusal,
) -> Result<Vec<u8>, NoMemory>
    ensures { IfOk result (λ v. TellsAmong (explanation text.now number) [] v.items) }
{
    let sort = refusal.sort();
    let seen = seen_sort(text);
    let found = find_line(alloc, text, number)?;
    let around = Around {
        text,
        refusal,
        number,
        opened: found.opened,
        in_source: matches!(seen, Some(Sort::Source)),
    };
    let mut out = Vec::new(alloc);
    append_sort(&mut out, sort, seen)?;
    append_line(&mut out, around, found.line)?;
    append_opened(&mut out, sort, found.opened)?;
    Ok(out)
}

/// Appends a line with a word that is no name of a test case, and one with the name of these that is the nearest, if one
/// is near. If memory runs out, a part of it.
#[tactic(auto, using(tc_text::proofs::Lemmas::Among::among_rules))]
pub fn append_unknown(
    alloc: Global,
    out: &mut Vec<u8>,
    word: &[u8],
    names: &[&[u8]],
) -> Result<(), NoMemory>
    ensures { OnOk result (TellsAmong ((word.now ∷ []) ∷ []) out.old.items out.new.items) }
{
    let head = Part::Text(b"no test case has the name");
    append_parts(alloc, out, &[head, Part::Word(word)])?;
    match near_word(alloc, word, names)? {
        Some(near) => append_parts(alloc, out, &[Part::Text(b"nearest:"), Part::Word(near)]),
        None => Ok(()),
    }
}

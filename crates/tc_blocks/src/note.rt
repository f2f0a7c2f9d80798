//! The lines of evidence that are no entries.
ghost use Rattle.std.specs.Prelude.{◌≡◌, ◌<◌, ◌≤◌, ◌^◌, ◌++◌, ◌∷◌, ℕ, Bool, true, false, List, length, IfSome, IfOk, MatchOption};
ghost use Rattle.std.specs.Fmt.{decimal};
ghost use Rattle.tc_rules.specs.Prelude.{IsName};
ghost use Rattle.tc_text.specs.Prelude.{lines_of, EndsNumber, Takes};
ghost use Rattle.tc_text.specs.Inside.{TakesLine};
ghost use Rattle.tc_blocks.specs.{Inside.ArePlain, Inside.IsFound, Inside.IsNote, Inside.IsSaidBy, Inside.NoPlainFirst, Inside.line_said, Inside.mark_text, Line.is_met, Line.naming_text, Line.said_text, Met.AreMet, Sentence.IsSentence};

use crate::line::Line;
use crate::met::MetRuns;
use crate::sentence::Sentence;
use std::alloc::Global;
use tc_entry::{Name, NoMemory, Run};
use tc_text::{after, is_plain, take_line_end, take_name, take_number};

// The number of a run of the case that the text begins with, and what follows it.
fn take_run(behaviours: u16, text: &[u8]) -> Option<(Run, &[u8])>
    ensures spelled { IfSome result (λ r. text.now ≡ decimal r.0.0 ++ r.1.now) }
    ensures few { IfSome result (λ r. (r.0.0 < behaviours) × (r.0.0 < 2 ^ 16)) }
    ensures only { (k : ℕ) (rest : List ℕ) → k < behaviours → EndsNumber rest → text.now ≡ decimal k ++ rest
        → MatchOption result ⊥ (λ r. (r.0.0 ≡ k) × (r.1.now ≡ rest)) }
{
    let (number, rest) = take_number(text)?;
    if number < u32::from(behaviours) {
        Some((Run(number as u16), rest))
    } else {
        None
    }
}

// The run and the name of its behaviour that the first line spells, and what follows that line.
fn take_naming(behaviours: u16, text: &[u8]) -> Option<((Run, Name), &[u8])>
    ensures spelled { IfSome result (λ r. lines_of text.now ≡ naming_text r.0.0.0 r.0.1 ∷ lines_of r.1.now) }
    ensures fits { IfSome result (λ r. (r.0.0.0 < behaviours) × IsName r.0.1) }
    ensures less { IfSome result (λ r. length r.1.now < length text.now) }
    ensures only { (k : ℕ) (name : List ℕ) (others : List (List ℕ)) → k < behaviours → IsName name
        → lines_of text.now ≡ naming_text k name ∷ others → TakesLine result (record { 0 = k }, name) others }
{
    let rest = after(text, b"behaviour ")?;
    let (run, rest) = take_run(behaviours, rest)?;
    let rest = after(rest, b" ")?;
    let (name, rest) = take_name(rest)?;
    let rest = take_line_end(rest)?;
    Some(((run, name), rest))
}

// The mark that the text begins with, whether it is that of a refused line, and what follows it.
fn take_mark(text: &[u8]) -> Option<(bool, &[u8])>
    ensures spelled { IfSome result (λ r. text.now ≡ mark_text r.0 ++ r.1.now) }
    ensures only { (refused : Bool) (rest : List ℕ) → text.now ≡ mark_text refused ++ rest → Takes result refused rest }
{
    if let Some(rest) = after(text, b" # ") {
        Some((false, rest))
    } else if let Some(rest) = after(text, b" ! ") {
        Some((true, rest))
    } else {
        None
    }
}

// The bytes from 32 to 126 that the text begins with, and the others.
fn cut_plain(text: &[u8]) -> (&[u8], &[u8])
    ensures parts { text.now ≡ result.0.now ++ result.1.now }
    ensures before { ArePlain result.0.now }
    ensures behind { NoPlainFirst result.1.now }
{
    for (place, byte) in text.iter().enumerate() {
        if !is_plain(*byte) {
            return text.split_at(place);
        }
    }
    text.split_at(text.len())
}

// The run that says something in the first line, whether that is a refused line, what it says, and what follows that
// line.
fn take_said(behaviours: u16, text: &[u8]) -> Option<((Run, bool, &[u8]), &[u8])>
    ensures spelled { IfSome result (λ r. lines_of text.now ≡ said_text r.0.1 r.0.0.0 r.0.2.now ∷ lines_of r.1.now) }
    ensures few { IfSome result (λ r. r.0.0.0 < behaviours) }
    ensures less { IfSome result (λ r. length r.1.now < length text.now) }
    ensures only { (refused : Bool) (k : ℕ) (sentence : List ℕ) (others : List (List ℕ)) → k < behaviours → ArePlain sentence
        → lines_of text.now ≡ said_text refused k sentence ∷ others
        → MatchOption result ⊥ (λ r. (r.0.0.0 ≡ k) × (r.0.1 ≡ refused) × (r.0.2.now ≡ sentence) × (lines_of r.1.now ≡ others)) }
{
    let (run, rest) = take_run(behaviours, text)?;
    let (refused, rest) = take_mark(rest)?;
    let (sentence, rest) = cut_plain(rest);
    let rest = take_line_end(rest)?;
    Some(((run, refused, sentence), rest))
}

// What the run says, as a line, if it is a sentence.
fn say(alloc: Global, run: Run, refused: bool, bytes: &[u8]) -> Result<Option<Line>, NoMemory>
    ensures { IfOk result (λ found. MatchOption found (IsSentence bytes.now → ⊥)
        (λ l. (l ≡ line_said refused run bytes.now) × IsSentence bytes.now)) }
{
    let Some(sentence) = Sentence::of_bytes(alloc, bytes)? else {
        return Ok(None);
    };
    if refused {
        Ok(Some(Line::Refused { run, sentence }))
    } else {
        Ok(Some(Line::Remark { run, sentence }))
    }
}

// What a run of the case says in the first line, as a line, and what follows that line.
fn take_said_line(
    alloc: Global,
    behaviours: u16,
    text: &[u8],
) -> Result<Option<(Line, &[u8])>, NoMemory>
    ensures { IfOk result (IsFound (IsSaidBy behaviours) text.now) }
{
    let Some(((run, refused, bytes), rest)) = take_said(behaviours, text) else {
        return Ok(None);
    };
    match say(alloc, run, refused, bytes)? {
        Some(line) => Ok(Some((line, rest))),
        None => Ok(None),
    }
}

// The line that names the run's behaviour, and what follows it, unless a line before is about the run.
fn name_run<'a>(met: &MetRuns, naming: (Run, Name), rest: &'a [u8]) -> Option<(Line, &'a [u8])>
    requires { naming.0.0 < 256 }
    ensures { (before : List Line) → AreMet met.now before → MatchOption result (is_met naming.0.0 before ≡ true)
        (λ r. (is_met naming.0.0 before ≡ false) × (r.0 ≡ Line.Named naming.0 naming.1) × (r.1.now ≡ rest.now)) }
{
    let (run, name) = naming;
    if met.contains(run) {
        return None;
    }
    Some((Line::Named { run, name }, rest))
}

/// The line of evidence that is no entry and may come after lines that are about these runs, which the first line spells, and
/// what follows that line.
pub(crate) fn take_note<'a>(
    alloc: Global,
    behaviours: u16,
    met: &MetRuns,
    text: &'a [u8],
) -> Result<Option<(Line, &'a [u8])>, NoMemory>
    requires { behaviours ≤ 256 }
    ensures { IfOk result (λ found. (before : List Line) → AreMet met.now before → IsFound (IsNote behaviours before) text.now found) }
{
    match take_naming(behaviours, text) {
        Some((naming, rest)) => Ok(name_run(met, naming, rest)),
        None => take_said_line(alloc, behaviours, text),
    }
}

//! Lines for a reader next to an answer, by their parts.
ghost use Rattle.std.specs.Prelude.{◌≡◌, ◌++◌, [], ◌∷◌, IfOk, OnOk, flat_map, map};
ghost use Rattle.tc_text.specs.{Inside.{part_text, prose_text, as_printable as printable_byte}, Said.{TellsLine, ends_word as word_ends, is_plain as plain, part_words, shown_line}};

use crate::writing::append_number;
use std::alloc::Global;
use tc_verdict::NoMemory;

/// A part of a line. What a line holds is its numbers and its words.
#[derive(Clone, Copy)]
pub enum Part<'a> {
    /// Prose, after a space if it begins with a letter, a digit or `_`.
    Text(&'a [u8]),
    /// A number, after a space.
    Number(u64),
    /// A word, after a space.
    Word(&'a [u8]),
}

/// Whether the byte is from 32 to 126.
pub fn is_plain(byte: u8) -> bool
    ensures { result ≡ plain byte }
{
    32 <= byte && byte <= 126
}

// Whether a word ends before this text: no letter, digit or `_` comes first.
fn ends_word(text: &[u8]) -> bool
    ensures { result ≡ word_ends text.now }
{
    match text {
        [] => true,
        [byte, ..] => !(byte.is_ascii_alphanumeric() || *byte == b'_'),
    }
}

// Appends the bytes after a space.
fn append_spaced(out: &mut Vec<u8>, bytes: &[u8]) -> Result<(), NoMemory>
    ensures { OnOk result (out.new.items ≡ out.old.items ++ (32 ∷ bytes.now)) }
{
    out.push(b' ')?;
    out.extend_from_slice(bytes)?;
    Ok(())
}

// Appends prose.
fn append_prose(out: &mut Vec<u8>, text: &[u8]) -> Result<(), NoMemory>
    ensures { OnOk result (out.new.items ≡ out.old.items ++ (prose_text text.now)) }
{
    if !ends_word(text) {
        return append_spaced(out, text);
    }
    out.extend_from_slice(text)?;
    Ok(())
}

// Appends a part of a line.
fn append_part(out: &mut Vec<u8>, part: &Part) -> Result<(), NoMemory>
    ensures { OnOk result (out.new.items ≡ out.old.items ++ part_text part.now) }
{
    match *part {
        Part::Text(text) => append_prose(out, text),
        Part::Number(number) => {
            out.push(b' ')?;
            append_number(out, number)
        }
        Part::Word(word) => append_spaced(out, word),
    }
}

// Appends the parts of a line.
fn append_text_of(out: &mut Vec<u8>, parts: &[Part]) -> Result<(), NoMemory>
    ensures { OnOk result (out.new.items ≡ out.old.items ++ flat_map part_text parts.now) }
{
    for part in parts {
        append_part(out, part)?;
    }
    Ok(())
}

// The byte, or a question mark for one that is not printable.
fn printable(byte: u8) -> u8
    ensures { result ≡ printable_byte byte }
{
    if is_plain(byte) { byte } else { b'?' }
}

// The text, with a question mark for each byte that is not printable.
fn printed(alloc: Global, text: &[u8]) -> Result<Vec<u8>, NoMemory>
    ensures { IfOk result (λ v. v.items ≡ map printable_byte text.now) }
{
    Ok(text.iter().map(|byte| printable(*byte)).collect(alloc)?)
}

/// Appends a line of this text after a space, with a question mark for each byte that is not from 32 to 126. If memory
/// runs out, a part of it.
pub fn append_shown(alloc: Global, out: &mut Vec<u8>, text: &[u8]) -> Result<(), NoMemory>
    ensures { OnOk result (out.new.items ≡ out.old.items ++ shown_line text.now) }
{
    let shown = printed(alloc, text)?;
    append_spaced(out, shown.as_slice())?;
    out.push(b'\n')?;
    Ok(())
}

/// Appends a line of these parts after a space, with a question mark for each byte that is not from 32 to 126. If
/// memory runs out, a part of it.
#[tactic(auto, using(crate::proofs::Lemmas::Saying::parts_said))]
pub fn append_parts(alloc: Global, out: &mut Vec<u8>, parts: &[Part]) -> Result<(), NoMemory>
    ensures { OnOk result (TellsLine (flat_map part_words parts.now) out.old.items out.new.items) }
{
    let mut text = Vec::new(alloc);
    append_text_of(&mut text, parts)?;
    append_shown(alloc, out, text.as_slice())
}

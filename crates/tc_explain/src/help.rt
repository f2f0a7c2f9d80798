//! Lines that only help, as a text, and the nearest of some words to a word.
use crate::Result;
use crate::quote::{SHOWN, quoted_begin, quoted_rest};
use crate::scan::Opened;
use crate::sort::Refusal;
use std::alloc::Global;
use strsim::generic_damerau_levenshtein;
use tc_entry::NAME_BYTES;
use tc_text::append_text;

/// The first fault of a text, and what is around it.
#[derive(Clone, Copy)]
pub(crate) struct Around<'t> {
    /// The text.
    pub(crate) text: &'t [u8],
    /// What the text should be, and the kind of the fault.
    pub(crate) refusal: Refusal,
    /// The number of the line with the fault.
    pub(crate) number: usize,
    /// What is open before it.
    pub(crate) opened: Opened,
    /// Whether the text seems to be of TTCN-3.
    pub(crate) in_source: bool,
}

/// The line with the fault, and lines that help with it.
#[derive(Drop)]
pub(crate) struct Help<'l> {
    pub(crate) alloc: Global,
    pub(crate) around: Around<'l>,
    /// The line.
    pub(crate) line: &'l [u8],
    /// Its words.
    pub(crate) words: &'l [&'l [u8]],
    /// The lines that help.
    pub(crate) text: Vec<u8>,
}

// How many bytes are before the word at this place among the words of the line, or before its end.
fn start_of(line: &[u8], place: usize) -> usize {
    let pairs = b" ".iter().chain(line).zip(line).enumerate();
    let mut starts = pairs.filter(|(_, (before, byte))| **before == b' ' && **byte != b' ');
    starts.nth(place).map_or(line.len(), |(at, _)| at)
}

/// Appends these words, each after a space.
pub(crate) fn append_words(out: &mut Vec<u8>, words: &[&[u8]]) -> Result<()> {
    for word in words {
        out.push(b' ')?;
        out.extend_from_slice(word)?;
    }
    Ok(())
}

impl Help<'_> {
    /// Adds a line.
    pub(crate) fn add_line(&mut self, text: &str) -> Result<()> {
        append_text(&mut self.text, text)?;
        append_text(&mut self.text, "\n")
    }

    /// Adds a line of a number and what is before and after it.
    pub(crate) fn add_counted(&mut self, before: &str, number: usize, after: &str) -> Result<()> {
        self.add_line(format!(in self.alloc; "{before}{number}{after}")?.as_str())
    }

    /// Adds the word at a place of the line, with its column, if there is one.
    pub(crate) fn add_word(&mut self, place: usize) -> Result<()> {
        let Some(word) = self.words.get(place) else {
            return Ok(());
        };
        let column = start_of(self.line, place).saturating_add(1);
        let head = format!(in self.alloc; "column {column}: ")?;
        append_text(&mut self.text, head.as_str())?;
        let text = &mut self.text;
        text.extend_from_slice(quoted_begin(self.alloc, word)?.as_slice())?;
        text.extend_from_slice(quoted_rest(self.alloc, word)?.as_slice())?;
        append_text(text, "\n")
    }

    /// Adds a line of these words, and of what is before and after them.
    pub(crate) fn add_words(&mut self, before: &str, words: &[&[u8]], after: &str) -> Result<()> {
        append_text(&mut self.text, before)?;
        append_words(&mut self.text, words)?;
        self.add_line(after)
    }

    /// Adds the one of these words that is the nearest to a word, if one is near. Whether one is.
    pub(crate) fn add_near(&mut self, word: &[u8], words: &[&[u8]]) -> Result<bool> {
        let near = near_word(self.alloc, word, words)?;
        if let Some(near) = near {
            self.add_words("nearest:", &[near], "")?;
        }
        Ok(near.is_some())
    }

    /// Adds the words that would be understood, and what else would; one of both may be empty.
    pub(crate) fn add_expected(&mut self, words: &[&[u8]], other: &str) -> Result<()> {
        let space = if words.is_empty() { " " } else { "" };
        let other = format!(in self.alloc; "{space}{other}")?;
        self.add_words("expected:", words, other.as_str())
    }

    /// Adds a line of the first names, that many that they are shown as a line is.
    pub(crate) fn add_names(&mut self, head: &str, names: &[&[u8]]) -> Result<()> {
        let mut room = SHOWN;
        for (count, name) in names.iter().enumerate() {
            if name.len() >= room {
                return self.add_words(head, names.get(..count).unwrap_or(names), " ..");
            }
            room -= name.len() + 1;
        }
        self.add_words(head, names, "")
    }

    /// Adds what a name may have.
    pub(crate) fn add_name_rule(&mut self) -> Result<()> {
        let rest = " letters, digits and _, the first a letter, and is not all, any, mtc or self";
        self.add_counted("a name has 1 to ", NAME_BYTES, rest)
    }
}

// How many edits lead from one word to the other: a letter more, less or another, two that are swapped, or capital letters.
fn edits(alloc: Global, word: &[u8], other: &[u8]) -> Result<usize> {
    let is_alike = word.eq_ignore_ascii_case(other);
    let most = if is_alike { 1 } else { usize::MAX };
    Ok(generic_damerau_levenshtein(alloc, word, other)?.min(most))
}

// Whether the bytes may be a name, a keyword or a reply.
fn is_plain_word(word: &[u8]) -> bool {
    let is_of_word = |byte: &u8| byte.is_ascii_alphanumeric() || matches!(*byte, b'_' | b'-');
    word.len() <= NAME_BYTES && word.iter().all(is_of_word)
}

/// The first word of the table to which the fewest edits of a word lead, if it is near. Then the edits are some, but fewer
/// than the word has letters, and one or at most a third of them.
pub(crate) fn near_word<'t>(
    alloc: Global,
    word: &[u8],
    table: &[&'t [u8]],
) -> Result<Option<&'t [u8]>> {
    if !is_plain_word(word) {
        return Ok(None);
    }
    let mut found: Option<(&'t [u8], usize)> = None;
    for other in table {
        let distance = edits(alloc, word, other)?;
        if found.is_none_or(|(_, least)| distance < least) {
            found = Some((other, distance));
        }
    }
    let near = 1..word.len().min((word.len() / 3).max(1) + 1);
    let found = found.filter(|(_, distance)| near.contains(distance));
    Ok(found.map(|(word, _)| word))
}

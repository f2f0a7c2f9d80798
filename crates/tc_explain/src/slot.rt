//! What may be at a place of a line, and the place at which a line stops being understood.
use crate::Result;
use crate::sort::Sort;
use std::alloc::Global;
use tc_reader::{Keyword, is_word, read_keyword, read_name, read_reference};

/// What may be at a place of a line.
#[derive(Clone, Copy, PartialEq, Eq)]
pub(crate) enum Slot {
    Keyword,
    Run,
    Entry,
    Verb,
    TestCase,
    Behaviour,
    Parameters,
    Created,
    Kind,
    Naming,
    GivenName,
    On,
    Started,
    Arguments,
    Group,
    Target,
    Status,
    Verdict,
    End,
    Reply,
    Made,
    Error,
    Overall,
    LineEnd,
}

// The words of a script's lines, of calls, and of dynamic errors.
const KEYWORDS: &str =
    "testcase behaviour end create start stop kill stopcase running alive done killed wait setverdict getverdict";

const VERBS: &str =
    "create start stop kill stopcase running alive done killed wait setverdict getverdict wake finish";

const ERRORS: &str =
    "no-component not-main start-main already-running not-startable no-behaviour too-many stuck";

/// Whether the byte is a space.
pub(crate) fn is_space(byte: &u8) -> bool {
    *byte == b' '
}

/// Whether the text has this word.
pub(crate) fn has_word(text: &str, word: &[u8]) -> bool {
    let mut words = text.as_bytes().split(is_space);
    words.any(|other| is_word(other, word))
}

/// Whether the word is of digits.
pub(crate) fn is_digits(word: &[u8]) -> bool {
    word.iter().all(|byte| byte.is_ascii_digit())
}

// The slot after a keyword or a verb, of which a create is followed by this one.
fn after_verb(word: &[u8], created: Slot) -> Slot {
    match read_keyword(word) {
        Some(Keyword::TestCase) => Slot::TestCase,
        Some(Keyword::Behaviour) => Slot::Behaviour,
        Some(Keyword::Create) => created,
        Some(Keyword::Start) => Slot::On,
        Some(Keyword::Stop | Keyword::Kill) => Slot::Group,
        Some(Keyword::Ask(_)) => Slot::Target,
        Some(Keyword::Wait) => Slot::Status,
        Some(Keyword::SetVerdict) => Slot::Verdict,
        None if is_word(word, b"wake") => Slot::Status,
        _ => Slot::End,
    }
}

impl Slot {
    /// The words that may be there, besides names and numbers, and what is printed after those that are listed.
    pub(crate) fn texts(self) -> (&'static str, &'static str) {
        match self {
            Slot::Keyword => (KEYWORDS, ""),
            Slot::Run => ("", "the number of a run"),
            Slot::Entry => ("end", "the number of a run, or end"),
            Slot::Verb => (VERBS, ""),
            Slot::TestCase => ("", "the name of a test case"),
            Slot::Behaviour => ("", "the name of a behaviour"),
            Slot::Parameters => ("", "a parameter, or the end of the line"),
            Slot::Created => ("", "the name of a component"),
            Slot::Kind => ("alive named", "alive, named, or the end of the call"),
            Slot::Naming => ("named", "named, or the end of the call"),
            Slot::GivenName => ("", "a name"),
            Slot::On => ("", "a component"),
            Slot::Started => ("", "the behaviour that is started"),
            Slot::Arguments => ("", "a component, or the end of the call"),
            Slot::Group => ("all", "all or a component"),
            Slot::Target => ("any all", "any, all or a component"),
            Slot::Status => ("done killed", "done or killed"),
            Slot::Verdict => ("none pass inconc fail", "none, pass, inconc or fail"),
            Slot::End => ("", "the end of the call"),
            Slot::Reply => (
                "made ok true false none pass inconc fail error matched parked ended",
                "",
            ),
            Slot::Made => ("", "the number of a component"),
            Slot::Error => (ERRORS, ", or the end of the line"),
            Slot::Overall => (
                "none pass inconc fail error",
                "none, pass, inconc, fail or error",
            ),
            Slot::LineEnd => ("", "the end of the line"),
        }
    }

    // The slot after a word, if it may be there. A script has names of components and behaviours.
    fn after(self, sort: Sort, word: &[u8]) -> Option<Slot> {
        let is_listed = has_word(self.texts().0, word);
        let is_number = is_digits(word);
        let is_name = read_name(word).is_some();
        let (is_behaviour, is_component) = match sort {
            Sort::Script => (is_name, read_reference(word).is_ok()),
            _ => (is_number, is_number),
        };
        Some(match self {
            _ if sort == Sort::Histories && self.ends_call() && is_word(word, b"->") => Slot::Reply,
            Slot::Keyword if is_listed => after_verb(word, Slot::Created),
            Slot::Verb if is_listed => after_verb(word, Slot::Kind),
            Slot::Run | Slot::Entry if is_number => Slot::Verb,
            Slot::Entry if is_listed => Slot::Overall,
            Slot::TestCase | Slot::GivenName if is_name => Slot::End,
            Slot::Behaviour | Slot::Parameters if is_name => Slot::Parameters,
            Slot::Created if is_name => Slot::Kind,
            Slot::Kind if is_word(word, b"alive") => Slot::Naming,
            Slot::Kind | Slot::Naming if is_listed => Slot::GivenName,
            Slot::On if is_component => Slot::Started,
            Slot::Started if is_behaviour => Slot::Arguments,
            Slot::Arguments if is_component => Slot::Arguments,
            Slot::Status if is_listed => Slot::Target,
            Slot::Group | Slot::Target | Slot::Verdict if is_listed => Slot::End,
            Slot::Group | Slot::Target if is_component => Slot::End,
            Slot::Reply if is_word(word, b"made") => Slot::Made,
            Slot::Reply if is_word(word, b"error") => Slot::Error,
            Slot::Reply | Slot::Error | Slot::Overall if is_listed => Slot::LineEnd,
            Slot::Made if is_number => Slot::LineEnd,
            _ => return None,
        })
    }

    /// What is printed about it after the words that are listed. In a history that is the arrow if a call may end there,
    /// and no word is left or no other may be there.
    pub(crate) fn text(self, sort: Sort, is_last: bool) -> &'static str {
        if sort == Sort::Histories && (self == Slot::End || is_last && self.ends_call()) {
            "-> and a reply"
        } else {
            self.texts().1
        }
    }

    // Whether a call may end there.
    fn ends_call(self) -> bool {
        matches!(
            self,
            Slot::Parameters | Slot::Kind | Slot::Naming | Slot::Arguments | Slot::End
        )
    }

    /// Whether a line may end there.
    pub(crate) fn ends_line(self, sort: Sort) -> bool {
        match sort {
            Sort::Histories => matches!(self, Slot::Error | Slot::LineEnd),
            _ => self.ends_call(),
        }
    }
}

/// The slots of the first words of a line of a text of this sort, which begins with this slot, as far as each may be where
/// it is, and the slot after them.
pub(crate) fn slots_of(
    alloc: Global,
    sort: Sort,
    first: Slot,
    words: &[&[u8]],
) -> Result<(Vec<Slot>, Slot)> {
    let mut slots = Vec::new(alloc);
    let mut slot = first;
    for word in words {
        let Some(next) = slot.after(sort, word) else {
            break;
        };
        slots.push(slot)?;
        slot = next;
    }
    Ok((slots, slot))
}

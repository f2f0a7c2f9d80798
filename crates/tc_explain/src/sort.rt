//! What a text should be, and what it seems to be.
use crate::slot::is_space;
use tc_reader::{ScriptKind, is_comment};
use tc_text::TextKind;

/// A sort of texts.
#[derive(Clone, Copy, Debug, PartialEq, Eq)]
pub(crate) enum Sort {
    /// A script.
    Script,
    /// Histories.
    Histories,
    /// A list of moves.
    Moves,
    /// A module of TTCN-3.
    Source,
}

/// What the text should be, and the kind of its first fault.
#[derive(Clone, Copy, Debug, PartialEq, Eq)]
pub enum Refusal {
    /// A script.
    Script(ScriptKind),
    /// Histories.
    Histories(TextKind),
    /// A list of moves.
    Moves(TextKind),
}

impl Refusal {
    /// What the text should be.
    pub(crate) fn sort(self) -> Sort {
        match self {
            Refusal::Script(_) => Sort::Script,
            Refusal::Histories(_) => Sort::Histories,
            Refusal::Moves(_) => Sort::Moves,
        }
    }
}

impl Sort {
    /// What is said of a text that seems to be of this sort.
    pub(crate) fn text(self) -> &'static str {
        match self {
            Sort::Script => "the text looks like a script, which ttrun run reads",
            Sort::Histories => {
                "the text looks like histories, which ttrun check and ttrun report read"
            }
            Sort::Moves => "the text looks like a list of moves, which ttrun replay reads",
            Sort::Source => "the text looks like TTCN-3, which ttrun does not read",
        }
    }
}

/// What the text seems to be by the first line that says something.
pub(crate) fn seen_sort(text: &[u8]) -> Option<Sort> {
    let lines = text.split(|byte| *byte == b'\n');
    let mut begun = lines.filter_map(|line| {
        let word = line.split(is_space).find(|word| !word.is_empty())?;
        Some((word, line))
    });
    let (word, line) = begun.find(|(word, _)| !is_comment(word))?;
    Some(match word {
        b"history" | b"evidence" => Sort::Histories,
        b"behaviours" => Sort::Moves,
        b"module" | [b'/', ..] => Sort::Source,
        b"testcase" if line.contains(&b'(') => Sort::Source,
        b"testcase" => Sort::Script,
        _ => return None,
    })
}

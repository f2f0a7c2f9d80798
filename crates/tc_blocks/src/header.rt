//! The first line of a block.
ghost use Rattle.std.specs.Prelude.{◌≡◌, ◌≢◌, ◌<◌, ◌≤◌, ◌↔◌, ◌++◌, ◌∷◌, ℕ, true, List, length, IfSome, IsTrue};
ghost use Rattle.std.specs.Fmt.{decimal};
ghost use Rattle.tc_rules.specs.Prelude.{IsBehaviours};
ghost use Rattle.tc_text.specs.Prelude.{lines_of, EndsLine, Takes};
ghost use Rattle.tc_text.specs.Inside.{TakesLine};
ghost use Rattle.tc_blocks.specs.{Block.header_text, Block.kind_text, Inside.IsFirst, Text.IsHeader, Text.format_of};

use tc_entry::Name;
use tc_text::{after, as_behaviours, take_line_end, take_name, take_number};

/// What a block is.
#[derive(Clone, Copy, PartialEq, Eq, Debug, Drop)]
pub enum Kind {
    /// A history of format 1: no component has a name.
    History1,
    /// A history of format 2.
    History2,
    /// Evidence: next to entries it has names of behaviours, remarks and refused lines.
    Evidence,
}

impl Kind {
    /// The format of the entries; those of evidence are spelled as in format 2.
    pub(crate) fn format(self) -> u16
        ensures { result ≡ format_of self }
    {
        match self {
            Kind::History1 => 1,
            Kind::History2 | Kind::Evidence => 2,
        }
    }
}

/// What the first line of a block says.
#[derive(Debug, Drop)]
pub struct Header {
    /// What the block is.
    pub kind: Kind,
    /// The name of the test case.
    pub name: Name,
    /// How many behaviours it had.
    pub behaviours: u16,
}

/// The most behaviours of a block of format 1; format 2 has as many as a test case may have.
pub const FORMAT_1_BEHAVIOURS: u16 = 64;

// Whether a block of this kind may have that many behaviours.
fn fits_kind(kind: Kind, behaviours: u16) -> bool
    ensures { IsTrue result ↔ (kind ≡ Kind.History1 → behaviours ≤ 64) }
{
    match kind {
        Kind::History1 => behaviours <= FORMAT_1_BEHAVIOURS,
        Kind::History2 | Kind::Evidence => true,
    }
}

// The number of behaviours after the name of a test case, if a block of this kind may have that many, and what follows
// the line, which it ends.
fn take_behaviours(kind: Kind, text: &[u8]) -> Option<(u16, &[u8])>
    ensures spelled { IfSome result (λ r. (rest : List ℕ) × (text.now ≡ 32 ∷ (decimal r.0 ++ rest)) × EndsLine rest r.1.now) }
    ensures fits { IfSome result (λ r. IsBehaviours r.0 × (kind ≡ Kind.History1 → r.0 ≤ 64)) }
    ensures less { IfSome result (λ r. length r.1.now < length text.now) }
    ensures only { (n : ℕ) (rest behind : List ℕ) → IsBehaviours n → (kind ≡ Kind.History1 → n ≤ 64) → EndsLine rest behind
        → text.now ≡ 32 ∷ (decimal n ++ rest) → Takes result n behind }
{
    let rest = after(text, b" ")?;
    let (number, rest) = take_number(rest)?;
    let rest = take_line_end(rest)?;
    let behaviours = as_behaviours(number)?;
    if !fits_kind(kind, behaviours) {
        return None;
    }
    Some((behaviours, rest))
}

// The kind that the text begins with the words of, and what follows them.
fn take_kind(text: &[u8]) -> Option<(Kind, &[u8])>
    ensures spelled { IfSome result (λ r. text.now ≡ kind_text r.0 ++ r.1.now) }
    ensures only { (k : Kind) (rest : List ℕ) → text.now ≡ kind_text k ++ rest → Takes result k rest }
{
    if let Some(rest) = after(text, b"evidence 1 ") {
        Some((Kind::Evidence, rest))
    } else if let Some(rest) = after(text, b"history 2 ") {
        Some((Kind::History2, rest))
    } else if let Some(rest) = after(text, b"history 1 ") {
        Some((Kind::History1, rest))
    } else {
        None
    }
}

// What the first line says, if it is the first one of a block, and what follows that line.
fn take_header(text: &[u8]) -> Option<(Header, &[u8])>
    ensures spelled { IfSome result (λ r. lines_of text.now ≡ header_text r.0 ∷ lines_of r.1.now) }
    ensures fits { IfSome result (λ r. IsHeader r.0) }
    ensures less { IfSome result (λ r. length r.1.now < length text.now) }
    ensures only { (h : Header) (others : List (List ℕ)) → IsHeader h → lines_of text.now ≡ header_text h ∷ others
        → TakesLine result h others }
{
    let (kind, rest) = take_kind(text)?;
    let (name, rest) = take_name(rest)?;
    match take_behaviours(kind, rest) {
        Some((behaviours, rest)) => {
            let header = Header {
                kind,
                name,
                behaviours,
            };
            Some((header, rest))
        }
        None => None,
    }
}

// Whether a text may have a block of this kind, if it may have histories only.
fn may_have(only_histories: bool, kind: Kind) -> bool
    ensures { IsTrue result ↔ (only_histories ≡ true → kind ≢ Kind.Evidence) }
{
    match kind {
        Kind::Evidence => !only_histories,
        Kind::History1 | Kind::History2 => true,
    }
}

/// What the first line says, if it is the first one of a block that a text may have, which may have histories only, and
/// what follows that line.
pub(crate) fn take_first_line(only_histories: bool, text: &[u8]) -> Option<(Header, &[u8])>
    ensures spelled { IfSome result (λ r. lines_of text.now ≡ header_text r.0 ∷ lines_of r.1.now) }
    ensures header { IfSome result (λ r. IsHeader r.0) }
    ensures first { IfSome result (λ r. IsFirst only_histories r.0) }
    ensures less { IfSome result (λ r. length r.1.now < length text.now) }
    ensures only { (h : Header) (others : List (List ℕ)) → IsFirst only_histories h → lines_of text.now ≡ header_text h ∷ others
        → TakesLine result h others }
{
    let (header, rest) = take_header(text)?;
    if !may_have(only_histories, header.kind) {
        return None;
    }
    Some((header, rest))
}

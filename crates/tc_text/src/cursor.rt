//! Steps along a text.
ghost use Rattle.std.specs.Prelude.{◌≡◌, ◌≢◌, ◌≤◌, ◌+◌, ◌++◌, ◌∷◌, [], ℕ, List, MatchOption, IfSome, IfNone, true, false, length, slice_index, take};
ghost use Rattle.tc_text.specs.Reading.{EndsLine};

// The four bytes from the place on.
#[inline(always)]
fn four_at(text: &[u8], place: usize) -> [u8; 4]
    requires { place + 4 ≤ length text.now }
    ensures { result ≡ slice_index text.now place ∷ slice_index text.now (place + 1)
        ∷ slice_index text.now (place + 2) ∷ slice_index text.now (place + 3) ∷ [] }
{
    [
        text[place],
        text[place + 1],
        text[place + 2],
        text[place + 3],
    ]
}

// Whether the bytes are the same, as numbers of four bytes, which the processor compares at once.
#[inline(always)]
fn are_same(found: [u8; 4], wanted: [u8; 4]) -> bool
    ensures same { result ≡ true → found ≡ wanted }
    ensures other { result ≡ false → found ≢ wanted }
{
    u32::from_le_bytes(found) == u32::from_le_bytes(wanted)
}

// How many bytes of both are read by four, if they are the same.
#[inline(always)]
fn same_fours(head: &[u8], word: &[u8]) -> Option<usize>
    requires { length head.now ≡ length word.now }
    ensures some { IfSome result (λ n. (n ≤ length word.now) × (take n head.now ≡ take n word.now)) }
    ensures none { IfNone result (head.now ≢ word.now) }
{
    let mut place = 0;
    while word.len() - place >= 4 {
        if !are_same(four_at(head, place), four_at(word, place)) {
            return None;
        }
        place += 4;
    }
    Some(place)
}

/// What follows the word, if the text begins with it.
#[inline(always)]
pub fn after<'a>(text: &'a [u8], word: &[u8]) -> Option<&'a [u8]>
    ensures { MatchOption result ((rest : List ℕ) → text.now ≢ word.now ++ rest) (λ rest. text.now ≡ word.now ++ rest.now) }
{
    let (head, rest) = text.split_at_checked(word.len())?;
    let mut place = same_fours(head, word)?;
    while place < word.len() {
        if head[place] != word[place] {
            return None;
        }
        place += 1;
    }
    Some(rest)
}

/// The value, and what follows the word, if the text begins with the word.
#[inline(always)]
pub(crate) fn value_after<'a, T: Copy>(
    text: &'a [u8],
    word: &[u8],
    value: T,
) -> Option<(T, &'a [u8])>
    ensures { MatchOption result ((rest : List ℕ) → text.now ≢ word.now ++ rest) (λ r. (r.0 ≡ value) × (text.now ≡ word.now ++ r.1.now)) }
{
    Some((value, after(text, word)?))
}

/// What follows the end of a line, if the text begins with that end: an LF, or nothing.
#[inline(always)]
pub fn take_line_end(text: &[u8]) -> Option<&[u8]>
    ensures { MatchOption result ((behind : List ℕ) → EndsLine text.now behind → ⊥) (λ behind. EndsLine text.now behind.now) }
{
    match after(text, b"\n") {
        Some(rest) => Some(rest),
        None => { if text.is_empty() { Some(text) } else { None } }
    }
}

//! Names in a text, and those of verdicts.
ghost use Rattle.std.specs.Prelude.{◌≡◌, ◌++◌, ℕ, List, IfSome};
ghost use Rattle.tc_entry.specs.Prelude.{IsName, name_of};
ghost use Rattle.tc_text.specs.{Inside.NoLow, Reading.EndsNumber, Reading.Takes};

use crate::cursor::value_after;
use tc_entry::{Name, Verdict};

// The bytes before the first one that comes before the digits, and the others.
#[tactic(auto, using(crate::proofs::Lemmas::LinesOf::no_low_take))]
fn cut_low(text: &[u8]) -> (&[u8], &[u8])
    ensures parts { text.now ≡ result.0.now ++ result.1.now }
    ensures before { NoLow result.0.now }
    ensures behind { EndsNumber result.1.now }
{
    for (place, byte) in text.iter().enumerate() {
        if *byte < b'0' {
            return text.split_at(place);
        }
    }
    text.split_at(text.len())
}

/// The name that the text begins with, and what follows it. No digit or letter may be there.
#[inline(never)]
pub fn take_name(text: &[u8]) -> Option<(Name, &[u8])>
    ensures spelled { IfSome result (λ r. text.now ≡ r.0 ++ r.1.now) }
    ensures fits { IfSome result (λ r. IsName r.0) }
    ensures only { (name : List ℕ) (rest : List ℕ) → IsName name → EndsNumber rest → text.now ≡ name ++ rest → Takes result name rest }
{
    let (name, rest) = cut_low(text);
    Some((Name::of_bytes(name)?, rest))
}

/// The verdict whose name the text begins with, and what follows it.
#[inline(always)]
pub fn take_verdict(text: &[u8]) -> Option<(Verdict, &[u8])>
    ensures spelled { IfSome result (λ r. text.now ≡ name_of r.0 ++ r.1.now) }
    ensures only { (v : Verdict) (rest : List ℕ) → text.now ≡ name_of v ++ rest → Takes result v rest }
{
    match text {
        [b'n', ..] => value_after(text, b"none", Verdict::None),
        [b'p', ..] => value_after(text, b"pass", Verdict::Pass),
        [b'i', ..] => value_after(text, b"inconc", Verdict::Inconc),
        [b'f', ..] => value_after(text, b"fail", Verdict::Fail),
        [b'e', ..] => value_after(text, b"error", Verdict::Error),
        _ => None,
    }
}

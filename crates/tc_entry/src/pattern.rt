//! The patterns of names.
ghost use Rattle.std.specs.{Prelude.{◌≡◌, ◌==◌, ◌+◌, ◌<◌, ◌≤◌, ◌∷◌, ◌↔◌, ◌||◌, [], All, IsSome, IfSome, IsTrue, false, true, length, map, nat_eq}, Cmp.Lexicographic.{nat_list_eq_equiv, pointwise}, Cmp.partial_equiv_from_equiv, List.list_any};
ghost use Rattle.tc_entry.specs.{Inside.any_of, Inside.behind, Inside.passed, Name.IsPattern, Name.IsWild, Name.is_name_byte as is_allowed, Name.matches as spec_matches, declared.pattern.TheConstants.PLACES};

use crate::limits::NAME_BYTES;
use crate::name::{Name, is_name_byte};
use arrayvec::ArrayVec;
use std::marker::Model;

/// How many bytes a pattern has at most.
const PATTERN_BYTES: usize = 64;

/// How many places a name has: before each byte, and at the end.
const PLACES: usize = NAME_BYTES + 1;

/// Which places of a name are reached.
type Places = ArrayVec<bool, PLACES>;

/// A pattern of names: a name, or 1 to 64 bytes of names and `*`, which matches any bytes, or none.
#[derive(Debug, Drop)]
pub struct Pattern {
    bytes: ArrayVec<u8, PATTERN_BYTES>,
}

impl Model for Pattern {
    ghost use Rattle.std.specs.Prelude.{List, ℕ};
    ghost use Rattle.tc_entry.specs.Name.{IsPattern};

    ghost Value = { List ℕ };

    ghost view = { λ p. p.bytes.items };

    ghost invariant = { λ p. IsPattern p.bytes.items };
}

impl PartialEq for Pattern {
    ghost eq = { pointwise nat_eq };

    ghost laws = { partial_equiv_from_equiv nat_list_eq_equiv };

    fn eq(&self, other: &Pattern) -> bool {
        self.bytes() == other.bytes()
    }
}

impl Eq for Pattern {
    ghost laws = { nat_list_eq_equiv };
}

// Only the first place of the name.
fn first_place(name: &[u8]) -> Places
    requires { length name.now < PLACES }
    ensures { result.items ≡ true ∷ map (λ b. false) name.now }
{
    let mut places = ArrayVec::new();
    places.push(true);
    let mut rest = name;
    while let Some((_, others)) = rest.split_first() {
        places.push(false);
        rest = others;
    }
    places
}

// The places that any bytes lead to from these, or none.
fn behind_any(places: &[bool]) -> Places
    requires { length places.now ≤ PLACES }
    ensures { result.items ≡ behind false places.now }
{
    let mut after = ArrayVec::new();
    let mut reached = false;
    let mut rest = places;
    while let Some((place, others)) = rest.split_first() {
        reached = reached || *place;
        after.push(reached);
        rest = others;
    }
    after
}

// The places that this byte leads to from these places of the name.
fn behind_byte(byte: u8, name: &[u8], places: &[bool]) -> Places
    requires { length name.now < PLACES }
    ensures { result.items ≡ passed false byte name.now places.now }
{
    let mut after = ArrayVec::new();
    let mut reached = false;
    let mut bytes = name;
    let mut rest = places;
    while let (Some((b, bs)), Some((place, others))) = (bytes.split_first(), rest.split_first()) {
        after.push(reached);
        reached = *place && byte == *b;
        bytes = bs;
        rest = others;
    }
    after.push(reached);
    after
}

// The places of the name that the pattern leads to.
fn places_of(pattern: &[u8], name: &[u8]) -> Places
    requires { length name.now < PLACES }
    ensures len { length result.items ≡ length name.now + 1 }
    ensures is { any_of (spec_matches []) result.items name.now ≡ spec_matches pattern.now name.now }
{
    let mut places = first_place(name);
    let mut bytes = pattern;
    while let Some((byte, rest)) = bytes.split_first() {
        places = if *byte == b'*' {
            behind_any(places.as_slice())
        } else {
            behind_byte(*byte, name, places.as_slice())
        };
        bytes = rest;
    }
    places
}

// Whether the last of these places of the name is reached.
#[tactic(auto, using(crate::proofs::Patterns::at_end))]
fn is_at_end(places: &[bool], name: &[u8]) -> bool
    requires { length places.now ≡ length name.now + 1 }
    ensures { result ≡ any_of (spec_matches []) places.now name.now }
{
    places[name.len()]
}

fn is_pattern_byte(byte: u8) -> bool
    ensures { result ≡ (is_allowed byte || (byte == 42)) }
{
    is_name_byte(byte) || byte == b'*'
}

// Whether each byte may be in a pattern.
fn are_allowed(bytes: &[u8]) -> bool
    ensures { IsTrue result ↔ All (λ b. IsTrue (is_allowed b || (b == 42))) bytes.now }
{
    bytes.iter().all(|byte| is_pattern_byte(*byte))
}

// Whether one of the bytes is a star.
fn has_star(bytes: &[u8]) -> bool
    ensures { result ≡ list_any (λ b. b == 42) bytes.now }
{
    bytes.iter().any(|byte| *byte == b'*')
}

// Whether the bytes are a pattern with a star.
fn is_wild(bytes: &[u8]) -> bool
    ensures { IsTrue result ↔ IsWild bytes.now }
{
    bytes.len() <= PATTERN_BYTES && are_allowed(bytes) && has_star(bytes)
}

// Whether the bytes are a pattern.
fn is_pattern(bytes: &[u8]) -> bool
    ensures { IsTrue result ↔ IsPattern bytes.now }
{
    Name::of_bytes(bytes).is_some() || is_wild(bytes)
}

impl Pattern {
    /// The pattern of this text, if it is one.
    #[tactic(auto, using(crate::proofs::Lemmas::Names::name_short))]
    pub fn read(text: &str) -> Option<Pattern>
        ensures valid { IsSome result ↔ IsPattern text.now }
        ensures spelled { IfSome result (λ p. p ≡ text.now) }
    {
        let bytes = text.as_bytes();
        if !is_pattern(bytes) {
            return None;
        }
        let bytes = ArrayVec::try_from(bytes).ok()?;
        Some(Pattern { bytes })
    }

    /// The pattern's spelling.
    pub fn bytes(&self) -> &[u8]
        ensures bytes { result.now ≡ self.now }
        ensures pattern { IsPattern self.now }
    {
        self.bytes.as_slice()
    }

    /// Whether the pattern matches the name.
    #[tactic(auto, using(crate::proofs::Lemmas::Names::name_short))]
    pub fn matches(&self, name: &Name) -> bool
        ensures { result ≡ spec_matches self.now name.now }
    {
        let pattern = self.bytes();
        if has_star(pattern) {
            let name = name.bytes();
            is_at_end(places_of(pattern, name).as_slice(), name)
        } else {
            pattern == name.bytes()
        }
    }
}

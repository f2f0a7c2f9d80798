//! The name of a test case, a behaviour or a component.
ghost use Rattle.std.{specs.{Prelude.{◌≡◌, ◌↔◌, ◌≤◌, ◌++◌, ◌-◌, IsSome, IfSome, IsTrue, [], ◌∷◌, bytes_eq, codes, length, nat_eq, replicate}, List.{list_all, list_any}, Cmp.Lexicographic.{nat_list_eq_equiv, pointwise}, Cmp.Rules.hashing, Cmp.partial_equiv_from_equiv}, proofs.Common.rules};
ghost use Rattle.std.specs.Hash as fed;
ghost use Rattle.tc_entry.specs.Name.{IsName, is_name as spelled_as_name, is_name_byte as is_allowed};

use crate::limits::NAME_BYTES;
use std::hash::{Hash, Hasher};
use std::marker::Model;

/// A name of a test case, a behaviour or a component: 1 to `NAME_BYTES` bytes, held in place.
#[derive(Debug, Drop)]
pub struct Name {
    bytes: [u8; NAME_BYTES],
    len: u8,
}

impl Model for Name {
    ghost use Rattle.std.specs.Prelude.{◌≡◌, ◌++◌, ◌-◌, List, ℕ, length, replicate, take};
    ghost use Rattle.tc_entry.specs.Name.{IsName};

    ghost Value = { List ℕ };

    ghost view = { λ n. take n.len n.bytes };

    // What is not used is 0, so that two with the same bytes are the same value.
    ghost invariant = { λ n. IsName (take n.len n.bytes) × (length (take n.len n.bytes) ≡ n.len)
        × (n.bytes ≡ take n.len n.bytes ++ replicate (32 - n.len) 0) };

    ghost inverse = { λ bs. record { bytes = bs ++ replicate (32 - length bs) 0; len = length bs } };
}

/// Whether the byte may be in a name.
pub(crate) fn is_name_byte(byte: u8) -> bool
    ensures { result ≡ is_allowed byte }
{
    byte.is_ascii_alphanumeric() || byte == b'_'
}

// Whether each byte may be in a name.
fn are_allowed(bytes: &[u8]) -> bool
    ensures { result ≡ list_all is_allowed bytes.now }
{
    bytes.iter().all(|byte| is_name_byte(*byte))
}

// Whether the grammars keep the word for themselves.
fn is_reserved(word: &[u8]) -> bool
    ensures { result ≡ list_any (bytes_eq word.now) (codes "all" ∷ codes "any" ∷ codes "mtc" ∷ codes "self" ∷ []) }
{
    word == b"all".as_slice()
        || word == b"any".as_slice()
        || word == b"mtc".as_slice()
        || word == b"self".as_slice()
}

// Whether the bytes are a name.
#[tactic(auto, unfolding(crate::specs::Name::is_name))]
fn is_name(bytes: &[u8]) -> bool
    ensures { result ≡ spelled_as_name bytes.now }
{
    let Some(first) = bytes.first() else {
        return false;
    };
    first.is_ascii_alphabetic()
        && are_allowed(bytes)
        && bytes.len() <= NAME_BYTES
        && !is_reserved(bytes)
}

/// The bytes, and zeros in the places that they do not fill.
fn padded(bytes: &[u8]) -> [u8; NAME_BYTES]
    requires { length bytes.now ≤ 32 }
    ensures { result ≡ bytes.now ++ replicate (32 - length bytes.now) 0 }
{
    let mut kept = [0; NAME_BYTES];
    kept[..bytes.len()].copy_from_slice(bytes);
    kept
}

impl PartialEq for Name {
    ghost eq = { pointwise nat_eq };

    ghost laws = { partial_equiv_from_equiv nat_list_eq_equiv };

    fn eq(&self, other: &Name) -> bool {
        self.bytes() == other.bytes()
    }
}

impl Eq for Name {
    ghost laws = { nat_list_eq_equiv };
}

impl Hash for Name {
    ghost hash_input = { fed.slice fed.u8 };

    ghost respects_eq = { Prim.search (hashing, rules) };

    fn hash<H: Hasher>(&self, state: &mut H) {
        self.bytes().hash(state);
    }
}

impl Name {
    /// The name of this text, if it is one.
    pub fn read(text: &str) -> Option<Name>
        ensures valid { IsSome result ↔ IsName text.now }
        ensures spelled { IfSome result (λ n. n ≡ text.now) }
    {
        Name::of_bytes(text.as_bytes())
    }

    /// The name of these bytes, if they are one.
    #[tactic(auto, using(crate::proofs::Lemmas::Names::name_short))]
    pub fn of_bytes(bytes: &[u8]) -> Option<Name>
        ensures valid { IsSome result ↔ IsName bytes.now }
        ensures spelled { IfSome result (λ n. n ≡ bytes.now) }
    {
        if !is_name(bytes) {
            return None;
        }
        Some(Name {
            bytes: padded(bytes),
            len: bytes.len() as u8,
        })
    }

    /// The name's spelling.
    pub fn bytes(&self) -> &[u8]
        ensures bytes { result.now ≡ self.now }
        ensures name { IsName self.now }
    {
        &self.bytes[..usize::from(self.len)]
    }

    /// An equal value.
    pub fn copy(&self) -> Name
        ensures { result ≡ self.now }
    {
        Name {
            bytes: self.bytes,
            len: self.len,
        }
    }

    /// Whether both are the same name.
    pub fn same(&self, other: &Name) -> bool
        ensures { IsTrue result ↔ (self.now ≡ other.now) }
    {
        self.bytes() == other.bytes()
    }
}

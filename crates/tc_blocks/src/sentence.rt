//! What somebody says in one line.
ghost use Rattle.std.specs.Prelude.{◌≡◌, ◌↔◌, IsSome, IsTrue, IfOk, IfSome};
ghost use Rattle.tc_blocks.specs.Sentence.{IsSentence};

use std::alloc::Global;
use std::marker::Model;
use tc_entry::NoMemory;
use tc_text::is_plain;

/// The most bytes of a sentence.
pub const SENTENCE_BYTES: usize = 200;

/// A sentence: 1 to `SENTENCE_BYTES` bytes from 32 to 126. Contracts see its bytes.
#[derive(Drop)]
pub struct Sentence {
    bytes: Vec<u8>,
}

impl Model for Sentence {
    ghost use Rattle.std.specs.Prelude.{List, ℕ};
    ghost use Rattle.tc_blocks.specs.Sentence.{IsSentence};

    ghost Value = { List ℕ };

    ghost view = { λ s. s.bytes.items };

    ghost invariant = { λ s. IsSentence s.bytes.items };
}

fn is_sentence(bytes: &[u8]) -> bool
    ensures { IsTrue result ↔ IsSentence bytes.now }
{
    !bytes.is_empty() && bytes.len() <= SENTENCE_BYTES && bytes.iter().all(|byte| is_plain(*byte))
}

impl Sentence {
    /// The sentence of these bytes, if they are one.
    pub fn of_bytes(alloc: Global, bytes: &[u8]) -> Result<Option<Sentence>, NoMemory>
        ensures valid { IfOk result (λ found. IsSome found ↔ IsSentence bytes.now) }
        ensures spelled { IfOk result (λ found. IfSome found (λ s. s ≡ bytes.now)) }
    {
        if !is_sentence(bytes) {
            return Ok(None);
        }
        let mut kept = Vec::new(alloc);
        kept.extend_from_slice(bytes)?;
        Ok(Some(Sentence { bytes: kept }))
    }

    /// The bytes of the sentence.
    pub fn bytes(&self) -> &[u8]
        ensures bytes { result.now ≡ self.now }
        ensures sentence { IsSentence self.now }
    {
        &self.bytes
    }
}

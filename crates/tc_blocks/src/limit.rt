//! How many bytes an input of blocks may have, and how many of them are read.
ghost use Rattle.std.specs.Prelude.{◌≡◌, ◌<◌, ◌≤◌, ◌+◌, ◌++◌, ◌∷◌, [], ℕ, List, Option, length, take, IfOk, IfSome, IfNone, IsErrOf, OnOk, MatchBool, true, false};
ghost use Rattle.std.specs.Io.KnownBytes.{IsAtEnd};
ghost use Rattle.tc_blocks.specs.{Inside.IsConsumed, Inside.IsFitSoFar, Inside.IsOpenAfter, Inside.blocks_fit, Inside.ends_block, Inside.is_due, Limit.IsInLimit};

use std::io::Read;
use tc_stream::{InputFault, read_part};

/// How many bytes an input may have.
#[derive(Clone, Copy, Debug, PartialEq, Eq)]
pub enum Limit {
    /// That many, all together.
    Whole(usize),
    /// That many in each block.
    Blocks(usize),
}

// With this the last line of a block begins.
const LAST: &[u8] = b"end ";

/// The block that a text has come to.
#[derive(Clone, Copy)]
pub(crate) struct OpenBytes {
    /// How many of its bytes have come.
    bytes: usize,
    /// What has to come for its line so far to be its last one; None if it is another.
    due: Option<&'static [u8]>,
}

// What is due after this byte.
fn due_after(due: Option<&'static [u8]>, byte: u8) -> Option<&'static [u8]>
    ensures { (more : List ℕ) → is_due due.entry (byte ∷ more) ≡ is_due result more }
{
    let word = due?;
    match word.split_first() {
        None => due,
        Some((first, rest)) if *first == byte => Some(rest),
        Some(_) => None,
    }
}

impl OpenBytes {
    // None has come.
    fn none() -> OpenBytes
        ensures open { (most : ℕ) → IsOpenAfter most [] result }
        ensures bytes { result.bytes ≡ 0 }
        ensures due { (more : List ℕ) → ends_block more ≡ is_due result.due more }
    {
        OpenBytes {
            bytes: 0,
            due: Some(LAST),
        }
    }

    // Whether the line so far is the last one of the block.
    fn is_last(&self) -> bool
        ensures { result ≡ is_due self.now.due [] }
    {
        matches!(self.due, Some([]))
    }

    // The block after the next byte.
    fn after(&self, byte: u8) -> OpenBytes
        requires { self.now.bytes < usize.MAX }
        ensures { (most : ℕ) (text : List ℕ) → self.now.bytes < most → IsOpenAfter most text self.now → IsOpenAfter most (text ++ byte ∷ []) result }
    {
        let bytes = self.bytes + 1;
        if byte != b'\n' {
            let due = due_after(self.due, byte);
            return OpenBytes { bytes, due };
        }
        if self.is_last() {
            return OpenBytes::none();
        }
        OpenBytes {
            bytes,
            due: Some(LAST),
        }
    }

    // Takes the next byte, unless its block has as many as it may have; says whether it took it.
    #[tactic(auto, using(crate::proofs::BlockBytes::byte_exceeds))]
    fn take_byte(&mut self, most: usize, byte: u8) -> bool
        ensures { (text : List ℕ) → IsOpenAfter most text self.old → MatchBool result (IsOpenAfter most (text ++ byte ∷ []) self.new)
            ((rest : List ℕ) → blocks_fit most (text ++ byte ∷ rest) ≡ false) }
    {
        if self.bytes >= most {
            return false;
        }
        *self = self.after(byte);
        true
    }

    // Takes the bytes of a part, unless a block has too many; says whether it took them.
    fn take(&mut self, most: usize, part: &[u8]) -> bool
        ensures { (text : List ℕ) → IsOpenAfter most text self.old → MatchBool result (IsOpenAfter most (text ++ part.now) self.new)
            ((rest : List ℕ) → blocks_fit most (text ++ (part.now ++ rest)) ≡ false) }
    {
        for byte in part {
            if !self.take_byte(most, *byte) {
                return false;
            }
        }
        true
    }

    // The same of an input, if its blocks have a limit.
    fn may_take(&mut self, limit: Limit, part: &[u8]) -> bool
        ensures fits { result ≡ true → (text : List ℕ) → IsFitSoFar limit text self.old → IsFitSoFar limit (text ++ part.now) self.new }
        ensures long { result ≡ false → (text rest : List ℕ) → IsFitSoFar limit text self.old
            → IsInLimit limit (text ++ (part.now ++ rest)) → ⊥ }
    {
        match limit {
            Limit::Whole(_) => true,
            Limit::Blocks(most) => self.take(most, part),
        }
    }
}

/// How much of an input is read.
#[derive(Clone, Copy)]
pub(crate) struct Extent {
    limit: Limit,
    /// How many bytes it may have after those that are read.
    left: usize,
    open: OpenBytes,
}

impl Extent {
    /// Nothing is read of an input with this limit.
    pub(crate) fn new(limit: Limit) -> Extent
        ensures none { (input : Option (List ℕ)) → IsConsumed input input [] result }
        ensures limit { result.limit ≡ limit }
    {
        Extent {
            limit,
            left: match limit {
                Limit::Whole(most) => most,
                Limit::Blocks(_) => usize::MAX - 1,
            },
            open: OpenBytes::none(),
        }
    }

    /// Reads once into the room, and says how many bytes it gave; None at the end.
    pub(crate) fn read<R: Read>(
        &mut self,
        reader: &mut R,
        room: &mut [u8],
    ) -> Result<Option<usize>, InputFault>
        requires { 0 < length room.old }
        ensures room { length room.new ≡ length room.old }
        ensures within { IfOk result (λ n. IfSome n (λ n. n ≤ length room.new)) }
        ensures some { IfOk result (λ n. IfSome n (λ n. 0 < n)) }
        ensures counted { IfOk result (λ n. IfSome n (λ n. self.new.left + n ≡ self.old.left)) }
        ensures limit { self.new.limit ≡ self.old.limit }
        ensures takes { IfOk result (λ n. IfSome n (λ n. (input : Option (List ℕ)) (text : List ℕ)
            → IsConsumed input (R.remaining reader.old) text self.old → IsConsumed input (R.remaining reader.new) (text ++ take n room.new) self.new)) }
        ensures none { IfOk result (λ n. IfNone n ((input : Option (List ℕ)) (text : List ℕ) → IsConsumed input (R.remaining reader.old) text self.old
            → IsConsumed input (R.remaining reader.new) text self.new)) }
        ensures end { IfOk result (λ n. IfNone n (IsAtEnd (R.remaining reader.new))) }
        ensures long { IsErrOf result InputFault.TooLong → (input : Option (List ℕ)) (text : List ℕ)
            → IsConsumed input (R.remaining reader.old) text self.old
            → IfSome input (λ whole. IsInLimit self.old.limit whole → ⊥) }
    {
        let Some(count) = read_part(reader, room, self.left)? else {
            return Ok(None);
        };
        if !self.open.may_take(self.limit, &room[..count]) {
            return Err(InputFault::TooLong);
        }
        self.left -= count;
        Ok(Some(count))
    }
}

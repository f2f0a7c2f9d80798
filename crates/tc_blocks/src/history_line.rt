//! The lines inside a block.
ghost use Rattle.std.specs.Prelude.{◌≡◌, ◌<◌, ◌↔◌, ◌∷◌, ℕ, List, length, IfSome, IsTrue, MatchOption};
ghost use Rattle.tc_rules.specs.Prelude.{Verdict as AnyVerdict, Entry as AnyEntry, Reply as AnyReply};
ghost use Rattle.tc_text.specs.Prelude.{lines_of, IsLong, IsReply};
ghost use Rattle.tc_text.specs.Inside.{TakesLine};
ghost use Rattle.tc_blocks.specs.{HistoryBlock.{end_text, entry_text}, Inside.{IsUnnamed, outcome_text, short_entry}, HistoryText.IsEntry};

use tc_entry::{Entry, Op, Reply, Run, Verdict};
use tc_text::{
    ShortOp, after, take_line_end, take_long_move, take_reply, take_short_move, take_verdict,
};

/// The overall verdict, if the first line is the last one of a block, and what follows that line.
#[inline(always)]
pub(crate) fn take_end_line(text: &[u8]) -> Option<(Verdict, &[u8])>
    ensures spelled { IfSome result (λ r. lines_of text.now ≡ end_text r.0 ∷ lines_of r.1.now) }
    ensures less { IfSome result (λ r. length r.1.now < length text.now) }
    ensures only { (v : AnyVerdict) (others : List (List ℕ)) → lines_of text.now ≡ end_text v ∷ others → TakesLine result v others }
{
    let rest = after(text, b"end ")?;
    let (verdict, rest) = take_verdict(rest)?;
    let rest = take_line_end(rest)?;
    Some((verdict, rest))
}

// The reply after a move, and what follows the line, which it ends.
#[inline(always)]
fn take_outcome<T>(text: &[u8]) -> Option<(Reply, &[u8])>
    ensures spelled { IfSome result (λ r. lines_of text.now ≡ outcome_text r.0 ∷ lines_of r.1.now) }
    ensures fits { IfSome result (λ r. IsReply r.0) }
    ensures less { IfSome result (λ r. length r.1.now < length text.now) }
    ensures only { (r : AnyReply) (others : List (List ℕ)) → IsReply r → lines_of text.now ≡ outcome_text r ∷ others
        → TakesLine result r others }
{
    let rest = after(text, b" -> ")?;
    let (reply, rest) = take_reply::<T>(rest)?;
    let rest = take_line_end(rest)?;
    Some((reply, rest))
}

// Whether an entry of a block of this format may have the operation.
fn may_have(format: u16, op: &Op) -> bool
    ensures { IsTrue result ↔ (format ≡ 1 → IsUnnamed op.now) }
{
    match op {
        Op::Create { name: Some(_), .. } => format != 1,
        _ => true,
    }
}

/// The entry with a long operation that the first line spells, and what follows that line.
#[inline(never)]
pub(crate) fn take_long_line(format: u16, text: &[u8]) -> Option<(Entry, &[u8])>
    ensures spelled { IfSome result (λ r. lines_of text.now ≡ entry_text r.0 ∷ lines_of r.1.now) }
    ensures fits { IfSome result (λ r. IsEntry format r.0) }
    ensures less { IfSome result (λ r. length r.1.now < length text.now) }
    ensures only { (e : AnyEntry) (others : List (List ℕ)) → IsLong e.op → IsEntry format e → lines_of text.now ≡ entry_text e ∷ others
        → TakesLine result e others }
{
    let ((caller, op), rest) = take_long_move(text)?;
    if !may_have(format, &op) {
        return None;
    }
    let (reply, rest) = take_outcome::<()>(rest)?;
    Some((Entry { caller, op, reply }, rest))
}

/// The caller, the operation and the reply of the entry that the first line spells, if its operation is a short one, and
/// what follows that line; None also if it is a long one. An entry of any format may have a short operation.
#[inline(always)]
pub(crate) fn take_short_line<T>(text: &[u8]) -> Option<((Run, ShortOp, Reply), &[u8])>
    ensures spelled { IfSome result (λ r. lines_of text.now ≡ entry_text (short_entry r.0.0 r.0.1 r.0.2) ∷ lines_of r.1.now) }
    ensures fits { (format : ℕ) → IfSome result (λ r. IsEntry format (short_entry r.0.0 r.0.1 r.0.2)) }
    ensures less { IfSome result (λ r. length r.1.now < length text.now) }
    ensures only { (format : ℕ) (e : AnyEntry) (others : List (List ℕ)) → IsEntry format e → lines_of text.now ≡ entry_text e ∷ others
        → MatchOption result (IsLong e.op) (λ r. (short_entry r.0.0 r.0.1 r.0.2 ≡ e) × (lines_of r.1.now ≡ others)) }
{
    let Some(((caller, op), rest)) = take_short_move::<T>(text) else {
        return None;
    };
    let (reply, rest) = take_outcome::<T>(rest)?;
    Some(((caller, op, reply), rest))
}

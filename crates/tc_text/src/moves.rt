//! The texts of moves.
ghost use Rattle.std.specs.Prelude.{◌≡◌, ◌<◌, ◌^◌, ◌++◌, ℕ, List, Some, IfSome};
ghost use Rattle.tc_text.specs.{Reading.EndsMove, Reading.Takes, Spelling.IsLong, Spelling.IsOp, Spelling.move_text, Spelling.op_text};

use crate::operand::{take_caller, take_named, take_start};
use crate::short::take_short_move;
use crate::verb::{Verb, behind};
use tc_entry::{Op, Run};

// The long operation that the text begins with, and what follows it.
fn take_long_op(text: &[u8]) -> Option<(Op, &[u8])>
    ensures spelled { IfSome result (λ r. text.now ≡ op_text r.0 ++ r.1.now) }
    ensures fits { IfSome result (λ r. IsOp r.0) }
    ensures only { (op : Op) (rest : List ℕ) → IsLong op → IsOp op → EndsMove rest → text.now ≡ op_text op ++ rest → Takes result op rest }
{
    match behind(text, Verb::Start) {
        Some(rest) => take_start(rest),
        None => take_named(behind(text, Verb::Create)?),
    }
}

/// The move of a Start, or of a Create with a name, that the text begins with, and what follows it.
#[inline(never)]
pub fn take_long_move(text: &[u8]) -> Option<((Run, Op), &[u8])>
    ensures spelled { IfSome result (λ r. text.now ≡ move_text r.0.0.0 r.0.1 ++ r.1.now) }
    ensures fits { IfSome result (λ r. (r.0.0.0 < 2 ^ 16) × IsOp r.0.1) }
    ensures only { (run : ℕ) (op : Op) (rest : List ℕ) → IsLong op → run < 2 ^ 16 → IsOp op → EndsMove rest
        → text.now ≡ move_text run op ++ rest → Takes result (record { 0 = run }, op) rest }
{
    let (caller, rest) = take_caller(text)?;
    let (op, rest) = take_long_op(rest)?;
    Some(((caller, op), rest))
}

/// The move that the text begins with, and what follows it.
#[inline(always)]
pub fn take_move(text: &[u8]) -> Option<((Run, Op), &[u8])>
    ensures spelled { IfSome result (λ r. text.now ≡ move_text r.0.0.0 r.0.1 ++ r.1.now) }
    ensures fits { IfSome result (λ r. (r.0.0.0 < 2 ^ 16) × IsOp r.0.1) }
    ensures only { (run : ℕ) (op : Op) (rest : List ℕ) → run < 2 ^ 16 → IsOp op → EndsMove rest → text.now ≡ move_text run op ++ rest
        → Takes result (record { 0 = run }, op) rest }
{
    match take_short_move::<()>(text) {
        Some(((caller, op), rest)) => Some(((caller, op.op()), rest)),
        None => take_long_move(text),
    }
}

/// The move that the text spells: the caller's run, and its operation. None if it spells none.
pub fn read_move(text: &[u8]) -> Option<(Run, Op)>
    ensures spelled { IfSome result (λ m. text.now ≡ move_text m.0.0 m.1) }
    ensures fits { IfSome result (λ m. (m.0.0 < 2 ^ 16) × IsOp m.1) }
    ensures only { (run : ℕ) (op : Op) → run < 2 ^ 16 → IsOp op → text.now ≡ move_text run op → result ≡ Some (record { 0 = run }, op) }
{
    let (one, rest) = take_move(text)?;
    if rest.is_empty() { Some(one) } else { None }
}

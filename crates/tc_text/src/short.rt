//! Operations with neither arguments nor a name, which are small.
ghost use Rattle.std.specs.Prelude.{◌≡◌, ◌<◌, ◌^◌, ◌++◌, ℕ, List, IfSome, MatchOption};
ghost use Rattle.tc_text.specs.{Inside.operand_text, Inside.status_op, Inside.verb_of, Reading.EndsMove, Reading.op_of, Spelling.IsLong, Spelling.IsOp, Spelling.move_text, Spelling.op_text};

use crate::cursor::after;
use crate::operand::{NAMED, take_caller, take_group, take_kind, take_setting, take_target};
use crate::verb::{Status, Verb, take_verb};
use tc_entry::{Group, Op, Run, Target, UserVerdict};

/// An operation but a Start and a Create with a name: what has neither arguments nor a name is small, and quickly
/// passed on.
#[derive(Clone, Copy, PartialEq, Eq, Debug)]
pub enum ShortOp {
    Create(bool),
    Stop(Group),
    Kill(Group),
    StopCase,
    Running(Target),
    Alive(Target),
    Done(Target),
    Killed(Target),
    WaitDone(Target),
    WaitKilled(Target),
    WakeDone(Target),
    WakeKilled(Target),
    SetVerdict(UserVerdict),
    GetVerdict,
    Finish,
}

impl ShortOp {
    /// The operation.
    #[inline(always)]
    pub fn op(self) -> Op
        ensures { result ≡ op_of self }
    {
        match self {
            ShortOp::Create(alive) => Op::Create { alive, name: None },
            ShortOp::Stop(group) => Op::Stop(group),
            ShortOp::Kill(group) => Op::Kill(group),
            ShortOp::StopCase => Op::StopCase,
            ShortOp::Running(target) => Op::Running(target),
            ShortOp::Alive(target) => Op::Alive(target),
            ShortOp::Done(target) => Op::Done(target),
            ShortOp::Killed(target) => Op::Killed(target),
            ShortOp::WaitDone(target) => Op::Wait {
                killed: false,
                target,
            },
            ShortOp::WaitKilled(target) => Op::Wait {
                killed: true,
                target,
            },
            ShortOp::WakeDone(target) => Op::Wake {
                killed: false,
                target,
            },
            ShortOp::WakeKilled(target) => Op::Wake {
                killed: true,
                target,
            },
            ShortOp::SetVerdict(setting) => Op::SetVerdict(setting),
            ShortOp::GetVerdict => Op::GetVerdict,
            ShortOp::Finish => Op::Finish,
        }
    }
}

// The operation that begins so and is about the target.
#[inline(always)]
fn about(status: Status, target: Target) -> ShortOp
    ensures { op_of result ≡ status_op status target }
{
    match status {
        Status::Running => ShortOp::Running(target),
        Status::Alive => ShortOp::Alive(target),
        Status::Done => ShortOp::Done(target),
        Status::Killed => ShortOp::Killed(target),
        Status::WaitDone => ShortOp::WaitDone(target),
        Status::WaitKilled => ShortOp::WaitKilled(target),
        Status::WakeDone => ShortOp::WakeDone(target),
        Status::WakeKilled => ShortOp::WakeKilled(target),
    }
}

// The operation that begins with these words and continues as the text begins, and what follows it; None for a long
// one. The type says who reads, as with `take_short_move`.
#[inline(always)]
fn take_short_operand<T>(verb: Verb, text: &[u8]) -> Option<(ShortOp, &[u8])>
    ensures spelled { IfSome result (λ r. (verb_of (op_of r.0) ≡ verb) × (text.now ≡ operand_text (op_of r.0) ++ r.1.now)) }
    ensures fits { IfSome result (λ r. IsOp (op_of r.0)) }
    ensures only { (op : Op) (rest : List ℕ) → verb_of op ≡ verb → IsOp op → EndsMove rest → text.now ≡ operand_text op ++ rest
        → MatchOption result (IsLong op) (λ r. (op_of r.0 ≡ op) × (r.1.now ≡ rest)) }
{
    match verb {
        Verb::Create => {
            let (alive, rest) = take_kind(text);
            match after(rest, NAMED) {
                Some(_) => None,
                None => Some((ShortOp::Create(alive), rest)),
            }
        }
        Verb::Start => None,
        Verb::Stop => take_group(text).map(|(group, rest)| (ShortOp::Stop(group), rest)),
        Verb::Kill => take_group(text).map(|(group, rest)| (ShortOp::Kill(group), rest)),
        Verb::StopCase => Some((ShortOp::StopCase, text)),
        Verb::Status(status) => {
            take_target(text).map(|(target, rest)| (about(status, target), rest))
        }
        Verb::SetVerdict => take_setting(text).map(|(setting, rest)| (
            ShortOp::SetVerdict(setting),
            rest,
        )),
        Verb::GetVerdict => Some((ShortOp::GetVerdict, text)),
        Verb::Finish => Some((ShortOp::Finish, text)),
    }
}

// The operation that the text begins with, and what follows it; None also if it is a long one. The type says who reads.
#[inline(always)]
fn take_short_op<T>(text: &[u8]) -> Option<(ShortOp, &[u8])>
    ensures spelled { IfSome result (λ r. text.now ≡ op_text (op_of r.0) ++ r.1.now) }
    ensures fits { IfSome result (λ r. IsOp (op_of r.0)) }
    ensures only { (op : Op) (rest : List ℕ) → IsOp op → EndsMove rest → text.now ≡ op_text op ++ rest
        → MatchOption result (IsLong op) (λ r. (op_of r.0 ≡ op) × (r.1.now ≡ rest)) }
{
    let (verb, rest) = take_verb::<T>(text)?;
    take_short_operand::<T>(verb, rest)
}

/// The move that the text begins with, and what follows it; None also if its operation is a Start, or a Create with a
/// name.
///
/// The type says who reads: each reader has a copy of this function, which the compiler can inline.
#[inline(always)]
pub fn take_short_move<T>(text: &[u8]) -> Option<((Run, ShortOp), &[u8])>
    ensures spelled { IfSome result (λ r. text.now ≡ move_text r.0.0.0 (op_of r.0.1) ++ r.1.now) }
    ensures fits { IfSome result (λ r. (r.0.0.0 < 2 ^ 16) × IsOp (op_of r.0.1)) }
    ensures only { (run : ℕ) (op : Op) (rest : List ℕ) → run < 2 ^ 16 → IsOp op → EndsMove rest → text.now ≡ move_text run op ++ rest
        → MatchOption result (IsLong op) (λ r. (r.0.0.0 ≡ run) × (op_of r.0.1 ≡ op) × (r.1.now ≡ rest)) }
{
    let (caller, rest) = take_caller(text)?;
    let (op, rest) = take_short_op::<T>(rest)?;
    Some(((caller, op), rest))
}

/// The move that the text spells, if its operation has neither arguments nor a name. The type says who reads.
#[inline(always)]
pub fn read_short_move<T>(text: &[u8]) -> Option<(Run, ShortOp)>
    ensures spelled { IfSome result (λ r. text.now ≡ move_text r.0.0 (op_of r.1)) }
    ensures fits { IfSome result (λ r. (r.0.0 < 2 ^ 16) × IsOp (op_of r.1)) }
{
    let (one, rest) = take_short_move::<T>(text)?;
    if rest.is_empty() { Some(one) } else { None }
}

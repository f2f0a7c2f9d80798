//! Lists of moves as texts.
ghost use Rattle.std.specs.Prelude.{◌≡◌, ◌++◌, ℕ, List, [], ◌∷◌, Some, IfSome, IfNone, IfOk, IfErr, OnOk, MatchOption, MatchResult};
ghost use Rattle.tc_entry.specs.Prelude.{IsBehaviours};
ghost use Rattle.tc_text.specs.{Inside.{IsMoveTakenBy, IsNoMove, TakesLine, behaviours_line}, MoveList.{IsListFault, IsMoveList, Move as AnyMove, lines_of}, Reading.op_of};

use crate::cursor::{after, take_line_end};
use crate::fault::{TextFault, TextKind};
use crate::moves::take_move;
use crate::number::take_number;
use crate::short::{ShortOp, take_short_move};
use std::alloc::Global;
use tc_entry::{NoMemory, Op, Run, Sequence, is_behaviours};

/// How many behaviours the case has, 1 to 256, and the moves.
#[derive(Drop)]
pub struct MoveList {
    pub behaviours: u16,
    pub moves: Sequence<(Run, Op)>,
}

/// The number, if a case may have that many behaviours.
pub fn as_behaviours(number: u32) -> Option<u16>
    ensures some { IfSome result (λ n. (n ≡ number) × IsBehaviours n) }
    ensures none { IfNone result (IsBehaviours number → ⊥) }
{
    if is_behaviours(number as usize) {
        Some(number as u16)
    } else {
        None
    }
}

// The number of behaviours that the first line gives, and what follows that line.
fn take_first_line(text: &[u8]) -> Option<(u16, &[u8])>
    ensures spelled { IfSome result (λ r. lines_of text.now ≡ behaviours_line r.0 ∷ lines_of r.1.now) }
    ensures few { IfSome result (λ r. IsBehaviours r.0) }
    ensures only { (n : ℕ) (others : List (List ℕ)) → IsBehaviours n → lines_of text.now ≡ behaviours_line n ∷ others → TakesLine result n others }
{
    let rest = after(text, b"behaviours ")?;
    let (number, rest) = take_number(rest)?;
    let rest = take_line_end(rest)?;
    Some((as_behaviours(number)?, rest))
}

/// What is made of a list of moves, one move after the other.
pub trait TakesMoves: Sized {
    /// The value is what these moves of a case of that many behaviours make.
    ghost stands: { ℕ → List AnyMove → Self → Type 0 };

    /// What no move makes.
    fn begin(alloc: Global, behaviours: u16) -> Result<Self, NoMemory>
        requires { IsBehaviours behaviours }
        ensures { IfOk result (λ made. stands behaviours [] made) };

    /// Takes the next move.
    fn take(&mut self, one: (Run, Op)) -> Result<(), NoMemory>
        ensures { OnOk result ((n : ℕ) (moves : List AnyMove) → stands n moves self.old → stands n (moves ++ one ∷ []) self.new) };

    /// Takes the next move, if its operation is a short one.
    fn take_short(&mut self, caller: Run, op: ShortOp) -> Result<(), NoMemory>
        ensures { OnOk result ((n : ℕ) (moves : List AnyMove) → stands n moves self.old → stands n (moves ++ (caller, op_of op) ∷ []) self.new) }
    {
        self.take((caller, op.op()))
    }
}

impl TakesMoves for MoveList {
    ghost stands = { λ n moves l. (l.behaviours ≡ n) × (l.moves ≡ moves) };

    fn begin(alloc: Global, behaviours: u16) -> Result<MoveList, NoMemory> {
        Ok(MoveList {
            behaviours,
            moves: Sequence::new(Vec::new(alloc)),
        })
    }

    fn take(&mut self, one: (Run, Op)) -> Result<(), NoMemory> {
        self.moves.push(one)
    }
}

// Takes the move that the first line spells, and gives what follows that line.
#[inline(never)]
fn take_any<'a, T: TakesMoves>(made: &mut T, text: &'a [u8]) -> Result<Option<&'a [u8]>, NoMemory>
    ensures { IfOk result (λ found. MatchOption found (IsNoMove text.now)
        (λ rest. IsMoveTakenBy T.stands text.now made.old made.new rest.now)) }
{
    let Some((one, rest)) = take_move(text) else {
        return Ok(None);
    };
    let Some(rest) = take_line_end(rest) else {
        return Ok(None);
    };
    made.take(one)?;
    Ok(Some(rest))
}

// The same: most moves have a short operation, and are made where they are passed on.
#[inline(always)]
fn take_next<'a, T: TakesMoves>(made: &mut T, text: &'a [u8]) -> Result<Option<&'a [u8]>, NoMemory>
    ensures { IfOk result (λ found. MatchOption found (IsNoMove text.now)
        (λ rest. IsMoveTakenBy T.stands text.now made.old made.new rest.now)) }
{
    let Some(((caller, short), rest)) = take_short_move::<T>(text) else {
        return take_any(made, text);
    };
    let Some(rest) = take_line_end(rest) else {
        return Ok(None);
    };
    made.take_short(caller, short)?;
    Ok(Some(rest))
}

/// What the moves that the text spells make, otherwise the text's first fault; NoMemory may come instead.
pub fn read_moves_into<T: TakesMoves + Drop>(alloc: Global, text: &[u8]) -> Result<T, TextFault>
    ensures ok { IfOk result (λ made. (n : ℕ) × (moves : List AnyMove) × IsMoveList text.now n moves × T.stands n moves made) }
    ensures fault { IfErr result (λ e. IsListFault text.now e) }
    ensures only { (n : ℕ) (moves : List AnyMove) → IsMoveList text.now n moves
        → MatchResult result (λ made. T.stands n moves made) (λ e. e ≡ TextFault.NoMemory) }
{
    if text.is_empty() {
        return Err(TextFault::at(1, TextKind::Early));
    }
    let Some((behaviours, mut rest)) = take_first_line(text) else {
        return Err(TextFault::at(1, TextKind::FirstLine));
    };
    let mut made = T::begin(alloc, behaviours)?;
    let mut line = 2;
    while !rest.is_empty() {
        let Some(behind) = take_next(&mut made, rest)? else {
            return Err(TextFault::at(line, TextKind::Move));
        };
        line += 1;
        rest = behind;
    }
    Ok(made)
}

/// The list of moves that the text spells, otherwise its first fault; NoMemory may come instead.
pub fn read_moves(alloc: Global, text: &[u8]) -> Result<MoveList, TextFault>
    ensures ok { IfOk result (λ l. IsMoveList text.now l.behaviours l.moves) }
    ensures fault { IfErr result (λ e. IsListFault text.now e) }
    ensures only { (n : ℕ) (moves : List AnyMove) → IsMoveList text.now n moves
        → MatchResult result (λ l. (l.behaviours ≡ n) × (l.moves ≡ moves)) (λ e. e ≡ TextFault.NoMemory) }
{
    read_moves_into(alloc, text)
}

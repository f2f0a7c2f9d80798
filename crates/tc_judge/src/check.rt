//! The subcommand `check`.
ghost use Rattle.std.specs.Prelude.{◌≡◌, All, List, ℕ, if◌then◌else◌, is_some};
ghost use Rattle.tc_judge.specs.{Check.IsChecked, Check.IsLegalBlock, Check.IsMadeOfBlocks, Check.IsMadeOfInput, Check.IsSilent, Check.history_limit, Inside.AreJudgedIn, Inside.first_illegal as spec_first, Check.is_chosen};

use crate::judged::{Judged, first_illegal, judge_input, judge_text};
use crate::kept::{Keeps, Nothing};
use crate::lines::{name_blocks, printed_lines};
use std::alloc::Global;
use std::io::Read;
use tc_answer::{Answer, REFUSED, RunFault};
use tc_command::Choice;

/// The status if all blocks are legal, and if one is not.
pub(crate) fn checked_status<K: Drop>(blocks: &[Judged<K>]) -> u8
    ensures { result ≡ (if is_some (spec_first blocks.now) then 3 else 0) }
{
    if first_illegal(blocks).is_some() {
        REFUSED
    } else {
        0
    }
}

// What `check` makes of the blocks of a text.
fn checked<K: Keeps + Drop>(
    alloc: Global,
    choice: &Choice,
    blocks: &[Judged<K>],
) -> Result<Answer, RunFault>
    ensures { (text : List ℕ) → AreJudgedIn K.keeps choice.now.last text blocks.now
        → IsMadeOfBlocks (All IsLegalBlock) choice.now text (IsSilent (IsChecked choice.now.last (is_chosen choice.now) text)) result }
{
    if !name_blocks(choice, blocks) {
        return Err(RunFault::Only);
    }
    let out = printed_lines(alloc, blocks, choice.only.as_slice(), choice.failed)?;
    Ok(Answer::silent(alloc, out, checked_status(blocks)))
}

/// What `check` makes of the blocks of a text that count: which of the chosen are legal, up to the first of all that is not,
/// and the status 0 if all are, otherwise 3. If all are, each pattern has to match the name of one.
pub fn check_text(alloc: Global, choice: &Choice, text: &[u8]) -> Result<Answer, RunFault>
    ensures { IsMadeOfBlocks (All IsLegalBlock) choice.now text.now
        (IsSilent (IsChecked choice.now.last (is_chosen choice.now) text.now)) result }
{
    let blocks = judge_text::<Nothing>(alloc, choice.last, text)?;
    checked(alloc, choice, blocks.as_slice())
}

/// The same of an input, of which only a part is in memory at a time.
pub fn check_input<R: Read>(
    alloc: Global,
    choice: &Choice,
    reader: &mut R,
) -> Result<Answer, RunFault>
    ensures { IsMadeOfInput (history_limit choice.now.long) (R.remaining reader.old)
        (λ text made. IsMadeOfBlocks (All IsLegalBlock) choice.now text
        (IsSilent (IsChecked choice.now.last (is_chosen choice.now) text)) made) result }
{
    let blocks = judge_input::<R, Nothing>(alloc, choice, reader)?;
    checked(alloc, choice, blocks.as_slice())
}

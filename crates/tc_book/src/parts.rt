//! The logs of a case by the numbers of their runs.
ghost use Rattle.std.specs.Prelude.{◌≡◌, ◌<◌, ℕ, [], All, IfOk, length, map, slice_index_or};
ghost use Rattle.tc_rules.specs.Prelude.{log_of};
ghost use Rattle.tc_book.specs.Inside.{run_log};

use crate::left::Left;
use std::alloc::Global;
use tc_entry::{Entry, Sequence};
use tc_verdict::NoMemory;

// That many empty parts.
#[tactic(auto, using(crate::proofs::Lemmas::PartOf::none_more))]
fn no_parts(alloc: Global, count: u16) -> Result<Vec<Sequence<Entry>>, NoMemory>
    ensures len { IfOk result (λ v. length v.items ≡ count) }
    ensures none { IfOk result (λ v. (b : ℕ) → slice_index_or v.items b [] ≡ []) }
{
    let mut parts = Vec::with_capacity(alloc, usize::from(count))?;
    for _ in 0..count {
        parts.push(Sequence::new(Vec::new(alloc)))?;
    }
    Ok(parts)
}

/// The log of each of that many runs, at the place of its number. No entry is copied.
pub(crate) fn logs_by_run(
    alloc: Global,
    mut lefts: Vec<Left>,
    behaviours: u16,
) -> Result<Vec<Sequence<Entry>>, NoMemory>
    requires within { All (λ l. l.run.0 < behaviours) lefts.items }
    ensures len { IfOk result (λ v. length v.items ≡ behaviours) }
    ensures each { IfOk result (λ v. (b : ℕ) → b < behaviours → slice_index_or v.items b [] ≡ log_of (map run_log lefts.items) b) }
{
    let mut parts = no_parts(alloc, behaviours)?;
    while let Some(left) = lefts.pop() {
        let (run, log) = left.into_log();
        parts[usize::from(run.0)] = log;
    }
    Ok(parts)
}

/// What is left of each part at the beginning: all of it.
pub(crate) fn rests_of(alloc: Global, parts: &[Sequence<Entry>]) -> Result<Vec<&[Entry]>, NoMemory>
    ensures len { IfOk result (λ v. length v.items ≡ length parts.now) }
    ensures each { IfOk result (λ v. (b : ℕ) (d : _) → b < length parts.now → (slice_index_or v.items b d).now ≡ slice_index_or parts.now b []) }
{
    let mut rests = Vec::with_capacity(alloc, parts.len())?;
    for part in parts {
        rests.push(part.as_slice())?;
    }
    Ok(rests)
}

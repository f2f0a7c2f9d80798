//! What is kept of one run.
ghost use Rattle.std.specs.Prelude.{◌≡◌, ◌<◌, ℕ, length, slice_index_or, IfOk, []};
ghost use Rattle.tc_rules.specs.Inside.Kept.{run_of};

use crate::awaited::Awaited;
use std::alloc::{AllocError, Global};
use tc_entry::Comp;

/// What is known of a run.
#[derive(Clone, Copy, Debug)]
pub(crate) struct RunState {
    pub comp: Option<Comp>,
    pub waiting: Option<Awaited>,
}

/// What is known of n runs at the opening of a case.
pub(crate) fn opening_runs(alloc: Global, n: u16) -> Result<Vec<RunState>, AllocError>
    ensures as_many { IfOk result (λ runs. length runs.items ≡ n) }
    ensures each { IfOk result (λ runs. (b : ℕ) (d : RunState) → b < n → slice_index_or runs.items b d ≡ run_of [] b) }
{
    let mut runs = Vec::with_capacity(alloc, usize::from(n))?;
    for b in 0..n {
        let comp = if b == 0 { Some(Comp(0)) } else { None };
        let waiting = None;
        runs.push(RunState { comp, waiting })?;
    }
    Ok(runs)
}

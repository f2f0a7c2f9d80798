//! The local verdicts of all components.
ghost use Rattle.std.specs.Prelude.{◌≡◌, ◌<◌, IfOk, List, map};
ghost use Rattle.tc_entry.specs.declared.entry.Entry.{Entry};
ghost use Rattle.tc_rules.specs.{Faults.components, History.comps, Standing.StandsFor};
ghost use Rattle.tc_rules.specs.Local as verdicts;

use crate::state::CaseState;
use std::alloc::Global;
use tc_entry::Comp;
use tc_verdict::{NoMemory, Verdict};

/// The local verdict of each component of a case of which this state is kept.
pub fn locals_of(alloc: Global, state: &CaseState) -> Result<Vec<Verdict>, NoMemory>
    ensures { (past : List Entry) → StandsFor state.now past → IfOk result (λ v. v.items ≡ map (verdicts.local past) (comps past)) }
{
    let mut locals = Vec::new(alloc);
    for comp in 0..state.components() {
        locals.push(state.local(Comp(comp)).unwrap_or(Verdict::None))?;
    }
    Ok(locals)
}

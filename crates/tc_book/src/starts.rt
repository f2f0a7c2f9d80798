//! What each run was started with.
ghost use Rattle.std.specs.Prelude.{◌≡◌, ℕ, IfOk, None, length};
ghost use Rattle.tc_rules.specs.Prelude.{first_some};
ghost use Rattle.tc_book.specs.{Inside.StartsBelow, Inside.comp_by, Inside.start_at, OpenCase.started_with};

use std::alloc::Global;
use tc_entry::{Args, Comp, Op, Reply};
use tc_verdict::{NoMemory, Run};

/// A list of that many runs, none of them started.
#[tactic(auto, using(crate::proofs::Lemmas::Starting::none_more))]
pub(crate) fn no_starts(alloc: Global, count: u16) -> Result<Vec<Option<(Comp, Args)>>, NoMemory>
    ensures len { IfOk result (λ v. length v.items ≡ count) }
    ensures none { IfOk result (λ v. (b : ℕ) → start_at v.items b ≡ None) }
{
    let mut starts = Vec::with_capacity(alloc, usize::from(count))?;
    for _ in 0..count {
        starts.push(None)?;
    }
    Ok(starts)
}

/// The component and the arguments of a run's start.
pub(crate) fn start_of(starts: &[Option<(Comp, Args)>], run: Run) -> Option<(Comp, Args)>
    ensures { result ≡ start_at starts.now run.0 }
{
    match starts.get(usize::from(run.0)) {
        Some(Some((comp, args))) => Some((*comp, args.copy())),
        _ => None,
    }
}

/// The component of a run.
pub(crate) fn comp_of(starts: &[Option<(Comp, Args)>], run: Run) -> Option<Comp>
    ensures { result ≡ comp_by run.0 (start_at starts.now run.0) }
{
    if run.0 == 0 {
        return Some(Comp(0));
    }
    start_of(starts, run).map(|start| start.0)
}

/// Notes the run that an entry starts, unless it was started before.
#[tactic(auto, using(crate::proofs::Lemmas::Starting::note_rules))]
pub(crate) fn note_start(starts: &mut Vec<Option<(Comp, Args)>>, op: &Op, reply: Reply)
    requires { StartsBelow op.now reply (length starts.old.items) }
    ensures len { length starts.new.items ≡ length starts.old.items }
    ensures noted { (b : ℕ) → start_at starts.new.items b ≡ first_some (start_at starts.old.items b) (started_with op.now reply b) }
{
    if let (Op::Start { comp, run, args }, Reply::Ok) = (op, reply) {
        let i = usize::from(run.0);
        if starts[i].is_none() {
            starts[i] = Some((*comp, args.copy()));
        }
    }
}

//! Jobs that run scripts.
ghost use Rattle.std.specs.Prelude.{◌≡◌, IfOk, map};
ghost use Rattle.tc_answer.specs.Inside.{case_parts};

use std::alloc::Global;
use std::sync::Wait;
use tc_exec::Case;
use tc_script::ScriptJob;
use tc_step::Script;
use tc_verdict::NoMemory;

// The jobs that run these scripts.
fn jobs_of<R: Wait + Copy + Send + 'static>(
    rt: &R,
    alloc: Global,
    scripts: Vec<Script>,
) -> Result<Vec<ScriptJob<R>>, NoMemory>
    ensures { IfOk result (λ jobs. jobs.items ≡ scripts.items) }
{
    let mut jobs = Vec::new(alloc);
    for script in scripts {
        jobs.push(ScriptJob::new(*rt, alloc, script))?;
    }
    Ok(jobs)
}

/// The same test cases, with jobs that run their scripts.
pub fn with_jobs<R: Wait + Copy + Send + 'static>(
    rt: &R,
    alloc: Global,
    cases: Vec<Case<Script>>,
) -> Result<Vec<Case<ScriptJob<R>>>, NoMemory>
    ensures { IfOk result (λ ready. map case_parts ready.items ≡ map case_parts cases.items) }
{
    let mut ready = Vec::new(alloc);
    for case in cases {
        let Case { name, names, jobs } = case;
        let jobs = jobs_of(rt, alloc, jobs)?;
        ready.push(Case { name, names, jobs })?;
    }
    Ok(ready)
}

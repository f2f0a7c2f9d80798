//! The run of a script.
ghost use Rattle.std.specs.Prelude.{◌≡◌, ◌≢◌, length};
ghost use Rattle.tc_step.specs.Prelude.{ScriptView};
ghost use Rattle.tc_exec.specs.declared.job.Ending.{Ending};
ghost use Rattle.tc_script.specs.{Calls.HasRun, Inside.ending_of};

use crate::call::call;
use std::alloc::Global;
use std::sync::Wait;
use tc_book::{Halt, Pass};
use tc_exec::Back;
use tc_step::Script;
use tc_verdict::NoMemory;

/// What a run of a test case does with its pass, by a script.
pub trait Behaviour {
    ghost script: { Self → ScriptView };

    /// Makes the call of each step in order, and hands back the pass. It comes back Returned after the last step, and
    /// once the pass has ended. A pass ends by a call that was replied Ended or by a dynamic error, that stopped or
    /// killed the run's own component or the main one, or that stopped the test case. It comes back Starved if memory
    /// ran out.
    ///
    /// If the pass has another number of arguments than the script has parameters, it makes no call and comes back
    /// Returned.
    fn run<R: Wait>(self, rt: &R, alloc: Global, pass: Pass) -> Back
        ensures other_count { length pass.args ≢ (script self).parameters → (result.pass ≡ pass) × (result.ending ≡ Ending.Returned) }
        ensures calls { length pass.args ≡ (script self).parameters → HasRun (script self).steps pass result.pass result.ending };
}

/// Makes the calls of the steps in order, until the pass has ended.
fn make_calls<R: Wait>(
    rt: &R,
    alloc: Global,
    script: &Script,
    pass: &mut Pass,
) -> Result<(), NoMemory>
    requires { length pass.old.args ≡ script.now.parameters }
    ensures { HasRun script.now.steps pass.old pass.new (ending_of result) }
{
    if pass.is_ended() {
        return Ok(());
    }
    if script.steps().is_empty() {
        return Ok(());
    }
    let mut bound = Vec::new(alloc);
    if bound.extend_from_slice(pass.args()).is_err() {
        return Err(NoMemory);
    }
    for step in script.steps() {
        if pass.is_ended() {
            break;
        }
        call(rt, pass, &mut bound, step)?;
    }
    Ok(())
}

impl Behaviour for Script {
    ghost script = { λ s. s };

    fn run<R: Wait>(self, rt: &R, alloc: Global, pass: Pass) -> Back {
        let mut pass = pass;
        if pass.args().len() != self.parameters() {
            return Back::after(pass, Ok(()));
        }
        pass.make_room(self.steps().len());
        let made = make_calls(rt, alloc, &self, &mut pass);
        Back::after(pass, made.map_err(|_| Halt::NoMemory))
    }
}

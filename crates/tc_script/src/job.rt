//! A script as what a run calls.
ghost use Rattle.std.specs.Prelude.{◌≡◌};
ghost use Rattle.tc_script.specs.Calls.{Acts};

use crate::behaviour::Behaviour;
use std::alloc::Global;
use std::marker::Model;
use std::sync::Wait;
use tc_book::Pass;
use tc_exec::{Back, Callable};
use tc_step::Script;

/// The script of a run, with what it needs to be run. Contracts see the script.
#[derive(Drop)]
pub struct ScriptJob<R: Wait + Copy + Send + 'static> {
    rt: R,
    alloc: Global,
    script: Script,
}

impl<R: Wait + Copy + Send + 'static> Model for ScriptJob<R> {
    ghost use Rattle.tc_step.specs.Prelude.{ScriptView};

    ghost Value = { ScriptView };

    ghost view = { λ j. j.script };
}

impl<R: Wait + Copy + Send + 'static> ScriptJob<R> {
    /// The job that runs this script. It takes no memory.
    pub fn new(rt: R, alloc: Global, script: Script) -> ScriptJob<R>
        ensures { result ≡ script }
    {
        ScriptJob { rt, alloc, script }
    }
}

impl<R: Wait + Copy + Send + 'static> Callable for ScriptJob<R> {
    ghost outcome = { Acts };

    /// Runs the script.
    fn call(self, pass: Pass) -> Back {
        let ScriptJob { rt, alloc, script } = self;
        script.run(&rt, alloc, pass)
    }
}

//! The behaviour of a run, as a job that is called once.
ghost use Rattle.std.specs.Prelude.{◌≡◌, ◌↔◌};
ghost use Rattle.tc_book.specs.Prelude.{PassState};
ghost use Rattle.tc_exec.specs.Ending.{ending_after};

use crate::callable::Callable;
use tc_book::{Halt, Pass};

/// Why a behaviour came back.
#[derive(Clone, Copy, PartialEq, Eq, Debug)]
pub enum Ending {
    /// It made all its calls, or a call was replied Ended.
    Returned,
    /// It ran out of memory.
    Starved,
}

/// What a behaviour hands back.
#[derive(Drop)]
pub struct Back {
    /// The pass that it was given.
    pub pass: Pass,
    /// Why it came back.
    pub ending: Ending,
}

impl Back {
    /// What a behaviour hands back after its calls: `made` says that all were made, or how the first was answered that was
    /// not answered by its value.
    pub fn after(pass: Pass, made: Result<(), Halt>) -> Back
        ensures pass { result.pass ≡ pass }
        ensures ending { result.ending ≡ ending_after made }
    {
        let ending = match made {
            Err(Halt::NoMemory) => Ending::Starved,
            Ok(()) | Err(Halt::Ended) | Err(Halt::Fault(_)) => Ending::Returned,
        };
        Back { pass, ending }
    }
}

/// A behaviour, which may be called on every pass.
#[derive(Drop)]
pub struct Job {
    run: Box<dyn FnOnce(Pass) -> Back + Send>,
    ghost ready: { IsAlwaysCallable run },
}

impl Job {
    /// The job of this behaviour. It takes no memory.
    pub fn new(run: Box<dyn FnOnce(Pass) -> Back + Send>) -> Job
        requires { IsAlwaysCallable run }
        ensures outcome { (p : PassState) (b : Back) → ⟦<Job as Callable>⟧.outcome result p b ↔ post run p b }
    {
        Job { run }
    }
}

type Call = Box<dyn FnOnce(Pass) -> Back + Send>;

impl Callable for Job {
    ghost outcome = { λ j p b. Call.post j.run p b };

    fn call(self, pass: Pass) -> Back {
        let Job { run } = self;
        run(pass)
    }
}

//! The behaviours of each test case.
ghost use Rattle.std.specs.Prelude.{⊤};

use crate::window::{CLOSED, Stand, Window};
use std::alloc::AllocError;
use std::sync::{Arc, Wait};
use tc_book::{Halt, Pass};
use tc_entry::{Args, Comp, Name, Run, Target, UserVerdict};
use tc_exec::{Back, Callable};

/// What a behaviour does.
#[derive(Clone, Copy)]
pub(crate) enum Part {
    /// Starts the two others, and waits for them.
    Lead,
    /// Closes the window.
    Motor,
    /// Judges whether the window is in this state, when the motor is done.
    Judge { wanted: Stand },
    /// The same, but looks at once: what is seen depends on which run is first.
    HastyJudge { wanted: Stand },
}

/// A behaviour with what it shares with the others of its test case.
#[derive(Drop)]
pub(crate) struct Behaviour<R: Wait + Copy + Send + 'static> {
    rt: R,
    part: Part,
    window: Arc<Window>,
}

impl<R: Wait + Copy + Send + 'static> Behaviour<R> {
    /// The behaviour that does this part on this window.
    pub(crate) fn new(rt: R, part: Part, window: &Arc<Window>) -> Result<Behaviour<R>, AllocError> {
        let window = Arc::try_clone(window)?;
        Ok(Behaviour { rt, part, window })
    }
}

impl<R: Wait + Copy + Send + 'static> Callable for Behaviour<R> {
    ghost outcome = { λ _ _ _. ⊤ };

    fn call(self, pass: Pass) -> Back {
        let mut pass = pass;
        let made = match self.part {
            Part::Lead => lead(&self.rt, &mut pass),
            Part::Motor => {
                close(&self.window);
                Ok(())
            }
            Part::Judge { wanted } => judge(&self.rt, &mut pass, &self.window, wanted),
            Part::HastyJudge { wanted } => judge_now(&mut pass, &self.window, wanted),
        };
        Back::after(pass, made)
    }
}

/// Creates a component, whose name the histories show.
fn create<R: Wait>(rt: &R, pass: &mut Pass, name: &str) -> Result<Comp, Halt> {
    match Name::read(name) {
        Some(name) => pass.create_named(rt, false, name),
        None => pass.create(rt, false),
    }
}

/// Creates two components, starts the motor on one and the judge on the other, and waits for both.
fn lead<R: Wait>(rt: &R, pass: &mut Pass) -> Result<(), Halt> {
    let motor = create(rt, pass, "motor")?;
    let judge = create(rt, pass, "judge")?;
    let mut args = Args::new();
    args.push(motor);
    pass.start(rt, judge, Run(2), &args)?;
    pass.start(rt, motor, Run(1), &Args::new())?;
    pass.wait_done(rt, Target::All)
}

/// Moves the window until it stops.
pub(crate) fn close(window: &Window) {
    for _ in 0..CLOSED {
        if !window.step() {
            break;
        }
    }
}

/// Waits until the motor, which is its argument, is done, and judges then.
fn judge<R: Wait>(rt: &R, pass: &mut Pass, window: &Window, wanted: Stand) -> Result<(), Halt> {
    if let [motor] = *pass.args() {
        pass.wait_done(rt, Target::One(motor))?;
    }
    judge_now(pass, window, wanted)
}

/// Sets pass if the window is where it should and has been as far as it should, otherwise fail.
fn judge_now(pass: &mut Pass, window: &Window, wanted: Stand) -> Result<(), Halt> {
    pass.set_verdict(if window.stand() == wanted {
        UserVerdict::Pass
    } else {
        UserVerdict::Fail
    })
}

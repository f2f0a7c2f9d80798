//! Random scripts.
ghost use Rattle.std.specs.Prelude.{◌<◌};

use std::alloc::Global;
use std::process::Abort;
use std::test::Fail;
use tc_step::{GroupPlace, Place, Places, Script, Status, Step, TargetPlace};
use tc_verdict::{Run, UserVerdict};

/// Numbers that a seed determines.
#[derive(Drop)]
struct Random {
    state: u64,
}

impl Random {
    // The next number below a limit.
    fn below(&mut self, limit: u32) -> u32
        ensures { 0 < limit → result < limit }
    {
        self.state = self
            .state
            .wrapping_mul(6_364_136_223_846_793_005)
            .wrapping_add(1_442_695_040_888_963_407);
        ((self.state >> 33) as u32) % limit.max(1)
    }

    // A component, of which one is bound.
    fn place(&mut self) -> Place {
        match self.below(8) {
            0 => Place::Main,
            1 | 2 => Place::Own,
            _ => Place::Bound(0),
        }
    }

    fn target(&mut self) -> TargetPlace {
        match self.below(6) {
            0 => TargetPlace::Any,
            1 | 2 => TargetPlace::All,
            _ => TargetPlace::One(self.place()),
        }
    }

    fn group(&mut self) -> GroupPlace {
        match self.below(6) {
            0 => GroupPlace::All,
            _ => GroupPlace::One(self.place()),
        }
    }

    fn verdict(&mut self) -> UserVerdict {
        match self.below(3) {
            0 => UserVerdict::Pass,
            1 => UserVerdict::Inconc,
            _ => UserVerdict::Fail,
        }
    }

    fn start(&mut self) -> Step {
        let mut args = Places::new();
        // There is room for one.
        let _ = args.push(self.place());
        Step::Start {
            on: self.place(),
            run: Run(1 + self.below(2) as u16),
            args,
        }
    }

    fn step(&mut self) -> Step {
        match self.below(20) {
            0 | 1 => Step::Create {
                alive: self.below(2) == 0,
                name: None,
            },
            2 | 3 | 4 => self.start(),
            5 | 6 => Step::Stop(self.group()),
            7 => Step::Kill(self.group()),
            8 => Step::Ask(Status::Running, self.target()),
            9 => Step::Ask(Status::Done, self.target()),
            10 | 11 | 12 | 13 | 14 => Step::Wait {
                killed: self.below(3) == 0,
                target: self.target(),
            },
            15 | 16 | 17 => Step::SetVerdict(self.verdict()),
            18 => Step::GetVerdict,
            _ => {
                if self.below(4) == 0 {
                    Step::StopCase
                } else {
                    Step::GetVerdict
                }
            }
        }
    }
}

// A script with one component bound: the first that the main behaviour makes, or the argument.
fn script<R: Abort>(
    rt: &R,
    alloc: Global,
    random: &mut Random,
    is_main: bool,
    longest: u32,
) -> Result<Script, Fail> {
    let mut steps = Vec::new(alloc);
    let parameters = if is_main { 0 } else { 1 };
    if is_main {
        steps.push(Step::Create {
            alive: random.below(2) == 0,
            name: None,
        })?;
        steps.push(random.start())?;
    }
    for _ in 0..random.below(longest) {
        steps.push(random.step())?;
    }
    assert!(rt; Script::is_script(parameters, steps.as_slice()));
    Ok(Script::new(parameters, steps))
}

/// The three scripts of a case, each with fewer steps than that after those that make and start a component.
pub fn random_scripts<R: Abort>(
    rt: &R,
    alloc: Global,
    seed: u64,
    longest: u32,
) -> Result<Vec<Script>, Fail> {
    let mut random = Random { state: seed };
    let mut scripts = Vec::new(alloc);
    for run in 0..3u16 {
        scripts.push(script(rt, alloc, &mut random, run == 0, longest)?)?;
    }
    Ok(scripts)
}

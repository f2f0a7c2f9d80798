//! The test cases.
ghost use Rattle.std.specs.Prelude.{All, IfOk};
ghost use Rattle.tc_campaign.specs.Prelude.{HasNames};
ghost use Rattle.tc_entry.specs.Prelude.{IsName};

use crate::behaviour::{Behaviour, Part};
use crate::window::{CLOSED, OPEN, Stand, Window};
use std::alloc::Global;
use std::sync::{Arc, Wait};
use tc_campaign::Case;
use tc_entry::{Name, NoMemory};

/// The step at which something blocks the way of a window.
const OBSTACLE: u64 = 5;

/// What is wanted of a window on a free way.
pub(crate) const CLOSES: Stand = Stand {
    position: CLOSED,
    farthest: CLOSED,
};

/// What is wanted of a window that meets something: it has come this far, and is open again.
pub(crate) const OPENS_AGAIN: Stand = Stand {
    position: OPEN,
    farthest: OBSTACLE,
};

/// The name of a text that is one.
fn name(text: &str) -> Name
    requires { IsName text.now }
{
    match Name::read(text) {
        Some(name) => name,
        None => unreachable!(),
    }
}

/// A test case of a motor and a judge on this window.
#[tactic(auto, unfolding(tc_entry::specs::Prelude::is_name))]
pub(crate) fn case<R: Wait + Copy + Send + 'static>(
    rt: R,
    alloc: Global,
    text: &str,
    judge: Part,
    window: Window,
) -> Result<Case<Behaviour<R>>, NoMemory>
    requires { IsName text.now }
    ensures { IfOk result HasNames }
{
    let window = Arc::new(alloc, window)?;
    let names = vec![in alloc; name("lead"), name("motor"), name("judge")]?;
    let mut jobs = Vec::new(alloc);
    jobs.push(Behaviour::new(rt, Part::Lead, &window)?)?;
    jobs.push(Behaviour::new(rt, Part::Motor, &window)?)?;
    jobs.push(Behaviour::new(rt, judge, &window)?)?;
    Ok(Case {
        name: name(text),
        names,
        jobs,
    })
}

/// A sound window on a free way, one with something in its way, and one that is broken.
pub(crate) fn cases<R: Wait + Copy + Send + 'static>(
    rt: R,
    alloc: Global,
) -> Result<Vec<Case<Behaviour<R>>>, NoMemory>
    ensures { IfOk result (λ v. All HasNames v.items) }
{
    let free = Window::new(None, false);
    let blocked = Window::new(Some(OBSTACLE), false);
    let broken = Window::new(Some(OBSTACLE), true);
    let opens_again = Part::Judge {
        wanted: OPENS_AGAIN,
    };
    let cases = vec![in alloc;
        case(rt, alloc, "closes", Part::Judge { wanted: CLOSES }, free)?,
        case(rt, alloc, "opens_again", opens_again, blocked)?,
        case(rt, alloc, "pinches", opens_again, broken)?,
    ]?;
    Ok(cases)
}

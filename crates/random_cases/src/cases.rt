//! Cases, one after the other.
ghost use Rattle.std.specs.Prelude.{◌≤◌};
ghost use Rattle.tc_entry.specs.declared.limits.TheConstants.{BEHAVIOURS};

use crate::case::run_case;
use crate::judge::complaint;
use crate::met::Met;
use crate::random::Random;
use crate::task::Task;
use std::alloc::Global;
use std::sync::Wait;
use std::thread::Threads;
use tc_entry::BEHAVIOURS;

/// The case that is not as it should be, and why not.
#[derive(Drop)]
pub(crate) struct Refusal {
    pub(crate) case: u32,
    pub(crate) why: &'static str,
}

/// How many behaviours a case of many has.
const MANY: u16 = 64;

/// How many behaviours a case has: of 40 cases 10 have many, and the others 2 to 40; one of 200 has as many as a case may
/// have.
fn behaviours_of(case: u32) -> u16
    ensures some { 1 ≤ result }
    ensures few { result ≤ BEHAVIOURS }
{
    let place = case % 40;
    match (case % 200, place % 4) {
        (0, _) => BEHAVIOURS as u16,
        (_, 0) => MANY,
        _ => 1 + place as u16,
    }
}

/// What the cases of a task met; the first that is not as it should be ends them. The choices of a case come from the
/// seed and the number of the case.
pub(crate) fn run_cases<R: Threads + Wait + Copy + Send + 'static>(
    rt: &R,
    alloc: Global,
    task: Task,
) -> Result<Met, Refusal> {
    let mut met = Met::default();
    for case in 0..task.cases {
        let mut random = Random::new(task.seed.wrapping_add(u64::from(case)));
        let behaviours = behaviours_of(case);
        let why = match run_case(rt, alloc, &mut random, behaviours) {
            Ok(closed) => {
                met.count_all(closed.history.as_slice());
                complaint(alloc, behaviours, &closed)
            }
            Err(fault) => Some(fault.text()),
        };
        if let Some(why) = why {
            return Err(Refusal { case, why });
        }
    }
    Ok(met)
}

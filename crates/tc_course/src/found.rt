//! What a search for the verdicts of a test case has found.
ghost use Rattle.std.specs.Prelude.{◌≡◌, ◌≤◌};
ghost use Rattle.tc_rules.specs.Prelude.{level_of};
ghost use Rattle.tc_course.specs.Witnesses.{is_found as is_found_among};

use crate::witness::Witness;
use tc_entry::{Name, Sequence};
use tc_verdict::Verdict;

/// A limit of a search.
#[derive(Clone, Copy, PartialEq, Eq, Debug)]
pub enum Limit {
    /// On the states that it looks at.
    States,
    /// On the memory in which they are kept.
    Memory,
}

/// How a search ended.
#[derive(Clone, Copy, PartialEq, Eq, Debug)]
pub enum Ending {
    /// No verdict is missed: each complete course of the test case ends with one that was found.
    Complete,
    /// The search met this limit.
    Undecided(Limit),
}

/// What a search has found.
#[derive(Drop)]
pub struct Explored {
    /// A witness of each overall verdict that was found, the best verdict first.
    pub found: Sequence<Witness>,
    /// For each run how many calls it carries out at most in the courses that were looked at: its steps, and after them
    /// the end of its behaviour.
    pub reached: Sequence<usize>,
    /// How many states the search looked at.
    pub states: usize,
    pub ending: Ending,
}

/// What a search for local verdicts has found.
#[derive(Drop)]
pub struct Locals {
    /// Five places for each component, one for each verdict from best to worst: whether it is found.
    pub found: Sequence<bool>,
    /// The name of each component, if it has one, and the same in each course that showed a verdict first.
    pub names: Sequence<Option<Name>>,
    /// How many states the search looked at.
    pub states: usize,
    pub ending: Ending,
}

/// The place of a verdict in the order from best to worst.
pub fn level(verdict: Verdict) -> u64
    ensures is { result ≡ level_of verdict }
    ensures few { result ≤ 4 }
{
    match verdict {
        Verdict::None => 0,
        Verdict::Pass => 1,
        Verdict::Inconc => 2,
        Verdict::Fail => 3,
        Verdict::Error => 4,
    }
}

/// Whether a verdict is that of some witness.
pub fn is_found(found: &[Witness], verdict: Verdict) -> bool
    ensures { result ≡ is_found_among found.now verdict }
{
    let wanted = level(verdict);
    found.iter().any(|witness| level(witness.verdict) == wanted)
}

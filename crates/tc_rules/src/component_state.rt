//! What is kept of one component.
ghost use Rattle.std.specs.Prelude.{◌≡◌, ◌↔◌, IsTrue};
ghost use Rattle.tc_rules.specs.Status as status;
ghost use Rattle.tc_rules.specs.Inside.States as tests;

use tc_entry::{Comp, Phase};
use tc_verdict::{Run, Verdict};

/// What is known of a component.
#[derive(Clone, Copy, Debug)]
pub(crate) struct ComponentState {
    pub phase: Phase,
    pub alive_type: bool,
    /// The last run on it.
    pub last: Option<Run>,
    pub excused: bool,
    pub local: Verdict,
}

/// Whether the states are the same.
pub(crate) fn are_same(one: ComponentState, other: ComponentState) -> bool
    ensures { IsTrue result ↔ (one ≡ other) }
{
    one.phase == other.phase
        && one.alive_type == other.alive_type
        && one.last == other.last
        && one.excused == other.excused
        && one.local == other.local
}

pub(crate) fn is_running(phase: Phase) -> bool
    ensures { result ≡ status.is_running phase }
{
    matches!(phase, Phase::Running(_))
}

pub(crate) fn is_killed(phase: Phase) -> bool
    ensures { result ≡ status.is_killed phase }
{
    matches!(phase, Phase::Killed)
}

pub(crate) fn is_done(phase: Phase) -> bool
    ensures { result ≡ status.is_done phase }
{
    matches!(phase, Phase::Stopped | Phase::Killed)
}

#[tactic(auto, unfolding(crate::specs::Inside::States::all_below))]
pub(crate) fn all_below(comps: &[Comp], count: usize) -> bool
    ensures { result ≡ tests.all_below comps.now count }
{
    comps.iter().all(|c| (c.0 as usize) < count)
}

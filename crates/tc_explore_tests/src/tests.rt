//! Test cases with one verdict and with several.
mod checks;
mod following;
mod locals;
mod play;
mod random;
mod runs;
mod schedules;

use crate::tests::checks::{holds, is};
use play::{All, all_schedules};
use std::alloc::Global;
use std::process::Abort;
use std::test::Fail;
use tc_entry::Entry;
use tc_explore::{Ending, Explored, Limit, Locals, Witness, explore, explore_locals};
use tc_rules::{CheckFault, replay_check};
use tc_step::{GroupPlace, Place, Places, Script, Step, TargetPlace};
use tc_verdict::{NoMemory, Run, UserVerdict, Verdict};

const P: Place = Place::Bound(0);

const Q: Place = Place::Bound(1);

const MANY: usize = 10_000;

/// That many calls a plain search makes.
const CALLS: usize = 200_000;

fn create(alive: bool) -> Step {
    Step::Create { alive, name: None }
}

fn start(on: Place, run: u16) -> Step {
    Step::Start {
        on,
        run: Run(run),
        args: Places::new(),
    }
}

fn wait(target: TargetPlace) -> Step {
    Step::Wait {
        killed: false,
        target,
    }
}

// A behaviour of that many parameters.
fn script_of<R: Abort>(rt: &R, parameters: usize, steps: Vec<Step>) -> Script {
    assert!(rt; Script::is_script(parameters, steps.as_slice()));
    Script::new(parameters, steps)
}

fn script<R: Abort>(rt: &R, steps: Vec<Step>) -> Script {
    script_of(rt, 0, steps)
}

// What a search of at most that many states finds.
fn search<R: Abort>(
    rt: &R,
    alloc: Global,
    scripts: &[Script],
    limit: usize,
) -> Result<Explored, NoMemory> {
    assert!(rt; scripts.len() <= 64);
    explore(alloc, scripts, limit)
}

// What all schedules give.
fn schedules_of<R: Abort>(
    rt: &R,
    alloc: Global,
    scripts: &[Script],
) -> Result<Option<All>, NoMemory> {
    assert!(rt; 1 <= scripts.len() && scripts.len() <= 64);
    all_schedules(alloc, scripts, CALLS)
}

// The verdict of a history by the component table.
fn replayed<R: Abort>(
    rt: &R,
    alloc: Global,
    behaviours: usize,
    history: &[Entry],
) -> Result<Verdict, CheckFault> {
    assert!(rt; 1 <= behaviours && behaviours <= 64);
    replay_check(alloc, behaviours as u16, history)
}

// The verdicts of the witnesses of a case of that many behaviours, each judged by the component table.
fn witnessed<R: Abort>(
    rt: &R,
    alloc: Global,
    behaviours: usize,
    witnesses: &[Witness],
) -> Result<Vec<Verdict>, Fail> {
    let mut verdicts = Vec::new(alloc);
    for witness in witnesses {
        let judged = replayed(rt, alloc, behaviours, witness.history.as_slice())?;
        is(rt, "the verdict of a witness", judged, witness.verdict);
        verdicts.push(witness.verdict)?;
    }
    Ok(verdicts)
}

// Whether two lists, of which none holds a verdict twice, hold the same ones.
fn are_same(one: &[Verdict], other: &[Verdict]) -> bool {
    one.len() == other.len() && one.iter().all(|verdict| other.contains(verdict))
}

// All schedules give these verdicts, and reach each run so far.
fn compare_with_schedules<R: Abort>(
    rt: &R,
    alloc: Global,
    scripts: &[Script],
    found: &[Verdict],
    reached: &[usize],
) -> Result<(), Fail> {
    let all = schedules_of(rt, alloc, scripts)?.ok_or("fewer calls")?;
    let are_found = are_same(found, all.verdicts.as_slice());
    holds(rt, "the verdicts of all schedules", are_found);
    is(
        rt,
        "how far runs are reached",
        reached,
        all.reached.as_slice(),
    );
    Ok(())
}

// A search that misses none finds these verdicts: those of all schedules, of each one witness, which has its verdict by the
// component table. Each run is reached as far as in all schedules.
fn finds<R: Abort>(
    rt: &R,
    alloc: Global,
    scripts: &[Script],
    wanted: &[Verdict],
) -> Result<(), Fail> {
    let explored = search(rt, alloc, scripts, MANY)?;
    is(rt, "the ending", explored.ending, Ending::Complete);
    let witnesses = explored.found.as_slice();
    let found = witnessed(rt, alloc, scripts.len(), witnesses)?;
    let found = found.as_slice();
    compare_with_schedules(rt, alloc, scripts, found, explored.reached.as_slice())?;
    assert!(rt; are_same(found, wanted), "{found:?} in place of {wanted:?}");
    Ok(())
}

// Adds a main behaviour that starts one on a component, with this step after it.
fn add_leading<R: Abort>(
    rt: &R,
    alloc: Global,
    scripts: &mut Vec<Script>,
    last: Step,
) -> Result<(), Fail> {
    let steps = vec![in alloc; create(false), start(P, 1), last]?;
    Ok(scripts.push(script(rt, steps))?)
}

// Adds a behaviour that sets this verdict.
fn add_setting<R: Abort>(
    rt: &R,
    alloc: Global,
    scripts: &mut Vec<Script>,
    verdict: UserVerdict,
) -> Result<(), Fail> {
    let steps = vec![in alloc; Step::GetVerdict, Step::SetVerdict(verdict)]?;
    Ok(scripts.push(script(rt, steps))?)
}

// The main behaviour that starts one on a component, with this step after it, and the one that sets this verdict.
fn two<R: Abort>(
    rt: &R,
    alloc: Global,
    last: Step,
    verdict: UserVerdict,
) -> Result<Vec<Script>, Fail> {
    let mut scripts = Vec::new(alloc);
    add_leading(rt, alloc, &mut scripts, last)?;
    add_setting(rt, alloc, &mut scripts, verdict)?;
    Ok(scripts)
}

// The two behaviours of which the main one does not wait for the other, which sets fail.
fn race<R: Abort>(rt: &R, alloc: Global) -> Result<Vec<Script>, Fail> {
    two(rt, alloc, Step::GetVerdict, UserVerdict::Fail)
}

#[test]
fn all_steps_are_reached(rt: HostRuntime) -> Result<(), Fail> {
    let last = wait(TargetPlace::One(P));
    let scripts = two(&rt, rt.alloc(), last, UserVerdict::Pass)?;
    let explored = search(&rt, rt.alloc(), scripts.as_slice(), MANY)?;
    let reached = explored.reached.as_slice();
    is(&rt, "how far runs are reached", reached, [4, 3].as_slice());
    Ok(())
}

#[test]
fn who_does_not_wait_has_two(rt: HostRuntime) -> Result<(), Fail> {
    let scripts = race(&rt, rt.alloc())?;
    let wanted = [Verdict::None, Verdict::Fail];
    finds(&rt, rt.alloc(), scripts.as_slice(), wanted.as_slice())
}

#[test]
fn a_kill_comes_before_or_after_each_setting(rt: HostRuntime) -> Result<(), Fail> {
    let alloc = rt.alloc();
    let mut scripts = Vec::new(alloc);
    add_leading(&rt, alloc, &mut scripts, Step::Kill(GroupPlace::All))?;
    let steps = vec![in alloc;
        Step::SetVerdict(UserVerdict::Pass),
        Step::SetVerdict(UserVerdict::Inconc),
        Step::SetVerdict(UserVerdict::Pass),
        Step::SetVerdict(UserVerdict::Fail),
    ]?;
    scripts.push(script(&rt, steps))?;
    let wanted = [Verdict::None, Verdict::Pass, Verdict::Inconc, Verdict::Fail];
    finds(&rt, alloc, scripts.as_slice(), wanted.as_slice())
}

#[test]
fn who_waits_in_vain_is_stuck(rt: HostRuntime) -> Result<(), Fail> {
    let alloc = rt.alloc();
    let steps = vec![in alloc; create(true), wait(TargetPlace::One(P))]?;
    let scripts = vec![in alloc; script(&rt, steps)]?;
    finds(&rt, alloc, scripts.as_slice(), [Verdict::Error].as_slice())
}

#[test]
fn a_stop_of_the_case_is_an_error(rt: HostRuntime) -> Result<(), Fail> {
    let alloc = rt.alloc();
    let mut scripts = Vec::new(alloc);
    add_leading(&rt, alloc, &mut scripts, wait(TargetPlace::All))?;
    let steps = vec![in alloc; Step::SetVerdict(UserVerdict::Pass), Step::StopCase]?;
    scripts.push(script(&rt, steps))?;
    finds(&rt, alloc, scripts.as_slice(), [Verdict::Error].as_slice())
}

// Adds a main behaviour that starts the component again once another has ended.
fn add_restarting<R: Abort>(rt: &R, alloc: Global, scripts: &mut Vec<Script>) -> Result<(), Fail> {
    let steps = vec![in alloc;
        create(true),
        create(false),
        start(P, 1),
        start(Q, 2),
        wait(TargetPlace::One(Q)),
        start(P, 3),
        wait(TargetPlace::All),
    ]?;
    Ok(scripts.push(script(rt, steps))?)
}

// The component is started again once its first run has ended, or too early, which is an error.
#[test]
fn a_restart_comes_too_early_or_not(rt: HostRuntime) -> Result<(), Fail> {
    let alloc = rt.alloc();
    let mut scripts = Vec::new(alloc);
    add_restarting(&rt, alloc, &mut scripts)?;
    for verdict in [UserVerdict::None, UserVerdict::None, UserVerdict::Inconc] {
        add_setting(&rt, alloc, &mut scripts, verdict)?;
    }
    let wanted = [Verdict::Inconc, Verdict::Error];
    finds(&rt, alloc, scripts.as_slice(), wanted.as_slice())
}

// Adds a main behaviour that starts one on each of two components, and waits for them.
fn add_starting<R: Abort>(rt: &R, alloc: Global, scripts: &mut Vec<Script>) -> Result<(), Fail> {
    let steps = vec![in alloc;
        create(false),
        create(false),
        start(P, 1),
        start(Q, 2),
        wait(TargetPlace::All),
    ]?;
    Ok(scripts.push(script(rt, steps))?)
}

// Adds a behaviour that makes a component and starts this one on it.
fn add_making<R: Abort>(
    rt: &R,
    alloc: Global,
    scripts: &mut Vec<Script>,
    run: u16,
) -> Result<(), Fail> {
    let steps = vec![in alloc; create(false), start(P, run)]?;
    Ok(scripts.push(script(rt, steps))?)
}

// Adds a behaviour of no steps.
fn add_empty<R: Abort>(rt: &R, alloc: Global, scripts: &mut Vec<Script>) -> Result<(), Fail> {
    Ok(scripts.push(script(rt, Vec::new(alloc)))?)
}

// Two components make one each and start a behaviour on it: which of these is the third component differs, also of the
// behaviours that have ended.
#[test]
fn ended_behaviours_on_either_of_two_components(rt: HostRuntime) -> Result<(), Fail> {
    let alloc = rt.alloc();
    let mut scripts = Vec::new(alloc);
    add_starting(&rt, alloc, &mut scripts)?;
    add_making(&rt, alloc, &mut scripts, 3)?;
    add_making(&rt, alloc, &mut scripts, 4)?;
    add_empty(&rt, alloc, &mut scripts)?;
    add_empty(&rt, alloc, &mut scripts)?;
    finds(&rt, alloc, scripts.as_slice(), [Verdict::None].as_slice())
}

// A search within this limit ends so, and looks at that many states.
fn ends_within<R: Abort>(
    rt: &R,
    alloc: Global,
    scripts: &[Script],
    limit: usize,
    (ending, states): (Ending, Option<usize>),
) -> Result<(), Fail> {
    let explored = search(rt, alloc, scripts, limit)?;
    is(rt, "the ending", explored.ending, ending);
    if let Some(states) = states {
        is(rt, "the number of states", explored.states, states);
    }
    Ok(())
}

// Searches within these limits end so.
fn end_within<R: Abort>(
    rt: &R,
    alloc: Global,
    scripts: &[Script],
    rows: &[(usize, Ending, Option<usize>)],
) -> Result<(), Fail> {
    for (limit, ending, states) in rows {
        ends_within(rt, alloc, scripts, *limit, (*ending, *states))?;
    }
    Ok(())
}

#[test]
fn a_search_ends_at_its_limit(rt: HostRuntime) -> Result<(), Fail> {
    let scripts = race(&rt, rt.alloc())?;
    let rows = [
        (0, Ending::Undecided(Limit::States), Some(0)),
        (1, Ending::Undecided(Limit::States), Some(1)),
        (2, Ending::Undecided(Limit::States), Some(2)),
        (3, Ending::Complete, Some(3)),
    ];
    end_within(&rt, rt.alloc(), scripts.as_slice(), rows.as_slice())
}

// Without a state both verdicts are those of schedules that are played to their ends.
#[test]
fn verdicts_are_found_without_a_state(rt: HostRuntime) -> Result<(), Fail> {
    let scripts = race(&rt, rt.alloc())?;
    let explored = search(&rt, rt.alloc(), scripts.as_slice(), 0)?;
    let found = witnessed(&rt, rt.alloc(), 2, explored.found.as_slice())?;
    let wanted = [Verdict::None, Verdict::Fail];
    is(&rt, "the verdicts", found.as_slice(), wanted.as_slice());
    Ok(())
}

// A start of the second behaviour on the second component, with the first as its argument.
fn start_with_first<R: Abort>(rt: &R) -> Step {
    let mut args = Places::new();
    assert!(rt; args.push(P));
    Step::Start {
        on: Q,
        run: Run(2),
        args,
    }
}

// Adds a main behaviour that waits for a component, and then starts one that has it as its argument.
fn add_waiting<R: Abort>(rt: &R, alloc: Global, scripts: &mut Vec<Script>) -> Result<(), Fail> {
    let steps = vec![in alloc;
        create(false),
        start(P, 1),
        wait(TargetPlace::One(P)),
        create(false),
        start_with_first(rt),
        wait(TargetPlace::All),
    ]?;
    Ok(scripts.push(script(rt, steps))?)
}

// Adds a behaviour that stops and kills its argument, and waits for it.
fn add_late<R: Abort>(rt: &R, alloc: Global, scripts: &mut Vec<Script>) -> Result<(), Fail> {
    let late = vec![in alloc;
        Step::Stop(GroupPlace::One(P)),
        Step::Kill(GroupPlace::One(P)),
        wait(TargetPlace::One(P)),
    ]?;
    Ok(scripts.push(script_of(rt, 1, late))?)
}

// A stop of a component that is killed already changes nothing, nor does a wait for it: one state represents all such
// calls.
#[test]
fn late_calls_have_no_states(rt: HostRuntime) -> Result<(), Fail> {
    let alloc = rt.alloc();
    let mut scripts = Vec::new(alloc);
    add_waiting(&rt, alloc, &mut scripts)?;
    add_empty(&rt, alloc, &mut scripts)?;
    add_late(&rt, alloc, &mut scripts)?;
    let scripts = scripts.as_slice();
    finds(&rt, alloc, scripts, [Verdict::None].as_slice())?;
    ends_within(&rt, alloc, scripts, MANY, (Ending::Complete, Some(6)))
}

// Adds a main behaviour that starts that many others, each on an alive-type component of its own, and waits for all.
fn add_starting_all<R: Abort>(
    rt: &R,
    alloc: Global,
    scripts: &mut Vec<Script>,
    others: u16,
) -> Result<(), Fail> {
    let mut steps = Vec::new(alloc);
    for run in 1..=others {
        steps.push(create(true))?;
        steps.push(start(Place::Bound(run - 1), run))?;
    }
    steps.push(wait(TargetPlace::All))?;
    Ok(scripts.push(script(rt, steps))?)
}

// Nine behaviours can end in 362,880 orders, and few states are met: those after the same ends are one. The search is
// complete only if it knows each of these, also the last ones.
#[test]
fn a_state_that_is_met_again_is_known(rt: HostRuntime) -> Result<(), Fail> {
    let alloc = rt.alloc();
    let mut scripts = Vec::new(alloc);
    add_starting_all(&rt, alloc, &mut scripts, 9)?;
    for _ in 0..9 {
        add_empty(&rt, alloc, &mut scripts)?;
    }
    let explored = search(&rt, alloc, scripts.as_slice(), MANY)?;
    is(&rt, "the ending", explored.ending, Ending::Complete);
    holds(&rt, "1,000 states", explored.states > 1_000);
    Ok(())
}

#[test]
fn without_behaviours_nothing_is_decided(rt: HostRuntime) -> Result<(), Fail> {
    let explored = search(&rt, rt.alloc(), &[], MANY)?;
    is(
        &rt,
        "the ending",
        explored.ending,
        Ending::Undecided(Limit::States),
    );
    is(&rt, "the number of states", explored.states, 0);
    let found = explored.found.as_slice();
    holds(&rt, "no verdict is found", found.is_empty());
    Ok(())
}

// How many states a search looks at that comes to its end. It does so within that many, and not within one less.
fn completed<R: Abort>(rt: &R, alloc: Global, scripts: &[Script]) -> Result<usize, Fail> {
    let explored = search(rt, alloc, scripts, MANY)?;
    is(rt, "ending", explored.ending, Ending::Complete);
    let states = explored.states;
    ends_within(rt, alloc, scripts, states, (Ending::Complete, Some(states)))?;
    let below = search(rt, alloc, scripts, states.saturating_sub(1))?;
    holds(rt, "below", below.ending != Ending::Complete);
    Ok(states)
}

// A main behaviour that starts one on the first component and, with that as its argument, one on the second. The first sets
// fail, and the other stops it, or the first itself does.
fn add_stopped<R: Abort>(
    rt: &R,
    alloc: Global,
    scripts: &mut Vec<Script>,
    by_itself: bool,
) -> Result<(), Fail> {
    let steps = vec![in alloc;
        create(false),
        create(false),
        start(P, 1),
        start_with_first(rt),
        wait(TargetPlace::All),
    ]?;
    scripts.push(script(rt, steps))?;
    let stop = Step::Stop(GroupPlace::One(if by_itself { Place::Own } else { P }));
    let fail = Step::SetVerdict(UserVerdict::Fail);
    let (first, other) = if by_itself {
        (vec![in alloc; fail, stop]?, vec![in alloc; create(false)]?)
    } else {
        (
            vec![in alloc; create(false), fail]?,
            vec![in alloc; stop, create(false)]?,
        )
    };
    scripts.push(script(rt, first))?;
    Ok(scripts.push(script_of(rt, 1, other))?)
}

// A main behaviour that sets verdicts while another creates components.
fn add_setting_between<R: Abort>(
    rt: &R,
    alloc: Global,
    scripts: &mut Vec<Script>,
) -> Result<(), Fail> {
    let steps = vec![in alloc;
        create(false),
        start(P, 1),
        Step::SetVerdict(UserVerdict::Pass),
        create(false),
        Step::SetVerdict(UserVerdict::Inconc),
        wait(TargetPlace::All),
    ]?;
    scripts.push(script(rt, steps))?;
    let others = vec![in alloc; create(false), create(false)]?;
    Ok(scripts.push(script(rt, others))?)
}

#[test]
fn a_complete_search_tells_its_states(rt: HostRuntime) -> Result<(), Fail> {
    let alloc = rt.alloc();
    let states = completed(&rt, alloc, race(&rt, alloc)?.as_slice())?;
    is(&rt, "the states of a race", states, 3);
    Ok(())
}

#[test]
fn states_where_another_is_stopped(rt: HostRuntime) -> Result<(), Fail> {
    let alloc = rt.alloc();
    let mut scripts = Vec::new(alloc);
    add_stopped(&rt, alloc, &mut scripts, false)?;
    let states = completed(&rt, alloc, scripts.as_slice())?;
    is(&rt, "the states", states, 12);
    Ok(())
}

#[test]
fn states_where_one_stops_itself(rt: HostRuntime) -> Result<(), Fail> {
    let alloc = rt.alloc();
    let mut scripts = Vec::new(alloc);
    add_stopped(&rt, alloc, &mut scripts, true)?;
    let states = completed(&rt, alloc, scripts.as_slice())?;
    holds(&rt, "some states", states > 3);
    Ok(())
}

#[test]
fn states_where_the_main_behaviour_sets_verdicts(rt: HostRuntime) -> Result<(), Fail> {
    let alloc = rt.alloc();
    let mut scripts = Vec::new(alloc);
    add_setting_between(&rt, alloc, &mut scripts)?;
    let states = completed(&rt, alloc, scripts.as_slice())?;
    holds(&rt, "some states", states > 3);
    Ok(())
}

//! The steps that no course which was looked at carries out, and the words of a step: as a script spells it, except that
//! components have their place, and behaviours their run.
ghost use Rattle.std.specs.{Prelude.{◌≡◌, ◌<◌, ◌≤◌, ◌++◌, IfOk, OnOk, Some, codes, flat_map, length, string_bytes}, Fmt.decimal};
ghost use Rattle.tc_entry.specs.declared.limits.TheConstants.{BEHAVIOURS};
ghost use Rattle.tc_explored.specs.Details as details;
ghost use Rattle.tc_explored.specs.Steps as words;

use std::alloc::Global;
use tc_course::steps_of;
use tc_entry::Comp;
use tc_step::{GroupPlace, Place, Script, Status, Step, TargetPlace};
use tc_text::{append_number, append_shown, append_text, write_op};
use tc_verdict::{NoMemory, Run};

fn append_place(out: &mut Vec<u8>, place: Place) -> Result<(), NoMemory>
    ensures { OnOk result (out.new.items ≡ out.old.items ++ words.place_text place) }
{
    match place {
        Place::Main => append_text(out, " mtc"),
        Place::Own => append_text(out, " self"),
        Place::Bound(index) => {
            append_text(out, " #")?;
            append_number(out, u64::from(index) + 1)
        }
    }
}

// Appends a verb, and the one component that it is of; if memory runs out, a part of it.
fn append_one(out: &mut Vec<u8>, verb: &str, place: Place) -> Result<(), NoMemory>
    ensures { OnOk result (out.new.items ≡ out.old.items ++ (verb.now ++ words.place_text place)) }
{
    append_text(out, verb)?;
    append_place(out, place)
}

fn append_places(out: &mut Vec<u8>, places: &[Place]) -> Result<(), NoMemory>
    ensures { OnOk result (out.new.items ≡ out.old.items ++ flat_map words.place_text places.now) }
{
    for place in places {
        append_place(out, *place)?;
    }
    Ok(())
}

fn append_start(out: &mut Vec<u8>, on: Place, run: Run, args: &[Place]) -> Result<(), NoMemory>
    ensures { OnOk result (out.new.items ≡ out.old.items ++ (codes "start" ++ (words.place_text on
        ++ (codes " run " ++ (decimal run.0 ++ flat_map words.place_text args.now))))) }
{
    append_text(out, "start")?;
    append_place(out, on)?;
    append_text(out, " run ")?;
    append_number(out, u64::from(run.0))?;
    append_places(out, args)
}

fn status_text(status: Status) -> &'static str
    ensures { result.now ≡ words.status_text status }
{
    match status {
        Status::Running => "running",
        Status::Alive => "alive",
        Status::Done => "done",
        Status::Killed => "killed",
    }
}

fn append_step(out: &mut Vec<u8>, step: &Step) -> Result<(), NoMemory>
    ensures { OnOk result (out.new.items ≡ out.old.items ++ words.step_text step.now) }
{
    match step {
        Step::Start { on, run, args } => append_start(out, *on, *run, args.as_slice()),
        Step::Stop(GroupPlace::One(place)) => append_one(out, "stop", *place),
        Step::Kill(GroupPlace::One(place)) => append_one(out, "kill", *place),
        Step::Ask(status, TargetPlace::One(place)) => append_one(out, status_text(*status), *place),
        Step::Wait {
            killed,
            target: TargetPlace::One(place),
        } => {
            let verb = if *killed { "wait killed" } else { "wait done" };
            append_one(out, verb, *place)
        }
        _ => write_op(out, &step.operation(Comp(0), &[])),
    }
}

fn waits_for_own(step: &Step) -> bool
    ensures { result ≡ details.waits_for_own (Some step.now) }
{
    matches!(
        step,
        Step::Wait {
            target: TargetPlace::One(Place::Own),
            ..
        }
    )
}

// Whether only the last step is not carried out, and it waits for its own component.
fn lasts_until_killed(steps: &[Step], before: usize) -> bool
    requires { before < length steps.now }
    ensures { result ≡ details.lasts_until_killed before steps.now }
{
    steps.len() == before + 1 && waits_for_own(&steps[before])
}

// Which step of a run it is, after that many others.
#[tactic(auto, unfolding(crate::specs::Details::unseen_place))]
fn place_of(alloc: Global, run: u16, before: usize, steps: usize) -> Result<String, NoMemory>
    requires { before < steps }
    ensures { IfOk result (λ text. string_bytes text ≡ details.unseen_place run before steps) }
{
    let first = before + 1;
    Ok(format!(in alloc; " not seen: run {run} from step {first} of {steps} on: ")?)
}

// Appends the line of a run, if one of its steps is not carried out, unless it continues until it is killed. If memory runs
// out, a part of it.
#[tactic(auto, unfolding(crate::specs::Details::unseen_among))]
fn append_among(out: &mut Vec<u8>, run: u16, before: usize, steps: &[Step]) -> Result<(), NoMemory>
    ensures { OnOk result (out.new.items ≡ out.old.items ++ details.unseen_among run before steps.now) }
{
    if before >= steps.len() || lasts_until_killed(steps, before) {
        return Ok(());
    }
    let alloc = *out.allocator();
    let mut text = place_of(alloc, run, before, steps.len())?.into_bytes();
    append_step(&mut text, &steps[before])?;
    append_shown(alloc, out, text.as_slice())
}

/// Appends the lines of the runs of which some steps are carried out in no course that was looked at. If memory runs
/// out, a part of them.
#[tactic(auto, unfolding(crate::specs::Details::unseen), using(tc_course::proofs::Lemmas::next_of))]
pub(crate) fn append_unseen(
    out: &mut Vec<u8>,
    scripts: &[Script],
    reached: &[usize],
) -> Result<(), NoMemory>
    requires few { length scripts.now ≤ BEHAVIOURS }
    ensures { OnOk result (out.new.items ≡ out.old.items ++ details.unseen scripts.now reached.now) }
{
    for run in 0..scripts.len() as u16 {
        let before = reached.get(usize::from(run)).copied().unwrap_or(0);
        append_among(out, run, before, steps_of(scripts, Run(run)))?;
    }
    Ok(())
}

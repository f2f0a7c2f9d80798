//! Random test cases: the local verdicts that a search finds, held to all schedules.
use super::random::random_scripts;
use super::*;

/// How many cases are drawn.
const CASES: u64 = 1_000;

const LONGEST: u32 = 5;

const VERDICTS: [Verdict; 5] = [
    Verdict::None,
    Verdict::Pass,
    Verdict::Inconc,
    Verdict::Fail,
    Verdict::Error,
];

// What the cases were like.
#[derive(Drop)]
struct Counts {
    complete: usize,
    undecided: usize,
    open: usize,
    hidden: usize,
}

// What is found.
fn found_of(alloc: Global, locals: &Locals) -> Result<Vec<(u32, Verdict)>, Fail> {
    let mut found = Vec::new(alloc);
    let mut comp = 0u32;
    for marks in locals.found.as_slice().chunks(5) {
        for (mark, verdict) in marks.iter().zip(&VERDICTS) {
            if *mark {
                found.push((comp, *verdict))?;
            }
        }
        comp = comp.saturating_add(1);
    }
    Ok(found)
}

// Whether some component has two verdicts.
fn is_open(found: &[(u32, Verdict)]) -> bool {
    found.windows(2).any(|two| two[0].0 == two[1].0)
}

// Ends the test unless this holds of the case of this seed.
fn holds_of<R: Abort>(rt: &R, seed: u64, what: &str, fact: bool) {
    assert!(rt; fact, "{what}, case {seed}");
}

// Holds what was found to all schedules: no more, and all of it if the search was complete.
fn compare<R: Abort>(rt: &R, seed: u64, is_whole: bool, found: &[(u32, Verdict)], all: &All) {
    let told = all.locals.as_slice();
    let are_told = found.iter().all(|local| told.contains(local));
    holds_of(rt, seed, "local verdicts of all schedules", are_told);
    let are_found = !is_whole || told.iter().all(|local| found.contains(local));
    holds_of(rt, seed, "each local verdict", are_found);
}

// Takes in what a search found.
fn count(counts: &mut Counts, is_whole: bool, found: &[(u32, Verdict)], verdicts: usize) {
    if !is_whole {
        counts.undecided = counts.undecided.saturating_add(1);
        return;
    }
    counts.complete = counts.complete.saturating_add(1);
    if is_open(found) {
        counts.open = counts.open.saturating_add(1);
    }
    if is_open(found) && verdicts == 1 {
        counts.hidden = counts.hidden.saturating_add(1);
    }
}

fn locals_of<R: Abort>(
    rt: &R,
    alloc: Global,
    scripts: &[Script],
    limit: usize,
) -> Result<Locals, NoMemory> {
    assert!(rt; scripts.len() <= 64);
    explore_locals(alloc, scripts, limit)
}

// Compares a search for local verdicts with all schedules, if these are not too many.
fn compare_random<R: Abort>(
    rt: &R,
    alloc: Global,
    seed: u64,
    limit: usize,
    counts: &mut Counts,
) -> Result<(), Fail> {
    let scripts = random_scripts(rt, alloc, seed, LONGEST)?;
    let locals = locals_of(rt, alloc, scripts.as_slice(), limit)?;
    let found = found_of(alloc, &locals)?;
    let is_whole = locals.ending == Ending::Complete;
    if let Some(all) = schedules_of(rt, alloc, scripts.as_slice())? {
        compare(rt, seed, is_whole, found.as_slice(), &all);
        count(counts, is_whole, found.as_slice(), all.verdicts.len());
    }
    Ok(())
}

// Ends the test unless there are that many.
fn are_many<R: Abort>(rt: &R, what: &str, found: usize, least: usize) {
    assert!(rt; found >= least, "{what}: {found}");
}

#[test]
fn a_complete_search_finds_the_local_verdicts_of_all_schedules(
    rt: HostRuntime,
) -> Result<(), Fail> {
    let mut counts = Counts {
        complete: 0,
        undecided: 0,
        open: 0,
        hidden: 0,
    };
    for seed in 0..CASES {
        let limit = if seed % 5 == 0 { 5 } else { MANY };
        compare_random(&rt, rt.alloc(), seed, limit, &mut counts)?;
    }
    are_many(&rt, "complete searches", counts.complete, 700);
    are_many(&rt, "searches at their limit", counts.undecided, 40);
    are_many(&rt, "several local verdicts", counts.open, 100);
    are_many(&rt, "and one overall verdict", counts.hidden, 40);
    Ok(())
}

//! Random test cases: what a search finds, held to all schedules.
use super::random::random_scripts;
use super::*;

/// How many cases are drawn.
const CASES: u64 = 1_500;

const LONGEST: u32 = 4;

// What the cases were like.
#[derive(Drop)]
struct Counts {
    complete: usize,
    with_two: usize,
    with_three: usize,
    unseen: usize,
}

impl Counts {
    fn take(&mut self, verdicts: usize, is_unseen: bool) {
        if is_unseen {
            self.unseen = self.unseen.saturating_add(1);
        }
        self.complete = self.complete.saturating_add(1);
        if 2 <= verdicts {
            self.with_two = self.with_two.saturating_add(1);
        }
        if 3 <= verdicts {
            self.with_three = self.with_three.saturating_add(1);
        }
    }
}

// Whether there are as many numbers in both, and each is at most the other at its place.
fn are_within(one: &[usize], other: &[usize]) -> bool {
    one.len() == other.len() && one.iter().zip(other).all(|(a, b)| a <= b)
}

// How many steps each script has.
fn lengths(alloc: Global, scripts: &[Script]) -> Result<Vec<usize>, Fail> {
    let mut lengths = Vec::new(alloc);
    for script in scripts {
        lengths.push(script.steps().len())?;
    }
    Ok(lengths)
}

// Ends the test unless this holds of the case of this seed.
fn holds_of<R: Abort>(rt: &R, seed: u64, what: &str, fact: bool) {
    assert!(rt; fact, "{what}, case {seed}");
}

// Holds what was found to all schedules: no more, and all of it if the search was complete.
fn compare<R: Abort>(rt: &R, seed: u64, explored: &Explored, found: &[Verdict], all: &All) {
    let told = all.verdicts.as_slice();
    let all_reached = all.reached.as_slice();
    let reached = explored.reached.as_slice();
    let are_told = found.iter().all(|verdict| told.contains(verdict));
    holds_of(rt, seed, "verdicts of all schedules", are_told);
    let is_within = are_within(reached, all_reached);
    holds_of(rt, seed, "no run is reached further", is_within);
    if explored.ending == Ending::Complete {
        holds_of(rt, seed, "each verdict", are_same(found, told));
        let are_reached = reached == all_reached;
        holds_of(rt, seed, "each run is reached as far", are_reached);
    }
}

// Takes in a complete search that found that many verdicts.
fn count(
    alloc: Global,
    scripts: &[Script],
    verdicts: usize,
    reached: &[usize],
    counts: &mut Counts,
) -> Result<(), Fail> {
    let lengths = lengths(alloc, scripts)?;
    counts.take(verdicts, !are_within(lengths.as_slice(), reached));
    Ok(())
}

// Compares a search of the scripts with all schedules, if these are not too many, and counts it if it was complete.
fn compare_search<R: Abort>(
    rt: &R,
    alloc: Global,
    seed: u64,
    scripts: &[Script],
    counts: &mut Counts,
) -> Result<(), Fail> {
    let explored = search(rt, alloc, scripts, MANY)?;
    let found = witnessed(rt, alloc, scripts.len(), explored.found.as_slice())?;
    if let Some(all) = schedules_of(rt, alloc, scripts)? {
        compare(rt, seed, &explored, found.as_slice(), &all);
        if explored.ending == Ending::Complete {
            let reached = explored.reached.as_slice();
            count(alloc, scripts, found.len(), reached, counts)?;
        }
    }
    Ok(())
}

fn compare_random<R: Abort>(
    rt: &R,
    alloc: Global,
    seed: u64,
    counts: &mut Counts,
) -> Result<(), Fail> {
    let scripts = random_scripts(rt, alloc, seed, LONGEST)?;
    compare_search(rt, alloc, seed, scripts.as_slice(), counts)
}

// Ends the test unless there are that many.
fn are_many<R: Abort>(rt: &R, what: &str, found: usize, least: usize) {
    assert!(rt; found >= least, "{what}: {found}");
}

#[test]
fn a_complete_search_finds_the_verdicts_of_all_schedules(rt: HostRuntime) -> Result<(), Fail> {
    let mut counts = Counts {
        complete: 0,
        with_two: 0,
        with_three: 0,
        unseen: 0,
    };
    for seed in 0..CASES {
        compare_random(&rt, rt.alloc(), seed, &mut counts)?;
    }
    are_many(&rt, "complete searches", counts.complete, 1_000);
    are_many(&rt, "two verdicts", counts.with_two, 100);
    are_many(&rt, "three verdicts", counts.with_three, 10);
    are_many(&rt, "steps that are not seen", counts.unseen, 100);
    Ok(())
}

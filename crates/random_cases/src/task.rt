//! What the arguments ask for.
use std::alloc::{AllocError, Global};

/// How many cases are run, and the number that their random choices come from.
#[derive(Clone, Copy, PartialEq, Eq)]
pub(crate) struct Task {
    pub(crate) cases: u32,
    pub(crate) seed: u64,
}

/// The task of the arguments `[CASES [SEED]]`, the first of which is the program's name; without them 40 cases. None if
/// they are no such arguments.
pub(crate) fn read_task(words: &[String]) -> Option<Task> {
    let mut task = Task {
        cases: 40,
        seed: 20_261_122,
    };
    if let Some(cases) = words.get(1) {
        task.cases = cases.as_str().parse::<u32>().ok()?;
    }
    if let Some(seed) = words.get(2) {
        task.seed = seed.as_str().parse::<u64>().ok()?;
    }
    if words.len() > 3 { None } else { Some(task) }
}

/// The words of a line.
fn words_of(alloc: Global, line: &str) -> Result<Vec<String>, AllocError> {
    let mut words = Vec::new(alloc);
    for word in line.split(' ') {
        words.push(word.to_string(alloc)?)?;
    }
    Ok(words)
}

/// Whether the tasks of these words are read.
pub(crate) fn reads_tasks(alloc: Global) -> Result<bool, AllocError> {
    let mut is_right = true;
    for (line, wanted) in [
        ("p", Some((40, 20_261_122))),
        ("p 300", Some((300, 20_261_122))),
        ("p 10000 7", Some((10_000, 7))),
        ("p many", None),
        ("p 3 -1", None),
        ("p 3 1 1", None),
    ] {
        let words = words_of(alloc, line)?;
        let wanted = wanted.map(|(cases, seed)| Task { cases, seed });
        is_right = is_right & (read_task(words.as_slice()) == wanted);
        drop(words);
    }
    Ok(is_right)
}

//! Test cases of a campaign, whose behaviours do what their kind says.
ghost use Rattle.std.specs.Prelude.{All, IfOk, ⊤};
ghost use Rattle.tc_campaign.specs.Prelude.{HasNames};

use crate::results::name;
use std::alloc::{AllocError, Global};
use std::process::Abort;
use std::sync::Arc;
use std::sync::atomic::{AtomicU64, Ordering};
use std::test::Fail;
use tc_book::{Halt, Pass};
use tc_campaign::Case;
use tc_entry::{Name, UserVerdict};
use tc_exec::{Back, Callable, Ending};

/// How many behaviours have begun, and how many have ended.
#[derive(Drop)]
pub(crate) struct Counts {
    begun: Arc<AtomicU64>,
    ended: Arc<AtomicU64>,
}

impl Counts {
    pub(crate) fn new(alloc: Global) -> Result<Counts, AllocError> {
        Ok(Counts {
            begun: Arc::new(alloc, AtomicU64::new(0))?,
            ended: Arc::new(alloc, AtomicU64::new(0))?,
        })
    }

    pub(crate) fn share(&self) -> Result<Counts, Fail> {
        Ok(Counts {
            begun: Arc::try_clone(&self.begun)?,
            ended: Arc::try_clone(&self.ended)?,
        })
    }

    pub(crate) fn begun(&self) -> u64 {
        self.begun.load(Ordering::SeqCst)
    }

    /// Whether that many have begun, and each of them has ended.
    fn are(&self, count: u64) -> bool {
        self.begun.fetch_add(1, Ordering::SeqCst) == count
            && self.ended.load(Ordering::SeqCst) == count
    }
}

/// What a behaviour does.
#[derive(Drop)]
pub(crate) enum Does {
    Returns,
    Sets(UserVerdict),
    Starves,
    /// Hands back the pass of another case.
    Exchanges(Pass),
    /// Counts itself, and sets pass if that many have begun before it and have ended, otherwise fail.
    Counts(u64, Counts),
}

/// Hands a pass back after these calls.
fn back(pass: Pass, made: Result<(), Halt>) -> Back {
    let ending = match made {
        Err(Halt::NoMemory) => Ending::Starved,
        _ => Ending::Returned,
    };
    Back { pass, ending }
}

fn sets(pass: Pass, verdict: UserVerdict) -> Back {
    let mut pass = pass;
    let made = pass.set_verdict(verdict);
    back(pass, made)
}

fn count(pass: Pass, before: u64, counts: Counts) -> Back {
    let verdict = if counts.are(before) {
        UserVerdict::Pass
    } else {
        UserVerdict::Fail
    };
    let back = sets(pass, verdict);
    counts.ended.fetch_add(1, Ordering::SeqCst);
    back
}

impl Callable for Does {
    ghost outcome = { λ _ _ _. ⊤ };

    fn call(self, pass: Pass) -> Back {
        match self {
            Does::Returns => back(pass, Ok(())),
            Does::Sets(verdict) => sets(pass, verdict),
            Does::Starves => back(pass, Err(Halt::NoMemory)),
            Does::Exchanges(other) => back(other, Ok(())),
            Does::Counts(before, counts) => count(pass, before, counts),
        }
    }
}

/// Adds a behaviour with its name.
fn add(names: &mut Vec<Name>, jobs: &mut Vec<Does>, text: &str, does: Does) -> Result<(), Fail> {
    names.push(name(text)?)?;
    Ok(jobs.push(does)?)
}

/// Adds the first behaviour, if there is one, and as many that return.
fn add_all(
    names: &mut Vec<Name>,
    jobs: &mut Vec<Does>,
    first: Option<Does>,
    others: u16,
) -> Result<(), Fail> {
    if let Some(does) = first {
        add(names, jobs, "main", does)?;
    }
    for _ in 0..others {
        add(names, jobs, "other", Does::Returns)?;
    }
    Ok(())
}

/// A test case of that many behaviours after the first.
pub(crate) fn case_of<R: Abort>(
    rt: &R,
    alloc: Global,
    text: &str,
    first: Option<Does>,
    others: u16,
) -> Result<Case<Does>, Fail>
    ensures { IfOk result HasNames }
{
    let mut names = Vec::new(alloc);
    let mut jobs = Vec::new(alloc);
    add_all(&mut names, &mut jobs, first, others)?;
    assert!(rt; names.len() == jobs.len());
    Ok(Case {
        name: name(text)?,
        names,
        jobs,
    })
}

/// A test case of one behaviour.
fn case(alloc: Global, text: &str, does: Does) -> Result<Case<Does>, Fail>
    ensures { IfOk result HasNames }
{
    Ok(Case {
        name: name(text)?,
        names: vec![in alloc; name("main")?]?,
        jobs: vec![in alloc; does]?,
    })
}

/// The test cases a and c, which pass, and this one between them.
pub(crate) fn between(alloc: Global, second: Case<Does>) -> Result<Vec<Case<Does>>, Fail>
    requires { HasNames second }
    ensures { IfOk result (λ cases. All HasNames cases.items) }
{
    Ok(vec![in alloc;
        case(alloc, "a", Does::Sets(UserVerdict::Pass))?,
        second,
        case(alloc, "c", Does::Sets(UserVerdict::Pass))?,
    ]?)
}

/// Three test cases that are counted.
pub(crate) fn counted(alloc: Global, counts: &Counts) -> Result<Vec<Case<Does>>, Fail>
    ensures { IfOk result (λ cases. All HasNames cases.items) }
{
    Ok(vec![in alloc;
        case(alloc, "a", Does::Counts(0, counts.share()?))?,
        case(alloc, "b", Does::Counts(1, counts.share()?))?,
        case(alloc, "c", Does::Counts(2, counts.share()?))?,
    ]?)
}

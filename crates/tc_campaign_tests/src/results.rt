//! Results made by hand: of three test cases of one behaviour, which sets a verdict.
use std::alloc::Global;
use std::test::Fail;
use tc_book::{RunLog, Sequence};
use tc_campaign::{CampaignEnd, Finished, Results};
use tc_entry::{Comp, Entry, Name, NoMemory, Op, Reply, Run, UserVerdict};
use tc_exec::{CaseError, CaseReport};
use tc_verdict::from_user;

/// The name of each test case, and what it sets.
pub(crate) const CASES: [(&str, UserVerdict); 3] = [
    ("a", UserVerdict::Pass),
    ("b", UserVerdict::Fail),
    ("c", UserVerdict::Inconc),
];

pub(crate) fn name(text: &str) -> Result<Name, Fail> {
    Ok(Name::read(text).ok_or("a name")?)
}

fn add_entry(entries: &mut Vec<Entry>, op: Op) -> Result<(), NoMemory> {
    Ok(entries.push(Entry {
        caller: Run(0),
        op,
        reply: Reply::Ok,
    })?)
}

fn add_entries(entries: &mut Vec<Entry>, setting: UserVerdict) -> Result<(), NoMemory> {
    add_entry(entries, Op::SetVerdict(setting))?;
    add_entry(entries, Op::Finish)
}

/// The calls of a behaviour that sets this verdict, and finishes.
fn entries(alloc: Global, setting: UserVerdict) -> Result<Sequence<Entry>, NoMemory> {
    let mut entries = Vec::new(alloc);
    add_entries(&mut entries, setting)?;
    Ok(Sequence::new(entries))
}

fn logs(alloc: Global, setting: UserVerdict) -> Result<Sequence<RunLog>, NoMemory> {
    let log = RunLog {
        run: Run(0),
        comp: Comp(0),
        entries: entries(alloc, setting)?,
    };
    Ok(Sequence::new(vec![in alloc; log]?))
}

fn report(alloc: Global, setting: UserVerdict) -> Result<CaseReport, NoMemory> {
    let verdict = from_user(setting);
    let locals = vec![in alloc; verdict]?;
    Ok(CaseReport {
        behaviours: 1,
        history: entries(alloc, setting)?,
        logs: logs(alloc, setting)?,
        locals: Sequence::new(locals),
        verdict,
    })
}

/// A test case that is over.
pub(crate) fn finished(alloc: Global, text: &str, setting: UserVerdict) -> Result<Finished, Fail> {
    let report = report(alloc, setting)?;
    let names = vec![in alloc; name("main")?]?;
    Ok(Finished {
        name: name(text)?,
        names: Sequence::new(names),
        report,
    })
}

fn add_finished(alloc: Global, all: &mut Vec<Finished>) -> Result<(), Fail> {
    for (text, setting) in CASES {
        all.push(finished(alloc, text, setting)?)?;
    }
    Ok(())
}

/// The results of a campaign of these test cases that ended so.
pub(crate) fn results(alloc: Global, ending: CampaignEnd) -> Result<Results, Fail> {
    let mut all = Vec::new(alloc);
    add_finished(alloc, &mut all)?;
    Ok(Results {
        finished: Sequence::new(all),
        ending,
    })
}

/// How a campaign ends that was aborted at this test case.
pub(crate) fn aborted(text: &str, why: CaseError) -> Result<CampaignEnd, Fail> {
    let name = name(text)?;
    Ok(CampaignEnd::Aborted { name, why })
}

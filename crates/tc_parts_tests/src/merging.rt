//! Histories and logs that are merged, and what the close of a word counted.
use crate::checks::{blocks, first, is};
use std::alloc::Global;
use std::process::Abort;
use tc_blocks::{History, write_block};
use tc_board::Record;
use tc_book::laws::merge;
use tc_book::{RunLog, counts};
use tc_entry::{Comp, Entry, NoMemory, Run};
use tc_rules::replay_check;
use tc_verdict::UserVerdict;

/// The entries of no verdict call, and then the logs of runs 1, 0 and 2.
const LOGS: &str = "\
history 2 merged 3
0 create alive -> made 1
0 start 1 1 -> ok
0 stop 1 -> ok
0 start 1 2 -> ok
0 finish -> ok
end none
history 2 first 3
1 setverdict inconc -> ok
1 setverdict fail -> ended
end none
history 2 main 3
0 setverdict none -> ok
0 create alive -> made 1
0 start 1 1 -> ok
0 getverdict -> none
0 stop 1 -> ok
0 start 1 2 -> ok
0 finish -> ok
end none
history 2 second 3
2 getverdict -> inconc
2 setverdict pass -> ok
2 getverdict -> ended
end none
";

/// What they are merged to, and its verdict.
const MERGED: &str = "\
history 2 merged 3
0 setverdict none -> ok
0 create alive -> made 1
0 start 1 1 -> ok
0 getverdict -> none
1 setverdict inconc -> ok
0 stop 1 -> ok
0 start 1 2 -> ok
2 getverdict -> inconc
2 setverdict pass -> ok
0 finish -> ok
1 setverdict fail -> ended
2 getverdict -> ended
end inconc
";

/// The log of a run, whose entries are those of the last block.
fn take_log(rt: &impl Abort, blocks: &mut Vec<History>, run: u16, comp: u32) -> RunLog {
    match blocks.pop() {
        Some(block) => RunLog {
            run: Run(run),
            comp: Comp(comp),
            entries: block.entries,
        },
        None => panic!(rt; "a log"),
    }
}

/// The text of a history of three behaviours, with the verdict that a replay finds.
fn append_replayed(
    rt: &impl Abort,
    alloc: Global,
    out: &mut Vec<u8>,
    block: &History,
    entries: &[Entry],
) -> Result<(), NoMemory> {
    match replay_check(alloc, 3, entries) {
        Ok(verdict) => write_block(out, &block.name, 3, entries, verdict),
        Err(_) => panic!(rt; "a legal history"),
    }
}

fn is_merged(
    rt: &impl Abort,
    alloc: Global,
    out: &mut Vec<u8>,
    others: &History,
    logs: &[RunLog],
) -> Result<(), NoMemory> {
    let merged = merge(alloc, others.entries.as_slice(), logs)?;
    append_replayed(rt, alloc, out, others, &merged)?;
    is(rt, "the merge", out.as_slice(), MERGED.as_bytes());
    Ok(())
}

#[test]
fn merge_of_three_logs(rt: HostRuntime) -> Result<(), NoMemory> {
    let mut blocks = blocks(&rt, rt.alloc(), LOGS.as_bytes());
    let logs = vec![in rt.alloc();
        take_log(&rt, &mut blocks, 2, 1),
        take_log(&rt, &mut blocks, 0, 0),
        take_log(&rt, &mut blocks, 1, 1),
    ]?;
    let mut out = Vec::new(rt.alloc());
    is_merged(&rt, rt.alloc(), &mut out, first(&rt, &blocks), &logs)
}

/// The log of a run that sets three verdicts, the last one too late.
const LOG: &str = "\
history 2 t 2
1 setverdict inconc -> ok
1 setverdict pass -> ok
1 setverdict fail -> ended
end none
";

/// Records of a word, and whether the log is right next to each.
const RECORDS: [(Record, bool); 6] = [
    (Record::Closed(UserVerdict::None, UserVerdict::Inconc), true),
    (Record::Closed(UserVerdict::Fail, UserVerdict::Fail), true),
    (Record::Closed(UserVerdict::None, UserVerdict::Fail), false),
    (
        Record::Closed(UserVerdict::Fail, UserVerdict::Inconc),
        false,
    ),
    (Record::Open(UserVerdict::Inconc), false),
    (Record::Unbegun, false),
];

fn are_counted(rt: &impl Abort, log: &[Entry]) {
    for (word, wanted) in RECORDS {
        is(rt, "counts", counts(word, log), wanted);
    }
}

#[test]
fn counts_of_a_log(rt: HostRuntime) {
    let blocks = blocks(&rt, rt.alloc(), LOG.as_bytes());
    are_counted(&rt, first(&rt, &blocks).entries.as_slice());
}

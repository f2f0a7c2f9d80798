//! What the cases met, and how much of it they have to meet.
use std::io;
use tc_entry::{Comp, Entry, Op, Reply};

/// What the cases met.
#[derive(Default, Drop)]
pub(crate) struct Met {
    starts: u64,
    restarts: u64,
    entries: u64,
    settings: u64,
    late: u64,
    stops: u64,
    kills: u64,
    parked: u64,
    faults: u64,
    stopped_cases: u64,
}

/// How often something was met, and how often it has to be met in 40 cases.
#[derive(Drop)]
struct Row {
    what: &'static str,
    met: u64,
    floor: u64,
}

impl Row {
    fn new(what: &'static str, met: u64, floor: u64) -> Row {
        Row { what, met, floor }
    }

    /// How often it has to be met in that many cases: nothing is asked of fewer than 40.
    fn floor_of(&self, cases: u32) -> u64 {
        u64::from(cases / 40).saturating_mul(self.floor)
    }
}

fn add(count: &mut u64) {
    *count = count.saturating_add(1);
}

impl Met {
    /// Counts an entry. A run that is no restart is started on the component of its number.
    fn count(&mut self, entry: &Entry) {
        add(&mut self.entries);
        match (&entry.op, entry.reply) {
            (_, Reply::Fault(_)) => add(&mut self.faults),
            (Op::SetVerdict(_), Reply::Ok) => add(&mut self.settings),
            (Op::SetVerdict(_) | Op::GetVerdict, Reply::Ended) => add(&mut self.late),
            (Op::StopCase, Reply::Ok) => add(&mut self.stopped_cases),
            (Op::Stop(_), Reply::Ok) => add(&mut self.stops),
            (Op::Kill(_), Reply::Ok) => add(&mut self.kills),
            (Op::Wait { .. }, Reply::Parked) => add(&mut self.parked),
            (Op::Start { comp, run, .. }, Reply::Ok) => {
                add(&mut self.starts);
                if *comp != Comp(u32::from(run.0)) {
                    add(&mut self.restarts);
                }
            }
            _ => {}
        }
    }

    /// Counts the entries of a history.
    pub(crate) fn count_all(&mut self, history: &[Entry]) {
        for entry in history {
            self.count(entry);
        }
    }

    fn rows(&self) -> [Row; 10] {
        [
            Row::new("runs started", self.starts, 1_100),
            Row::new("restarts", self.restarts, 100),
            Row::new("entries", self.entries, 10_000),
            Row::new("settings", self.settings, 1_000),
            Row::new("late verdict calls", self.late, 5),
            Row::new("stops", self.stops, 200),
            Row::new("kills", self.kills, 100),
            Row::new("parked waits", self.parked, 400),
            Row::new("dynamic errors", self.faults, 12),
            Row::new("cases ended by testcase.stop", self.stopped_cases, 1),
        ]
    }

    /// Prints what was met on standard error, and on standard output whether that is enough for that many cases, which
    /// is answered too.
    pub(crate) fn tell<R: Print + Eprint>(&self, rt: &R, cases: u32) -> io::Result<bool> {
        let mut is_enough = true;
        for row in self.rows().as_slice() {
            let (what, met, floor) = (row.what, row.met, row.floor_of(cases));
            eprintln!(rt; "{what}: {met}")?;
            if met < floor {
                is_enough = false;
                println!(rt; "{what}: fewer than {floor}")?;
            } else {
                println!(rt; "{what}: {floor} or more")?;
            }
        }
        Ok(is_enough)
    }
}

//! What calls answer and leave, as text, and calls that are made again if they are refused memory. There is room for the texts, so
//! what an append returns is not looked at.
use crate::trial::Trial;
use tc_blocks::{History, write_block};
use tc_book::{Closed, Left, Pass, RunLog};
use tc_entry::{Comp, Entry, Name, Run, Verdict};
use tc_report::{CaseEnd, Finished, Summary, append_verdict};
use tc_text::{MoveList, append_number, write_move, write_op, write_reply};

/// What has a text, by which one differs from another of its kind. A text that is cut short differs from the one that is wanted.
pub(crate) trait Told: Drop {
    /// Appends its text.
    fn tell(&self, out: &mut Vec<u8>);
}

/// What calls are made on, each of which leaves it as before if it is refused memory.
pub(crate) trait Called<A>: Told {
    /// Makes a call, and appends how it is answered. Whether there was memory for it.
    fn call(&mut self, with: &A, out: &mut Vec<u8>) -> bool;
}

/// Takes in the answer of a call, that it was refused memory too.
pub(crate) fn made<T: Told, E: PartialEq + Drop>(
    answer: Result<T, E>,
    no_memory: E,
    trial: &mut Trial,
) {
    match answer {
        Ok(value) => value.tell(&mut trial.out),
        Err(why) => trial.refuse(why == no_memory),
    }
    trial.end_call();
}

/// Makes a call, and makes it again if it is refused memory, which must change nothing.
pub(crate) fn call_again<A, C: Called<A>>(trial: &mut Trial, on: &mut C, with: &A) {
    trial.states.clear();
    on.tell(&mut trial.states);
    if !on.call(with, &mut trial.out) {
        on.tell(&mut trial.states);
        trial.refuse_again();
        on.call(with, &mut trial.out);
    }
    on.tell(&mut trial.out);
    trial.end_call();
}

/// Makes these calls, one after the other.
pub(crate) fn call_all<A, C: Called<A>>(trial: &mut Trial, on: &mut C, list: &[A]) {
    for with in list {
        call_again(trial, on, with);
    }
}

/// A number.
pub(crate) fn tell_number(out: &mut Vec<u8>, number: usize) {
    let _ = append_number(out, number as u64);
}

/// The entries of a history or of a log, under this number.
pub(crate) fn tell_entries(out: &mut Vec<u8>, number: u16, entries: &[Entry]) {
    if let Some(name) = Name::read("told") {
        let _ = write_block(out, &name, number, entries, Verdict::None);
    }
}

/// The calls of a log, each with its reply.
pub(crate) fn tell_calls(out: &mut Vec<u8>, log: &[Entry]) {
    for entry in log {
        let _ = write_move(out, entry.caller, &entry.op);
        let _ = write_reply(out, &entry.reply);
    }
}

/// The log of this run.
pub(crate) fn tell_log(out: &mut Vec<u8>, comp: Comp, run: Run, log: &[Entry]) {
    let _ = append_number(out, u64::from(comp.0));
    tell_entries(out, run.0, log);
}

/// A pass.
pub(crate) fn tell_pass(out: &mut Vec<u8>, pass: &Pass) {
    tell_log(out, pass.me(), pass.run(), pass.log());
    let _ = out.push(u8::from(pass.is_ended()));
}

/// What a run leaves.
pub(crate) fn tell_left(out: &mut Vec<u8>, left: &Left) {
    tell_log(out, Comp(0), left.run(), left.log());
    let _ = out.push(u8::from(left.started().is_some()));
}

/// These logs.
fn tell_logs(out: &mut Vec<u8>, logs: &[RunLog]) {
    for log in logs {
        tell_log(out, log.comp, log.run, log.entries.as_slice());
    }
}

/// These verdicts.
pub(crate) fn tell_verdicts(out: &mut Vec<u8>, verdicts: &[Verdict]) {
    for verdict in verdicts {
        let _ = append_verdict(out, *verdict);
    }
}

/// The report of a test case.
pub(crate) fn tell_closed(out: &mut Vec<u8>, closed: &Closed) {
    tell_entries(out, closed.behaviours, closed.history.as_slice());
    tell_logs(out, closed.logs.as_slice());
    tell_verdicts(out, closed.locals.as_slice());
    let _ = append_verdict(out, closed.verdict);
}

/// A test case that finished.
pub(crate) fn tell_finished(out: &mut Vec<u8>, case: &Finished) {
    let _ = out.extend_from_slice(case.name.bytes());
    tell_closed(out, &case.report);
}

impl Told for Vec<u8> {
    fn tell(&self, out: &mut Vec<u8>) {
        let _ = out.extend_from_slice(self);
    }
}

impl Told for Vec<Entry> {
    fn tell(&self, out: &mut Vec<u8>) {
        tell_entries(out, 0, self);
    }
}

impl Told for Verdict {
    fn tell(&self, out: &mut Vec<u8>) {
        let _ = append_verdict(out, *self);
    }
}

impl Told for MoveList {
    fn tell(&self, out: &mut Vec<u8>) {
        for (run, op) in self.moves.as_slice() {
            let _ = write_move(out, *run, op);
        }
    }
}

impl Told for Vec<History> {
    fn tell(&self, out: &mut Vec<u8>) {
        for it in self {
            let _ = append_number(out, u64::from(it.format));
            let _ = write_block(
                out,
                &it.name,
                it.behaviours,
                it.entries.as_slice(),
                it.verdict,
            );
        }
    }
}

impl Told for Closed {
    fn tell(&self, out: &mut Vec<u8>) {
        tell_closed(out, self);
    }
}

impl Told for Summary {
    fn tell(&self, out: &mut Vec<u8>) {
        let _ = out.extend_from_slice(self.name.bytes());
        tell_verdicts(out, self.locals.as_slice());
        if let CaseEnd::Over(verdict) = self.ending {
            let _ = append_verdict(out, verdict);
        }
        if let Some(cause) = &self.cause {
            let _ = write_op(out, &cause.entry.op);
            tell_entries(out, 0, cause.log.as_slice());
        }
    }
}

impl Told for Vec<Summary> {
    fn tell(&self, out: &mut Vec<u8>) {
        for it in self {
            it.tell(out);
        }
    }
}

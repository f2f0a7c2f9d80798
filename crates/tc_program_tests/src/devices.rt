//! Readers and writers that fail, and the line before an input that is typed.
use crate::calls::{answer, carry_out, in_lines, task_of, words_of};
use crate::checks::{holds, is};
use std::alloc::Global;
use std::io;
use std::io::{Read, Write};
use std::process::Abort;
use std::sync::Wait;
use std::test::Fail;
use std::thread::Threads;
use std::time::Clock;
use tc_book::{Closed, RunLog};
use tc_campaign::{CampaignEnd, Finished, Results};
use tc_command::{Form, Task};
use tc_entry::{Comp, Entry, Name, Op, Reply, Run, Sequence, Verdict};
use tc_exec::CaseError;
use tc_program::{Announcing, Outcome, RunFault, awaited_line, check, give, replay};
use tc_stream::devices::{NarrowWriter, SlowReader, WriteFailure};

/// The words of a task, its input, and its status.
const TASKS: &str = "\
ttrun replay < behaviours 3;0 create;0 start 1 1;0 start 1 2;1 getverdict; => 2
ttrun check < history 1 t 1;0 create -> made 1;0 stop 1 -> ok;0 alive 1 -> true;0 wait done 1 -> matched;end none; => 3
ttrun report --csv < history 2 t 1;0 setverdict fail -> ok;0 finish -> ok;end fail; => 1
ttrun report --junit < history 2 t 1;0 setverdict fail -> ok;0 finish -> ok;end fail; => 1
ttrun report --summary < history 2 t 1;0 setverdict fail -> ok;0 finish -> ok;end fail; => 1
ttrun explore < testcase t;behaviour main;setverdict fail;end;end; => 0
ttrun run --list < testcase t;behaviour main;setverdict fail;end;end; => 0
ttrun run < testcase t;behaviour main;setverdict fail;end;end; => 1
ttrun run --csv < testcase t;behaviour main;setverdict fail;end;end; => 1
ttrun run --history < testcase t;behaviour main;setverdict fail;end;end; => 1
ttrun run --evidence < testcase t;behaviour main;setverdict fail;end;end; => 1
ttrun run --junit < testcase t;behaviour main;setverdict fail;end;end; => 1
ttrun run --live < testcase t;behaviour main;setverdict fail;end;end; => 1
ttrun run --live --csv < testcase t;behaviour main;setverdict fail;end;end; => 1
ttrun run --live --history < testcase t;behaviour main;setverdict fail;end;end; => 1
ttrun run --live --evidence < testcase t;behaviour main;setverdict fail;end;end; => 1";

const FAILURES: [WriteFailure; 2] = [WriteFailure::Broken, WriteFailure::Full];

/// Checks the status and what is printed, all of which was printed.
fn ends<R: Abort>(rt: &R, outcome: &Outcome, status: u8, told: &[u8], line: &str) {
    is(rt, "the status", outcome.status, status);
    is(rt, "whether all is told", outcome.told, Ok(()));
    is(rt, "what is told", told, line.as_bytes());
}

/// Carries out the task with a reader that fails at this read.
fn fails_to_read<R: Abort + Threads + Wait + Clock + Copy + Send + 'static>(
    rt: &R,
    alloc: Global,
    task: &Task,
    input: &[u8],
    fails_at: usize,
) {
    let mut reader = SlowReader::new(input, fails_at);
    let mut written = Vec::new(alloc);
    let mut told = Vec::new(alloc);
    let outcome = carry_out(rt, alloc, task, &mut reader, &mut written, &mut told);
    ends(rt, &outcome, 3, told.as_slice(), "ttrun: read fault\n");
    is(rt, "how much is written", written.len(), 0);
    let reads = fails_at.saturating_add(1);
    is(rt, "how many reads there were", reader.reads, reads);
}

/// Carries out the task with a writer that fails after this part of what must be written.
fn fails_to_write<R: Abort + Threads + Wait + Clock + Copy + Send + 'static>(
    rt: &R,
    alloc: Global,
    task: &Task,
    input: &[u8],
    part: &[u8],
    failure: WriteFailure,
) {
    let mut reader = input;
    let mut writer = NarrowWriter::new(alloc, part.len(), failure);
    let mut told = Vec::new(alloc);
    let outcome = carry_out(rt, alloc, task, &mut reader, &mut writer, &mut told);
    ends(rt, &outcome, 3, told.as_slice(), "ttrun: write fault\n");
    is(rt, "what is written", writer.taken.as_slice(), part);
}

/// Carries out the task, and appends what is written.
fn write_whole<R: Abort + Threads + Wait + Clock + Copy + Send + 'static>(
    rt: &R,
    alloc: Global,
    task: &Task,
    input: &[u8],
    written: &mut Vec<u8>,
    status: u8,
) {
    let mut reader = SlowReader::new(input, usize::MAX);
    let mut told = Vec::new(alloc);
    let outcome = carry_out(rt, alloc, task, &mut reader, written, &mut told);
    ends(rt, &outcome, status, told.as_slice(), "");
}

/// Fails each read in turn, and each write in each way; how many there were.
fn fail_each<R: Abort + Threads + Wait + Clock + Copy + Send + 'static>(
    rt: &R,
    alloc: Global,
    task: &Task,
    input: &[u8],
    whole: &[u8],
) -> usize {
    for fails_at in 0..=input.len() {
        fails_to_read(rt, alloc, task, input, fails_at);
    }
    for (place, _) in whole.iter().enumerate() {
        for failure in FAILURES {
            let part = whole.get(..place).unwrap_or(whole);
            fails_to_write(rt, alloc, task, input, part, failure);
        }
    }
    whole.len().saturating_mul(2).saturating_add(input.len())
}

/// Fails each read and each write of the task in turn; how many there were.
fn fail_task<R: Abort + Threads + Wait + Clock + Copy + Send + 'static>(
    rt: &R,
    alloc: Global,
    given: &str,
    status: u8,
) -> Result<usize, Fail> {
    let (line, input) = given.split_once(" < ").ok_or("an input")?;
    let task = task_of(alloc, line)?;
    let input = in_lines(alloc, input)?;
    let mut whole = Vec::new(alloc);
    write_whole(rt, alloc, &task, input.as_slice(), &mut whole, status);
    Ok(fail_each(rt, alloc, &task, input.as_slice(), whole.as_slice()))
}

/// A call over a reader and a writer.
#[derive(Clone, Copy)]
enum Call {
    Replay,
    Check,
}

/// What the call returns.
fn answer_of<I: Read, W: Write>(
    alloc: Global,
    call: Call,
    reader: &mut I,
    writer: &mut W,
) -> Result<u8, RunFault> {
    match call {
        Call::Replay => replay(alloc, reader, writer),
        Call::Check => check(alloc, reader, writer),
    }
}

/// Makes the call with a reader that fails at this read.
fn fails_at_a_read<R: Abort>(rt: &R, alloc: Global, call: Call, input: &[u8], fails_at: usize) {
    let mut reader = SlowReader::new(input, fails_at);
    let mut written = Vec::new(alloc);
    let answer = answer_of(alloc, call, &mut reader, &mut written);
    is(rt, "the answer", answer, Err(RunFault::Read));
    is(rt, "how much is written", written.len(), 0);
}

/// Makes the call with a writer that fails after this part of what must be written, in each way.
fn fails_at_a_write<R: Abort>(rt: &R, alloc: Global, call: Call, input: &[u8], part: &[u8]) {
    for failure in FAILURES {
        let mut reader = input;
        let mut writer = NarrowWriter::new(alloc, part.len(), failure);
        let answer = answer_of(alloc, call, &mut reader, &mut writer);
        is(rt, "the answer", answer, Err(RunFault::Write));
        is(rt, "what is written", writer.taken.as_slice(), part);
    }
}

/// Fails each read and each write of the call in turn; otherwise it returns this status.
fn fail_call<R: Abort>(
    rt: &R,
    alloc: Global,
    call: Call,
    input: &str,
    status: u8,
) -> Result<(), Fail> {
    let input = in_lines(alloc, input)?;
    let mut reader = SlowReader::new(input.as_slice(), usize::MAX);
    let mut whole = Vec::new(alloc);
    let answer = answer_of(alloc, call, &mut reader, &mut whole);
    is(rt, "the answer", answer, Ok(status));
    for fails_at in 0..=input.len() {
        fails_at_a_read(rt, alloc, call, input.as_slice(), fails_at);
    }
    for (place, _) in whole.iter().enumerate() {
        let part = whole.as_slice().get(..place).unwrap_or(b"");
        fails_at_a_write(rt, alloc, call, input.as_slice(), part);
    }
    Ok(())
}

/// Fails each read and each write of both calls in turn.
fn fail_calls<R: Abort>(rt: &R, alloc: Global) -> Result<(), Fail> {
    let moves = "behaviours 3;0 create;0 start 1 1;0 start 1 2;1 getverdict;";
    fail_call(rt, alloc, Call::Replay, moves, 2)?;
    let history =
        "history 1 t 1;0 create -> made 1;0 stop 1 -> ok;0 alive 1 -> true;0 wait done 1 -> matched;end none;";
    fail_call(rt, alloc, Call::Check, history, 3)
}

/// The one call of a test case.
fn finish() -> Entry {
    Entry {
        caller: Run(0),
        op: Op::Finish,
        reply: Reply::Ok,
    }
}

/// The report of a test case in which nothing was done.
fn report_of_nothing(alloc: Global) -> Result<Closed, Fail> {
    let log = RunLog {
        run: Run(0),
        comp: Comp(0),
        entries: Sequence::new(vec![in alloc; finish()]?),
    };
    Ok(Closed {
        behaviours: 1,
        history: Sequence::new(vec![in alloc; finish()]?),
        logs: Sequence::new(vec![in alloc; log]?),
        locals: Sequence::new(vec![in alloc; Verdict::None]?),
        verdict: Verdict::None,
    })
}

/// The test case b.
fn finished(alloc: Global) -> Result<Finished, Fail> {
    Ok(Finished {
        name: Name::read("b").ok_or("a name")?,
        names: Sequence::new(vec![in alloc; Name::read("main").ok_or("a name")?]?),
        report: report_of_nothing(alloc)?,
    })
}

/// The results of a campaign that was aborted at the test case a, after the test case b.
fn aborted(alloc: Global) -> Result<Results, Fail> {
    let name = Name::read("a").ok_or("a name")?;
    Ok(Results {
        finished: Sequence::new(vec![in alloc; finished(alloc)?]?),
        ending: CampaignEnd::Aborted {
            name,
            why: CaseError::NoThread,
        },
    })
}

/// Gives the results to a writer that fails after this part of their text, in each way.
fn fails_to_give<R: Abort>(rt: &R, alloc: Global, results: &Results, form: &Form, part: &[u8]) {
    for failure in FAILURES {
        let mut writer = NarrowWriter::new(alloc, part.len(), failure);
        let given = give(alloc, results, form, &mut writer);
        is(rt, "the answer", given, Err(RunFault::Write));
        is(rt, "what is given", writer.taken.as_slice(), part);
    }
}

/// Gives the results in this form, with each write failing in turn.
fn give_each<R: Abort>(rt: &R, alloc: Global, results: &Results, form: &Form, starts: &str) {
    let mut whole = Vec::new(alloc);
    is(
        rt,
        "the answer",
        give(alloc, results, form, &mut whole),
        Ok(3),
    );
    let is_begun = whole.as_slice().starts_with(starts.as_bytes());
    holds(rt, starts, is_begun);
    for (place, _) in whole.iter().enumerate() {
        let part = whole.as_slice().get(..place).unwrap_or(b"");
        fails_to_give(rt, alloc, results, form, part);
    }
}

/// Gives the results in each form, with each write failing in turn.
fn give_all<R: Abort>(rt: &R, alloc: Global, results: &Results) {
    let text =
        "testcase b\nrun 0 main on 0\n  finish -> ok\nlocal 0 none\nverdict none\ncases 1 none 1 pass 0 inconc 0 fail 0 error 0\naborted at a: no thread\n";
    give_each(rt, alloc, results, &Form::Text, text);
    let csv = "testcase,components,none,pass,inconc,fail,error,verdict\nb,1,1,0,0,0,0,none\n";
    give_each(rt, alloc, results, &Form::Csv, csv);
    let history = "history 2 b 1\n0 finish -> ok\nend none\n";
    give_each(rt, alloc, results, &Form::History, history);
    let evidence = "evidence 1 b 1\nbehaviour 0 main\n0 finish -> ok\nend none\n";
    give_each(rt, alloc, results, &Form::Evidence, evidence);
    let junit = "<?xml version=\"1.0\" encoding=\"UTF-8\"?>\n";
    give_each(rt, alloc, results, &Form::Junit(None), junit);
}

/// Fails each read and each write of each task in turn; how many there were.
fn fail_tasks<R: Abort + Threads + Wait + Clock + Copy + Send + 'static>(
    rt: &R,
    alloc: Global,
) -> Result<usize, Fail> {
    let mut failed = 0usize;
    for row in TASKS.lines() {
        let (given, status) = row.split_once(" => ").ok_or("a status")?;
        let status = status.parse::<u8>()?;
        failed = failed.saturating_add(fail_task(rt, alloc, given, status)?);
    }
    Ok(failed)
}

#[test]
fn failing_devices(rt: HostRuntime) -> Result<(), Fail> {
    let failed = fail_tasks(&rt, rt.alloc())?;
    holds(&rt, "more than 1000 failed", failed > 1_000);
    fail_calls(&rt, rt.alloc())?;
    let results = aborted(rt.alloc())?;
    give_all(&rt, rt.alloc(), &results);
    Ok(())
}

/// Carries out a refused task if standard error fails after this part of its line, or not at all.
fn tells_up_to<R: Abort + Threads + Wait + Clock + Copy + Send + 'static>(
    rt: &R,
    alloc: Global,
    task: &Task,
    part: &[u8],
    wanted: Result<(), RunFault>,
) {
    let mut reader = b"behaviours 0\n".as_slice();
    let mut written = Vec::new(alloc);
    let mut errors = NarrowWriter::new(alloc, part.len(), WriteFailure::Broken);
    let outcome = carry_out(rt, alloc, task, &mut reader, &mut written, &mut errors);
    is(rt, "the status", outcome.status, 3);
    is(rt, "whether all is told", outcome.told, wanted);
    is(rt, "what is told", errors.taken.as_slice(), part);
    is(rt, "how much is written", written.len(), 0);
}

#[test]
fn standard_error_that_fails(rt: HostRuntime) -> Result<(), Fail> {
    let task = task_of(rt.alloc(), "ttrun replay")?;
    let line = b"ttrun: line 1: bad first line\n".as_slice();
    for fails_at in 0..line.len() {
        let part = line.get(..fails_at).ok_or("a prefix")?;
        tells_up_to(&rt, rt.alloc(), &task, part, Err(RunFault::Write));
    }
    tells_up_to(&rt, rt.alloc(), &task, line, Ok(()));
    Ok(())
}

/// Asks for the help if the writer fails at this write.
fn is_not_written<R: Abort + Threads + Wait + Clock + Copy + Send + 'static>(
    rt: &R,
    alloc: Global,
    fails_at: usize,
) -> Result<(), Fail> {
    let words = words_of(alloc, "ttrun --help")?;
    let mut reader = SlowReader::new(b"", 0);
    let mut writer = NarrowWriter::new(alloc, fails_at, WriteFailure::Full);
    let mut told = Vec::new(alloc);
    let outcome = answer(rt, alloc, Ok(words), &mut reader, &mut writer, &mut told);
    ends(rt, &outcome, 3, told.as_slice(), "ttrun: write fault\n");
    is(rt, "how much is written", writer.taken.len(), fails_at);
    is(rt, "how many reads there were", reader.reads, 0);
    Ok(())
}

#[test]
fn help_that_is_not_written(rt: HostRuntime) -> Result<(), Fail> {
    for fails_at in 0..9 {
        is_not_written(&rt, rt.alloc(), fails_at)?;
    }
    Ok(())
}

/// The number of bytes of the next read into one byte, and that byte.
fn next_byte<I: Read>(input: &mut I) -> io::Result<(usize, u8)> {
    let mut byte = [0u8; 1];
    let count = input.read(&mut byte)?;
    Ok((count, byte[0]))
}

/// Checks that the line is printed before the first read, up to this write, and not again.
fn is_told_once<R: Abort>(
    rt: &R,
    alloc: Global,
    line: &'static str,
    fails_at: usize,
) -> Result<(), Fail> {
    let mut input = Announcing {
        reader: SlowReader::new(b"ab", usize::MAX),
        errors: NarrowWriter::new(alloc, fails_at, WriteFailure::Broken),
        line: Some(line),
    };
    is(rt, "how much is told", input.errors.taken.len(), 0);
    is(rt, "the first read", next_byte(&mut input)?, (1, b'a'));
    let told = fails_at.min(line.len());
    let taken = Some(input.errors.taken.as_slice());
    is(rt, "the line", taken, line.as_bytes().get(..told));
    is(rt, "the second read", next_byte(&mut input)?.0, 1);
    is(rt, "the third read", next_byte(&mut input)?.0, 0);
    is(rt, "what is told", input.errors.taken.len(), told);
    Ok(())
}

#[test]
fn the_line_stands_before_the_first_read_alone(rt: HostRuntime) -> Result<(), Fail> {
    for fails_at in [0, 7, usize::MAX] {
        is_told_once(&rt, rt.alloc(), awaited_line(None), fails_at)?;
    }
    Ok(())
}

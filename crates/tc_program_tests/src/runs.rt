//! Worked rows of the whole program: the words and the input of each, what is written, the status, and what is printed.
//! A `;` represents the end of a line.
use crate::calls::{answer, carry_out, in_lines, task_of, words_of};
use crate::checks::{holds, is};
use std::alloc::Global;
use std::process::Abort;
use std::sync::Wait;
use std::test::Fail;
use std::thread::Threads;
use std::time::Clock;
use std::{io, str};
use tc_program::{RunFault, check, stop_word};
use tc_stream::devices::SlowReader;
use tc_verdict::Verdict;

/// Appends what is written, the status and what is printed; how many reads there were.
fn show<R: Threads + Wait + Clock + Copy + Send + 'static>(
    rt: &R,
    alloc: Global,
    words: io::Result<Vec<String>>,
    input: &[u8],
    out: &mut Vec<u8>,
) -> Result<usize, Fail> {
    let mut reader = SlowReader::new(input, usize::MAX);
    let mut told = Vec::new(alloc);
    let outcome = answer(rt, alloc, words, &mut reader, out, &mut told);
    outcome.told?;
    out.push(b'0'.saturating_add(outcome.status))?;
    out.extend_from_slice(told.as_slice())?;
    Ok(reader.reads)
}

/// Checks what comes of the arguments and the input, which is read if the row is not refused for its arguments.
fn is_shown<R: Abort + Threads + Wait + Clock + Copy + Send + 'static>(
    rt: &R,
    alloc: Global,
    words: io::Result<Vec<String>>,
    input: &[u8],
    wanted: &str,
) -> Result<(), Fail> {
    let mut out = Vec::new(alloc);
    let reads = show(rt, alloc, words, input, &mut out)?;
    let whole = in_lines(alloc, wanted)?;
    is(rt, wanted, out.as_slice(), whole.as_slice());
    is(rt, wanted, reads == 0, wanted.starts_with("3"));
    Ok(())
}

fn is_row<R: Abort + Threads + Wait + Clock + Copy + Send + 'static>(
    rt: &R,
    alloc: Global,
    row: &str,
) -> Result<(), Fail> {
    let (given, wanted) = row.split_once(" => ").ok_or("a row")?;
    let (line, input) = given.split_once(" < ").ok_or("an input")?;
    let words = words_of(alloc, line)?;
    let input = in_lines(alloc, input)?;
    is_shown(rt, alloc, Ok(words), input.as_slice(), wanted)
}

pub(crate) const STORED: &str =
    "# two test cases;testcase t_pass;behaviour main;  create p;  start p worker mtc;  wait done p;  getverdict;end;behaviour worker boss;  alive boss;  setverdict pass;end;end;testcase t_again;behaviour main;  create p alive;  start p first;  wait done p;  start p second p;  wait done p;  kill all;  killed all;end;behaviour first;  setverdict pass;end;behaviour second me;  getverdict;  setverdict none;  running me;end;end;";

const STORED_REPORT: &str =
    "testcase t_pass;run 0 main on 0;  create -> made 1;  start 1 1 0 -> ok;  wait done 1 -> matched;  getverdict -> none;  finish -> ok;run 1 worker on 1;  alive 0 -> true;  setverdict pass -> ok;  finish -> ok;local 0 none;local 1 pass;verdict pass;testcase t_again;run 0 main on 0;  create alive -> made 1;  start 1 1 -> ok;  wait done 1 -> matched;  start 1 2 1 -> ok;  wait done 1 -> matched;  kill all -> ok;  killed all -> true;  finish -> ok;run 1 first on 1;  setverdict pass -> ok;  finish -> ok;run 2 second on 1;  getverdict -> pass;  setverdict none -> ok;  running 1 -> true;  finish -> ok;local 0 none;local 1 pass;verdict pass;cases 2 none 0 pass 2 inconc 0 fail 0 error 0;complete;0";

#[test]
fn stored_run(rt: HostRuntime) -> Result<(), Fail> {
    let words = words_of(rt.alloc(), "ttrun")?;
    let input = in_lines(rt.alloc(), STORED)?;
    is_shown(&rt, rt.alloc(), Ok(words), input.as_slice(), STORED_REPORT)
}

#[test]
fn campaign_stops_on_fail(rt: HostRuntime) -> Result<(), Fail> {
    let row =
        "ttrun run --csv --stop-on fail < testcase a;behaviour main;setverdict pass;end;end;testcase b;behaviour main;setverdict fail;end;end;testcase c;behaviour main;setverdict pass;end;end; => testcase,components,none,pass,inconc,fail,error,verdict;a,1,0,1,0,0,0,pass;b,1,0,0,0,1,0,fail;1";
    is_row(&rt, rt.alloc(), row)
}

#[test]
fn history_of_a_stuck_case(rt: HostRuntime) -> Result<(), Fail> {
    let row =
        "ttrun run --history < testcase solo;behaviour main;create p;setverdict pass;wait done p;end;end; => history 2 solo 1;0 create -> made 1;0 setverdict pass -> ok;0 wait done 1 -> parked;0 wake done 1 -> error stuck;end error;2";
    is_row(&rt, rt.alloc(), row)?;
    let row =
        "ttrun run --evidence < testcase solo;behaviour main;create p;setverdict pass;wait done p;end;end; => evidence 1 solo 1;behaviour 0 main;0 create -> made 1;0 setverdict pass -> ok;0 wait done 1 -> parked;0 wake done 1 -> error stuck;end error;2";
    is_row(&rt, rt.alloc(), row)?;
    let row =
        "ttrun check < history 2 solo 1;0 create -> made 1;0 setverdict pass -> ok;0 wait done 1 -> parked;0 wake done 1 -> error stuck;end error; => legal solo 4 error;0";
    is_row(&rt, rt.alloc(), row)
}

#[test]
fn restarted_component_report(rt: HostRuntime) -> Result<(), Fail> {
    let row =
        "ttrun run < testcase t_fail;behaviour main;create p alive;start p first;wait done p;start p second;wait done p;setverdict pass;end;behaviour first;setverdict fail;end;behaviour second;getverdict;setverdict pass;end;end; => testcase t_fail;run 0 main on 0;  create alive -> made 1;  start 1 1 -> ok;  wait done 1 -> matched;  start 1 2 -> ok;  wait done 1 -> matched;  setverdict pass -> ok;  finish -> ok;run 1 first on 1;  setverdict fail -> ok;  finish -> ok;run 2 second on 1;  getverdict -> fail;  setverdict pass -> ok;  finish -> ok;local 0 pass;local 1 fail;verdict fail;cases 1 none 0 pass 0 inconc 0 fail 1 error 0;complete;1";
    is_row(&rt, rt.alloc(), row)
}

#[test]
fn words_of_stop_on(rt: HostRuntime) -> Result<(), Fail> {
    let error = Ok(Verdict::Error);
    is(&rt, "the verdict error", stop_word("error"), error);
    for word in ["maybe", "Fail", ""] {
        is(&rt, word, stop_word(word), Err(RunFault::StopOn));
    }
    let row =
        "ttrun run --stop-on maybe < testcase a; => 3ttrun: --stop-on takes none, pass, inconc, fail or error;";
    is_row(&rt, rt.alloc(), row)
}

#[test]
fn stop_of_a_case(rt: HostRuntime) -> Result<(), Fail> {
    let row =
        "ttrun run < testcase s;behaviour main;stopcase;setverdict pass;end;end; => testcase s;run 0 main on 0;  stopcase -> ok;local 0 error;verdict error;cases 1 none 0 pass 0 inconc 0 fail 0 error 1;complete;2";
    is_row(&rt, rt.alloc(), row)
}

#[test]
fn components_with_names(rt: HostRuntime) -> Result<(), Fail> {
    let row =
        "ttrun run < testcase n;behaviour main;create p named pump;end;end; => testcase n;run 0 main on 0;  create named pump -> made 1;  finish -> ok;local 0 none;local 1 none;verdict none;cases 1 none 1 pass 0 inconc 0 fail 0 error 0;complete;0";
    is_row(&rt, rt.alloc(), row)
}

#[test]
fn lines_that_are_served(rt: HostRuntime) -> Result<(), Fail> {
    let rows = "\
ttrun serve < case t 1;0 setverdict fail;0 finish;end; => evidence 1 t 1;0 setverdict fail -> ok;0 finish -> ok;end fail;1
ttrun serve < case t 1;fly;0 fly;0 finish;end; => evidence 1 t 1;0 ! bad line;0 finish -> ok;end none;3ttrun: line 2: bad line;
ttrun serve < case t 1;0 stopcase; => evidence 1 t 1;0 stopcase -> ok;end error;2ttrun: the input ended inside a test case;
ttrun serve < case t 1;0 finish;end;0 finish;case u 1; => evidence 1 t 1;0 finish -> ok;end none;3ttrun: line 4: no test case is open;
ttrun serve <  => 0";
    for row in rows.lines() {
        is_row(&rt, rt.alloc(), row)?;
    }
    Ok(())
}

// If memory runs out for the words nothing is read.
#[test]
fn words_without_memory(rt: HostRuntime) -> Result<(), Fail> {
    let words = Err(io::Error::from(io::ErrorKind::OutOfMemory));
    is_shown(&rt, rt.alloc(), words, b"x\n", "3ttrun: no memory;")
}

/// What a task writes on this input, which has the status 0.
fn written<R: Abort + Threads + Wait + Clock + Copy + Send + 'static>(
    rt: &R,
    alloc: Global,
    line: &str,
    input: &[u8],
) -> Result<Vec<u8>, Fail> {
    let task = task_of(alloc, line)?;
    let mut reader = input;
    let mut written = Vec::new(alloc);
    let mut told = Vec::new(alloc);
    let outcome = carry_out(rt, alloc, &task, &mut reader, &mut written, &mut told);
    outcome.told?;
    is(rt, line, outcome.status, 0);
    Ok(written)
}

/// Checks the lines of the two histories.
fn are_legal<R: Abort>(rt: &R, text: &str) {
    let mut lines = text.lines();
    for start in ["legal t_pass ", "legal t_again "] {
        let line = lines.next().unwrap_or("");
        holds(rt, text, line.starts_with(start));
        holds(rt, text, line.ends_with(" pass"));
    }
    is(rt, text, lines.next(), None);
}

/// Checks that these are the blocks of two test cases that pass, and are legal.
fn are_checked<R: Abort>(rt: &R, alloc: Global, blocks: &[u8]) -> Result<(), Fail> {
    let mut reader = blocks;
    let mut lines = Vec::new(alloc);
    let answer = check(alloc, &mut reader, &mut lines);
    is(rt, "the answer", answer, Ok(0));
    are_legal(rt, str::from_utf8(lines.as_slice())?);
    Ok(())
}

/// Checks how the blocks of the stored run begin that a task writes, and that they are legal.
fn are_written<R: Abort + Threads + Wait + Clock + Copy + Send + 'static>(
    rt: &R,
    alloc: Global,
    line: &str,
    start: &str,
) -> Result<(), Fail> {
    let input = in_lines(alloc, STORED)?;
    let blocks = written(rt, alloc, line, input.as_slice())?;
    holds(rt, start, blocks.as_slice().starts_with(start.as_bytes()));
    are_checked(rt, alloc, blocks.as_slice())
}

#[test]
fn histories_refused_and_checked(rt: HostRuntime) -> Result<(), Fail> {
    let history = "history 2 t_pass 2\n0 create ";
    are_written(&rt, rt.alloc(), "ttrun run --history", history)?;
    let evidence = "evidence 1 t_pass 2\nbehaviour 0 main\nbehaviour 1 worker\n0 create ";
    are_written(&rt, rt.alloc(), "ttrun run --evidence", evidence)
}

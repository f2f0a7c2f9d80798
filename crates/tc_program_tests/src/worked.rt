//! Worked rows of lists of moves, histories and scripts that are read. In each a `;` represents the end of a line.
//! After what is written comes the status; a row that is refused has only its line.
use crate::calls::{in_lines, replay};
use crate::checks::{holds, is};
use crate::runs::STORED;
use std::alloc::{AllocError, Global};
use std::process::Abort;
use std::test::Fail;
use tc_program::{RunFault, check, fault_line, take_script};
use tc_stream::devices::SlowReader;

/// What a row is given to.
#[derive(Clone, Copy)]
enum Call {
    Replay,
    Check,
    TakeScript,
}

fn check_text(alloc: Global, input: &[u8], out: &mut Vec<u8>) -> Result<u8, RunFault> {
    let mut reader = input;
    check(alloc, &mut reader, out)
}

/// The status of a script that is taken is 0.
fn read_script(alloc: Global, input: &[u8]) -> Result<u8, RunFault> {
    let mut reader = input;
    match take_script(alloc, &mut reader) {
        Ok(_) => Ok(0),
        Err(fault) => Err(fault),
    }
}

fn answer(alloc: Global, call: Call, input: &[u8], out: &mut Vec<u8>) -> Result<u8, RunFault> {
    match call {
        Call::Replay => replay(alloc, input, out),
        Call::Check => check_text(alloc, input, out),
        Call::TakeScript => read_script(alloc, input),
    }
}

fn append_fault(out: &mut Vec<u8>, fault: &RunFault) -> Result<(), Fail> {
    Ok(fault_line(fault, out)?)
}

/// Appends what comes of the input.
fn show(alloc: Global, call: Call, input: &[u8], out: &mut Vec<u8>) -> Result<(), Fail> {
    match answer(alloc, call, input, out) {
        Ok(status) => Ok(out.push(b'0'.saturating_add(status))?),
        Err(fault) => append_fault(out, &fault),
    }
}

fn shown(alloc: Global, call: Call, input: &str) -> Result<Vec<u8>, Fail> {
    let input = in_lines(alloc, input)?;
    let mut out = Vec::new(alloc);
    show(alloc, call, input.as_slice(), &mut out)?;
    Ok(out)
}

fn is_row(rt: &impl Abort, alloc: Global, call: Call, row: &str) -> Result<(), Fail> {
    let (input, wanted) = row.split_once(" => ").ok_or("a row")?;
    let out = shown(alloc, call, input)?;
    let wanted = in_lines(alloc, wanted)?;
    is(rt, row, out.as_slice(), wanted.as_slice());
    Ok(())
}

fn are_rows(rt: &impl Abort, alloc: Global, call: Call, rows: &str) -> Result<(), Fail> {
    for row in rows.lines() {
        is_row(rt, alloc, call, row)?;
    }
    Ok(())
}

#[test]
fn no_moves(rt: HostRuntime) -> Result<(), Fail> {
    let row = "behaviours 1; => verdict none;0";
    are_rows(&rt, rt.alloc(), Call::Replay, row)
}

#[test]
fn inconc_stays(rt: HostRuntime) -> Result<(), Fail> {
    let row =
        "behaviours 1;0 setverdict inconc;0 setverdict pass;0 getverdict; => ok;ok;inconc;verdict inconc;1";
    are_rows(&rt, rt.alloc(), Call::Replay, row)
}

#[test]
fn start_of_a_running_component(rt: HostRuntime) -> Result<(), Fail> {
    let row =
        "behaviours 3;0 create;0 start 1 1;0 start 1 2;1 getverdict; => made 1;ok;error already-running;ended;verdict error;2";
    are_rows(&rt, rt.alloc(), Call::Replay, row)
}

#[test]
fn restart_keeps_fail(rt: HostRuntime) -> Result<(), Fail> {
    let row =
        "behaviours 3;0 create alive;0 start 1 1;1 setverdict fail;1 finish;0 start 1 2;2 getverdict; => made 1;ok;ok;ok;ok;fail;verdict fail;1";
    are_rows(&rt, rt.alloc(), Call::Replay, row)
}

#[test]
fn stopped_ordinary_is_killed(rt: HostRuntime) -> Result<(), Fail> {
    let row =
        "behaviours 3;0 create;0 start 1 1;0 stop 1;0 killed 1;0 start 1 2; => made 1;ok;ok;true;error not-startable;verdict error;2";
    are_rows(&rt, rt.alloc(), Call::Replay, row)
}

#[test]
fn done_of_groups(rt: HostRuntime) -> Result<(), Fail> {
    let row =
        "behaviours 1;0 done all;0 create;0 done all;0 done any; => true;made 1;true;false;verdict none;0";
    are_rows(&rt, rt.alloc(), Call::Replay, row)
}

#[test]
fn ptc_asks_of_any(rt: HostRuntime) -> Result<(), Fail> {
    let row =
        "behaviours 2;0 create;0 start 1 1;1 running any; => made 1;ok;error not-main;verdict error;2";
    are_rows(&rt, rt.alloc(), Call::Replay, row)
}

#[test]
fn stop_and_kill_of_an_inactive_component(rt: HostRuntime) -> Result<(), Fail> {
    let row =
        "behaviours 1;0 create;0 stop 1;0 alive 1;0 kill 1;0 done 1; => made 1;ok;true;ok;true;verdict none;0";
    are_rows(&rt, rt.alloc(), Call::Replay, row)
}

#[test]
fn stopped_by_another_is_excused(rt: HostRuntime) -> Result<(), Fail> {
    let row =
        "behaviours 3;0 create;0 create;0 start 1 1;0 start 2 2;0 stop 1;0 running all;2 finish;0 running all; => made 1;made 2;ok;ok;ok;true;ok;false;verdict none;0";
    are_rows(&rt, rt.alloc(), Call::Replay, row)
}

#[test]
fn waiting_alone_is_stuck(rt: HostRuntime) -> Result<(), Fail> {
    let row =
        "behaviours 1;0 create;0 wait done 1;0 wake done 1; => made 1;parked;error stuck;verdict error;2";
    are_rows(&rt, rt.alloc(), Call::Replay, row)
}

#[test]
fn a_ptc_stops_the_main(rt: HostRuntime) -> Result<(), Fail> {
    let row =
        "behaviours 2;0 create;0 start 1 1;1 setverdict pass;1 stop 0;0 getverdict;1 getverdict; => made 1;ok;ok;ok;ended;ended;verdict pass;0";
    are_rows(&rt, rt.alloc(), Call::Replay, row)
}

/// Appends the moves that make one component more than there may be.
fn append_creates(input: &mut String) -> Result<(), AllocError> {
    input.push_str("behaviours 1;")?;
    for _ in 0..1000 {
        input.push_str("0 create;")?;
    }
    Ok(())
}

/// Appends the replies to them.
fn append_made(wanted: &mut String) -> Result<(), AllocError> {
    for number in 1..1000 {
        write!(wanted, "made {number}\n")?;
    }
    wanted.push_str("error too-many\nverdict error\n2")
}

#[test]
fn a_thousand_components(rt: HostRuntime) -> Result<(), Fail> {
    let mut input = String::new(rt.alloc());
    append_creates(&mut input)?;
    let mut wanted = String::new(rt.alloc());
    append_made(&mut wanted)?;
    let out = shown(rt.alloc(), Call::Replay, input.as_str())?;
    is(&rt, "the replies", out.as_slice(), wanted.as_bytes());
    Ok(())
}

#[test]
fn faults_of_a_start(rt: HostRuntime) -> Result<(), Fail> {
    let rows = "\
behaviours 2;0 create;0 start 1 1 7; => made 1;error no-component;verdict error;2
behaviours 2;0 start 0 1; => error start-main;verdict error;2
behaviours 2;0 create;0 start 1 0; => made 1;error no-behaviour;verdict error;2
behaviours 2;0 create;0 start 1 2; => made 1;error no-behaviour;verdict error;2
behaviours 2;0 create;0 create;0 start 1 1;0 start 2 1; => made 1;made 2;ok;error no-behaviour;verdict error;2";
    are_rows(&rt, rt.alloc(), Call::Replay, rows)
}

#[test]
fn refused_move_lists(rt: HostRuntime) -> Result<(), Fail> {
    let rows = "\
behaviours 0; => ttrun: line 1: bad first line;
behaviours 1;0 setverdict error; => ttrun: line 2: bad move;
behaviours 1;0  getverdict; => ttrun: line 2: bad move;
 => ttrun: line 1: text ends too early;";
    are_rows(&rt, rt.alloc(), Call::Replay, rows)
}

#[test]
fn settings_of_the_main(rt: HostRuntime) -> Result<(), Fail> {
    let row =
        "behaviours 1;0 create;0 setverdict pass;0 setverdict none;0 getverdict;0 finish;0 getverdict; => made 1;ok;ok;pass;ok;ended;verdict pass;0";
    are_rows(&rt, rt.alloc(), Call::Replay, row)
}

#[test]
fn order_of_faults(rt: HostRuntime) -> Result<(), Fail> {
    let row =
        "behaviours 2;0 create;0 start 1 1;0 start 1 9; => made 1;ok;error already-running;verdict error;2";
    are_rows(&rt, rt.alloc(), Call::Replay, row)
}

#[test]
fn status_of_a_restarted_component(rt: HostRuntime) -> Result<(), Fail> {
    let row =
        "behaviours 3;0 create alive;0 start 1 1;1 finish;0 done 1;0 start 1 2;0 done 1;0 running 1;0 alive 1; => made 1;ok;ok;true;ok;false;true;true;verdict none;0";
    are_rows(&rt, rt.alloc(), Call::Replay, row)
}

#[test]
fn two_waits_are_stuck(rt: HostRuntime) -> Result<(), Fail> {
    let row =
        "behaviours 2;0 create;0 start 1 1;0 wait done 1;1 wait killed 1;1 wake killed 1;0 wake done 1; => made 1;ok;parked;parked;parked;error stuck;verdict error;2";
    are_rows(&rt, rt.alloc(), Call::Replay, row)
}

#[test]
fn a_finish_wakes(rt: HostRuntime) -> Result<(), Fail> {
    let row =
        "behaviours 2;0 create;0 start 1 1;0 wait done 1;0 wake done 1;1 finish;0 wake done 1; => made 1;ok;parked;parked;ok;matched;verdict none;0";
    are_rows(&rt, rt.alloc(), Call::Replay, row)
}

#[test]
fn groups_of_two(rt: HostRuntime) -> Result<(), Fail> {
    let row =
        "behaviours 3;0 create;0 create alive;0 start 2 1;0 killed any;0 stop all;0 done any;0 killed all;0 alive all;0 kill all;0 killed all;0 alive any; => made 1;made 2;ok;false;ok;true;false;true;ok;true;false;verdict none;0";
    are_rows(&rt, rt.alloc(), Call::Replay, row)
}

#[test]
fn stop_of_a_case(rt: HostRuntime) -> Result<(), Fail> {
    let rows = "\
behaviours 2;0 create;0 start 1 1;1 setverdict pass;1 stopcase;0 getverdict; => made 1;ok;ok;ok;ended;verdict error;2
behaviours 1;0 stopcase;0 getverdict; => ok;ended;verdict error;2
behaviours 2;1 stopcase; => ended;verdict none;0";
    are_rows(&rt, rt.alloc(), Call::Replay, rows)
}

#[test]
fn many_behaviours(rt: HostRuntime) -> Result<(), Fail> {
    let rows = "\
behaviours 256;0 create named pump;0 create alive named pump;0 start 1 255;255 setverdict pass; => made 1;made 2;ok;ok;verdict pass;0
behaviours 257; => ttrun: line 1: bad first line;
behaviours 256;0 create named mtc; => ttrun: line 2: bad move;";
    are_rows(&rt, rt.alloc(), Call::Replay, rows)
}

#[test]
fn check_of_histories(rt: HostRuntime) -> Result<(), Fail> {
    let rows = "\
history 1 t 1;0 create -> made 1;0 stop 1 -> ok;0 alive 1 -> true;0 wait done 1 -> matched;end none; => line 5: matched, table gives parked;3
history 1 t 1;0 create -> made 1;0 stop 1 -> ok;0 alive 1 -> true;0 wait done 1 -> parked;end none; => legal t 4 none;0
history 1 t 1;0 create -> made 1;0 stop 1 -> ok;0 alive 1 -> true;0 wait done 1 -> parked;end pass; => line 6: pass, table gives none;3";
    are_rows(&rt, rt.alloc(), Call::Check, rows)
}

#[test]
fn histories_refused_and_checked(rt: HostRuntime) -> Result<(), Fail> {
    let rows = "\
history 1 t 0; => ttrun: line 1: bad first line;
history 1 t 1;0 create -> made 01;end none; => ttrun: line 2: bad entry;
history 1 t 1;0 create -> made 1; => ttrun: line 3: text ends too early;
 => ttrun: line 1: text ends too early;
history 2 t 1;end none; => legal t 0 none;0";
    are_rows(&rt, rt.alloc(), Call::Check, rows)
}

#[test]
fn two_history_formats(rt: HostRuntime) -> Result<(), Fail> {
    let rows = "\
history 1 a 1;0 create -> made 1;end none;history 2 b 1;0 create named pump -> made 1;end none; => legal a 1 none;legal b 1 none;0
history 1 a 1;0 create -> made 1;end none;history 1 b 1;0 create named pump -> made 1;end none; => ttrun: line 5: bad entry;";
    are_rows(&rt, rt.alloc(), Call::Check, rows)
}

#[test]
fn refused_scripts(rt: HostRuntime) -> Result<(), Fail> {
    let rows = "\
testcase t;behaviour main;create p;start q worker;end;behaviour worker;end;end; => ttrun: line 4: unbound reference;
testcase t;behaviour main;create p;start p worker mtc;end;behaviour worker;end;end; => ttrun: line 4: wrong number of arguments;
testcase t;behaviour main;setver => ttrun: line 3: line not understood;
testcase t;behaviour main;setverdict pass; => ttrun: line 4: text ends too early;
 => ttrun: line 1: text ends too early;";
    are_rows(&rt, rt.alloc(), Call::TakeScript, rows)
}

/// What comes of the stored script after a comment, of that many bytes together.
fn taken(alloc: Global, length: usize) -> Result<Vec<u8>, Fail> {
    let script = in_lines(alloc, STORED)?;
    let comment = length.checked_sub(script.len() + 1).ok_or("a length")?;
    let mut input = Vec::from_elem(alloc, b'#', comment)?;
    input.push(b'\n')?;
    input.extend_from_slice(script.as_slice())?;
    let mut out = Vec::new(alloc);
    show(alloc, Call::TakeScript, input.as_slice(), &mut out)?;
    Ok(out)
}

/// Why no script is taken of a reader that gives a byte at each read.
fn refusal_of(alloc: Global, reader: &mut SlowReader) -> Option<RunFault> {
    take_script(alloc, reader).err()
}

#[test]
fn longest_script(rt: HostRuntime) -> Result<(), Fail> {
    let most = taken(rt.alloc(), 1_048_576)?;
    is(&rt, "the longest", most.as_slice(), b"0".as_slice());
    let more = taken(rt.alloc(), 1_048_577)?;
    let wanted = b"ttrun: input too long\n".as_slice();
    is(&rt, "a byte more", more.as_slice(), wanted);
    let endless = Vec::from_elem(rt.alloc(), b'#', 2_097_152)?;
    let mut reader = SlowReader::new(endless.as_slice(), usize::MAX);
    let refused = refusal_of(rt.alloc(), &mut reader);
    is(&rt, "an endless one", refused, Some(RunFault::TooLong));
    is(&rt, "the reads", reader.reads, 1_048_577);
    Ok(())
}

/// Checks the line of a fault and its text, which is the line without its beginning and its end.
fn is_told<R: Abort>(rt: &R, alloc: Global, fault: &RunFault, text: &str) -> Result<(), Fail> {
    let mut line = Vec::new(alloc);
    fault_line(fault, &mut line)?;
    let wanted = format!(in alloc; "ttrun: {text}\n")?;
    is(rt, text, line.as_slice(), wanted.as_bytes());
    is(rt, text, fault.to_string(alloc)?.as_str(), text);
    Ok(())
}

#[test]
fn lines_of_faults(rt: HostRuntime) -> Result<(), Fail> {
    let alloc = rt.alloc();
    is_told(&rt, alloc, &RunFault::TooLong, "input too long")?;
    is_told(&rt, alloc, &RunFault::Read, "read fault")?;
    is_told(&rt, alloc, &RunFault::Write, "write fault")?;
    is_told(&rt, alloc, &RunFault::NoMemory, "no memory")?;
    let stop = "--stop-on takes none, pass, inconc, fail or error";
    is_told(&rt, alloc, &RunFault::StopOn, stop)?;
    let only = "--only takes the name of one of the test cases";
    is_told(&rt, alloc, &RunFault::Only, only)
}

/// How many inputs were answered, and how many were refused.
#[derive(Default, Drop)]
struct Tried {
    answered: usize,
    refused: usize,
}

/// Takes in what came of an input, which is answered or none of a list of moves.
fn take_in<R: Abort>(rt: &R, tried: &mut Tried, answer: Result<u8, RunFault>, written: &[u8]) {
    match answer {
        Ok(status) => {
            holds(rt, "a status below 3", status < 3);
            tried.answered = tried.answered.saturating_add(1);
        }
        Err(fault) => {
            holds(
                rt,
                "a fault of the text",
                matches!(fault, RunFault::Text(_)),
            );
            holds(rt, "nothing is written", written.is_empty());
            tried.refused = tried.refused.saturating_add(1);
        }
    }
}

/// Puts a byte in this place, and gives the one that was there.
fn put(bytes: &mut Vec<u8>, place: usize, byte: u8) -> Result<u8, Fail> {
    let at = bytes.as_mut_slice().get_mut(place).ok_or("a place")?;
    let kept = *at;
    *at = byte;
    Ok(kept)
}

/// Replays the list of moves with each byte in this place.
fn replay_with_each_byte<R: Abort>(
    rt: &R,
    alloc: Global,
    moves: &mut Vec<u8>,
    place: usize,
    tried: &mut Tried,
) -> Result<(), Fail> {
    let kept = put(moves, place, 0)?;
    let mut written = Vec::new(alloc);
    for byte in 0..=255 {
        put(moves, place, byte)?;
        written.clear();
        let answer = replay(alloc, moves.as_slice(), &mut written);
        take_in(rt, tried, answer, written.as_slice());
    }
    put(moves, place, kept)?;
    Ok(())
}

#[test]
fn each_byte_in_place_of_each(rt: HostRuntime) -> Result<(), Fail> {
    let moves = "behaviours 1;0 setverdict inconc;0 setverdict pass;0 getverdict;";
    let mut input = in_lines(rt.alloc(), moves)?;
    let mut tried = Tried::default();
    for place in 0..moves.len() {
        replay_with_each_byte(&rt, rt.alloc(), &mut input, place, &mut tried)?;
    }
    let enough = tried.answered >= moves.len();
    holds(&rt, "an answer for each place", enough);
    holds(&rt, "more than 15000 are refused", tried.refused > 15_000);
    Ok(())
}

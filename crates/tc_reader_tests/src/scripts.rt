//! Scripts that are refused, and scripts that are read. The others are in `tests/program`.
use crate::checks::{holds, is};
use std::alloc::Global;
use std::process::Abort;
use std::test::Fail;
use tc_reader::{LineFault, ReadFault, ScriptFault, ScriptKind, read_campaign};

/// Scripts with `;` for the end of a line, and the fault of each, or a dash.
const SCRIPTS: &str = "\
testcase t;behaviour main;create 1x;end;behaviour w a;end;end; => line 3: bad name
testcase t;behaviour main;stop any;end;behaviour w a;end;end; => line 3: bad name
testcase t;behaviour main;setverdict error;end;behaviour w a;end;end; => line 3: line not understood
testcase t;behaviour main;\tgetverdict;end;behaviour w a;end;end; => line 3: byte not allowed
testcase t;behaviour main;#\t;end;behaviour w a;end;end; => -
testcase t;behaviour main;behaviour b;end;behaviour w a;end;end; => line 3: not allowed here
testcase t;behaviour main;start mtc w mtc mtc mtc mtc mtc;end;behaviour w a;end;end; => line 3: too many
testcase t;behaviour main;start x w mtc;end;behaviour w a;end;end; => line 3: unbound reference
testcase t;behaviour main;start mtc zz mtc;end;behaviour w a;end;end; => line 3: unknown behaviour
testcase t;behaviour main;start mtc w;end;behaviour w a;end;end; => line 3: wrong number of arguments
testcase t;behaviour main;start mtc w mtc;end;behaviour w a;end;end; => -
testcase t;behaviour main;getverdict;end;behaviour main;end;end; => line 5: name already used
testcase t;behaviour main p;getverdict;end;behaviour w a;end;end; => line 2: main behaviour takes no parameters";

/// The bytes of a text, with a line feed for each `;`.
fn in_lines(alloc: Global, text: &str) -> Result<Vec<u8>, Fail> {
    let mut bytes = Vec::new(alloc);
    for byte in text.as_bytes() {
        bytes.push(if *byte == b';' { b'\n' } else { *byte })?;
    }
    Ok(bytes)
}

fn fault_of(alloc: Global, text: &[u8]) -> Option<ReadFault> {
    match read_campaign(alloc, text) {
        Ok(_) => None,
        Err(fault) => Some(fault),
    }
}

/// Checks the fault of a text, or that it has none.
fn has_fault(rt: &impl Abort, alloc: Global, text: &[u8], wanted: &str) -> Result<(), Fail> {
    match fault_of(alloc, text) {
        None => is(rt, wanted, "-", wanted),
        Some(fault) => is(rt, wanted, fault.to_string(alloc)?.as_str(), wanted),
    }
    Ok(())
}

fn is_row(rt: &impl Abort, alloc: Global, row: &str) -> Result<(), Fail> {
    let (script, wanted) = row.split_once(" => ").ok_or("a row")?;
    let text = in_lines(alloc, script)?;
    has_fault(rt, alloc, text.as_slice(), wanted)
}

#[test]
fn lines_of_a_script(rt: HostRuntime) -> Result<(), Fail> {
    for row in SCRIPTS.lines() {
        is_row(&rt, rt.alloc(), row)?;
    }
    Ok(())
}

const STORED: &[u8] = b"# two test cases
testcase t_pass
behaviour main
  create p
  start p worker mtc
  wait done p
  getverdict
end
behaviour worker boss
  alive boss
  setverdict pass
end
end
testcase t_again
behaviour main
  create p alive
  start p first
  wait done p
  start p second p
  wait done p
  kill all
  killed all
end
behaviour first
  setverdict pass
end
behaviour second me
  getverdict
  setverdict none
  running me
end
end
";

fn lines_in(text: &[u8]) -> usize {
    text.iter().filter(|byte| **byte == b'\n').count()
}

/// What is found of the prefixes of a text.
#[derive(Drop)]
struct Found {
    /// The lengths of those that are accepted.
    accepted: Vec<usize>,
    /// How many have a last line of no form.
    misread: u64,
    /// How many end too early.
    cut: u64,
}

/// Takes in the fault of a text in this line.
fn take_fault<R: Abort>(rt: &R, found: &mut Found, text: &[u8], line: usize, kind: ScriptKind) {
    let last = lines_in(text).saturating_add(1);
    if kind == ScriptKind::BadLine {
        found.misread = found.misread.saturating_add(1);
        is(rt, "the last line", line, last);
    } else {
        found.cut = found.cut.saturating_add(1);
        is(rt, "its kind", kind, ScriptKind::Cut);
        let is_cut_in_line = !matches!(text, [] | [.., b'\n']);
        let behind = last.saturating_add(usize::from(is_cut_in_line));
        is(rt, "the line behind the text", line, behind);
    }
}

/// Takes in what is found of the stored script up to this length.
fn take_prefix<R: Abort>(
    rt: &R,
    alloc: Global,
    found: &mut Found,
    length: usize,
) -> Result<(), Fail> {
    let text = STORED.get(..length).ok_or("a prefix")?;
    match fault_of(alloc, text) {
        None => found.accepted.push(length)?,
        Some(ReadFault::Script(fault)) => take_fault(rt, found, text, fault.line, fault.kind),
        Some(ReadFault::NoMemory) => holds(rt, "memory", false),
    }
    Ok(())
}

// Accepted are the first test case and the whole, each without and with its last line feed.
#[test]
fn prefixes_of_a_script(rt: HostRuntime) -> Result<(), Fail> {
    let mut found = Found {
        accepted: Vec::new(rt.alloc()),
        misread: 0,
        cut: 0,
    };
    for length in 0..=STORED.len() {
        take_prefix(&rt, rt.alloc(), &mut found, length)?;
    }
    let wanted = [171usize, 172, 421, 422];
    is(
        &rt,
        "accepted",
        found.accepted.as_slice(),
        wanted.as_slice(),
    );
    is(&rt, "the others", (found.misread, found.cut), (240, 179));
    Ok(())
}

#[test]
fn texts_of_the_faults(rt: HostRuntime) -> Result<(), Fail> {
    let text = ReadFault::NoMemory.to_string(rt.alloc())?;
    is(&rt, "a script", text.as_str(), "no memory");
    let text = LineFault::NoMemory.to_string(rt.alloc())?;
    is(&rt, "a line", text.as_str(), "no memory");
    let text = LineFault::Kind(ScriptKind::TooMany).to_string(rt.alloc())?;
    is(&rt, "a line's fault", text.as_str(), "too many");
    Ok(())
}

#[test]
fn faults_are_compared(rt: HostRuntime) -> Result<(), Fail> {
    let fault = ReadFault::Script(ScriptFault {
        line: 1,
        kind: ScriptKind::Cut,
    });
    let found = fault_of(rt.alloc(), b"");
    holds(&rt, "no line", found == Some(fault));
    holds(&rt, "another fault", found != Some(ReadFault::NoMemory));
    Ok(())
}

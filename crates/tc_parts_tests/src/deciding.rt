//! The entry that decided the verdict of a history, and who made it.
ghost use Rattle.std.specs.Prelude.{◌≡◌, option_copied, reverse};
ghost use Rattle.tc_rules.specs.Prelude.{component_name};

use crate::checks::{blocks, got, is};
use std::alloc::Global;
use std::process::Abort;
use tc_blocks::History;
use tc_entry::{Comp, Name};
use tc_rules::{Entry, NoMemory, Run, component_of, deciding_entry, name_of, replay_check};
use tc_text::{append_number, append_text};

/// No history has more behaviours.
const MOST_BEHAVIOURS: u16 = 3;

/// Histories, each named for what it shows.
const HISTORIES: &str = "\
history 2 no_entry 1
end none
history 2 none_is_set 2
0 setverdict none -> ok
0 create -> made 1
0 finish -> ok
end none
history 2 a_pass 1
0 getverdict -> none
0 setverdict pass -> ok
0 setverdict pass -> ok
end pass
history 2 a_fail_before_a_pass 1
0 setverdict fail -> ok
0 setverdict pass -> ok
0 setverdict inconc -> ok
end fail
history 2 from_pass_to_error 1
0 setverdict pass -> ok
0 setverdict inconc -> ok
0 setverdict fail -> ok
0 start 0 1 -> error start-main
end error
history 2 a_fail_before_an_error 2
0 create named valve -> made 1
0 start 1 1 -> ok
1 setverdict fail -> ok
0 start 1 1 -> error already-running
end error
history 2 a_fault_of_a_component 2
0 create named valve -> made 1
0 start 1 1 -> ok
1 alive any -> error not-main
0 finish -> ended
end error
history 2 a_stuck_case 2
0 create -> made 1
0 wait done 1 -> parked
0 wake done 1 -> error stuck
end error
history 2 two_of_the_same_verdict 3
0 create named valve -> made 1
0 create alive named pump -> made 2
0 start 1 1 -> ok
0 start 2 2 -> ok
2 setverdict fail -> ok
1 setverdict fail -> ok
end fail
history 2 two_of_the_same_name 3
0 create alive named pump -> made 1
0 create alive named pump -> made 2
0 start 2 2 -> ok
2 setverdict inconc -> ok
0 start 1 1 -> ok
1 setverdict inconc -> ok
end inconc
history 2 killed_after_its_verdict 2
0 create named valve -> made 1
0 start 1 1 -> ok
1 setverdict inconc -> ok
0 kill 1 -> ok
1 setverdict fail -> ended
0 finish -> ok
end inconc
history 2 stopcase_of_a_component 2
0 create -> made 1
0 start 1 1 -> ok
0 setverdict fail -> ok
1 stopcase -> ok
0 setverdict fail -> ended
end error
history 2 the_second_run_of_a_component 3
0 create alive named pump -> made 1
0 start 1 1 -> ok
1 setverdict pass -> ok
1 finish -> ok
0 start 1 2 -> ok
2 setverdict fail -> ok
end fail
";

/// Of each of these histories, in their order: the place of the deciding entry, its run, and the run's component.
const DECIDING: &str = "\
nobody
nobody
1 run 0 on 0
0 run 0 on 0
3 run 0 on 0
3 run 0 on 0
2 run 1 on 1 valve
2 run 0 on 0
4 run 2 on 2 pump
3 run 2 on 2 pump
2 run 1 on 1 valve
3 run 1 on 1
5 run 2 on 1 pump";

/// The name that the component was created with, by the definition.
fn created_name(history: &[Entry], comp: Comp) -> Option<&Name>
    ensures { option_copied result ≡ component_name (reverse history.now) comp.0 }
{
    name_of(history, comp)
}

/// Appends the run, and its component.
fn append_caller(out: &mut Vec<u8>, history: &[Entry], run: Run) -> Result<(), NoMemory> {
    append_text(out, " run ")?;
    append_number(out, u64::from(run.0))?;
    let Some(comp) = component_of(history, run) else {
        return append_text(out, " on none");
    };
    append_text(out, " on ")?;
    append_number(out, u64::from(comp.0))?;
    if let Some(name) = created_name(history, comp) {
        append_text(out, " ")?;
        out.extend_from_slice(name.bytes())?;
    }
    Ok(())
}

/// Appends the place of the deciding entry, and who made it.
fn append_deciding(out: &mut Vec<u8>, history: &[Entry]) -> Result<(), NoMemory> {
    let Some(at) = deciding_entry(history) else {
        return append_text(out, "nobody");
    };
    append_number(out, at as u64)?;
    append_caller(out, history, history[at].caller)
}

/// Checks that the history is legal, and who decided its verdict.
fn is_decided(
    rt: &impl Abort,
    alloc: Global,
    block: &History,
    wanted: &str,
) -> Result<(), NoMemory> {
    let history = block.entries.as_slice();
    let checked = replay_check(alloc, MOST_BEHAVIOURS, history);
    is(rt, "the verdict", got(rt, checked), block.verdict);
    let mut found = Vec::new(alloc);
    append_deciding(&mut found, history)?;
    is(rt, wanted, found.as_slice(), wanted.as_bytes());
    Ok(())
}

#[test]
fn deciding_entries(rt: HostRuntime) -> Result<(), NoMemory> {
    let blocks = blocks(&rt, rt.alloc(), HISTORIES.as_bytes());
    let mut decided: usize = 0;
    for (block, wanted) in blocks.iter().zip(DECIDING.lines()) {
        is_decided(&rt, rt.alloc(), block, wanted)?;
        decided = decided.saturating_add(1);
    }
    is(&rt, "histories", decided, 13);
    is(&rt, "blocks", blocks.len(), 13);
    Ok(())
}

//! The line of a test case that was explored, its witnesses, and the local verdicts that its components may have.
ghost use Rattle.std.specs.{Prelude.{◌≡◌, ◌==◌, ◌≤◌, ◌+◌, ◌*◌, ◌/◌, ◌++◌, [], IfOk, None, OnOk, codes, drop, if◌then◌else◌, length, nat_lt, option_copied, slice_index_or, string_bytes}, Fmt.decimal, List.flat_map, List.range_with_len};
ghost use Rattle.tc_rules.specs.Prelude.{name_of as verdict_name};
ghost use Rattle.tc_course.specs.Prelude.{is_found as is_found_among, is_local};
ghost use Rattle.tc_text.specs.Prelude.{shown_line};
ghost use Rattle.tc_explored.specs.Line as line;

use std::alloc::Global;
use tc_blocks::Header;
use tc_course::{Ending, Explored, Limit, Locals, Witness, is_found, level};
use tc_entry::Name;
use tc_report::{append_component, append_named_block};
use tc_text::{append_shown, append_text};
use tc_verdict::{NoMemory, Verdict, name as name_of};

/// The five verdicts, from the best to the worst.
const VERDICTS: [Verdict; 5] = [
    Verdict::None,
    Verdict::Pass,
    Verdict::Inconc,
    Verdict::Fail,
    Verdict::Error,
];

/// Appends the name of each of these verdicts after this text. If memory runs out, a part of it.
fn append_names(out: &mut Vec<u8>, before: &str, verdicts: &[Verdict]) -> Result<(), NoMemory>
    ensures { OnOk result (out.new.items ≡ out.old.items ++ flat_map (λ v. before.now ++ verdict_name v) verdicts.now) }
{
    for verdict in verdicts {
        append_text(out, before)?;
        append_text(out, name_of(*verdict))?;
    }
    Ok(())
}

#[tactic(auto, unfolding(crate::specs::Line::verdicts_where))]
fn found_verdicts(alloc: Global, found: &[Witness]) -> Result<Vec<Verdict>, NoMemory>
    ensures { IfOk result (λ v. v.items ≡ line.verdicts_where (is_found_among found.now)) }
{
    let verdicts = VERDICTS.iter().copied();
    let found = verdicts.filter(|verdict| is_found(found, *verdict));
    Ok(found.collect(alloc)?)
}

#[tactic(auto, unfolding(crate::specs::Line::verdicts_where))]
fn count_of(found: &[Witness]) -> usize
    ensures { result ≡ length (line.verdicts_where (is_found_among found.now)) }
{
    VERDICTS.iter().filter(|one| is_found(found, **one)).count()
}

// How the search ended.
fn ending_words(alloc: Global, ending: Ending, states: usize) -> Result<String, NoMemory>
    ensures { IfOk result (λ words. string_bytes words ≡ line.ending_words ending states) }
{
    Ok(match ending {
        Ending::Complete => format!(in alloc; " complete")?,
        Ending::Undecided(Limit::States) => {
            format!(in alloc; " undecided after {states} states: limit of states")?
        }
        Ending::Undecided(Limit::Memory) => {
            format!(in alloc; " undecided after {states} states: limit of memory")?
        }
    })
}

/// The status of the test case: 0 if one verdict was found, or 2 if that is error, 1 if more were; 3 if the search met
/// its limit.
pub fn explored_status(explored: &Explored) -> u8
    ensures { result ≡ line.explored_status explored.now }
{
    let found = explored.found.as_slice();
    match explored.ending {
        Ending::Complete => match count_of(found) {
            0 => 3,
            1 if is_found(found, Verdict::Error) => 2,
            1 => 0,
            _ => 1,
        },
        Ending::Undecided(_) => 3,
    }
}

/// Appends the line of the test case: its name, the verdicts that were found, and how the search ended. If memory runs
/// out, a part of it.
pub fn append_line(
    alloc: Global,
    out: &mut Vec<u8>,
    name: &Name,
    explored: &Explored,
) -> Result<(), NoMemory>
    ensures { OnOk result (out.new.items ≡ out.old.items ++ line.explored_line name.now explored.now) }
{
    let verdicts = found_verdicts(alloc, explored.found.as_slice())?;
    out.extend_from_slice(name.bytes())?;
    append_names(out, " ", verdicts.as_slice())?;
    let ending = ending_words(alloc, explored.ending, explored.states)?;
    append_text(out, ending.as_str())?;
    append_text(out, "\n")
}

/// Appends a block with this first line for each witness, with these names of behaviours. If memory runs out, a part of
/// them.
pub fn append_witnesses(
    out: &mut Vec<u8>,
    header: &Header,
    names: &[Name],
    explored: &Explored,
) -> Result<(), NoMemory>
    requires { length names.now ≤ u16.MAX }
    ensures { OnOk result (out.new.items ≡ out.old.items ++ line.witnesses_text header.now names.now explored.now) }
{
    for witness in explored.found.as_slice() {
        let history = witness.history.as_slice();
        append_named_block(out, header, names, history, witness.verdict)?;
    }
    Ok(())
}

#[tactic(auto, unfolding(crate::specs::Line::verdicts_where))]
fn local_verdicts(alloc: Global, locals: &Locals, comp: usize) -> Result<Vec<Verdict>, NoMemory>
    requires { comp * 5 ≤ length locals.now.found }
    ensures { IfOk result (λ v. v.items ≡ line.verdicts_where (is_local locals.now.found comp)) }
{
    let verdicts = VERDICTS.iter().copied();
    let found = verdicts.filter(|verdict| is_found_of(locals, comp, *verdict));
    Ok(found.collect(alloc)?)
}

fn is_found_of(locals: &Locals, comp: usize, verdict: Verdict) -> bool
    requires { comp * 5 ≤ length locals.now.found }
    ensures { result ≡ is_local locals.now.found comp verdict }
{
    let found = locals.found.as_slice();
    let first = comp * 5;
    let at = level(verdict) as usize;
    if at < found.len() - first {
        found[first + at]
    } else {
        false
    }
}

fn name_at(locals: &Locals, comp: usize) -> Option<&Name>
    ensures { option_copied result ≡ slice_index_or locals.now.names comp None }
{
    locals.names.as_slice().get(comp)?.as_ref()
}

#[tactic(auto, using(std::proofs::lemmas::List::drop_min))]
fn append_or(out: &mut Vec<u8>, verdicts: &[Verdict]) -> Result<(), NoMemory>
    ensures { OnOk result (out.new.items ≡ out.old.items ++ drop 3 (flat_map (λ v. codes " or " ++ verdict_name v) verdicts.now)) }
{
    let mut text = Vec::new(*out.allocator());
    append_names(&mut text, " or ", verdicts)?;
    out.extend_from_slice(&text.as_slice()[3.min(text.len())..])?;
    Ok(())
}

// Appends the line of a component, if it is found with several verdicts; if memory runs out, a part of it.
#[tactic(auto, unfolding(crate::specs::Line::local_line))]
fn append_local_line(out: &mut Vec<u8>, locals: &Locals, comp: usize) -> Result<(), NoMemory>
    requires { comp * 5 ≤ length locals.now.found }
    ensures { OnOk result (out.new.items ≡ out.old.items ++ line.local_line locals.now comp) }
{
    let alloc = *out.allocator();
    let verdicts = local_verdicts(alloc, locals, comp)?;
    if verdicts.len() <= 1 {
        return Ok(());
    }
    let mut text = Vec::new(alloc);
    append_text(&mut text, " local ")?;
    append_component(&mut text, comp as u64, name_at(locals, comp))?;
    append_text(&mut text, ":")?;
    append_or(&mut text, verdicts.as_slice())?;
    append_shown(alloc, out, text.as_slice())
}

// Appends how many states a search looked at that met its limit; if memory runs out, a part of it.
fn append_undecided(alloc: Global, out: &mut Vec<u8>, locals: &Locals) -> Result<(), NoMemory>
    ensures { OnOk result (out.new.items ≡ out.old.items ++ line.if_complete locals.now.ending []
        (shown_line (codes " local verdicts undecided after " ++ (decimal locals.now.states ++ codes " states")))) }
{
    match locals.ending {
        Ending::Complete => Ok(()),
        Ending::Undecided(_) => {
            let states = locals.states;
            let text = format!(in alloc; " local verdicts undecided after {states} states")?;
            append_shown(alloc, out, text.as_bytes())
        }
    }
}

/// Appends the components that are found with several local verdicts, each with these; and, if the search met its limit,
/// how many states it looked at. If memory runs out, a part of it.
#[tactic(auto, unfolding(crate::specs::Line::locals_text), using(tc_course::proofs::Lemmas::next_of))]
pub fn append_locals(alloc: Global, out: &mut Vec<u8>, locals: &Locals) -> Result<(), NoMemory>
    ensures { OnOk result (out.new.items ≡ out.old.items ++ line.locals_text locals.now) }
{
    for comp in 0..locals.found.as_slice().len() / 5 + 1 {
        append_local_line(out, locals, comp)?;
    }
    append_undecided(alloc, out, locals)
}

//! The test cases of a script, and which test cases of a campaign are chosen.
ghost use Rattle.std.specs.Prelude.{◌≡◌, ◌⊎◌, IfOk, IfErr, false, true};
ghost use Rattle.std.specs.List.{AllZip, list_any};
ghost use Rattle.tc_rules.specs.Prelude.{matches};
ghost use Rattle.tc_answer.specs.{Choosing.{AreChosen, RefusesChoice, case_name, chosen, have_names, is_asked as spec_asked, placed_in_shard}, Inside.{AreReadyAs, IsCaseOf, named as spec_named}, declared.fault.RunFault.TheVariants.{NoMemory as MemoryOut, Only}};

use crate::fault::RunFault;
use crate::input::read_script;
use std::alloc::Global;
use tc_command::Choice;
use tc_entry::{Name, NoMemory, Pattern, Shard};
use tc_exec::Case;
use tc_reader::{Campaign, CaseScript};
use tc_step::Script;

// Whether one of the patterns matches the name.
fn is_matched(only: &[Pattern], name: &Name) -> bool
    ensures { result ≡ list_any (λ pattern. matches pattern name.now) only.now }
{
    only.iter().any(|pattern| pattern.matches(name))
}

/// Whether the name is asked for; without a pattern each is.
pub fn is_asked(only: &[Pattern], name: &Name) -> bool
    ensures { result ≡ spec_asked only.now name.now }
{
    only.is_empty() || is_matched(only, name)
}

// Those whose names are asked for.
fn named<B: Drop>(mut cases: Vec<Case<B>>, only: &[Pattern]) -> Vec<Case<B>>
    ensures { result.items ≡ spec_named case_name only.now cases.items }
{
    cases.retain(|case| is_asked(only, &case.name));
    cases
}

// Those of the shard.
fn sharded<B: Drop>(
    alloc: Global,
    cases: Vec<Case<B>>,
    shard: Shard,
) -> Result<Vec<Case<B>>, NoMemory>
    ensures { IfOk result (λ r. r.items ≡ placed_in_shard shard 0 cases.items) }
{
    let mut taken = Vec::new(alloc);
    let mut place: usize = 0;
    for case in cases {
        if shard.has(place) {
            taken.push(case)?;
        }
        place = place.checked_add(1).ok_or(NoMemory)?;
    }
    Ok(taken)
}

/// The test cases whose names one of the patterns matches, in their order, and of these the ones in the shard; without
/// a pattern all of them, and without a shard all of these.
pub fn choose<B: Drop>(
    alloc: Global,
    cases: Vec<Case<B>>,
    only: &[Pattern],
    shard: Option<Shard>,
) -> Result<Vec<Case<B>>, NoMemory>
    ensures { IfOk result (λ r. r.items ≡ chosen case_name only.now shard cases.items) }
{
    let named = named(cases, only);
    match shard {
        Some(shard) => sharded(alloc, named, shard),
        None => Ok(named),
    }
}

// Whether the pattern matches the name of a test case.
fn has_case<B: Drop>(cases: &[Case<B>], pattern: &Pattern) -> bool
    ensures { result ≡ list_any (λ c. matches pattern.now (case_name c)) cases.now }
{
    cases.iter().any(|case| pattern.matches(&case.name))
}

/// Whether each of these patterns matches the name of a test case.
pub fn have_all<B: Drop>(cases: &[Case<B>], only: &[Pattern]) -> bool
    ensures { result ≡ have_names case_name only.now cases.now }
{
    only.iter().all(|pattern| has_case(cases, pattern))
}

// The test case of these scripts.
fn case_of(alloc: Global, name: Name, mut scripts: CaseScript) -> Result<Case<Script>, NoMemory>
    ensures { IfOk result (IsCaseOf (name, scripts)) }
{
    let mut case = Case {
        name,
        names: Vec::new(alloc),
        jobs: Vec::new(alloc),
    };
    while let Some((behaviour, script)) = scripts.take_first() {
        case.names.push(behaviour)?;
        case.jobs.push(script)?;
    }
    Ok(case)
}

// The test cases of a campaign.
fn cases_of(alloc: Global, mut campaign: Campaign) -> Result<Vec<Case<Script>>, NoMemory>
    ensures { IfOk result (λ cases. AllZip IsCaseOf campaign cases.items) }
{
    let mut cases = Vec::new(alloc);
    while let Some((name, scripts)) = campaign.take_first() {
        cases.push(case_of(alloc, name, scripts)?)?;
    }
    Ok(cases)
}

/// The test cases of the names that are asked for, in their order, and of these those of the shard. Each name has to be
/// that of a test case.
pub fn choose_cases<B: Drop>(
    alloc: Global,
    cases: Vec<Case<B>>,
    choice: &Choice,
) -> Result<Vec<Case<B>>, RunFault>
    ensures chosen { IfOk result (λ r. r.items ≡ chosen case_name choice.now.only.items choice.now.shard cases.items) }
    ensures named { IfOk result (λ r. have_names case_name choice.now.only.items cases.items ≡ true) }
    ensures refused { IfErr result (λ fault. (fault ≡ MemoryOut)
        ⊎ ((fault ≡ Only) × (have_names case_name choice.now.only.items cases.items ≡ false))) }
{
    let only = choice.only.as_slice();
    if !have_all(cases.as_slice(), only) {
        return Err(RunFault::Only);
    }
    Ok(choose(alloc, cases, only, choice.shard)?)
}

/// The chosen test cases of the campaign that the text spells.
pub fn chosen_cases(
    alloc: Global,
    text: &[u8],
    choice: &Choice,
) -> Result<Vec<Case<Script>>, RunFault>
    ensures chosen { IfOk result (λ cases. AreReadyAs (AreChosen choice.now text.now) cases.items) }
    ensures refused { IfErr result (RefusesChoice choice.now text.now) }
{
    let campaign = read_script(alloc, text)?;
    let cases = cases_of(alloc, campaign)?;
    choose_cases(alloc, cases, choice)
}

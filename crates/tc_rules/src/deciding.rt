//! Which entry decided the verdict of a test case, and who made it.
ghost use Rattle.std.specs.Prelude.{◌≡◌, ◌<◌, ◌↔◌, ◌++◌, ℕ, List, if◌then◌else◌, nat_lt, None, Some, IfSome, MatchOption, option_and_then, option_copied, reverse, length};
ghost use Rattle.tc_entry.specs.{Prelude.level_of, declared.entry.Entry.Entry};
ghost use Rattle.tc_rules.specs.{Legal.IsLegal, Local.overall};
ghost use Rattle.tc_rules.specs.Deciding as spec;
ghost use Rattle.tc_rules.specs.History as histories;

use crate::entries::{created, is_comp, started_on};
use crate::step::next_local;
use tc_entry::{Comp, Entry, Name, Op};
use tc_verdict::{Run, Verdict, worse_of};

/// The deciding place after the entry at this one, by the worst verdict given before and after it.
fn later_deciding(
    deciding: Option<usize>,
    at: usize,
    before: Verdict,
    after: Verdict,
) -> Option<usize>
    ensures { result ≡ (if nat_lt (level_of before) (level_of after) then Some at else deciding) }
{
    if worse_of(before, after) == before {
        deciding
    } else {
        Some(at)
    }
}

/// The place of the deciding entry, counted from 0: the first after which the overall verdict is the one of the whole
/// history. There is none if that is none.
#[tactic(auto, using(crate::proofs::Lemmas::Decided::none_given))]
pub fn deciding_entry(history: &[Entry]) -> Option<usize>
    ensures is { result ≡ spec.deciding (reverse history.now) }
    ensures within { IfSome result (λ at. at < length history.now) }
    // In a legal history the overall verdict is the reported one from that entry on, and not before.
    ensures decides { (n : ℕ) → IsLegal n (reverse history.now) → MatchOption result (overall (reverse history.now) ≡ Verdict.None)
        (λ at. (later earlier : List Entry) → reverse history.now ≡ later ++ earlier
        → (overall earlier ≡ overall (reverse history.now)) ↔ (at < length earlier)) }
{
    let mut worst = Verdict::None;
    let mut deciding = None;
    for (at, entry) in history.iter().enumerate() {
        let after = next_local(&entry.op, entry.reply, worst);
        deciding = later_deciding(deciding, at, worst, after);
        worst = after;
    }
    deciding
}

/// The component that a run is on: that of the first Start of the run, and the main component for run 0.
pub fn component_of(history: &[Entry], run: Run) -> Option<Comp>
    ensures { result ≡ histories.comp_of (reverse history.now) run.0 }
{
    let mut comp = if run.0 == 0 { Some(Comp(0)) } else { None };
    for entry in history {
        comp = comp.or(started_on(entry, run.0));
    }
    comp
}

/// The name that the entry gives to the component.
fn name_given(entry: &Entry, comp: Comp) -> Option<&Name>
    ensures { option_copied result ≡ (if histories.is_comp (histories.created entry.now.op entry.now.reply) comp.0
        then option_and_then (λ m. m.1) (histories.creation entry.now.op) else None) }
{
    if !is_comp(created(&entry.op, entry.reply), comp.0) {
        return None;
    }
    match &entry.op {
        Op::Create { name, .. } => name.as_ref(),
        _ => None,
    }
}

/// The name of a component, if its creation gave it one.
pub fn name_of(history: &[Entry], comp: Comp) -> Option<&Name>
    ensures { option_copied result ≡ spec.component_name (reverse history.now) comp.0 }
{
    let mut name = None;
    for entry in history {
        if name.is_none() {
            name = name_given(entry, comp);
        }
    }
    name
}

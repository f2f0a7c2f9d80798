//! Laws of legal histories, and the worked cases: each function does nothing, and its contract is the law.
ghost use Rattle.std.specs.{Prelude.{◌≡◌, ◌++◌, ◌∷◌, ◌↔◌, ℕ, if◌then◌else◌, List, [], Some, false, map, true}, List.flat_map};
ghost use Rattle.tc_entry.specs.declared.{comp.Comp.Comp, entry.Entry.Entry, phase.Phase.Phase};
ghost use Rattle.tc_entry.specs.Prelude.{is_ended, worst};
ghost use Rattle.tc_rules.specs.{History.comp_of, History.is_comp, History.is_over, Inside.WorkedCases.WorkedCases, Laws.unnamed, Local.gives, Legal.IsAllOver, Legal.IsLegal, Local.local, Local.overall, Phases.phase, Phases.was_halted, Phases.was_killed, Standing.Kept, Standing.StandsFor};

/// After an entry that ends the case no component is alive, and every further call is replied Ended.
#[tactic(auto, using(crate::proofs::Lemmas::LawsOfHistories::over_for_all))]
pub fn over_for_all()
    ensures { (n : ℕ) (past : List Entry) → IsLegal n past → is_over past ≡ true
        → IsAllOver n past }
{}

/// A component that was killed was halted.
#[tactic(auto, using(crate::proofs::Lemmas::LawsOfHistories::killed_was_halted))]
pub fn killed_was_halted()
    ensures { (n : ℕ) (past : List Entry) (c : ℕ) → IsLegal n past
        → was_killed past c ≡ true → was_halted past c ≡ true }
{}

/// A caller that is not replied Ended is the running run of its component.
#[tactic(auto, using(crate::proofs::Lemmas::LawsOfHistories::answered_is_running))]
pub fn answered_is_running()
    ensures { (n : ℕ) (past : List Entry) (e : Entry) → IsLegal n (e ∷ past)
        → is_ended e.reply ≡ false → (c : Comp) × ((comp_of past e.caller.0 ≡ Some c)
        × (phase past c.0 ≡ Phase.Running (record { 0 = e.caller.0 }))) }
{}

/// A run is on the same component at each of its entries and over the whole history.
#[tactic(auto, using(crate::proofs::Lemmas::LawsOfHistories::same_component_later))]
pub fn same_component_later()
    ensures { (n : ℕ) (past later : List Entry) (e : Entry) → IsLegal n (e ∷ past)
        → is_ended e.reply ≡ false → comp_of (later ++ e ∷ past) e.caller.0 ≡ comp_of past e.caller.0 }
{}

/// Local verdicts are the same if the runs on a component are those of the whole history.
#[tactic(auto, using(crate::proofs::Lemmas::LawsOfHistories::local_of_whole))]
pub fn local_of_whole()
    ensures { (n : ℕ) (past : List Entry) (c : ℕ) → IsLegal n past
        → worst (flat_map (λ e. if is_comp (comp_of past e.caller.0) c then gives e.op e.reply else []) past)
        ≡ local past c }
{}

/// A history that a case's state represents is legal.
#[tactic(auto, using(crate::proofs::Lemmas::Standing::stands_legal))]
pub fn stands_for_legal()
    ensures { (k : Kept) (past : List Entry) → StandsFor k past → IsLegal k.behaviours past }
{}

/// The names of components change no reply and no verdict: two histories that differ only in these are both legal or
/// neither, with the same verdicts.
#[tactic(auto, using(crate::proofs::Named::naming_rules))]
pub fn names_say_nothing()
    ensures legal { (n : ℕ) (h g : List Entry) → map unnamed h ≡ map unnamed g
        → IsLegal n h ↔ IsLegal n g }
    ensures locals { (h g : List Entry) (c : ℕ) → map unnamed h ≡ map unnamed g
        → local h c ≡ local g c }
    ensures overalls { (h g : List Entry) → map unnamed h ≡ map unnamed g
        → overall h ≡ overall g }
{}

/// The worked cases: the replies and the verdict that the definitions give to each. Nothing rests on them.
#[tactic(auto, using(crate::proofs::WorkedCases::worked_cases))]
fn worked_cases()
    ensures { WorkedCases }
{}

//! What is made of the lines of a script, one by one: its test cases.
ghost use Rattle.std.specs.Prelude.{◌≡◌, ◌≤◌, [], Some, None, All, length, OnOk};
ghost use Rattle.std.specs.Option.{option_map};
ghost use Rattle.tc_entry.specs.declared.limits.TheConstants.{BEHAVIOURS};
ghost use Rattle.tc_reader.specs.Inside.{MakeScripts, MakesScript, all_filled, behaviour_ended, case_ended, case_left, filled, finished, first_wrong as the_first_wrong, left_of, start_kind, started_of, with_last, with_step};

use crate::campaign::CaseScript;
use crate::fault::ScriptFault;
use crate::names::Heads;
use crate::{Name, Script, ScriptKind, Step};
use std::alloc::{AllocError, Global};
use std::collections::VecDeque;
use std::marker::Model;
use std::mem;
use tc_step::Run;

/// A start: its line, the behaviour that it names, and how many arguments it gives.
#[derive(Drop)]
pub(crate) struct Start {
    pub line: usize,
    pub behaviour: Name,
    pub given: usize,
}

// What is wrong with a start of one of these behaviours.
fn kind_of(heads: &Heads, start: &Start) -> Option<ScriptKind>
    ensures { result ≡ start_kind heads.now start.now.behaviour start.now.given }
{
    match heads.parameters_of(&start.behaviour) {
        None => Some(ScriptKind::UnknownBehaviour),
        Some(expected) if start.given == expected => None,
        Some(_) => Some(ScriptKind::Arguments),
    }
}

/// The first of these starts that is of none of these behaviours.
pub(crate) fn first_wrong(heads: &Heads, starts: &[Start]) -> Option<ScriptFault>
    ensures { result ≡ the_first_wrong heads.now starts.now }
{
    for start in starts {
        if let Some(kind) = kind_of(heads, start) {
            let line = start.line;
            return Some(ScriptFault { line, kind });
        }
    }
    None
}

/// Sets the runs of the starts among these steps, which are the first of these; and the others are left.
fn fill<'s>(heads: &Heads, steps: &mut [Step], starts: &'s [Start]) -> &'s [Start]
    requires few { length heads.now ≤ BEHAVIOURS }
    ensures steps { steps.new ≡ filled heads.now steps.old (started_of starts.now) }
    ensures left { started_of result.now ≡ left_of steps.old (started_of starts.now) }
{
    if starts.is_empty() {
        return starts;
    }
    let mut rest = starts;
    for step in steps.iter_mut() {
        if let Step::Start { run, .. } = step
            && let Some((start, others)) = rest.split_first()
        {
            *run = Run(heads.place_of(&start.behaviour) as u16);
            rest = others;
        }
    }
    rest
}

/// A behaviour, with the steps that were read so far.
#[derive(Drop)]
pub(crate) struct Draft {
    name: Name,
    parameters: usize,
    steps: Vec<Step>,
}

impl Model for Draft {
    ghost use Rattle.std.specs.Prelude.{List, ℕ};
    ghost use Rattle.tc_step.specs.Prelude.{ScriptView};

    ghost Value = { List ℕ × ScriptView };

    ghost view = { λ d. (d.name, record { parameters = d.parameters; steps = d.steps.items }) };
}

/// The test cases before, the name of the one that is open, its behaviours before, and the one that is open.
#[derive(Drop)]
pub(crate) struct Made {
    pub done: VecDeque<(Name, CaseScript)>,
    pub case: Option<Name>,
    pub drafts: Vec<Draft>,
    pub current: Option<Draft>,
}

impl Model for Made {
    ghost use Rattle.tc_reader.specs.Inside.{MadeView};

    ghost Value = { MadeView };

    ghost view = { λ m. record { done = m.done.items; case = m.case; drafts = m.drafts.items; current = m.current } };
}

impl Draft {
    /// Its name, and its script.
    pub(crate) fn into_script(self) -> (Name, Script)
        requires { MakesScript self }
        ensures { result ≡ self }
    {
        let Draft {
            name,
            parameters,
            steps,
        } = self;
        (name, Script::new(parameters, steps))
    }
}

// Sets the runs of the starts of these behaviours, which are these.
fn fill_all(heads: &Heads, drafts: &mut [Draft], starts: &[Start])
    requires few { length heads.now ≤ BEHAVIOURS }
    ensures { drafts.new ≡ all_filled heads.now drafts.old (started_of starts.now) }
{
    let mut rest = starts;
    for draft in drafts.iter_mut() {
        rest = fill(heads, &mut draft.steps, rest);
    }
}

// The test case of these behaviours, whose starts these are.
fn case_of(heads: &Heads, drafts: Vec<Draft>, starts: &[Start]) -> CaseScript
    requires few { length heads.now ≤ BEHAVIOURS }
    requires scripts { All MakesScript (all_filled heads.now drafts.items (started_of starts.now)) }
    ensures { result ≡ all_filled heads.now drafts.items (started_of starts.now) }
{
    let mut drafts = drafts;
    fill_all(heads, &mut drafts, starts);
    CaseScript {
        drafts: VecDeque::from_vec(drafts),
    }
}

impl Made {
    /// Adds a step to the behaviour that is open.
    pub(crate) fn add_step(&mut self, step: Step) -> Result<(), AllocError>
        ensures { OnOk result (self.new ≡ record self.old { current = option_map (with_step step) self.old.current }) }
    {
        if let Some(draft) = &mut self.current {
            draft.steps.push(step)?;
        }
        Ok(())
    }

    /// Ends the behaviour that is open.
    pub(crate) fn end_behaviour(&mut self) -> Result<(), AllocError>
        ensures { OnOk result (self.new ≡ behaviour_ended self.old) }
    {
        if let Some(draft) = self.current.take() {
            self.drafts.push(draft)?;
        }
        Ok(())
    }

    /// Begins a behaviour. One that is open ends.
    pub(crate) fn begin_behaviour(
        &mut self,
        alloc: Global,
        name: &Name,
        parameters: usize,
    ) -> Result<(), AllocError>
        ensures { OnOk result (self.new ≡ record self.old {
          drafts = with_last self.old.drafts self.old.current;
          current = Some (name.now, record { parameters = parameters; steps = [] });
        }) }
    {
        self.end_behaviour()?;
        self.current = Some(Draft {
            name: name.copy(),
            parameters,
            steps: Vec::new(alloc),
        });
        Ok(())
    }

    /// Ends the test case that is open, whose starts these are.
    pub(crate) fn end_case(
        &mut self,
        alloc: Global,
        heads: &Heads,
        starts: &[Start],
    ) -> Result<(), AllocError>
        requires few { length heads.now ≤ BEHAVIOURS }
        requires scripts { MakeScripts self.old.case (finished heads.now (started_of starts.now) self.old) }
        ensures { OnOk result (self.new ≡ case_ended heads.now (started_of starts.now) self.old) }
    {
        self.end_behaviour()?;
        let drafts = mem::replace(&mut self.drafts, Vec::new(alloc));
        match self.case.take() {
            Some(name) => {
                let case = case_of(heads, drafts, starts);
                self.done.push_back((name, case))?;
            }
            None => drop(drafts),
        }
        Ok(())
    }

    /// Leaves out the test case that is open.
    pub(crate) fn leave_case(&mut self)
        ensures { self.new ≡ case_left self.old }
    {
        self.case = None;
        self.drafts.clear();
        self.current = None;
    }
}

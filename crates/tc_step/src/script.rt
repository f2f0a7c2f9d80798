//! A scripted behaviour: its parameters and its steps.
ghost use Rattle.std.specs.Prelude.{◌≡◌, ◌≤◌, ◌↔◌, IsTrue, length};
ghost use Rattle.tc_entry.specs.declared.limits.TheConstants.{ARGUMENTS};
ghost use Rattle.tc_step.specs.{Steps.AreBound, Steps.IsScript, declared.limits.TheConstants.STEPS};

use crate::limits::STEPS;
use crate::step::Step;
use std::marker::Model;
use tc_entry::ARGUMENTS;

/// A scripted behaviour: the number of its parameters, and its steps in their order.
///
/// It has at most `ARGUMENTS` parameters and `STEPS` steps, and each place of a step is bound before the step; these
/// limits are this project's own.
#[derive(Drop)]
pub struct Script {
    parameters: usize,
    steps: Vec<Step>,
}

impl Model for Script {
    ghost use Rattle.tc_step.specs.Steps.{ScriptView, IsScript};

    ghost Value = { ScriptView };

    ghost view = { λ s. record { parameters = s.parameters; steps = s.steps.items } };

    ghost invariant = { λ s. IsScript s.parameters s.steps.items };
}

/// Whether each place of each step is bound before it, if that many components are bound before the first step.
fn are_bound(parameters: usize, steps: &[Step]) -> bool
    requires few_parameters { parameters ≤ ARGUMENTS }
    requires few_steps { length steps.now ≤ STEPS }
    ensures { IsTrue result ↔ AreBound parameters steps.now }
{
    let mut count = parameters;
    let mut rest = steps;
    while let Some((step, others)) = rest.split_first() {
        if !step.is_bound(count) {
            return false;
        }
        if matches!(step, Step::Create { .. }) {
            count += 1;
        }
        rest = others;
    }
    true
}

impl Script {
    /// Whether these steps make a script of that many parameters.
    pub fn is_script(parameters: usize, steps: &[Step]) -> bool
        ensures { IsTrue result ↔ IsScript parameters steps.now }
    {
        if parameters > ARGUMENTS || steps.len() > STEPS {
            return false;
        }
        are_bound(parameters, steps)
    }

    /// The script of these steps. It takes no memory.
    pub fn new(parameters: usize, steps: Vec<Step>) -> Script
        requires { IsScript parameters steps.items }
        ensures { result ≡ record { parameters = parameters; steps = steps.items } }
    {
        Script { parameters, steps }
    }

    /// How many arguments the behaviour takes.
    pub fn parameters(&self) -> usize
        ensures { result ≡ self.now.parameters }
    {
        self.parameters
    }

    /// The steps, in their order.
    pub fn steps(&self) -> &[Step]
        ensures steps { result.now ≡ self.now.steps }
        ensures script { IsScript self.now.parameters self.now.steps }
    {
        &self.steps
    }
}

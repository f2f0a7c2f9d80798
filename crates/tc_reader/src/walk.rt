//! What one walk over the lines of a script finds: its test cases, and the first fault of names.
ghost use Rattle.std.specs.Prelude.{◌≡◌, OnOk, if◌then◌else◌, is_some};
ghost use Rattle.tc_reader.specs.Inside.{IsWithin, MayEnd, after, begins, ended, or_fault, with_start};

use crate::fault::ScriptFault;
use crate::made::{Made, Start, first_wrong};
use crate::names::{Heads, Names};
use crate::scope::Scope;
use crate::{Call, Line, Name, ScriptKind};
use std::alloc::{AllocError, Global};
use std::collections::VecDeque;
use std::marker::Model;

/// The names so far, the first fault of names, the starts that are still to be looked up, and what is made.
#[derive(Drop)]
pub(crate) struct Walk {
    pub names: Scope,
    pub fault: Option<ScriptFault>,
    starts: Vec<Start>,
    pub made: Made,
}

impl Model for Walk {
    ghost use Rattle.tc_reader.specs.Inside.{WalkView};

    ghost Value = { WalkView };

    ghost view = { λ w. record { names = w.names; fault = w.fault; starts = w.starts.items; made = w.made } };
}

impl Walk {
    /// Before the first line.
    pub(crate) fn new(alloc: Global) -> Walk
        ensures { result ≡ begins }
    {
        Walk {
            names: Scope {
                cases: Names::new(alloc),
                bound: Names::new(alloc),
                heads: Heads::new(alloc),
            },
            fault: None,
            starts: Vec::new(alloc),
            made: Made {
                done: VecDeque::new(alloc),
                case: None,
                drafts: Vec::new(alloc),
                current: None,
            },
        }
    }

    // Keeps the fault of a line, if there is none before.
    fn note(&mut self, line: usize, kind: Option<ScriptKind>)
        ensures { self.new ≡ record self.old { fault = or_fault self.old.fault line kind } }
    {
        if let (None, Some(kind)) = (self.fault, kind) {
            self.fault = Some(ScriptFault { line, kind });
        }
    }

    // Keeps the start that a call is, to be looked up when the test case ends.
    fn keep_start(&mut self, line: usize, call: &Call) -> Result<(), AllocError>
        ensures { OnOk result (self.new
            ≡ record self.old { starts = if is_some self.old.fault then self.old.starts else with_start self.old.starts line call.now }) }
    {
        if let Call::Start {
            behaviour,
            args,
            ..
        } = call
            && self.fault.is_none()
        {
            self.starts.push(Start {
                line,
                behaviour: behaviour.copy(),
                given: args.as_slice().len(),
            })?;
        }
        Ok(())
    }

    fn take_call(&mut self, line: usize, call: &Call) -> Result<(), AllocError>
        requires within { IsWithin self.old.names.bound (Line.Step call.now) }
        ensures { OnOk result (self.new ≡ after line (Line.Step call.now) self.old) }
    {
        match self.names.take_call(call)? {
            Ok(step) => {
                self.keep_start(line, call)?;
                self.made.add_step(step)?;
            }
            Err(kind) => self.note(line, Some(kind)),
        }
        Ok(())
    }

    /// Continues after this line.
    pub(crate) fn take(
        &mut self,
        alloc: Global,
        number: usize,
        line: &Line,
    ) -> Result<(), AllocError>
        requires may_end { MayEnd self.old }
        requires within { IsWithin self.old.names.bound line.now }
        ensures { OnOk result (self.new ≡ after number line.now self.old) }
    {
        match line {
            Line::Step(call) => self.take_call(number, call),
            Line::Skipped => Ok(()),
            Line::End => self.made.end_behaviour(),
            Line::TestCase(name) => {
                self.end(alloc)?;
                let is_new = self.names.cases.add(name.copy())?;
                self.names.heads.clear();
                self.note(number, (!is_new).then_some(ScriptKind::Twice));
                self.made.case = Some(name.copy());
                Ok(())
            }
            Line::Behaviour(name, parameters) => {
                let kind = self.names.take_behaviour(name, parameters.as_slice())?;
                self.note(number, kind);
                self.made
                    .begin_behaviour(alloc, name, parameters.as_slice().len())
            }
        }
    }

    /// Ends the test case that is open: its starts are looked up.
    pub(crate) fn end(&mut self, alloc: Global) -> Result<(), AllocError>
        requires may_end { MayEnd self.old }
        ensures { OnOk result (self.new ≡ ended self.old) }
    {
        self.fault = first_wrong(&self.names.heads, &self.starts).or(self.fault);
        match self.fault {
            Some(_) => self.made.leave_case(),
            None => {
                let starts = self.starts.as_slice();
                self.made.end_case(alloc, &self.names.heads, starts)?;
            }
        }
        self.starts.clear();
        Ok(())
    }
}

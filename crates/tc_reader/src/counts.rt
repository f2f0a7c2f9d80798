//! What the first pass over a script remembers of the lines before.
ghost use Rattle.std.specs.Prelude.{◌≡◌};
ghost use Rattle.tc_reader.specs.FirstPass.{argument_count, open_after as spec_open_after};
ghost use Rattle.tc_reader.specs.declared.line.{Call.Call, Line.Line};

use crate::{Call, Line, ScriptKind};
use tc_entry::{ARGUMENTS, BEHAVIOURS};
use tc_step::STEPS;

/// The most test cases of a script.
pub const TEST_CASES: usize = 1000;

/// What is open before a line.
#[derive(Clone, Copy, Debug, PartialEq, Eq)]
pub(crate) enum Open {
    /// No test case.
    Nothing,
    /// A test case without a behaviour so far.
    NewCase,
    /// A test case, after the end of a behaviour.
    Case,
    /// A behaviour of a test case.
    Behaviour,
}

/// What the first pass remembers of the lines before.
#[derive(Clone, Copy, Debug, PartialEq, Eq)]
pub(crate) struct Counts {
    pub state: Open,
    pub cases: usize,
    pub behaviours: usize,
    pub steps: usize,
}

fn arguments(call: &Call) -> usize
    ensures { result ≡ argument_count call.now }
{
    match call {
        Call::Start { args, .. } => args.as_slice().len(),
        _ => 0,
    }
}

// What is open after the line, if it may be there.
fn open_after(line: &Line, state: Open) -> Option<Open>
    ensures { result ≡ spec_open_after line.now state }
{
    match (line, state) {
        (Line::Skipped, state) => Some(state),
        (Line::TestCase(_), Open::Nothing) => Some(Open::NewCase),
        (Line::Behaviour(..), Open::NewCase | Open::Case) => Some(Open::Behaviour),
        (Line::End, Open::Case) => Some(Open::Nothing),
        (Line::End, Open::Behaviour) => Some(Open::Case),
        (Line::Step(_), Open::Behaviour) => Some(Open::Behaviour),
        _ => None,
    }
}

impl Counts {
    ghost use Rattle.tc_reader.specs.Inside.{counted, counted_with, may_end, with_counts};

    // What is remembered after the line, if this is open then and it passes no limit.
    fn with(self, line: &Line, state: Open) -> Result<Counts, ScriptKind>
        ensures { result ≡ counted_with line.now state self }
    {
        match line {
            Line::TestCase(_) if self.cases < TEST_CASES => Ok(Counts {
                state,
                cases: self.cases + 1,
                behaviours: 0,
                ..self
            }),
            Line::Behaviour(_, parameters)
                if self.behaviours < BEHAVIOURS && parameters.as_slice().len() <= ARGUMENTS => {
                Ok(Counts {
                    state,
                    behaviours: self.behaviours + 1,
                    steps: 0,
                    ..self
                })
            }
            Line::Step(call) if self.steps < STEPS && arguments(call) <= ARGUMENTS => Ok(Counts {
                state,
                steps: self.steps + 1,
                ..self
            }),
            Line::Skipped | Line::End => Ok(Counts { state, ..self }),
            _ => Err(ScriptKind::TooMany),
        }
    }

    /// What is remembered after one more line, or what is wrong with its place.
    pub(crate) fn with_line(self, line: &Line) -> Result<Counts, ScriptKind>
        ensures { result ≡ counted self line.now }
    {
        match open_after(line, self.state) {
            Some(state) => self.with(line, state),
            None => Err(ScriptKind::BadPlace),
        }
    }

    /// Continues after one more step that starts nothing, or answers what is wrong with its place.
    pub(crate) fn take_step(&mut self) -> Result<(), ScriptKind>
        ensures { with_counts self.new result ≡ counted self.old (Line.Step Call.GetVerdict) }
    {
        if !matches!(self.state, Open::Behaviour) {
            return Err(ScriptKind::BadPlace);
        }
        if self.steps >= STEPS {
            return Err(ScriptKind::TooMany);
        }
        self.steps += 1;
        Ok(())
    }

    /// Whether the text may end here.
    pub(crate) fn has_ended(self) -> bool
        ensures { result ≡ may_end self }
    {
        matches!(self.state, Open::Nothing) && self.cases > 0
    }
}

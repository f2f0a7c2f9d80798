//! Why a block has no model.
ghost use Rattle.std.specs.Prelude.{◌≡◌};
ghost use Rattle.tc_model.specs.Models.{reason_text};

/// Why a block has no model: of several the first in this order. From `NotLegal` to `NotOver` it is a fault of a line, and the
/// first line that has one counts; each other is of the whole block.
#[derive(Clone, Copy, PartialEq, Eq, Debug)]
pub enum Reason {
    /// The script has as many test cases as it may have.
    ManyCases,
    /// The block has no behaviour, or more than a test case may have.
    ManyBehaviours,
    /// The reply is not the component table's; in the last line, the verdict.
    NotLegal,
    /// No behaviour of a script makes the call here. Its run was not started, or its pass has ended. It is no wake, and one is due; or it is
    /// a wake that is not due, or that is parked again. Or it starts a run that is none of the block's, or gives the main component's run
    /// arguments.
    NotCalled,
    /// The call is a step, and the run has made as many as a behaviour may have.
    ManySteps,
    /// For the call a run must be given a component that was not there when the run was started, or nothing started the run.
    NotGiven,
    /// For the call a run must be given a component, and is given more of them than a start may have arguments.
    ManyArguments,
    /// At the end a run could still call.
    NotOver,
    /// No line has a fault, and with the test case the script would have more bytes than it may have.
    LongScript,
    /// No line has a fault, and what was written is not read as the models of the blocks. No block has a model then.
    NotRead,
}

impl Reason {
    /// The words for it.
    pub(crate) fn text(self) -> &'static str
        ensures { result.now ≡ reason_text self }
    {
        match self {
            Reason::ManyCases => "too many test cases",
            Reason::ManyBehaviours => "too many behaviours",
            Reason::NotLegal => "not what the table gives",
            Reason::NotCalled => "a call that no script makes here",
            Reason::ManySteps => "too many steps",
            Reason::NotGiven => "a component that the run is not given",
            Reason::ManyArguments => "too many arguments",
            Reason::NotOver => "a behaviour has not ended",
            Reason::LongScript => "too long a script",
            Reason::NotRead => "not read as its model",
        }
    }
}

/// A line that no model has, and why.
#[derive(Clone, Copy, PartialEq, Eq, Debug, Drop)]
pub struct Refusal {
    /// The number of the line in the text.
    pub line: usize,
    pub reason: Reason,
}

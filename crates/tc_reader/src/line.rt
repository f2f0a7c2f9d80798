//! A line of a script, as a form.
use tc_entry::{Name, Sequence, UserVerdict};
use tc_step::{GroupPlace, Place, Status, TargetPlace};

/// The first word of a line that is not skipped.
#[derive(Clone, Copy, Debug, PartialEq, Eq)]
pub enum Keyword {
    TestCase,
    Behaviour,
    End,
    Create,
    Start,
    Stop,
    Kill,
    StopCase,
    Ask(Status),
    Wait,
    SetVerdict,
    GetVerdict,
}

/// A call, as a line writes it. A component that is bound has the name of a parameter, or that which a create bound.
#[derive(Drop)]
pub enum Call {
    /// Binds `name`; the given name is what the component is called in the report, and binds nothing.
    Create {
        name: Name,
        alive: bool,
        given_name: Option<Name>,
    },
    Start {
        on: Place<Name>,
        behaviour: Name,
        args: Sequence<Place<Name>>,
    },
    Stop(GroupPlace<Place<Name>>),
    Kill(GroupPlace<Place<Name>>),
    StopCase,
    Ask(Status, TargetPlace<Place<Name>>),
    Wait {
        killed: bool,
        target: TargetPlace<Place<Name>>,
    },
    SetVerdict(UserVerdict),
    GetVerdict,
}

/// A line of a script.
#[derive(Drop)]
pub enum Line {
    /// Blank, or a comment.
    Skipped,
    /// Begins a test case.
    TestCase(Name),
    /// Begins a behaviour, with the names of its parameters.
    Behaviour(Name, Sequence<Name>),
    /// Ends what is open.
    End,
    /// A step of the behaviour that is open.
    Step(Call),
}

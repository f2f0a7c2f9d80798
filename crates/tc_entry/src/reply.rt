//! The replies, and the dynamic errors among them.
ghost use Rattle.std.specs.Prelude.{◌≡◌, IsTrue, ◌↔◌};
ghost use Rattle.tc_entry.specs.Reply.{fault_name};
ghost use Rattle.tc_entry.specs.Reply as reply;

use crate::comp::Comp;
use tc_verdict::Verdict;

/// A dynamic error; these eight, and their order, are this project's own.
#[derive(Clone, Copy, PartialEq, Eq, Debug)]
pub enum Fault {
    /// A component named in the call does not exist.
    NoComponent,
    /// Any or All, and the caller is not the main component's run.
    NotMain,
    /// Start of the main component.
    StartMain,
    /// Start of a component that is running.
    AlreadyRunning,
    /// Start of a component that is killed.
    NotStartable,
    /// Start with run 0, with a run out of range, or with a run started before.
    NoBehaviour,
    /// Create where 1,000 components exist.
    TooMany,
    /// The main component waits for what can no longer come.
    Stuck,
}

/// The name of a dynamic error.
pub fn name_of_fault(fault: Fault) -> &'static str
    ensures { result.now ≡ fault_name fault }
{
    match fault {
        Fault::NoComponent => "no-component",
        Fault::NotMain => "not-main",
        Fault::StartMain => "start-main",
        Fault::AlreadyRunning => "already-running",
        Fault::NotStartable => "not-startable",
        Fault::NoBehaviour => "no-behaviour",
        Fault::TooMany => "too-many",
        Fault::Stuck => "stuck",
    }
}

/// The reply to a call.
#[derive(Clone, Copy, PartialEq, Eq, Debug)]
pub enum Reply {
    /// A Create made this component.
    Made(Comp),
    /// The call was carried out.
    Ok,
    /// The answer to a status operation.
    Answer(bool),
    /// The caller's local verdict.
    Local(Verdict),
    /// What a wait is for has come.
    Matched,
    /// What a wait is for has not come yet.
    Parked,
    /// The caller is not the running run of its component; nothing was done.
    Ended,
    /// A dynamic error; it ends the test case.
    Fault(Fault),
}

impl Reply {
    /// An equal value.
    pub fn copy(&self) -> Reply
        ensures { result ≡ self.now }
    {
        *self
    }

    /// Whether both are the same reply.
    pub fn same(&self, other: &Reply) -> bool
        ensures { IsTrue result ↔ (self.now ≡ other.now) }
    {
        *self == *other
    }

    /// Whether the call was carried out.
    pub fn is_ok(self) -> bool
        ensures { result ≡ reply.is_ok self }
    {
        matches!(self, Reply::Ok)
    }

    /// Whether the caller was not the running run of its component.
    pub fn is_ended(self) -> bool
        ensures { result ≡ reply.is_ended self }
    {
        matches!(self, Reply::Ended)
    }

    /// Whether the call was a dynamic error.
    pub fn is_fault(self) -> bool
        ensures { result ≡ reply.is_fault self }
    {
        matches!(self, Reply::Fault(_))
    }
}

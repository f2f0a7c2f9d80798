//! An entry of a history.
ghost use Rattle.std.specs.Prelude.{◌≡◌, IsTrue, ◌↔◌};

use crate::op::Op;
use crate::reply::Reply;
use tc_verdict::Run;

/// One event of a test case: the run that called, the operation, and the reply.
#[derive(PartialEq, Eq, Debug, Drop)]
pub struct Entry {
    /// The run that called.
    pub caller: Run,
    /// What it called.
    pub op: Op,
    /// What was answered.
    pub reply: Reply,
}

impl Entry {
    /// An equal value.
    pub fn copy(&self) -> Entry
        ensures { result ≡ self.now }
    {
        Entry {
            caller: self.caller,
            op: self.op.copy(),
            reply: self.reply,
        }
    }

    /// Whether both are the same entry.
    pub fn same(&self, other: &Entry) -> bool
        ensures { IsTrue result ↔ (self.now ≡ other.now) }
    {
        self.caller == other.caller && self.op.same(&other.op) && self.reply.same(&other.reply)
    }
}

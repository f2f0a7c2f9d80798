//! What is made of a text.
ghost use Rattle.std.specs.Prelude.{◌≡◌, []};

use std::alloc::Global;
use tc_entry::Sequence;

/// What is made of the text of a task: what is written, what is printed on standard error, and the exit status.
#[derive(Drop)]
pub struct Answer {
    /// What is written.
    pub out: Sequence<u8>,
    /// What is printed.
    pub told: Sequence<u8>,
    /// The exit status.
    pub status: u8,
}

impl Answer {
    /// What is written, with nothing on standard error.
    pub fn silent(alloc: Global, out: Vec<u8>, status: u8) -> Answer
        ensures { result ≡ record { out = out.items; told = []; status = status } }
    {
        Answer {
            out: Sequence::new(out),
            told: Sequence::new(Vec::new(alloc)),
            status,
        }
    }
}

//! A complete course and its verdict.
use tc_entry::{Entry, Sequence};
use tc_verdict::Verdict;

/// An overall verdict, and a complete course that ends with it.
#[derive(Drop)]
pub struct Witness {
    pub verdict: Verdict,
    /// The entries, the oldest first.
    pub history: Sequence<Entry>,
}

//! What the keeper did with a word.
use tc_verdict::UserVerdict;

/// What the keeper did with a word.
#[derive(Clone, Copy, PartialEq, Eq, Debug)]
pub enum Record {
    /// Nothing yet.
    Unbegun,
    /// It was begun with this carried verdict.
    Open(UserVerdict),
    /// It was begun with the first verdict, and its close gave the second.
    Closed(UserVerdict, UserVerdict),
}

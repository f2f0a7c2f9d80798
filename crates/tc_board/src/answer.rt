//! What a hand was answered.
use tc_verdict::UserVerdict;

/// What a call of a hand was answered.
#[derive(Clone, Copy, PartialEq, Eq, Debug)]
pub enum Answer {
    /// The word was begun.
    Met,
    /// The setting was taken: the close counts it.
    Taken(UserVerdict),
    /// The worst verdict so far.
    Found(UserVerdict),
    /// The word was closed, for a setting or a get.
    Shut,
}

/// The answers of the hand of one run, in their order. No value of it is made: a clause reads the array as a list of
/// any length.
pub struct AnswerList {
    pub run: u16,
    pub answers: [Answer; 0],
}

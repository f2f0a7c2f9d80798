//! The first words of operations.
ghost use Rattle.std.specs.Prelude.{◌≡◌, ◌≢◌, ◌++◌, ℕ, List, IfSome, MatchOption};
ghost use Rattle.tc_text.specs.{Inside.IsWait, Inside.status_text, Inside.verb_of, Inside.verb_text, Reading.Takes};

use crate::cursor::after;
use tc_entry::Op;

/// What is asked of a target, or waited for.
#[derive(Clone, Copy, PartialEq, Eq, Debug)]
pub(crate) enum Status {
    Running,
    Alive,
    Done,
    Killed,
    WaitDone,
    WaitKilled,
    WakeDone,
    WakeKilled,
}

/// The first words of an operation, up to what it is about.
#[derive(Clone, Copy, PartialEq, Eq, Debug)]
pub(crate) enum Verb {
    Create,
    Start,
    Stop,
    Kill,
    StopCase,
    Status(Status),
    SetVerdict,
    GetVerdict,
    Finish,
}

impl Status {
    /// The words.
    #[inline]
    pub(crate) fn text(self) -> &'static str
        ensures { result.now ≡ status_text self }
    {
        match self {
            Status::Running => "running ",
            Status::Alive => "alive ",
            Status::Done => "done ",
            Status::Killed => "killed ",
            Status::WaitDone => "wait done ",
            Status::WaitKilled => "wait killed ",
            Status::WakeDone => "wake done ",
            Status::WakeKilled => "wake killed ",
        }
    }
}

impl Verb {
    /// The words.
    #[inline]
    pub(crate) fn text(self) -> &'static str
        ensures { result.now ≡ verb_text self }
    {
        match self {
            Verb::Create => "create",
            Verb::Start => "start ",
            Verb::Stop => "stop ",
            Verb::Kill => "kill ",
            Verb::StopCase => "stopcase",
            Verb::Status(status) => status.text(),
            Verb::SetVerdict => "setverdict ",
            Verb::GetVerdict => "getverdict",
            Verb::Finish => "finish",
        }
    }

    /// The first words of the operation.
    pub(crate) fn of(op: &Op) -> Verb
        ensures { result ≡ verb_of op.now }
    {
        match op {
            Op::Create { .. } => Verb::Create,
            Op::Start { .. } => Verb::Start,
            Op::Stop(_) => Verb::Stop,
            Op::Kill(_) => Verb::Kill,
            Op::StopCase => Verb::StopCase,
            Op::Running(_) => Verb::Status(Status::Running),
            Op::Alive(_) => Verb::Status(Status::Alive),
            Op::Done(_) => Verb::Status(Status::Done),
            Op::Killed(_) => Verb::Status(Status::Killed),
            Op::Wait { killed: false, .. } => Verb::Status(Status::WaitDone),
            Op::Wait { killed: true, .. } => Verb::Status(Status::WaitKilled),
            Op::Wake { killed: false, .. } => Verb::Status(Status::WakeDone),
            Op::Wake { killed: true, .. } => Verb::Status(Status::WakeKilled),
            Op::SetVerdict(_) => Verb::SetVerdict,
            Op::GetVerdict => Verb::GetVerdict,
            Op::Finish => Verb::Finish,
        }
    }
}

/// What follows the words, if the text begins with them.
#[inline(always)]
pub(crate) fn behind(text: &[u8], verb: Verb) -> Option<&[u8]>
    ensures { MatchOption result ((rest : List ℕ) → text.now ≢ verb_text verb ++ rest) (λ rest. text.now ≡ verb_text verb ++ rest.now) }
{
    after(text, verb.text().as_bytes())
}

// The words, if the text begins with them, and what follows them.
#[inline(always)]
fn take_words(text: &[u8], verb: Verb) -> Option<(Verb, &[u8])>
    ensures { MatchOption result ((rest : List ℕ) → text.now ≢ verb_text verb ++ rest) (λ r. (r.0 ≡ verb) × (text.now ≡ verb_text verb ++ r.1.now)) }
{
    Some((verb, behind(text, verb)?))
}

// The first words of the wait or the wake that the text begins with, and what follows them.
#[inline(always)]
fn take_wait(text: &[u8]) -> Option<(Verb, &[u8])>
    ensures spelled { IfSome result (λ r. text.now ≡ verb_text r.0 ++ r.1.now) }
    ensures only { (s : Status) (rest : List ℕ) → IsWait s → text.now ≡ status_text s ++ rest
        → Takes result (Verb.Status s) rest }
{
    if let Some(found) = take_words(text, Verb::Status(Status::WaitDone)) {
        Some(found)
    } else if let Some(found) = take_words(text, Verb::Status(Status::WaitKilled)) {
        Some(found)
    } else if let Some(found) = take_words(text, Verb::Status(Status::WakeDone)) {
        Some(found)
    } else if let Some(found) = take_words(text, Verb::Status(Status::WakeKilled)) {
        Some(found)
    } else {
        None
    }
}

/// The first words of the operation that the text begins with, and what follows them.
///
/// The type says who reads: each reader has a copy of this function, which the compiler can inline.
#[inline(always)]
pub(crate) fn take_verb<T>(text: &[u8]) -> Option<(Verb, &[u8])>
    ensures spelled { IfSome result (λ r. text.now ≡ verb_text r.0 ++ r.1.now) }
    ensures only { (v : Verb) (rest : List ℕ) → text.now ≡ verb_text v ++ rest → Takes result v rest }
{
    match *text.first()? {
        b's' => {
            if let Some(found) = take_words(text, Verb::Start) {
                Some(found)
            } else if let Some(found) = take_words(text, Verb::Stop) {
                Some(found)
            } else if let Some(found) = take_words(text, Verb::StopCase) {
                Some(found)
            } else {
                take_words(text, Verb::SetVerdict)
            }
        }
        b'k' => {
            if let Some(found) = take_words(text, Verb::Kill) {
                Some(found)
            } else {
                take_words(text, Verb::Status(Status::Killed))
            }
        }
        b'w' => take_wait(text),
        b'c' => take_words(text, Verb::Create),
        b'r' => take_words(text, Verb::Status(Status::Running)),
        b'a' => take_words(text, Verb::Status(Status::Alive)),
        b'd' => take_words(text, Verb::Status(Status::Done)),
        b'g' => take_words(text, Verb::GetVerdict),
        b'f' => take_words(text, Verb::Finish),
        _ => None,
    }
}

//! The commonest lines, as they are usually written: each is made a step at once, and not cut into words.
ghost use Rattle.std.specs.Prelude.{◌≡◌, ◌++◌, ◌∷◌, List, ℕ, IfSome, codes};
ghost use Rattle.tc_reader.specs.{Inside.IsStepOf, Inside.IsTargetOf, Inside.keyword_text, declared.line.Keyword.Keyword};

use crate::Step;
use crate::names::Names;
use crate::spelling::read_name;
use tc_entry::UserVerdict;
use tc_step::{Place, Status, TargetPlace};

/// What the line asks, and the bytes after the space.
#[inline(always)]
fn plain_status(line: &[u8]) -> Option<(Status, &[u8])>
    ensures { IfSome result (λ a. line.now ≡ keyword_text (Keyword.Ask a.0) ++ 32 ∷ a.1.now) }
{
    match line {
        [b'r', b'u', b'n', b'n', b'i', b'n', b'g', b' ', word @ ..] => Some((
            Status::Running,
            word,
        )),
        [b'a', b'l', b'i', b'v', b'e', b' ', word @ ..] => Some((Status::Alive, word)),
        [b'd', b'o', b'n', b'e', b' ', word @ ..] => Some((Status::Done, word)),
        [b'k', b'i', b'l', b'l', b'e', b'd', b' ', word @ ..] => Some((Status::Killed, word)),
        _ => None,
    }
}

/// The bytes after the last space, if the line waits until components are done.
#[inline(always)]
fn plain_wait(line: &[u8]) -> Option<&[u8]>
    ensures { IfSome result (λ word. line.now ≡ codes "wait done " ++ word.now) }
{
    match line {
        [
            b'w',
            b'a',
            b'i',
            b't',
            b' ',
            b'd',
            b'o',
            b'n',
            b'e',
            b' ',
            word @ ..,
        ] => Some(word),
        _ => None,
    }
}

/// The component that the word names by its name, which is bound.
#[inline(never)]
#[tactic(auto, using(crate::proofs::Stepping::target_rules))]
fn plain_bound(bound: &Names, word: &[u8]) -> Option<TargetPlace>
    ensures { IfSome result (λ target. IsTargetOf bound.now word.now target) }
{
    let name = read_name(word)?;
    let index = u16::try_from(bound.find(&name)?).ok()?;
    Some(TargetPlace::One(Place::Bound(index)))
}

/// The components that the word names.
#[inline(always)]
#[tactic(auto, using(crate::proofs::Stepping::target_rules))]
fn plain_target(bound: &Names, word: &[u8]) -> Option<TargetPlace>
    ensures { IfSome result (λ target. IsTargetOf bound.now word.now target) }
{
    match word {
        b"self" => Some(TargetPlace::One(Place::Own)),
        b"mtc" => Some(TargetPlace::One(Place::Main)),
        b"any" => Some(TargetPlace::Any),
        b"all" => Some(TargetPlace::All),
        _ => plain_bound(bound, word),
    }
}

/// The step of the line, if it asks for a status or for a verdict, sets one, or waits until components are done. One space
/// is between its words and none around them, and it names what is bound.
#[inline(always)]
#[tactic(auto, using(crate::proofs::Stepping::ask_rules))]
pub(crate) fn plain_step(bound: &Names, line: &[u8]) -> Option<Step>
    ensures { IfSome result (λ step. IsStepOf bound.now line.now step) }
{
    if let Some((status, word)) = plain_status(line) {
        return Some(Step::Ask(status, plain_target(bound, word)?));
    }
    if let Some(word) = plain_wait(line) {
        return Some(Step::Wait {
            killed: false,
            target: plain_target(bound, word)?,
        });
    }
    match line {
        b"getverdict" => Some(Step::GetVerdict),
        b"setverdict pass" => Some(Step::SetVerdict(UserVerdict::Pass)),
        b"setverdict fail" => Some(Step::SetVerdict(UserVerdict::Fail)),
        b"setverdict none" => Some(Step::SetVerdict(UserVerdict::None)),
        b"setverdict inconc" => Some(Step::SetVerdict(UserVerdict::Inconc)),
        _ => None,
    }
}

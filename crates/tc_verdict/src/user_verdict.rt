//! What a behaviour may set.
ghost use Rattle.std.specs.Prelude.{◌≡◌, Some, IfSome};
ghost use Rattle.tc_verdict.specs.{UserVerdict.given, Verdict.level_of};

use crate::verdict::Verdict;

/// What a behaviour may set (ES 201 873-1, verdict operations): every verdict but error.
#[derive(Clone, Copy, PartialEq, Eq, Debug)]
pub enum UserVerdict {
    None,
    Pass,
    Inconc,
    Fail,
}

/// The setting as a verdict.
pub fn from_user(v: UserVerdict) -> Verdict
    ensures { result ≡ given v }
{
    match v {
        UserVerdict::None => Verdict::None,
        UserVerdict::Pass => Verdict::Pass,
        UserVerdict::Inconc => Verdict::Inconc,
        UserVerdict::Fail => Verdict::Fail,
    }
}

/// The setting that is this verdict: none only for error.
pub fn to_user(v: Verdict) -> Option<UserVerdict>
    ensures same { IfSome result (λ u. given u ≡ v) }
    ensures only { (u : UserVerdict) → given u ≡ v → result ≡ Some u }
{
    match v {
        Verdict::None => Some(UserVerdict::None),
        Verdict::Pass => Some(UserVerdict::Pass),
        Verdict::Inconc => Some(UserVerdict::Inconc),
        Verdict::Fail => Some(UserVerdict::Fail),
        Verdict::Error => None,
    }
}

/// The place of a setting in the order from best to worst: 0 to 3.
pub fn rank(v: UserVerdict) -> u64
    ensures { result ≡ level_of (given v) }
{
    match v {
        UserVerdict::None => 0,
        UserVerdict::Pass => 1,
        UserVerdict::Inconc => 2,
        UserVerdict::Fail => 3,
    }
}

/// The setting of this rank: none above 3.
pub fn of_rank(n: u64) -> Option<UserVerdict>
    ensures ranked { IfSome result (λ v. level_of (given v) ≡ n) }
    ensures only { (v : UserVerdict) → level_of (given v) ≡ n → result ≡ Some v }
{
    match n {
        0 => Some(UserVerdict::None),
        1 => Some(UserVerdict::Pass),
        2 => Some(UserVerdict::Inconc),
        3 => Some(UserVerdict::Fail),
        _ => None,
    }
}

//! Verdicts and their order.
ghost use Rattle.std.specs.Prelude.{◌≡◌, ◌≢◌, ◌≤◌, [], ◌∷◌, Some, IfSome, All, Contains};
ghost use Rattle.tc_verdict.specs.UserVerdict.{given};
ghost use Rattle.tc_verdict.specs.Verdict as order;

use crate::user_verdict::{UserVerdict, from_user};

/// A verdict (ES 201 873-1, test verdicts), from best to worst.
#[derive(Clone, Copy, PartialEq, Eq, Debug)]
pub enum Verdict {
    None,
    Pass,
    Inconc,
    Fail,
    Error,
}

fn level(v: Verdict) -> u8
    ensures { result ≡ order.level_of v }
{
    match v {
        Verdict::None => 0,
        Verdict::Pass => 1,
        Verdict::Inconc => 2,
        Verdict::Fail => 3,
        Verdict::Error => 4,
    }
}

/// The worse of two verdicts.
pub fn worse_of(a: Verdict, b: Verdict) -> Verdict
    ensures { result ≡ order.worse a b }
{
    if level(a) < level(b) { b } else { a }
}

/// What setverdict leaves of the old value (ES 201 873-1, verdict overwriting rules).
pub fn overwrite(old: Verdict, new: UserVerdict) -> Verdict
    ensures { result ≡ order.worst (old ∷ given new ∷ []) }
{
    worse_of(old, from_user(new))
}

/// The worst of these verdicts: none if the list is empty.
pub fn worst(all: &[Verdict]) -> Verdict
    ensures is { result ≡ order.worst all.now }
    ensures greatest { All (λ v. order.level_of v ≤ order.level_of result) all.now }
    ensures member { all.now ≢ [] → Contains all.now result }
{
    let mut worst = Verdict::None;
    for verdict in all {
        worst = worse_of(worst, *verdict);
    }
    worst
}

/// The verdict's name, as reports and scripts spell it.
pub fn name(v: Verdict) -> &'static str
    ensures { result.now ≡ order.name_of v }
{
    match v {
        Verdict::None => "none",
        Verdict::Pass => "pass",
        Verdict::Inconc => "inconc",
        Verdict::Fail => "fail",
        Verdict::Error => "error",
    }
}

/// The verdict of this name.
pub fn read_name(text: &str) -> Option<Verdict>
    ensures spelled { IfSome result (λ v. text.now ≡ order.name_of v) }
    ensures only { (v : Verdict) → text.now ≡ order.name_of v → result ≡ Some v }
{
    match text {
        "none" => Some(Verdict::None),
        "pass" => Some(Verdict::Pass),
        "inconc" => Some(Verdict::Inconc),
        "fail" => Some(Verdict::Fail),
        "error" => Some(Verdict::Error),
        _ => None,
    }
}

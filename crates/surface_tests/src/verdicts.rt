//! Names of `tc_verdict`: verdicts, their order and their names, and which of them a behaviour may set.
use crate::checks::is;
use tc_verdict::{
    UserVerdict, Verdict, from_user, name, of_rank, overwrite, rank, read_name, to_user, worst,
};

#[test]
fn the_worse_verdict_stays(rt: HostRuntime) {
    let worse = overwrite(Verdict::Pass, UserVerdict::Fail);
    is(&rt, "overwrite", worse, Verdict::Fail);
    let all = [Verdict::Pass, Verdict::Error, Verdict::Inconc];
    is(&rt, "worst", worst(&all), Verdict::Error);
    is(&rt, "worst of no verdict", worst(&[]), Verdict::None);
}

/// The word of each verdict.
fn word_of(verdict: Verdict) -> &'static str {
    match verdict {
        Verdict::None => "none",
        Verdict::Pass => "pass",
        Verdict::Inconc => "inconc",
        Verdict::Fail => "fail",
        Verdict::Error => "error",
    }
}

#[test]
fn names_are_read_back(rt: HostRuntime) {
    let verdict = Verdict::Inconc;
    is(&rt, "name", name(verdict), word_of(verdict));
    is(&rt, "read_name", read_name("inconc"), Some(verdict));
    is(&rt, "read_name of no name", read_name("Inconc"), None);
}

#[test]
fn error_is_not_for_a_behaviour(rt: HostRuntime) {
    is(&rt, "to_user", to_user(Verdict::Error), None);
    is(
        &rt,
        "from_user",
        from_user(UserVerdict::Fail),
        Verdict::Fail,
    );
}

/// The number of each verdict that a behaviour may set.
fn number_of(verdict: UserVerdict) -> u64 {
    match verdict {
        UserVerdict::None => 0,
        UserVerdict::Pass => 1,
        UserVerdict::Inconc => 2,
        UserVerdict::Fail => 3,
    }
}

#[test]
fn ranks_are_read_back(rt: HostRuntime) {
    let verdict = UserVerdict::Fail;
    is(&rt, "rank", rank(verdict), number_of(verdict));
    is(&rt, "of_rank", of_rank(3), Some(verdict));
    is(&rt, "of_rank of 4", of_rank(4), None);
}

//! What the judges say of each window, and of a window that moves while it is looked at.
use crate::behaviour::{Part, close};
use crate::cases::{CLOSES, OPENS_AGAIN, case, cases};
use crate::window::{OPEN, Window};
use std::test::Fail;
use tc_campaign::run_campaign;
use tc_entry::Verdict;

/// How many workers a test case needs: one for each behaviour but the first.
const WORKERS: u16 = 2;

#[test]
fn a_broken_window_fails(rt: HostRuntime) -> Result<(), Fail> {
    let alloc = rt.alloc();
    let results = run_campaign(&rt, alloc, cases(rt, alloc)?, None, WORKERS);
    let mut verdicts = Vec::new(alloc);
    for case in results.finished.as_slice() {
        verdicts.push(case.report.verdict)?;
    }
    let wanted = [Verdict::Pass, Verdict::Pass, Verdict::Fail];
    assert_eq!(rt; verdicts.as_slice(), wanted.as_slice());
    Ok(())
}

/// A judge that looks at once says pass or fail of a sound window, depending on who comes first; one that waits says
/// pass.
#[test]
fn a_hasty_judge_may_fail_a_sound_window(rt: HostRuntime) -> Result<(), Fail> {
    let alloc = rt.alloc();
    for _ in 0..50 {
        let hasty = case(
            rt,
            alloc,
            "hasty",
            Part::HastyJudge { wanted: CLOSES },
            Window::new(None, false),
        )?;
        let patient = case(
            rt,
            alloc,
            "patient",
            Part::Judge { wanted: CLOSES },
            Window::new(None, false),
        )?;
        let cases = vec![in alloc; hasty, patient]?;
        let results = run_campaign(&rt, alloc, cases, None, WORKERS);
        let [hasty, patient] = results.finished.as_slice() else {
            return Err(Fail::from("two reports"));
        };
        assert!(rt; matches!(hasty.report.verdict, Verdict::Pass | Verdict::Fail));
        assert_eq!(rt; patient.report.verdict, Verdict::Pass);
    }
    Ok(())
}

/// A motor that does not move leaves the window as open as one that opens again does.
#[test]
fn a_window_that_does_not_move_fails(rt: HostRuntime) -> Result<(), Fail> {
    let alloc = rt.alloc();
    for wanted in [CLOSES, OPENS_AGAIN] {
        let stuck = Window::new(Some(OPEN), false);
        let judge = Part::Judge { wanted };
        let cases = vec![in alloc; case(rt, alloc, "stuck", judge, stuck)?]?;
        let results = run_campaign(&rt, alloc, cases, None, WORKERS);
        let [stuck] = results.finished.as_slice() else {
            return Err(Fail::from("one report"));
        };
        assert_eq!(rt; stuck.report.verdict, Verdict::Fail);
    }
    Ok(())
}

#[test]
fn a_window_opens_where_it_meets_something(rt: HostRuntime) -> Result<(), Fail> {
    for (obstacle, is_broken, wanted) in [
        (None, false, CLOSES),
        (Some(5), false, OPENS_AGAIN),
        (Some(5), true, CLOSES),
    ] {
        let window = Window::new(obstacle, is_broken);
        close(&window);
        assert_eq!(rt; window.stand(), wanted);
    }
    Ok(())
}

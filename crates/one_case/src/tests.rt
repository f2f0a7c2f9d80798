//! A device that is too hot ends the test case; any other does not.
use crate::WORKERS;
use crate::behaviours::{guard, lead};
use std::test::Fail;
use tc_book::Pass;
use tc_entry::Verdict;
use tc_exec::{Back, Job, run_case};

#[test]
fn a_hot_device_ends_the_case(rt: HostRuntime) -> Result<(), Fail> {
    let alloc = rt.alloc();
    for (degrees, main, other) in [
        (89, Verdict::Pass, Verdict::None),
        (90, Verdict::None, Verdict::Error),
    ] {
        let first: Box<dyn FnOnce(Pass) -> Back + Send> = Box::new(
            alloc,
            move |pass: Pass| lead(&rt, pass),
        )?;
        let second: Box<dyn FnOnce(Pass) -> Back + Send> = Box::new(alloc, move |pass: Pass| {
            let mut pass = pass;
            let made = guard(&rt, &mut pass, degrees);
            Back::after(pass, made)
        })?;
        let jobs = vec![in alloc; Job::new(first), Job::new(second)]?;
        let report = run_case(&rt, alloc, jobs, WORKERS)?;
        assert_eq!(rt; report.locals.as_slice(), [main, other].as_slice());
    }
    Ok(())
}

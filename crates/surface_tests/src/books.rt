//! Names of `tc_book`: the book of a test case under its lock, the passes of its runs, and its close.
use crate::checks::{holds, is};
use std::alloc::Global;
use std::process::Abort;
use std::sync::{Arc, Wait};
use std::test::Fail;
use tc_board::Board;
use tc_book::laws::{Book, merge};
use tc_book::{
    CloseFault, Closed, Halt, Left, Pass, RunLog, Sequence, Shared, Ticket, close_case, open_case,
};
use tc_table::{Args, Comp, Entry, Fault, Group, Name, NoMemory, Op, Reply, Run, Target};
use tc_verdict::{UserVerdict, Verdict};

/// The pass of the run of this ticket, which was started.
fn enter<R: Wait>(rt: &R, ticket: Ticket) -> Result<Pass, Fail> {
    Ok(ticket.await_start(rt).ok().ok_or("a started run")?)
}

/// Creates a component, and starts run 1 on it.
fn start_one<R: Abort + Wait>(rt: &R, pass: &mut Pass) -> Result<Comp, Halt> {
    let comp = pass.create(rt, true)?;
    is(rt, "create", comp, Comp(1));
    let mut args = Args::new();
    args.push(pass.me());
    pass.start(rt, comp, Run(1), &args)?;
    Ok(comp)
}

/// What the pass of run 1 knows at first.
fn is_new(rt: &impl Abort, pass: &Pass) {
    is(rt, "run", pass.run(), Run(1));
    is(rt, "me", pass.me(), Comp(1));
    is(rt, "args", pass.args(), [Comp(0)].as_slice());
    is(rt, "log", pass.log().len(), 0);
    is(rt, "is_ended", pass.is_ended(), false);
}

/// Run 1 sets a verdict.
fn set_and_get(rt: &impl Abort, pass: &mut Pass) -> Result<(), Halt> {
    pass.make_room(2);
    pass.set_verdict(UserVerdict::Inconc)?;
    is(rt, "get_verdict", pass.get_verdict()?, Verdict::Inconc);
    Ok(())
}

/// Run 0 asks about the component, stops it, and waits for it.
fn ask_and_stop<R: Abort + Wait>(rt: &R, pass: &mut Pass, comp: Comp) -> Result<(), Halt> {
    let one = Target::One(comp);
    is(rt, "running", pass.running(rt, one)?, true);
    is(rt, "alive", pass.alive(rt, one)?, true);
    pass.stop(rt, Group::One(comp))?;
    pass.wait_done(rt, one)?;
    is(rt, "done", pass.done(rt, one)?, true);
    is(rt, "killed", pass.killed(rt, one)?, false);
    pass.kill(rt, Group::All)?;
    pass.wait_killed(rt, Target::All)
}

/// Run 1, whose component is halted, gets to know it.
fn is_halted(rt: &impl Abort, pass: &mut Pass) {
    let late = pass.get_verdict();
    is(rt, "a late call", late, Err(Halt::Ended));
    is(rt, "is_ended then", pass.is_ended(), true);
}

/// What run 1 left.
fn is_left(rt: &impl Abort, left: &Left) {
    is(rt, "run", left.run(), Run(1));
    is(rt, "log", left.log().len(), 3);
    let args = [Comp(0)];
    let start = Some((Comp(1), args.as_slice()));
    is(rt, "started", left.started(), start);
}

/// What both runs leave.
fn left_by_both<R: Abort + Wait>(
    rt: &R,
    alloc: Global,
    pass: Pass,
    ticket: Ticket,
) -> Result<Vec<Left>, Fail> {
    let mut main = pass;
    let comp = start_one(rt, &mut main)?;
    let mut other = enter(rt, ticket)?;
    is_new(rt, &other);
    set_and_get(rt, &mut other)?;
    ask_and_stop(rt, &mut main, comp)?;
    is_halted(rt, &mut other);
    let first = main.leave(rt);
    let second = other.leave(rt);
    is_left(rt, &second);
    Ok(vec![in alloc; first, second]?)
}

fn is_log(rt: &impl Abort, log: &RunLog, run: Run, comp: Comp, entries: usize) {
    is(rt, "run", log.run, run);
    is(rt, "comp", log.comp, comp);
    is(rt, "entries", log.entries.as_slice().len(), entries);
}

fn is_closed(rt: &impl Abort, closed: &Closed) {
    is(rt, "behaviours", closed.behaviours, 2);
    is(rt, "history", closed.history.as_slice().len(), 14);
    let locals = [Verdict::None, Verdict::Inconc];
    is(rt, "locals", closed.locals.as_slice(), locals.as_slice());
    is(rt, "verdict", closed.verdict, Verdict::Inconc);
    is(rt, "logs", closed.logs.as_slice().len(), 2);
    if let [first, second] = closed.logs.as_slice() {
        is_log(rt, first, Run(0), Comp(0), 11);
        is_log(rt, second, Run(1), Comp(1), 3);
    }
}

#[test]
fn a_case_is_opened_and_closed(rt: HostRuntime) -> Result<(), Fail> {
    let (shared, pass, mut tickets) = open_case(rt.alloc(), 2)?;
    let ticket = tickets.pop().ok_or("a ticket")?;
    is(&rt, "run of a ticket", ticket.run(), Run(1));
    let lefts = left_by_both(&rt, rt.alloc(), pass, ticket)?;
    let closed = close_case(&rt, rt.alloc(), shared, lefts)?;
    is_closed(&rt, &closed);
    Ok(())
}

#[test]
fn a_run_that_was_not_started_leaves(rt: HostRuntime) -> Result<(), Fail> {
    let (shared, pass, mut tickets) = open_case(rt.alloc(), 2)?;
    let ticket = tickets.pop().ok_or("a ticket")?;
    let first = pass.leave(&rt);
    let second = ticket.await_start(&rt).err().ok_or("a left")?;
    is(&rt, "started", second.started(), None);
    let lefts = vec![in rt.alloc(); first, second]?;
    let closed = close_case(&rt, rt.alloc(), shared, lefts)?;
    is(&rt, "history", closed.history.as_slice().len(), 1);
    Ok(())
}

/// The words of each refusal of a close.
fn words_of(fault: CloseFault) -> &'static str {
    match fault {
        CloseFault::Torn => "torn",
        CloseFault::NoMemory => "no memory",
    }
}

/// Closes a case without what its run left.
fn close_of_nothing<R: Wait>(rt: &R, alloc: Global, shared: Shared) -> Option<&'static str> {
    let closed = close_case(rt, alloc, shared, Vec::new(alloc));
    closed.err().map(words_of)
}

#[test]
fn a_close_without_a_left_is_torn(rt: HostRuntime) -> Result<(), Fail> {
    let (shared, mut pass, _) = open_case(rt.alloc(), 1)?;
    let pump = Name::read("pump").ok_or("a name")?;
    let made = pass.create_named(&rt, false, pump);
    is(&rt, "create_named", made, Ok(Comp(1)));
    is(&rt, "stop_case", pass.stop_case(&rt), Ok(()));
    let torn = close_of_nothing(&rt, rt.alloc(), shared);
    is(&rt, "close_case", torn, Some("torn"));
    Ok(())
}

#[test]
fn a_dynamic_error_is_a_halt(rt: HostRuntime) -> Result<(), Fail> {
    let (_, mut pass, _) = open_case(rt.alloc(), 1)?;
    let stop = pass.stop(&rt, Group::One(Comp(7)));
    is(&rt, "stop", stop, Err(Halt::Fault(Fault::NoComponent)));
    Ok(())
}

/// A book of two behaviours, on a board of its own.
fn book_of_two(alloc: Global) -> Result<Book, NoMemory> {
    let (board, keeper, _) = Board::new(alloc, 2)?;
    match Arc::new(alloc, board) {
        Ok(board) => Book::new(alloc, 2, keeper, board),
        Err(_) => Err(NoMemory),
    }
}

/// Run 0 creates a component, starts run 1 on it, and finishes. It has not waited.
fn are_recorded(rt: &impl Abort, book: &mut Book) -> Result<(), NoMemory> {
    let create = Op::Create {
        alive: false,
        name: None,
    };
    let made = book.record(Run(0), create)?;
    is(rt, "record", made, Reply::Made(Comp(1)));
    let start = Op::Start {
        comp: Comp(1),
        run: Run(1),
        args: Args::new(),
    };
    is(rt, "record", book.record(Run(0), start)?, Reply::Ok);
    let started = matches!(book.start_of(Run(1)), Some((Comp(1), _)));
    holds(rt, "start_of", started);
    let wake = book.wake(Run(0), false, Target::One(Comp(1)));
    is(rt, "wake", wake, None);
    let leave = book.leave(Run(0), false);
    is(rt, "leave", leave, Some(Some(Reply::Ok)));
    Ok(())
}

#[test]
fn a_book_records(rt: HostRuntime) -> Result<(), Fail> {
    let mut book = book_of_two(rt.alloc())?;
    are_recorded(&rt, &mut book)?;
    let torn = book.close(rt.alloc(), Vec::new(rt.alloc())).err();
    is(&rt, "close", torn, Some(CloseFault::Torn));
    Ok(())
}

/// An entry of run 0 that was replied Ok.
fn entry_of(op: Op) -> Entry {
    Entry {
        caller: Run(0),
        op,
        reply: Reply::Ok,
    }
}

/// A log of run 0: it sets a verdict and finishes.
fn log(alloc: Global) -> Result<RunLog, Fail> {
    let set = entry_of(Op::SetVerdict(UserVerdict::Pass));
    let entries = vec![in alloc; set, entry_of(Op::Finish)]?;
    Ok(RunLog {
        run: Run(0),
        comp: Comp(0),
        entries: Sequence::new(entries),
    })
}

#[test]
fn a_list_is_given_back(rt: HostRuntime) -> Result<(), Fail> {
    let list = Sequence::new(vec![in rt.alloc(); Run(0), Run(1)]?);
    is(&rt, "as_slice", list.as_slice().len(), 2);
    is(&rt, "into_vec", list.into_vec().len(), 2);
    Ok(())
}

#[test]
fn logs_are_merged(rt: HostRuntime) -> Result<(), Fail> {
    let log = log(rt.alloc())?;
    let all = merge(rt.alloc(), &[entry_of(Op::Finish)], &[log])?;
    let first = all.first().ok_or("an entry")?;
    holds(
        &rt,
        "the setting first",
        matches!(first.op, Op::SetVerdict(_)),
    );
    is(&rt, "entries", all.len(), 2);
    Ok(())
}

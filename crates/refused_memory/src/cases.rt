//! The open of a case, the calls on its passes, and its close.
ghost use Rattle.tc_rules.specs.Prelude.{IsBehaviours};

use crate::stock::Stock;
use crate::tables::{MOST, call_lines};
use crate::tells::{Called, Told, made, tell_left, tell_number, tell_pass};
use crate::trial::Trial;
use std::alloc::Global;
use std::sync::Wait;
use tc_board::Board;
use tc_book::laws::merge;
use tc_book::{CloseFault, Closed, Halt, Left, Pass, Shared, Ticket, close_case, open_case};
use tc_entry::{Args, Entry, NoMemory, Op, Run, name_of_fault};
use tc_exec::Back;
use tc_text::append_text;

/// Calls of two runs, none of which waits for a thread.
const CALLS: &str = "0 create alive named pump
0 create
0 start 1 1 2
1 setverdict pass
1 getverdict
1 running 2
1 alive 2
1 done 2
1 killed 2
1 stop 2
1 setverdict inconc
0 create alive
0 running all
0 alive any
0 done any
0 killed all
0 kill 2
0 wait killed 2
0 getverdict
0 setverdict pass
0 create named valve
1 getverdict
1 getverdict
1 getverdict
1 getverdict
1 getverdict
1 getverdict
0 stop 1
0 wait done any
1 setverdict fail
0 wait done 3
0 create
";

/// The first calls, what asks for a verdict, and the last call: the end of a case, and waits in vain.
const LAST: [(&str, &str, &str); 5] = [
    ("", "0 getverdict", "0 stopcase"),
    ("0 create\n0 start 1 1", "1 getverdict", "1 stopcase"),
    ("0 create", "0 getverdict", "0 wait done 1"),
    ("0 create", "0 getverdict", "0 wait killed 1"),
    ("0 create alive", "0 getverdict", "0 wait killed all"),
];

/// Before the last call fewer than this many calls ask for a verdict: after one of them the log of the run is full.
const ASKED: usize = 9;

/// For that many calls a log needs more room than a new one has.
const ROOM: usize = 100;

/// The first calls of both runs.
const FIRST: &str = "0 create alive\n0 create\n0 start 1 1\n1 setverdict pass\n0 getverdict";

/// What a ticket gives. It has no contract, so that the proofs of its callers are short.
fn await_start<R: Wait>(rt: &R, ticket: Ticket) -> Result<Pass, Left> {
    ticket.await_start(rt)
}

/// What the run of this ticket leaves.
fn left_unstarted<R: Wait>(rt: &R, ticket: Ticket) -> Left {
    match await_start(rt, ticket) {
        Ok(pass) => pass.leave(rt),
        Err(left) => left,
    }
}

/// A case of two behaviours, with the passes of the runs that were started, in their order.
#[derive(Drop)]
struct Opened<R: Wait + Copy> {
    rt: R,
    shared: Shared,
    passes: Vec<Pass>,
    tickets: Vec<Ticket>,
}

/// Asks for a status. Why there is no answer; none if there is.
fn ask_on<R: Wait>(rt: &R, pass: &mut Pass, op: &Op) -> Option<Halt> {
    match op {
        Op::Running(target) => pass.running(rt, *target).err(),
        Op::Alive(target) => pass.alive(rt, *target).err(),
        Op::Done(target) => pass.done(rt, *target).err(),
        Op::Killed(target) => pass.killed(rt, *target).err(),
        _ => None,
    }
}

/// Creates or waits. Why it is not answered; none if it is.
fn create_or_wait<R: Wait>(rt: &R, pass: &mut Pass, op: &Op) -> Option<Halt> {
    match op {
        Op::Create { alive, name: None } => pass.create(rt, *alive).err(),
        Op::Create {
            alive,
            name: Some(name),
        } => pass.create_named(rt, *alive, name.copy()).err(),
        Op::Wait {
            killed: true,
            target,
        } => pass.wait_killed(rt, *target).err(),
        Op::Wait {
            killed: false,
            target,
        } => pass.wait_done(rt, *target).err(),
        _ => None,
    }
}

/// Makes a call; none of those that a pass does not have. Why it is not answered; none if it is.
pub(crate) fn call_on<R: Wait>(rt: &R, pass: &mut Pass, op: &Op) -> Option<Halt> {
    match op {
        Op::Create { .. } | Op::Wait { .. } => create_or_wait(rt, pass, op),
        Op::Start { comp, run, args } => pass.start(rt, *comp, *run, args).err(),
        Op::Stop(group) => pass.stop(rt, *group).err(),
        Op::Kill(group) => pass.kill(rt, *group).err(),
        Op::StopCase => pass.stop_case(rt).err(),
        Op::Running(_) | Op::Alive(_) | Op::Done(_) | Op::Killed(_) => ask_on(rt, pass, op),
        Op::SetVerdict(verdict) => pass.set_verdict(*verdict).err(),
        Op::GetVerdict => pass.get_verdict().err(),
        Op::Wake { .. } | Op::Finish => None,
    }
}

/// Appends why a call is not answered, if it is not. Whether there was memory for it.
fn tell_halt(out: &mut Vec<u8>, halt: Option<Halt>) -> bool {
    let text = match halt {
        None => "answered",
        Some(Halt::Ended) => "ended",
        Some(Halt::Fault(fault)) => name_of_fault(fault),
        Some(Halt::NoMemory) => return false,
    };
    append_text(out, text).is_ok()
}

impl<R: Wait + Copy> Opened<R> {
    /// A new case, with room for both passes.
    fn new(rt: R, alloc: Global) -> Option<Opened<R>> {
        let mut passes = Vec::with_capacity(alloc, 2).ok()?;
        let (shared, main, tickets) = open_case(alloc, 2).ok()?;
        passes.push(main).ok()?;
        Some(Opened {
            rt,
            shared,
            passes,
            tickets,
        })
    }

    /// Takes the pass of run 1, which was started.
    fn meet(&mut self) {
        if let Some(ticket) = self.tickets.pop()
            && let Ok(pass) = await_start(&self.rt, ticket)
        {
            // There is room for two.
            let _ = self.passes.push(pass);
        }
    }

    /// The place of the pass of this run, and that of the pass of run 0 if it was not started.
    fn place(&self, run: Run) -> usize {
        usize::from(run == Run(1) && self.passes.len() == 2)
    }
}

/// What all runs leave of a case.
fn lefts_of<R: Wait>(rt: &R, alloc: Global, passes: Vec<Pass>, tickets: Vec<Ticket>) -> Vec<Left> {
    let mut lefts = Vec::new(alloc);
    for pass in passes {
        // With one less the case is not closed, which shows in the text.
        let _ = lefts.push(pass.leave(rt));
    }
    for ticket in tickets {
        let _ = lefts.push(left_unstarted(rt, ticket));
    }
    lefts
}

impl<R: Wait + Copy> Told for Opened<R> {
    fn tell(&self, out: &mut Vec<u8>) {
        for pass in &self.passes {
            tell_pass(out, pass);
        }
    }
}

impl<R: Wait + Copy> Called<(Run, Op)> for Opened<R> {
    fn call(&mut self, with: &(Run, Op), out: &mut Vec<u8>) -> bool {
        let (run, op) = with;
        let place = self.place(*run);
        let Some(pass) = self.passes.get_mut(place) else {
            return false;
        };
        let halt = call_on(&self.rt, pass, op);
        if halt.is_none() && matches!(op, Op::Start { .. }) {
            self.meet();
        }
        tell_halt(out, halt)
    }
}

/// Calls, each after those before it: the first ones, that many that ask for a verdict, and the last.
fn call_each<R: Wait + Copy>(
    rt: R,
    trial: &mut Trial,
    (first, asking, last): (&str, &str, &str),
    asked: usize,
) {
    if let Some(mut opened) = Opened::new(rt, trial.alloc) {
        trial.begin(
            "\
Pass::create Pass::create_named Pass::start Pass::stop Pass::kill Pass::stop_case Pass::running Pass::alive Pass::done \
Pass::killed Pass::set_verdict Pass::get_verdict Pass::wait_done Pass::wait_killed",
        );
        call_lines(trial, &mut opened, first);
        for _ in 0..asked {
            call_lines(trial, &mut opened, asking);
        }
        call_lines(trial, &mut opened, last);
        trial.end();
        drop(opened);
    }
}

/// Room in the log of a pass, which leaves the pass as it is whether there is the memory for it or not.
fn make_room<R: Wait + Copy>(rt: R, trial: &mut Trial) {
    if let Some(mut opened) = Opened::new(rt, trial.alloc) {
        trial.begin("");
        if let Some(pass) = opened.passes.get_mut(0) {
            pass.make_room(ROOM);
        }
        trial.end();
        opened.tell(&mut trial.out);
    }
}

/// Room in the log, and all calls, each after those before it.
pub(crate) fn call<R: Wait + Copy>(rt: R, trial: &mut Trial) {
    make_room(rt, trial);
    call_each(rt, trial, (CALLS, "", ""), 0);
}

/// The last call of each list, after none, one, two and so on that ask for a verdict.
pub(crate) fn call_last<R: Wait + Copy>(rt: R, trial: &mut Trial) {
    for lines in &LAST {
        for asked in 0..ASKED {
            call_each(rt, trial, *lines, asked);
        }
    }
}

/// What all runs leave of a case after all calls, and what they leave it of.
fn left_all<R: Wait + Copy>(rt: R, trial: &mut Trial) -> Option<(Shared, Vec<Left>)> {
    let mut opened = Opened::new(rt, trial.alloc)?;
    call_lines(trial, &mut opened, CALLS);
    let Opened {
        rt,
        shared,
        passes,
        tickets,
    } = opened;
    Some((shared, lefts_of(&rt, trial.alloc, passes, tickets)))
}

/// A case that was closed after all calls.
pub(crate) fn closed<R: Wait + Copy>(rt: R, trial: &mut Trial) -> Option<Closed> {
    let (shared, lefts) = left_all(rt, trial)?;
    close_case(&rt, trial.alloc, shared, lefts).ok()
}

/// The entries that are none of verdicts.
fn locked(alloc: Global, history: &[Entry]) -> Vec<Entry> {
    let mut kept = Vec::new(alloc);
    for entry in history {
        if !matches!(entry.op, Op::SetVerdict(_) | Op::GetVerdict) {
            // With an entry less the merge is another one, which shows in the text.
            let _ = kept.push(entry.copy());
        }
    }
    kept
}

/// The close of a case after all calls, and the merge of its logs with its history, which here has no verdict entries.
pub(crate) fn close<R: Wait + Copy>(rt: R, trial: &mut Trial, stock: &Stock) {
    let kept = locked(trial.alloc, stock.closed.history.as_slice());
    if let Some((shared, lefts)) = left_all(rt, trial) {
        trial.begin("close_case merge");
        made(
            close_case(&rt, trial.alloc, shared, lefts),
            CloseFault::NoMemory,
            trial,
        );
        made(
            merge(trial.alloc, &kept, stock.closed.logs.as_slice()),
            NoMemory,
            trial,
        );
        trial.end();
    }
}

/// A board for that many behaviours, which has a hand for each.
fn make_board(trial: &mut Trial, behaviours: u16)
    requires { IsBehaviours behaviours }
{
    let answer = Board::new(trial.alloc, behaviours);
    match &answer {
        Ok((_, _, hands)) => tell_number(&mut trial.out, hands.len()),
        Err(NoMemory) => trial.refuse(true),
    }
    trial.end_call();
}

/// Boards for one, some and the most behaviours.
pub(crate) fn make_boards(trial: &mut Trial) {
    trial.begin("Board::new");
    make_board(trial, 1);
    make_board(trial, 7);
    make_board(trial, MOST);
    trial.end();
}

/// The open of a case of that many behaviours, which has a pass, and a ticket for each other run.
fn open(trial: &mut Trial, behaviours: u16)
    requires { IsBehaviours behaviours }
{
    let answer = open_case(trial.alloc, behaviours);
    match &answer {
        Ok((_, pass, tickets)) => {
            tell_pass(&mut trial.out, pass);
            tell_number(&mut trial.out, tickets.len());
        }
        Err(NoMemory) => trial.refuse(true),
    }
    trial.end_call();
}

/// The open of cases of one, some and the most behaviours.
pub(crate) fn open_all(trial: &mut Trial) {
    trial.begin("open_case");
    open(trial, 1);
    open(trial, 7);
    open(trial, MOST);
    trial.end();
}

/// Appends what is asked of a case and its passes.
fn tell_asked<R: Wait + Copy>(opened: &Opened<R>, out: &mut Vec<u8>) {
    for pass in &opened.passes {
        tell_number(out, pass.args().len());
        tell_number(out, usize::from(pass.hand().run().0));
    }
    for ticket in &opened.tickets {
        tell_number(out, usize::from(ticket.run().0));
    }
    let has_place = opened.shared.look(&opened.rt).has_place(Run(1));
    // There is room for the text.
    let _ = out.push(u8::from(has_place));
    opened.tell(out);
}

/// Appends what this pass leaves.
fn leave<R: Wait>(rt: &R, out: &mut Vec<u8>, pass: Pass) {
    tell_left(out, &Back::after(pass, Ok(())).pass.leave(rt));
}

/// Appends what the last of the passes leaves.
fn leave_last<R: Wait>(rt: &R, out: &mut Vec<u8>, passes: &mut Vec<Pass>) {
    if let Some(pass) = passes.pop() {
        leave(rt, out, pass);
    }
}

/// What is asked of a case after the first calls, the calls that follow, and the leaves of its runs, the last one first.
fn ask_behind<R: Wait + Copy>(rt: R, trial: &mut Trial, before: &str, calls: &str) {
    if let Some(mut opened) = Opened::new(rt, trial.alloc) {
        call_lines(trial, &mut opened, before);
        trial.begin_each(
            "\
Pass::run Pass::me Pass::args Pass::log Pass::hand Pass::is_ended Hand::run Ticket::run Shared::look \
Look::has_place Pass::leave Back::after Left::run Left::log Left::started",
        );
        tell_asked(&opened, &mut trial.out);
        call_lines(trial, &mut opened, calls);
        leave_last(&rt, &mut trial.out, &mut opened.passes);
        leave_last(&rt, &mut trial.out, &mut opened.passes);
        trial.end();
        drop(opened);
    }
}

/// What is asked of a case that is new, that has begun, and that was stopped, whose pass has ended.
pub(crate) fn ask<R: Wait + Copy>(rt: R, trial: &mut Trial) {
    ask_behind(rt, trial, "", "");
    ask_behind(rt, trial, FIRST, "");
    ask_behind(rt, trial, "0 stopcase", CALLS);
    ask_behind(rt, trial, "0 stopcase", "0 stopcase");
}

/// What this ticket gives.
fn take<R: Wait>(rt: &R, trial: &mut Trial, ticket: Ticket) {
    trial.begin_each("Ticket::await_start");
    match await_start(rt, ticket) {
        Ok(pass) => leave(rt, &mut trial.out, pass),
        Err(left) => tell_left(&mut trial.out, &left),
    }
    trial.end();
}

/// What tickets give: the pass of a run that was started, and what one leaves that was not.
pub(crate) fn await_starts<R: Wait>(rt: &R, trial: &mut Trial) {
    if let Ok((_shared, mut main, tickets)) = open_case(trial.alloc, 3) {
        if let Ok(comp) = main.create(rt, false) {
            // What the tickets give shows whether it was started.
            let _ = main.start(rt, comp, Run(1), &Args::new());
        }
        // It halts, as the case has ended.
        let _ = main.stop_case(rt);
        for ticket in tickets {
            take(rt, trial, ticket);
        }
    }
}

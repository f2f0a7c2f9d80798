//! Small cases of three runs, whose calls are made in every order, with verdict calls among them: each closes.
use crate::calls::{await_start, calls, close, leave, open};
use crate::checks::{at_least, got, is};
use std::alloc::Global;
use std::process::Abort;
use std::sync::Wait;
use tc_book::{Closed, Halt, Left, Pass, Shared, Ticket};
use tc_rules::{
    Args, Comp, Entry, Group, NoMemory, Op, Reply, Run, UserVerdict, Verdict, replay_check,
};

/// A call of a small case.
#[derive(Clone, Copy)]
enum Call {
    Set(UserVerdict),
    Get,
    Start(u32, u16),
    Stop(u32),
    Kill(u32),
    KillAll,
    StopCase,
}

/// A case of three runs and two components: the calls of each run, whose order among one another is open. Before them run 0
/// makes alive-type components 1 and 2 and starts run 1 on component 1.
type Small = [[Call; 3]; 3];

/// An order: at each step which of the runs that can continue continued, and how many they were.
#[derive(Drop)]
struct Order {
    choices: Vec<(usize, usize)>,
    at: usize,
}

impl Order {
    fn first(alloc: Global) -> Order {
        Order {
            choices: Vec::new(alloc),
            at: 0,
        }
    }

    /// The next choice among that many.
    fn choose(&mut self, among: usize) -> Result<usize, NoMemory> {
        let at = self.at;
        self.at = at.saturating_add(1);
        if let Some((choice, _)) = self.choices.get(at) {
            return Ok(*choice);
        }
        self.choices.push((0, among))?;
        Ok(0)
    }

    /// Continues to the next order, unless this was the last.
    fn advance(&mut self) -> bool {
        self.at = 0;
        for _ in 0..self.choices.len() {
            let Some((choice, among)) = self.choices.pop() else {
                return false;
            };
            let next = choice.saturating_add(1);
            if next < among {
                return self.choices.push((next, among)).is_ok();
            }
        }
        false
    }
}

/// What a step of a run gave.
#[derive(Drop)]
enum Step {
    Made,
    Started(u16),
    Left(Left),
}

/// Makes a call.
fn make<R: Wait>(rt: &R, pass: &mut Pass, call: Call) -> Result<(), Halt> {
    match call {
        Call::Set(verdict) => pass.set_verdict(verdict),
        Call::Get => pass.get_verdict().map(|_| ()),
        Call::Start(comp, run) => pass.start(rt, Comp(comp), Run(run), &Args::new()),
        Call::Stop(comp) => pass.stop(rt, Group::One(Comp(comp))),
        Call::Kill(comp) => pass.kill(rt, Group::One(Comp(comp))),
        Call::KillAll => pass.kill(rt, Group::All),
        Call::StopCase => pass.stop_case(rt),
    }
}

/// The run that a call has started, if any.
fn started(call: Call, made: Result<(), Halt>) -> Option<u16> {
    match (call, made) {
        (Call::Start(_, run), Ok(())) => Some(run),
        _ => None,
    }
}

/// A run of a small case: its ticket until its first step, then its pass until it leaves.
#[derive(Drop)]
struct Player {
    ticket: Option<Ticket>,
    pass: Option<Pass>,
    started: bool,
    made: usize,
}

impl Player {
    fn may_go_on(&self) -> bool {
        self.pass.is_some() || (self.started && self.ticket.is_some())
    }

    fn into_ticket(self) -> Option<Ticket> {
        let Player {
            ticket,
            pass: _,
            ..
        } = self;
        ticket
    }

    /// The pass, by the ticket before the first step; or what the run leaves that was never started.
    fn enter<R: Wait>(&mut self, rt: &R) -> Option<Result<Pass, Left>> {
        match self.ticket.take() {
            Some(ticket) => Some(await_start(rt, ticket)),
            None => self.pass.take().map(Ok),
        }
    }

    /// Makes the next of these calls; after the last, or if the pass has ended, leaves.
    fn step<R: Wait>(&mut self, rt: &R, calls: &[Call]) -> Step {
        match self.enter(rt) {
            Some(Ok(pass)) => self.go_on(rt, pass, calls.get(self.made).copied()),
            Some(Err(left)) => Step::Left(left),
            None => Step::Made,
        }
    }

    /// Makes this call on the pass; without one, or if the pass has ended, leaves.
    fn go_on<R: Wait>(&mut self, rt: &R, pass: Pass, call: Option<Call>) -> Step {
        let mut pass = pass;
        match call {
            Some(call) if !pass.is_ended() => {
                self.made = self.made.saturating_add(1);
                let made = make(rt, &mut pass, call);
                self.pass = Some(pass);
                match started(call, made) {
                    Some(run) => Step::Started(run),
                    None => Step::Made,
                }
            }
            _ => Step::Left(leave(rt, pass)),
        }
    }
}

const BEGIN: &str = "\
0 create alive => made 1
0 create alive => made 2
0 start 1 1 => ok";

/// Run 0, which has begun.
fn first_player(pass: Pass) -> Player {
    Player {
        ticket: None,
        pass: Some(pass),
        started: true,
        made: 0,
    }
}

/// Another run, of which the first is started.
fn other_player(ticket: Ticket) -> Player {
    Player {
        started: ticket.run() == Run(1),
        ticket: Some(ticket),
        pass: None,
        made: 0,
    }
}

/// Adds the runs of these tickets.
fn add_players<R: Abort>(rt: &R, tickets: Vec<Ticket>, players: &mut Vec<Player>) {
    for ticket in tickets {
        got(rt, players.push(other_player(ticket)));
    }
}

/// A case of three runs: run 0 has made components 1 and 2 and started run 1 on component 1.
fn set_up<R: Abort + Wait>(rt: &R, alloc: Global) -> (Shared, Vec<Player>) {
    let (shared, pass, tickets) = got(rt, open(alloc, 3));
    let mut pass = pass;
    calls(rt, &mut pass, BEGIN);
    let mut players = got(rt, vec![in alloc; first_player(pass)]);
    add_players(rt, tickets, &mut players);
    (shared, players)
}

/// Which of the runs can continue.
fn ready(alloc: Global, players: &[Player]) -> Result<Vec<usize>, NoMemory> {
    let mut ready = Vec::new(alloc);
    for (i, player) in players.iter().enumerate() {
        if player.may_go_on() {
            ready.push(i)?;
        }
    }
    Ok(ready)
}

/// Marks the run as started that a step has started; keeps what it left.
fn take_step<R: Abort>(rt: &R, players: &mut [Player], lefts: &mut Vec<Left>, step: Step) {
    match step {
        Step::Made => {}
        Step::Left(left) => got(rt, lefts.push(left)),
        Step::Started(run) => {
            if let Some(other) = players.get_mut(usize::from(run)) {
                other.started = true;
            }
        }
    }
}

/// Lets the run that the order chooses make its next step. False once no run continues.
fn go_on<R: Abort + Wait>(
    rt: &R,
    players: &mut Vec<Player>,
    lefts: &mut Vec<Left>,
    small: &Small,
    order: &mut Order,
    ready: &[usize],
) -> bool {
    if ready.is_empty() {
        return false;
    }
    let choice = got(rt, order.choose(ready.len()));
    let i = ready.get(choice).copied().unwrap_or(0);
    let (Some(player), Some(calls)) = (players.get_mut(i), small.get(i)) else {
        return false;
    };
    let step = player.step(rt, calls);
    take_step(rt, players, lefts, step);
    true
}

/// Lets the runs continue in an order, until none does.
fn run_all<R: Abort + Wait>(
    rt: &R,
    alloc: Global,
    players: &mut Vec<Player>,
    lefts: &mut Vec<Left>,
    small: &Small,
    order: &mut Order,
) {
    for _ in 0..16u32 {
        let ready = got(rt, ready(alloc, players));
        if !go_on(rt, players, lefts, small, order, &ready) {
            break;
        }
    }
}

/// What a run hands back that was never started, once the case is over.
fn unstarted<R: Wait>(rt: &R, player: Player) -> Option<Left> {
    await_start(rt, player.into_ticket()?).err()
}

/// Adds what the runs hand back that were never started.
fn add_unstarted<R: Abort + Wait>(rt: &R, players: Vec<Player>, lefts: &mut Vec<Left>) {
    for player in players {
        if let Some(left) = unstarted(rt, player) {
            got(rt, lefts.push(left));
        }
    }
}

/// Plays a small case in one order.
fn play<R: Abort + Wait>(rt: &R, alloc: Global, small: &Small, order: &mut Order) -> Closed {
    let (shared, players) = set_up(rt, alloc);
    let mut players = players;
    let mut lefts = Vec::new(alloc);
    run_all(rt, alloc, &mut players, &mut lefts, small, order);
    add_unstarted(rt, players, &mut lefts);
    got(rt, close(rt, alloc, shared, lefts))
}

/// The small cases: a stop and a restart; a Kill of all; a Stop of the main component; a Start that is an error while
/// the run before is active; a StopCase by each run.
fn small_cases() -> [Small; 5] {
    use Call::{Get, Kill, KillAll, Set, Start, Stop, StopCase};
    [
        [
            [Stop(1), Start(1, 2), Set(UserVerdict::Pass)],
            [Set(UserVerdict::Inconc), Set(UserVerdict::Fail), Get],
            [Get, Set(UserVerdict::Pass), Kill(1)],
        ],
        [
            [Start(2, 2), KillAll, Get],
            [Set(UserVerdict::Fail), Get, Stop(2)],
            [Set(UserVerdict::Inconc), Kill(1), Get],
        ],
        [
            [Set(UserVerdict::Inconc), Start(2, 2), Get],
            [Set(UserVerdict::Pass), Kill(2), Stop(1)],
            [Get, Set(UserVerdict::Fail), Stop(0)],
        ],
        [
            [Start(1, 2), Set(UserVerdict::Fail), Get],
            [Set(UserVerdict::Pass), Get, Set(UserVerdict::Inconc)],
            [Get, Set(UserVerdict::Pass), Kill(1)],
        ],
        [
            [Start(2, 2), StopCase, Get],
            [Set(UserVerdict::Pass), StopCase, Get],
            [Set(UserVerdict::Fail), Get, StopCase],
        ],
    ]
}

/// Counts, for the run that ended the case by a StopCase, one more; for a case that ended in another way nothing.
fn count_stop(stopped: &mut [u64; 3], history: &[Entry]) {
    for entry in history {
        if let (Op::StopCase, Reply::Ok) = (&entry.op, entry.reply) {
            if let Some(count) = stopped.get_mut(usize::from(entry.caller.0)) {
                *count = count.saturating_add(1);
            }
        }
    }
}

/// The verdict of a legal history of three runs.
fn replayed<R: Abort>(rt: &R, alloc: Global, history: &[Entry]) -> Verdict {
    got(rt, replay_check(alloc, 3, history))
}

/// Plays a small case in an order: it closes, with a legal history. Counts it if a StopCase ended it.
fn play_and_replay<R: Abort + Wait>(
    rt: &R,
    alloc: Global,
    small: &Small,
    order: &mut Order,
    stopped: &mut [u64; 3],
) {
    let closed = play(rt, alloc, small, order);
    let history = closed.history.as_slice();
    is(rt, "replayed", replayed(rt, alloc, history), closed.verdict);
    count_stop(stopped, history);
}

/// Plays a small case in every order, and says how many there are.
fn play_all<R: Abort + Wait>(rt: &R, alloc: Global, small: &Small, stopped: &mut [u64; 3]) -> u64 {
    let mut order = Order::first(alloc);
    let mut orders = 0u64;
    for _ in 0..100_000u32 {
        play_and_replay(rt, alloc, small, &mut order, stopped);
        orders = orders.saturating_add(1);
        if !order.advance() {
            break;
        }
    }
    orders
}

/// Every order of the calls of each small case, on one thread: each closes, with a legal history. They are 9,469 orders,
/// in 783 of which a StopCase ends the case.
#[test]
fn every_order_of_small_cases(rt: HostRuntime) {
    let mut orders = 0u64;
    let mut stopped = [0u64; 3];
    for small in small_cases() {
        let more = play_all(&rt, rt.alloc(), &small, &mut stopped);
        orders = orders.saturating_add(more);
    }
    let [by_main, by_first, by_second] = stopped;
    at_least(&rt, "cases that run 0 stopped", by_main, 100);
    at_least(&rt, "cases that run 1 stopped", by_first, 100);
    at_least(&rt, "cases that run 2 stopped", by_second, 100);
    at_least(&rt, "orders", orders, 9_400);
}

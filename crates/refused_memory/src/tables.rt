//! Calls on a table, on the state of a case, and on histories. There is room for the text of what they
//! answer, so what an append to it returns is not looked at.
use crate::stock::Stock;
use crate::tells::{Called, Told, call_again, call_all, made, tell_entries, tell_number};
use crate::trial::Trial;
use std::alloc::Global;
use tc_entry::{BEHAVIOURS, Comp, Entry, NoMemory, Op, Reply, Run, Sequence};
use tc_rules::{CaseState, CheckFault, Table, copied_entries, replay, replay_check};
use tc_text::{read_move, write_reply};

/// Moves of all kinds, enough that each list of a table grows more than once.
pub const MOVES: &str = "behaviours 8
0 create alive named pump
0 create
0 create
0 create
0 start 1 1 2 3
1 setverdict pass
1 getverdict
0 start 2 2
2 wait done 1
1 finish
2 wake done 1
0 start 1 3 1 2 3 4
0 create
0 create
0 create
0 create
0 create
0 create
0 create
0 create
0 create alive
0 create
0 create
0 create
0 create
3 running 2
3 alive any
0 alive any
0 done all
0 killed 7
2 stop 3
0 kill 4
0 wait killed 4
0 stop all
2 setverdict fail
0 create
0 stopcase
0 create
";

/// The most behaviours.
pub(crate) const MOST: u16 = BEHAVIOURS as u16;

/// How many moves room is made for.
const ROOMS: [usize; 3] = [1, 40, 5000];

/// Appends the reply to a call. Whether there was memory for it.
fn tell_reply(out: &mut Vec<u8>, reply: Result<Reply, NoMemory>) -> bool {
    match reply {
        Ok(reply) => write_reply(out, &reply).is_ok(),
        Err(NoMemory) => false,
    }
}

impl Told for Table {
    fn tell(&self, out: &mut Vec<u8>) {
        for line in MOVES.lines() {
            if let Some((run, op)) = read_move(line.as_bytes()) {
                let _ = write_reply(out, &self.would(run, &op));
            }
        }
        tell_entries(out, 0, self.history());
    }
}

impl Told for CaseState {
    fn tell(&self, out: &mut Vec<u8>) {
        for line in MOVES.lines() {
            if let Some((run, op)) = read_move(line.as_bytes()) {
                let _ = write_reply(out, &self.would(run, &op));
            }
        }
    }
}

impl Called<(Run, Op)> for Table {
    fn call(&mut self, with: &(Run, Op), out: &mut Vec<u8>) -> bool {
        let (run, op) = with;
        tell_reply(out, self.play(*run, op.copy()))
    }
}

impl Called<(Run, Op)> for CaseState {
    fn call(&mut self, with: &(Run, Op), out: &mut Vec<u8>) -> bool {
        let (run, op) = with;
        tell_reply(out, self.play(*run, op.copy()))
    }
}

impl Called<usize> for Table {
    fn call(&mut self, with: &usize, out: &mut Vec<u8>) -> bool {
        let is_made = self.make_room(*with).is_ok();
        if is_made {
            let _ = out.push(u8::from(self.room() < *with));
        }
        is_made
    }
}

impl Told for Sequence<Entry> {
    fn tell(&self, out: &mut Vec<u8>) {
        tell_entries(out, 0, self.as_slice());
    }
}

impl Called<Entry> for Sequence<Entry> {
    fn call(&mut self, with: &Entry, _out: &mut Vec<u8>) -> bool {
        self.push(with.copy()).is_ok()
    }
}

/// Makes the calls of these lines, one after the other.
pub(crate) fn call_lines<C: Called<(Run, Op)>>(trial: &mut Trial, on: &mut C, lines: &str) {
    for line in lines.lines() {
        if let Some(with) = read_move(line.as_bytes()) {
            call_again(trial, on, &with);
        }
    }
}

/// The moves on a table or a state, if there was memory for it.
fn play_on<C: Called<(Run, Op)>>(trial: &mut Trial, answer: Result<C, NoMemory>) {
    match answer {
        Ok(on) => {
            let mut on = on;
            call_lines(trial, &mut on, MOVES);
            drop(on);
        }
        Err(NoMemory) => trial.is_wrong = true,
    }
}

/// The moves, each after those before it.
pub(crate) fn play(trial: &mut Trial) {
    let table = Table::new(trial.alloc, MOST);
    trial.begin("Table::play");
    play_on(trial, table);
    trial.end();
}

/// The moves on a state, each after those before it.
pub(crate) fn play_state(trial: &mut Trial) {
    let state = CaseState::new(trial.alloc, MOST);
    trial.begin("CaseState::play");
    play_on(trial, state);
    trial.end();
}

/// Tables of one, some and the most behaviours.
pub(crate) fn open(trial: &mut Trial) {
    trial.begin("Table::new");
    made(Table::new(trial.alloc, 1), NoMemory, trial);
    made(Table::new(trial.alloc, 7), NoMemory, trial);
    made(Table::new(trial.alloc, MOST), NoMemory, trial);
    trial.end();
}

/// Plays all moves on a table.
fn play_all(table: &mut Table) {
    for line in MOVES.lines() {
        if let Some((run, op)) = read_move(line.as_bytes()) {
            // The text shows which entries the table has.
            let _ = table.play(run, op);
        }
    }
}

/// A table after all moves, and the state that they leave.
pub(crate) fn played(alloc: Global) -> Option<(Table, CaseState)> {
    let mut table = Table::new(alloc, MOST).ok()?;
    play_all(&mut table);
    let state = replay(alloc, MOST, table.history()).ok();
    Some(table).zip(state)
}

/// Room for one, some and many moves, on a table with moves.
pub(crate) fn make_room(trial: &mut Trial, stock: &Stock) {
    if let Ok(mut table) = stock.table.copied(trial.alloc) {
        trial.begin("Table::make_room");
        call_all(trial, &mut table, &ROOMS);
        trial.end();
        drop(table);
    }
}

/// Takes in what comes of a history, that it is not legal too.
fn checked<T: Told>(answer: Result<T, CheckFault>, trial: &mut Trial) {
    if let Err(CheckFault::Differs { at, reply }) = &answer {
        tell_number(&mut trial.out, *at);
        let _ = write_reply(&mut trial.out, reply);
        trial.end_call();
        return;
    }
    made(answer, CheckFault::NoMemory, trial);
}

/// The history of the moves, and one that lacks its first entry, which is not legal.
fn histories(stock: &Stock) -> (&[Entry], &[Entry]) {
    let history = stock.table.history();
    (history, history.get(1..).unwrap_or(history))
}

/// The checks of both histories.
pub(crate) fn check(trial: &mut Trial, stock: &Stock) {
    let (history, rest) = histories(stock);
    trial.begin("replay_check");
    checked(replay_check(trial.alloc, MOST, history), trial);
    checked(replay_check(trial.alloc, MOST, rest), trial);
    trial.end();
}

/// States of one, some and the most behaviours, a copy of one, and the replays of both histories.
pub(crate) fn make_state(trial: &mut Trial, stock: &Stock) {
    let (history, rest) = histories(stock);
    trial.begin("CaseState::new CaseState::copied tc_rules::replay");
    made(CaseState::new(trial.alloc, 1), NoMemory, trial);
    made(CaseState::new(trial.alloc, 7), NoMemory, trial);
    made(CaseState::new(trial.alloc, MOST), NoMemory, trial);
    made(stock.state.copied(trial.alloc), NoMemory, trial);
    checked(replay(trial.alloc, MOST, history), trial);
    checked(replay(trial.alloc, MOST, rest), trial);
    trial.end();
}

/// A copy of a table and of a history, and a list to which the entries of that are pushed.
pub(crate) fn copy(trial: &mut Trial, stock: &Stock) {
    let mut list = Sequence::new(Vec::new(trial.alloc));
    trial.begin("Table::copied copied_entries Sequence::push");
    made(stock.table.copied(trial.alloc), NoMemory, trial);
    made(
        copied_entries(trial.alloc, stock.table.history()),
        NoMemory,
        trial,
    );
    call_all(trial, &mut list, stock.table.history());
    trial.end();
}

/// Plays a move, with no growth given but to a create, where there is room for it.
fn play_one_in_room(trial: &mut Trial, table: &mut Table, with: &(Run, Op)) {
    // The text shows whether there was room.
    let _ = table.make_room(1);
    if !matches!(with.1, Op::Create { .. }) {
        trial.begin_each("Table::play Table::make_room");
    }
    call_again(trial, table, with);
    call_again(trial, table, &0usize);
    trial.end();
}

/// Each of the moves but the creates, after those before it, where there is room for it.
pub(crate) fn play_in_room(trial: &mut Trial) {
    if let Ok(mut table) = Table::new(trial.alloc, MOST) {
        for line in MOVES.lines() {
            if let Some(with) = read_move(line.as_bytes()) {
                play_one_in_room(trial, &mut table, &with);
            }
        }
        drop(table);
    }
}

/// Whether a table and a state after the same moves answer the same about a component.
fn are_alike_on(table: &Table, state: &CaseState, comp: Comp) -> bool {
    (table.phase_of(comp) == state.phase_of(comp))
        & (table.local(comp) == state.local(comp))
        & (table.last_run(comp) == state.last_run(comp))
        & (table.is_alive_type(comp) == state.is_alive_type(comp))
}

/// Whether a table and a state after the same moves answer the same.
fn are_alike(table: &Table, state: &CaseState) -> bool {
    (table.components() == state.components())
        & (table.overall() == state.overall())
        & (table.is_over() == state.is_over())
        & (table.behaviours() == state.behaviours())
        & (table.is_active(Run(2)) == state.is_active(Run(2)))
        & (table.room() < 1_000)
}

/// What is asked of a table and of a state after the same moves.
pub(crate) fn ask(trial: &mut Trial, stock: &Stock) {
    let (table, state) = (&stock.table, &stock.state);
    trial.begin_each(
        "\
Table::phase_of Table::local Table::last_run Table::is_alive_type Table::is_active Table::would Table::room \
Table::components Table::overall Table::is_over Table::behaviours Table::history \
CaseState::phase_of CaseState::local CaseState::last_run CaseState::is_alive_type CaseState::is_active \
CaseState::components CaseState::overall CaseState::is_over CaseState::behaviours CaseState::would",
    );
    table.tell(&mut trial.out);
    state.tell(&mut trial.out);
    trial.holds(are_alike(table, state));
    for comp in 0..table.components().saturating_add(2) {
        trial.holds(are_alike_on(table, state, Comp(comp)));
    }
    trial.end();
}

//! The calls of the library, each with its first, second, third and so on growth of memory refused until it meets none.
//!
//! What refuses them is a library that is loaded into the program, `tests/hostile/refuse.c`; without it nothing is refused.
#![tactic(auto)]

mod campaigns;
mod cases;
mod hands;
mod programs;
mod reports;
mod stock;
mod tables;
mod tells;
mod texts;
mod trial;

use crate::stock::Stock;
use crate::trial::Trial;
use std::io;
use std::process::ExitCode;
use std::sync::Wait;
use std::thread::Threads;

/// A kind of call, of which there are several.
#[derive(Clone, Copy)]
enum Kind {
    NewTable,
    Play,
    MakeRoom,
    Check,
    State,
    PlayState,
    Copy,
    Read,
    Write,
    WritePart,
    Form,
    Live,
    NewBoard,
    Open,
    Call,
    LastCall,
    Close,
    Run,
    Quiet,
}

const KINDS: [(Kind, &str); 19] = [
    (Kind::NewTable, "tables"),
    (Kind::Play, "moves on a table"),
    (Kind::MakeRoom, "room on a table"),
    (Kind::Check, "checks of a history"),
    (Kind::State, "states"),
    (Kind::PlayState, "moves on a state"),
    (Kind::Copy, "copies"),
    (Kind::Read, "readers"),
    (Kind::Write, "writers"),
    (Kind::WritePart, "writers of a part"),
    (Kind::Form, "forms and summaries"),
    (Kind::Live, "live writers"),
    (Kind::NewBoard, "boards"),
    (Kind::Open, "opened cases"),
    (Kind::Call, "calls on a pass"),
    (Kind::LastCall, "last calls on a pass"),
    (Kind::Close, "closed cases"),
    (Kind::Run, "runs and campaigns"),
    (Kind::Quiet, "calls that take no memory"),
];

/// More growths of a call there are not.
const MOST: u16 = 10_000;

/// Makes the calls that take no memory.
fn ask<R: Threads + Wait + Copy + Send + 'static>(rt: &R, trial: &mut Trial, stock: &Stock) {
    tables::ask(trial, stock);
    tables::play_in_room(trial);
    texts::ask(trial, stock);
    reports::ask(trial, stock);
    hands::wake_both(trial);
    hands::call_both(trial);
    cases::ask(*rt, trial);
    cases::await_starts(rt, trial);
    campaigns::ask(rt, trial);
}

/// Makes the calls of a kind.
fn make<R: Threads + Wait + Copy + Send + 'static>(
    rt: &R,
    trial: &mut Trial,
    stock: &Stock,
    kind: Kind,
) {
    match kind {
        Kind::NewTable => tables::open(trial),
        Kind::Play => tables::play(trial),
        Kind::MakeRoom => tables::make_room(trial, stock),
        Kind::Check => tables::check(trial, stock),
        Kind::State => tables::make_state(trial, stock),
        Kind::PlayState => tables::play_state(trial),
        Kind::Copy => tables::copy(trial, stock),
        Kind::Read => {
            texts::read(trial);
            programs::read(trial);
        }
        Kind::Write => texts::write(trial, stock),
        Kind::WritePart => texts::write_part(trial),
        Kind::Form => {
            reports::make(trial, stock);
            programs::write(trial, stock);
        }
        Kind::Live => reports::write_live(trial),
        Kind::NewBoard => cases::make_boards(trial),
        Kind::Open => cases::open_all(trial),
        Kind::Call => cases::call(*rt, trial),
        Kind::LastCall => cases::call_last(*rt, trial),
        Kind::Close => cases::close(*rt, trial, stock),
        Kind::Run => {
            campaigns::run(rt, trial);
            programs::run(rt, trial);
        }
        Kind::Quiet => ask(rt, trial, stock),
    }
}

/// Makes the calls of a kind with nothing refused, and then with each growth refused in turn, until none was. Each time
/// all memory that they took is given back.
fn sweep<R: Threads + Wait + Copy + Send + 'static>(
    rt: &R,
    trial: &mut Trial,
    stock: &Stock,
    kind: Kind,
) {
    trial.start();
    make(rt, trial, stock, kind);
    trial.keep();
    for number in 0..MOST {
        trial.set(Some(number));
        trial.note_held();
        make(rt, trial, stock, kind);
        trial.compare_held();
        trial.compare();
        if !trial.is_met {
            return;
        }
    }
    trial.holds(false);
}

/// Prints what came of the calls of a kind on standard output, and how many there were on standard error.
fn tell<R: Print + Eprint>(rt: &R, name: &str, trial: &Trial) -> io::Result<()> {
    let (calls, refused, kept, said) = (trial.calls, trial.refused, trial.kept, trial.said);
    eprintln!(rt; "{name}: {calls} calls, {refused} refused, {kept} answered all the same")?;
    println!(rt; "{name}: {said}")
}

/// Makes the calls of each kind, and prints what came of them.
fn run<R: Threads + Wait + Copy + Send + Print + Eprint + 'static>(
    rt: &R,
    trial: &mut Trial,
    stock: &Stock,
) -> io::Result<()> {
    for (kind, name) in &KINDS {
        sweep(rt, trial, stock, *kind);
        tell(rt, name, trial)?;
    }
    Ok(())
}

/// Makes all calls. Whether each answered and left what it should.
fn run_all<R: Threads + Wait + Copy + Send + Print + Eprint + 'static>(
    rt: &R,
    trial: &mut Trial,
) -> bool {
    let Some(stock) = Stock::new(*rt, trial) else {
        return false;
    };
    let is_told = run(rt, trial, &stock).is_ok();
    drop(stock);
    is_told && !trial.is_wrong
}

fn main(rt: HostRuntime) -> ExitCode {
    let mut is_right = false;
    if let Some(mut trial) = Trial::new(rt.alloc()) {
        is_right = run_all(&rt, &mut trial);
        drop(trial);
    }
    ExitCode::from(u8::from(!is_right))
}

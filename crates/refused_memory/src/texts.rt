//! Readers and writers of texts.
use crate::stock::Stock;
use crate::tables::MOVES;
use crate::tells::{Called, call_again, made};
use crate::trial::Trial;
use tc_blocks::{read_history, write_block};
use tc_entry::{
    Args, Comp, Entry, Fault, Name, NoMemory, Op, Reply, Run, UserVerdict, Verdict, name_of_fault,
};
use tc_exec::CaseError;
use tc_program::{RunFault, abort_line, fault_line, stop_word};
use tc_report::{Results, append_aborted, append_verdict};
use tc_stream::{InputFault, read_input};
use tc_text::{
    TextFault, TextKind, append_number, append_text, read_move, read_moves, read_reply, write_move,
    write_op, write_reply,
};
use tc_verdict::{from_user, name, of_rank, overwrite, rank, read_name, to_user, worse_of, worst};

/// Histories of both formats.
pub(crate) const HISTORIES: &str = "history 1 first 2
0 create -> made 1
0 start 1 1 0 -> ok
1 setverdict fail -> ok
1 getverdict -> fail
1 finish -> ok
0 wait done any -> matched
end fail
history 2 second 200
0 create alive named pump -> made 1
0 stopcase -> ok
end error
";

/// The readers of moves, of histories and of an input.
pub(crate) fn read(trial: &mut Trial) {
    trial.begin("read_moves read_history read_input");
    made(
        read_moves(trial.alloc, MOVES.as_bytes()),
        TextFault::NoMemory,
        trial,
    );
    made(
        read_history(trial.alloc, HISTORIES.as_bytes()),
        TextFault::NoMemory,
        trial,
    );
    made(
        read_input(trial.alloc, &mut MOVES.as_bytes(), 10_000),
        InputFault::NoMemory,
        trial,
    );
    trial.end();
}

/// What is written.
#[derive(Clone, Copy)]
enum Text<'a> {
    Move(Run, &'a Op),
    Op(&'a Op),
    Block(&'a [Entry]),
    Words(&'a str),
    Fault(RunFault),
    Abort(&'a Results),
    Reply(Reply),
    Number(u64),
}

/// A name that is longer than the room of a small text.
const NAME: &str = "a_long_name_of_a_test_case";

impl Called<Text<'_>> for Vec<u8> {
    fn call(&mut self, with: &Text<'_>, _out: &mut Vec<u8>) -> bool {
        let written = match with {
            Text::Move(run, op) => write_move(self, *run, op),
            Text::Op(op) => write_op(self, op),
            Text::Reply(reply) => write_reply(self, reply),
            Text::Block(entries) => write_history(self, entries),
            Text::Words(words) => append_text(self, words),
            Text::Fault(fault) => fault_line(fault, self),
            Text::Abort(results) => write_abort_line(self, results),
            Text::Number(number) => append_number(self, *number),
        };
        written.is_ok()
    }
}

/// Appends the line of an abort.
fn write_abort_line(out: &mut Vec<u8>, results: &Results) -> Result<(), NoMemory> {
    match abort_line(results, out) {
        Ok(_) => Ok(()),
        Err(error) => Err(error),
    }
}

/// Appends a history.
fn write_history(out: &mut Vec<u8>, entries: &[Entry]) -> Result<(), NoMemory> {
    match Name::read(NAME) {
        Some(name) => write_block(out, &name, 8, entries, Verdict::Error),
        None => Ok(()),
    }
}

/// What is before a text that is appended: so little that a text of several pieces needs more than one growth.
const HEAD: &[u8] = b"#";

/// Appends a text after what is there.
fn write_one(trial: &mut Trial, text: &Text<'_>) {
    if let Ok(mut page) = HEAD.to_vec(trial.alloc) {
        trial.begin(
            "write_move write_op write_reply write_block append_text append_number fault_line abort_line",
        );
        call_again(trial, &mut page, text);
        trial.end();
    }
}

/// Appends the move of a line.
fn write_line(trial: &mut Trial, line: &str) {
    if let Some((run, op)) = read_move(line.as_bytes()) {
        write_one(trial, &Text::Move(run, &op));
    }
}

/// The writers of each of the moves, of a history, of a reply, of a move without its caller, of words, of a number, and of the lines of
/// faults and of an abort.
pub(crate) fn write(trial: &mut Trial, stock: &Stock) {
    for line in MOVES.lines() {
        write_line(trial, line);
    }
    write_one(trial, &Text::Op(&Op::StopCase));
    write_one(trial, &Text::Block(stock.table.history()));
    write_one(trial, &Text::Words(HISTORIES));
    write_one(trial, &Text::Reply(Reply::Fault(Fault::AlreadyRunning)));
    write_one(trial, &Text::Number(u64::MAX));
    write_one(trial, &Text::Fault(RunFault::StopOn));
    let fault = TextFault::at(usize::MAX, TextKind::Move);
    write_one(trial, &Text::Fault(RunFault::Text(fault)));
    write_one(trial, &Text::Abort(&stock.results));
}

/// Takes in what a writer appended that may leave a part.
fn append_part(trial: &mut Trial, page: &[u8], answer: Result<(), NoMemory>) {
    // There is room for the text.
    let _ = trial.out.extend_from_slice(page);
    if answer.is_err() {
        trial.refuse_part();
    }
    trial.end_call();
}

/// The line of an overall verdict.
fn write_verdict(trial: &mut Trial) {
    if let Ok(mut page) = HEAD.to_vec(trial.alloc) {
        trial.begin("append_verdict");
        let answer = append_verdict(&mut page, Verdict::Inconc);
        append_part(trial, &page, answer);
        trial.end();
    }
}

/// Which test case was refused.
fn write_aborted(trial: &mut Trial) {
    if let Some((mut page, name)) = HEAD.to_vec(trial.alloc).ok().zip(Name::read(NAME)) {
        trial.begin("append_aborted");
        let answer = append_aborted(&mut page, &name, CaseError::TooManyBehaviours);
        append_part(trial, &page, answer);
        trial.end();
    }
}

/// Writers that leave a part.
pub(crate) fn write_part(trial: &mut Trial) {
    write_verdict(trial);
    write_aborted(trial);
}

/// Whether the calls of `tc_verdict` answer as they should.
fn are_judged() -> bool {
    let (pass, fail) = (Verdict::Pass, UserVerdict::Fail);
    (overwrite(pass, fail) == Verdict::Fail)
        & (worse_of(Verdict::Fail, pass) == Verdict::Fail)
        & (worst(&[pass, Verdict::Error]) == Verdict::Error)
        & (name(pass) == "pass")
        & (read_name("pass") == Some(pass))
        & (to_user(from_user(fail)) == Some(fail))
        & (of_rank(rank(fail)) == Some(fail))
        & (NoMemory.text() == "no memory")
        & (stop_word("pass") == Ok(pass))
}

/// Whether a name, and a list of arguments with one more than it can have, are as they should be.
fn are_built() -> bool {
    let mut args = Args::new();
    let mut pushed = 0usize;
    for comp in 0..5 {
        pushed = pushed.saturating_add(usize::from(args.push(Comp(comp))));
    }
    let is_named = match Name::read(NAME) {
        Some(name) => (name.bytes() == NAME.as_bytes()) & name.same(&name.copy()),
        None => false,
    };
    is_named & (pushed == 4) & (args.as_slice().len() == 4) & args.same(&args.copy())
}

/// Whether an entry and its parts are the same as their copies, and read back.
fn is_copied(entry: &Entry) -> bool {
    let Entry { caller, op, reply } = entry;
    (caller.copy() == *caller)
        & op.same(&op.copy())
        & reply.same(&reply.copy())
        & entry.same(&entry.copy())
        & (Comp(7).copy() == Comp(7))
}

/// What takes no memory of verdicts, names, arguments and entries, and the readers of a move and of a reply.
pub(crate) fn ask(trial: &mut Trial, stock: &Stock) {
    trial.begin_each(
        "\
overwrite worse_of worst name tc_verdict::read_name to_user from_user rank of_rank NoMemory::text stop_word Name::read \
Name::bytes Name::same Name::copy Args::new Args::push Args::as_slice Args::same Args::copy Run::copy Comp::copy \
Op::copy Op::same Reply::copy Reply::same Entry::copy Entry::same read_move read_reply name_of_fault",
    );
    trial.holds(are_judged() & are_built());
    for entry in stock.table.history() {
        trial.holds(is_copied(entry));
    }
    let is_read = read_move(b"0 stopcase") == Some((Run(0), Op::StopCase));
    let fault = Reply::Fault(Fault::Stuck);
    trial.holds(is_read & (read_reply(b"error stuck") == Some(fault)));
    trial.holds(name_of_fault(Fault::Stuck) == "stuck");
    trial.end();
}

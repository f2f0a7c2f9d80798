//! The subcommand `replay`.
ghost use Rattle.std.specs.Prelude.{◌≡◌, ◌++◌, ◌∷◌, [], Bool, IfOk, IfErr, OnOk};
ghost use Rattle.tc_text.specs.Prelude.{reply_text, IsListFault};
ghost use Rattle.tc_command.specs.declared.task.Task.TheVariants.{Replay};
ghost use Rattle.tc_answer.specs.Prelude.{RefusesText};
ghost use Rattle.tc_report.specs.Prelude.{verdict_status as spec_status};
ghost use Rattle.tc_program.specs.{Inside.ArePlayed, Made.Does, Replay.Replays};

use crate::made::write_answer;
use std::alloc::Global;
use std::io::{Read, Write};
use tc_answer::{Answer, RunFault, SCRIPT_LIMIT, read_text};
use tc_judge::play_short;
use tc_report::{append_verdict, verdict_status};
use tc_rules::{CaseState, NoMemory, Op, Reply, Run, Verdict};
use tc_text::{ShortOp, TakesMoves, append_text, read_moves_into, write_reply};

// Appends the reply's line; if memory runs out, a part of it.
#[inline(never)]
fn append_any_reply(out: &mut Vec<u8>, reply: &Reply) -> Result<(), NoMemory>
    ensures { OnOk result (out.new.items ≡ out.old.items ++ (reply_text reply.now ++ 10 ∷ [])) }
{
    write_reply(out, reply)?;
    out.push(b'\n')?;
    Ok(())
}

// The same: most replies are one word, whose line is appended at once.
#[inline(never)]
fn append_reply(out: &mut Vec<u8>, reply: &Reply) -> Result<(), NoMemory>
    ensures { OnOk result (out.new.items ≡ out.old.items ++ (reply_text reply.now ++ 10 ∷ [])) }
{
    match *reply {
        Reply::Ok => append_text(out, "ok\n"),
        Reply::Answer(true) => append_text(out, "true\n"),
        Reply::Answer(false) => append_text(out, "false\n"),
        Reply::Local(Verdict::None) => append_text(out, "none\n"),
        Reply::Local(Verdict::Pass) => append_text(out, "pass\n"),
        Reply::Local(Verdict::Inconc) => append_text(out, "inconc\n"),
        Reply::Local(Verdict::Fail) => append_text(out, "fail\n"),
        Reply::Matched => append_text(out, "matched\n"),
        Reply::Parked => append_text(out, "parked\n"),
        _ => append_any_reply(out, reply),
    }
}

/// A case whose moves are played as they are read, and the lines of their replies.
#[derive(Drop)]
pub(crate) struct Replaying {
    state: CaseState,
    out: Vec<u8>,
}

impl TakesMoves for Replaying {
    ghost stands = { ArePlayed };

    fn begin(alloc: Global, behaviours: u16) -> Result<Replaying, NoMemory> {
        let state = CaseState::new(alloc, behaviours)?;
        let out = Vec::new(alloc);
        Ok(Replaying { state, out })
    }

    fn take(&mut self, one: (Run, Op)) -> Result<(), NoMemory> {
        let (caller, op) = one;
        let reply = self.state.play(caller, op)?;
        append_reply(&mut self.out, &reply)?;
        Ok(())
    }

    #[inline(always)]
    fn take_short(&mut self, caller: Run, op: ShortOp) -> Result<(), NoMemory> {
        let reply = play_short::<Replaying>(&mut self.state, caller, op)?;
        append_reply(&mut self.out, &reply)?;
        Ok(())
    }
}

// What is printed for the moves that the text spells, and the overall verdict; otherwise the text's first fault, or
// NoMemory.
fn replay_lines(alloc: Global, text: &[u8]) -> Result<(Vec<u8>, Verdict), RunFault>
    ensures done { IfOk result (λ r. Replays text.now r.0.items (spec_status r.1)) }
    ensures refused { IfErr result (RefusesText (IsListFault text.now)) }
{
    let replaying: Replaying = read_moves_into(alloc, text)?;
    let verdict = replaying.state.overall();
    let mut out = replaying.out;
    append_verdict(&mut out, verdict)?;
    Ok((out, verdict))
}

/// What `replay` makes of a move list: the reply to each move, and then the overall verdict, whose status it has.
pub(crate) fn replay_text(alloc: Global, text: &[u8]) -> Result<Answer, RunFault>
    ensures done { IfOk result (λ a. Replays text.now a.out a.status × (a.told ≡ [])) }
    ensures refused { IfErr result (RefusesText (IsListFault text.now)) }
{
    let (out, verdict) = replay_lines(alloc, text)?;
    Ok(Answer::silent(alloc, out, verdict_status(verdict)))
}

/// Replays a move list: writes the reply to each move, and then the overall verdict, whose status it returns.
///
/// The whole list is read, and the output made, before anything is written.
pub fn replay<R: Read, W: Write>(
    alloc: Global,
    reader: &mut R,
    writer: &mut W,
) -> Result<u8, RunFault>
    ensures { (explains : Bool) → Does (Replay explains) (R.remaining reader.old) (W.contents writer.old) (W.contents writer.new) result }
{
    let text = read_text(alloc, reader, SCRIPT_LIMIT)?;
    write_answer(replay_text(alloc, text.as_slice()), writer)
}

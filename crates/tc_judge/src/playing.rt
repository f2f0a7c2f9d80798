//! A block, played as it is read, and calls with short operations.
ghost use Rattle.std.specs.Prelude.{◌≡◌, [], ℕ, IfOk, OnOk};
ghost use Rattle.tc_text.specs.Prelude.{op_of};
ghost use Rattle.tc_blocks.specs.Prelude.{short_entry, IsHeader};
ghost use Rattle.tc_rules.specs.Prelude.{IsReplyOf, TakesIn};
ghost use Rattle.tc_judge.specs.Inside.{IsPlayed, JudgesPlayed, PlaysNext, judges_legal};

use std::alloc::Global;
use tc_blocks::{Header, Line};
use tc_rules::{CaseState, Entry, NoMemory, Op, Reply, Run, Target, Verdict};
use tc_text::ShortOp;

#[inline(always)]
fn wait(killed: bool, target: Target) -> Op
    ensures { result ≡ Op.Wait killed target }
{
    Op::Wait { killed, target }
}

#[inline(always)]
fn wake(killed: bool, target: Target) -> Op
    ensures { result ≡ Op.Wake killed target }
{
    Op::Wake { killed, target }
}

/// Makes a call with a short operation, and returns its reply. Only a Create can run out of memory.
///
/// Each kind of operation has a call of its own, which is compiled for this kind. The type says who plays: each player
/// has a copy of this function, which the compiler can inline.
#[inline(always)]
pub fn play_short<T>(state: &mut CaseState, caller: Run, op: ShortOp) -> Result<Reply, NoMemory>
    ensures behaviours { state.new.behaviours ≡ state.old.behaviours }
    ensures reply { IfOk result (λ r. IsReplyOf state.old caller (op_of op) r) }
    ensures stands { IfOk result (λ r. TakesIn state.old (record { caller = caller; op = op_of op; reply = r }) state.new) }
{
    match op {
        ShortOp::Running(target) => state.play(caller, Op::Running(target)),
        ShortOp::Alive(target) => state.play(caller, Op::Alive(target)),
        ShortOp::Done(target) => state.play(caller, Op::Done(target)),
        ShortOp::Killed(target) => state.play(caller, Op::Killed(target)),
        ShortOp::WaitDone(target) => state.play(caller, wait(false, target)),
        ShortOp::WaitKilled(target) => state.play(caller, wait(true, target)),
        ShortOp::WakeDone(target) => state.play(caller, wake(false, target)),
        ShortOp::WakeKilled(target) => state.play(caller, wake(true, target)),
        ShortOp::SetVerdict(setting) => state.play(caller, Op::SetVerdict(setting)),
        ShortOp::GetVerdict => state.play(caller, Op::GetVerdict),
        ShortOp::Stop(group) => state.play(caller, Op::Stop(group)),
        ShortOp::Kill(group) => state.play(caller, Op::Kill(group)),
        ShortOp::Create(alive) => state.play(caller, Op::Create { alive, name: None }),
        ShortOp::StopCase => state.play(caller, Op::StopCase),
        ShortOp::Finish => state.play(caller, Op::Finish),
    }
}

/// What the table says of a block.
#[derive(Clone, Copy, Debug)]
pub(crate) enum Judgement {
    /// Each reply is the table's, and the verdict is that of the block.
    Legal {
        entries: usize,
    },
    /// The entry in this line of the text is the first with another reply than the table's.
    OtherReply {
        line: usize,
        given: Reply,
        reply: Reply,
    },
    /// Each reply is the table's, and this line, the last of the block, gives another verdict.
    OtherVerdict {
        line: usize,
        given: Verdict,
        verdict: Verdict,
    },
}

impl Judgement {
    /// Whether it is that of a legal block.
    pub(crate) fn is_legal(self) -> bool
        ensures { result ≡ judges_legal self }
    {
        matches!(self, Judgement::Legal { .. })
    }
}

/// The first entry of a block with another reply than the table's.
#[derive(Clone, Copy, Debug)]
pub(crate) struct Difference {
    /// The number of its line in the text.
    line: usize,
    given: Reply,
    reply: Reply,
}

/// A block that is played as it is read, up to its first difference.
#[derive(Drop)]
pub(crate) struct Playing {
    pub(crate) header: Header,
    pub(crate) state: CaseState,
    /// How many entries were played.
    entries: usize,
    difference: Option<Difference>,
}

impl Playing {
    /// A block with this first line, with no line below it yet.
    pub(crate) fn new(alloc: Global, header: Header) -> Result<Playing, NoMemory>
        requires { IsHeader header }
        ensures { IfOk result (λ p. (first_line : ℕ) → IsPlayed first_line header [] p) }
    {
        let state = CaseState::new(alloc, header.behaviours)?;
        Ok(Playing {
            header,
            state,
            entries: 0,
            difference: None,
        })
    }

    /// Plays the entry in this line, unless the table gave another reply to one before it.
    #[tactic(auto, using(crate::proofs::Lemmas::passed_played))]
    #[inline(never)]
    pub(crate) fn play(&mut self, line: usize, entry: &Entry) -> Result<(), NoMemory>
        ensures { OnOk result (PlaysNext line (Line.Entry entry.now) self.old self.new) }
    {
        if self.difference.is_some() {
            return Ok(());
        }
        if let Some(reply) = self.state.play_entry(entry)? {
            let given = entry.reply;
            self.difference = Some(Difference { line, given, reply });
        } else {
            // There are fewer entries than lines.
            self.entries = self.entries.saturating_add(1);
        }
        Ok(())
    }

    /// The same, if its operation is a short one.
    #[tactic(auto, using(crate::proofs::Lemmas::passed_played))]
    #[inline(always)]
    pub(crate) fn play_short(
        &mut self,
        line: usize,
        caller: Run,
        op: ShortOp,
        given: Reply,
    ) -> Result<(), NoMemory>
        ensures { OnOk result (PlaysNext line (Line.Entry (short_entry caller op given)) self.old self.new) }
    {
        if self.difference.is_some() {
            return Ok(());
        }
        let reply = play_short::<Playing>(&mut self.state, caller, op)?;
        if reply.same(&given) {
            self.entries = self.entries.saturating_add(1);
        } else {
            self.difference = Some(Difference { line, given, reply });
        }
        Ok(())
    }

    /// What the table says of the block whose last line has this number, and which gives this verdict.
    pub(crate) fn judge(&self, line: usize, given: Verdict) -> Judgement
        ensures { JudgesPlayed self.now line given result }
    {
        if let Some(Difference { line, given, reply }) = self.difference {
            return Judgement::OtherReply { line, given, reply };
        }
        let verdict = self.state.overall();
        if verdict == given {
            Judgement::Legal {
                entries: self.entries,
            }
        } else {
            Judgement::OtherVerdict {
                line,
                given,
                verdict,
            }
        }
    }
}

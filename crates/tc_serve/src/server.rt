//! What is done with a line.
ghost use Rattle.std.specs.{Prelude.{◌≡◌, ◌<◌, ◌^◌, [], ℕ, List, true, Some, IfOk, MatchOption}, Io.StartsWith};
ghost use Rattle.tc_rules.specs.Prelude.{IsBehaviours};
ghost use Rattle.tc_text.specs.Prelude.{move_text};
ghost use Rattle.tc_serve.specs.{Inside.StandsAs, Inside.TellsRun, Inside.Tries, Inside.TriesLine, Inside.start as spec_start, Protocol.IsOf, Protocol.SpellsOrder, Protocol.after_order, Protocol.made, Protocol.with_added_line, Protocol.with_name, Protocol.with_open};

use crate::open_case::OpenCase;
use crate::order::{Order, Refusal, Tried, read_order};
use tc_blocks::{Header, Kind, Line, Sentence, append_end, append_first_line};
use tc_entry::{Name, NoMemory, Op, Run, Verdict};
use tc_text::{read_short_move, take_run};
use tc_verdict::worse_of;

/// The test case that is open, if one is, and the worst verdict of those that were closed.
#[derive(Drop)]
pub(crate) struct Server {
    pub current: Option<OpenCase>,
    /// Each that was not over counts as error.
    pub worst: Verdict,
}

// The run that the line begins with.
fn run_of(line: &[u8]) -> Option<Run>
    ensures { MatchOption result ((run : ℕ) → run < 2 ^ 16 → IsOf line.now run → ⊥)
        (λ r. IsOf line.now r.0 × ((run : ℕ) → run < 2 ^ 16 → IsOf line.now run → r.0 ≡ run)) }
{
    let (run, rest) = take_run(line)?;
    match rest.first() {
        Some(byte) if *byte >= b'0' => None,
        _ => Some(run),
    }
}

impl Server {
    /// No test case so far.
    pub fn new() -> Server
        ensures { StandsAs result spec_start [] [] }
    {
        Server {
            current: None,
            worst: Verdict::None,
        }
    }

    // Opens a test case, if none is open; why it is refused, if it is.
    fn begin(&mut self, name: Name, behaviours: u16, out: &mut Vec<u8>) -> Tried
        requires { IsBehaviours behaviours }
        ensures ok { IfOk result (λ why. Tries (λ s. after_order s (Order.Case name behaviours)) why self.old self.new out.old.items out.new.items) }
        ensures any { StartsWith out.new.items out.old.items }
    {
        if self.current.is_some() {
            return Ok(Some(Refusal::CaseOpen));
        }
        let header = Header {
            kind: Kind::Evidence,
            name,
            behaviours,
        };
        append_first_line(out, &header)?;
        self.current = Some(OpenCase::new(*out.allocator(), behaviours)?);
        Ok(None)
    }

    // Names the behaviour of the run in the test case that is open; why that is refused, if it is.
    fn name(&mut self, run: Run, name: Name, out: &mut Vec<u8>) -> Tried
        ensures ok { IfOk result (λ why. Tries (λ s. with_open s (with_name run name)) why self.old self.new out.old.items out.new.items) }
        ensures any { StartsWith out.new.items out.old.items }
    {
        match &mut self.current {
            Some(held) => held.name(run, name, out),
            None => Ok(Some(Refusal::NoCase)),
        }
    }

    // Makes the call that the line asks for in the test case that is open; why it is refused, if it is.
    fn make(&mut self, caller: Run, op: Op, line: &[u8], out: &mut Vec<u8>) -> Tried
        requires { line.now ≡ move_text caller.0 op }
        ensures ok { IfOk result (λ why. Tries (λ s. with_open s (made caller op)) why self.old self.new out.old.items out.new.items) }
        ensures any { StartsWith out.new.items out.old.items }
    {
        match &mut self.current {
            Some(held) => held.make(caller, op, line, out),
            None => Ok(Some(Refusal::NoCase)),
        }
    }

    // Adds a remark to the test case that is open; why it is refused, if it is.
    fn remark(&mut self, run: Run, sentence: Sentence, out: &mut Vec<u8>) -> Tried
        ensures ok { IfOk result (λ why. Tries (λ s. with_open s (with_added_line run (Line.Remark run sentence))) why
            self.old self.new out.old.items out.new.items) }
        ensures any { StartsWith out.new.items out.old.items }
    {
        match &mut self.current {
            Some(held) => held.add(run, &Line::Remark { run, sentence }, out),
            None => Ok(Some(Refusal::NoCase)),
        }
    }

    /// Closes the test case that is open; why that is refused, if it is.
    pub fn close(&mut self, out: &mut Vec<u8>) -> Tried
        ensures ok { IfOk result (λ why. Tries (λ s. after_order s Order.End) why self.old self.new out.old.items out.new.items) }
        ensures any { StartsWith out.new.items out.old.items }
    {
        let Some(held) = self.current.take() else {
            return Ok(Some(Refusal::NoCase));
        };
        append_end(out, held.state.overall())?;
        self.worst = worse_of(self.worst, held.counted());
        Ok(None)
    }

    // Does what the line asks for; why it is refused, if it is. If memory runs out, a part of its text may have been
    // appended.
    fn take(&mut self, order: Order, line: &[u8], out: &mut Vec<u8>) -> Tried
        requires { SpellsOrder line.now order }
        ensures ok { IfOk result (λ why. Tries (λ s. after_order s order) why self.old self.new out.old.items out.new.items) }
        ensures any { StartsWith out.new.items out.old.items }
    {
        match order {
            Order::Case { name, behaviours } => self.begin(name, behaviours, out),
            Order::Named { run, name } => self.name(run, name, out),
            Order::Move { caller, op } => self.make(caller, op, line, out),
            Order::Remark { run, sentence } => self.remark(run, sentence, out),
            Order::End => self.close(out),
        }
    }

    // Does what the line asks for, and appends its text; why it is refused, if it is. If memory runs out, a part of the text
    // may have been appended.
    #[inline(never)]
    fn try_any(&mut self, line: &[u8], out: &mut Vec<u8>) -> Tried
        ensures ok { IfOk result (λ why. TriesLine true line.now why self.old self.new out.old.items out.new.items) }
        ensures any { StartsWith out.new.items out.old.items }
    {
        match read_order(*out.allocator(), line)? {
            Ok(order) => self.take(order, line, out),
            Err(why) => Ok(Some(why)),
        }
    }

    /// Does what the line asks for, and appends its text; why it is refused, if it is. A line that LF did not end asks
    /// for nothing. If memory runs out, a part of the text may have been appended.
    ///
    /// Most lines are moves whose operation is small, and so quickly passed on: they are tried first.
    pub fn try_line(&mut self, ended: bool, line: &[u8], out: &mut Vec<u8>) -> Tried
        ensures ok { IfOk result (λ why. TriesLine ended line.now why self.old self.new out.old.items out.new.items) }
        ensures any { StartsWith out.new.items out.old.items }
    {
        if !ended {
            return Ok(Some(Refusal::Unended));
        }
        if let Some((caller, op)) = read_short_move::<()>(line) {
            return self.make(caller, op.op(), line, out);
        }
        self.try_any(line, out)
    }

    /// The run that the refused line begins with gets the refusal, if it is one of a test case that is open. If memory
    /// runs out, a part of that may have been appended.
    pub fn refuse(&mut self, line: &[u8], why: Refusal, out: &mut Vec<u8>) -> Result<bool, NoMemory>
        ensures ok { IfOk result (λ told. TellsRun line.now why told self.old self.new out.old.items out.new.items) }
        ensures any { StartsWith out.new.items out.old.items }
    {
        let Some(run) = run_of(line) else {
            return Ok(false);
        };
        match &mut self.current {
            Some(held) => Ok(held.refuse(run, why, out)?.is_none()),
            None => Ok(false),
        }
    }
}

//! The runs that lines are about.
ghost use Rattle.std.specs.Prelude.{◌≡◌, ◌<◌, ◌||◌, ◌==◌, [], ◌∷◌, ℕ, Bool, List, slice_index_or};
ghost use Rattle.tc_rules.specs.Prelude.{Reply as AnyReply};
ghost use Rattle.tc_text.specs.declared.short.ShortOp.{ShortOp as AnyShort};
ghost use Rattle.tc_blocks.specs.{Inside.short_entry, Line.is_met as met, Met.AreMet};

use crate::line::Line;
use tc_entry::{BEHAVIOURS, Entry, Op, Run};

/// The runs of a test case that some line of it is about.
#[derive(Drop)]
pub struct MetRuns {
    met: [bool; BEHAVIOURS],
}

impl MetRuns {
    /// The runs that no line is about: none.
    pub fn none() -> MetRuns
        ensures { AreMet result [] }
    {
        MetRuns {
            met: [false; BEHAVIOURS],
        }
    }

    // Adds the run.
    fn add(&mut self, run: Run)
        ensures { (b : ℕ) (d : Bool) → b < 256 → slice_index_or self.new.met b d ≡ ((run.0 == b) || slice_index_or self.old.met b d) }
    {
        let place = usize::from(run.0);
        if place < BEHAVIOURS {
            self.met[place] = true;
        }
    }

    /// Adds the caller of the entry, and the run that it starts.
    pub(crate) fn add_entry(&mut self, entry: &Entry)
        ensures { (ls : List Line) → AreMet self.old ls → AreMet self.new (Line.Entry entry.now ∷ ls) }
    {
        self.add(entry.caller);
        if let Op::Start { run, .. } = &entry.op {
            self.add(*run);
        }
    }

    /// Adds the caller of an entry whose operation is a short one.
    #[inline(always)]
    pub(crate) fn add_caller(&mut self, caller: Run)
        ensures { (ls : List Line) (op : AnyShort) (reply : AnyReply)
            → AreMet self.old ls → AreMet self.new (Line.Entry (short_entry caller op reply) ∷ ls) }
    {
        self.add(caller);
    }

    /// Adds the run of a line that was refused.
    pub fn add_refused(&mut self, run: Run)
        ensures { (ls : List Line) (sentence : List ℕ) → AreMet self.old ls → AreMet self.new (Line.Refused run sentence ∷ ls) }
    {
        self.add(run);
    }

    /// Adds the runs that the line is about.
    pub fn add_line(&mut self, line: &Line)
        ensures { (ls : List Line) → AreMet self.old ls → AreMet self.new (line.now ∷ ls) }
    {
        match line {
            Line::Entry(entry) => self.add_entry(entry),
            Line::Named { run, .. } | Line::Remark { run, .. } | Line::Refused { run, .. } => {
                self.add(*run)
            }
        }
    }

    /// Whether some line is about the run.
    pub fn contains(&self, run: Run) -> bool
        requires { run.0 < 256 }
        ensures { (ls : List Line) → AreMet self.now ls → result ≡ met run.0 ls }
    {
        self.met[usize::from(run.0)]
    }
}

//! What is made of blocks as they are read.
ghost use Rattle.std.specs.Prelude.{◌≡◌, ◌+◌, ◌++◌, ◌∷◌, ℕ, List, [], length, IfOk, OnOk};
ghost use Rattle.tc_text.specs.Prelude.{op_of};
ghost use Rattle.tc_blocks.specs.{Text.IsHeader, declared.block.Block.Block, declared.header.Header.Header, declared.line.Line.Line};

use crate::block::Block;
use crate::header::Header;
use crate::line::Line;
use std::alloc::Global;
use tc_entry::{Entry, NoMemory, Reply, Run, Sequence, Verdict};
use tc_text::ShortOp;

/// What is made of blocks, line by line.
pub trait TakesEvidence: Sized {
    /// What is made of a block that is not read to its end.
    type Begun: Drop;

    /// The value is what a first line with this number and these lines below it make.
    ghost opens: { ℕ → Header → List Line → Self.Begun → Type 0 };
    /// The value is what these blocks make.
    ghost stands: { List Block → Self → Type 0 };

    /// What no block makes.
    fn begin(alloc: Global) -> Self
        ensures { stands [] result };

    /// What a first line with this number makes.
    fn start(alloc: Global, first_line: usize, header: Header) -> Result<Self::Begun, NoMemory>
        requires { IsHeader header }
        ensures { IfOk result (opens first_line header []) };

    /// Takes the next line of the block, which has this number.
    fn take(begun: &mut Self::Begun, line: usize, taken: Line) -> Result<(), NoMemory>
        ensures { OnOk result ((first_line : ℕ) (h : Header) (before : List Line) → line ≡ first_line + length before + 1
            → opens first_line h before begun.old → opens first_line h (before ++ taken ∷ []) begun.new) };

    /// Takes the next line of the block, which has this number, if it is an entry.
    fn take_entry(begun: &mut Self::Begun, line: usize, entry: Entry) -> Result<(), NoMemory>
        ensures { OnOk result ((first_line : ℕ) (h : Header) (before : List Line) → line ≡ first_line + length before + 1
            → opens first_line h before begun.old → opens first_line h (before ++ Line.Entry entry ∷ []) begun.new) }
    {
        Self::take(begun, line, Line::Entry(entry))
    }

    /// Takes the next line of the block, which has this number, if it is an entry with a short operation.
    fn take_short(
        begun: &mut Self::Begun,
        line: usize,
        caller: Run,
        op: ShortOp,
        reply: Reply,
    ) -> Result<(), NoMemory>
        ensures { OnOk result ((first_line : ℕ) (h : Header) (before : List Line) → line ≡ first_line + length before + 1
            → opens first_line h before begun.old → opens first_line h (before ++ Line.Entry (record { caller = caller; op = op_of op; reply = reply }) ∷ []) begun.new) }
    {
        let entry = Entry {
            caller,
            op: op.op(),
            reply,
        };
        Self::take_entry(begun, line, entry)
    }

    /// Takes the block, whose last line has this number and this verdict.
    fn close(&mut self, begun: Self::Begun, line: usize, verdict: Verdict) -> Result<(), NoMemory>
        ensures { OnOk result ((blocks : List Block) (b : Block) → line ≡ b.first_line + length b.lines + 1 → verdict ≡ b.verdict
            → opens b.first_line b.header b.lines begun → stands blocks self.old → stands (blocks ++ b ∷ []) self.new) };
}

impl TakesEvidence for Sequence<Block> {
    type Begun = Block;

    ghost opens = { λ first_line h lines o. (o.first_line ≡ first_line) × (o.header ≡ h) × (o.lines ≡ lines) };

    ghost stands = { λ blocks s. s ≡ blocks };

    fn begin(alloc: Global) -> Sequence<Block> {
        Sequence::new(Vec::new(alloc))
    }

    fn start(alloc: Global, first_line: usize, header: Header) -> Result<Block, NoMemory> {
        Ok(Block {
            header,
            first_line,
            lines: Sequence::new(Vec::new(alloc)),
            verdict: Verdict::None,
        })
    }

    fn take(begun: &mut Block, _line: usize, taken: Line) -> Result<(), NoMemory> {
        begun.lines.push(taken)
    }

    fn close(&mut self, mut begun: Block, _line: usize, verdict: Verdict) -> Result<(), NoMemory> {
        begun.verdict = verdict;
        self.push(begun)
    }
}

//! The blocks of a text, each of which is judged: what all that reads histories and evidence is made of.
ghost use Rattle.std.specs.Prelude.{◌≡◌, ◌<◌, ◌++◌, ◌∷◌, [], ◌⊎◌, IfOk, IfErr, OnOk, false, true};
ghost use Rattle.std.specs.List.{AllZip};
ghost use Rattle.tc_blocks.specs.Prelude.{IsReadIn, most_of};
ghost use Rattle.tc_report.specs.Prelude.{said_with};
ghost use Rattle.tc_judge.specs.{Check.IsUnreadIn, Check.RefusesHistory, Check.history_limit, Inside.AreJudgedIn, Inside.IsJudgedBlock, Inside.IsRecorded, Inside.IsSummaryOf, Inside.first_illegal as spec_first, Inside.judged_name, Check.that_count};

use crate::kept::Keeps;
use crate::playing::{Judgement, Playing};
use indexmap::IndexMap;
use std::alloc::Global;
use std::io::Read;
use tc_answer::{HISTORY_LIMIT, RunFault, of_input};
use tc_blocks::{
    Block, Header, Limit, Line, TakesEvidence, read_evidence_from, read_evidence_into,
};
use tc_command::Choice;
use tc_entry::Name;
use tc_report::{Said, Summary, summary_of_state};
use tc_rules::{Entry, NoMemory, Reply, Run, Verdict};
use tc_text::ShortOp;

/// A block that was judged.
#[derive(Drop)]
pub(crate) struct Judged<K: Drop> {
    /// The name of the test case.
    pub(crate) name: Name,
    /// The verdict of the block.
    pub(crate) verdict: Verdict,
    /// What the table says of it.
    pub(crate) judgement: Judgement,
    /// What is kept of it.
    pub(crate) kept: K,
}

/// What has the name of a test case.
pub trait Named {
    ghost use Rattle.tc_reader.specs.Prelude.{Word};

    ghost name_in: { Self → Word };

    /// The name.
    fn name(&self) -> Name
        ensures { result ≡ name_in self.now };
}

impl Named for Block {
    ghost name_in = { λ b. b.header.name };

    fn name(&self) -> Name {
        self.header.name.copy()
    }
}

impl<K: Drop> Named for Judged<K> {
    ghost name_in = { judged_name };

    fn name(&self) -> Name {
        self.name.copy()
    }
}

/// The judgement of the first block that is not legal, if there is one.
pub(crate) fn first_illegal<K: Drop>(blocks: &[Judged<K>]) -> Option<Judgement>
    ensures { result ≡ spec_first blocks.now }
{
    blocks
        .iter()
        .map(|block| block.judgement)
        .find(|judgement| !judgement.is_legal())
}

/// A block that is played as it is read, with its entries and what it says next to them, if they are asked for.
#[derive(Drop)]
pub(crate) struct Recorded {
    pub(crate) playing: Playing,
    pub(crate) entries: Vec<Entry>,
    pub(crate) said: Said,
}

impl Recorded {
    /// What the forms say of the block, if it is legal and was recorded.
    pub(crate) fn summary(&self, alloc: Global) -> Result<Summary, NoMemory>
        ensures { IfOk result (λ s. (b : Block) → IsRecorded true b.first_line b.header b.lines self.now → IsSummaryOf b s) }
    {
        let Playing { header, state, .. } = &self.playing;
        let entries = self.entries.as_slice();
        let summary = summary_of_state(alloc, &header.name, state, entries, &self.said)?;
        Ok(summary)
    }
}

/// The blocks so far, each of which is judged.
#[derive(Drop)]
pub(crate) struct Judging<K: Keeps + Drop> {
    alloc: Global,
    blocks: Vec<Judged<K>>,
}

// Keeps the entry, if entries are asked for; otherwise nothing.
#[inline(always)]
fn record<K: Keeps>(entries: &mut Vec<Entry>, entry: Entry) -> Result<(), NoMemory>
    ensures { OnOk result ((K.RECORDS ≡ true → entries.new.items ≡ entries.old.items ++ entry ∷ [])
        × (K.RECORDS ≡ false → entries.new.items ≡ entries.old.items)) }
{
    if K::RECORDS {
        entries.push(entry)?;
    }
    Ok(())
}

// Keeps what is said after the entries so far, if entries are asked for; otherwise nothing.
fn keep_note<K: Keeps>(said: &mut Said, entries: usize, note: Line) -> Result<(), NoMemory>
    ensures { OnOk result ((K.RECORDS ≡ true → said.new ≡ said_with said.old entries note)
        × (K.RECORDS ≡ false → said.new ≡ said.old)) }
{
    if K::RECORDS {
        said.take(entries, note)?;
    }
    Ok(())
}

impl<K: Keeps + Drop> TakesEvidence for Judging<K> {
    type Begun = Recorded;

    ghost opens = { IsRecorded K.RECORDS };

    ghost stands = { λ blocks judging. AllZip (IsJudgedBlock K.keeps) blocks judging.blocks.items };

    fn begin(alloc: Global) -> Judging<K> {
        Judging {
            alloc,
            blocks: Vec::new(alloc),
        }
    }

    fn start(alloc: Global, _first_line: usize, header: Header) -> Result<Recorded, NoMemory> {
        Ok(Recorded {
            playing: Playing::new(alloc, header)?,
            entries: Vec::new(alloc),
            said: Said::new(alloc),
        })
    }

    fn take(begun: &mut Recorded, line: usize, taken: Line) -> Result<(), NoMemory> {
        match taken {
            Line::Entry(entry) => Self::take_entry(begun, line, entry),
            note => keep_note::<K>(&mut begun.said, begun.entries.len(), note),
        }
    }

    fn take_entry(begun: &mut Recorded, line: usize, entry: Entry) -> Result<(), NoMemory> {
        begun.playing.play(line, &entry)?;
        record::<K>(&mut begun.entries, entry)?;
        Ok(())
    }

    #[inline(always)]
    fn take_short(
        begun: &mut Recorded,
        line: usize,
        caller: Run,
        op: ShortOp,
        reply: Reply,
    ) -> Result<(), NoMemory> {
        begun.playing.play_short(line, caller, op, reply)?;
        let entry = Entry {
            caller,
            op: op.op(),
            reply,
        };
        record::<K>(&mut begun.entries, entry)?;
        Ok(())
    }

    fn close(
        &mut self,
        mut begun: Recorded,
        line: usize,
        verdict: Verdict,
    ) -> Result<(), NoMemory> {
        let judgement = begun.playing.judge(line, verdict);
        let kept = K::keep(self.alloc, &mut begun)?;
        let Recorded { playing, .. } = begun;
        self.blocks.push(Judged {
            name: playing.header.name,
            verdict,
            judgement,
            kept,
        })?;
        Ok(())
    }
}

/// The blocks that count: all, or of each name the last, in the place of the first.
pub fn counted<B: Named + Drop>(
    alloc: Global,
    last: bool,
    blocks: Vec<B>,
) -> Result<Vec<B>, NoMemory>
    ensures { IfOk result (λ v. v.items ≡ that_count B.name_in last blocks.items) }
{
    if !last {
        return Ok(blocks);
    }
    let mut last = IndexMap::new(alloc);
    for block in blocks {
        last.insert(block.name(), block)?;
    }
    Ok(last.into_values().collect(alloc)?)
}

/// How many bytes histories may have: all together, or, if they may be long, each block.
pub fn limit_of(long: bool) -> Limit
    ensures is { result ≡ history_limit long }
    ensures most { most_of result < usize.MAX }
{
    if long {
        Limit::Blocks(HISTORY_LIMIT)
    } else {
        Limit::Whole(HISTORY_LIMIT)
    }
}

/// Of the blocks that the text spells those that count, each judged; otherwise the text's first fault, or NoMemory.
pub(crate) fn judge_text<K: Keeps + Drop>(
    alloc: Global,
    last: bool,
    text: &[u8],
) -> Result<Vec<Judged<K>>, RunFault>
    ensures judged { IfOk result (λ v. AreJudgedIn K.keeps last text.now v.items) }
    ensures refused { IfErr result (RefusesHistory text.now) }
{
    let judging: Judging<K> = read_evidence_into(alloc, text)?;
    Ok(counted(alloc, last, judging.blocks)?)
}

/// The same of an input, of which only a part is in memory at a time; or why it was not read.
pub(crate) fn judge_input<R: Read, K: Keeps + Drop>(
    alloc: Global,
    choice: &Choice,
    reader: &mut R,
) -> Result<Vec<Judged<K>>, RunFault>
    ensures judged { IfOk result (λ v. IsReadIn (history_limit choice.now.long) (R.remaining reader.old)
        (λ text. AreJudgedIn K.keeps choice.now.last text v.items)) }
    ensures refused { IfErr result (λ fault. IsUnreadIn (history_limit choice.now.long) (R.remaining reader.old) fault
        ⊎ IsReadIn (history_limit choice.now.long) (R.remaining reader.old) (λ text. RefusesHistory text fault)) }
{
    match read_evidence_from(alloc, reader, limit_of(choice.long)) {
        Ok(Ok(Judging { blocks, .. })) => Ok(counted(alloc, choice.last, blocks)?),
        Ok(Err(fault)) => Err(RunFault::from(fault)),
        Err(fault) => Err(of_input(fault)),
    }
}

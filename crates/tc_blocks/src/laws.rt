//! Laws of blocks: each function changes nothing, and its contract is the law.
ghost use Rattle.std.specs.{Prelude.{◌≡◌, ◌≢◌, ◌<◌, ◌^◌, ◌==◌, ◌||◌, ◌++◌, ◌∷◌, ◌↔◌, ℕ, [], List, map, true}, List.{AllByRecursion, flat_map, list_all}};
ghost use Rattle.tc_rules.specs.Prelude.{Entry as AnyEntry, IsName, Verdict};
ghost use Rattle.tc_text.specs.Prelude.{AreComps, IsComp, IsGroup, IsOp, IsTarget, is_plain};
ghost use Rattle.tc_blocks.specs.{Block.{block_text, header_text}, Histories.{AreHistories, IsHistoryHeader}, HistoryBlock.{end_text, entry_text, history_text}, HistoryText.IsEntry, Laws.{LinesAreLegal, history_of, is_quiet_byte, overall_of}, Line.{entries_of, entry_in, naming_text}, Text.{AreBlocks, AreEvidence, IsHeader}, declared.{block.Block.Block, header.Header.Header, history_block.History.History, line.Line.Line}};

use tc_entry::{Comp, Entry, Group, Op, Reply, Target};

/// What is written of blocks is read as these blocks.
#[tactic(auto, using(crate::proofs::Lemmas::WrittenEvidence::written_evidence))]
pub fn written_is_read()
    ensures { (blocks : List Block) → blocks ≢ [] → AreBlocks IsHeader 1 blocks
        → AreEvidence (flat_map (λ b. block_text b.header b.lines b.verdict) blocks) blocks }
{}

/// Names of behaviours, remarks and refused lines say nothing to the component table: with them and without them, the
/// lines are the same history, both legal or neither, with the same verdict.
#[tactic(auto, using(crate::proofs::InnerLines::remark_rules))]
pub fn remarks_say_nothing()
    ensures history { (before after : List Line) (l : Line) → entry_in l ≡ []
        → entries_of (before ++ l ∷ after) ≡ entries_of (before ++ after) }
    ensures legal { (n : ℕ) (before after : List Line) (l : Line) → entry_in l ≡ []
        → LinesAreLegal n (before ++ l ∷ after) ↔ LinesAreLegal n (before ++ after) }
    ensures verdict { (before after : List Line) (l : Line) → entry_in l ≡ []
        → overall_of (before ++ l ∷ after) ≡ overall_of (before ++ after) }
{}

/// A text of histories is evidence with the same histories, and what is written of histories is read as these.
#[tactic(auto, using(crate::proofs::Lemmas::Histories::history_rules))]
pub fn histories_are_read()
    ensures evidence { (text : List ℕ) (histories : List History) → AreHistories text histories
        → (blocks : List Block) × AreEvidence text blocks × (histories ≡ map history_of blocks) }
    ensures written { (blocks : List Block) → blocks ≢ [] → AreBlocks IsHistoryHeader 1 blocks
        → AreHistories (flat_map
        (λ h. history_text h.format h.name h.behaviours h.entries h.verdict) (map history_of blocks))
        (map history_of blocks) }
{}

/// A text of evidence has LF and bytes from 32 to 126, and only remarks and refused lines have a `<`.
#[tactic(auto, using(crate::proofs::Lemmas::Bytes::byte_rules))]
pub fn bytes_of_evidence()
    // A text that is read has LF and bytes from 32 to 126.
    ensures text_bytes { (text : List ℕ) (blocks : List Block) → AreEvidence text blocks
        → list_all (λ b. (b == 10) || is_plain b) text ≡ true }
    // Neither a first nor a last line has a `<`.
    ensures first_bytes { (h : Header) → IsHeader h → list_all is_quiet_byte (header_text h) ≡ true }
    ensures last_bytes { (v : Verdict) → list_all is_quiet_byte (end_text v) ≡ true }
    // Nor has an entry, or the name of a behaviour.
    ensures entry_bytes { (f : ℕ) (e : AnyEntry) → IsEntry f e → list_all is_quiet_byte (entry_text e) ≡ true }
    ensures naming_bytes { (run : ℕ) (name : List ℕ) → run < 2 ^ 32 → IsName name
        → list_all is_quiet_byte (naming_text run name) ≡ true }
{}

fn comp_fits(comp: &Comp)
    ensures { IsComp comp.now }
{
    let _number = comp.0;
}

fn comps_fit(comps: &[Comp])
    ensures { AreComps comps.now }
{
    if let Some((comp, others)) = comps.split_first() {
        comp_fits(comp);
        comps_fit(others);
    }
}

fn group_fits(group: &Group)
    ensures { IsGroup group.now }
{
    if let Group::One(comp) = group {
        comp_fits(comp);
    }
}

fn target_fits(target: &Target)
    ensures { IsTarget target.now }
{
    if let Target::One(comp) = target {
        comp_fits(comp);
    }
}

fn op_fits(op: &Op)
    ensures { IsOp op.now }
{
    match op {
        Op::Start { comp, run, args } => {
            let _number = run.0;
            comp_fits(comp);
            comps_fit(args.as_slice());
        }
        Op::Stop(group) | Op::Kill(group) => group_fits(group),
        Op::Running(target)
        | Op::Alive(target)
        | Op::Done(target)
        | Op::Killed(target)
        | Op::Wait { target, .. }
        | Op::Wake { target, .. } => target_fits(target),
        Op::Create {
            name: Some(name),
            ..
        } => {
            let _bytes = name.bytes();
        }
        _ => (),
    }
}

fn entry_fits(entry: &Entry)
    ensures { IsEntry 2 entry.now }
{
    let _number = entry.caller.0;
    op_fits(&entry.op);
    if let Reply::Made(comp) = &entry.reply {
        comp_fits(comp);
    }
}

/// The numbers of entries are those of their types, and so they are entries of format 2.
pub fn entries_fit(entries: &[Entry])
    ensures { AllByRecursion (IsEntry 2) entries.now }
{
    let mut rest = entries;
    while let Some((entry, others)) = rest.split_first() {
        entry_fits(entry);
        rest = others;
    }
}

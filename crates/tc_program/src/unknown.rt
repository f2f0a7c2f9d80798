//! Which pattern of `--only` matches no name.
ghost use Rattle.std.specs.Prelude.{◌≡◌, [], IfOk, List, OnOk, map};
ghost use Rattle.std.specs.List.{list_any};
ghost use Rattle.tc_rules.specs.Prelude.{matches};
ghost use Rattle.tc_text.specs.Prelude.{TellsAmong};
ghost use Rattle.tc_blocks.specs.Prelude.{AreEvidence};
ghost use Rattle.tc_blocks.specs.declared.block.Block.{Block as AnyBlock};

use std::alloc::{AllocError, Global};
use tc_answer::{RunFault, read_script};
use tc_blocks::{Block, read_evidence};
use tc_entry::{Name, NoMemory, Pattern};

// The names of the blocks.
fn block_names(alloc: Global, blocks: &[Block]) -> Result<Vec<Name>, NoMemory>
    ensures { IfOk result (λ v. v.items ≡ map (λ b. b.header.name) blocks.now) }
{
    let mut names = Vec::new(alloc);
    for block in blocks {
        names.push(block.header.name.copy())?;
    }
    Ok(names)
}

/// The names of the blocks of a text.
pub(crate) fn names_of_blocks(alloc: Global, text: &[u8]) -> Result<Vec<Name>, RunFault>
    ensures { IfOk result (λ v. (all : List AnyBlock) → AreEvidence text.now all → v.items ≡ map (λ b. b.header.name) all) }
{
    let blocks = read_evidence(alloc, text)?;
    Ok(block_names(alloc, blocks.as_slice())?)
}

/// The names of the test cases of the script.
pub(crate) fn names_of_script(alloc: Global, script: &[u8]) -> Result<Vec<Name>, RunFault> {
    let mut campaign = read_script(alloc, script)?;
    let mut names = Vec::new(alloc);
    while let Some((name, case)) = campaign.take_first() {
        drop(case);
        names.push(name).map_err(AllocError::from)?;
    }
    Ok(names)
}

// Whether the pattern matches one of these names.
fn is_known(pattern: &Pattern, names: &[Name]) -> bool
    ensures { result ≡ list_any (λ n. matches pattern.now n) names.now }
{
    names.iter().any(|name| pattern.matches(name))
}

// Appends that no test case has the name, and the name that is the nearest.
fn append_word(
    alloc: Global,
    out: &mut Vec<u8>,
    word: &[u8],
    names: &[Name],
) -> Result<(), NoMemory>
    ensures { OnOk result (TellsAmong [] out.old.items out.new.items) }
{
    let mut words = Vec::new(alloc);
    for name in names {
        words.push(name.bytes())?;
    }
    tc_explain::append_unknown(alloc, out, word, words.as_slice())
}

/// Appends which pattern matches none of the names, and the name that is the nearest to it.
#[tactic(auto, using(tc_text::proofs::Lemmas::Among::among_rules))]
pub(crate) fn append_unknown(
    alloc: Global,
    out: &mut Vec<u8>,
    only: &[Pattern],
    names: &[Name],
) -> Result<(), NoMemory>
    ensures { OnOk result (TellsAmong [] out.old.items out.new.items) }
{
    match only.iter().find(|pattern| !is_known(pattern, names)) {
        Some(pattern) => append_word(alloc, out, pattern.bytes(), names),
        None => Ok(()),
    }
}

//! The values of options, and what they name.
ghost use Rattle.std.specs.Prelude.{◌≡◌, ◌≤◌, All, Bool, IfOk, IfErr, IfSome, IfNone, None, OnOk, Option, Some, codes, if◌then◌else◌, map, option_copied, option_map, ℕ};
ghost use Rattle.std.specs.Fmt.{decimal};
ghost use Rattle.tc_entry.specs.Prelude.{IsName, IsPattern, ShardView, name_of};
ghost use Rattle.tc_command.specs.{Command.IsShardOf, Command.IsStatesOf, Command.word_fault_text, Inside.IsBadWord, Inside.IsShardWord};

use crate::refusal::Refusal;
use std::alloc::{AllocError, Global};
use tc_entry::{Name, Pattern, Shard};
use tc_text::{read_number, take_number};
use tc_verdict::{Verdict, read_name};

/// At how many states of a test case `explore` looks without `--states`.
const STATES: usize = 100_000;

/// The option whose value names nothing.
#[derive(Clone, Copy, Debug, PartialEq, Eq)]
pub enum WordFault {
    /// `--stop-on`.
    StopOn,
    /// `--states`.
    States,
    /// `--shard`.
    Shard,
    /// `--only`.
    Only,
    /// `--suite`.
    Suite,
    /// `--progress`.
    Progress,
}

impl WordFault {
    /// What is said of the value.
    pub fn text(self) -> &'static str
        ensures { result.now ≡ word_fault_text self }
    {
        match self {
            WordFault::StopOn => "--stop-on takes none, pass, inconc, fail or error",
            WordFault::States => "--states takes a number from 1 to 1000000",
            WordFault::Shard => "--shard takes K/N, with K from 1 to N",
            WordFault::Only => "--only takes the name of one of the test cases",
            WordFault::Suite => "--suite takes 1 to 32 letters, digits or _, a letter first",
            WordFault::Progress => "--progress takes failures, or no value",
        }
    }
}

// The shard of a value.
fn read_shard(word: &str) -> Option<Shard>
    ensures some { IfSome result (IsShardWord word.now) }
    ensures none { IfNone result ((s : ShardView) → IsShardWord word.now s → ⊥) }
{
    let (number, rest) = take_number(word.as_bytes())?;
    let (slash, rest) = rest.split_first()?;
    if *slash != b'/' {
        return None;
    }
    Shard::new(number, read_number(rest)?)
}

/// The shard of `--shard`, if there is one.
pub(crate) fn shard(word: Option<&str>) -> Result<Option<Shard>, Refusal>
    ensures taken { IfOk result (IsShardOf (option_copied word.entry)) }
    ensures refused { IfErr result (IsBadWord (((s : Option ShardView) × IsShardOf (option_copied word.entry) s) → ⊥) WordFault.Shard) }
{
    match word {
        Some(word) => Ok(Some(read_shard(word).ok_or(Refusal::Word(WordFault::Shard))?)),
        None => Ok(None),
    }
}

/// The verdict of `--stop-on`, if there is one.
pub(crate) fn stop_on(word: Option<&str>) -> Result<Option<Verdict>, Refusal>
    ensures taken { IfOk result (λ v. option_copied word.entry ≡ option_map name_of v) }
    ensures refused { IfErr result (IsBadWord (((v : Option Verdict) × (option_copied word.entry ≡ option_map name_of v)) → ⊥) WordFault.StopOn) }
{
    match word {
        Some(word) => Ok(Some(read_name(word).ok_or(Refusal::Word(WordFault::StopOn))?)),
        None => Ok(None),
    }
}

/// Whether `--progress` has the value `failures`.
pub(crate) fn failures(word: Option<&str>) -> Result<bool, Refusal>
    ensures taken { IfOk result (λ only. option_copied word.entry ≡ (if only then Some (codes "failures") else None)) }
    ensures refused { IfErr result (IsBadWord (((only : Bool) × (option_copied word.entry ≡ (if only then Some (codes "failures") else None))) → ⊥) WordFault.Progress) }
{
    match word {
        Some("failures") => Ok(true),
        Some(_) => Err(Refusal::Word(WordFault::Progress)),
        None => Ok(false),
    }
}

/// The name of `--suite`, if there is one.
pub(crate) fn suite(word: Option<&str>) -> Result<Option<Name>, Refusal>
    ensures taken { IfOk result (λ name. name ≡ option_copied word.entry) }
    ensures good { OnOk result (IfSome (option_copied word.entry) IsName) }
    ensures refused { IfErr result (IsBadWord (IfSome (option_copied word.entry) IsName → ⊥) WordFault.Suite) }
{
    match word {
        Some(word) => Ok(Some(Name::read(word).ok_or(Refusal::Word(WordFault::Suite))?)),
        None => Ok(None),
    }
}

// The number of states that a value names.
fn read_states(word: &str) -> Option<usize>
    ensures some { IfSome result (λ n. (1 ≤ n) × (n ≤ 1000000) × (word.now ≡ decimal n)) }
    ensures none { IfNone result ((n : ℕ) → 1 ≤ n → n ≤ 1000000 → word.now ≡ decimal n → ⊥) }
{
    let number = read_number(word.as_bytes())?;
    if 1 <= number && number <= 1_000_000 {
        Some(number as usize)
    } else {
        None
    }
}

/// The number of states of `--states`, or the one without it.
pub(crate) fn states(word: Option<&str>) -> Result<usize, Refusal>
    ensures taken { IfOk result (IsStatesOf (option_copied word.entry)) }
    ensures refused { IfErr result (IsBadWord (((n : ℕ) × IsStatesOf (option_copied word.entry) n) → ⊥) WordFault.States) }
{
    match word {
        Some(word) => read_states(word).ok_or(Refusal::Word(WordFault::States)),
        None => Ok(STATES),
    }
}

/// The patterns of `--only`.
pub(crate) fn patterns(alloc: Global, words: &[&str]) -> Result<Vec<Pattern>, Refusal>
    ensures taken { IfOk result (λ v. v.items ≡ map (λ w. w.now) words.now) }
    ensures good { OnOk result (All IsPattern (map (λ w. w.now) words.now)) }
    ensures refused { IfErr result (IsBadWord (All IsPattern (map (λ w. w.now) words.now) → ⊥) WordFault.Only) }
{
    let mut patterns = Vec::new(alloc);
    for word in words {
        let Some(pattern) = Pattern::read(word) else {
            return Err(Refusal::Word(WordFault::Only));
        };
        patterns.push(pattern).map_err(AllocError::from)?;
    }
    Ok(patterns)
}

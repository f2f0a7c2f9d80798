//! What a block says next to its entries: the names of behaviours, and remarks.
ghost use Rattle.std.specs.{Prelude.{◌≡◌, ◌<◌, ◌≤◌, ◌+◌, ◌==◌, ◌&&◌, ◌++◌, [], IfOk, OnOk, length, nat_le, nat_lt, option_copied, reverse, take}, List.find, Option.option_map_or};
ghost use Rattle.tc_rules.specs.Prelude.{part};
ghost use Rattle.tc_report.specs.{Inside.said_with, declared.said.Remark.{Remark as AnyRemark}};
ghost use Rattle.tc_report.specs.Said as spec;

use crate::cause::count_by;
use crate::naming::Naming;
use std::alloc::Global;
use tc_blocks::{Line, Sentence};
use tc_entry::{Entry, NoMemory, Run, Sequence};

/// What a run said.
#[derive(Drop)]
pub struct Remark {
    /// How many entries are before it.
    pub at: usize,
    /// The run.
    pub run: Run,
    /// What it said.
    pub sentence: Sentence,
}

/// What a block says next to its entries.
#[derive(Drop)]
pub struct Said {
    /// The names of behaviours.
    pub names: Sequence<Naming>,
    /// The remarks, in their order.
    pub remarks: Sequence<Remark>,
}

impl Said {
    /// Nothing is said.
    pub fn new(alloc: Global) -> Said
        ensures { result ≡ spec.said_in [] }
    {
        Said {
            names: Sequence::new(Vec::new(alloc)),
            remarks: Sequence::new(Vec::new(alloc)),
        }
    }

    /// Takes the next line of a block, after that many entries.
    pub fn take(&mut self, at: usize, line: Line) -> Result<(), NoMemory>
        ensures { OnOk result (self.new ≡ said_with self.old at line) }
    {
        match line {
            Line::Named { run, name } => self.names.push(Naming {
                run: usize::from(run.0),
                name,
            }),
            Line::Remark { run, sentence } => self.remarks.push(Remark { at, run, sentence }),
            Line::Entry(_) | Line::Refused { .. } => Ok(()),
        }
    }
}

// The last remark of the run up to this place of the history.
fn last_to(remarks: &[Remark], run: Run, at: usize) -> Option<&Remark>
    ensures { option_copied result ≡ find (λ r. (r.run.0 == run.0) && nat_le r.at at) (reverse remarks.now) }
{
    let mut newest = remarks.iter().rev();
    newest.find(|remark| remark.run.0 == run.0 && remark.at <= at)
}

// Its first remark after this place.
fn first_after(remarks: &[Remark], run: Run, at: usize) -> Option<&Remark>
    ensures { option_copied result ≡ find (λ r. (r.run.0 == run.0) && nat_lt at r.at) remarks.now }
{
    let mut oldest = remarks.iter();
    oldest.find(|remark| remark.run.0 == run.0 && at < remark.at)
}

// How many of the first entries of the history are of the run.
#[tactic(auto, using(std::proofs::lemmas::List::take_min))]
fn made_to(history: &[Entry], run: Run, place: usize) -> usize
    ensures { result ≡ length (part (take place history.now) run.0) }
{
    count_by(&history[..place.min(history.len())], run)
}

fn copy(alloc: Global, sentence: &Sentence) -> Result<Sentence, NoMemory>
    ensures { IfOk result (λ s. s ≡ sentence.now) }
{
    match Sentence::of_bytes(alloc, sentence.bytes())? {
        Some(copy) => Ok(copy),
        None => unreachable!(),
    }
}

// Adds what the remark says, if there is one and its run makes no entry between it and this place.
fn add_said(
    said: &mut Vec<Sentence>,
    history: &[Entry],
    place: usize,
    remark: Option<&Remark>,
) -> Result<(), NoMemory>
    ensures { OnOk result (said.new.items ≡ said.old.items
        ++ option_map_or (spec.if_next_to history.now place) (option_copied remark.entry) []) }
{
    let Some(remark) = remark else {
        return Ok(());
    };
    if made_to(history, remark.run, remark.at) == made_to(history, remark.run, place) {
        let sentence = copy(*said.allocator(), &remark.sentence)?;
        said.push(sentence)?;
    }
    Ok(())
}

/// What the run said right before and right after its entry at this place.
pub(crate) fn reasons(
    alloc: Global,
    remarks: &[Remark],
    history: &[Entry],
    at: usize,
    run: Run,
) -> Result<Vec<Sentence>, NoMemory>
    requires { at < length history.now }
    ensures { IfOk result (λ v. v.items ≡ spec.reasons remarks.now history.now at run.0) }
{
    let mut said = Vec::new(alloc);
    let (before, after) = (last_to(remarks, run, at), first_after(remarks, run, at));
    add_said(&mut said, history, at, before)?;
    add_said(&mut said, history, at + 1, after)?;
    Ok(said)
}

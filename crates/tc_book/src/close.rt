//! Whether what came back of a case is whole.
ghost use Rattle.std.specs.Prelude.{◌≡◌, ◌↔◌, ℕ, ◌<◌, [], None, All, IsTrue, count_by};
ghost use Rattle.tc_book.specs.{Closing.{Agrees, IsOneEach}, Inside.{is_left_of, ArePlaced, IsPlaced}, Words.record_at};

use crate::counting::counts;
use crate::left::Left;
use crate::starts::{comp_of, start_of};
use crate::words::Words;
use tc_board::Record;
use tc_entry::{Args, Comp, Entry};

fn count_of(lefts: &[Left], run: u16) -> usize
    ensures { result ≡ count_by (is_left_of run) lefts.now }
{
    lefts.iter().filter(|left| left.run().0 == run).count()
}

fn has_one_each(lefts: &[Left], behaviours: u16) -> bool
    ensures { IsTrue result ↔ ((b : ℕ) → b < behaviours → count_by (is_left_of b) lefts.now ≡ 1) }
{
    for run in 0..behaviours {
        if count_of(lefts, run) != 1 {
            return false;
        }
    }
    true
}

fn is_one_each(lefts: &[Left], behaviours: u16) -> bool
    ensures { IsTrue result ↔ IsOneEach behaviours lefts.now }
{
    if lefts.len() != usize::from(behaviours) {
        return false;
    }
    if !lefts.iter().all(|left| left.run().0 < behaviours) {
        return false;
    }
    has_one_each(lefts, behaviours)
}

/// Whether the component and the arguments of a run above 0 are those of its start.
fn is_started_so(left: &Left, start: &Option<(Comp, Args)>) -> bool
    ensures { IsTrue result ↔ (0 < left.now.run.0 → left.now.started ≡ start.now) }
{
    left.run().0 == 0 || left.was_started_so(start)
}

/// Whether the log of a run that is on no component is empty.
fn is_silent_unstarted(left: &Left, comp: Option<Comp>) -> bool
    ensures { IsTrue result ↔ (comp ≡ None → left.now.log ≡ []) }
{
    comp.is_some() || left.log().is_empty()
}

/// Whether what a run left fits what is known of starts.
fn is_placed(starts: &[Option<(Comp, Args)>], left: &Left) -> bool
    ensures { IsTrue result ↔ IsPlaced starts.now left.now }
{
    is_started_so(left, &start_of(starts, left.run()))
        && is_silent_unstarted(left, comp_of(starts, left.run()))
}

/// Whether one of each run came back, as it was started.
pub(crate) fn are_placed(behaviours: u16, starts: &[Option<(Comp, Args)>], lefts: &[Left]) -> bool
    ensures { IsTrue result ↔ ArePlaced behaviours starts.now lefts.now }
{
    is_one_each(lefts, behaviours) && lefts.iter().all(|left| is_placed(starts, left))
}

/// Whether the word of a run agrees with the run's log.
fn agrees(word: Record, log: &[Entry]) -> bool
    ensures { IsTrue result ↔ Agrees word log.now }
{
    matches!(word, Record::Unbegun) || counts(word, log)
}

/// Whether the word of a run that left agrees with its log.
fn is_agreed(words: &Words, left: &Left) -> bool
    ensures { IsTrue result ↔ Agrees (record_at words.now left.now.run.0) left.now.log }
{
    agrees(words.record_of(left.run()), left.log())
}

/// Whether the word of each run agrees with the log that came back.
pub(crate) fn all_agreed(words: &Words, lefts: &[Left]) -> bool
    ensures { IsTrue result ↔ All (λ l. Agrees (record_at words.now l.run.0) l.log) lefts.now }
{
    lefts.iter().all(|left| is_agreed(words, left))
}

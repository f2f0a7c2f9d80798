//! What the close of a word counted, and the log of its run.
ghost use Rattle.std.specs.Prelude.{◌≡◌, ◌↔◌, IsTrue, map};
ghost use Rattle.tc_rules.specs.Prelude.{worst, given};
ghost use Rattle.tc_book.specs.{Closing.Counts, Inside.settings};

use tc_board::Record;
use tc_entry::{Entry, Op, Reply};
use tc_verdict::{Verdict, from_user, worse_of};

/// The worst of the settings of a log that were replied Ok.
fn worst_setting(log: &[Entry]) -> Verdict
    ensures { result ≡ worst (map given (settings log.now)) }
{
    let mut found = Verdict::None;
    let mut rest = log;
    while let Some((entry, before)) = rest.split_last() {
        rest = before;
        if let (Op::SetVerdict(verdict), Reply::Ok) = (&entry.op, entry.reply) {
            found = worse_of(found, from_user(*verdict));
        }
    }
    found
}

fn is_same(a: Verdict, b: Verdict) -> bool
    ensures { IsTrue result ↔ (a ≡ b) }
{
    a == b
}

/// Whether the word of a run was closed, and its close counted the carried verdict and exactly the settings of this log that
/// were replied Ok.
#[tactic(auto, using(crate::proofs::Handed::settings_taken))]
pub fn counts(word: Record, log: &[Entry]) -> bool
    ensures { IsTrue result ↔ Counts word log.now }
{
    match word {
        Record::Closed(carried, counted) => is_same(
            from_user(counted),
            worse_of(worst_setting(log), from_user(carried)),
        ),
        _ => false,
    }
}

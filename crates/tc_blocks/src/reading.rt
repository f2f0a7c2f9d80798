//! How far blocks are read.
ghost use Rattle.std.specs.Prelude.{◌≤◌};

use crate::header::Kind;
use crate::met::MetRuns;
use crate::taking::TakesEvidence;

/// A block whose last line has not come yet.
#[derive(Drop)]
pub(crate) struct OpenBlock<B: Drop> {
    pub(crate) begun: B,
    pub(crate) kind: Kind,
    pub(crate) behaviours: u16,
    /// The runs that its lines are about.
    pub(crate) met: MetRuns,
    ghost few: { behaviours ≤ 256 },
}

/// What is made of the lines so far.
#[derive(Drop)]
pub(crate) struct Reading<H: TakesEvidence + Drop> {
    pub(crate) made: H,
    /// Whether the text may have histories only.
    pub(crate) only_histories: bool,
    pub(crate) block: Option<OpenBlock<H::Begun>>,
    /// The number of the next line.
    pub(crate) line: usize,
}

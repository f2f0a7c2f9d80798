//! What follows from the rule of the board: each function does nothing, and its contract is the law.
ghost use Rattle.std.specs.Prelude.{◌≡◌, ◌≢◌, ℕ, List, Some, slice_get};
ghost use Rattle.tc_entry.specs.Prelude.{UserVerdict};
ghost use Rattle.tc_board.specs.{Rule.Fits, declared.{answer.Answer.{Answer, TheVariants.Shut}, record.Record.{Record, TheVariants.{Closed, Open}}}};

/// If a word is open, no call of its hand was answered that it is closed: no setting is lost while its run continues.
#[tactic(auto, using(crate::proofs::RuleLaws::open_is_never_shut))]
pub fn open_is_never_shut()
    ensures { (carried : UserVerdict) (answers : List Answer) (word i : ℕ)
        → Fits (Open carried) answers word → slice_get answers i ≢ Some Shut }
{}

/// If a call of a hand was answered that its word is closed, the keeper has closed it.
#[tactic(auto, using(crate::proofs::RuleLaws::shut_is_closed))]
pub fn shut_is_closed()
    ensures { (r : Record) (answers : List Answer) (word i : ℕ) → Fits r answers word
        → slice_get answers i ≡ Some Shut
        → (carried : UserVerdict) × (counted : UserVerdict) × (r ≡ Closed carried counted) }
{}

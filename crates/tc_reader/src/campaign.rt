//! The campaign that a script spells: its test cases, and their behaviours.
use crate::Name;
use crate::made::Draft;
use std::collections::VecDeque;
use std::marker::Model;
use tc_step::Script;

/// The behaviours of a test case by name, in the order of the text: those of its runs 0, 1, 2 and on. The first is
/// the main component's.
#[derive(Drop)]
pub struct CaseScript {
    pub(crate) drafts: VecDeque<Draft>,
}

impl Model for CaseScript {
    ghost use Rattle.std.specs.Prelude.{All, List, ℕ};
    ghost use Rattle.tc_step.specs.Prelude.{IsScript, ScriptView};

    ghost Value = { List (List ℕ × ScriptView) };

    ghost view = { λ c. c.drafts.items };

    ghost invariant = { λ c. All (λ b. IsScript b.1.parameters b.1.steps) c.drafts.items };
}

impl CaseScript {
    ghost use Rattle.std.specs.Prelude.{◌≡◌, [], ◌∷◌, MatchOption};

    /// Takes the first behaviour out. It takes no memory.
    pub fn take_first(&mut self) -> Option<(Name, Script)>
        ensures { MatchOption result ((self.old ≡ []) × (self.new ≡ [])) (λ first. self.old ≡ first ∷ self.new) }
    {
        Some(self.drafts.pop_front()?.into_script())
    }
}

/// The test cases of a script by name, in the order of the text.
#[derive(Drop)]
pub struct Campaign {
    pub(crate) cases: VecDeque<(Name, CaseScript)>,
}

impl Model for Campaign {
    ghost use Rattle.tc_reader.specs.Campaign.{CampaignView};

    ghost Value = { CampaignView };

    ghost view = { λ c. c.cases.items };
}

impl Campaign {
    ghost use Rattle.std.specs.Prelude.{◌≡◌, [], ◌∷◌, MatchOption};

    /// Takes the first test case out. It takes no memory.
    pub fn take_first(&mut self) -> Option<(Name, CaseScript)>
        ensures { MatchOption result ((self.old ≡ []) × (self.new ≡ [])) (λ first. self.old ≡ first ∷ self.new) }
    {
        self.cases.pop_front()
    }
}

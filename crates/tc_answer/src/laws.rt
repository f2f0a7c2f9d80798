//! Laws of what is chosen, and of pages: each function changes nothing, and its contract is the law.
ghost use Rattle.std.specs.{Prelude.{◌≡◌, ◌↔◌, ◌<◌, ◌==◌, List, nat_lt, not, true, ℕ}, List.list_all};
ghost use Rattle.tc_rules.specs.Prelude.{IsShard, ShardView, has_place};
ghost use Rattle.tc_answer.specs.Page.{held, shown};

/// All shards of that many together have each test case exactly once: the one at a place the k-th shard.
#[tactic(auto, using(crate::proofs::Lemmas::Chosen::shards_are_all))]
pub fn shards_are_all()
    ensures { (shards : ℕ) → 0 < shards → (place : ℕ) → (k : ℕ) × (k < shards)
        × ((s : ShardView) → IsShard s → s.shards ≡ shards → (has_place s place ≡ true) ↔ (s.place ≡ k)) }
{}

/// In a page no tag begins in the text, a text of ASCII is shown as it was, and one without `<` is held as it is.
#[tactic(auto, using(crate::proofs::Held::tagless, crate::proofs::Held::again, crate::proofs::Held::same))]
pub fn holds_texts()
    ensures no_tag { (text : List ℕ) → list_all (λ b. not (b == 60)) (held text) ≡ true }
    ensures shown_again { (text : List ℕ) → list_all (λ b. nat_lt b 128) text ≡ true → shown (held text) ≡ text }
    ensures as_it_is { (text : List ℕ) → list_all (λ b. not (b == 60)) text ≡ true → held text ≡ text }
{}

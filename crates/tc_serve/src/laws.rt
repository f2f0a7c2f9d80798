//! Laws of what is served: each function changes nothing, and its contract is the law.
ghost use Rattle.std.specs.{Prelude.{◌≡◌, ◌≢◌, ◌<◌, ◌≤◌, ◌++◌, ℕ, Some, [], Bool, List, Option, Result, false, length, reverse, true}, List.{AllByRecursion, AllZip, filter_map}, Result.result_ok};
ghost use Rattle.tc_rules.specs.{Prelude.{IsLegal, Reply, Run, answer, is_parked, is_wake, overall, waiting, wake_op}, declared.awaited.Awaited.Awaited};
ghost use Rattle.tc_blocks.specs.{Prelude.{AreEvidence, entries_of}, declared.{block.Block.Block, header.Kind.Kind}};
ghost use Rattle.tc_serve.specs.{Protocol.{AreServed, Comes, Refuses, Sent, ServiceState, finished_state, seen}, Serve.stand_text, declared.order.{Order.Order, Refusal.Refusal, TheConstants.LINE_BYTES}};
ghost use Rattle.tc_serve.specs.Laws as laws;

/// Each history is legal, and no wake in it is replied parked.
#[tactic(auto, using(crate::proofs::Evident::served_is_legal, crate::proofs::Evident::no_idle_wake))]
pub fn served_is_sound()
    ensures legal { laws.AllServed (λ p. IsLegal p.behaviours (entries_of p.lines)) }
    ensures wakes { laws.AllServed (λ p. AllByRecursion (λ e. is_wake e.op ≡ true
        → is_parked e.reply ≡ false) (entries_of p.lines)) }
{}

/// After each line no run sleeps that can continue: the wake of each run that sleeps would be parked.
#[tactic(auto, using(crate::proofs::Settled::nobody_sleeps_on))]
pub fn nobody_sleeps_on()
    ensures { laws.AllServed (λ p. (b : ℕ) (a : Awaited) → b < p.behaviours
        → waiting (entries_of p.lines) b ≡ Some a
        → answer p.behaviours (entries_of p.lines) b (wake_op a) ≡ Reply.Parked) }
{}

/// The evidence has what was asked for, each once and in its order, and nothing else but wakes and refusals.
#[tactic(auto, using(crate::proofs::Evident::evidence_is_asked))]
pub fn evidence_is_asked()
    ensures { (lines : List Sent) (s : ServiceState) → AreServed lines s
        → laws.asked_of s ≡ filter_map (λ l. result_ok l.came) lines }
{}

/// What is written in all is evidence of exactly the test cases, if there is one.
#[tactic(auto, using(crate::proofs::Evident::served_is_evidence))]
pub fn served_is_evidence()
    ensures { (lines : List Sent) (s : ServiceState) → AreServed lines s → (finished_state s).closed ≢ []
        → (blocks : List Block) × AreEvidence (stand_text (finished_state s)) blocks
        × AllZip (λ p b. (b.header.kind ≡ Kind.Evidence) × (b.header.name ≡ p.name)
        × (b.header.behaviours ≡ p.behaviours) × (b.lines ≡ reverse p.lines)
        × (b.verdict ≡ overall (entries_of p.lines))) (reverse (finished_state s).closed) blocks }
{}

/// A line is refused that is as long as what is looked at of one, or longer.
pub fn long_lines_are_refused()
    ensures { (line : List ℕ) (s : ServiceState) → LINE_BYTES ≤ length line
        → Refuses Refusal.TooLong true (seen line) s }
{}

/// A line adds to the text, and changes none of it.
#[tactic(auto, using(crate::proofs::Changes::text_grows))]
pub fn text_grows()
    ensures { (c : Result Order (Refusal × Option Run)) (ended : Bool) (line : List ℕ) (s t : ServiceState)
        → Comes c ended line s t
        → (more : List ℕ) × (stand_text t ≡ stand_text s ++ more) }
{}

//! What a line asks for, and why it is refused.
ghost use Rattle.std.specs.{Prelude.{◌≡◌, ◌<◌, ◌^◌, ◌++◌, ℕ, List, codes, false, true, Ok, Some, None, IfSome, IfOk, IfErr, MatchOption}, Fmt.decimal};
ghost use Rattle.tc_rules.specs.Prelude.{IsName};
ghost use Rattle.tc_blocks.specs.Prelude.{naming_text, said_text};
ghost use Rattle.tc_serve.specs.{Inside.IsOther, Inside.IsWhyOther, Protocol.IsWhyNothing, Protocol.SpellsOrder, Protocol.why_text};

use std::alloc::Global;
use tc_blocks::Sentence;
use tc_entry::{Name, NoMemory, Op, Run};
use tc_text::{after, as_behaviours, read_move, read_number, take_name, take_run};

/// How many bytes of a line are looked at: one more than any line has that asks for something.
pub(crate) const LINE_BYTES: usize = 209;

/// What a line asks for.
#[derive(Drop)]
pub(crate) enum Order {
    /// Opens a test case of this name, with that many behaviours.
    Case { name: Name, behaviours: u16 },
    /// Names the behaviour of a run.
    Named { run: Run, name: Name },
    /// Makes this call of this run.
    Move { caller: Run, op: Op },
    /// Says something for a run.
    Remark { run: Run, sentence: Sentence },
    /// Closes the test case.
    End,
}

/// Why what was asked for is refused, if it is.
pub(crate) type Tried = Result<Option<Refusal>, NoMemory>;

/// Why a line is refused. It is refused for the first of these that holds, in this order.
#[derive(Clone, Copy, PartialEq, Eq, Debug)]
pub enum Refusal {
    /// No LF ends it: it may be a part of a line.
    Unended,
    /// No line that asks for something is so long.
    TooLong,
    /// It is a remark, and what it says is no text of evidence.
    BadRemark,
    /// It opens a test case with a number of behaviours that no test case has.
    Behaviours,
    /// It has none of the forms of a line.
    BadLine,
    /// It opens a test case, and one is open.
    CaseOpen,
    /// It asks something of a test case, and none is open.
    NoCase,
    /// It names or says something for a run that the test case does not have.
    NoRun,
    /// It names the behaviour of a run that an earlier line is about.
    LateName,
    /// It is a wake, which comes of itself.
    Wake,
    /// It is a move of a run that waits.
    Waiting,
}

impl Refusal {
    /// The words that name it.
    pub fn text(self) -> &'static str
        ensures { result.now ≡ why_text self }
    {
        match self {
            Refusal::Unended => "no line feed",
            Refusal::TooLong => "line too long",
            Refusal::BadRemark => "bad remark",
            Refusal::Behaviours => "a test case has 1 to 256 behaviours",
            Refusal::BadLine => "bad line",
            Refusal::CaseOpen => "a test case is open",
            Refusal::NoCase => "no test case is open",
            Refusal::NoRun => "no such run",
            Refusal::LateName => "late name",
            Refusal::Wake => "a wake comes of itself",
            Refusal::Waiting => "the run waits",
        }
    }
}

// The test case that the line opens, and its number of behaviours, whatever it is.
fn read_case(text: &[u8]) -> Option<(Name, u32)>
    ensures spelled { IfSome result (λ r. text.now ≡ codes "case " ++ (r.0 ++ (codes " " ++ decimal r.1))) }
    ensures fits { IfSome result (λ r. IsName r.0 × (r.1 < 2 ^ 32)) }
    ensures only { (name : List ℕ) (n : ℕ) → IsName name → n < 2 ^ 32 →
        text.now ≡ codes "case " ++ (name ++ (codes " " ++ decimal n)) → result ≡ Some (name, n) }
{
    let rest = after(text, b"case ")?;
    let (name, rest) = take_name(rest)?;
    let rest = after(rest, b" ")?;
    Some((name, read_number(rest)?))
}

// The name of a run's behaviour that the line spells.
fn read_naming(text: &[u8]) -> Option<(Run, Name)>
    ensures spelled { IfSome result (λ r. text.now ≡ naming_text r.0.0 r.1) }
    ensures fits { IfSome result (λ r. (r.0.0 < 2 ^ 16) × IsName r.1) }
    ensures only { (k : ℕ) (name : List ℕ) → k < 2 ^ 16 → IsName name → text.now ≡ naming_text k name → result ≡ Some (record { 0 = k }, name) }
{
    let rest = after(text, b"behaviour ")?;
    let (run, rest) = take_run(rest)?;
    let rest = after(rest, b" ")?;
    Some((run, Name::of_bytes(rest)?))
}

// The run that makes a remark in the line, and what it says, which may be no sentence.
fn read_remark(text: &[u8]) -> Option<(Run, &[u8])>
    ensures spelled { IfSome result (λ r. text.now ≡ said_text false r.0.0 r.1.now) }
    ensures fits { IfSome result (λ r. r.0.0 < 2 ^ 16) }
    ensures only { (k : ℕ) (sentence : List ℕ) → k < 2 ^ 16 → text.now ≡ said_text false k sentence
        → MatchOption result ⊥ (λ r. (r.0.0 ≡ k) × (r.1.now ≡ sentence)) }
{
    let (run, rest) = take_run(text)?;
    Some((run, after(rest, b" # ")?))
}

// What the line asks for, if it is neither a move nor a remark, or why it asks for nothing.
fn read_other(text: &[u8]) -> Result<Order, Refusal>
    ensures spelled { IfOk result (λ o. SpellsOrder text.now o) }
    ensures only { (o : Order) → SpellsOrder text.now o → IsOther o → result ≡ Ok o }
    ensures why { IfErr result (λ why. IsWhyOther why text.now) }
{
    if let Some((run, name)) = read_naming(text) {
        return Ok(Order::Named { run, name });
    }
    if let Some((name, number)) = read_case(text) {
        let behaviours = as_behaviours(number).ok_or(Refusal::Behaviours)?;
        return Ok(Order::Case { name, behaviours });
    }
    match after(text, b"end") {
        Some([]) => Ok(Order::End),
        _ => Err(Refusal::BadLine),
    }
}

/// What the line asks for, or why it asks for nothing.
pub(crate) fn read_order(alloc: Global, text: &[u8]) -> Result<Result<Order, Refusal>, NoMemory>
    ensures spelled { IfOk result (λ found. IfOk found (λ o. SpellsOrder text.now o)) }
    ensures only { (o : Order) → SpellsOrder text.now o → IfOk result (λ found. found ≡ Ok o) }
    ensures why { IfOk result (λ found. IfErr found (λ why. IsWhyNothing why true text.now)) }
{
    if text.len() >= LINE_BYTES {
        return Ok(Err(Refusal::TooLong));
    }
    if let Some((caller, op)) = read_move(text) {
        return Ok(Ok(Order::Move { caller, op }));
    }
    let Some((run, bytes)) = read_remark(text) else {
        return Ok(read_other(text));
    };
    match Sentence::of_bytes(alloc, bytes)? {
        Some(sentence) => Ok(Ok(Order::Remark { run, sentence })),
        None => Ok(Err(Refusal::BadRemark)),
    }
}

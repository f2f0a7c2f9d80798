//! What operations are about.
ghost use Rattle.std.specs.{Prelude.{◌≡◌, ◌<◌, ◌≤◌, ◌+◌, ◌^◌, ◌++◌, ℕ, Bool, List, codes, length, Some, IfSome, MatchOption}, Fmt.decimal};
ghost use Rattle.tc_entry.specs.{declared.limits.TheConstants.ARGUMENTS, declared.op.Op.TheVariants.{Create as AnyCreate, Start as AnyStart}, Prelude.{given, name_of, IsName}};
ghost use Rattle.tc_text.specs.{Inside.{EndsKind, args_text, kind_text, named_text, operand_text, verb_of, AreComps, start_text}, Reading.{EndsMove, EndsNumber, Takes}, Spelling.{IsGroup, IsOp, IsTarget, group_text, target_text}, declared.verb.Verb.Verb};

use crate::cursor::after;
use crate::name::{take_name, take_verdict};
use crate::number::take_number;
use tc_entry::{Args, Comp, Group, Op, Run, Target, UserVerdict};
use tc_verdict::to_user;

#[inline(always)]
pub(crate) fn take_group(text: &[u8]) -> Option<(Group, &[u8])>
    ensures spelled { IfSome result (λ r. text.now ≡ group_text r.0 ++ r.1.now) }
    ensures fits { IfSome result (λ r. IsGroup r.0) }
    ensures only { (g : Group) (rest : List ℕ) → IsGroup g → EndsNumber rest → text.now ≡ group_text g ++ rest → Takes result g rest }
{
    if let Some((number, rest)) = take_number(text) {
        return Some((Group::One(Comp(number)), rest));
    }
    let rest = after(text, b"all")?;
    Some((Group::All, rest))
}

#[inline(always)]
pub(crate) fn take_target(text: &[u8]) -> Option<(Target, &[u8])>
    ensures spelled { IfSome result (λ r. text.now ≡ target_text r.0 ++ r.1.now) }
    ensures fits { IfSome result (λ r. IsTarget r.0) }
    ensures only { (t : Target) (rest : List ℕ) → IsTarget t → EndsNumber rest → text.now ≡ target_text t ++ rest → Takes result t rest }
{
    if let Some((number, rest)) = take_number(text) {
        return Some((Target::One(Comp(number)), rest));
    }
    if let Some(rest) = after(text, b"all") {
        return Some((Target::All, rest));
    }
    let rest = after(text, b"any")?;
    Some((Target::Any, rest))
}

#[inline(always)]
pub(crate) fn take_setting(text: &[u8]) -> Option<(UserVerdict, &[u8])>
    ensures spelled { IfSome result (λ r. text.now ≡ name_of (given r.0) ++ r.1.now) }
    ensures only { (v : UserVerdict) (rest : List ℕ) → text.now ≡ name_of (given v) ++ rest → Takes result v rest }
{
    let (verdict, rest) = take_verdict(text)?;
    Some((to_user(verdict)?, rest))
}

/// The number of a run that the text begins with, and what follows it.
#[inline(always)]
pub fn take_run(text: &[u8]) -> Option<(Run, &[u8])>
    ensures spelled { IfSome result (λ r. text.now ≡ decimal r.0.0 ++ r.1.now) }
    ensures fits { IfSome result (λ r. r.0.0 < 2 ^ 16) }
    ensures only { (n : ℕ) (rest : List ℕ) → n < 2 ^ 16 → EndsNumber rest → text.now ≡ decimal n ++ rest
        → MatchOption result ⊥ (λ r. (r.0.0 ≡ n) × (r.1.now ≡ rest)) }
{
    let (number, rest) = take_number(text)?;
    match u16::try_from(number) {
        Ok(number) => Some((Run(number), rest)),
        Err(_) => None,
    }
}

/// The number of a run, and a space, that the text begins with, and what follows them.
#[inline(always)]
pub(crate) fn take_caller(text: &[u8]) -> Option<(Run, &[u8])>
    ensures spelled { IfSome result (λ r. text.now ≡ decimal r.0.0 ++ (codes " " ++ r.1.now)) }
    ensures fits { IfSome result (λ r. r.0.0 < 2 ^ 16) }
    ensures only { (n : ℕ) (rest : List ℕ) → n < 2 ^ 16 → text.now ≡ decimal n ++ (codes " " ++ rest)
        → MatchOption result ⊥ (λ r. (r.0.0 ≡ n) × (r.1.now ≡ rest)) }
{
    let (run, rest) = take_run(text)?;
    Some((run, after(rest, b" ")?))
}

// Whether the component that is created is alive-type.
#[inline(always)]
pub(crate) fn take_kind(text: &[u8]) -> (bool, &[u8])
    ensures spelled { text.now ≡ kind_text result.0 ++ result.1.now }
    ensures only { (alive : Bool) (rest : List ℕ) → EndsKind rest → text.now ≡ kind_text alive ++ rest → (result.0 ≡ alive) × (result.1.now ≡ rest) }
{
    match after(text, b" alive") {
        Some(rest) => (true, rest),
        None => (false, text),
    }
}

/// What is in front of a component's name.
pub(crate) const NAMED: &[u8] = b" named ";

/// The Create with a name that continues as the text begins after its first word, and what follows it.
pub(crate) fn take_named(text: &[u8]) -> Option<(Op, &[u8])>
    ensures spelled { IfSome result (λ r. (verb_of r.0 ≡ Verb.Create) × (text.now ≡ operand_text r.0 ++ r.1.now)) }
    ensures fits { IfSome result (λ r. IsOp r.0) }
    ensures only { (alive : Bool) (name : List ℕ) (rest : List ℕ) → IsName name → EndsNumber rest → text.now ≡ named_text alive name ++ rest
        → Takes result (AnyCreate alive (Some name)) rest }
{
    let (alive, rest) = take_kind(text);
    let (name, rest) = take_name(after(rest, NAMED)?)?;
    let op = Op::Create {
        alive,
        name: Some(name),
    };
    Some((op, rest))
}

// Appends the components that the text begins with, each with a space in front, as far as there is room; gives what
// follows them.
fn take_args<'a>(args: &mut Args, text: &'a [u8]) -> &'a [u8]
    ensures spelled { (cs : List Comp) × (args.new ≡ args.old ++ cs) × AreComps cs × (text.now ≡ args_text cs ++ result.now) }
    ensures few { length args.old ≤ ARGUMENTS → length args.new ≤ ARGUMENTS }
    ensures only { (cs : List Comp) (rest : List ℕ) → AreComps cs → length args.old + length cs ≤ ARGUMENTS → EndsMove rest
        → text.now ≡ args_text cs ++ rest → (args.new ≡ args.old ++ cs) × (result.now ≡ rest) }
{
    let Some(rest) = after(text, b" ") else {
        return text;
    };
    let Some((number, rest)) = take_number(rest) else {
        return text;
    };
    if !args.push(Comp(number)) {
        return text;
    }
    take_args(args, rest)
}

/// The Start that continues as the text begins after its first word, and what follows it.
pub(crate) fn take_start(text: &[u8]) -> Option<(Op, &[u8])>
    ensures spelled { IfSome result (λ r. (verb_of r.0 ≡ Verb.Start) × (text.now ≡ operand_text r.0 ++ r.1.now)) }
    ensures fits { IfSome result (λ r. IsOp r.0) }
    ensures only { (c : Comp) (run : Run) (args : List Comp) (rest : List ℕ) → IsOp (AnyStart c run args) → EndsMove rest
        → text.now ≡ start_text c run args ++ rest → Takes result (AnyStart c run args) rest }
{
    let (comp, rest) = take_number(text)?;
    let rest = after(rest, b" ")?;
    let (run, rest) = take_run(rest)?;
    let mut args = Args::new();
    let rest = take_args(&mut args, rest);
    Some((
        Op::Start {
            comp: Comp(comp),
            run,
            args,
        },
        rest,
    ))
}

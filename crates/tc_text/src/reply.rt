//! The texts of replies.
ghost use Rattle.std.specs.{Prelude.{◌≡◌, ◌++◌, ℕ, List, Some, IfSome, OnOk, OnErr, codes}, Io.StartsWith};
ghost use Rattle.tc_entry.specs.{Prelude.fault_name, declared.reply.Reply.TheVariants.Made};
ghost use Rattle.tc_text.specs.{Inside.BeginsWithE, Reading.EndsMove, Reading.Takes, Spelling.IsReply, Spelling.reply_text};

use crate::cursor::{after, value_after};
use crate::number::take_number;
use crate::writing::{append_number, append_text};
use tc_entry::{Comp, Fault, NoMemory, Reply, Verdict, name_of_fault};
use tc_verdict::name;

// The name of a dynamic error that the text begins with after a space, and what follows it.
fn take_fault(text: &[u8]) -> Option<(Fault, &[u8])>
    ensures spelled { IfSome result (λ r. text.now ≡ codes " " ++ (fault_name r.0 ++ r.1.now)) }
    ensures only { (f : Fault) (rest : List ℕ) → text.now ≡ codes " " ++ (fault_name f ++ rest) → Takes result f rest }
{
    let text = after(text, b" ")?;
    if let Some(rest) = after(text, b"no-component") {
        Some((Fault::NoComponent, rest))
    } else if let Some(rest) = after(text, b"not-main") {
        Some((Fault::NotMain, rest))
    } else if let Some(rest) = after(text, b"start-main") {
        Some((Fault::StartMain, rest))
    } else if let Some(rest) = after(text, b"already-running") {
        Some((Fault::AlreadyRunning, rest))
    } else if let Some(rest) = after(text, b"not-startable") {
        Some((Fault::NotStartable, rest))
    } else if let Some(rest) = after(text, b"no-behaviour") {
        Some((Fault::NoBehaviour, rest))
    } else if let Some(rest) = after(text, b"too-many") {
        Some((Fault::TooMany, rest))
    } else if let Some(rest) = after(text, b"stuck") {
        Some((Fault::Stuck, rest))
    } else {
        None
    }
}

// The reply that the text begins with, if its first letter is an e.
#[inline(always)]
#[tactic(auto, using(crate::proofs::Operands::no_fault_after))]
fn take_end_or_error(text: &[u8]) -> Option<(Reply, &[u8])>
    ensures spelled { IfSome result (λ r. text.now ≡ reply_text r.0 ++ r.1.now) }
    ensures fits { IfSome result (λ r. IsReply r.0) }
    ensures only { (r : Reply) (rest : List ℕ) → BeginsWithE text.now → EndsMove rest → text.now ≡ reply_text r ++ rest → Takes result r rest }
{
    if let Some(rest) = after(text, b"ended") {
        return Some((Reply::Ended, rest));
    }
    let rest = after(text, b"error")?;
    match take_fault(rest) {
        Some((fault, rest)) => Some((Reply::Fault(fault), rest)),
        None => Some((Reply::Local(Verdict::Error), rest)),
    }
}

// The reply to a create that the text begins with.
#[inline(always)]
fn take_made(text: &[u8]) -> Option<(Reply, &[u8])>
    ensures spelled { IfSome result (λ r. text.now ≡ reply_text r.0 ++ r.1.now) }
    ensures fits { IfSome result (λ r. IsReply r.0) }
    ensures only { (comp : Comp) (rest : List ℕ) → IsReply (Made comp) → EndsMove rest
        → text.now ≡ reply_text (Made comp) ++ rest → Takes result (Made comp) rest }
{
    let (number, rest) = take_number(after(text, b"made ")?)?;
    Some((Reply::Made(Comp(number)), rest))
}

/// The reply that the text begins with, and what follows it.
///
/// The type says who reads: each reader has a copy of this function, which the compiler can inline.
#[inline(always)]
pub fn take_reply<T>(text: &[u8]) -> Option<(Reply, &[u8])>
    ensures spelled { IfSome result (λ r. text.now ≡ reply_text r.0 ++ r.1.now) }
    ensures fits { IfSome result (λ r. IsReply r.0) }
    ensures only { (r : Reply) (rest : List ℕ) → IsReply r → EndsMove rest → text.now ≡ reply_text r ++ rest → Takes result r rest }
{
    match *text.first()? {
        b'o' => value_after(text, b"ok", Reply::Ok),
        b't' => value_after(text, b"true", Reply::Answer(true)),
        b'e' => take_end_or_error(text),
        b'f' => match value_after(text, b"false", Reply::Answer(false)) {
            Some(found) => Some(found),
            None => value_after(text, b"fail", Reply::Local(Verdict::Fail)),
        },
        b'm' => match value_after(text, b"matched", Reply::Matched) {
            Some(found) => Some(found),
            None => take_made(text),
        },
        b'p' => match value_after(text, b"parked", Reply::Parked) {
            Some(found) => Some(found),
            None => value_after(text, b"pass", Reply::Local(Verdict::Pass)),
        },
        b'n' => value_after(text, b"none", Reply::Local(Verdict::None)),
        b'i' => value_after(text, b"inconc", Reply::Local(Verdict::Inconc)),
        _ => None,
    }
}

/// The reply that the text spells. None if it spells none.
pub fn read_reply(text: &[u8]) -> Option<Reply>
    ensures spelled { IfSome result (λ r. text.now ≡ reply_text r) }
    ensures fits { IfSome result IsReply }
    ensures only { (r : Reply) → IsReply r → text.now ≡ reply_text r → result ≡ Some r }
{
    let (reply, rest) = take_reply::<()>(text)?;
    if rest.is_empty() { Some(reply) } else { None }
}

// Appends the spelling of the reply; if memory runs out, a part of it.
fn append_reply(out: &mut Vec<u8>, reply: &Reply) -> Result<(), NoMemory>
    ensures ok { OnOk result (out.new.items ≡ out.old.items ++ reply_text reply.now) }
    ensures err { OnErr result (StartsWith out.new.items out.old.items) }
{
    match *reply {
        Reply::Made(comp) => {
            append_text(out, "made ")?;
            append_number(out, u64::from(comp.0))
        }
        Reply::Ok => append_text(out, "ok"),
        Reply::Answer(true) => append_text(out, "true"),
        Reply::Answer(false) => append_text(out, "false"),
        Reply::Local(verdict) => append_text(out, name(verdict)),
        Reply::Matched => append_text(out, "matched"),
        Reply::Parked => append_text(out, "parked"),
        Reply::Ended => append_text(out, "ended"),
        Reply::Fault(fault) => {
            append_text(out, "error ")?;
            append_text(out, name_of_fault(fault))
        }
    }
}

/// Appends the spelling of the reply. If memory runs out, nothing is appended.
pub fn write_reply(out: &mut Vec<u8>, reply: &Reply) -> Result<(), NoMemory>
    ensures ok { OnOk result (out.new.items ≡ out.old.items ++ reply_text reply.now) }
    ensures err { OnErr result (out.new.items ≡ out.old.items) }
{
    let start = out.len();
    let done = append_reply(out, reply);
    if done.is_err() {
        out.truncate(start);
    }
    done
}

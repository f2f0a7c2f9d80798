//! Bytes of a text, as they are shown, and those that no line may have.
ghost use Rattle.std.specs.{Prelude.{◌≡◌, ◌<◌, IfOk, IfSome, length, not, take}, List.{before_first, position}};
ghost use Rattle.tc_text.specs.Prelude.{is_plain as is_plain_byte};
ghost use Rattle.tc_explain.specs.Explanation.{quoted};

use crate::Result;
use std::alloc::Global;
use tc_text::{append_text, is_plain};

/// How many bytes of a line or a word are shown.
pub const SHOWN: usize = 60;

// Appends a byte by its two hexadecimal digits.
fn append_hex(out: &mut Vec<u8>, byte: u8) -> Result<()> {
    let alloc = *out.allocator();
    append_text(out, format!(in alloc; "\\x{byte:02X}")?.as_str())
}

// What of a line or a word is shown: of a long one the first bytes.
#[tactic(auto, using(std::proofs::lemmas::List::take_min))]
fn shown(bytes: &[u8]) -> &[u8]
    ensures { result.now ≡ take SHOWN bytes.now }
{
    &bytes[..SHOWN.min(bytes.len())]
}

/// How many bytes are before the first odd byte, if there is one.
pub(crate) fn odd_place(line: &[u8]) -> Option<usize>
    ensures place { result ≡ position (λ b. not (is_plain_byte b)) line.now }
    ensures within { IfSome result (λ at. at < length line.now) }
{
    line.iter().position(|byte| !is_plain(*byte))
}

// The bytes before the first odd one.
#[tactic(auto, using(crate::proofs::Quoting::begin_rules))]
fn plain_begin(bytes: &[u8]) -> &[u8]
    ensures { result.now ≡ before_first (λ b. not (is_plain_byte b)) bytes.now }
{
    match odd_place(bytes) {
        Some(at) => &bytes[..at],
        None => bytes,
    }
}

/// A backquote, and what is shown of a line or a word before its first odd byte.
pub(crate) fn quoted_begin(alloc: Global, bytes: &[u8]) -> Result<Vec<u8>>
    ensures { IfOk result (λ v. v.items ≡ quoted bytes.now) }
{
    let mut out = Vec::new(alloc);
    out.push(b'`')?;
    out.extend_from_slice(plain_begin(shown(bytes)))?;
    Ok(out)
}

/// What is shown of a line or a word from its first odd byte on, and the end of the quotation.
pub(crate) fn quoted_rest(alloc: Global, bytes: &[u8]) -> Result<Vec<u8>> {
    let mut out = Vec::new(alloc);
    let begin = shown(bytes);
    for byte in begin.iter().skip(plain_begin(begin).len()) {
        if is_plain(*byte) {
            out.push(*byte)?;
        } else {
            append_hex(&mut out, *byte)?;
        }
    }
    append_text(&mut out, if bytes.len() <= SHOWN { "`" } else { "`.." })?;
    Ok(out)
}

/// Appends the name of what begins with an odd byte, otherwise the number of that byte.
pub(crate) fn append_odd(out: &mut Vec<u8>, bytes: &[u8]) -> Result<()> {
    let name = match bytes {
        [13, ..] => "a carriage return; a line ends with a line feed only",
        [9, ..] => "a tab; a line has spaces only",
        [0, ..] => "a zero byte, as UTF-16 has them",
        [239, 187, 191, ..] => "a byte order mark",
        [255, 254, ..] | [254, 255, ..] => "a byte order mark of UTF-16",
        [byte, ..] => {
            append_text(out, "the byte ")?;
            return append_hex(out, *byte);
        }
        [] => "",
    };
    append_text(out, name)
}

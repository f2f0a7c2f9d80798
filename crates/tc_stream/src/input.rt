//! A whole input, up to a limit.
ghost use Rattle.std.specs.{Prelude.{◌≡◌, true, false, ◌<◌, ◌≤◌, ◌+◌, ◌^◌, ◌↔◌, length, take, [], Some, IfOk, OnOk, IfSome, IfNone, vec_len, IsErrOf}, Io.KnownBytes.{Consumes, IsAtEnd}, Io.{StartsWith, appended_bytes}};
ghost use Rattle.tc_stream.specs.Streams.{input_text};

use crate::counted::{CountedRead, CountedReader};
use std::alloc::Global;
use std::fmt;
use std::io::Read;
use tc_verdict::NoMemory;
use thiserror::Error;

/// Why an input was refused.
#[derive(Clone, Copy, Debug, PartialEq, Eq, Error)]
pub enum InputFault {
    /// There are more bytes than the limit.
    TooLong,
    /// The reader failed; an interrupted read counts as a failure.
    Read,
    /// Memory ran out.
    NoMemory,
}

impl InputFault {
    /// The words that name the fault.
    pub fn text(self) -> &'static str
        ensures { result.now ≡ input_text self }
    {
        match self {
            InputFault::TooLong => "input too long",
            InputFault::Read => "read fault",
            InputFault::NoMemory => NoMemory.text(),
        }
    }
}

impl fmt::Display for InputFault {
    ghost output = { λ f. Some (input_text f) };

    fn fmt<W: fmt::Write>(&self, f: &mut fmt::Formatter<W>) -> fmt::Result {
        f.write_str(self.text())
    }
}

/// One read into the room, of an input that may have at most `limit` bytes more: how many it gave. None at the end.
pub fn read_part<R: Read>(
    reader: &mut R,
    room: &mut [u8],
    limit: usize,
) -> Result<Option<usize>, InputFault>
    requires { 0 < length room.old }
    ensures some { IfOk result (λ n. IfSome n (λ n. 0 < n)) }
    ensures within { IfOk result (λ n. IfSome n (λ n. n ≤ length room.new)) }
    ensures room { length room.new ≡ length room.old }
    ensures fits { IfOk result (λ n. IfSome n (λ n. n ≤ limit)) }
    ensures takes { IfOk result (λ n. IfSome n (λ n. Consumes (R.remaining reader.old) (R.remaining reader.new) (take n room.new))) }
    ensures none { IfOk result (λ n. IfNone n (Consumes (R.remaining reader.old) (R.remaining reader.new) [])) }
    ensures end { IfOk result (λ n. IfNone n (IsAtEnd (R.remaining reader.new))) }
    ensures long { IsErrOf result InputFault.TooLong → IfSome (R.remaining reader.old) (λ xs. limit < length xs) }
{
    let Ok(count) = reader.read(room) else {
        return Err(InputFault::Read);
    };
    if limit < count {
        return Err(InputFault::TooLong);
    }
    Ok(if count == 0 { None } else { Some(count) })
}

// How many bytes are read at a time, at most.
const CHUNK: usize = 8192;

// One read into the chunk, whose bytes go after those that are there. It says whether there were any.
fn read_more<R: CountedRead>(
    reader: &mut R,
    chunk: &mut [u8; CHUNK],
    bytes: &mut Vec<u8>,
    limit: usize,
) -> Result<bool, InputFault>
    requires fits { vec_len bytes.old ≤ limit }
    requires sound { R.has_failed reader.old ≡ false }
    requires few { R.reads reader.old + 1 < 2 ^ 128 }
    ensures fits { OnOk result (vec_len bytes.new ≤ limit) }
    ensures grows { IfOk result (λ more. more ≡ true → vec_len bytes.old < vec_len bytes.new) }
    ensures keeps { OnOk result (StartsWith bytes.new.items bytes.old.items) }
    ensures takes { OnOk result (Consumes (R.remaining reader.old) (R.remaining reader.new) (appended_bytes bytes.old.items bytes.new.items)) }
    ensures end { IfOk result (λ more. more ≡ false → IsAtEnd (R.remaining reader.new)) }
    ensures long { IsErrOf result InputFault.TooLong → IfSome (R.remaining reader.old) (λ xs. limit < vec_len bytes.old + length xs) }
    ensures counted { R.reads reader.new ≡ R.reads reader.old + 1 }
    ensures failed { IsErrOf result InputFault.Read ↔ (R.has_failed reader.new ≡ true) }
    ensures sound { OnOk result (R.has_failed reader.new ≡ false) }
    ensures same { R.name reader.new ≡ R.name reader.old }
{
    let Ok(count) = reader.read(chunk) else {
        return Err(InputFault::Read);
    };
    if limit - bytes.len() < count {
        return Err(InputFault::TooLong);
    }
    if bytes.extend_from_slice(&chunk[..count]).is_err() {
        return Err(InputFault::NoMemory);
    }
    Ok(count > 0)
}

/// All bytes to the end of the reader, at most `limit`. `Read` is returned exactly if a read failed, which is then the
/// last one.
pub fn read_counted<R: CountedRead>(
    alloc: Global,
    reader: &mut R,
    limit: usize,
) -> Result<Vec<u8>, InputFault>
    requires sound { R.has_failed reader.old ≡ false }
    requires few { R.reads reader.old + limit + 1 < 2 ^ 128 }
    ensures all { IfOk result (λ v. IfSome (R.remaining reader.old) (λ xs. v.items ≡ xs)) }
    ensures end { OnOk result (IsAtEnd (R.remaining reader.new)) }
    ensures fits { IfOk result (λ v. vec_len v ≤ limit) }
    ensures long { IsErrOf result InputFault.TooLong → IfSome (R.remaining reader.old) (λ xs. limit < length xs) }
    ensures counted { R.reads reader.new ≤ R.reads reader.old + limit + 1 }
    ensures failed { IsErrOf result InputFault.Read ↔ (R.has_failed reader.new ≡ true) }
    ensures same { R.name reader.new ≡ R.name reader.old }
{
    let mut bytes = Vec::new(alloc);
    let mut chunk = [0; CHUNK];
    while read_more(reader, &mut chunk, &mut bytes, limit)? {}
    Ok(bytes)
}

/// All bytes to the end of the reader, at most `limit`, with at most `limit + 1` reads.
pub fn read_input<R: Read>(
    alloc: Global,
    reader: &mut R,
    limit: usize,
) -> Result<Vec<u8>, InputFault>
    ensures all { IfOk result (λ v. IfSome (R.remaining reader.old) (λ xs. v.items ≡ xs)) }
    ensures end { OnOk result (IsAtEnd (R.remaining reader.new)) }
    ensures fits { IfOk result (λ v. vec_len v ≤ limit) }
    ensures long { IsErrOf result InputFault.TooLong → IfSome (R.remaining reader.old) (λ xs. limit < length xs) }
{
    read_counted(alloc, &mut CountedReader::new(reader), limit)
}

//! A whole output.
ghost use Rattle.std.specs.{Prelude.{◌≡◌, true, false, ◌<◌, ◌≤◌, ◌+◌, ◌^◌, ◌↔◌, length, take, Some, IfOk, IsErr, OnOk, OnErr}, Io.KnownBytes.{Appends, Keeps}};
ghost use Rattle.tc_stream.specs.Streams.{write_text, AppendsPrefix};

use crate::counted::{CountedWrite, CountedWriter};
use std::fmt;
use std::io::Write;
use thiserror::Error;

/// The writer failed, or took no byte.
#[derive(Clone, Copy, Debug, PartialEq, Eq, Error)]
pub struct WriteFault;

impl WriteFault {
    /// The words that name the fault.
    pub fn text(self) -> &'static str
        ensures { result.now ≡ write_text }
    {
        "write fault"
    }
}

impl fmt::Display for WriteFault {
    ghost output = { λ _. Some write_text };

    fn fmt<W: fmt::Write>(&self, f: &mut fmt::Formatter<W>) -> fmt::Result {
        f.write_str(self.text())
    }
}

// One write, which takes a byte or more.
fn write_some<W: CountedWrite>(writer: &mut W, bytes: &[u8]) -> Result<usize, WriteFault>
    requires some { 0 < length bytes.now }
    requires sound { W.has_failed writer.old ≡ false }
    requires few { W.writes writer.old + 1 < 2 ^ 128 }
    ensures some { IfOk result (λ n. 0 < n) }
    ensures within { IfOk result (λ n. n ≤ length bytes.now) }
    ensures taken { IfOk result (λ n. Appends (W.contents writer.old) (W.contents writer.new) (take n bytes.now)) }
    ensures err { OnErr result (Keeps (W.contents writer.old) (W.contents writer.new)) }
    ensures counted { W.writes writer.new ≡ W.writes writer.old + 1 }
    ensures failed { IsErr result ↔ (W.has_failed writer.new ≡ true) }
    ensures sound { OnOk result (W.has_failed writer.new ≡ false) }
    ensures same { W.name writer.new ≡ W.name writer.old }
{
    match writer.write(bytes) {
        Ok(0) => Err(WriteFault),
        Ok(count) => Ok(count),
        Err(_) => Err(WriteFault),
    }
}

/// Writes all of `bytes`, or a prefix if the writer fails. A fault is returned exactly if a write failed or took no
/// byte, which is then the last one.
pub fn write_counted<W: CountedWrite>(writer: &mut W, bytes: &[u8]) -> Result<(), WriteFault>
    requires sound { W.has_failed writer.old ≡ false }
    requires few { W.writes writer.old + length bytes.now < 2 ^ 128 }
    ensures all { OnOk result (Appends (W.contents writer.old) (W.contents writer.new) bytes.now) }
    ensures part { OnErr result (AppendsPrefix (W.contents writer.old) (W.contents writer.new) bytes.now) }
    ensures counted { W.writes writer.new ≤ W.writes writer.old + length bytes.now }
    ensures failed { IsErr result ↔ (W.has_failed writer.new ≡ true) }
    ensures same { W.name writer.new ≡ W.name writer.old }
{
    let mut done = 0;
    while done < bytes.len() {
        done += write_some(writer, &bytes[done..])?;
    }
    Ok(())
}

/// Writes all of `bytes`, or a prefix if the writer fails, with at most as many writes as there are bytes.
pub fn write_whole<W: Write>(writer: &mut W, bytes: &[u8]) -> Result<(), WriteFault>
    ensures all { OnOk result (Appends (W.contents writer.old) (W.contents writer.new) bytes.now) }
    ensures part { OnErr result (AppendsPrefix (W.contents writer.old) (W.contents writer.new) bytes.now) }
{
    write_counted(&mut CountedWriter::new(writer), bytes)
}

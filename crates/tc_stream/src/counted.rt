//! Readers and writers whose calls are counted.
ghost use Rattle.std.specs.{Prelude.{◌≡◌, ◌+◌, ◌<◌, ◌^◌, ◌↔◌, Bool, List, Option, ℕ, true, false, is_err, IfOk}, Borrow.GName, Io.KnownBytes.{ReadConsumes, WriteAppends}, Io.{ReadsAtMost, WritesAtMost}};

use std::io;
use std::io::{Read, Write};

/// A reader that counts its reads, and is not read again once a read has failed.
pub trait CountedRead {
    /// The bytes that reads will give from here on, if they are known.
    ghost remaining: { Self → Option (List ℕ) };
    /// How many reads there were.
    ghost reads: { Self → ℕ };
    /// Whether the last read failed.
    ghost has_failed: { Self → Bool };
    /// Which reader it is.
    ghost name: { Self → GName };

    /// Reads once.
    fn read(&mut self, buf: &mut [u8]) -> io::Result<usize>
        requires sound { has_failed self.old ≡ false }
        requires few { reads self.old + 1 < 2 ^ 128 }
        ensures bound { ReadsAtMost result buf.new }
        ensures bytes { ReadConsumes (remaining self.old) (remaining self.new) result buf.new }
        ensures counted { reads self.new ≡ reads self.old + 1 }
        ensures failed { has_failed self.new ≡ is_err result }
        ensures same { name self.new ≡ name self.old };
}

/// A reader, and how often it was read.
#[derive(Drop)]
pub struct CountedReader<'a, R: Read> {
    reader: &'a mut R,
    reads: u128,
    failed: bool,
}

impl<'a, R: Read> CountedReader<'a, R> {
    /// The reader, not read so far.
    pub fn new(reader: &'a mut R) -> CountedReader<'a, R>
        ensures same { result.reader.ghost_name ≡ reader.entry.ghost_name }
        ensures now { result.reader.now ≡ reader.old }
        ensures reads { result.reads ≡ 0 }
        ensures failed { result.failed ≡ false }
    {
        CountedReader {
            reader,
            reads: 0,
            failed: false,
        }
    }
}

impl<R: Read> CountedRead for CountedReader<'_, R> {
    ghost remaining = { λ c. R.remaining c.reader.now };

    ghost reads = { λ c. c.reads };

    ghost has_failed = { λ c. c.failed };

    ghost name = { λ c. c.reader.ghost_name };

    fn read(&mut self, buf: &mut [u8]) -> io::Result<usize> {
        self.reads += 1;
        let result = self.reader.read(buf);
        self.failed = result.is_err();
        result
    }
}

/// A writer that counts its writes, and is not written to again once a write has failed.
pub trait CountedWrite {
    /// The bytes that it took, if they are known.
    ghost contents: { Self → Option (List ℕ) };
    /// How many writes there were.
    ghost writes: { Self → ℕ };
    /// Whether the last write failed, or took no byte.
    ghost has_failed: { Self → Bool };
    /// Which writer it is.
    ghost name: { Self → GName };

    /// Writes once.
    fn write(&mut self, buf: &[u8]) -> io::Result<usize>
        requires sound { has_failed self.old ≡ false }
        requires few { writes self.old + 1 < 2 ^ 128 }
        ensures bound { WritesAtMost result buf.now }
        ensures bytes { WriteAppends (contents self.old) (contents self.new) result buf.now }
        ensures counted { writes self.new ≡ writes self.old + 1 }
        ensures failed { (has_failed self.new ≡ true) ↔ IfOk result (λ n. n ≡ 0) }
        ensures same { name self.new ≡ name self.old };
}

/// A writer, and how often it was written to.
#[derive(Drop)]
pub struct CountedWriter<'a, W: Write> {
    writer: &'a mut W,
    writes: u128,
    failed: bool,
}

impl<'a, W: Write> CountedWriter<'a, W> {
    /// The writer, not written to so far.
    pub fn new(writer: &'a mut W) -> CountedWriter<'a, W>
        ensures same { result.writer.ghost_name ≡ writer.entry.ghost_name }
        ensures now { result.writer.now ≡ writer.old }
        ensures writes { result.writes ≡ 0 }
        ensures failed { result.failed ≡ false }
    {
        CountedWriter {
            writer,
            writes: 0,
            failed: false,
        }
    }
}

impl<W: Write> CountedWrite for CountedWriter<'_, W> {
    ghost contents = { λ c. W.contents c.writer.now };

    ghost writes = { λ c. c.writes };

    ghost has_failed = { λ c. c.failed };

    ghost name = { λ c. c.writer.ghost_name };

    fn write(&mut self, buf: &[u8]) -> io::Result<usize> {
        self.writes += 1;
        let result = self.writer.write(buf);
        self.failed = matches!(result, Ok(0) | Err(_));
        result
    }
}

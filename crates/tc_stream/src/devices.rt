//! Readers and writers for tests: each moves one byte at a time, and fails at one call.
ghost use Rattle.std.specs.{Prelude.{◌≡◌, ◌≢◌, ◌<◌, ◌≤◌, ◌+◌, ◌↔◌, [], Some, Ok, IfOk, IfErr, IsErr, IsErrAnd, IsOk, MatchResult, length, min}, Io.KnownBytes.{Keeps, ReadConsumes, WriteAppends}, Io.{ReadsAtMost, WritesAtMost}, IoError.error_kind};

use std::alloc::Global;
use std::io;
use std::io::{Error, ErrorKind, Read, Write};

/// Gives one byte at each read, and fails at the read of this number, counted from 0.
#[derive(Drop)]
pub struct SlowReader<'a> {
    /// The bytes that are left.
    pub rest: &'a [u8],
    /// How many reads there were.
    pub reads: usize,
    /// The read that fails.
    pub fails_at: usize,
}

impl<'a> SlowReader<'a> {
    /// Gives these bytes, and fails at the read of that number.
    pub fn new(bytes: &'a [u8], fails_at: usize) -> SlowReader<'a>
        ensures rest { result.rest.now ≡ bytes.now }
        ensures reads { result.reads ≡ 0 }
        ensures fails_at { result.fails_at ≡ fails_at }
    {
        SlowReader {
            rest: bytes,
            reads: 0,
            fails_at,
        }
    }
}

impl Read for SlowReader<'_> {
    ghost remaining = { λ r. Some r.rest.now };

    #[tactic(auto, using(crate::proofs::Bytes::first_set))]
    fn read(&mut self, buf: &mut [u8]) -> io::Result<usize>
        ensures bound { ReadsAtMost result buf.new }
        ensures bytes { ReadConsumes (Some self.old.rest.now) (Some self.new.rest.now) result buf.new }
        ensures one { IfOk result (λ n. n ≤ 1) }
        ensures fails { IsErr result ↔ (self.old.reads ≡ self.old.fails_at) }
        ensures kind { IfErr result (λ e. error_kind e ≡ ErrorKind.Interrupted) }
        ensures counted { self.old.reads < usize.MAX → self.new.reads ≡ self.old.reads + 1 }
        ensures same { self.new.fails_at ≡ self.old.fails_at }
    {
        let reads = self.reads;
        self.reads = reads.saturating_add(1);
        if reads == self.fails_at {
            return Err(Error::from(ErrorKind::Interrupted));
        }
        if buf.is_empty() {
            return Ok(0);
        }
        match self.rest.split_first() {
            Some((byte, rest)) => {
                buf[0] = *byte;
                self.rest = rest;
                Ok(1)
            }
            None => Ok(0),
        }
    }
}

/// How a writer fails.
#[derive(Clone, Copy, PartialEq, Eq, Debug)]
pub enum WriteFailure {
    /// It returns an error.
    Broken,
    /// It takes no byte.
    Full,
}

/// Takes one byte at each write, and fails at the write of this number, counted from 0.
#[derive(Drop)]
pub struct NarrowWriter {
    /// The bytes that were taken.
    pub taken: Vec<u8>,
    /// How many writes there were.
    pub writes: usize,
    /// The write that fails.
    pub fails_at: usize,
    /// How it fails.
    pub failure: WriteFailure,
}

impl NarrowWriter {
    /// Takes bytes into an empty vector, and fails so at the write of that number.
    pub fn new(alloc: Global, fails_at: usize, failure: WriteFailure) -> NarrowWriter
        ensures taken { result.taken.items ≡ [] }
        ensures writes { result.writes ≡ 0 }
        ensures fails_at { result.fails_at ≡ fails_at }
        ensures failure { result.failure ≡ failure }
    {
        NarrowWriter {
            taken: Vec::new(alloc),
            writes: 0,
            fails_at,
            failure,
        }
    }
}

impl Write for NarrowWriter {
    ghost contents = { λ w. Some w.taken.items };

    fn write(&mut self, buf: &[u8]) -> io::Result<usize>
        ensures bound { WritesAtMost result buf.now }
        ensures bytes { WriteAppends (Some self.old.taken.items) (Some self.new.taken.items) result buf.now }
        ensures takes { self.old.writes ≢ self.old.fails_at → MatchResult result (λ n. n ≡ min 1 (length buf.now)) (λ e. error_kind e ≡ ErrorKind.OutOfMemory) }
        ensures broken { self.old.writes ≡ self.old.fails_at → self.old.failure ≡ WriteFailure.Broken → IsErrAnd result (λ e. error_kind e ≡ ErrorKind.BrokenPipe) }
        ensures full { self.old.writes ≡ self.old.fails_at → self.old.failure ≡ WriteFailure.Full → result ≡ Ok 0 }
        ensures counted { self.old.writes < usize.MAX → self.new.writes ≡ self.old.writes + 1 }
        ensures same { (self.new.fails_at ≡ self.old.fails_at) × (self.new.failure ≡ self.old.failure) }
    {
        let writes = self.writes;
        self.writes = writes.saturating_add(1);
        if writes == self.fails_at {
            return match self.failure {
                WriteFailure::Broken => Err(Error::from(ErrorKind::BrokenPipe)),
                WriteFailure::Full => Ok(0),
            };
        }
        match buf.first() {
            Some(byte) => {
                self.taken.push(*byte)?;
                Ok(1)
            }
            None => Ok(0),
        }
    }

    fn flush(&mut self) -> io::Result<()>
        ensures bytes { Keeps (Some self.old.taken.items) (Some self.new.taken.items) }
        ensures ok { IsOk result }
    {
        Ok(())
    }
}

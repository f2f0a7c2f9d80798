//! A counted device makes one read, or one write, for each that it counts. None is tried again.
ghost use Rattle.std.specs.Prelude.{None};

use crate::checks::is;
use std::alloc::Global;
use std::io;
use std::io::Write;
use std::process::Abort;
use tc_stream::devices::{NarrowWriter, SlowReader, WriteFailure};
use tc_stream::{
    CountedReader, CountedWriter, InputFault, WriteFault, read_counted, read_input, write_counted,
    write_whole,
};

const NEVER: usize = usize::MAX;

fn is_read(rt: &impl Abort, alloc: Global, reader: &mut SlowReader) -> Result<(), InputFault> {
    let bytes = read_counted(alloc, &mut CountedReader::new(reader), 4)?;
    is(rt, "bytes", bytes.as_slice(), b"abcd".as_slice());
    is(rt, "reads", reader.reads, 5);
    Ok(())
}

fn is_written(rt: &impl Abort, writer: &mut NarrowWriter) {
    let answer = write_counted(&mut CountedWriter::new(writer), b"abcd");
    is(rt, "the answer", answer, Ok(()));
    is(rt, "bytes", writer.taken.as_slice(), b"abcd".as_slice());
    is(rt, "writes", writer.writes, 4);
}

#[test]
fn counted_calls(rt: HostRuntime) -> Result<(), InputFault> {
    is_read(&rt, rt.alloc(), &mut SlowReader::new(b"abcd", NEVER))?;
    let mut writer = NarrowWriter::new(rt.alloc(), NEVER, WriteFailure::Full);
    is_written(&rt, &mut writer);
    Ok(())
}

/// Takes a byte at each write, but none at the second, which fails so.
#[derive(Drop)]
struct Interrupted {
    writes: usize,
    kind: io::ErrorKind,
}

impl Write for Interrupted {
    ghost contents = { λ _. None };

    fn write(&mut self, buf: &[u8]) -> io::Result<usize> {
        self.writes = self.writes.saturating_add(1);
        if self.writes == 2 {
            return Err(io::Error::from(self.kind));
        }
        Ok(buf.len().min(1))
    }

    fn flush(&mut self) -> io::Result<()> {
        Ok(())
    }
}

fn is_failed(rt: &impl Abort, kind: io::ErrorKind) {
    let mut writer = Interrupted { writes: 0, kind };
    let answer = write_whole(&mut writer, b"abcd");
    is(rt, "the answer", answer, Err(WriteFault));
    is(rt, "writes", writer.writes, 2);
}

#[test]
fn an_interrupted_call_has_failed(rt: HostRuntime) {
    let mut reader = SlowReader::new(b"abcd", 1);
    let answer = read_input(rt.alloc(), &mut reader, 4).err();
    is(&rt, "the answer", answer, Some(InputFault::Read));
    is(&rt, "reads", reader.reads, 2);
    is_failed(&rt, io::ErrorKind::Interrupted);
    is_failed(&rt, io::ErrorKind::WouldBlock);
}

//! The line for a person at a terminal, before the input is read.
ghost use Rattle.std.specs.Prelude.{◌≡◌, codes, take};

use std::io;
use std::io::{Read, Write};

/// The line that says which input this subcommand reads, and how it ends.
pub fn awaited_line(subcommand: Option<&str>) -> &'static str
    ensures { take 13 result.now ≡ codes "ttrun: reads " }
{
    match subcommand {
        Some("check" | "report" | "model") => {
            "ttrun: reads histories from the terminal; end them with Ctrl-D\n"
        }
        Some("serve") => {
            "ttrun: reads lines of test cases from the terminal; end them with Ctrl-D\n"
        }
        Some("replay") => "ttrun: reads a list of moves from the terminal; end it with Ctrl-D\n",
        _ => "ttrun: reads a script from the terminal; end it with Ctrl-D\n",
    }
}

/// A reader, before whose first read a line is written, if there is one. A device that does not take the line does not
/// keep the input from being read.
#[derive(Drop)]
pub struct Announcing<R: Read + Drop, E: Write + Drop> {
    /// What is read.
    pub reader: R,
    /// What the line is written to.
    pub errors: E,
    /// The line, until it is written.
    pub line: Option<&'static str>,
}

impl<R: Read + Drop, E: Write + Drop> Read for Announcing<R, E> {
    ghost remaining = { λ a. R.remaining a.reader };

    fn read(&mut self, buf: &mut [u8]) -> io::Result<usize> {
        if let Some(line) = self.line.take() {
            // The input is read even if the line is not taken.
            let _ = self.errors.write_all(line.as_bytes());
        }
        self.reader.read(buf)
    }
}

//! Lines that come in pieces.
ghost use Rattle.std.specs.{Prelude.{◌≡◌, ◌≢◌, ◌<◌, ◌-◌, ◌++◌, ◌∷◌, [], ℕ, List, Option, Err, IfOk, IfErr, OnOk, OnErr, length, take}, Io.{KnownBytes.IsAtEnd, StartsWith}};
ghost use Rattle.tc_serve.specs.{Inside.{Closes, Fails, Feeds, IsEnd, IsFed, IsOwn, IsTurn, Serves, StopsIn, TakesPiece, end_told}, Protocol.NoLf, Serve.{HasEnded, refused_line_text}};

use crate::order::{LINE_BYTES, Refusal};
use crate::server::Server;
use crate::service::{ServeFault, Served};
use std::alloc::Global;
use tc_entry::NoMemory;
use tc_text::{append_number, append_text};

/// The answers and the reports of a turn. They are kept for the next turn, whose answers usually fit into the same memory.
#[derive(Drop)]
pub(crate) struct Texts {
    pub(crate) out: Vec<u8>,
    pub(crate) told: Vec<u8>,
}

/// A server whose lines come in pieces.
#[derive(Drop)]
pub(crate) struct Serving {
    server: Server,
    /// What is looked at of the line that has not ended.
    line: Vec<u8>,
    /// How many lines came.
    lines: usize,
    /// Whether a line was refused.
    refused: bool,
}

/// Appends the line on standard error for the line of this number, which is refused for this; if memory runs out, a part
/// of it.
pub fn append_refusal(told: &mut Vec<u8>, line: usize, why: Refusal) -> Result<(), NoMemory>
    ensures ok { OnOk result (told.new.items ≡ told.old.items ++ refused_line_text line why) }
    ensures any { StartsWith told.new.items told.old.items }
{
    append_text(told, "ttrun: line ")?;
    append_number(told, line as u64)?;
    append_text(told, ": ")?;
    append_text(told, why.text())?;
    told.push(b'\n')?;
    Ok(())
}

// Reports that the input ended, if a test case is open. If memory runs out, nothing is appended.
fn append_end(told: &mut Vec<u8>, inside: bool) -> Result<(), NoMemory>
    ensures ok { OnOk result (told.new.items ≡ told.old.items ++ end_told inside) }
    ensures err { OnErr result (told.new.items ≡ told.old.items) }
{
    if !inside {
        return Ok(());
    }
    append_text(told, "ttrun: the input ended inside a test case\n")
}

// The bytes before the first LF, and the others.
fn cut_line(bytes: &[u8]) -> (&[u8], &[u8])
    ensures parts { bytes.now ≡ result.0.now ++ result.1.now }
    ensures before { NoLf result.0.now }
    ensures behind { (b : ℕ) (rest : List ℕ) → result.1.now ≡ b ∷ rest → b ≡ 10 }
{
    for (place, byte) in bytes.iter().enumerate() {
        if *byte == b'\n' {
            return bytes.split_at(place);
        }
    }
    bytes.split_at(bytes.len())
}

impl Serving {
    /// No line so far.
    pub fn new(alloc: Global) -> Serving
        ensures { IsFed [] result [] [] [] [] }
    {
        Serving {
            server: Server::new(),
            line: Vec::new(alloc),
            lines: 0,
            refused: false,
        }
    }

    // Serves the line, which LF ended or the input; if a fault ends the service, a part may have been appended.
    fn answer(&mut self, ended: bool, texts: &mut Texts) -> Result<(), ServeFault>
        ensures ok { OnOk result (Serves ended self.old self.new texts.old.out.items texts.new.out.items texts.old.told.items texts.new.told.items) }
        ensures fault { IfErr result (Fails ended self.old texts.old.out.items texts.old.told.items) }
        ensures own { IfErr result IsOwn }
        ensures any { StartsWith texts.new.out.items texts.old.out.items }
        ensures any_told { StartsWith texts.new.told.items texts.old.told.items }
    {
        if self.lines == usize::MAX {
            return Err(ServeFault::TooLong);
        }
        self.lines += 1;
        let line = self.line.as_slice();
        let Some(why) = self.server.try_line(ended, line, &mut texts.out)? else {
            return Ok(());
        };
        if self.server.current.is_none() {
            return Err(ServeFault::Line(self.lines, why));
        }
        self.refused = true;
        if self.server.refuse(line, why, &mut texts.out)? {
            return Ok(());
        }
        append_refusal(&mut texts.told, self.lines, why)?;
        Ok(())
    }

    // Serves the line, which LF ended or the input; if a fault ends the service, nothing is appended.
    fn serve_line(&mut self, ended: bool, texts: &mut Texts) -> Result<(), ServeFault>
        ensures ok { OnOk result (Serves ended self.old self.new texts.old.out.items texts.new.out.items texts.old.told.items texts.new.told.items) }
        ensures fault { IfErr result (Fails ended self.old texts.old.out.items texts.old.told.items) }
        ensures own { IfErr result IsOwn }
        ensures err { OnErr result (texts.new.out.items ≡ texts.old.out.items) }
        ensures err_told { OnErr result (texts.new.told.items ≡ texts.old.told.items) }
    {
        let written = texts.out.len();
        let said = texts.told.len();
        match self.answer(ended, texts) {
            Ok(()) => Ok(()),
            Err(fault) => {
                texts.out.truncate(written);
                texts.told.truncate(said);
                Err(fault)
            }
        }
    }

    // Serves the line that LF ended, and begins the next one.
    fn end_line(&mut self, texts: &mut Texts) -> Result<(), ServeFault>
        ensures ok { OnOk result ((bytes before before' : List ℕ) → IsFed bytes self.old before texts.old.out.items before' texts.old.told.items
            → IsFed (bytes ++ 10 ∷ []) self.new before texts.new.out.items before' texts.new.told.items) }
        ensures stopped { IfErr result (λ f. (bytes more before before' : List ℕ) (input : Option (List ℕ))
            → IsFed bytes self.old before texts.old.out.items before' texts.old.told.items
            → HasEnded (bytes ++ 10 ∷ more) input (before ++ texts.new.out.items) (before' ++ texts.new.told.items) (Err f)) }
        ensures own { IfErr result IsOwn }
    {
        match self.serve_line(true, texts) {
            Ok(()) => {
                self.line.clear();
                Ok(())
            }
            Err(fault) => Err(fault),
        }
    }

    // Keeps what is looked at of more bytes of the line.
    fn keep(&mut self, bytes: &[u8]) -> Result<(), NoMemory>
        ensures kept { OnOk result (self.new.line.items ≡ self.old.line.items ++ take (LINE_BYTES - length self.old.line.items) bytes.now) }
        ensures same { self.new ≡ record self.old { line = self.new.line } }
    {
        let room = LINE_BYTES.saturating_sub(self.line.len());
        let count = room.min(bytes.len());
        self.line.extend_from_slice(&bytes[..count])?;
        Ok(())
    }

    // Takes what these bytes begin with of a line, and serves the line if it ends there; what follows.
    fn take<'a>(&mut self, bytes: &'a [u8], texts: &mut Texts) -> Result<&'a [u8], ServeFault>
        requires { bytes.now ≢ [] }
        ensures ok { IfOk result (λ rest. TakesPiece bytes.now rest.now self.old self.new texts.old.out.items texts.new.out.items texts.old.told.items texts.new.told.items) }
        ensures stopped { IfErr result (λ f. StopsIn bytes.now self.old texts.old.out.items texts.new.out.items texts.old.told.items texts.new.told.items f) }
        ensures own { IfErr result IsOwn }
    {
        let (piece, rest) = cut_line(bytes);
        if let Err(NoMemory) = self.keep(piece) {
            return Err(ServeFault::NoMemory);
        }
        match rest.split_first() {
            None => Ok(rest),
            Some((_, behind)) => match self.end_line(texts) {
                Ok(()) => Ok(behind),
                Err(fault) => Err(fault),
            },
        }
    }

    // Takes these bytes, and serves each line that ends in them.
    fn feed(&mut self, bytes: &[u8], texts: &mut Texts) -> Result<(), ServeFault>
        ensures ok { OnOk result (Feeds bytes.now self.old self.new texts.old.out.items texts.new.out.items texts.old.told.items texts.new.told.items) }
        ensures stopped { IfErr result (λ f. StopsIn bytes.now self.old texts.old.out.items texts.new.out.items texts.old.told.items texts.new.told.items f) }
        ensures own { IfErr result IsOwn }
    {
        let mut rest = bytes;
        while !rest.is_empty() {
            match self.take(rest, texts) {
                Ok(behind) => rest = behind,
                Err(fault) => return Err(fault),
            }
        }
        Ok(())
    }

    // Serves a last line that no LF ends, if there is one.
    fn end_last(&mut self, texts: &mut Texts) -> Result<(), ServeFault>
        ensures ok { OnOk result ((bytes before before' : List ℕ) → IsFed bytes self.old before texts.old.out.items before' texts.old.told.items
            → IsEnd bytes self.new before texts.new.out.items before' texts.new.told.items) }
        ensures stopped { IfErr result (λ f. (bytes before before' : List ℕ) (input : Option (List ℕ)) → IsAtEnd input
            → IsFed bytes self.old before texts.old.out.items before' texts.old.told.items
            → HasEnded bytes input (before ++ texts.new.out.items) (before' ++ texts.new.told.items) (Err f)) }
        ensures own { IfErr result IsOwn }
    {
        if self.line.is_empty() {
            return Ok(());
        }
        self.serve_line(false, texts)
    }

    // Closes the test case that is open, if one is, and reports that. If memory runs out, nothing is appended.
    fn close(&mut self, texts: &mut Texts) -> Result<(), NoMemory>
        ensures ok { OnOk result (Closes self.old self.new texts.old.out.items texts.new.out.items texts.old.told.items texts.new.told.items) }
        ensures err { OnErr result (texts.new.out.items ≡ texts.old.out.items) }
        ensures err_told { OnErr result (texts.new.told.items ≡ texts.old.told.items) }
        ensures refused { self.new.refused ≡ self.old.refused }
    {
        let written = texts.out.len();
        let said = texts.told.len();
        append_end(&mut texts.told, self.server.current.is_some())?;
        match self.server.close(&mut texts.out) {
            Ok(_) => Ok(()),
            Err(NoMemory) => {
                texts.out.truncate(written);
                texts.told.truncate(said);
                Err(NoMemory)
            }
        }
    }

    // The input has ended: serves a last line that no LF ends, if there is one, and closes the test case that is open.
    fn finish(&mut self, texts: &mut Texts) -> Result<Served, ServeFault>
        ensures ended { (bytes before before' : List ℕ) (input : Option (List ℕ)) → IsAtEnd input
            → IsFed bytes self.old before texts.old.out.items before' texts.old.told.items
            → HasEnded bytes input (before ++ texts.new.out.items) (before' ++ texts.new.told.items) result }
        ensures own { IfErr result IsOwn }
    {
        if let Err(fault) = self.end_last(texts) {
            return Err(fault);
        }
        match self.close(texts) {
            Ok(()) => Ok(Served {
                worst: self.server.worst,
                refused: self.refused,
            }),
            Err(NoMemory) => Err(ServeFault::NoMemory),
        }
    }

    /// Takes what was read, and appends the text of each line that ends in it, and the reports of those whose refusal no
    /// run gets. If nothing was read, the input has ended: what came of it is returned. If a fault ends the service, the
    /// texts of the lines before it were appended.
    pub fn take_read(
        &mut self,
        bytes: &[u8],
        texts: &mut Texts,
    ) -> Result<Option<Served>, ServeFault>
        ensures turn { (read before before' : List ℕ) (input : Option (List ℕ)) → (length bytes.now ≡ 0 → IsAtEnd input)
            → IsFed read self.old before texts.old.out.items before' texts.old.told.items
            → IsTurn ((0 < length bytes.now) × IsFed (read ++ bytes.now) self.new before texts.new.out.items before' texts.new.told.items)
            (HasEnded (read ++ bytes.now) input (before ++ texts.new.out.items) (before' ++ texts.new.told.items)) result }
        ensures own { IfErr result IsOwn }
    {
        if bytes.is_empty() {
            return Ok(Some(self.finish(texts)?));
        }
        self.feed(bytes, texts)?;
        Ok(None)
    }
}

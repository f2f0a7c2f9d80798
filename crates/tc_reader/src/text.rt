//! The lines of a text, and the words of a line.
ghost use Rattle.std.specs.Prelude.{◌≡◌, [], ◌∷◌, OnOk, MatchOption, map};
ghost use Rattle.tc_reader.specs.Text.{lines, words};

use memchr::memchr;
use std::alloc::AllocError;
use std::marker::Model;

/// Leaves the words of a line in the list, instead of what was there.
pub fn read_words<'t>(line: &'t [u8], list: &mut Vec<&'t [u8]>) -> Result<(), AllocError>
    ensures { OnOk result (map (λ w. w.now) list.new.items ≡ words line.now) }
{
    list.clear();
    for part in line.split(|byte| *byte == b' ') {
        if !part.is_empty() {
            list.push(part)?;
        }
    }
    Ok(())
}

/// The lines of a text that are still to be read, each without its end.
#[derive(Drop)]
pub struct Lines<'t> {
    text: &'t [u8],
}

impl<'t> Model for Lines<'t> {
    ghost use Rattle.std.specs.Prelude.{List, ℕ};
    ghost use Rattle.tc_reader.specs.Text.{lines};

    ghost Value = { List (List ℕ) };

    ghost view = { λ l. lines l.text.now };
}

impl<'t> Lines<'t> {
    /// The lines of a text.
    pub fn new(text: &'t [u8]) -> Lines<'t>
        ensures { result ≡ lines text.now }
    {
        Lines { text }
    }

    /// Takes the first line.
    #[tactic(auto, using(crate::proofs::Taking::taking_rules))]
    pub fn next(&mut self) -> Option<&'t [u8]>
        ensures { MatchOption result ((self.old ≡ []) × (self.new ≡ [])) (λ line. self.old ≡ line.now ∷ self.new) }
    {
        if self.text.is_empty() {
            return None;
        }
        match memchr(b'\n', self.text) {
            Some(at) => {
                let line = &self.text[..at];
                self.text = &self.text[at + 1..];
                Some(line)
            }
            None => {
                let line = self.text;
                self.text = &line[line.len()..];
                Some(line)
            }
        }
    }
}

//! A line of a text, and what is open before it.
ghost use Rattle.std.specs.Prelude.{◌≡◌, IfOk, map, option_copied};
ghost use Rattle.tc_reader.specs.Prelude.{lines};
ghost use Rattle.tc_explain.specs.Explanation.{after_keyword as keyword_after, after_line as line_after, find};

use crate::Result;
use std::alloc::Global;
use tc_reader::{Keyword, Lines, is_word, read_keyword, read_words};

/// What is open before a line, by the lines where it began.
#[derive(Clone, Copy)]
pub(crate) enum Opened {
    /// Nothing.
    Nothing,
    /// A history, or a test case outside of its behaviours; and whether it has one.
    Begun(usize, bool),
    /// A test case, and one of its behaviours.
    Inside(usize, usize),
}

/// A line, if there is one, and what is open before it.
#[derive(Clone, Copy)]
pub(crate) struct Found<'t> {
    pub(crate) opened: Opened,
    pub(crate) line: Option<&'t [u8]>,
}

impl Opened {
    // What is open after a line of a script.
    fn after_keyword(self, number: usize, keyword: Option<Keyword>) -> Opened
        ensures { result ≡ keyword_after number keyword self }
    {
        match (keyword, self) {
            (Some(Keyword::TestCase), _) => Opened::Begun(number, false),
            (Some(Keyword::Behaviour), Opened::Begun(outer, _)) => Opened::Inside(outer, number),
            (Some(Keyword::End), Opened::Inside(outer, _)) => Opened::Begun(outer, true),
            (Some(Keyword::End), _) => Opened::Nothing,
            _ => self,
        }
    }

    // What is open after the line with this number and these words.
    fn after_line(self, number: usize, words: &[&[u8]]) -> Opened
        ensures { result ≡ line_after number (map (λ w. w.now) words.now) self }
    {
        match words {
            [] => self,
            [first, ..] if is_word(first, b"history") || is_word(first, b"evidence") => {
                Opened::Begun(number, false)
            }
            [first, ..] => self.after_keyword(number, read_keyword(first)),
        }
    }
}

/// The line with this number of a text, and what is open before it.
pub(crate) fn find_line<'t>(alloc: Global, text: &'t [u8], wanted: usize) -> Result<Found<'t>>
    ensures opened { IfOk result (λ f. f.opened ≡ (find wanted 1 Opened.Nothing (lines text.now)).0) }
    ensures line { IfOk result (λ f. option_copied f.line ≡ (find wanted 1 Opened.Nothing (lines text.now)).1) }
{
    let mut words = Vec::new(alloc);
    let mut rest = Lines::new(text);
    let mut opened = Opened::Nothing;
    for number in 1..wanted {
        let Some(line) = rest.next() else {
            return Ok(Found { opened, line: None });
        };
        read_words(line, &mut words)?;
        opened = opened.after_line(number, words.as_slice());
    }
    let line = rest.next();
    Ok(Found { opened, line })
}

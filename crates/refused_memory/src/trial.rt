//! Which growths of memory are refused to calls, and the text of what these answer and leave.
use std::alloc::Global;

/// What is asked for in a growth that ends all refusals. It is given only if none was refused since the last was begun.
const MARK: usize = 0x100_0000_0000;

/// So much more refuses each growth from then on.
const EACH: usize = 0x10_0000;

/// So much more refuses each growth from then on that asks for the rest, or for more bytes.
const LARGE: usize = 0x30_0000;

/// So much more notes how many blocks of memory the program holds. One byte more is given only if it holds as many.
const HELD: usize = 0x40_0000;

/// How many bytes a text has at most.
const ROOM: usize = 0x10_0000;

/// What ends the text of a call. No text of the library has it.
const END: u8 = 0x1e;

/// Which growth is refused to calls, the text of what they answer and leave, and what came of all of them.
#[derive(Drop)]
pub struct Trial {
    pub alloc: Global,
    /// Whether a library refuses memory to this program.
    is_heard: bool,
    /// Which growth is refused, counted from 0 at each begin; none if nothing is refused.
    number: Option<u16>,
    /// Whether calls are between a begin and its end.
    is_tried: bool,
    /// Whether the library knows of that.
    is_begun: bool,
    /// Whether each growth is refused, since the calls take none.
    is_quiet: bool,
    /// Whether a call answered since the last begin that memory ran out.
    is_refused: bool,
    /// Whether a growth was refused with this number.
    pub is_met: bool,
    /// The calls of the last begin.
    names: &'static str,
    /// The text. There is room for it before the calls.
    pub out: Vec<u8>,
    /// What calls are made on, before them and after they are refused.
    pub states: Vec<u8>,
    /// The text with nothing refused.
    wanted: Vec<u8>,
    /// How many calls there are.
    pub calls: u64,
    /// How often a call answered that memory ran out.
    pub refused: u64,
    /// How often a growth was refused, and the calls answered as with ample memory.
    pub kept: u64,
    /// `right`, or the calls of which one answered or left something else than with ample memory.
    pub said: &'static str,
    /// Whether a call of any kind did so.
    pub is_wrong: bool,
}

/// This many bytes, if they are given. Not inline, so that the growth is not taken for one that nothing needs.
#[inline(never)]
fn given(alloc: Global, bytes: usize) -> Option<Vec<u8>> {
    Vec::with_capacity(alloc, bytes).ok()
}

/// Whether a library refuses memory to this program.
fn is_heard(alloc: Global) -> bool {
    // The numbers are for the library that refuses; the memory is given back at once.
    let _ = given(alloc, MARK + 1 + EACH);
    let is_refused = given(alloc, 1).is_none();
    let _ = given(alloc, MARK);
    is_refused
}

impl Trial {
    /// Nothing is refused yet, and the texts are empty.
    pub(crate) fn new(alloc: Global) -> Option<Trial> {
        let texts = given(alloc, ROOM).zip(given(alloc, ROOM));
        let ((out, states), wanted) = texts.zip(given(alloc, ROOM))?;
        Some(Trial {
            alloc,
            is_heard: is_heard(alloc),
            number: None,
            is_tried: false,
            is_begun: false,
            is_quiet: false,
            is_refused: false,
            is_met: false,
            names: "",
            out,
            states,
            wanted,
            calls: 0,
            refused: 0,
            kept: 0,
            said: "right",
            is_wrong: false,
        })
    }

    /// The next calls are of another kind, and nothing is refused to them.
    pub(crate) fn start(&mut self) {
        self.refused = 0;
        self.kept = 0;
        self.said = "right";
        self.set(None);
    }

    /// The growth with this number will be refused, or none; the text is empty again.
    pub(crate) fn set(&mut self, number: Option<u16>) {
        self.number = number;
        self.is_met = false;
        self.calls = 0;
        self.out.clear();
    }

    /// The text is what is wanted of the calls.
    pub(crate) fn keep(&mut self) {
        self.wanted.clear();
        // There is as much room as for the text.
        let _ = self.wanted.extend_from_slice(&self.out);
    }

    /// Whether the text is the one that is wanted.
    fn is_wanted(&self) -> bool {
        self.out.as_slice() == self.wanted.as_slice()
    }

    /// The text must be the one that is wanted.
    pub(crate) fn compare(&mut self) {
        let is_wanted = self.is_wanted();
        self.holds(is_wanted);
    }

    /// Notes how many blocks of memory the program holds.
    pub(crate) fn note_held(&self) {
        if self.is_heard {
            // The number is for the library; it gives nothing.
            let _ = given(self.alloc, MARK + 1 + HELD);
        }
    }

    /// The program must hold as many blocks of memory as were noted: what calls took they have given back.
    pub(crate) fn compare_held(&mut self) {
        if self.is_heard {
            let is_same = given(self.alloc, MARK + 2 + HELD).is_some();
            self.names = "memory that is not given back";
            self.holds(is_same);
        }
    }

    /// The growths from here on are counted; the one that is meant is refused to these calls.
    pub(crate) fn begin(&mut self, names: &'static str) {
        self.names = names;
        self.is_tried = true;
        self.is_refused = false;
        if let Some(number) = self.number {
            self.ask(MARK + 1 + usize::from(number));
        }
    }

    /// Each growth from here on is refused to these calls, which take none.
    pub(crate) fn begin_each(&mut self, names: &'static str) {
        self.names = names;
        self.is_tried = true;
        self.is_refused = false;
        self.is_quiet = true;
        if self.number.is_some() {
            self.ask(MARK + 1 + EACH);
        }
    }

    /// Each growth of that many bytes or more is refused from here on to these calls. Whether it is.
    pub(crate) fn begin_large(&mut self, names: &'static str, bytes: u16) -> bool {
        self.names = names;
        if self.number.is_some() {
            self.ask(MARK + 1 + LARGE + usize::from(bytes));
        }
        self.is_begun
    }

    /// No growth is refused from here on, and one was; the calls answered as they should.
    pub(crate) fn end_large(&mut self, is_right: bool) {
        self.is_begun = false;
        let is_met = given(self.alloc, MARK).is_none();
        self.holds(is_met && is_right);
    }

    /// Asks the library for this many bytes, if there is one.
    fn ask(&mut self, bytes: usize) {
        if self.is_heard {
            self.is_begun = true;
            // The number is for the library; the memory is given back at once.
            let _ = given(self.alloc, bytes);
        }
    }

    /// No growth is refused from here on. A call may say that memory ran out only if a growth was refused; a quiet one meets
    /// none.
    pub(crate) fn end(&mut self) {
        let is_met = self.is_begun && given(self.alloc, MARK).is_none();
        self.holds(if is_met {
            !self.is_quiet
        } else {
            !self.is_refused
        });
        self.is_tried = false;
        self.is_begun = false;
        self.is_quiet = false;
        if is_met {
            self.is_met = true;
            self.count();
        }
    }

    /// Counts a growth that was refused.
    fn count(&mut self) {
        if self.is_refused {
            self.refused = self.refused.saturating_add(1);
        } else {
            self.kept = self.kept.saturating_add(1);
        }
    }

    /// Takes in whether a call answered as it should.
    pub(crate) fn holds(&mut self, is_right: bool) {
        if !is_right {
            self.said = self.names;
            self.is_wrong = true;
        }
    }

    /// The text of a call is whole.
    pub(crate) fn end_call(&mut self) {
        // There is room for the text.
        let _ = self.out.push(END);
        if self.is_tried {
            self.calls = self.calls.saturating_add(1);
        }
    }

    /// Takes in that a call was refused memory: it may have left a part of its text, and what is lacking of that is appended.
    pub(crate) fn refuse_part(&mut self) {
        self.is_refused = true;
        let Some(rest) = self.wanted.as_slice().get(self.out.len()..) else {
            return;
        };
        for byte in rest {
            if *byte == END {
                return;
            }
            // There is room for the text.
            let _ = self.out.push(*byte);
        }
    }

    /// Takes in that a call was refused, which must be for memory and leave nothing.
    pub(crate) fn refuse(&mut self, is_memory: bool) {
        let is_whole = matches!(self.out.last(), None | Some(&END));
        self.holds(is_memory && is_whole);
        self.refuse_part();
    }

    /// Takes in that a call was refused memory, of which the states before it and after it must be the same.
    pub(crate) fn refuse_again(&mut self) {
        self.is_refused = true;
        let (before, after) = self.states.split_at(self.states.len() / 2);
        let is_same = before == after;
        self.holds(is_same);
    }
}

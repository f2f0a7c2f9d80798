//! What helps besides the place where a line stops.
use crate::Result;
use crate::help::{Around, Help};
use crate::naming::add_naming;
use crate::scan::Opened;
use crate::slot::{Slot, is_digits, slots_of};
use crate::sort::{Refusal, Sort};
use crate::source::{add_source, begins_comment};
use std::alloc::Global;
use tc_entry::{ARGUMENTS, BEHAVIOURS};
use tc_reader::{
    Keyword, STEPS, ScriptKind, TEST_CASES, is_word, read_keyword, read_name, read_words,
};
use tc_text::{TextKind, read_number};

// Adds the limit that the line passes, which begins with this keyword.
fn add_limit(help: &mut Help, keyword: Option<Keyword>) -> Result<()> {
    let words = help.words.len();
    let (before, most, after) = match keyword {
        Some(Keyword::TestCase) => ("a script has at most ", TEST_CASES, " test cases"),
        Some(Keyword::Behaviour) if words > 2 + ARGUMENTS => {
            ("a behaviour has at most ", ARGUMENTS, " parameters")
        }
        Some(Keyword::Behaviour) => ("a test case has at most ", BEHAVIOURS, " behaviours"),
        Some(Keyword::Start) if words > 3 + ARGUMENTS => {
            ("a start has at most ", ARGUMENTS, " arguments")
        }
        _ => ("a behaviour has at most ", STEPS, " steps"),
    };
    help.add_counted(before, most, after)
}

// Those of the words of a slot that may come while this is open.
fn offered<'k>(opened: Opened, slot: Slot, words: &'k [&'static [u8]]) -> &'k [&'static [u8]] {
    let places = match (slot, opened) {
        (Slot::Keyword, Opened::Nothing) => 0..1,
        (Slot::Keyword, Opened::Begun(_, has_behaviour)) => 1..2 + usize::from(has_behaviour),
        (Slot::Keyword, Opened::Inside(..)) => 2..words.len(),
        (Slot::Verb | Slot::Reply | Slot::Error, _) => 0..words.len(),
        _ => 0..0,
    };
    words.get(places).unwrap_or(&[])
}

// Adds the word at this place, at which the line stops, or its end, what may be there, and the nearest of that.
fn add_stop(help: &mut Help, place: usize, slot: Slot) -> Result<()> {
    let sort = help.around.refusal.sort();
    let mut words = Vec::new(help.alloc);
    read_words(slot.texts().0.as_bytes(), &mut words)?;
    let offered = offered(help.around.opened, slot, words.as_slice());
    let other = slot.text(sort, help.words.len() <= place);
    if let Some(word) = help.words.get(place) {
        help.add_word(place)?;
        help.add_expected(offered, other)?;
        help.add_near(word, words.as_slice())?;
    } else if !slot.ends_line(sort) {
        let column = help.line.len().saturating_add(1);
        help.add_counted("column ", column, ": the end of the line")?;
        help.add_expected(offered, other)?;
    }
    Ok(())
}

// Adds what helps with a line that is of no form of a script.
fn add_unformed(help: &mut Help, kind: ScriptKind) -> Result<()> {
    let (slots, slot) = slots_of(help.alloc, Sort::Script, Slot::Keyword, help.words)?;
    let found = help.words.get(slots.len()).copied();
    if found.is_none() && slot.ends_line(Sort::Script) {
        return help.add_line("the line is understood");
    }
    add_stop(help, slots.len(), slot)?;
    if add_source(help)? {
        return Ok(());
    }
    match found {
        Some(word) if begins_comment(word) => {
            help.add_line("a comment has a line of its own, which begins with #")
        }
        Some(_) if kind == ScriptKind::BadName => help.add_name_rule(),
        Some(b"error") if slot == Slot::Verdict => {
            help.add_line("stopcase ends a test case with the verdict error")
        }
        _ => Ok(()),
    }
}

// Adds what helps with a line of this keyword that may not be where it is.
fn add_misplaced(help: &mut Help, keyword: Keyword) -> Result<()> {
    add_stop(help, 0, Slot::Keyword)?;
    help.add_line(match (keyword, help.around.opened) {
        (Keyword::TestCase, _) | (Keyword::Behaviour, Opened::Inside(..)) => {
            "an end is missing above: each behaviour and each test case ends with `end`"
        }
        (Keyword::End, Opened::Begun(..)) => "a test case has a behaviour or more",
        (Keyword::End, _) => "nothing is open that it could end",
        (Keyword::Behaviour, _) => "a behaviour is in a test case",
        _ => "a step is in a behaviour of a test case",
    })
}

// Adds what helps with a line of a script.
fn add_script(help: &mut Help, kind: ScriptKind) -> Result<()> {
    let keyword = help.words.first().and_then(|word| read_keyword(word));
    match (kind, keyword) {
        (ScriptKind::BadLine | ScriptKind::BadName, _) => add_unformed(help, kind),
        (ScriptKind::TooMany, _) => {
            help.add_line("one more than there may be")?;
            add_limit(help, keyword)
        }
        (ScriptKind::BadPlace, Some(keyword)) => add_misplaced(help, keyword),
        (ScriptKind::BadPlace | ScriptKind::BadByte, _) => Ok(()),
        (ScriptKind::Cut, _) => help.add_line("the line is understood"),
        _ => add_naming(help, kind),
    }
}

// The largest number that may be at this slot.
fn most_at(slot: Slot) -> u32 {
    match slot {
        Slot::Run | Slot::Entry | Slot::Started => u16::MAX as u32,
        _ => u32::MAX,
    }
}

// Adds which of the words, the first of which are at these slots, is no number, and why. Whether one is none.
fn add_number(help: &mut Help, slots: &[Slot]) -> Result<bool> {
    let is_wrong = |slot: Slot, word: &[u8]| {
        is_digits(word) && read_number(word).is_none_or(|number| number > most_at(slot))
    };
    let mut pairs = slots.iter().zip(help.words).enumerate();
    let Some((place, (slot, word))) = pairs.find(|(_, (slot, word))| is_wrong(**slot, word)) else {
        return Ok(false);
    };
    help.add_word(place)?;
    match word {
        [b'0', _, ..] => help.add_line("a number begins with 0 only if it is 0")?,
        _ => help.add_counted("the number is at most ", most_at(*slot) as usize, "")?,
    }
    Ok(true)
}

// How many of the words, which are at these slots, are at this one, and no arrow.
fn count_at(wanted: Slot, slots: &[Slot], words: &[&[u8]]) -> usize {
    let pairs = slots.iter().zip(words);
    let found = pairs.filter(|(slot, word)| **slot == wanted && !is_word(word, b"->"));
    found.count()
}

// Adds what helps with a line of moves or histories, the first word of which is at this slot.
fn add_call(help: &mut Help, first: Slot) -> Result<()> {
    let sort = help.around.refusal.sort();
    let (slots, slot) = slots_of(help.alloc, sort, first, help.words)?;
    let slots = slots.as_slice();
    if slots.len() < help.words.len() || !slot.ends_line(sort) {
        return add_stop(help, slots.len(), slot);
    }
    if add_number(help, slots)? {
        return Ok(());
    }
    if count_at(Slot::Arguments, slots, help.words) > ARGUMENTS {
        return help.add_counted("a start has at most ", ARGUMENTS, " arguments");
    }
    let is_named = sort == Sort::Histories && count_at(Slot::GivenName, slots, help.words) > 0;
    help.add_line(if is_named {
        "a history of format 1 names no component"
    } else {
        "the line is understood"
    })
}

// Adds what the first line of a history is, and of a name in its place what it may have.
fn add_first_line(help: &mut Help) -> Result<()> {
    let text = match help.words {
        [b"evidence", ..] => "expected: evidence 1 NAME N, with N from 1 to 256",
        _ => "expected: history F NAME N, with F 1 or 2, and N from 1 to 64 or to 256",
    };
    match help.words {
        [_, _, name, _] if read_name(name).is_none() => {
            help.add_word(2)?;
            help.add_line(text)?;
            help.add_name_rule()
        }
        _ => help.add_line(text),
    }
}

// Whether the words are those of a line that only evidence has.
fn is_of_evidence(words: &[&[u8]]) -> bool {
    matches!(words, [b"behaviour", ..] | [_, b"#" | b"!", ..])
}

// How many bytes are before the first space after a space, or at an end of the line.
fn extra_space(line: &[u8]) -> usize {
    let mut pairs = b" ".iter().chain(line).zip(line).enumerate();
    let last = line.len().saturating_sub(1);
    let found = pairs.position(|(at, (before, byte))| {
        *byte == b' ' && (*before == b' ' || at == last)
    });
    found.unwrap_or(line.len())
}

// Adds what helps with a line of moves or histories.
fn add_spaced(help: &mut Help) -> Result<()> {
    let space = extra_space(help.line);
    match help.around.refusal {
        Refusal::Histories(TextKind::Entry) if is_of_evidence(help.words) => help.add_line(
            "evidence has such a line: RUN # TEXT, RUN ! TEXT, or behaviour RUN NAME before others of the run",
        ),
        _ if space < help.line.len() => {
            help.add_counted("column ", space.saturating_add(1), ": a space too many")
        }
        Refusal::Histories(TextKind::Entry) => add_call(help, Slot::Entry),
        Refusal::Moves(TextKind::Move) => add_call(help, Slot::Run),
        Refusal::Histories(TextKind::FirstLine) => add_first_line(help),
        Refusal::Moves(TextKind::FirstLine) => {
            help.add_line("expected: behaviours N, with N from 1 to 256")
        }
        _ => help.add_line("the line is understood"),
    }
}

// Adds how that ends which is open at the end of the text.
fn add_end(help: &mut Help) -> Result<()> {
    help.add_line(match (help.around.refusal, help.around.opened) {
        (Refusal::Moves(_), _) | (Refusal::Histories(_), Opened::Nothing) => return Ok(()),
        (Refusal::Histories(_), _) => "a history ends with `end` and its verdict",
        (Refusal::Script(_), Opened::Nothing) => "a script has a test case or more",
        (Refusal::Script(_), Opened::Begun(_, false)) => "a test case has a behaviour or more",
        (Refusal::Script(_), _) => "each behaviour and each test case ends with `end`",
    })
}

/// What helps with the line of the first fault of a text, which has no odd byte, or with the end of the text before it,
/// line by line.
pub(crate) fn hints(alloc: Global, around: Around, line: Option<&[u8]>) -> Result<Vec<u8>> {
    let bytes = line.unwrap_or(&[]);
    let mut words = Vec::new(alloc);
    read_words(bytes, &mut words)?;
    let mut help = Help {
        alloc,
        around,
        line: bytes,
        words: words.as_slice(),
        text: Vec::new(alloc),
    };
    match (line, around.refusal) {
        (None, _) => add_end(&mut help)?,
        (_, Refusal::Script(kind)) => add_script(&mut help, kind)?,
        _ => add_spaced(&mut help)?,
    }
    Ok(help.text)
}

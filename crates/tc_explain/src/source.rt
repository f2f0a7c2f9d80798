//! Lines of TTCN-3 in a script, and what does the same there.
use crate::Result;
use crate::help::{Help, append_words};
use crate::slot::{has_word, is_space};
use std::alloc::Global;
use tc_reader::{Line, LineFault, is_word, read_line};
use tc_verdict::NoMemory;

// Lines of TTCN-3, without what ends them, and the lines of a script that do the same. In the first `$` is a word, `a|b`
// one of these words, `"` a string, `*` a list in brackets, and `+` all that is left. What they find is the word, what is
// in the string, the last word of each part of the list, and each word. `_` is a word that is not kept, and `..` what is
// left of one call. In the second `1` and `2` are the first and the second word that was found, and `*` is all of them.
const FORMS: [(&str, &str); 26] = [
    ("setverdict ( error ..", "stopcase"),
    ("setverdict ( $ ..", "setverdict 1"),
    ("setverdict error", "stopcase"),
    ("setverdict $ \"", "setverdict 1"),
    ("$ : = getverdict", "getverdict"),
    ("testcase . stop ..", "stopcase"),
    ("testcase $ ..", "testcase 1"),
    ("function $ * ..", "behaviour *"),
    ("function $ ..", "behaviour 1"),
    ("behaviour $ * ..", "behaviour *"),
    ("behaviour $ runs ..", "behaviour 1"),
    ("$ . start ( $ * )", "start *"),
    ("$ . start ( $ )", "start *"),
    ("$ . stop|kill|running|alive", "2 1"),
    ("$ . done|killed ..", "wait 2 1"),
    ("stop|kill", "1 self"),
    ("$ : = _ . create", "create 1"),
    ("$ : = _ . create alive", "create 1 alive"),
    ("$ : = _ . create ( ) alive", "create 1 alive"),
    ("$ : = _ . create ( \" )", "create 1 named 2"),
    ("$ : = _ . create ( \" ) alive", "create 1 alive named 2"),
    ("start|stop|kill|create|running|alive|done|killed *", "*"),
    ("start $ $ *", "start *"),
    ("create \"", "create 1"),
    ("}", "end"),
    ("+", "*"),
];

// Words of TTCN-3, and what a script has instead of them.
const ABSENT: [&str; 8] = [
    "module import group => a script has no modules: it begins with `testcase` and a name",
    "control execute => a script has no control part: its test cases are run in the order of the text",
    "if else for while do alt interleave select repeat goto label altstep activate [ => a script has no conditions, loops and alternatives: its calls are made in the order of the text",
    "timer timeout => a script has no timers",
    "port map unmap connect disconnect send receive call reply trigger check => a script has no ports and messages",
    "var const type template record set enumerated value => a script has no types, values and variables: a create makes a component and names it",
    "log action => a script has no log and no texts",
    "return => a behaviour ends with `end`, and returns nothing",
];

// The most bytes of a line of a script that is shown.
const LONGEST: usize = 100;

// The most tokens and spaces of a line that are looked at.
const TOKENS: usize = 200;

// How many bytes the first token of a text has: a word, a string in quotation marks, a space or another mark.
fn token_length(text: &[u8]) -> usize {
    let is_of_name = |byte: &&u8| byte.is_ascii_alphanumeric() || **byte == b'_';
    match text {
        [b'"', inside @ ..] => {
            let end = inside.iter().position(|byte| *byte == b'"');
            end.map_or(text.len(), |at| at.saturating_add(2))
        }
        _ => text.iter().take_while(is_of_name).count().max(1),
    }
}

/// Whether a text begins with a comment, of a script or of TTCN-3.
pub(crate) fn begins_comment(text: &[u8]) -> bool {
    matches!(text, [b'#', ..] | [b'/', b'/' | b'*', ..])
}

// The first tokens of a line before a comment, but spaces, and the word `component` of `all component`.
fn read_tokens<'t>(line: &'t [u8], tokens: &mut Vec<&'t [u8]>) -> Result<()> {
    let mut rest = line;
    for _ in 0..TOKENS {
        if rest.is_empty() || begins_comment(rest) {
            return Ok(());
        }
        let (token, others) = rest.split_at(token_length(rest).min(rest.len()));
        if !matches!(token, b" " | b"component") {
            tokens.push(token)?;
        }
        rest = others;
    }
    Ok(())
}

// Whether the first token, or the first two, are of TTCN-3 only.
fn begins_mark(tokens: &[&[u8]]) -> bool {
    match tokens {
        [[b';' | b'(' | b')' | b'{' | b'}'] | [b'"', ..], ..] => true,
        [b":", b"=", ..] | [b"runs", b"on", ..] => true,
        [b".", second, ..] => has_word(
            "create start stop done kill killed running alive timeout send receive call",
            second,
        ),
        _ => false,
    }
}

// What a script has instead of this token, if it lacks it.
fn absent(token: &[u8]) -> Option<&'static str> {
    let mut rows = ABSENT.iter().filter_map(|row| row.split_once(" => "));
    Some(rows.find(|row| has_word(row.0, token))?.1)
}

// Whether the line of these tokens seems to be of TTCN-3.
fn is_source(tokens: &[&[u8]]) -> bool {
    let begins = |first: &&[u8]| absent(first).is_some() || is_word(first, b"function");
    (0..tokens.len()).any(|at| begins_mark(tokens.get(at..).unwrap_or(&[])))
        || tokens.first().is_some_and(begins)
}

// The tokens without what ends a line of TTCN-3, brackets with nothing in them too, and without the type of a variable.
fn plain<'a, 't>(tokens: &'a [&'t [u8]]) -> &'a [&'t [u8]] {
    let rest = match tokens {
        [b"var", _, others @ ..] => others,
        _ => tokens,
    };
    let is_kept = |token: &&[u8]| !matches!(*token, b";" | b"{");
    let last = rest.iter().rposition(is_kept);
    let count = last.map_or(0, |at| at.saturating_add(1));
    match rest.get(..count).unwrap_or(rest) {
        [others @ .., open, close] if is_word(open, b"(") && is_word(close, b")") => others,
        all => all,
    }
}

// What is after a list in brackets with which the tokens begin. The last word of each of its parts is added to those that
// were found. None if they begin with none, or if there are brackets in it.
fn after_list<'a, 't>(
    tokens: &'a [&'t [u8]],
    found: &mut Vec<&'t [u8]>,
) -> Result<Option<&'a [&'t [u8]]>> {
    let [b"(", inside @ ..] = tokens else {
        return Ok(None);
    };
    let is_in_list = |token: &&&[u8]| !matches!(**token, b"(" | b")");
    let (list, rest) = inside.split_at(inside.iter().take_while(is_in_list).count());
    let [b")", others @ ..] = rest else {
        return Ok(None);
    };
    for part in list.split(|token| is_word(token, b",")) {
        found.extend(part.last())?;
    }
    Ok(Some(others))
}

// What is after the part of a form with which the tokens begin. What it finds is added to what was found. None if they
// begin with another.
fn after_part<'a, 't>(
    part: &[u8],
    tokens: &'a [&'t [u8]],
    found: &mut Vec<&'t [u8]>,
) -> Result<Option<&'a [&'t [u8]]>> {
    let mut choices = part.split(|byte| *byte == b'|');
    match (part, tokens) {
        (b"*", _) => return after_list(tokens, found),
        (b"..", _) if tokens.iter().any(|token| is_word(token, b";")) => return Ok(None),
        (b"..", _) => return Ok(tokens.get(tokens.len()..)),
        (b"+", _) => {
            found.extend_from_slice(tokens)?;
            return Ok(tokens.get(tokens.len()..));
        }
        (b"$", [token, ..]) => found.push(token)?,
        (b"\"", [[b'"', inside @ .., b'"'], ..]) => found.push(inside)?,
        (b"\"", [[b'"', ..], ..]) => found.push(&[])?,
        (b"_", [_, ..]) => {}
        (_, [token, ..]) if is_word(part, token) => {}
        (_, [token, ..]) if choices.any(|word| is_word(word, token)) => found.push(token)?,
        _ => return Ok(None),
    }
    Ok(tokens.get(1..))
}

// The line of a script, with what was found, and a space before each word.
fn filled<'t>(alloc: Global, line: &'t str, found: &[&'t [u8]]) -> Result<Vec<u8>> {
    let mut words = Vec::new(alloc);
    for part in line.as_bytes().split(is_space) {
        match part {
            b"*" => words.extend_from_slice(found)?,
            b"1" => words.extend(found.first())?,
            b"2" => words.extend(found.get(1))?,
            _ => words.push(part)?,
        }
    }
    let mut text = Vec::new(alloc);
    append_words(&mut text, words.as_slice())?;
    Ok(text)
}

// Whether the reader of scripts understands the line, and it says something.
fn is_line(alloc: Global, line: &[u8]) -> Result<bool> {
    let mut words = Vec::new(alloc);
    match read_line(alloc, line, &mut words) {
        Ok(line) => Ok(!matches!(&line, Line::Skipped)),
        Err(LineFault::NoMemory) => Err(NoMemory),
        Err(LineFault::Kind(_)) => Ok(false),
    }
}

// The line of a script that does the same as this form, if the tokens are of it; otherwise an empty one.
fn line_by<'t>(
    alloc: Global,
    (source, line): (&str, &'t str),
    tokens: &[&'t [u8]],
) -> Result<Vec<u8>> {
    let mut found = Vec::new(alloc);
    let mut rest = Some(tokens);
    for part in source.as_bytes().split(is_space) {
        if let Some(tokens) = rest {
            rest = after_part(part, tokens, &mut found)?;
        }
    }
    match rest {
        Some([]) => filled(alloc, line, found.as_slice()),
        _ => Ok(Vec::new(alloc)),
    }
}

// The line of a script that does the same as these tokens; an empty one if there is none.
fn translated(alloc: Global, tokens: &[&[u8]]) -> Result<Vec<u8>> {
    for form in &FORMS {
        let line = line_by(alloc, *form, tokens)?;
        if is_line(alloc, line.as_slice())? {
            return Ok(line);
        }
    }
    Ok(Vec::new(alloc))
}

// Adds what a script has instead of a line of these tokens.
fn add_instead(help: &mut Help, tokens: &[&[u8]]) -> Result<()> {
    let line = translated(help.alloc, plain(tokens))?;
    let line = line.as_slice().trim_ascii_start();
    if !line.is_empty() && line.len() <= LONGEST {
        return help.add_words("in a script:", &[line], "");
    }
    let otherwise = "a line of a script is one call, in words without ( ) { } ; and :=";
    let found = tokens.iter().find_map(|token| absent(token));
    help.add_line(found.unwrap_or(otherwise))
}

/// Adds what a script has instead of the line, if it seems to be of TTCN-3. Whether it does.
pub(crate) fn add_source(help: &mut Help) -> Result<bool> {
    let mut tokens = Vec::new(help.alloc);
    read_tokens(help.line, &mut tokens)?;
    let is_source = is_source(tokens.as_slice());
    if is_source {
        if !help.around.in_source {
            help.add_line("the line looks like TTCN-3, which ttrun does not read")?;
        }
        add_instead(help, tokens.as_slice())?;
    }
    Ok(is_source)
}

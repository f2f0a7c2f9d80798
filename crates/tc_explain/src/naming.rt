//! What helps if a name of a script is wrong, and the names that a line may refer to, or not use again.
use crate::Result;
use crate::help::{Around, Help};
use crate::scan::Opened;
use std::alloc::Global;
use std::ops::Range;
use tc_entry::ARGUMENTS;
use tc_reader::{Keyword, ScriptKind, is_word, read_keyword, read_name, read_words};

// A name, the line that gives it, and how many parameters follow it there. The keyword is of a test case, of a behaviour,
// or a create: then a component has the name, and it may be that of a parameter.
#[derive(Clone, Copy)]
struct Given<'t> {
    keyword: Keyword,
    name: &'t [u8],
    line: usize,
    parameters: usize,
}

// The names around a line, in the order of the text, to the end of its test case.
#[derive(Drop)]
struct Names<'t> {
    given: Vec<Given<'t>>,
    // The lines where its test case and its behaviour began.
    case: usize,
    behaviour: usize,
}

impl<'t> Names<'t> {
    // The names around the line with the fault.
    fn new(alloc: Global, around: Around<'t>) -> Result<Names<'t>> {
        let (case, behaviour) = match around.opened {
            Opened::Inside(case, behaviour) => (case, behaviour),
            Opened::Begun(case, _) => (case, case),
            Opened::Nothing => (0, 0),
        };
        let mut given = Vec::new(alloc);
        let mut words = Vec::new(alloc);
        for (line, text) in around.text.split(|byte| *byte == b'\n').enumerate() {
            read_words(text, &mut words)?;
            let keyword = words.as_slice().first().and_then(|word| read_keyword(word));
            if line + 1 >= around.number && keyword == Some(Keyword::TestCase) {
                break;
            }
            give(&mut given, line + 1, keyword, words.as_slice())?;
        }
        Ok(Names {
            given,
            case,
            behaviour,
        })
    }

    // The names that are given so in these lines.
    fn of(&self, alloc: Global, keyword: Keyword, lines: Range<usize>) -> Result<Vec<&'t [u8]>> {
        let is_there = |one: &&Given| one.keyword == keyword && lines.contains(&one.line);
        let found = self.given.as_slice().iter().filter(is_there);
        Ok(found.map(|one| one.name).collect(alloc)?)
    }

    // What has this name first and is given so from this line on.
    fn find(&self, keyword: Keyword, from: usize, name: &[u8]) -> Option<Given<'t>> {
        let is_there = |one: &&Given| one.keyword == keyword && from <= one.line;
        let mut found = self.given.as_slice().iter().filter(is_there);
        found.find(|one| is_word(one.name, name)).copied()
    }
}

// Adds the names that a line with these words gives.
fn give<'t>(
    given: &mut Vec<Given<'t>>,
    line: usize,
    keyword: Option<Keyword>,
    words: &[&'t [u8]],
) -> Result<()> {
    let (keyword, count) = match keyword {
        Some(keyword @ (Keyword::TestCase | Keyword::Create)) => (keyword, 1),
        Some(Keyword::Behaviour) => (Keyword::Behaviour, words.len()),
        _ => return Ok(()),
    };
    let parameters = words.len().saturating_sub(2);
    for (place, name) in words.iter().skip(1).take(count).enumerate() {
        given.push(Given {
            keyword: if place == 0 { keyword } else { Keyword::Create },
            name,
            line,
            parameters,
        })?;
    }
    Ok(())
}

// Adds the nearest of the names or of the other words; if none is near, the names under this head, or that there is none.
fn add_near<'n>(
    help: &mut Help,
    word: &[u8],
    names: &[&'n [u8]],
    others: &[&'n [u8]],
    (head, none): (&str, &str),
) -> Result<()> {
    let mut words = Vec::new(help.alloc);
    words.extend_from_slice(names)?;
    words.extend_from_slice(others)?;
    if help.add_near(word, words.as_slice())? {
        Ok(())
    } else if names.is_empty() {
        help.add_line(none)
    } else {
        help.add_names(head, names)
    }
}

// Whether a line with this keyword names a component at this place, if it has one.
fn names_component(keyword: Keyword, place: usize) -> bool {
    match keyword {
        Keyword::Start => place == 1 || place > 2,
        Keyword::Stop | Keyword::Kill | Keyword::Ask(_) => place == 1,
        Keyword::Wait => place == 2,
        _ => false,
    }
}

// The words other than names that name components in a line with this keyword.
fn others_of(keyword: Keyword) -> &'static [&'static [u8]] {
    match keyword {
        Keyword::Start => &[b"mtc", b"self"],
        Keyword::Stop | Keyword::Kill => &[b"mtc", b"self", b"all"],
        _ => &[b"mtc", b"self", b"all", b"any"],
    }
}

// Adds the word at this place, if it was found, and the rule that it breaks.
fn add_rule(help: &mut Help, place: Option<usize>, rule: &str) -> Result<()> {
    if let Some(place) = place {
        help.add_word(place)?;
    }
    help.add_line(rule)
}

// Adds where the word is bound, or that it names a behaviour.
fn add_elsewhere(help: &mut Help, names: &Names, word: &[u8]) -> Result<()> {
    if let Some(one) = names.find(Keyword::Create, names.case, word) {
        let rest = ", to the end of that behaviour";
        return help.add_counted("it is bound after line ", one.line, rest);
    }
    match names.find(Keyword::Behaviour, names.case, word) {
        Some(one) => {
            let rest = ", and no component";
            help.add_counted("it names the behaviour in line ", one.line, rest)
        }
        None => Ok(()),
    }
}

// Adds which name is not bound, and the nearest that is.
fn add_unbound(help: &mut Help, names: &Names, keyword: Keyword) -> Result<()> {
    let bound = names.of(
        help.alloc,
        Keyword::Create,
        names.behaviour..help.around.number,
    )?;
    let is_bound = |word: &[u8]| bound.as_slice().iter().any(|name| is_word(name, word));
    let mut words = help.words.iter().copied().enumerate().take(3 + ARGUMENTS);
    let found = words.find(|(place, word)| {
        names_component(keyword, *place) && read_name(word).is_some() && !is_bound(word)
    });
    let rule = "a component is named by a parameter, or by a create above";
    add_rule(help, found.map(|(place, _)| place), rule)?;
    let Some((_, word)) = found else {
        return Ok(());
    };
    add_elsewhere(help, names, word)?;
    let told = ("bound there:", "no name is bound there");
    add_near(help, word, bound.as_slice(), others_of(keyword), told)
}

// Adds which behaviour there is not, and the nearest that there is and that may be started.
fn add_unknown(help: &mut Help, names: &Names) -> Result<()> {
    add_rule(help, Some(2), "a start names a behaviour of its test case")?;
    let behaviours = names.of(help.alloc, Keyword::Behaviour, names.case..usize::MAX)?;
    let started = behaviours.as_slice().get(1..).unwrap_or(&[]);
    let told = (
        "behaviours after the first:",
        "the test case has only its first behaviour",
    );
    match help.words.get(2) {
        Some(word) => add_near(help, word, started, &[], told),
        None => Ok(()),
    }
}

// Adds how many arguments there are, and how many there should be.
fn add_arguments(help: &mut Help, names: &Names) -> Result<()> {
    help.add_line("a start gives as many arguments as the behaviour has parameters")?;
    let [_, _, name, arguments @ ..] = help.words else {
        return Ok(());
    };
    let Some(one) = names.find(Keyword::Behaviour, names.case, name) else {
        return Ok(());
    };
    let (given, wanted, line) = (arguments.len(), one.parameters, one.line);
    let text = "wanted by the behaviour in line";
    help.add_line(format!(in help.alloc; "{given} given, {wanted} {text} {line}")?.as_str())
}

// The place of the first parameter that is there before.
fn twice_parameter(words: &[&[u8]]) -> Option<usize> {
    let mut places = words.iter().enumerate().take(2 + ARGUMENTS);
    places.position(|(place, word)| {
        let before = words.get(2..place).unwrap_or(&[]);
        before.iter().any(|other| is_word(other, word))
    })
}

// Adds which name is given already, and where.
fn add_twice(help: &mut Help, names: &Names, keyword: Keyword) -> Result<()> {
    let number = help.around.number;
    let from = match keyword {
        Keyword::TestCase => 0,
        Keyword::Behaviour => names.case,
        _ => names.behaviour,
    };
    let name = help.words.get(1).copied().unwrap_or(&[]);
    let found = match names.find(keyword, from, name) {
        Some(one) if one.line < number => Some((1, one.line)),
        _ => twice_parameter(help.words).map(|place| (place, number)),
    };
    let rule =
        "a name is given once: to a test case of the script, a behaviour of the test case, a component of the behaviour";
    add_rule(help, found.map(|(place, _)| place), rule)?;
    match found {
        Some((_, first)) => help.add_counted("it is given first in line ", first, ""),
        None => Ok(()),
    }
}

/// Adds what is wrong with a name of the line.
pub(crate) fn add_naming(help: &mut Help, kind: ScriptKind) -> Result<()> {
    let names = Names::new(help.alloc, help.around)?;
    let keyword = help.words.first().and_then(|word| read_keyword(word));
    match (kind, keyword) {
        (ScriptKind::Twice, Some(keyword)) => add_twice(help, &names, keyword),
        (ScriptKind::NoReference, Some(keyword)) => add_unbound(help, &names, keyword),
        (ScriptKind::UnknownBehaviour, _) => add_unknown(help, &names),
        (ScriptKind::Arguments, _) => add_arguments(help, &names),
        (ScriptKind::MainParameters, _) => {
            let rule =
                "the first behaviour of a test case is started by nobody, who could give it arguments";
            add_rule(help, Some(2), rule)
        }
        _ => Ok(()),
    }
}

//! A line is read as its form, or by its first fault.
ghost use Rattle.std.specs.{Prelude.{◌≡◌, ◌==◌, ◌&&◌, ◌∷◌, [], map, nat_le, slice_index}, List.list_all};
ghost use Rattle.tc_reader.specs.{Line.Gives, Line.create, Line.each, Line.form, Line.group_named, Line.line_of, Line.reference, Line.target_named, Line.word_name};

use crate::kind::{LineFault, ScriptKind};
use crate::line::{Call, Keyword, Line};
use crate::spelling::{is_word, read_keyword, read_name, read_verdict};
use crate::text::read_words;
use std::alloc::Global;
use tc_entry::{Name, Sequence};
use tc_step::{GroupPlace, Place, TargetPlace};

// What reads a name is not inlined (`inline(never)`): so the reader of the lines without one, as `setverdict pass`, has
// no room for names to clear and move.
#[tactic(auto, unfolding(crate::specs::Line::word_name))]
#[inline(never)]
fn read_named(word: &[u8]) -> Result<Name, ScriptKind>
    ensures { result ≡ word_name word.now }
{
    read_name(word).ok_or(ScriptKind::BadName)
}

/// The component that the word names.
#[tactic(auto, unfolding(crate::specs::Line::reference))]
#[inline(never)]
pub fn read_reference(word: &[u8]) -> Result<Place<Name>, ScriptKind>
    ensures { result ≡ reference word.now }
{
    if is_word(word, b"mtc") {
        return Ok(Place::Main);
    }
    if is_word(word, b"self") {
        return Ok(Place::Own);
    }
    Ok(Place::Bound(read_named(word)?))
}

#[tactic(auto, unfolding(crate::specs::Line::group_named))]
fn read_group(word: &[u8]) -> Result<GroupPlace<Place<Name>>, ScriptKind>
    ensures { result ≡ group_named word.now }
{
    if is_word(word, b"all") {
        return Ok(GroupPlace::All);
    }
    Ok(GroupPlace::One(read_reference(word)?))
}

#[tactic(auto, unfolding(crate::specs::Line::target_named))]
fn read_target(word: &[u8]) -> Result<TargetPlace<Place<Name>>, ScriptKind>
    ensures { result ≡ target_named word.now }
{
    if is_word(word, b"any") {
        return Ok(TargetPlace::Any);
    }
    if is_word(word, b"all") {
        return Ok(TargetPlace::All);
    }
    Ok(TargetPlace::One(read_reference(word)?))
}

// The create that binds the word, by the words after it and after `alive`.
fn read_create_of(word: &[u8], alive: bool, rest: &[&[u8]]) -> Result<Line, LineFault>
    ensures { Gives result (create word.now alive (map (λ w. w.now) rest.now)) }
{
    let given = match rest {
        [] => None,
        [says, given] if is_word(says, b"named") => Some(*given),
        _ => return Err(LineFault::Kind(ScriptKind::BadLine)),
    };
    let name = read_named(word)?;
    let given_name = given.map(read_named).transpose()?;
    Ok(Line::Step(Call::Create {
        name,
        alive,
        given_name,
    }))
}

#[tactic(auto, unfolding(crate::specs::Line::form))]
#[inline(never)]
fn read_create(word: &[u8], rest: &[&[u8]]) -> Result<Line, LineFault>
    ensures { Gives result (form Keyword.Create (word.now ∷ map (λ w. w.now) rest.now)) }
{
    match rest {
        [says, rest @ ..] if is_word(says, b"alive") => read_create_of(word, true, rest),
        _ => read_create_of(word, false, rest),
    }
}

fn read_names(alloc: Global, words: &[&[u8]]) -> Result<Sequence<Name>, LineFault>
    ensures { Gives result (each word_name (map (λ w. w.now) words.now)) }
{
    let mut names = Vec::new(alloc);
    for word in words {
        names.push(read_named(word)?)?;
    }
    Ok(Sequence::new(names))
}

fn read_references(alloc: Global, words: &[&[u8]]) -> Result<Sequence<Place<Name>>, LineFault>
    ensures { Gives result (each reference (map (λ w. w.now) words.now)) }
{
    let mut references = Vec::new(alloc);
    for word in words {
        references.push(read_reference(word)?)?;
    }
    Ok(Sequence::new(references))
}

#[tactic(auto, unfolding(crate::specs::Line::form))]
#[inline(never)]
fn read_behaviour(alloc: Global, word: &[u8], rest: &[&[u8]]) -> Result<Line, LineFault>
    ensures { Gives result (form Keyword.Behaviour (word.now ∷ map (λ w. w.now) rest.now)) }
{
    let name = read_named(word)?;
    Ok(Line::Behaviour(name, read_names(alloc, rest)?))
}

#[tactic(auto, unfolding(crate::specs::Line::form))]
#[inline(never)]
fn read_start(alloc: Global, on: &[u8], behaviour: &[u8], args: &[&[u8]]) -> Result<Line, LineFault>
    ensures { Gives result (form Keyword.Start (on.now ∷ behaviour.now ∷ map (λ w. w.now) args.now)) }
{
    let on = read_reference(on)?;
    let behaviour = read_named(behaviour)?;
    let args = read_references(alloc, args)?;
    Ok(Line::Step(Call::Start {
        on,
        behaviour,
        args,
    }))
}

#[tactic(auto, unfolding(crate::specs::Line::form))]
#[inline(never)]
fn read_wait(status: &[u8], target: &[u8]) -> Result<Line, LineFault>
    ensures { Gives result (form Keyword.Wait (status.now ∷ target.now ∷ [])) }
{
    let killed = !is_word(status, b"done");
    if killed && !is_word(status, b"killed") {
        return Err(LineFault::Kind(ScriptKind::BadLine));
    }
    let target = read_target(target)?;
    Ok(Line::Step(Call::Wait { killed, target }))
}

// What a line says, by its keyword and the words after it.
#[tactic(auto, unfolding(crate::specs::Line::form))]
fn read_form(alloc: Global, keyword: Keyword, words: &[&[u8]]) -> Result<Line, LineFault>
    ensures { Gives result (form keyword (map (λ w. w.now) words.now)) }
{
    match (keyword, words) {
        (Keyword::TestCase, [name]) => Ok(Line::TestCase(read_named(name)?)),
        (Keyword::Behaviour, [name, rest @ ..]) => read_behaviour(alloc, name, rest),
        (Keyword::End, []) => Ok(Line::End),
        (Keyword::Create, [name, rest @ ..]) => read_create(name, rest),
        (Keyword::Start, [on, name, rest @ ..]) => read_start(alloc, on, name, rest),
        (Keyword::Stop, [group]) => Ok(Line::Step(Call::Stop(read_group(group)?))),
        (Keyword::Kill, [group]) => Ok(Line::Step(Call::Kill(read_group(group)?))),
        (Keyword::StopCase, []) => Ok(Line::Step(Call::StopCase)),
        (Keyword::Ask(status), [target]) => Ok(Line::Step(Call::Ask(status, read_target(target)?))),
        (Keyword::Wait, [status, target]) => read_wait(status, target),
        (Keyword::SetVerdict, [verdict]) => match read_verdict(verdict) {
            Some(verdict) => Ok(Line::Step(Call::SetVerdict(verdict))),
            None => Err(LineFault::Kind(ScriptKind::BadLine)),
        },
        (Keyword::GetVerdict, []) => Ok(Line::Step(Call::GetVerdict)),
        _ => Err(LineFault::Kind(ScriptKind::BadLine)),
    }
}

fn is_printable(line: &[u8]) -> bool
    ensures { result ≡ list_all (λ b. nat_le 32 b && nat_le b 126) line.now }
{
    line.iter().all(|byte| 32 <= *byte && *byte <= 126)
}

/// Whether a line whose first word this is says nothing.
pub fn is_comment(word: &[u8]) -> bool
    ensures { result ≡ (slice_index word.now 0 == 35) }
{
    matches!(word, [b'#', ..])
}

/// What a line says. The list holds its words meanwhile: given to the next line, it takes no memory again.
#[tactic(auto, unfolding(crate::specs::Line::line_of))]
pub fn read_line<'t>(
    alloc: Global,
    line: &'t [u8],
    words: &mut Vec<&'t [u8]>,
) -> Result<Line, LineFault>
    ensures { Gives result (line_of line.now) }
{
    // This one needs no words.
    if is_word(line, b"end") {
        return Ok(Line::End);
    }
    read_words(line, words)?;
    let Some((first, rest)) = words.as_slice().split_first() else {
        return Ok(Line::Skipped);
    };
    if is_comment(first) {
        return Ok(Line::Skipped);
    }
    if !is_printable(line) {
        return Err(LineFault::Kind(ScriptKind::BadByte));
    }
    match read_keyword(first) {
        Some(keyword) => read_form(alloc, keyword, rest),
        None => Err(LineFault::Kind(ScriptKind::BadLine)),
    }
}

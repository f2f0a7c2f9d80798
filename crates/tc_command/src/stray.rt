//! Tips for words that are no arguments: the path of a file, or nearly a subcommand.
ghost use Rattle.std.specs.Prelude.{◌≡◌, IfOk};
ghost use Rattle.clap.specs.Words.{kind_of};
ghost use Rattle.clap.specs.declared.error.kind.ErrorKind.TheVariants.{InvalidSubcommand, UnknownArgument};

use crate::command::{SUBCOMMANDS, subcommand_named, usage_command};
use clap::error::ErrorKind;
use clap::{Command, Error};
use std::alloc::{AllocError, Global};
use strsim::osa_distance;

// Of words that differ in more letters none is taken for the other.
const MOST_LETTERS: usize = 2;

// Whether the word looks like the path of a file: it has a dot or a slash, and is no option.
fn looks_like_file(word: &str) -> bool {
    !word.starts_with('-') && word.contains(['.', '/'])
}

// The first subcommand whose name is nearly the word.
fn nearest(alloc: Global, word: &str) -> Result<Option<&'static str>, AllocError> {
    for subcommand in &SUBCOMMANDS {
        let name = subcommand.name();
        if osa_distance(alloc, word, name)? <= MOST_LETTERS {
            return Ok(Some(name));
        }
    }
    Ok(None)
}

// The same error with a tip, if the word is a file or nearly a subcommand.
fn with_subcommand_tip(
    alloc: Global,
    command: &mut Command<'_>,
    word: &str,
    error: Error,
) -> Result<Error, AllocError>
    requires { kind_of error ≡ InvalidSubcommand }
    ensures { IfOk result (λ e. kind_of e ≡ InvalidSubcommand) }
{
    let tip = if looks_like_file(word) {
        format!(in alloc; "ttrun run < {word}")?
    } else if let Some(near) = nearest(alloc, word)? {
        format!(in alloc; "a similar subcommand exists: '{near}'")?
    } else {
        return Ok(error);
    };
    let text = format!(in alloc; "unrecognized subcommand '{word}'\n\n  tip: {tip}")?;
    command.error(ErrorKind::InvalidSubcommand, text.as_str())
}

// Whether the error says that this word was not expected.
fn is_about(alloc: Global, error: &Error, word: &str) -> Result<bool, AllocError> {
    let said = format!(in alloc; "{error}")?;
    let wanted = format!(in alloc; "unexpected argument '{word}'")?;
    Ok(said.contains(wanted.as_str()))
}

// The first of the words that looks like the path of a file, if the error is about it.
fn stray_file<'a>(
    alloc: Global,
    error: &Error,
    words: &'a [String],
) -> Result<Option<&'a str>, AllocError> {
    for word in words {
        let word = word.as_str();
        if looks_like_file(word) && is_about(alloc, error, word)? {
            return Ok(Some(word));
        }
    }
    Ok(None)
}

// The same error with a tip how a file is read, if one is given to the subcommand of this name.
fn with_file_tip(
    alloc: Global,
    name: &str,
    words: &[String],
    error: Error,
) -> Result<Error, AllocError>
    requires { kind_of error ≡ UnknownArgument }
    ensures { IfOk result (λ e. kind_of e ≡ UnknownArgument) }
{
    let (Some(subcommand), Some(word)) = (subcommand_named(name), stray_file(alloc, &error, words)?)
    else {
        return Ok(error);
    };
    let text = format!(in alloc;
        "unexpected argument '{word}' found\n\n  tip: ttrun {name} < {word}"
    )?;
    usage_command(alloc, subcommand)?.error(ErrorKind::UnknownArgument, text.as_str())
}

/// The error for arguments that are refused, with a tip if a file is given, or nearly a subcommand; its kind stays.
pub(crate) fn with_tip(
    alloc: Global,
    command: &mut Command<'_>,
    words: &[String],
    error: Error,
) -> Result<Error, AllocError>
    ensures { IfOk result (λ e. kind_of e ≡ kind_of error) }
{
    let [_, first, rest @ ..] = words else {
        return Ok(error);
    };
    match error.kind() {
        ErrorKind::InvalidSubcommand => with_subcommand_tip(alloc, command, first.as_str(), error),
        ErrorKind::UnknownArgument => with_file_tip(alloc, first.as_str(), rest, error),
        _ => Ok(error),
    }
}

//! The program: reads standard input, writes standard output, and names a fault on standard error.
#![tactic(auto)]

use std::io::IsTerminal;
use std::process::ExitCode;
use std::{env, io};
use tc_program::{Announcing, Arguments, answer, awaited_line};

fn words(rt: &HostRuntime) -> io::Result<Vec<String>> {
    Ok(env::args(rt)?.collect(rt.alloc())?)
}

// The line for the input that these arguments read, if it is typed at a terminal.
fn line_at_terminal(words: &io::Result<Vec<String>>, is_terminal: bool) -> Option<&'static str> {
    let subcommand = match words {
        Ok(words) if is_terminal => words.get(1),
        _ => return None,
    };
    Some(awaited_line(subcommand.map(|word| word.as_str())))
}

fn main(rt: HostRuntime) -> ExitCode {
    let words = words(&rt);
    let reader = rt.reader();
    let line = line_at_terminal(&words, reader.is_terminal());
    let mut input = Announcing {
        reader,
        errors: rt.stderr(),
        line,
    };
    let mut errors = rt.stderr();
    let arguments = Arguments {
        words,
        at_terminal: errors.is_terminal(),
    };
    let outcome = answer(
        &rt,
        rt.alloc(),
        arguments,
        &mut input,
        &mut io::writer(&rt),
        &mut errors,
    );
    ExitCode::from(outcome.status)
}

//! The subcommand `serve`.
ghost use Rattle.std.specs.Prelude.{◌≡◌, IfOk};
ghost use Rattle.tc_answer.specs.Prelude.{held_streams};
ghost use Rattle.tc_program.specs.Serve.{IsServiceStatus, Serves, service_line as spec_line};

use std::alloc::Global;
use std::io::{Read, Write};
use tc_answer::{Outcome, REFUSED, RunFault, fault_line, refuse_with};
use tc_report::verdict_status;
use tc_serve::{Ending, ServeFault, append_refusal, serve};
use tc_verdict::NoMemory;

// The line of a fault that ended a service.
fn service_line(alloc: Global, fault: ServeFault) -> Result<Vec<u8>, NoMemory>
    ensures { IfOk result (λ v. v.items ≡ spec_line fault) }
{
    let mut line = Vec::new(alloc);
    match fault {
        ServeFault::Line(number, why) => append_refusal(&mut line, number, why)?,
        ServeFault::TooLong => fault_line(&RunFault::TooLong, &mut line)?,
        ServeFault::Read => fault_line(&RunFault::Read, &mut line)?,
        ServeFault::Write => fault_line(&RunFault::Write, &mut line)?,
        ServeFault::NoMemory => fault_line(&RunFault::NoMemory, &mut line)?,
    }
    Ok(line)
}

// The outcome of a service: the line of its fault is printed, if standard error has taken all so far.
fn settle<E: Write>(alloc: Global, ending: Ending, errors: &mut E) -> Outcome
    ensures { IsServiceStatus ending.told ending.outcome (E.contents errors.old) (E.contents errors.new) result }
{
    let told = if ending.told {
        Ok(())
    } else {
        Err(RunFault::Write)
    };
    let status = match ending.outcome {
        Ok(served) if !served.refused => verdict_status(served.worst),
        Err(fault) if ending.told => return refuse_with(errors, service_line(alloc, fault)),
        Ok(_) | Err(_) => REFUSED,
    };
    Outcome { status, told }
}

/// Answers the lines of the input as they come, and says what ended the service.
pub(crate) fn serve_input<I: Read, W: Write, E: Write>(
    alloc: Global,
    reader: &mut I,
    writer: &mut W,
    errors: &mut E,
) -> Outcome
    ensures { Serves (I.remaining reader.old) (held_streams W.contents writer.old writer.new E.contents errors.old errors.new) result }
{
    let ending = serve(alloc, reader, writer, errors);
    settle(alloc, ending, errors)
}

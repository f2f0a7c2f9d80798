//! Writing moves, and what they are made of.
ghost use Rattle.std.specs.{Prelude.{◌≡◌, ◌++◌, OnOk, OnErr}, Fmt.decimal, Io.StartsWith};
ghost use Rattle.tc_text.specs.{Inside.args_text, Inside.operand_text, Spelling.group_text, Spelling.move_text, Spelling.op_text, Spelling.target_text};

use crate::verb::Verb;
use itoa::Buffer;
use tc_entry::{Comp, Group, Name, NoMemory, Op, Run, Target};
use tc_verdict::{from_user, name};

/// Appends the text. If memory runs out, nothing is appended.
pub fn append_text(out: &mut Vec<u8>, text: &str) -> Result<(), NoMemory>
    ensures ok { OnOk result (out.new.items ≡ out.old.items ++ text.now) }
    ensures err { OnErr result (out.new.items ≡ out.old.items) }
{
    out.extend_from_slice(text.as_bytes())?;
    Ok(())
}

/// Appends the decimal digits of the number. If memory runs out, nothing is appended.
pub fn append_number(out: &mut Vec<u8>, number: u64) -> Result<(), NoMemory>
    ensures ok { OnOk result (out.new.items ≡ out.old.items ++ decimal number) }
    ensures err { OnErr result (out.new.items ≡ out.old.items) }
{
    let mut digits = Buffer::new();
    append_text(out, digits.format(number))
}

fn append_group(out: &mut Vec<u8>, group: Group) -> Result<(), NoMemory>
    ensures ok { OnOk result (out.new.items ≡ out.old.items ++ group_text group) }
    ensures err { OnErr result (StartsWith out.new.items out.old.items) }
{
    match group {
        Group::One(comp) => append_number(out, u64::from(comp.0)),
        Group::All => append_text(out, "all"),
    }
}

fn append_target(out: &mut Vec<u8>, target: Target) -> Result<(), NoMemory>
    ensures ok { OnOk result (out.new.items ≡ out.old.items ++ target_text target) }
    ensures err { OnErr result (StartsWith out.new.items out.old.items) }
{
    match target {
        Target::One(comp) => append_number(out, u64::from(comp.0)),
        Target::Any => append_text(out, "any"),
        Target::All => append_text(out, "all"),
    }
}

fn append_args(out: &mut Vec<u8>, args: &[Comp]) -> Result<(), NoMemory>
    ensures ok { OnOk result (out.new.items ≡ out.old.items ++ args_text args.now) }
    ensures err { OnErr result (StartsWith out.new.items out.old.items) }
{
    let Some((first, rest)) = args.split_first() else {
        return Ok(());
    };
    append_text(out, " ")?;
    append_number(out, u64::from(first.0))?;
    append_args(out, rest)
}

// Appends what follows `create`; if memory runs out, a part of it.
fn append_created(out: &mut Vec<u8>, alive: bool, name: &Option<Name>) -> Result<(), NoMemory>
    ensures ok { OnOk result (out.new.items ≡ out.old.items ++ operand_text (Op.Create alive name.now)) }
    ensures err { OnErr result (StartsWith out.new.items out.old.items) }
{
    if alive {
        append_text(out, " alive")?;
    }
    if let Some(name) = name {
        append_text(out, " named ")?;
        out.extend_from_slice(name.bytes())?;
    }
    Ok(())
}

// Appends what follows the first words of the operation; if memory runs out, a part of it.
fn append_operand(out: &mut Vec<u8>, op: &Op) -> Result<(), NoMemory>
    ensures ok { OnOk result (out.new.items ≡ out.old.items ++ operand_text op.now) }
    ensures err { OnErr result (StartsWith out.new.items out.old.items) }
{
    match op {
        Op::Create { alive, name } => append_created(out, *alive, name),
        Op::StopCase | Op::GetVerdict | Op::Finish => Ok(()),
        Op::Start { comp, run, args } => {
            append_number(out, u64::from(comp.0))?;
            append_text(out, " ")?;
            append_number(out, u64::from(run.0))?;
            append_args(out, args.as_slice())
        }
        Op::Stop(group) | Op::Kill(group) => append_group(out, *group),
        Op::Running(target)
        | Op::Alive(target)
        | Op::Done(target)
        | Op::Killed(target)
        | Op::Wait { target, .. }
        | Op::Wake { target, .. } => append_target(out, *target),
        Op::SetVerdict(verdict) => append_text(out, name(from_user(*verdict))),
    }
}

// Appends the spelling of the operation; if memory runs out, a part of it.
fn append_op(out: &mut Vec<u8>, op: &Op) -> Result<(), NoMemory>
    ensures ok { OnOk result (out.new.items ≡ out.old.items ++ op_text op.now) }
    ensures err { OnErr result (StartsWith out.new.items out.old.items) }
{
    append_text(out, Verb::of(op).text())?;
    append_operand(out, op)
}

// Appends the spelling of the move; if memory runs out, a part of it.
fn append_move(out: &mut Vec<u8>, caller: Run, op: &Op) -> Result<(), NoMemory>
    ensures ok { OnOk result (out.new.items ≡ out.old.items ++ move_text caller.0 op.now) }
    ensures err { OnErr result (StartsWith out.new.items out.old.items) }
{
    append_number(out, u64::from(caller.0))?;
    append_text(out, " ")?;
    append_op(out, op)
}

/// Appends the spelling of the operation, which is that of a move without its caller. If memory runs out, nothing is
/// appended.
pub fn write_op(out: &mut Vec<u8>, op: &Op) -> Result<(), NoMemory>
    ensures ok { OnOk result (out.new.items ≡ out.old.items ++ op_text op.now) }
    ensures err { OnErr result (out.new.items ≡ out.old.items) }
{
    let start = out.len();
    let done = append_op(out, op);
    if done.is_err() {
        out.truncate(start);
    }
    done
}

/// Appends the spelling of the move. If memory runs out, nothing is appended.
pub fn write_move(out: &mut Vec<u8>, caller: Run, op: &Op) -> Result<(), NoMemory>
    ensures ok { OnOk result (out.new.items ≡ out.old.items ++ move_text caller.0 op.now) }
    ensures err { OnErr result (out.new.items ≡ out.old.items) }
{
    let start = out.len();
    let done = append_move(out, caller, op);
    if done.is_err() {
        out.truncate(start);
    }
    done
}

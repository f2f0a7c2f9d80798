//! Single texts.
use crate::checks::{got, is};
use std::alloc::Global;
use std::process::Abort;
use tc_table::{
    Args, Comp, Fault, InputFault, NoMemory, Op, Reply, Run, read_input, read_move, read_moves,
    write_move, write_reply,
};
use tc_text::{append_text, write_op};

/// A start of component 1 with run 2 and argument 3.
fn start() -> Op {
    let mut args = Args::new();
    // There is room for one.
    let _ = args.push(Comp(3));
    Op::Start {
        comp: Comp(1),
        run: Run(2),
        args,
    }
}

fn append_texts(out: &mut Vec<u8>) -> Result<(), NoMemory> {
    let op = start();
    write_move(out, Run(0), &op)?;
    append_text(out, ", ")?;
    write_op(out, &op)
}

/// What is read of bytes of which there may be three, if anything is.
fn read_three(alloc: Global, text: &[u8]) -> Result<Vec<u8>, InputFault> {
    let mut reader = text;
    read_input(alloc, &mut reader, 3)
}

#[test]
fn single_texts(rt: HostRuntime) -> Result<(), NoMemory> {
    let mut out = Vec::new(rt.alloc());
    append_texts(&mut out)?;
    let texts = "0 start 1 2 3, start 1 2 3";
    is(&rt, "texts", out.as_slice(), texts.as_bytes());
    let mut reply = Vec::new(rt.alloc());
    write_reply(&mut reply, &Reply::Fault(Fault::Stuck))?;
    is(&rt, "a reply", reply.as_slice(), b"error stuck".as_slice());
    is(
        &rt,
        "a move",
        &read_move(b"0 start 1 2 3"),
        &Some((Run(0), start())),
    );
    let three = got(&rt, read_three(rt.alloc(), b"abc"));
    is(&rt, "three bytes", three.as_slice(), b"abc".as_slice());
    let four = read_three(rt.alloc(), b"abcd").err();
    is(&rt, "four bytes", four, Some(InputFault::TooLong));
    Ok(())
}

/// How many behaviours and moves a list has that is read, if it is.
fn is_list(rt: &impl Abort, alloc: Global, text: &[u8], wanted: Option<(u16, usize)>) {
    let found = match read_moves(alloc, text) {
        Ok(list) => Some((list.behaviours, list.moves.as_slice().len())),
        Err(_) => None,
    };
    is(rt, "a list", found, wanted);
}

#[test]
fn lists_of_moves(rt: HostRuntime) {
    is_list(
        &rt,
        rt.alloc(),
        b"behaviours 256\n0 create\n255 finish",
        Some((256, 2)),
    );
    is_list(&rt, rt.alloc(), b"behaviours 1\n0 finish\n\n", None);
}

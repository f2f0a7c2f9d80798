//! Models that no text can ask for.
use crate::calls::in_lines;
use crate::checks::{holds, is};
use std::alloc::Global;
use std::process::Abort;
use std::test::Fail;
use tc_blocks::{Block, read_evidence};
use tc_model::{Models, models_of, notes_of};

// The blocks have no model, and this is why.
fn are_refused(
    rt: &impl Abort,
    alloc: Global,
    blocks: Vec<Block>,
    limit: usize,
    wanted: &[u8],
) -> Result<(), Fail> {
    let Models { attempts, text } = models_of(alloc, blocks, limit)?;
    let notes = notes_of(alloc, attempts.as_slice())?;
    is(rt, "the length of the script", text.len(), 0);
    holds(rt, "why", notes.as_slice() == wanted);
    Ok(())
}

// A block of one behaviour that calls nothing.
fn one_block(alloc: Global) -> Result<Vec<Block>, Fail> {
    let text = in_lines(alloc, "history 1 t 1;0 finish -> ok;end none;")?;
    Ok(read_evidence(alloc, text.as_slice())?.into_vec())
}

#[test]
fn a_block_of_257_behaviours_has_no_model(rt: HostRuntime) -> Result<(), Fail> {
    let alloc = rt.alloc();
    let mut blocks = one_block(alloc)?;
    for block in blocks.iter_mut() {
        block.header.behaviours = 257;
    }
    let wanted = b"ttrun: line 1: no model of t: too many behaviours\n";
    are_refused(&rt, alloc, blocks, 1_000, wanted)
}

#[test]
fn a_model_of_too_many_bytes_is_none(rt: HostRuntime) -> Result<(), Fail> {
    let alloc = rt.alloc();
    let model = "testcase t\nbehaviour run_0\nend\nend\n";
    let Models { attempts, text } = models_of(alloc, one_block(alloc)?, 35)?;
    is(&rt, "the blocks", attempts.len(), 1);
    holds(&rt, "its model", text.as_slice() == model.as_bytes());
    let wanted = b"ttrun: line 1: no model of t: too long a script\n";
    are_refused(&rt, alloc, one_block(alloc)?, 34, wanted)
}

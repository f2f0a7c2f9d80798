//! The input, read whole, and a script and the blocks after it in one text.
ghost use Rattle.std.specs.Prelude.{◌≡◌, ◌≤◌, ◌⊎◌, ◌&&◌, All, IfOk, IfErr, IfSome, Ok, drop, false, length, map, true};
ghost use Rattle.tc_reader.specs.Prelude.{campaign, IsCase, has_twice};
ghost use Rattle.tc_stream.specs.Prelude.{IsRead};
ghost use Rattle.tc_answer.specs.{Choosing.RefusesScript, Input.{IsUnread, blocks_part, script_part}, declared.limits.TheConstants.SCRIPT_LIMIT};
ghost use Rattle.tc_answer.specs.Input as parts;

use crate::fault::{RunFault, of_input};
use crate::limits::SCRIPT_LIMIT;
use std::alloc::Global;
use std::io::Read;
use tc_reader::{Campaign, ReadFault, read_campaign};
use tc_stream::read_input;

/// The text of the input, of at most that many bytes.
pub fn read_text<R: Read>(alloc: Global, reader: &mut R, limit: usize) -> Result<Vec<u8>, RunFault>
    ensures fits { IfOk result (λ v. length v.items ≤ limit) }
    ensures all { IfOk result (λ v. IfSome (R.remaining reader.old) (λ given. v.items ≡ given)) }
    ensures unread { IfErr result (IsUnread limit (R.remaining reader.old)) }
{
    read_input(alloc, reader, limit).map_err(of_input)
}

/// The campaign that the text spells.
pub fn read_script(alloc: Global, text: &[u8]) -> Result<Campaign, RunFault>
    ensures spelled { IfOk result (λ c. campaign text.now ≡ Ok c) }
    ensures distinct { IfOk result (λ c. has_twice (map (λ t. t.0) c) ≡ false) }
    ensures lawful { IfOk result (λ c. All (λ t. IsCase t.1) c) }
    ensures refused { IfErr result (RefusesScript text.now) }
{
    match read_campaign(alloc, text) {
        Ok(campaign) => Ok(campaign),
        Err(ReadFault::Script(fault)) => Err(RunFault::Script(fault)),
        Err(ReadFault::NoMemory) => Err(RunFault::NoMemory),
    }
}

/// The campaign that the input spells.
pub fn take_script<R: Read>(alloc: Global, reader: &mut R) -> Result<Campaign, RunFault>
    ensures spelled { IfOk result (λ c. IsRead SCRIPT_LIMIT (R.remaining reader.old) (λ text. campaign text ≡ Ok c)) }
    ensures lawful { IfOk result (λ c. All (λ t. IsCase t.1) c) }
    ensures refused { IfErr result (λ fault. IsUnread SCRIPT_LIMIT (R.remaining reader.old) fault
        ⊎ IsRead SCRIPT_LIMIT (R.remaining reader.old) (λ text. RefusesScript text fault)) }
{
    let text = read_text(alloc, reader, SCRIPT_LIMIT)?;
    read_script(alloc, text.as_slice())
}

// Whether a block begins here.
fn begins_block(text: &[u8]) -> bool
    ensures { result ≡ parts.begins_block text.now }
{
    text.starts_with(b"history ") || text.starts_with(b"evidence ")
}

// Whether the script ends here, by whether a line begins here.
fn ends_at(text: &[u8], at: usize, begins: bool) -> bool
    requires { at ≤ length text.now }
    ensures { result ≡ (begins && parts.begins_block (drop at text.now)) }
{
    begins && begins_block(&text[at..])
}

// How many bytes are before the first line that begins a block.
#[tactic(auto, using(crate::proofs::Splitting::splitting_rules))]
fn script_bytes(text: &[u8]) -> usize
    ensures is { result ≡ parts.script_bytes true text.now }
    ensures within { result ≤ length text.now }
{
    let mut begins = true;
    for at in 0..text.len() {
        if ends_at(text, at, begins) {
            return at;
        }
        begins = text[at] == b'\n';
    }
    text.len()
}

/// The script, and the blocks after it.
pub fn split_script(text: &[u8]) -> (&[u8], &[u8])
    ensures script { result.0.now ≡ script_part text.now }
    ensures blocks { result.1.now ≡ blocks_part text.now }
{
    text.split_at(script_bytes(text))
}

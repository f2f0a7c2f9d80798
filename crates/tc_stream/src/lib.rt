//! Whole inputs and whole outputs, over any reader and any writer.
#![tactic(auto)]

mod counted;
pub mod devices;
mod input;
mod output;

pub use counted::{CountedRead, CountedReader, CountedWrite, CountedWriter};
pub use input::{InputFault, read_counted, read_input, read_part};
pub use output::{WriteFault, write_counted, write_whole};

//! A test case as text: histories, and evidence, which names behaviours and holds what people say.
#![tactic(auto)]

mod block;
mod header;
mod history_block;
mod history_line;
pub mod laws;
mod limit;
mod line;
mod met;
mod note;
mod parts;
mod read;
mod reading;
mod sentence;
mod source;
mod taking;
mod write;

pub use block::Block;
pub use header::{FORMAT_1_BEHAVIOURS, Header, Kind};
pub use history_block::{History, append_end, append_entries, write_block};
pub use limit::Limit;
pub use line::Line;
pub use met::MetRuns;
pub use read::{read_evidence, read_evidence_into, read_history};
pub use sentence::{SENTENCE_BYTES, Sentence};
pub use source::read_evidence_from;
pub use taking::TakesEvidence;
pub use write::{append_first_line, append_line, append_said, append_whole_block};

//! The component table and its texts under one name, and a place in a host's memory for a test case.
#![tactic(auto)]

pub mod calls;
mod held_case;

pub use held_case::{HeldCase, OwnedTable};
pub use tc_blocks::{History as Block, read_history};
pub use tc_rules::{
    Args, CheckFault, Comp, Entry, Fault, Group, Name, NoMemory, Op, Phase, Reply, Run, Table,
    Target, UserVerdict, Verdict, laws, replay_check,
};
pub use tc_stream::{InputFault, read_input};
pub use tc_text::{
    MoveList, TextFault, TextKind, read_move, read_moves, read_reply, write_move, write_reply,
};

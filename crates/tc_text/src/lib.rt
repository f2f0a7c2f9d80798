//! The texts of moves, replies and lists of moves, read and written exactly.
#![tactic(auto)]

mod cursor;
mod fault;
mod move_list;
mod moves;
mod name;
mod number;
mod operand;
mod reply;
mod said;
mod short;
mod verb;
mod writing;

pub use cursor::{after, take_line_end};
pub use fault::{TextFault, TextKind};
pub use move_list::{MoveList, TakesMoves, as_behaviours, read_moves, read_moves_into};
pub use moves::{read_move, take_long_move};
pub use name::{take_name, take_verdict};
pub use number::{read_number, take_number};
pub use operand::take_run;
pub use reply::{read_reply, take_reply, write_reply};
pub use said::{Part, append_parts, append_shown, is_plain};
pub use short::{ShortOp, read_short_move, take_short_move};
pub use tc_entry::name_of_fault;
pub use writing::{append_number, append_text, write_move, write_op};

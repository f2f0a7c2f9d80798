//! Scripts as text: lines, and the campaign that they spell.
#![tactic(auto)]

mod campaign;
mod counts;
mod fault;
mod kind;
mod line;
mod line_reading;
mod made;
mod names;
mod plain;
mod reading;
mod scope;
mod spelling;
mod text;
mod walk;

pub use campaign::{Campaign, CaseScript};
pub use counts::TEST_CASES;
pub use fault::{ReadFault, ScriptFault};
pub use kind::{LineFault, ScriptKind};
pub use line::{Call, Keyword, Line};
pub use line_reading::{is_comment, read_line, read_reference};
pub use reading::read_campaign;
pub use spelling::{is_word, read_keyword, read_name};
pub use tc_entry::{Name, Sequence, UserVerdict};
pub use tc_step::{GroupPlace, Place, Places, STEPS, Script, Status, Step, TargetPlace};
pub use text::{Lines, read_words};

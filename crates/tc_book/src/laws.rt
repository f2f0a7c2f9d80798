//! The changes of a case's state, each a call on the value under the lock, and the merge of the close.
pub use crate::book::Book;
pub use crate::merging::merge;
pub use crate::places::Places;

//! How many bytes an input may have.

/// How many bytes a script may have, or a list of moves.
pub const SCRIPT_LIMIT: usize = 1_048_576;

/// How many bytes a text of histories may have, also after a script.
pub const HISTORY_LIMIT: usize = 16_777_216;

//! Words that more than one crate says.

/// What is said of a text that ends where more of it is wanted.
pub const EARLY_END: &str = "text ends too early";

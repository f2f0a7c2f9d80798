//! The limit of a scripted behaviour.

/// The most steps of a scripted behaviour.
pub const STEPS: usize = 1000;

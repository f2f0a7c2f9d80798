//! The tests of `tc_course` and `tc_explore` by their public calls, in a crate of their own: a check of them doesn't prove
//! the libraries again.
#![tactic(auto)]

#[cfg(test)]
mod tests;

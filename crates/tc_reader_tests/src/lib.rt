//! The tests of the libraries that read scripts, in a crate of their own: a check of them proves no library again.
#![tactic(auto)]

#[cfg(test)]
mod checks;
#[cfg(test)]
mod scripts;

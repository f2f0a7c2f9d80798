//! The tests of the libraries that the executor is built on, in a crate of their own: a check of them proves no library
//! again.
#![tactic(auto)]

#[cfg(test)]
mod board;
#[cfg(test)]
mod checks;
#[cfg(test)]
mod deciding;
#[cfg(test)]
mod entries;
#[cfg(test)]
mod evidence;
#[cfg(test)]
mod histories;
#[cfg(test)]
mod merging;
#[cfg(test)]
mod serving;
#[cfg(test)]
mod streams;
#[cfg(test)]
mod tables;
#[cfg(test)]
mod texts;

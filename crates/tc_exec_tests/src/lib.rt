//! The tests of `tc_book` and `tc_exec` by their public calls, in a crate of their own: a check of them proves neither
//! again.
#![tactic(auto)]

#[cfg(test)]
mod behind_the_lock;
#[cfg(test)]
mod books;
#[cfg(test)]
mod calls;
#[cfg(test)]
mod cases;
#[cfg(test)]
mod checks;
#[cfg(test)]
mod hostile;
#[cfg(test)]
mod jobs;
#[cfg(test)]
mod limits;
#[cfg(test)]
mod orders;
#[cfg(test)]
mod settings;
#[cfg(test)]
mod waking;

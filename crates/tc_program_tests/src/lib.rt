//! The tests of the command line (`tc_command`) and of the program's library (`tc_program`), in a crate of their own: a
//! check of them proves no library again. What the built program shows is in `tests/program`.
#![tactic(auto)]

#[cfg(test)]
mod aborts;
#[cfg(test)]
mod calls;
#[cfg(test)]
mod checks;
#[cfg(test)]
mod devices;
#[cfg(test)]
mod models;
#[cfg(test)]
mod runs;
#[cfg(test)]
mod words;
#[cfg(test)]
mod worked;

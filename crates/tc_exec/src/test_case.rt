//! A test case.
use crate::job::Job;
use tc_entry::Name;

/// A test case of a campaign, with jobs of any one kind.
#[derive(Drop)]
pub struct Case<B = Job> {
    /// The name of the test case.
    pub name: Name,
    /// The names of its behaviours, that of run 0 first.
    pub names: Vec<Name>,
    /// Its behaviours, that of run 0 first.
    pub jobs: Vec<B>,
}

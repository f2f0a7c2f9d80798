//! What a test found, held next to what is wanted. Each check is a call: the branches of an assertion are proved once
//! here, and not again at each place.
use std::alloc::Global;
use std::fmt::Debug;
use std::process::Abort;
use tc_blocks::{History, read_history};

/// Ends the test unless what was found is what is wanted.
pub(crate) fn is<R: Abort, T: PartialEq + Debug + Copy>(rt: &R, what: &str, found: T, wanted: T) {
    assert!(rt; found == wanted, "{what}: {found:?} in place of {wanted:?}");
}

/// Ends the test unless this holds.
pub(crate) fn holds<R: Abort>(rt: &R, what: &str, fact: bool) {
    assert!(rt; fact, "{what}");
}

/// What a call answered; an error ends the test.
pub(crate) fn got<R: Abort, T, E: Debug + Drop>(rt: &R, answer: Result<T, E>) -> T {
    match answer {
        Ok(value) => value,
        Err(why) => panic!(rt; "{why:?}"),
    }
}

/// The blocks of a history text, from which a test takes the entries that it needs.
pub(crate) fn blocks<R: Abort>(rt: &R, alloc: Global, text: &[u8]) -> Vec<History> {
    match read_history(alloc, text) {
        Ok(blocks) => blocks,
        Err(_) => panic!(rt; "a history"),
    }
}

/// The first of these blocks.
pub(crate) fn first<'a, R: Abort>(rt: &R, blocks: &'a [History]) -> &'a History {
    match blocks.first() {
        Some(block) => block,
        None => panic!(rt; "a block"),
    }
}

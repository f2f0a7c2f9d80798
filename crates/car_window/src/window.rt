//! The device: a car window in memory.
use std::sync::atomic::{AtomicU64, Ordering};

/// How many steps there are from open to closed.
pub(crate) const CLOSED: u64 = 8;

/// The step at which a window is open.
pub(crate) const OPEN: u64 = 0;

/// How far a window is closed, and how far it has been closed at most, in steps.
#[derive(Clone, Copy, PartialEq, Eq, Debug)]
pub(crate) struct Stand {
    pub(crate) position: u64,
    pub(crate) farthest: u64,
}

/// A window that a motor closes. If it meets something in its way it opens again; a broken one keeps closing.
#[derive(Drop)]
pub(crate) struct Window {
    position: AtomicU64,
    farthest: AtomicU64,
    obstacle: Option<u64>,
    is_broken: bool,
}

impl Window {
    /// An open window, with something in its way at this position or nothing.
    pub(crate) fn new(obstacle: Option<u64>, is_broken: bool) -> Window {
        Window {
            position: AtomicU64::new(OPEN),
            farthest: AtomicU64::new(OPEN),
            obstacle,
            is_broken,
        }
    }

    /// How far it is closed, and how far it has been closed at most.
    pub(crate) fn stand(&self) -> Stand {
        Stand {
            position: self.position.load(Ordering::SeqCst),
            farthest: self.farthest.load(Ordering::SeqCst),
        }
    }

    /// Moves it by a step; says whether it continues.
    pub(crate) fn step(&self) -> bool {
        let position = self.position.load(Ordering::SeqCst);
        if position >= CLOSED {
            return false;
        }
        if self.obstacle == Some(position) && !self.is_broken {
            self.position.store(OPEN, Ordering::SeqCst);
            return false;
        }
        self.farthest.store(position + 1, Ordering::SeqCst);
        self.position.store(position + 1, Ordering::SeqCst);
        true
    }
}

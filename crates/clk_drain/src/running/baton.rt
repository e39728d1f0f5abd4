//! The baton of a queue's producers.

use std::sync::atomic::{AtomicBool, Ordering};
use std::thread;

/// How often a producer looks for the baton before it goes on without it.
const LOOKS: u32 = 1_000;

/// The producers of one queue pass this on among them. The one that has it offers, so that their threads don't all push to the queue at the
/// same time, which takes longer. Nothing relies on it: a producer that has waited long enough goes on without it, and no order is
/// promised.
#[derive(Drop)]
pub struct Baton {
    held: AtomicBool,
}

impl Baton {
    /// A baton that nobody has.
    pub fn new() -> Baton {
        Baton {
            held: AtomicBool::new(false),
        }
    }

    /// Waits for the baton, but not for ever. Returns whether it was taken; if so, it has to be passed on.
    pub fn take(&self) -> bool {
        for _ in 0..LOOKS {
            if !self.held.load(Ordering::SeqCst) && !self.held.swap(true, Ordering::SeqCst) {
                return true;
            }
            thread::yield_now();
        }
        false
    }

    /// Lays the baton down. Another producer may take it, or the one that had it.
    pub fn pass_on(&self) {
        self.held.store(false, Ordering::SeqCst);
        thread::yield_now();
    }
}

//! Where the senders of a queue wait for one another, and say that they are done.

use std::process::Abort;
use std::sync::atomic::{AtomicU64, Ordering};
use std::thread;

// How many turns a sender waits for the others.
const TURNS: u32 = 100_000_000;

#[derive(Drop)]
pub struct Meeting {
    senders: u64,
    came: AtomicU64,
    closed: AtomicU64,
}

impl Meeting {
    // A meeting of so many senders.
    pub fn of(senders: usize) -> Meeting {
        Meeting {
            senders: senders as u64,
            came: AtomicU64::new(0),
            closed: AtomicU64::new(0),
        }
    }

    // One more has come, and waits until all have. The test fails if they don't come in time, as when each sender runs only after the one
    // before.
    pub fn wait_for_all(&self, rt: &impl Abort) {
        self.came.fetch_add(1, Ordering::SeqCst);
        assert!(rt; self.have_come(), "a sender waits for the others");
    }

    // Whether all come within some turns.
    fn have_come(&self) -> bool {
        for _ in 0..TURNS {
            if self.came.load(Ordering::SeqCst) >= self.senders {
                return true;
            }
            thread::yield_now();
        }
        false
    }

    // One more is done.
    pub fn leave(&self) {
        self.closed.fetch_add(1, Ordering::SeqCst);
    }

    // Whether all are done.
    pub fn is_over(&self) -> bool {
        self.closed.load(Ordering::SeqCst) == self.senders
    }
}

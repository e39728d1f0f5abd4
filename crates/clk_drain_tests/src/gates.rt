//! Gates that hold threads until others have come as far. They wait for turns, never for a time.

use clk_drain::Gate;
use std::sync::atomic::{AtomicU64, Ordering};
use std::thread;

/// How many turns a gate waits at most.
const TURNS: u32 = 1_000_000;

/// How many turns a gate waits to see that no more calls come.
const TURNS_AFTER: u32 = 1_000;

/// How often something was called, and how often a wait for a call was given up.
#[derive(Drop)]
pub struct Calls {
    count: AtomicU64,
    given_up: AtomicU64,
}

impl Calls {
    pub fn none() -> Calls {
        Calls {
            count: AtomicU64::new(0),
            given_up: AtomicU64::new(0),
        }
    }

    /// Counts a call.
    pub fn add(&self) {
        self.count.fetch_add(1, Ordering::SeqCst);
    }

    /// Waits until it was called `count` times, but gives up after some turns.
    pub fn wait_for(&self, count: u64) {
        for _ in 0..TURNS {
            if self.count.load(Ordering::SeqCst) >= count {
                return;
            }
            thread::yield_now();
        }
        self.given_up.fetch_add(1, Ordering::SeqCst);
    }

    /// How often it was called.
    pub fn count(&self) -> u64 {
        self.count.load(Ordering::SeqCst)
    }

    /// Whether no more calls come, as far as waiting for some turns can tell.
    pub fn have_ended(&self) -> bool {
        let count = self.count();
        for _ in 0..TURNS_AFTER {
            thread::yield_now();
        }
        self.count() == count
    }

    /// Whether no wait was given up.
    pub fn came(&self) -> bool {
        self.given_up.load(Ordering::SeqCst) == 0
    }
}

/// A gate that counts all calls.
#[derive(Drop)]
pub struct Counted {
    pub calls: Calls,
}

impl Gate for Counted {
    fn before(&self, _sender: u16, _number: u32) {
        self.calls.add();
    }

    fn pulled(&self, _device: u16, _n: u64) {
        self.calls.add();
    }
}

/// The second offers of two senders and the first pull wait for one another.
#[derive(Drop)]
pub struct AllMeet {
    pub calls: Calls,
}

impl AllMeet {
    fn meet(&self) {
        self.calls.add();
        self.calls.wait_for(3);
    }
}

impl Gate for AllMeet {
    fn before(&self, _sender: u16, number: u32) {
        if number == 1 {
            self.meet();
        }
    }

    fn pulled(&self, _device: u16, n: u64) {
        if n == 1 {
            self.meet();
        }
    }
}

/// The first pull ends only after the first offer, and the second offer comes only after the third pull.
#[derive(Drop)]
pub struct InTurns {
    pub offers: Calls,
    pub pulls: Calls,
}

impl Gate for InTurns {
    fn before(&self, _sender: u16, number: u32) {
        if number == 1 {
            self.offers.add();
            self.pulls.wait_for(3);
        }
    }

    fn pulled(&self, _device: u16, n: u64) {
        self.pulls.add();
        if n == 1 {
            self.offers.wait_for(1);
        }
    }
}

/// The second offer comes only after two pulls, and after some turns in which more pulls may be made.
#[derive(Drop)]
pub struct HeldForTwoPulls {
    pub pulls: Calls,
}

impl Gate for HeldForTwoPulls {
    fn before(&self, _sender: u16, number: u32) {
        if number == 1 {
            self.pulls.wait_for(2);
            self.pulls.have_ended();
        }
    }

    fn pulled(&self, _device: u16, _n: u64) {
        self.pulls.add();
    }
}

/// The first pull of device 0 and the first of device 1 wait for each other, and the first offer of sender 0 waits for both.
#[derive(Drop)]
pub struct DevicesMeet {
    pub first: Calls,
    pub second: Calls,
}

impl DevicesMeet {
    fn wait_for_both(&self) {
        self.first.wait_for(1);
        self.second.wait_for(1);
    }
}

impl Gate for DevicesMeet {
    fn before(&self, sender: u16, number: u32) {
        if sender == 0 && number == 0 {
            self.wait_for_both();
        }
    }

    fn pulled(&self, device: u16, n: u64) {
        if n == 1 {
            match device {
                0 => self.first.add(),
                1 => self.second.add(),
                _ => {}
            }
            self.wait_for_both();
        }
    }
}

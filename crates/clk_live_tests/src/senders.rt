//! What senders do on threads of their own.

ghost use Rattle.std.specs.Prelude.{◌≤◌};

use crate::steps::token_of;
use clk_inlet::{Inlet, Refusal};
use std::sync::Wait;
use std::sync::atomic::{AtomicU64, Ordering};
use std::thread;

/// How many packets the senders that have some send.
pub const PACKETS: u32 = 3000;

/// The senders, and how many packets each sends. The last ends at once.
pub const SENDERS: [(u16, u32); 4] = [(2, PACKETS), (4, PACKETS), (6, PACKETS), (8, 0)];

// The sender that drops its inlet instead of ending it.
const DROPS: u16 = 2;

// How many turns a gate waits at most.
const TURNS: u32 = 1_000_000;

/// The length of the packet with this number, in bytes.
pub fn length_of(number: u32) -> u16
    ensures { 1 ≤ result }
{
    1 + (number % 1500) as u16
}

/// What a sender's thread has.
#[derive(Drop)]
pub struct Job {
    pub inlet: Inlet,
    pub sender: u16,
    pub packets: u32,
}

// Offers the packet with this number until it is accepted. Returns whether it was accepted under this number.
fn offer(rt: &impl Wait, inlet: &mut Inlet, sender: u16, number: u32) -> bool {
    for _ in rt.forever() {
        match inlet.offer(length_of(number), token_of(sender, number)) {
            Ok(told) => return told == number,
            Err(Refusal::Full) => thread::yield_now(),
            Err(Refusal::AtEnd) => break,
        }
    }
    false
}

/// Offers all packets of a sender, and ends its inlet or drops it. Returns how many were accepted under their numbers.
pub fn send(rt: &impl Wait, job: Job) -> u32 {
    let Job {
        mut inlet,
        sender,
        packets,
    } = job;
    let accepted = (0..packets)
        .filter(|number| offer(rt, &mut inlet, sender, *number))
        .count();
    if sender != DROPS {
        inlet.end();
    }
    accepted as u32
}

/// A gate that holds a thread until another opens it. It waits for turns, never for a time.
#[derive(Drop)]
pub struct Gate {
    opened: AtomicU64,
}

impl Gate {
    /// A gate that is shut.
    pub fn shut() -> Gate {
        Gate {
            opened: AtomicU64::new(0),
        }
    }

    /// Opens the gate.
    pub fn open(&self) {
        self.opened.store(1, Ordering::SeqCst);
    }

    // Waits until the gate is open, but only for some turns. Returns whether it is open.
    fn wait(&self) -> bool {
        for _ in 0..TURNS {
            if self.opened.load(Ordering::SeqCst) == 1 {
                return true;
            }
            thread::yield_now();
        }
        false
    }
}

/// Offers a packet, and a second after the gate is open. Returns whether the gate was opened and both were accepted.
pub fn send_through(rt: &impl Wait, inlet: Inlet, sender: u16, gate: &Gate) -> bool {
    let mut inlet = inlet;
    let first = offer(rt, &mut inlet, sender, 0);
    let opened = gate.wait();
    let second = offer(rt, &mut inlet, sender, 1);
    first && opened && second
}

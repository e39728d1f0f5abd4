//! A ring that threads share under a lock. It has a crate of its own, since a library for C links nothing that may wait.
#![tactic(auto)]

ghost use Rattle.std.specs.Prelude.{◌≤◌, IsOkUnless};
ghost use Rattle.clk_packet.specs.declared.limits.TheConstants.{MAX_CAPACITY};
ghost use Rattle.clk_ring.specs.QueueHistory.{NamesOffer};

use clk_packet::{Fault, Kind, Offered, Packet};
use clk_ring::Ring;
use std::alloc::Global;
use std::sync::{Mutex, Wait};

/// A ring under a lock, for any number of threads. Each call does what the ring's does, while it has the lock. No caller knows what the
/// ring held before, so a contract says only that a refusal names the packet offered.
#[derive(Drop)]
pub struct Locked {
    ring: Mutex<Ring>,
}

impl Locked {
    /// An empty queue of this kind that holds at most `capacity` packets, from 1 to 1,000,000. Its memory is allocated here.
    ///
    /// # Errors
    ///
    /// Fault 1 if an allocation fails.
    pub fn new(alloc: Global, kind: Kind, capacity: usize) -> Result<Locked, Fault>
        requires capacity { (1 ≤ capacity) × (capacity ≤ MAX_CAPACITY) }
        ensures { IsOkUnless result Fault.Memory }
    {
        Ok(Locked {
            ring: Mutex::new(Ring::new(alloc, kind, capacity)?),
        })
    }

    /// Offers a packet, as `Ring::offer` does. Waits for the lock.
    pub fn offer(&self, wait: &impl Wait, packet: Packet) -> Offered
        ensures { NamesOffer packet result }
    {
        self.ring.lock(wait).offer(packet)
    }

    /// Takes the packet at the front, if there is one. Waits for the lock.
    pub fn pull(&self, wait: &impl Wait) -> Option<Packet> {
        self.ring.lock(wait).pull()
    }
}

//! A bounded queue of packets, first in, first out.

ghost use Rattle.std.specs.Prelude.{◌≡◌, ◌≤◌, length};

use circular_buffer::HeapCircularBuffer;
use clk_packet::{Fault, Kind, Offered, Packet};
use std::alloc::Global;
use std::marker::Model;

/// A queue of packets, first in, first out, that holds no more than its capacity. Its kind says what it does with a packet that arrives
/// when it is full.
///
/// A packet takes eight bytes. The memory for all of them is allocated when the ring is made, and the system provides it as it is first
/// used. An offer and a pull take the same time at any capacity.
#[derive(Drop)]
pub struct Ring {
    kind: Kind,
    held: HeapCircularBuffer<Packet>,
}

impl Model for Ring {
    ghost use Rattle.std.specs.Prelude.{◌≤◌, length};
    ghost use Rattle.clk_ring.specs.Queue.{Queue};

    ghost Value = { Queue };

    ghost view = { λ r. record { kind = r.kind; capacity = r.held.capacity; packets = r.held.items } };

    ghost invariant = { λ r. (1 ≤ r.held.capacity) × (length r.held.items ≤ r.held.capacity) };
}

impl Ring {
    ghost use Rattle.std.specs.Prelude.{◌≡◌, ◌≤◌, ◌↔◌, length, [], IsTrue, IfOk, IsOkUnless};
    ghost use Rattle.clk_packet.specs.declared.limits.TheConstants.{MAX_CAPACITY};
    ghost use Rattle.clk_ring.specs.Queue.{empty_queue, IsOffered, IsPulled};

    /// An empty queue of this kind that holds at most `capacity` packets, from 1 to 1,000,000. Its memory is allocated here.
    ///
    /// # Errors
    ///
    /// Fault 1 if an allocation fails.
    pub fn new(alloc: Global, kind: Kind, capacity: usize) -> Result<Ring, Fault>
        requires capacity { (1 ≤ capacity) × (capacity ≤ MAX_CAPACITY) }
        ensures empty { IfOk result (λ ring. ring ≡ empty_queue kind capacity) }
        ensures fault { IsOkUnless result Fault.Memory }
    {
        Ok(Ring {
            kind,
            held: HeapCircularBuffer::with_capacity(alloc, capacity)?,
        })
    }

    /// Offers a packet. With room left it goes to the back. A full queue refuses it (Click: Queue), or evicts the packet at its front and
    /// accepts it (Click: FrontDropQueue).
    pub fn offer(&mut self, packet: Packet) -> Offered
        ensures { IsOffered self.old packet result self.new }
    {
        let Err(packet) = self.held.try_push_back(packet) else {
            return Offered::Accepted;
        };
        match self.kind {
            Kind::TailDrop => Offered::Refused(packet),
            Kind::FrontDrop => match self.held.push_back(packet) {
                Some(front) => Offered::Evicted(front),
                None => unreachable!(),
            },
        }
    }

    /// Takes the packet at the front, if there is one.
    pub fn pull(&mut self) -> Option<Packet>
        ensures { IsPulled self.old result self.new }
    {
        self.held.pop_front()
    }

    /// How many packets it holds.
    pub fn len(&self) -> usize
        ensures len { result ≡ length self.now.packets }
        ensures within { result ≤ self.now.capacity }
    {
        self.held.len()
    }

    /// Whether it holds no packet.
    pub fn is_empty(&self) -> bool
        ensures { IsTrue result ↔ self.now.packets ≡ [] }
    {
        self.held.is_empty()
    }

    /// What it does with a packet that arrives when it is full.
    pub fn kind(&self) -> Kind
        ensures { result ≡ self.now.kind }
    {
        self.kind
    }

    /// How many packets it holds at most.
    pub fn capacity(&self) -> usize
        ensures capacity { result ≡ self.now.capacity }
        ensures some { 1 ≤ result }
    {
        self.held.capacity()
    }
}

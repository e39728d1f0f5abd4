//! The queues of a router.

ghost use Rattle.std.specs.Prelude.{◌≡◌, ◌<◌, length, map, nat_lt, IfOk, IsOkUnless};
ghost use Rattle.std.specs.List.{AllByRecursion};
ghost use Rattle.clk_tree.specs.PlanParts.{queued, HasCapacity};
ghost use Rattle.clk_router.specs.inside.Queues.{packets_at, AreFilled, queue_made, OffersAt, GivesAt};

use crate::filled::Filled;
use clk_packet::{Fault, Offered, Packet};
use clk_ring::Ring;
use clk_sched::{Ask, Backlog};
use clk_tree::QueueSpec;
use std::alloc::Global;

/// The queues, by number.
#[derive(Drop)]
pub struct Queues {
    pub rings: Vec<Ring>,
    // The queues that may hold a packet. All others are skipped.
    filled: Filled,
    ghost filled_are: { AreFilled rings.items filled.words.items },
}

impl Queues {
    /// Empty queues, with the kinds and capacities of these. Fault 1 if an allocation fails.
    pub fn new(alloc: Global, specs: &[QueueSpec]) -> Result<Queues, Fault>
        requires capacities { AllByRecursion HasCapacity (map queued specs.now) }
        ensures made { IfOk result (λ queues. queues.rings.items ≡ map queue_made (map queued specs.now)) }
        ensures fault { IsOkUnless result Fault.Memory }
    {
        let mut rings = Vec::new(alloc);
        let filled = Filled::none(alloc, specs.len())?;
        for spec in specs {
            rings.push(Ring::new(alloc, spec.kind, spec.capacity as usize)?)?;
        }
        Ok(Queues { rings, filled })
    }

    /// Offers a packet to a queue that exists.
    #[inline]
    pub fn offer(&mut self, queue: u16, packet: Packet) -> Offered
        requires is_there { queue < length self.old.rings.items }
        ensures { OffersAt self.old.rings.items queue packet result self.new.rings.items }
    {
        let ring = &mut self.rings[usize::from(queue)];
        // One that holds a packet is in the set already.
        if ring.is_empty() {
            self.filled.add(queue);
        }
        ring.offer(packet)
    }
}

impl Ask for Queues {
    ghost has = { λ s leaf. nat_lt leaf (length s.rings.items) };

    ghost holds = { λ s leaf. length (packets_at s.rings.items leaf) };

    ghost gives = { λ old leaf got new. GivesAt old.rings.items leaf got new.rings.items };

    fn ask(&mut self, leaf: u16) -> Option<Packet> {
        let number = usize::from(leaf);
        if number >= self.rings.len() {
            return None;
        }
        let ring = &mut self.rings[number];
        let got = ring.pull();
        if got.is_some() && ring.is_empty() {
            self.filled.remove(leaf);
        }
        got
    }

    fn idle_from(&self, leaf: u16, count: u16) -> u16 {
        count.min(self.filled.none_from(leaf))
    }
}

impl Backlog for Queues {
    ghost backlogged = { λ s leaf. nat_lt 0 (length (packets_at s.rings.items leaf)) };

    fn is_backlogged(&self, leaf: u16) -> bool {
        match self.rings.get(usize::from(leaf)) {
            Some(ring) => !ring.is_empty(),
            None => false,
        }
    }
}

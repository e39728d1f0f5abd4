//! A shared queue of a tree, once all its seats are closed.

ghost use Rattle.std.specs.Prelude.{◌≡◌, true};
ghost use Rattle.std.specs.List.{AllByRecursion};
ghost use Rattle.clk_ruled.specs.Settle.{AreOpenedTogether, lists_of};

use crate::at_leaf::AtLeaf;
use clk_packet::{Fault, Packet, Tally};
use clk_ruled::{ClosedSeat, RuledQueue, Tap, calls_keep_together, settle};
use std::alloc::Global;
use std::marker::Model;
use std::sync::Wait;

/// A shared queue with the leaf at which it stands, its tap, and all of its seats, closed, in the order of `open`.
#[derive(Drop)]
pub struct Line {
    /// The leaf's number in the tree.
    pub leaf: u16,
    pub queue: RuledQueue,
    pub tap: Tap,
    pub closed: Vec<ClosedSeat>,
}

impl Model for Line {
    ghost use Rattle.clk_ruled.specs.Settle.{AreOpenedTogether};
    ghost use Rattle.clk_drain.specs.Line.{LineLists};

    ghost Value = { LineLists };

    ghost view = { λ l. record { leaf = l.leaf; tap = l.tap; closed = l.closed.items } };

    ghost invariant = { λ l. AreOpenedTogether l.queue l.tap l.closed.items };
}

impl AtLeaf for Line {
    ghost leaf = { λ l. l.leaf };

    fn leaf(&self) -> u16 {
        self.leaf
    }
}

impl Line {
    ghost use Rattle.std.specs.Prelude.{◌≡◌, ◌≤◌, List, None, IfOk, IfErr};
    ghost use Rattle.clk_packet.specs.declared.packet.Packet.{Packet};
    ghost use Rattle.clk_ruled.specs.Settle.{IsSettled, IsFaultOfSettle, AreTogether, accepted_count, evicted_count};
    ghost use Rattle.clk_sched.specs.declared.limits.TheConstants.{MAX_LEFT};
    ghost use Rattle.clk_drain.specs.Line.{pulling, packets_of, seats_of};
    ghost use Rattle.clk_drain.specs.Parts.{HasGathered, IsWithin, HasAllTaken};
    ghost use Rattle.clk_drain.specs.inside.Parts.{IsGatheredFrom};

    /// Pulls the packet at the front of the queue, or returns `None` if it finds the queue empty. Doesn't allocate.
    pub fn pull(&mut self, wait: &impl Wait) -> Option<Packet>
        ensures pulled { self.new ≡ pulling self.old (packets_of result) }
        // With every seat gathered, no more packets are taken than were accepted and not evicted, and `None` is returned only if all of
        // these were taken.
        ensures within { HasGathered self.new → IsWithin self.new }
        ensures none { result ≡ None → HasGathered self.new → HasAllTaken self.new }
    {
        calls_keep_together();
        self.tap.pull(&self.queue, wait)
    }

    // Has the tap take over the lists of each seat.
    pub(crate) fn gather(&mut self)
        ensures gathered { IsGatheredFrom self.old self.new }
    {
        gather_seats(&self.queue, &mut self.tap, &mut self.closed);
        // By this law no more packets were taken than were accepted and not evicted.
        self.tap.stays_within();
    }

    // How many packets the queue accepted.
    pub(crate) fn accepted(&self) -> u64
        requires few { accepted_count (seats_of self.now) ≤ MAX_LEFT }
        ensures { result ≡ accepted_count (seats_of self.now) }
    {
        let mut accepted = 0;
        for seat in &self.closed {
            accepted += seat.count_accepted() as u64;
        }
        accepted
    }

    // How many packets the queue evicted.
    pub(crate) fn evicted(&self) -> u64
        requires few { evicted_count (seats_of self.now) ≤ MAX_LEFT }
        ensures { result ≡ evicted_count (seats_of self.now) }
    {
        let mut evicted = 0;
        for seat in &self.closed {
            evicted += seat.evicted().len() as u64;
        }
        evicted
    }

    // Settles the queue. Returns the tallies of its senders.
    pub(crate) fn settle(self, alloc: Global) -> Result<Vec<Tally>, Fault>
        ensures together { AreTogether self.tap self.closed }
        ensures settled { IfOk result (λ tallies. (pulled : List Packet) × IsSettled self.tap self.closed pulled tallies.items) }
        ensures fault { IfErr result (IsFaultOfSettle self.tap self.closed self.leaf) }
    {
        let settled = settle(alloc, self.queue, self.tap, self.closed, self.leaf)?;
        Ok(settled.tallies)
    }
}

// Has the tap take over the lists of each seat.
fn gather_seats(queue: &RuledQueue, tap: &mut Tap, closed: &mut [ClosedSeat])
    requires together { AreOpenedTogether queue.now tap.old closed.old }
    ensures together { AreOpenedTogether queue.now tap.new closed.new }
    ensures setup { tap.new.setup ≡ tap.old.setup }
    ensures taken { tap.new.taken ≡ tap.old.taken }
    ensures seats { lists_of closed.new ≡ lists_of closed.old }
    ensures all { AllByRecursion (λ c. c.is_gathered ≡ true) closed.new }
{
    calls_keep_together();
    for seat in closed {
        tap.gather(queue, seat);
    }
}

//! The tap of a shared queue.

use crate::closed::ClosedSeat;
use crate::protocol::{Gather, Pull};
use crate::queue::{Line, RuledQueue};
use crate::taken::TakenPackets;
use crate::view::View;
use clk_packet::Packet;
use crossbeam_queue::Pass;
use std::marker::Model;
use std::sync::Wait;

/// The tap of a shared queue. If it keeps the packets that it pulls, the memory for them was allocated when the queue was opened. Contracts
/// speak of these packets, kept or not.
#[derive(Drop)]
pub struct Tap {
    pass: Pass<Packet, View>,
    taken: TakenPackets,
}

impl Model for Tap {
    ghost use Rattle.std.specs.Prelude.{◌≡◌, ◌≤◌, [], true, vec_capacity};
    ghost use Rattle.crossbeam_queue.specs.Passes.{view as known};
    ghost use Rattle.clk_ruled.specs.Rooms.{rooms_in_all};
    ghost use Rattle.clk_ruled.specs.Queue.{TapLists};
    ghost use Rattle.clk_ruled.specs.inside.Parts.{TapKeeps};

    ghost Value = { TapLists };

    ghost view = { λ t. record {
      id = t.pass.table_id;
      setup = (known t.pass).setup;
      keeps = t.taken.keeps;
      taken = (known t.pass).taken;
      gathered = (known t.pass).gathered;
    } };

    ghost invariant = { λ t. TapKeeps (known t.pass) × (t.pass.me.1 ≡ [])
        × (t.taken.keeps ≡ true → t.taken.packets.items ≡ (known t.pass).taken)
        × (t.taken.keeps ≡ true → rooms_in_all (known t.pass).setup.rooms ≤ vec_capacity t.taken.packets) };
}

impl Tap {
    ghost use Rattle.std.specs.Prelude.{◌≡◌, ℕ, ◌≤◌, ◌+◌, true, false, List, [], length, None, vec_capacity};
    ghost use Rattle.crossbeam_queue.specs.Passes.{view as known, IsPassOf};
    ghost use Rattle.clk_packet.specs.Lists.{of_sender, AreRising};
    ghost use Rattle.clk_ruled.specs.PacketLists.{packet_numbers};
    ghost use Rattle.clk_ruled.specs.Rooms.{rooms_in_all};
    ghost use Rattle.clk_ruled.specs.Queue.{ClosedLists, IsTapOf, IsPulled, AreOfSenders, AreAllGathered, accepted_in_all, evicted_in_all, gathering, empty_tap};
    ghost use Rattle.clk_ruled.specs.Settle.{HasAllSeats, IsAccounted, IsTakenWithin, IsAllTaken};

    // The tap of a queue that is open. `taken` has room for all packets that it may pull, if it keeps them.
    pub(crate) fn fresh(line: &Line, pass: Pass<Packet, View>, taken: TakenPackets) -> Tap
        requires queue { IsPassOf line.now pass }
        requires taps { ((known pass).taps ≡ true) × ((known pass).taken ≡ []) × ((known pass).gathered ≡ []) × (1 ≤ (known pass).setup.capacity) }
        requires none { taken.packets.items ≡ [] }
        requires room { taken.keeps ≡ true → rooms_in_all (known pass).setup.rooms ≤ vec_capacity taken.packets }
        ensures { result ≡ empty_tap taken.keeps pass.table_id (known pass).setup }
    {
        let mut pass = pass;
        line.learn_as::<Pull>(&mut pass);
        Tap { pass, taken }
    }

    /// Pulls the packet at the front of the queue that the tap was opened with, or returns `None` if it finds the queue empty. Does not
    /// allocate.
    pub fn pull(&mut self, queue: &RuledQueue, wait: &impl Wait) -> Option<Packet>
        requires together { IsTapOf queue.now self.old }
        ensures pulled { IsPulled self.old result self.new }
        ensures rises { (s : ℕ) → AreRising (packet_numbers (of_sender s self.new.taken)) }
        ensures known { AreOfSenders self.new.setup self.new.taken }
        // No more packets are pulled than may be offered.
        ensures room { length self.new.taken ≤ rooms_in_all self.new.setup.rooms }
        // With every seat gathered, no more packets are pulled than were accepted and not evicted. A pull returns `None` only if they are
        // as many.
        ensures within { AreAllGathered self.new → length self.new.taken + evicted_in_all self.new.gathered ≤ accepted_in_all self.new.gathered }
        ensures none { result ≡ None → AreAllGathered self.new → length self.new.taken + evicted_in_all self.new.gathered ≡ accepted_in_all self.new.gathered }
        // If all closed seats are gathered, the same bounds hold of their lists.
        ensures seats_within { (closed : List ClosedLists) → HasAllSeats self.new closed → IsTakenWithin self.new closed }
        ensures seats_none { result ≡ None → (closed : List ClosedLists) → HasAllSeats self.new closed → IsAllTaken self.new closed }
    {
        let pulled = queue.line.pop_as::<Pull, _>(wait, &mut self.pass);
        self.taken.add(pulled);
        pulled
    }

    /// Takes over the lists of a closed seat that was opened together with the tap. The seat keeps its lists too. Gathering it again
    /// changes nothing. Does not allocate.
    pub fn gather(&mut self, queue: &RuledQueue, seat: &mut ClosedSeat)
        requires together { IsTapOf queue.now self.old }
        requires seat { (seat.old.lists.id ≡ self.old.id) × (seat.old.lists.setup ≡ self.old.setup) }
        ensures seat { seat.new ≡ record { lists = seat.old.lists; is_gathered = true } }
        ensures gathers { seat.old.is_gathered ≡ false → self.new ≡ gathering self.old seat.old.lists }
        ensures again { seat.old.is_gathered ≡ true → self.new ≡ self.old }
        // With every seat gathered, no more packets are pulled than were accepted and not evicted.
        ensures within { AreAllGathered self.new → length self.new.taken + evicted_in_all self.new.gathered ≤ accepted_in_all self.new.gathered }
    {
        // Reading a field brings the type invariant into scope, also if the seat was gathered before.
        let _pass = &self.pass;
        if seat.gathered {
            return;
        }
        let theirs = seat.give_up(&queue.line);
        queue.line.absorb::<Gather>(&mut self.pass, theirs);
        queue.line.learn_as::<Pull>(&mut self.pass);
    }

    /// Does nothing. Its contract says that packets are accounted for, and that no more are pulled than were accepted and not evicted.
    pub fn stays_within(&self)
        ensures accounted { IsAccounted self.now }
        ensures seats_within { (closed : List ClosedLists) → HasAllSeats self.now closed → IsTakenWithin self.now closed }
    {
        // Reading a field brings the type invariant into scope.
        let _pass = &self.pass;
    }
    /// The packets that the tap pulled, in order, if it keeps them.
    pub fn taken(&self) -> &[Packet]
        ensures taken { self.now.keeps ≡ true → result.now ≡ self.now.taken }
        // With closed seats that are all gathered, no more packets were pulled than their lists have accepted and not evicted.
        ensures seats_within { (closed : List ClosedLists) → HasAllSeats self.now closed → IsTakenWithin self.now closed }
    {
        self.stays_within();
        self.taken.packets.as_slice()
    }

    // The packets that the tap pulled, if it keeps them. Does not allocate.
    pub(crate) fn into_taken(self) -> Vec<Packet>
        ensures { self.keeps ≡ true → result.items ≡ self.taken }
    {
        self.taken.packets
    }
}

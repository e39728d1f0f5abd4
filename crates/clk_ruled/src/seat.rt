//! The seats of a shared queue, which offer packets to it: one for each sender.

ghost use Rattle.std.specs.Prelude.{◌≡◌, ◌≤◌, ◌<◌, ◌∷◌, ◌++◌, [], length, vec_capacity};

use crate::accepted::AcceptedPackets;
use crate::closed::ClosedSeat;
use crate::protocol::{Accept, Evict};
use crate::queue::RuledQueue;
use crate::view::View;
use clk_packet::{Fault, Kind, Offered, Packet, Packets};
use crossbeam_queue::Pass;
use std::alloc::Global;
use std::marker::Model;
use std::sync::Wait;

/// The seat of one sender at a shared queue. It knows which of its packets were accepted and refused, and which packets were evicted for
/// them. The memory for this was allocated when the queue was opened.
#[derive(Drop)]
pub struct Seat {
    pass: Pass<Packet, View>,
    sender: u16,
    room: u32,
    next: u32,
    accepted: AcceptedPackets,
    refused: Vec<Packet>,
    evicted: Vec<Packet>,
}

impl Model for Seat {
    ghost use Rattle.std.specs.Prelude.{◌≡◌, ◌≤◌, [], vec_capacity};
    ghost use Rattle.crossbeam_queue.specs.Passes.{view as known};
    ghost use Rattle.clk_ruled.specs.Queue.{SeatLists};
    ghost use Rattle.clk_ruled.specs.inside.Parts.{SeatFits};

    ghost Value = { SeatLists };

    ghost view = { λ s. record { id = s.pass.table_id; setup = (known s.pass).setup; sender = s.sender; room = s.room; next = s.next; accepted = s.accepted.all.items; refused = s.refused.items; evicted = s.evicted.items } };

    ghost invariant = { λ s. SeatFits (known s.pass) s.sender s.room s.next s.accepted.all.items s.refused.items s.evicted.items × (s.pass.me.1 ≡ []) × (s.room ≤ vec_capacity s.accepted.lengths) × (s.room ≤ vec_capacity s.refused) × (s.room ≤ vec_capacity s.evicted) };
}

impl Seat {
    ghost use Rattle.std.specs.Prelude.{◌≡◌, ◌<◌, ◌≤◌, ◌∷◌, [], length, false, IfOk, IsOkUnless};
    ghost use Rattle.crossbeam_queue.specs.Passes.{view as known};
    ghost use Rattle.clk_ruled.specs.Rooms.{room_of};
    ghost use Rattle.clk_ruled.specs.inside.Rule.{seat_view};
    ghost use Rattle.clk_packet.specs.declared.packet.Offered.TheVariants.{Refused};
    ghost use Rattle.clk_ruled.specs.Queue.{IsSeatOf, IsOffered, IsSharedOut, empty_seat};

    // The seat of a sender that may offer so many packets, before its first offer.
    pub(crate) fn fresh(
        alloc: Global,
        pass: Pass<Packet, View>,
        sender: u16,
        room: u32,
    ) -> Result<Seat, Fault>
        requires pass { pass.me.1 ≡ [] }
        requires seat { known pass ≡ seat_view (known pass).setup sender [] [] }
        requires some { 1 ≤ (known pass).setup.capacity }
        requires room { room_of (known pass).setup.rooms sender ≡ room }
        ensures fresh { IfOk result (λ seat. seat ≡ empty_seat pass.table_id (known pass).setup (sender, room)) }
        ensures fault { IsOkUnless result Fault.Memory }
    {
        Ok(Seat {
            pass,
            sender,
            room,
            next: 0,
            accepted: AcceptedPackets::none(alloc, room as usize)?,
            refused: Vec::with_capacity(alloc, room as usize)?,
            evicted: Vec::with_capacity(alloc, room as usize)?,
        })
    }

    /// Offers the sender's next packet to the queue that the seat was opened with. A full Queue refuses it. A full FrontDropQueue accepts
    /// it, and evicts the packet at its front, of whichever sender. Does not allocate.
    pub fn offer(&mut self, queue: &RuledQueue, wait: &impl Wait, packet: Packet) -> Offered
        requires together { IsSeatOf queue.now self.old }
        requires own { packet.sender ≡ self.old.sender }
        requires number { packet.number ≡ self.old.next }
        requires room { self.old.next < self.old.room }
        ensures offered { IsOffered self.old packet result self.new }
        // A packet of a seat that is alone at its queue is refused only if the queue accepted as many packets as it may hold.
        ensures lone { self.old.setup.rooms ≡ (self.old.sender, self.old.room) ∷ [] → result ≡ Refused packet → self.old.setup.capacity ≤ length self.new.accepted }
    {
        self.next += 1;
        match queue.kind {
            Kind::TailDrop => match queue
                .line
                .push_as::<Accept, _>(wait, &mut self.pass, packet)
            {
                Ok(()) => {
                    self.accepted.add(packet);
                    Offered::Accepted
                }
                Err(packet) => {
                    note(&mut self.refused, packet);
                    Offered::Refused(packet)
                }
            },
            Kind::FrontDrop => match queue
                .line
                .force_push_as::<Accept, Evict, _>(wait, &mut self.pass, packet)
            {
                None => {
                    self.accepted.add(packet);
                    Offered::Accepted
                }
                Some(front) => {
                    self.accepted.add(packet);
                    note(&mut self.evicted, front);
                    Offered::Evicted(front)
                }
            },
        }
    }

    /// Closes the seat, at any time: it offers nothing more, and its lists stay as they are. Does not allocate.
    pub fn close(self) -> ClosedSeat
        ensures { result ≡ record { lists = self; is_gathered = false } }
    {
        ClosedSeat {
            pass: self.pass,
            sender: self.sender,
            room: self.room,
            next: self.next,
            accepted: self.accepted,
            refused: self.refused,
            evicted: self.evicted,
            gathered: false,
        }
    }

    /// The sender's number.
    pub fn sender(&self) -> u16
        ensures { result ≡ self.now.sender }
    {
        self.sender
    }

    /// How many packets the seat offered, which is the number of its next packet.
    pub fn next(&self) -> u32
        ensures next { result ≡ self.now.next }
        ensures within { result ≤ self.now.room }
        ensures shares { IsSharedOut self.now }
    {
        self.next
    }

    /// How many packets the sender may offer.
    pub fn room(&self) -> u32
        ensures { result ≡ self.now.room }
    {
        self.room
    }

    /// How many packets the queue accepted.
    pub fn count_accepted(&self) -> usize
        ensures count { result ≡ length self.now.accepted }
        ensures shares { IsSharedOut self.now }
    {
        self.accepted.len()
    }

    /// Lists the packets that the queue accepted, by rising number. Takes time in proportion to the packets that the seat offered.
    ///
    /// # Errors
    ///
    /// Fault 1 if an allocation fails.
    pub fn accepted(&self, alloc: Global) -> Result<Packets, Fault>
        ensures accepted { IfOk result (λ accepted. accepted ≡ self.now.accepted) }
        ensures shares { IsSharedOut self.now }
        ensures fault { IsOkUnless result Fault.Memory }
    {
        let refused = self.refused.as_slice();
        let accepted = self.accepted.list(alloc, self.sender, self.next, refused)?;
        Ok(Packets::from(accepted))
    }

    /// The packets that the queue refused, by rising number.
    pub fn refused(&self) -> &[Packet]
        ensures refused { result.now ≡ self.now.refused }
        ensures shares { IsSharedOut self.now }
    {
        self.refused.as_slice()
    }

    /// The packets that the queue evicted for this seat's, in order. They may be of any sender.
    pub fn evicted(&self) -> &[Packet]
        ensures { result.now ≡ self.now.evicted }
    {
        self.evicted.as_slice()
    }
}

// Adds an item to a list that has room for it.
pub(crate) fn note<T: Copy>(list: &mut Vec<T>, item: T)
    requires { length list.old.items < vec_capacity list.old }
    ensures items { list.new.items ≡ list.old.items ++ item ∷ [] }
    ensures capacity { vec_capacity list.old ≤ vec_capacity list.new }
{
    let _ = list.push(item);
}

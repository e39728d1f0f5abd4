//! Seats of a shared queue that were closed.

use crate::accepted::AcceptedPackets;
use crate::protocol::Retire;
use crate::queue::Line;
use crate::view::View;
use clk_packet::{Fault, Packet, Packets};
use crossbeam_queue::Pass;
use std::alloc::Global;
use std::marker::Model;
use std::mem;

/// A seat that was closed. It still tells what was accepted, refused and evicted.
#[derive(Drop)]
pub struct ClosedSeat {
    pub(crate) pass: Pass<Packet, View>,
    pub(crate) sender: u16,
    pub(crate) room: u32,
    pub(crate) next: u32,
    pub(crate) accepted: AcceptedPackets,
    pub(crate) refused: Vec<Packet>,
    pub(crate) evicted: Vec<Packet>,
    pub(crate) gathered: bool,
}

impl Model for ClosedSeat {
    ghost use Rattle.std.specs.Prelude.{◌≡◌, ◌≤◌, [], false};
    ghost use Rattle.crossbeam_queue.specs.Passes.{view as known};
    ghost use Rattle.clk_packet.specs.declared.packet.Kind.TheVariants.{FrontDrop};
    ghost use Rattle.clk_ruled.specs.Queue.{ClosedLists, IsShared};
    ghost use Rattle.clk_ruled.specs.inside.Parts.{SeatFits};

    ghost Value = { ClosedLists };

    ghost view = { λ c. record { lists = record { id = c.pass.table_id; setup = (known c.pass).setup; sender = c.sender; room = c.room; next = c.next; accepted = c.accepted.all.items; refused = c.refused.items; evicted = c.evicted.items }; is_gathered = c.gathered } };

    ghost invariant = { λ c. (c.gathered ≡ false → SeatFits (known c.pass) c.sender c.room c.next c.accepted.all.items c.refused.items c.evicted.items) × (c.pass.me.1 ≡ []) × (c.next ≤ c.room) × IsShared c.sender c.next c.accepted.all.items c.refused.items × ((known c.pass).setup.kind ≡ FrontDrop → c.refused.items ≡ []) };
}

impl ClosedSeat {
    ghost use Rattle.std.specs.Prelude.{◌≡◌, ◌≤◌, true, false, length, IfOk, IsOkUnless};
    ghost use Rattle.crossbeam_queue.specs.Passes.{view as known, IsPassOf};
    ghost use Rattle.clk_ruled.specs.Queue.{IsSharedOut};

    // Gives its pass away, for the tap to gather, and keeps one that neither sits nor taps.
    pub(crate) fn give_up(&mut self, line: &Line) -> Pass<Packet, View>
        requires queue { self.old.lists.id ≡ line.now.table.shared.table_id }
        requires seat { self.old.is_gathered ≡ false }
        ensures seat { self.new ≡ record { lists = self.old.lists; is_gathered = true } }
        ensures queue { IsPassOf line.now result }
        ensures sits { (known result).sits ≡ true }
        ensures lists { ((known result).sender ≡ self.old.lists.sender) × ((known result).accepted ≡ self.old.lists.accepted) × ((known result).evicted ≡ self.old.lists.evicted) }
    {
        self.gathered = true;
        let retired = line.another::<Retire>(&mut self.pass);
        mem::replace(&mut self.pass, retired)
    }

    /// The sender's number.
    pub fn sender(&self) -> u16
        ensures { result ≡ self.now.lists.sender }
    {
        self.sender
    }

    /// How many packets the seat offered, which is the number that its next packet would have.
    pub fn next(&self) -> u32
        ensures next { result ≡ self.now.lists.next }
        ensures within { result ≤ self.now.lists.room }
        ensures shares { IsSharedOut self.now.lists }
    {
        self.next
    }

    /// How many packets the sender may offer.
    pub fn room(&self) -> u32
        ensures { result ≡ self.now.lists.room }
    {
        self.room
    }

    /// How many packets the queue accepted.
    pub fn count_accepted(&self) -> usize
        ensures count { result ≡ length self.now.lists.accepted }
        ensures shares { IsSharedOut self.now.lists }
    {
        self.accepted.len()
    }

    /// Lists the packets that the queue accepted, by rising number. Takes time in proportion to the packets that the seat offered.
    ///
    /// # Errors
    ///
    /// Fault 1 if an allocation fails.
    pub fn accepted(&self, alloc: Global) -> Result<Packets, Fault>
        ensures accepted { IfOk result (λ accepted. accepted ≡ self.now.lists.accepted) }
        ensures shares { IsSharedOut self.now.lists }
        ensures fault { IsOkUnless result Fault.Memory }
    {
        let refused = self.refused.as_slice();
        let accepted = self.accepted.list(alloc, self.sender, self.next, refused)?;
        Ok(Packets::from(accepted))
    }

    /// The packets that the queue refused, by rising number.
    pub fn refused(&self) -> &[Packet]
        ensures refused { result.now ≡ self.now.lists.refused }
        ensures shares { IsSharedOut self.now.lists }
    {
        self.refused.as_slice()
    }

    /// The packets that the queue evicted for this seat's, in order. They may be of any sender.
    pub fn evicted(&self) -> &[Packet]
        ensures { result.now ≡ self.now.lists.evicted }
    {
        self.evicted.as_slice()
    }
}

//! The sender's half of a ring.

ghost use Rattle.std.specs.Prelude.{◌≡◌, ◌+◌, ◌-◌, ◌<◌, ◌≤◌, true, false, length, take, slice_get, IfSome};
ghost use Rattle.rtrb.specs.Ring.{sent, known_free};
ghost use Rattle.clk_inlet.specs.Items.{has_end, is_packet, packets, AreShort};
ghost use Rattle.clk_inlet.specs.declared.limits.TheConstants.{MAX_PACKETS};

use crate::item::{Item, ItemOrder};
use crate::limits::MAX_PACKETS;
use rtrb::Producer;
use std::alloc::Global;

/// The sender's half of an inlet. It may go to a thread of its own. No call waits or allocates.
///
/// A slot of the ring is reserved for the end, so ending never fails. Dropping an `Inlet` ends it.
pub struct Inlet {
    pub(crate) producer: Producer<Item, Global, ItemOrder>,
    // The number of the next packet.
    next: u32,
    // How many packets are sure to fit.
    free: usize,
    ended: bool,
    // Keeps what two inlets write on separate cache lines, wherever the inlets lie, even if a processor fetches lines in pairs.
    _padding: [u64; 16],
    ghost counted: { next ≡ length (packets (sent producer)) },
    ghost end_is_put: { ended ≡ has_end (sent producer) },
    // Nothing stands behind the end.
    ghost end_is_last: { has_end (take (length (sent producer) - 1) (sent producer)) ≡ false },
    // A slot is reserved for the end.
    ghost reserved: { ended ≡ false → free < known_free producer },
    ghost numbers_left: { next + free ≤ MAX_PACKETS },
    ghost full_at_end: { ended ≡ true → free ≡ 0 },
}

// The end of a sender's packets.
const END: Item = Item {
    token: 0,
    length: 0,
};

/// Why an offer was refused.
#[derive(Clone, Copy, Debug, PartialEq, Eq)]
pub enum Refusal {
    /// The ring is full. It has room again once the taker has taken a packet.
    Full,
    /// The inlet has ended, or has accepted [`MAX_PACKETS`] packets. It accepts no more.
    AtEnd,
}

impl Inlet {
    ghost use Rattle.std.specs.Prelude.{◌≡◌, ◌↔◌, ◌+◌, ◌<◌, ◌≤◌, ◌++◌, ◌∷◌, [], true, false, length, take, Ok, Err, IsOk, IfOk, OnOk, OnErr};
    ghost use Rattle.rtrb.specs.Ring.{sent, known_free};
    ghost use Rattle.clk_inlet.specs.declared.limits.TheConstants.{MAX_PACKETS};
    ghost use Rattle.clk_inlet.specs.Items.{packet_item, has_end, packets};
    ghost use Rattle.clk_inlet.specs.Halves.{pushed, offered, next_number, fits, at_end, StopsAt, AreHalves};
    ghost use Rattle.clk_inlet.specs.declared.outlet.Outlet.{Outlet};
    ghost use Rattle.clk_inlet.specs.declared.inlet.Refusal.TheVariants.{Full, AtEnd};

    // The sender's half of a new ring, with a slot more than its room.
    pub(crate) fn of(producer: Producer<Item, Global, ItemOrder>, room: u32) -> Inlet
        requires new { (sent producer ≡ []) × (room < known_free producer) }
        ensures ring { result.producer ≡ producer }
        ensures fits { fits result ≡ room }
    {
        Inlet {
            producer,
            next: 0,
            free: room as usize,
            ended: false,
            _padding: [0; 16],
        }
    }

    /// Looks at the ring, and returns how many packets are sure to fit now. At the end that is 0.
    pub fn room(&mut self) -> usize
        ensures room { result ≡ fits self.new }
        ensures unchanged { pushed self.new ≡ pushed self.old }
        ensures fits { fits self.old ≤ fits self.new }
        ensures halves { (o : Outlet) → AreHalves self.old o → AreHalves self.new o }
    {
        if !self.ended {
            let numbers = (MAX_PACKETS - self.next) as usize;
            self.free = numbers.min(self.producer.slots() - 1);
        }
        self.free
    }

    // How many packets are sure to fit. It looks at the ring only if fewer than `wanted` packets were.
    fn room_for(&mut self, wanted: usize) -> usize
        ensures room { result ≡ fits self.new }
        ensures unchanged { pushed self.new ≡ pushed self.old }
        ensures fits { fits self.old ≤ fits self.new }
        ensures halves { (o : Outlet) → AreHalves self.old o → AreHalves self.new o }
    {
        if self.free < wanted {
            return self.room();
        }
        self.free
    }

    // Why an offer that does not fit is refused.
    fn refusal(&self) -> Refusal
        ensures { result ≡ AtEnd ↔ at_end self.now ≡ true }
    {
        if self.ended || self.next == MAX_PACKETS {
            Refusal::AtEnd
        } else {
            Refusal::Full
        }
    }

    /// Offers a packet of `length` bytes, at least 1, with a token of the caller's. Returns the packet's number, which is how many packets
    /// were accepted before it.
    ///
    /// # Errors
    ///
    /// [`Refusal::AtEnd`] if the inlet has ended, or has accepted [`MAX_PACKETS`] packets. Otherwise [`Refusal::Full`] if the packet does
    /// not fit now.
    pub fn offer(&mut self, length: u16, token: u64) -> Result<u32, Refusal>
        requires has_length { 1 ≤ length }
        ensures number { IfOk result (λ number. number ≡ next_number self.old) }
        ensures pushed { OnOk result (pushed self.new ≡ pushed self.old ++ packet_item length token ∷ []) }
        ensures offered { OnOk result (offered self.new ≡ offered self.old ++ packet_item length token ∷ []) }
        ensures fits { OnOk result (fits self.old ≤ fits self.new + 1) }
        ensures refused { OnErr result ((pushed self.new ≡ pushed self.old) × (fits self.new ≡ 0)) }
        ensures at_end { result ≡ Err AtEnd ↔ at_end self.old ≡ true }
        ensures succeeds { 0 < fits self.old → IsOk result }
        ensures halves { (o : Outlet) → AreHalves self.old o → AreHalves self.new o }
    {
        if self.room_for(1) == 0 {
            return Err(self.refusal());
        }
        let number = self.next;
        self.producer.push_reserved(Item {
            token,
            length: u32::from(length),
        });
        self.next = number + 1;
        self.free -= 1;
        Ok(number)
    }

    /// Offers a batch of packets, in order, and returns how many were accepted. The batch stops before the first item that is no packet,
    /// and before the first packet that does not fit.
    ///
    /// The taker sees all packets of a batch at once.
    pub fn offer_many(&mut self, items: &[Item]) -> usize
        ensures count { result ≤ length items.now }
        ensures pushed { pushed self.new ≡ pushed self.old ++ take result items.now }
        ensures offered { offered self.new ≡ offered self.old ++ take result items.now }
        ensures packets { has_end (take result items.now) ≡ false }
        ensures at_end { at_end self.old ≡ true → result ≡ 0 }
        ensures stops { StopsAt result items.now self.new }
        ensures fits { fits self.old ≤ fits self.new + result }
        ensures halves { (o : Outlet) → AreHalves self.old o → AreHalves self.new o }
    {
        let room = self.room_for(items.len());
        if room == 0 {
            return 0;
        }
        let count = packets_in(items, room);
        let (front, _) = items.split_at(count);
        match self.producer.push_entire_slice(front) {
            Ok(()) => {
                self.next += count as u32;
                self.free -= count;
                count
            }
            Err(_) => unreachable!(),
        }
    }

    /// Ends the inlet: no packet follows. An inlet that has ended stays as it is.
    pub fn end(&mut self)
        ensures ended { has_end (pushed self.new) ≡ true }
        ensures unchanged { offered self.new ≡ offered self.old }
        ensures full { fits self.new ≡ 0 }
        ensures halves { (o : Outlet) → AreHalves self.old o → AreHalves self.new o }
    {
        if self.ended {
            return;
        }
        self.producer.push_reserved(END);
        self.ended = true;
        self.free = 0;
    }
}

impl Drop for Inlet {
    fn drop(self) {
        let Inlet {
            mut producer,
            next: _,
            free: _,
            ended,
            _padding: _,
        } = self;
        if !ended {
            producer.push_reserved(END);
        }
        leave(producer);
    }
}

// Drops the sender's side of a ring, in which the end is.
fn leave(producer: Producer<Item, Global, ItemOrder>)
    requires ended { has_end (sent producer) ≡ true }
{
    drop(producer);
}

// How many packets these items begin with, and no more than `most`.
fn packets_in(items: &[Item], most: usize) -> usize
    ensures within { (result ≤ most) × (result ≤ length items.now) }
    ensures packets { has_end (take result items.now) ≡ false }
    ensures short { AreShort (take result items.now) }
    ensures stops { result < most → IfSome (slice_get items.now result) (λ x. is_packet x ≡ false) }
{
    let mut count = 0;
    while count < most && count < items.len() && items[count].is_packet() {
        count += 1;
    }
    count
}

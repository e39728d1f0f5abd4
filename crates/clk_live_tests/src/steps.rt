//! The steps of a worked row, and the tokens of its packets.

use clk_live::{Departed, DrainEnd, Emitted, OfferOutcome, Taken};
use clk_packet::Packet;

/// A packet of a row: its sender, its number and its length in bytes.
pub type Sent = (u16, u32, u16);

/// A step of a row, with its expected result.
#[derive(Clone, Copy, Debug)]
pub enum Step {
    /// The packet's sender offers it to its inlet, which accepts it.
    Offers(Sent),
    /// A sender ends its inlet.
    Ends(u16),
    /// The packet is taken from its inlet, and its queue accepts it.
    Accepted(Sent),
    /// The packet is taken from its inlet, and its queue refuses it.
    Refused(Sent),
    /// The first packet is taken from its inlet, and its queue accepts it and evicts the second.
    Evicts(Sent, Sent),
    /// No packet is taken from the inlet of this sender.
    NoneWaits(u16),
    /// A round takes at most the first number of packets from each sender, and at most the second from all. It takes these packets, and all
    /// are accepted.
    TakesIn(usize, usize, &'static [Sent]),
    /// A round that takes only what fits takes at most the first number of packets from each sender, and at most the second from all. It
    /// takes these.
    TakesFitting(usize, usize, &'static [Sent]),
    /// At most this number of packets of a sender are taken. These are taken, and accepted.
    TakesMany(u16, usize, &'static [Sent]),
    /// A pull emits this packet.
    Emits(Sent),
    /// A pull emits no packet.
    EmitsNone,
    /// Pulls that fill at most this number of places emit these packets.
    EmitsMany(usize, &'static [Sent]),
    /// A drain with this number of places makes at most this number of pulls. It emits these packets at these moments, and ends in this
    /// way.
    Drains(usize, u64, &'static [(u64, Sent)], DrainEnd),
    /// From which moment on the one device could emit a packet, if it could.
    IsDue(Option<u64>),
    /// Whether all inlets have ended.
    IsEnded(bool),
    /// Whether no packet is left inside.
    IsDrained(bool),
    /// How many packets of a sender were accepted, refused, evicted and emitted.
    Counts(u16, [u64; 4]),
}

/// A tree, the steps over it, and the senders and numbers of the packets that are inside after them. Its name says what it shows.
#[derive(Clone, Copy)]
pub struct Row {
    pub name: &'static str,
    pub tree: &'static str,
    pub steps: &'static [Step],
    pub inside: &'static [(u16, u32)],
}

/// The token that comes with a packet: its sender and its number.
pub fn token_of(sender: u16, number: u32) -> u64 {
    (u64::from(sender) << 32) | u64::from(number)
}

// The packet in a slot that is empty.
const NO_PACKET: Packet = Packet {
    number: 0,
    sender: 0,
    length: 1,
};

/// What a slot holds before a packet is taken into it.
pub const EMPTY_SLOT: Taken = Taken {
    packet: NO_PACKET,
    token: 0,
    outcome: OfferOutcome::Refused,
};

/// What a place holds before a pull emits a packet into it.
pub const NONE_EMITTED: Emitted = Emitted {
    packet: NO_PACKET,
    token: 0,
};

/// What a place holds before a drain emits a packet into it.
pub const NONE_DEPARTED: Departed = Departed {
    moment: 0,
    packet: NO_PACKET,
    token: 0,
};

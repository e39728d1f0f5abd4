//! Packets, kinds of queues, and results of an offer.
ghost use Rattle.std.specs.Prelude.{◌≤◌};
ghost use Rattle.clk_packet.specs.declared.limits.TheConstants.{MAX_LENGTH};

/// A packet: its sender, its place among that sender's packets, and its length. Contents aren't kept.
// The number stands first so that a packet takes eight bytes.
#[derive(Clone, Copy, Debug, PartialEq, Eq)]
pub struct Packet {
    /// Its place among the packets of its sender, from 0.
    pub number: u32,
    /// Its sender's number.
    pub sender: u16,
    /// Its length in bytes, from 1 to 65,535.
    pub length: u16,
    ghost has_length: { 1 ≤ length },
    // The type says so of any `u16`. It is stated here for laws of lengths to cite.
    ghost is_within: { length ≤ MAX_LENGTH },
}

/// What a queue does with a packet that arrives when it is full.
#[derive(Clone, Copy, Debug, PartialEq, Eq)]
pub enum Kind {
    /// Click's Queue: the arriving packet is refused.
    TailDrop,
    /// Click's FrontDropQueue: the packet at the front is evicted, and the arriving packet is accepted.
    FrontDrop,
}

/// The result of offering a packet to a queue.
#[derive(Clone, Copy, Debug, PartialEq, Eq)]
pub enum Offered {
    /// The queue accepted the packet.
    Accepted,
    /// The queue was full, and refused this packet, which was offered.
    Refused(Packet),
    /// The queue accepted the packet that was offered, and evicted this one, which was at its front.
    Evicted(Packet),
}

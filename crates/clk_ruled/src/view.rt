//! What those who use a shared queue know of it. It exists in proofs alone, and no value of it is made.

use clk_packet::{Kind, Packet};
use std::collections::LinkedList;

/// What a queue was opened with: its kind, how many packets it may hold, and each sender with the number of packets that it
/// may offer.
pub struct QueueSetup {
    pub kind: Kind,
    pub capacity: u64,
    pub rooms: LinkedList<(u16, u32)>,
}

/// The lists of a closed seat that was gathered: the packets accepted from its sender, and those evicted for it.
pub struct Gathered {
    pub sender: u16,
    pub accepted: LinkedList<Packet>,
    pub evicted: LinkedList<Packet>,
}

/// What a seat or the tap knows of its queue.
pub struct View {
    /// Whether this is the view of a seat.
    pub sits: bool,
    /// Whether this is the view of the tap.
    pub taps: bool,
    pub setup: QueueSetup,
    /// The seat's sender.
    pub sender: u16,
    /// The packets that the queue accepted from the seat, in order.
    pub accepted: LinkedList<Packet>,
    /// The packets that the queue evicted for the seat, in order.
    pub evicted: LinkedList<Packet>,
    /// The packets that the tap pulled, in order.
    pub taken: LinkedList<Packet>,
    /// The senders that were given a seat.
    pub given: LinkedList<u16>,
    /// The lists of the seats that the tap gathered.
    pub gathered: LinkedList<Gathered>,
}

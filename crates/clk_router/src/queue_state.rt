//! The state of a queue.

use clk_packet::Kind;

/// A queue, as it is now.
#[derive(Clone, Copy, Debug)]
pub struct QueueState {
    /// Whether it refuses or evicts when it is full.
    pub kind: Kind,
    /// How many packets it holds at most.
    pub capacity: usize,
    /// How many packets it holds.
    pub held: usize,
    /// The number of the device that emits its packets.
    pub device: u16,
}

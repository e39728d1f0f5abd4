//! The tally of a sender.

use crate::packets::Packets;

/// Which packets of one sender its queue accepted, refused and evicted: lists of packets, each by rising number.
#[derive(Drop)]
pub struct Tally {
    /// The sender's number.
    pub sender: u16,
    /// Those that the queue accepted.
    pub accepted: Packets,
    /// Those that the queue, being full, refused.
    pub refused: Packets,
    /// Those of the accepted ones that the queue evicted for later packets, of this sender or of another.
    pub evicted: Packets,
}

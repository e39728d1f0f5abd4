//! Packets, and sinks with so much room.

ghost use Rattle.std.specs.Prelude.{◌≡◌, ◌≤◌};

use clk_packet::{FailingSink, Packet};
use std::alloc::{AllocError, Global};

/// The packet of this number from this sender, of 1 to 65,535 bytes.
pub fn packet(sender: u16, number: u32, length: u16) -> Packet
    requires { 1 ≤ length }
    ensures { result.sender ≡ sender }
{
    Packet {
        number,
        sender,
        length,
    }
}

/// A sink that takes so many bytes.
pub fn sink_of(alloc: Global, room: usize) -> Result<FailingSink, AllocError> {
    Ok(FailingSink::new(vec![in alloc; 0; room]?))
}

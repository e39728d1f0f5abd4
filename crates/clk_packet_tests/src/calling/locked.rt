//! A queue that threads share, and that is full.

ghost use Rattle.std.specs.Prelude.{◌≡◌, IfSome};

use clk_locked::Locked;
use clk_packet::{Offered, Packet};
use std::sync::Wait;

/// Offers a packet to a queue that threads share, and returns what is refused, if anything is: the packet that was offered.
pub fn refused_of(wait: &impl Wait, queue: &Locked, packet: Packet) -> Option<Packet>
    ensures { IfSome result (λ refused. refused ≡ packet) }
{
    match queue.offer(wait, packet) {
        Offered::Refused(refused) => Some(refused),
        _ => None,
    }
}

//! A queue that is full.

ghost use Rattle.std.specs.Prelude.{◌≡◌, Some, IfOk};

use clk_packet::{Fault, Kind, Packet};
use clk_ring::Ring;
use std::alloc::Global;

/// Offers two packets to a FrontDropQueue of one packet, and pulls: the newer one is returned.
pub fn newest(alloc: Global, older: Packet, newer: Packet) -> Result<Option<Packet>, Fault>
    ensures { IfOk result (λ got. got ≡ Some newer) }
{
    let mut ring = Ring::new(alloc, Kind::FrontDrop, 1)?;
    ring.offer(older);
    ring.offer(newer);
    Ok(ring.pull())
}

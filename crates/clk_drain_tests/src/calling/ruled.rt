//! A shared queue of one sender, on one thread.

ghost use Rattle.std.specs.Prelude.{◌≡◌, [], ◌∷◌, IfOk};

use clk_packet::{Fault, Kind, Packet};
use clk_ruled::{Opened, RuledQueue, Settled, settle};
use std::alloc::Global;
use std::sync::Wait;

/// Sends a packet to a queue of its own: the queue takes it, and the sender's tally says so once it is settled.
pub fn send_alone<W: Wait>(alloc: Global, wait: &W, packet: Packet) -> Result<Settled, Fault>
    requires { packet.number ≡ 0 }
    ensures { IfOk result (λ settled. settled.tallies.items ≡ record { sender = packet.sender; accepted = packet ∷ []; refused = []; evicted = [] } ∷ []) }
{
    let Opened {
        queue,
        mut seats,
        tap,
    } = RuledQueue::open(alloc, Kind::TailDrop, 1, &[(packet.sender, 1)])?;
    let Some(mut seat) = seats.pop() else {
        unreachable!()
    };
    seat.offer(&queue, wait, packet);
    let mut closed = Vec::new(alloc);
    closed.push(seat.close())?;
    settle(alloc, queue, tap, closed, 0)
}

//! A producer offers all packets of a sender to its queue.

ghost use Rattle.std.specs.Prelude.{◌≡◌, ◌+◌, ◌<◌, [], length, take};
ghost use Rattle.clk_packet.specs.Trace.{sent_by};
ghost use Rattle.clk_ruled.specs.Queue.{IsSeatOf};
ghost use Rattle.clk_ruled.specs.Closing.{IsSameSeat, IsClosedOf};
ghost use Rattle.clk_drain.specs.Closing.{AreOffered};

use crate::running::baton::Baton;
use clk_gate::Gate;
use clk_packet::Traces;
use clk_ruled::{ClosedSeat, RuledQueue, Seat};
use std::sync::Wait;
use std::sync::atomic::{AtomicU64, Ordering};

/// How many packets a producer offers before it passes the baton on or, if it has none, looks for it again.
const AT_A_TIME: u32 = 1_024;

/// Offers all packets of a seat's sender to its queue, in order, closes the seat, and then counts one more producer as done. Doesn't
/// allocate.
pub fn send_all<W: Wait, G: Gate>(
    wait: &W,
    traces: &Traces,
    gate: &G,
    through: &AtomicU64,
    queue: &RuledQueue,
    baton: &Baton,
    seat: Seat,
) -> ClosedSeat
    requires together { IsSeatOf queue.now seat }
    requires none { AreOffered [] seat }
    requires room { seat.room ≡ length (sent_by traces.now seat.sender) }
    ensures closed { IsClosedOf seat result }
    ensures sent { AreOffered (sent_by traces.now seat.sender) result.lists }
{
    let mut seat = seat;
    offer_all(wait, traces, gate, queue, baton, &mut seat);
    let closed = seat.close();
    through.fetch_add(1, Ordering::SeqCst);
    closed
}

// Offers all packets of the seat's sender, in order, with the baton if it gets it.
fn offer_all<W: Wait, G: Gate>(
    wait: &W,
    traces: &Traces,
    gate: &G,
    queue: &RuledQueue,
    baton: &Baton,
    seat: &mut Seat,
)
    requires together { IsSeatOf queue.now seat.old }
    requires none { AreOffered [] seat.old }
    requires room { seat.old.room ≡ length (sent_by traces.now seat.old.sender) }
    ensures same { IsSameSeat seat.old seat.new }
    ensures sent { AreOffered (sent_by traces.now seat.old.sender) seat.new }
{
    let mut number = 0;
    let mut has_baton = false;
    let count = traces.count(seat.sender());
    while number < count {
        if number % AT_A_TIME == 0 {
            if has_baton {
                baton.pass_on();
            }
            has_baton = baton.take();
        }
        offer_next(wait, traces, gate, queue, seat, number);
        number += 1;
    }
    if has_baton {
        baton.pass_on();
    }
}

// Offers the packet with this number of the seat's sender, after those before it.
fn offer_next<W: Wait, G: Gate>(
    wait: &W,
    traces: &Traces,
    gate: &G,
    queue: &RuledQueue,
    seat: &mut Seat,
    number: u32,
)
    requires together { IsSeatOf queue.now seat.old }
    requires room { seat.old.room ≡ length (sent_by traces.now seat.old.sender) }
    requires number { number < length (sent_by traces.now seat.old.sender) }
    requires offered { AreOffered (take number (sent_by traces.now seat.old.sender)) seat.old }
    ensures same { IsSameSeat seat.old seat.new }
    ensures offered { AreOffered (take (number + 1) (sent_by traces.now seat.old.sender)) seat.new }
{
    let sender = seat.sender();
    gate.before(sender, number);
    match traces.sent(sender, number) {
        Some(packet) => {
            let _ = seat.offer(queue, wait, packet);
        }
        None => {}
    }
}

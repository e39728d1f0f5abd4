//! Seats that are gathered before their queue is settled.

use crate::shared::Call::{Offer, Pull};
use crate::shared::{Closed, Shared, assert_settled, packet};
use clk_packet::Offered::{Accepted, Evicted, Refused};
use clk_packet::{Fault, Kind, Packet};
use std::alloc::Global;
use std::process::Abort;

// A packet of the length that all have here.
fn of(sender: u16, number: u32) -> Packet {
    packet(sender, number, 50)
}

// Fails unless the seat of sender 1 reads so: it may offer three packets and offered two, and for the first another sender's was evicted.
fn assert_second(rt: &impl Abort, alloc: Global, closed: &Closed) {
    let (accepted, evicted) = ([of(1, 0), of(1, 1)], [of(0, 0)]);
    closed.assert_reads(rt, alloc, 1, ((1, 2, 3), &accepted, &[], &evicted));
}

#[test]
fn a_gathered_seat_reads_as_before(rt: HostRuntime) -> Result<(), Fault> {
    let mut shared = Shared::open(rt.alloc(), Kind::FrontDrop, 2, &[(0, 2), (1, 3), (4, 1)])?;
    let of_0 = [of(0, 0), of(0, 1)];
    let of_1 = [of(1, 0), of(1, 1)];
    let calls = [
        Offer(0, 50, Accepted),
        Offer(0, 50, Accepted),
        Offer(1, 50, Evicted(of(0, 0))),
        Offer(2, 50, Evicted(of(0, 1))),
        Pull(Some(of(1, 0))),
        Offer(1, 50, Accepted),
    ];
    shared.make(&rt, &calls);
    let mut closed = shared.close(rt.alloc())?;
    assert_second(&rt, rt.alloc(), &closed);
    closed.gather(&rt, 1);
    assert_second(&rt, rt.alloc(), &closed);
    closed.gather(&rt, 1);
    assert_second(&rt, rt.alloc(), &closed);
    closed.assert_pull(&rt, Some(of(4, 0)));
    closed.gather(&rt, 0);
    // The seat of sender 4 is gathered as the queue is settled.
    let settled = closed.settle(rt.alloc())?;
    let none = &[][..];
    let tallies = [
        (0, &of_0[..], none, &of_0[..]),
        (1, &of_1, none, none),
        (4, &[of(4, 0)], none, none),
    ];
    assert_settled(&rt, &settled, &tallies, &[of(1, 0), of(4, 0)]);
    Ok(())
}

#[test]
fn a_gathered_seat_keeps_what_was_refused(rt: HostRuntime) -> Result<(), Fault> {
    let mut shared = Shared::open(rt.alloc(), Kind::TailDrop, 1, &[(3, 2), (9, 1)])?;
    let calls = [
        Offer(0, 50, Accepted),
        Offer(0, 50, Refused(of(3, 1))),
        Pull(Some(of(3, 0))),
        Offer(1, 50, Accepted),
    ];
    shared.make(&rt, &calls);
    let mut closed = shared.close(rt.alloc())?;
    closed.gather(&rt, 0);
    let [first, second] = [of(3, 0), of(3, 1)];
    closed.assert_reads(&rt, rt.alloc(), 0, ((3, 2, 2), &[first], &[second], &[]));
    closed.gather(&rt, 1);
    closed.assert_pull(&rt, Some(of(9, 0)));
    closed.assert_pull(&rt, None);
    let settled = closed.settle(rt.alloc())?;
    let tallies = [
        (3, &[first][..], &[second][..], &[][..]),
        (9, &[of(9, 0)], &[], &[]),
    ];
    assert_settled(&rt, &settled, &tallies, &[of(3, 0), of(9, 0)]);
    Ok(())
}

// A seat keeps only lengths of accepted packets. It lists them where each other packet was refused, and where the first was.
#[test]
fn accepted_packets_stand_between_refused_ones(rt: HostRuntime) -> Result<(), Fault> {
    let mut shared = Shared::open(rt.alloc(), Kind::TailDrop, 1, &[(0, 5), (1, 1)])?;
    let calls = [
        Offer(1, 60, Accepted),
        Offer(0, 10, Refused(packet(0, 0, 10))),
        Pull(Some(packet(1, 0, 60))),
        Offer(0, 20, Accepted),
        Offer(0, 30, Refused(packet(0, 2, 30))),
        Pull(Some(packet(0, 1, 20))),
        Offer(0, 40, Accepted),
        Offer(0, 50, Refused(packet(0, 4, 50))),
    ];
    shared.make(&rt, &calls);
    let closed = shared.close(rt.alloc())?;
    let accepted = [packet(0, 1, 20), packet(0, 3, 40)];
    let refused = [packet(0, 0, 10), packet(0, 2, 30), packet(0, 4, 50)];
    closed.assert_reads(&rt, rt.alloc(), 0, ((0, 5, 5), &accepted, &refused, &[]));
    closed.assert_reads(
        &rt,
        rt.alloc(),
        1,
        ((1, 1, 1), &[packet(1, 0, 60)], &[], &[]),
    );
    Ok(())
}

//! Rows of calls on one thread, with the result of each.

use crate::shared::Call::{Offer, Pull};
use crate::shared::{Call, Expected, Shared, assert_settled, packet};
use clk_packet::Offered::{Accepted, Evicted, Refused};
use clk_packet::{Fault, Kind, Packet};
use std::alloc::Global;
use std::process::Abort;
use std::sync::Wait;

// Makes calls on a queue, and fails unless they return these results and the queue is settled with these tallies.
fn assert_row<R: Abort + Wait>(
    rt: &R,
    alloc: Global,
    shared: Shared,
    calls: &[Call],
    tallies: &[Expected],
    taken: &[Packet],
) -> Result<(), Fault> {
    let mut shared = shared;
    shared.make(rt, calls);
    shared.assert_taken(rt, taken);
    let settled = shared.close(alloc)?.settle(alloc)?;
    assert_settled(rt, &settled, tallies, taken);
    Ok(())
}

// Over a queue of one packet, with and without pulls.
#[test]
fn a_full_queue_refuses(rt: HostRuntime) -> Result<(), Fault> {
    let [first, second] = [packet(0, 0, 10), packet(0, 1, 20)];
    let calls = [
        Offer(0, 10, Accepted),
        Offer(0, 20, Refused(second)),
        Pull(Some(first)),
        Pull(None),
    ];
    let tallies = [(0, &[first][..], &[second][..], &[][..])];
    let alloc = rt.alloc();
    let pulled = Shared::open(alloc, Kind::TailDrop, 1, &[(0, 2)])?;
    assert_row(&rt, alloc, pulled, &calls, &tallies, &[first])?;
    let full = Shared::open(alloc, Kind::TailDrop, 1, &[(0, 2)])?;
    assert_row(&rt, alloc, full, &calls[..2], &tallies, &[])
}

#[test]
fn a_full_front_drop_queue_evicts_its_front(rt: HostRuntime) -> Result<(), Fault> {
    let shared = Shared::open(rt.alloc(), Kind::FrontDrop, 2, &[(0, 3)])?;
    let sent = [packet(0, 0, 10), packet(0, 1, 20), packet(0, 2, 30)];
    let calls = [
        Offer(0, 10, Accepted),
        Offer(0, 20, Accepted),
        Offer(0, 30, Evicted(sent[0])),
        Pull(Some(sent[1])),
        Pull(Some(sent[2])),
        Pull(None),
    ];
    let tallies = [(0, &sent[..], &[][..], &sent[..1])];
    assert_row(&rt, rt.alloc(), shared, &calls, &tallies, &sent[1..])
}

// It pulls the same packets, and the tallies are the same.
#[test]
fn a_tap_may_keep_none_of_its_packets(rt: HostRuntime) -> Result<(), Fault> {
    let alloc = rt.alloc();
    let mut shared = Shared::open_keeping_none(alloc, Kind::FrontDrop, 2, &[(0, 3)])?;
    let sent = [packet(0, 0, 10), packet(0, 1, 20), packet(0, 2, 30)];
    let calls = [
        Offer(0, 10, Accepted),
        Offer(0, 20, Accepted),
        Offer(0, 30, Evicted(sent[0])),
        Pull(Some(sent[1])),
        Pull(Some(sent[2])),
        Pull(None),
    ];
    shared.make(&rt, &calls);
    shared.assert_taken(&rt, &[]);
    let settled = shared.close(alloc)?.settle(alloc)?;
    let tallies = [(0, &sent[..], &[][..], &sent[..1])];
    assert_settled(&rt, &settled, &tallies, &[]);
    Ok(())
}

#[test]
fn an_evicted_packet_is_its_own_senders(rt: HostRuntime) -> Result<(), Fault> {
    let mut shared = Shared::open(rt.alloc(), Kind::FrontDrop, 1, &[(0, 1), (1, 1)])?;
    let [first, second] = [packet(0, 0, 100), packet(1, 0, 60)];
    let calls = [Offer(0, 100, Accepted), Offer(1, 60, Evicted(first))];
    shared.make(&rt, &calls);
    shared.assert_put_out(&rt, 0, &[]);
    shared.assert_put_out(&rt, 1, &[first]);
    let pull = [Pull(Some(second))];
    let none = &[][..];
    let tallies = [
        (0, &[first][..], none, &[first][..]),
        (1, &[second], none, none),
    ];
    assert_row(&rt, rt.alloc(), shared, &pull, &tallies, &[second])
}

// A queue of this kind that could hold all packets accepts them all.
fn assert_ample<R: Abort + Wait>(rt: &R, alloc: Global, kind: Kind) -> Result<(), Fault> {
    let shared = Shared::open(alloc, kind, 1_000_000, &[(7, 10)])?;
    let sent = [
        packet(7, 0, 64),
        packet(7, 1, 64),
        packet(7, 2, 64),
        packet(7, 3, 64),
        packet(7, 4, 64),
        packet(7, 5, 64),
        packet(7, 6, 64),
        packet(7, 7, 64),
        packet(7, 8, 64),
        packet(7, 9, 64),
    ];
    let tallies = [(7, &sent[..], &[][..], &[][..])];
    assert_row(
        rt,
        alloc,
        shared,
        &[Offer(0, 64, Accepted); 10],
        &tallies,
        &[],
    )
}

#[test]
fn a_capacity_above_what_may_be_offered_loses_nothing(rt: HostRuntime) -> Result<(), Fault> {
    assert_ample(&rt, rt.alloc(), Kind::TailDrop)?;
    assert_ample(&rt, rt.alloc(), Kind::FrontDrop)
}

#[test]
fn a_queue_of_no_senders_settles_with_nothing(rt: HostRuntime) -> Result<(), Fault> {
    let alloc = rt.alloc();
    let queue = Shared::open(alloc, Kind::TailDrop, 1, &[])?;
    assert_row(&rt, alloc, queue, &[Pull(None)], &[], &[])?;
    let front_drop = Shared::open(alloc, Kind::FrontDrop, 1, &[])?;
    assert_row(&rt, alloc, front_drop, &[Pull(None)], &[], &[])
}

#[test]
fn a_queue_that_took_its_capacity_and_refused_one_is_settled(rt: HostRuntime) -> Result<(), Fault> {
    let shared = Shared::open(rt.alloc(), Kind::TailDrop, 3, &[(2, 2), (5, 2)])?;
    let refused = packet(5, 1, 4);
    let calls = [
        Offer(0, 1, Accepted),
        Offer(1, 2, Accepted),
        Offer(0, 3, Accepted),
        Offer(1, 4, Refused(refused)),
    ];
    let none = &[][..];
    let of_2 = [packet(2, 0, 1), packet(2, 1, 3)];
    let of_5 = [packet(5, 0, 2)];
    let tallies = [(2, &of_2[..], none, none), (5, &of_5, &[refused], none)];
    assert_row(&rt, rt.alloc(), shared, &calls, &tallies, &[])
}

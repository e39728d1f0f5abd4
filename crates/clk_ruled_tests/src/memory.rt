//! Calls of a shared queue in which an allocation fails. tests/refuse-memory makes each allocation of the test fail in turn.

use crate::shared::Call::{Offer, Pull};
use crate::shared::{Shared, assert_settled, packet};
use clk_packet::Offered::{Accepted, Evicted, Refused};
use clk_packet::{Fault, Kind, Packet};
use clk_ruled::Settled;
use std::alloc::Global;
use std::process::Abort;
use std::sync::Wait;

/// The calls that may fail. No other call allocates.
#[derive(Clone, Copy, Debug, PartialEq, Eq)]
enum Call {
    Open,
    // The list of closed seats, which the test itself makes.
    Close,
    Settle,
}

// Only one allocation fails, so only one call does.
#[test]
fn a_refused_call_is_made_again(rt: HostRuntime) {
    let front_drop = met_refusal(&rt, rt.alloc(), Kind::FrontDrop);
    let tail_drop = met_refusal(&rt, rt.alloc(), Kind::TailDrop);
    assert!(rt; front_drop.is_none() || tail_drop.is_none());
    assert_eq!(rt; front_drop.or(tail_drop), None);
}

// Makes each call, and all again if one failed. Returns which call failed, if one did.
fn met_refusal<R: Abort + Wait>(rt: &R, alloc: Global, kind: Kind) -> Option<Call> {
    let refused = calls(rt, alloc, kind).err();
    if refused.is_some() {
        assert!(rt; calls(rt, alloc, kind).is_ok());
    }
    refused
}

// Makes each call, up to the one that fails.
fn calls<R: Abort + Wait>(rt: &R, alloc: Global, kind: Kind) -> Result<(), Call> {
    let opened = Shared::open(alloc, kind, 1, &[(0, 6), (1, 1)]);
    let mut shared = answer(rt, Call::Open, opened)?;
    match kind {
        Kind::TailDrop => refuse(rt, &mut shared),
        Kind::FrontDrop => evict(rt, &mut shared),
    }
    let closed = answer(rt, Call::Close, shared.close(alloc))?;
    let settled = answer(rt, Call::Settle, closed.settle(alloc))?;
    assert_answers(rt, kind, &settled);
    Ok(())
}

// The result of a call, or the call if an allocation failed.
fn answer<T: Drop>(rt: &impl Abort, call: Call, answer: Result<T, Fault>) -> Result<T, Call> {
    match answer {
        Ok(value) => Ok(value),
        Err(fault) => {
            assert!(rt; fault == Fault::Memory);
            Err(call)
        }
    }
}

// The packets of sender 0, and that of sender 1.
fn packets() -> ([Packet; 6], Packet) {
    let of_first = [
        packet(0, 0, 10),
        packet(0, 1, 20),
        packet(0, 2, 30),
        packet(0, 3, 40),
        packet(0, 4, 50),
        packet(0, 5, 60),
    ];
    (of_first, packet(1, 0, 70))
}

// The queue refuses all packets but the first.
fn refuse<R: Abort + Wait>(rt: &R, shared: &mut Shared) {
    let ([a, b, c, d, e, f], of_second) = packets();
    let calls = [
        Offer(0, 10, Accepted),
        Offer(0, 20, Refused(b)),
        Offer(0, 30, Refused(c)),
        Offer(0, 40, Refused(d)),
        Offer(0, 50, Refused(e)),
        Offer(0, 60, Refused(f)),
        Offer(1, 70, Refused(of_second)),
        Pull(Some(a)),
    ];
    shared.make(rt, &calls);
}

// Each packet but the first evicts the one before it.
fn evict<R: Abort + Wait>(rt: &R, shared: &mut Shared) {
    let ([a, b, c, d, e, f], of_second) = packets();
    let calls = [
        Offer(0, 10, Accepted),
        Offer(0, 20, Evicted(a)),
        Offer(0, 30, Evicted(b)),
        Offer(0, 40, Evicted(c)),
        Offer(0, 50, Evicted(d)),
        Offer(0, 60, Evicted(e)),
        Offer(1, 70, Evicted(f)),
        Pull(Some(of_second)),
    ];
    shared.make(rt, &calls);
}

// Fails unless a queue of this kind is settled as the calls say.
fn assert_answers(rt: &impl Abort, kind: Kind, settled: &Settled) {
    let (of_first, of_second) = packets();
    let of_second = [of_second];
    let none = &[][..];
    match kind {
        Kind::TailDrop => {
            let tallies = [
                (0, &of_first[..1], &of_first[1..], none),
                (1, none, &of_second, none),
            ];
            assert_settled(rt, settled, &tallies, &of_first[..1]);
        }
        Kind::FrontDrop => {
            let tallies = [
                (0, &of_first[..], none, &of_first[..]),
                (1, &of_second, none, none),
            ];
            assert_settled(rt, settled, &tallies, &of_second);
        }
    }
}

//! A long row of calls, beside a plain list of packets under the same calls.

use crate::shared::{Shared, assert_packets, of_sender, packet};
use clk_packet::{Fault, Kind, Offered, Packet, Tally};
use clk_ruled::Settled;
use std::alloc::{AllocError, Global};
use std::collections::VecDeque;
use std::process::Abort;
use std::sync::Wait;

/// How many senders there are, from 0 on, and how many packets each offers.
const SENDERS: u16 = 3;

const ROOM: u32 = 400;

/// How many offers there are. Each is of a packet one byte longer than the one before.
const OFFERS: u16 = 1200;

const CAPACITY: u32 = 3;

/// A plain list of packets, and which packets were accepted and refused, and which were evicted or pulled.
#[derive(Drop)]
struct Plain {
    kind: Kind,
    held: VecDeque<Packet>,
    accepted: Vec<Packet>,
    refused: Vec<Packet>,
    evicted: Vec<Packet>,
    taken: Vec<Packet>,
}

impl Plain {
    fn new(alloc: Global, kind: Kind) -> Plain {
        Plain {
            kind,
            held: VecDeque::new(alloc),
            accepted: Vec::new(alloc),
            refused: Vec::new(alloc),
            evicted: Vec::new(alloc),
            taken: Vec::new(alloc),
        }
    }

    fn offer(&mut self, packet: Packet) -> Result<Offered, AllocError> {
        let full = self.held.len() == CAPACITY as usize;
        if full && self.kind == Kind::TailDrop {
            self.refused.push(packet)?;
            return Ok(Offered::Refused(packet));
        }
        self.accepted.push(packet)?;
        self.held.push_back(packet)?;
        if !full {
            return Ok(Offered::Accepted);
        }
        self.evict()
    }

    fn evict(&mut self) -> Result<Offered, AllocError> {
        let Some(front) = self.held.pop_front() else {
            return Ok(Offered::Accepted);
        };
        self.evicted.push(front)?;
        Ok(Offered::Evicted(front))
    }

    fn pull(&mut self) -> Result<Option<Packet>, AllocError> {
        let front = self.held.pop_front();
        if let Some(packet) = front {
            self.taken.push(packet)?;
        }
        Ok(front)
    }
}

/// The shared queue and the plain list.
#[derive(Drop)]
struct Both {
    shared: Shared,
    plain: Plain,
    /// The offers by which a packet was lost, with their outcomes.
    lost: Vec<(u16, Offered)>,
    /// The offer after which a pull first returned none.
    none: Option<u16>,
}

impl Both {
    fn new(alloc: Global, kind: Kind) -> Result<Both, Fault> {
        let senders = [(0, ROOM), (1, ROOM), (2, ROOM)];
        Ok(Both {
            shared: Shared::open(alloc, kind, CAPACITY, &senders)?,
            plain: Plain::new(alloc, kind),
            lost: Vec::new(alloc),
            none: None,
        })
    }

    // An offer, and the pulls that come after it. Each sender offers two packets, and then the next does.
    fn step<R: Abort + Wait>(&mut self, rt: &R, i: u16) -> Result<(), Fault> {
        let sender = i / 2 % SENDERS;
        let length = i.saturating_add(1);
        let number = i / (2 * SENDERS) * 2 + i % 2;
        let offered = self.shared.offer(rt, usize::from(sender), length);
        let expected = self.plain.offer(packet(sender, u32::from(number), length))?;
        assert_eq!(rt; offered, expected, "offer {i}");
        if offered != Offered::Accepted {
            self.lost.push((i, offered))?;
        }
        for _ in 0..i / 5 % 3 {
            self.pull(rt, i)?;
        }
        Ok(())
    }

    fn pull<R: Abort + Wait>(&mut self, rt: &R, i: u16) -> Result<(), Fault> {
        let pulled = self.shared.pull(rt);
        let expected = self.plain.pull()?;
        assert_eq!(rt; pulled, expected, "a pull after offer {i}");
        if pulled.is_none() && self.none.is_none() {
            self.none = Some(i);
        }
        Ok(())
    }
}

// Fails unless a tally has the packets of its sender that the plain list has.
fn assert_theirs(
    rt: &impl Abort,
    alloc: Global,
    tally: &Tally,
    plain: &Plain,
) -> Result<(), AllocError> {
    let accepted = of_sender(alloc, tally.sender, &plain.accepted)?;
    assert_packets(rt, tally.accepted.as_slice(), &accepted);
    let refused = of_sender(alloc, tally.sender, &plain.refused)?;
    assert_packets(rt, tally.refused.as_slice(), &refused);
    let evicted = of_sender(alloc, tally.sender, &plain.evicted)?;
    assert_packets(rt, tally.evicted.as_slice(), &evicted);
    Ok(())
}

// Fails unless the queue is settled as the plain list says.
fn assert_all_theirs(
    rt: &impl Abort,
    alloc: Global,
    settled: &Settled,
    plain: &Plain,
) -> Result<(), AllocError> {
    let mut sender = 0u16;
    for tally in &settled.tallies {
        assert_eq!(rt; tally.sender, sender);
        assert_theirs(rt, alloc, tally, plain)?;
        sender = sender.saturating_add(1);
    }
    assert_eq!(rt; sender, SENDERS);
    assert_packets(rt, settled.taken.as_slice(), &plain.taken);
    Ok(())
}

// Fails unless these are the first packets that were lost.
fn assert_first_lost(rt: &impl Abort, both: &Both, expected: &[(u16, Offered)]) {
    assert!(rt; both.lost.starts_with(expected));
}

// Compares all results of a queue of this kind with those of a plain list, and fails unless these are the first packets that were lost.
fn assert_plain<R: Abort + Wait>(
    rt: &R,
    alloc: Global,
    kind: Kind,
    lost: &[(u16, Offered)],
) -> Result<(), Fault> {
    let mut both = Both::new(alloc, kind)?;
    for i in 0..OFFERS {
        both.step(rt, i)?;
    }
    assert_first_lost(rt, &both, lost);
    assert_eq!(rt; both.none, Some(12));
    let settled = both.shared.close(alloc)?.settle(alloc)?;
    assert_all_theirs(rt, alloc, &settled, &both.plain)?;
    Ok(())
}

#[test]
fn a_queue_answers_as_a_plain_list(rt: HostRuntime) -> Result<(), Fault> {
    let lost = [
        (3, Offered::Refused(packet(1, 1, 4))),
        (4, Offered::Refused(packet(2, 0, 5))),
        (5, Offered::Refused(packet(2, 1, 6))),
    ];
    assert_plain(&rt, rt.alloc(), Kind::TailDrop, &lost)
}

#[test]
fn a_front_drop_queue_answers_as_a_plain_list(rt: HostRuntime) -> Result<(), Fault> {
    let lost = [
        (3, Offered::Evicted(packet(0, 0, 1))),
        (4, Offered::Evicted(packet(0, 1, 2))),
        (5, Offered::Evicted(packet(1, 0, 3))),
    ];
    assert_plain(&rt, rt.alloc(), Kind::FrontDrop, &lost)
}

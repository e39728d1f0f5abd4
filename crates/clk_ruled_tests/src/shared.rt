//! A shared queue on one thread, as the tests call it.

ghost use Rattle.std.specs.Prelude.{◌≡◌, ◌≤◌};
ghost use Rattle.clk_packet.specs.declared.limits.TheConstants.{MAX_CAPACITY};
ghost use Rattle.clk_packet.specs.Lists.{AreRising};
ghost use Rattle.clk_ruled.specs.Rooms.{named_in, rooms_in_all};

use clk_packet::{Fault, Kind, Offered, Packet, Tally};
use clk_ruled::{ClosedSeat, Opened, RuledQueue, Seat, Settled, Tap, calls_keep_together, settle};
use std::alloc::{AllocError, Global};
use std::marker::Model;
use std::process::Abort;
use std::sync::Wait;

/// The packet of this number from this sender, of 1 to 65,535 bytes.
pub fn packet(sender: u16, number: u32, length: u16) -> Packet
    requires { 1 ≤ length }
    ensures { (result.sender ≡ sender) × (result.number ≡ number) }
{
    Packet {
        number,
        sender,
        length,
    }
}

/// A call on a shared queue, with its result.
#[derive(Clone, Copy)]
pub enum Call {
    /// The seat at this place offers its sender's next packet, of this length.
    Offer(usize, u16, Offered),
    Pull(Option<Packet>),
}

/// A queue, its seats in order, and its tap.
#[derive(Drop)]
pub struct Shared {
    queue: RuledQueue,
    seats: Vec<Seat>,
    tap: Tap,
}

impl Model for Shared {
    ghost use Rattle.std.specs.Prelude.{List, map};
    ghost use Rattle.clk_ruled.specs.Queue.{SeatLists, TapLists};
    ghost use Rattle.clk_ruled.specs.Settle.{AreOpenedTogether, closing};

    ghost Value = { TapLists × List SeatLists };

    ghost view = { λ s. (s.tap, s.seats.items) };

    // If all seats were closed now, they would be all of the tap's queue.
    ghost invariant = { λ s. AreOpenedTogether s.queue s.tap (map closing s.seats.items) };
}

impl Shared {
    pub fn open(
        alloc: Global,
        kind: Kind,
        capacity: u32,
        senders: &[(u16, u32)],
    ) -> Result<Shared, Fault>
        requires capacity { (1 ≤ capacity) × (capacity ≤ MAX_CAPACITY) }
        requires rising { AreRising (named_in senders.now) }
        requires room { rooms_in_all senders.now ≤ MAX_CAPACITY }
    {
        calls_keep_together();
        let Opened { queue, seats, tap } = RuledQueue::open(alloc, kind, capacity, senders)?;
        Ok(Shared { queue, seats, tap })
    }

    /// Opens a queue whose tap keeps none of the packets that it pulls.
    pub fn open_keeping_none(
        alloc: Global,
        kind: Kind,
        capacity: u32,
        senders: &[(u16, u32)],
    ) -> Result<Shared, Fault>
        requires capacity { (1 ≤ capacity) × (capacity ≤ MAX_CAPACITY) }
        requires rising { AreRising (named_in senders.now) }
        requires room { rooms_in_all senders.now ≤ MAX_CAPACITY }
    {
        calls_keep_together();
        let Opened { queue, seats, tap } = RuledQueue::open_keeping(
            alloc, kind, capacity, senders, false,
        )?;
        Ok(Shared { queue, seats, tap })
    }

    /// The seat at this place offers its sender's next packet, of this length.
    pub fn offer<R: Abort + Wait>(&mut self, rt: &R, place: usize, length: u16) -> Offered
        requires { 1 ≤ length }
    {
        calls_keep_together();
        assert!(rt; place < self.seats.len());
        let seat = &mut self.seats[place];
        assert!(rt; seat.next() < seat.room());
        let next = packet(seat.sender(), seat.next(), length);
        seat.offer(&self.queue, rt, next)
    }

    pub fn pull(&mut self, rt: &impl Wait) -> Option<Packet> {
        calls_keep_together();
        self.tap.pull(&self.queue, rt)
    }

    /// Makes calls, and fails unless they return these results.
    pub fn make<R: Abort + Wait>(&mut self, rt: &R, calls: &[Call]) {
        for call in calls {
            match *call {
                Call::Offer(place, length, answer) => {
                    assert!(rt; length >= 1);
                    assert_eq!(rt; self.offer(rt, place, length), answer);
                }
                Call::Pull(answer) => assert_eq!(rt; self.pull(rt), answer),
            }
        }
    }

    /// Fails unless these packets were evicted for the seat at this place.
    pub fn assert_put_out(&self, rt: &impl Abort, place: usize, packets: &[Packet]) {
        assert!(rt; place < self.seats.len());
        assert_packets(rt, self.seats[place].evicted(), packets);
    }

    /// Fails unless these packets were pulled.
    pub fn assert_taken(&self, rt: &impl Abort, packets: &[Packet]) {
        assert_packets(rt, self.tap.taken(), packets);
    }

    /// Closes each seat.
    pub fn close(self, alloc: Global) -> Result<Closed, Fault> {
        let mut closed = Vec::new(alloc);
        for seat in self.seats {
            closed.push(seat.close())?;
        }
        Ok(Closed {
            queue: self.queue,
            seats: closed,
            tap: self.tap,
        })
    }
}

/// A queue whose seats are closed.
#[derive(Drop)]
pub struct Closed {
    queue: RuledQueue,
    seats: Vec<ClosedSeat>,
    tap: Tap,
}

impl Model for Closed {
    ghost use Rattle.std.specs.Prelude.{List};
    ghost use Rattle.clk_ruled.specs.Queue.{ClosedLists, TapLists};
    ghost use Rattle.clk_ruled.specs.Settle.{AreOpenedTogether};

    ghost Value = { TapLists × List ClosedLists };

    ghost view = { λ c. (c.tap, c.seats.items) };

    ghost invariant = { λ c. AreOpenedTogether c.queue c.tap c.seats.items };
}

impl Closed {
    fn pull(&mut self, rt: &impl Wait) -> Option<Packet> {
        calls_keep_together();
        self.tap.pull(&self.queue, rt)
    }

    /// Pulls, and fails unless the pull returns this.
    pub fn assert_pull<R: Abort + Wait>(&mut self, rt: &R, answer: Option<Packet>) {
        assert_eq!(rt; self.pull(rt), answer);
    }

    /// The tap gathers the seat at this place.
    pub fn gather(&mut self, rt: &impl Abort, place: usize) {
        calls_keep_together();
        assert!(rt; place < self.seats.len());
        self.tap.gather(&self.queue, &mut self.seats[place]);
    }

    /// Fails unless the closed seat at this place reads so.
    pub fn assert_reads(&self, rt: &impl Abort, alloc: Global, place: usize, expected: Reads) {
        assert!(rt; place < self.seats.len());
        assert_seat(rt, alloc, &self.seats[place], expected);
    }

    /// Settles the queue as that of number 0.
    pub fn settle(self, alloc: Global) -> Result<Settled, Fault> {
        settle(alloc, self.queue, self.tap, self.seats, 0)
    }
}

/// What a closed seat is expected to read: its sender, its next number and its room, and what was accepted, refused and evicted.
pub type Reads<'a> = ((u16, u32, u32), &'a [Packet], &'a [Packet], &'a [Packet]);

fn numbers(seat: &ClosedSeat) -> (u16, u32, u32) {
    (seat.sender(), seat.next(), seat.room())
}

fn assert_seat(rt: &impl Abort, alloc: Global, seat: &ClosedSeat, expected: Reads) {
    let (read, accepted, refused, evicted) = expected;
    assert_eq!(rt; numbers(seat), read);
    let listed = seat.accepted(alloc).expect(rt, "memory");
    assert_packets(rt, listed.as_slice(), accepted);
    assert_eq!(rt; seat.count_accepted(), accepted.len());
    assert_packets(rt, seat.refused(), refused);
    assert_packets(rt, seat.evicted(), evicted);
}

/// Fails unless these are the packets that are expected.
pub fn assert_packets(rt: &impl Abort, packets: &[Packet], expected: &[Packet]) {
    assert_eq!(rt; packets, expected);
}

/// A tally that is expected: its sender, and the packets that were accepted, refused and evicted.
pub type Expected<'a> = (u16, &'a [Packet], &'a [Packet], &'a [Packet]);

/// Fails unless a tally is as expected.
pub fn assert_tally(rt: &impl Abort, tally: &Tally, expected: Expected) {
    let (sender, accepted, refused, evicted) = expected;
    assert_eq!(rt; tally.sender, sender);
    assert_packets(rt, tally.accepted.as_slice(), accepted);
    assert_packets(rt, tally.refused.as_slice(), refused);
    assert_packets(rt, tally.evicted.as_slice(), evicted);
}

/// Fails unless the queue was settled with these tallies, in order, and with these packets pulled.
pub fn assert_settled(rt: &impl Abort, settled: &Settled, expected: &[Expected], taken: &[Packet]) {
    assert_eq!(rt; settled.tallies.len(), expected.len());
    for (tally, expected) in settled.tallies.iter().zip(expected) {
        assert_tally(rt, tally, *expected);
    }
    assert_packets(rt, settled.taken.as_slice(), taken);
}

/// The packets of a sender, in order.
pub fn of_sender(
    alloc: Global,
    sender: u16,
    packets: &[Packet],
) -> Result<Vec<Packet>, AllocError> {
    let mut theirs = Vec::new(alloc);
    for packet in packets {
        if packet.sender == sender {
            theirs.push(*packet)?;
        }
    }
    Ok(theirs)
}

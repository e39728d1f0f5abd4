//! Rings under the scripts of worked rows, at the ends of their capacities, and shared by threads.

ghost use Rattle.std.specs.Prelude.{◌≤◌};

use Call::{Offer, Pull};
use clk_locked::Locked;
use clk_packet::Offered::{Accepted, Evicted, Refused};
use clk_packet::{Kind, Offered, Packet};
use clk_ring::Ring;
use clk_rows::script::{Command, command_of, show_pull, show_sent};
use clk_rows::{EVICTS_OTHER_SENDER, FRONT_DROP_FULL, TAIL_DROP_FULL};
use std::alloc::AllocError;
use std::process::Abort;
use std::sync::Wait;
use std::test::Fail;
use std::thread;

// The packet of this number from this sender, of 1 to 65,535 bytes.
fn packet(sender: u16, number: u32, length: u16) -> Packet
    requires { 1 ≤ length }
{
    Packet {
        number,
        sender,
        length,
    }
}

/// A call on a queue, with its result.
#[derive(Clone, Copy)]
enum Call {
    Offer(Packet, Offered),
    Pull(Option<Packet>),
}

// Fails unless an offer returned this.
fn assert_offered(rt: &impl Abort, offered: Offered, answer: Offered) {
    assert_eq!(rt; offered, answer);
}

fn assert_pulled(rt: &impl Abort, pulled: Option<Packet>, answer: Option<Packet>) {
    assert_eq!(rt; pulled, answer);
}

// Makes calls on a ring, and fails unless they return these results.
fn make(rt: &impl Abort, ring: &mut Ring, calls: &[Call]) {
    for call in calls {
        match *call {
            Offer(packet, answer) => assert_offered(rt, ring.offer(packet), answer),
            Pull(answer) => assert_pulled(rt, ring.pull(), answer),
        }
    }
}

// Fails unless a ring returns these: how many packets it holds, whether it is empty, its kind and its capacity.
fn assert_tells(rt: &impl Abort, ring: &Ring, expected: (usize, bool, Kind, usize)) {
    assert_eq!(rt;
        (ring.len(), ring.is_empty(), ring.kind(), ring.capacity()),
        expected
    );
}

// tests/refuse-memory makes the one allocation of each constructor fail.
#[test]
fn a_ring_takes_memory_once(rt: HostRuntime) {
    let refused = Ring::new(rt.alloc(), Kind::FrontDrop, 3).err();
    assert_eq!(rt; refused, None);
}

#[test]
fn a_locked_ring_takes_memory_once(rt: HostRuntime) {
    let refused = Locked::new(rt.alloc(), Kind::TailDrop, 3).err();
    assert_eq!(rt; refused, None);
}

// The queue of a row, once as a ring and once under a lock. Also how many packets each of two senders sent to it, and the lines that a
// script writes of it.
#[derive(Drop)]
struct Both {
    ring: Ring,
    locked: Locked,
    sent: [u32; 2],
    text: String,
}

impl Both {
    fn carry_out<R: Wait + Abort>(&mut self, rt: &R, command: Command) -> Result<(), AllocError> {
        match command {
            Command::Send(sender, length) => self.send(rt, sender, length),
            Command::Pull(moment) => self.pull(rt, moment),
            Command::Drain(_) => {
                // Nothing is left.
                assert_pulled(rt, self.ring.pull(), None);
                assert_pulled(rt, self.locked.pull(rt), None);
                Ok(())
            }
        }
    }

    fn send<R: Wait + Abort>(
        &mut self,
        rt: &R,
        sender: u16,
        length: u16,
    ) -> Result<(), AllocError> {
        let sent = self
            .sent
            .get_mut(usize::from(sender))
            .expect(rt, "one of two");
        let number = *sent;
        *sent = number.saturating_add(1);
        assert!(rt; length >= 1);
        let packet = packet(sender, number, length);
        let offered = self.ring.offer(packet);
        assert_offered(rt, self.locked.offer(rt, packet), offered);
        show_sent(&mut self.text, packet, offered)
    }

    fn pull<R: Wait + Abort>(&mut self, rt: &R, moment: u64) -> Result<(), AllocError> {
        let pulled = self.ring.pull();
        assert_pulled(rt, self.locked.pull(rt), pulled);
        show_pull(&mut self.text, moment, pulled)
    }
}

#[test]
fn rows_are_answered(rt: HostRuntime) -> Result<(), Fail> {
    for (row, kind, capacity) in [
        (TAIL_DROP_FULL, Kind::TailDrop, 1),
        (FRONT_DROP_FULL, Kind::FrontDrop, 2),
        (EVICTS_OTHER_SENDER, Kind::FrontDrop, 1),
    ] {
        assert!(rt; capacity >= 1 && capacity <= 2);
        let mut both = Both {
            ring: Ring::new(rt.alloc(), kind, capacity)?,
            locked: Locked::new(rt.alloc(), kind, capacity)?,
            sent: [0; 2],
            text: String::new(rt.alloc()),
        };
        for line in row.script.lines() {
            both.carry_out(&rt, command_of(line).expect(&rt, "a command"))?;
        }
        assert!(rt;
            row.is_answered_by(&both.text),
            "at {}: {}",
            row.name,
            both.text
        );
    }
    Ok(())
}

#[test]
fn a_ring_tells_what_it_holds(rt: HostRuntime) -> Result<(), Fail> {
    for kind in [Kind::TailDrop, Kind::FrontDrop] {
        let mut ring = Ring::new(rt.alloc(), kind, 2)?;
        let only = packet(0, 0, 10);
        make(&rt, &mut ring, &[Offer(only, Accepted)]);
        assert_tells(&rt, &ring, (1, false, kind, 2));
        make(&rt, &mut ring, &[Pull(Some(only)), Pull(None)]);
        assert_tells(&rt, &ring, (0, true, kind, 2));
    }
    Ok(())
}

#[test]
fn a_ring_of_one_keeps_the_newest_of_a_thousand(rt: HostRuntime) -> Result<(), Fail> {
    let mut ring = Ring::new(rt.alloc(), Kind::FrontDrop, 1)?;
    let mut newest = packet(0, 0, 1);
    make(&rt, &mut ring, &[Offer(newest, Accepted)]);
    for number in 1..1000 {
        let next = packet(0, number, 1);
        assert_offered(&rt, ring.offer(next), Evicted(newest));
        newest = next;
    }
    make(&rt, &mut ring, &[Pull(Some(packet(0, 999, 1))), Pull(None)]);
    Ok(())
}

#[test]
fn a_ring_of_a_million_is_filled_and_refuses(rt: HostRuntime) -> Result<(), Fail> {
    let mut ring = Ring::new(rt.alloc(), Kind::TailDrop, 1_000_000)?;
    for number in 0..1_000_000 {
        assert_offered(&rt, ring.offer(packet(7, number, 64)), Accepted);
    }
    let late = packet(8, 0, 64);
    make(&rt, &mut ring, &[Offer(late, Refused(late))]);
    for number in 0..1_000_000 {
        assert_pulled(&rt, ring.pull(), Some(packet(7, number, 64)));
    }
    make(&rt, &mut ring, &[Pull(None)]);
    Ok(())
}

// Offers a hundred packets of this sender, one after another, each of which is accepted.
fn offer_a_hundred<R: Wait + Abort>(rt: &R, queue: &Locked, sender: u16) {
    for number in 0..100 {
        assert_offered(rt, queue.offer(rt, packet(sender, number, 1)), Accepted);
    }
}

// Pulls two hundred packets, and fails unless those of each of two senders come by number. Returns each sender's next number.
fn pull_two_hundred<R: Wait + Abort>(rt: &R, queue: &Locked) -> [u32; 2] {
    let mut next = [0; 2];
    for _ in 0..200 {
        let packet = queue.pull(rt).expect(rt, "a packet");
        let sender = usize::from(packet.sender);
        assert!(rt; sender < 2);
        assert_eq!(rt; packet.number, next[sender]);
        next[sender] = packet.number.saturating_add(1);
    }
    next
}

#[test]
fn two_threads_share_a_locked_queue(rt: HostRuntime) -> Result<(), Fail> {
    let queue = Locked::new(rt.alloc(), Kind::TailDrop, 1000)?;
    let shared = &queue;
    let handle = &rt;
    let started = thread::scope(thread::scope_env(), &rt, |scope| {
        let first = scope
            .spawn(move || offer_a_hundred(handle, shared, 0))
            .is_ok();
        let second = scope
            .spawn(move || offer_a_hundred(handle, shared, 1))
            .is_ok();
        first && second
    });
    assert!(rt; started);
    assert_eq!(rt; pull_two_hundred(&rt, &queue), [100, 100]);
    assert_pulled(&rt, queue.pull(&rt), None);
    Ok(())
}

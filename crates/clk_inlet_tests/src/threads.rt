//! A sender on a thread of its own, and the taker on the test's.

ghost use Rattle.std.specs.Prelude.{◌≤◌};
ghost use Rattle.clk_inlet.specs.Items.{IsShort};

use clk_inlet::{Inlet, Item, Outlet, Refusal, open};
use std::alloc::{AllocError, Global};
use std::process::Abort;
use std::sync::Wait;
use std::test::Fail;
use std::thread;
use std::thread::Threads;

// How many packets a sender has.
const PACKETS: u32 = 10_000;

// The packet of this number.
fn packet(number: u32) -> Item
    ensures has_length { 1 ≤ result.length }
    ensures short { IsShort result }
{
    Item {
        token: 1_000_000 + u64::from(number),
        length: 1 + number % 1500,
    }
}

// Offers the packet of this number until it is accepted, and returns whether it was accepted under its number.
fn offer(rt: &impl Wait, inlet: &mut Inlet, number: u32) -> bool {
    let item = packet(number);
    for _ in rt.forever() {
        match inlet.offer(item.bytes(), item.token) {
            Ok(told) => return told == number,
            Err(Refusal::Full) => thread::yield_now(),
            Err(Refusal::AtEnd) => break,
        }
    }
    false
}

// Offers all packets, and drops the inlet. Returns how many were accepted under their numbers.
fn send_all(rt: &impl Wait, inlet: Inlet) -> u32 {
    let mut inlet = inlet;
    (0..PACKETS)
        .filter(|number| offer(rt, &mut inlet, *number))
        .count() as u32
}

// Takes one by one and in batches, in turn, until the end has come.
fn take_all(rt: &impl Wait, alloc: Global, outlet: Outlet) -> Result<Vec<Item>, AllocError> {
    let mut outlet = outlet;
    let mut taken = Vec::new(alloc);
    let mut batch = [packet(0); 16];
    for _ in rt.forever() {
        if outlet.is_ended() {
            break;
        }
        if let Some(item) = outlet.take() {
            taken.push(item)?;
        }
        let count = outlet.take_many(&mut batch);
        if count == 0 {
            thread::yield_now();
        }
        taken.extend_from_slice(&batch[..count])?;
    }
    Ok(taken)
}

// Fails unless these are the first packets of a sender, in order.
fn assert_packets(rt: &impl Abort, taken: &[Item], count: u32) {
    assert_eq!(rt; taken.len(), count as usize);
    for (number, item) in (0..count).zip(taken) {
        assert_eq!(rt; *item, packet(number));
    }
}

#[test]
fn packets_come_in_order(rt: HostRuntime) -> Result<(), Fail> {
    let (inlet, outlet) = open(rt.alloc(), 64)?;
    let (accepted, taken) = thread::join(
        &rt,
        || send_all(&rt, inlet),
        || take_all(&rt, rt.alloc(), outlet),
    );
    assert_eq!(rt; accepted, PACKETS);
    assert_packets(&rt, taken?.as_slice(), PACKETS);
    Ok(())
}

// Offers three packets and ends. Returns how an offer after that is refused.
fn send_few(rt: &impl Wait, inlet: Inlet) -> Option<Refusal> {
    let mut inlet = inlet;
    for number in 0..3 {
        offer(rt, &mut inlet, number);
    }
    inlet.end();
    let item = packet(3);
    inlet.offer(item.bytes(), item.token).err()
}

#[test]
fn a_sender_ends_early(rt: HostRuntime) -> Result<(), Fail> {
    let (inlet, outlet) = open(rt.alloc(), 1)?;
    let (refusal, taken) = thread::join(
        &rt,
        || send_few(&rt, inlet),
        || take_all(&rt, rt.alloc(), outlet),
    );
    assert_eq!(rt; refusal, Some(Refusal::AtEnd));
    assert_packets(&rt, taken?.as_slice(), 3);
    Ok(())
}

//! Calls of both halves on one thread.

use crate::calling::through;
use clk_inlet::{Item, Refusal, open};
use std::test::Fail;

// A packet of this length, or the end, or what is too long for a packet.
fn item(length: u32, token: u64) -> Item {
    Item { token, length }
}

#[test]
fn packets_go_through(rt: HostRuntime) -> Result<(), Fail> {
    let (mut inlet, mut outlet) = open(rt.alloc(), 4)?;
    assert_eq!(rt; inlet.room(), 4);
    assert_eq!(rt; inlet.offer(60, 7), Ok(0));
    let batch = [item(1500, 8), item(64, 9), item(0, 0), item(70, 10)];
    assert_eq!(rt; inlet.offer_many(&batch), 2);
    assert_eq!(rt; inlet.room(), 1);
    outlet.beside(&mut inlet);
    assert_eq!(rt; outlet.take(), Some(item(60, 7)));
    let mut taken = [item(1, 1); 3];
    assert_eq!(rt; outlet.take_many(&mut taken), 2);
    assert_eq!(rt; taken, [item(1500, 8), item(64, 9), item(1, 1)]);
    assert_eq!(rt; outlet.take(), None);
    assert_eq!(rt; inlet.offer(70, 10), Ok(3));
    inlet.end();
    assert!(rt; !outlet.is_ended());
    assert_eq!(rt; inlet.room(), 0);
    assert_eq!(rt; inlet.offer(60, 11), Err(Refusal::AtEnd));
    assert_eq!(rt; inlet.offer_many(&batch), 0);
    let mut taken = [item(1, 1); 3];
    assert_eq!(rt; outlet.take_many(&mut taken), 1);
    assert_eq!(rt; taken, [item(70, 10), item(1, 1), item(1, 1)]);
    assert!(rt; outlet.is_ended());
    assert_eq!(rt; outlet.take(), None);
    Ok(())
}

#[test]
fn a_batch_stops_at_what_is_too_long(rt: HostRuntime) -> Result<(), Fail> {
    let (mut inlet, mut outlet) = open(rt.alloc(), 4)?;
    let batch = [item(65_535, 1), item(65_536, 2), item(60, 3)];
    assert_eq!(rt; inlet.offer_many(&batch), 1);
    assert_eq!(rt; inlet.offer_many(&batch[1..]), 0);
    assert_eq!(rt; outlet.take(), Some(item(65_535, 1)));
    assert_eq!(rt; outlet.take(), None);
    Ok(())
}

#[test]
fn a_full_inlet_accepts_later(rt: HostRuntime) -> Result<(), Fail> {
    let (mut inlet, mut outlet) = open(rt.alloc(), 2)?;
    let batch = [item(60, 1), item(61, 2), item(62, 3)];
    assert_eq!(rt; inlet.offer_many(&batch), 2);
    assert_eq!(rt; inlet.offer(62, 3), Err(Refusal::Full));
    assert_eq!(rt; outlet.take(), Some(item(60, 1)));
    assert_eq!(rt; inlet.room(), 1);
    assert_eq!(rt; inlet.offer(62, 3), Ok(2));
    assert_eq!(rt; inlet.offer(63, 4), Err(Refusal::Full));
    // The end has a slot of its own.
    drop(inlet);
    assert_eq!(rt; outlet.take(), Some(item(61, 2)));
    assert_eq!(rt; outlet.take(), Some(item(62, 3)));
    assert!(rt; !outlet.is_ended());
    assert_eq!(rt; outlet.take(), None);
    assert!(rt; outlet.is_ended());
    Ok(())
}

#[test]
fn the_caller_of_the_page(rt: HostRuntime) -> Result<(), Fail> {
    assert_eq!(rt; through(rt.alloc(), 60, 7)?, Some(item(60, 7)));
    Ok(())
}

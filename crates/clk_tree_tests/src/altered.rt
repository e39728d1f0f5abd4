//! Texts that are cut off, and texts in which one byte is replaced.

use crate::parts::told_parts;
use crate::row::{plan_of, session_of, written_of};
use clk_rows::trees::{COMMENTED, PRIO_OVER_ROOM_FOR_TWO, TWO_DEVICES};
use clk_tree::Plan;
use std::alloc::Global;
use std::process::Abort;

/// The bytes that replace each byte.
const OTHERS: [u8; 10] = [b'x', b'1', b';', b',', b'/', b'*', b'[', b'\n', 200, 0];

// Fails unless the canonical text of a plan denotes the same plan.
fn assert_plan(rt: &impl Abort, alloc: Global, plan: &Plan) {
    let written = written_of(rt, alloc, plan);
    let again = plan_of(rt, alloc, &written);
    assert_eq!(rt; written_of(rt, alloc, &again), written);
    assert_eq!(rt; told_parts(rt, alloc, &again), told_parts(rt, alloc, plan));
}

// Fails unless a session takes each tree of a plan.
fn assert_sessions(rt: &impl Abort, alloc: Global, plan: &Plan) {
    for device in 0..plan.devices() {
        let _session = session_of(rt, alloc, plan, device);
    }
}

// Fails unless a text denotes a plan, or has a fault of a text, which fault 12 is not.
fn assert_plan_or_fault(rt: &impl Abort, alloc: Global, text: &[u8]) {
    match Plan::read(alloc, text) {
        Ok(plan) => {
            assert_plan(rt, alloc, &plan);
            assert_sessions(rt, alloc, &plan);
        }
        Err(fault) => {
            let number = fault.number();
            assert!(rt;
                (number >= 2 && number <= 11) || number == 13 || number == 18,
                "{fault}"
            );
        }
    }
}

// Fails unless a text, with each of the other bytes at a place, denotes a plan or has a fault of a text.
fn assert_bytes(rt: &impl Abort, alloc: Global, text: &[u8], place: usize) {
    let mut altered = text.to_vec(alloc).expect(rt, "memory");
    for byte in OTHERS {
        if let Some(old) = altered.get_mut(place) {
            *old = byte;
        }
        assert_plan_or_fault(rt, alloc, &altered);
    }
}

// Fails unless each front of a text, and the text with each other byte at each place, denotes a plan or has a fault of a text.
fn assert_altered(rt: &impl Abort, alloc: Global, text: &[u8]) {
    for place in 0..=text.len() {
        assert_plan_or_fault(rt, alloc, &text[..place]);
        assert_bytes(rt, alloc, text, place);
    }
}

#[test]
fn altered_texts_are_answered(rt: HostRuntime) {
    for text in [PRIO_OVER_ROOM_FOR_TWO, COMMENTED, TWO_DEVICES] {
        assert_altered(&rt, rt.alloc(), text.as_bytes());
    }
}

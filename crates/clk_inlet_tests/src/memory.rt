//! The memory of an inlet. tests/refuse-memory makes each allocation of opening one fail in turn.

use clk_inlet::{Item, open};
use std::mem::size_of;

#[test]
fn an_item_takes_16_bytes(rt: HostRuntime) {
    assert_eq!(rt; size_of::<Item>(), 16);
}

#[test]
fn an_inlet_allocates_at_open(rt: HostRuntime) {
    let refused = open(rt.alloc(), 3).err();
    if refused.is_some() {
        assert!(rt; open(rt.alloc(), 3).is_ok());
    }
    assert_eq!(rt; refused, None);
}

//! Inlets: bounded rings through which one sender passes packets to one taker, each on a thread of its own.
#![tactic(auto)]

mod examples;
mod inlet;
mod item;
mod limits;
mod outlet;
mod ring;

pub use examples::{order_examples, whole_examples};
pub use inlet::{Inlet, Refusal};
pub use item::Item;
pub use limits::{MAX_LENGTH, MAX_PACKETS, MAX_ROOM};
pub use outlet::Outlet;
pub use ring::open;

//! What the tests of several crates have sessions of `clk_sched` over: trees, and queues that a test fills.
#![tactic(auto)]

mod queues;
pub mod trees;

pub use queues::{Queue, Queues};

//! Producers on threads and a consumer for each device, over shared queues. At the end the devices are drained of what the queues still
//! hold, and every packet is accounted for.
#![tactic(auto)]

mod at_leaf;
mod closing;
mod drained;
mod examples;
mod laws;
mod line;
mod lines;
mod outcome;
mod running;

pub use clk_gate::{Free, Gate, MAX_LIMIT, MAX_STEP};
pub use closing::close_and_drain;
pub use drained::Drained;
pub use examples::{moment_examples, outcome_examples, run_examples};
pub use laws::{
    losses_have_lists, runs_account_for_emitted, runs_hold_nothing, settled_devices_hold_nothing,
    taps_take_what_leaves_give,
};
pub use line::Line;
pub use lines::Lines;
pub use outcome::Outcome;
pub use running::{run, run_with};

//! Runs of a plan over a trace through inlets: each sender on a thread of its own, one consumer for all devices, and a record of what
//! happened.
#![tactic(auto)]

mod closing;
mod consumer;
mod outcome;
mod recording;
mod report;
mod running;
mod senders;
mod threads;

pub use outcome::LiveOutcome;
pub use report::report_accounts;
pub use running::run_live;

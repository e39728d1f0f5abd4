//! What runs with producers on threads have in common: their limits, the gate that can follow or hold up each step, and the check of the
//! senders of a trace.
#![tactic(auto)]

mod gate;
mod known;
mod limits;

pub use gate::{Free, Gate};
pub use known::check_senders;
pub use limits::{MAX_LIMIT, MAX_STEP};

//! Trees of pull schedulers, sessions that pull them, and what a run of one is.
#![tactic(auto)]

mod ask;
mod backlog;
mod examples;
mod laws;
mod limits;
mod session;
mod tree;
mod visit;

pub use ask::Ask;
pub use backlog::Backlog;
pub use examples::{
    deficit_examples, device_examples, drain_examples, due_examples, full_drain_examples,
    nested_examples, priority_examples, pull_examples, refusal_examples, result_examples,
    round_robin_examples, shaper_examples, short_drain_examples, stride_examples,
};
pub use laws::{
    closing_bound_is_enough, pulls_emit_once_due, runs_can_go_on, runs_conserve_packets,
    runs_go_on, runs_leave_no_choice, runs_share_out,
};
pub use limits::{END_OF_DRAINED_PULLS, END_OF_DRAINS, END_OF_MOMENTS, END_OF_PULLS, MAX_LEFT};
pub use session::Session;
pub use session::departures::Departure;
pub use session::keeps::Keeps;
pub use session::packed::{PackedLog, PackedVisit};
pub use tree::Tree;
pub use visit::Visit;

//! Bounded queues of packets for one thread at a time: a ring of either kind.
#![tactic(auto)]

mod laws;
mod ring;

pub use laws::{
    calls_are_history, histories_are_calls, histories_leave_no_choice, history_examples,
};
pub use ring::Ring;

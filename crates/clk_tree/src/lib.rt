//! Trees of schedulers in Click's language: the plan that a text denotes.
#![tactic(auto)]

mod laws;
mod plan;

pub use laws::texts_have_one_meaning;
pub use plan::{Element, Plan, QueueSpec, SenderSpec};

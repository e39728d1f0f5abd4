//! The router of a plan, on one thread: its senders, its queues, and for each device a session of its tree over the queues.
#![tactic(auto)]

mod accounts;
mod counting;
mod devices;
mod examples;
mod filled;
mod limits;
mod parts;
mod past;
mod queue_state;
mod queues;
mod router;
mod senders;

pub use accounts::{Account, accounts_of, count_drained, count_offered, count_pulled};
pub use counting::CountingRouter;
pub use examples::{accounted_examples, event_examples, out_examples, settled_examples};
pub use limits::END_OF_PACKETS;
pub use queue_state::QueueState;
pub use router::Router;
pub use senders::{numbers_of, place_of};

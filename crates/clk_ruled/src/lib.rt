//! Bounded queues of packets that many senders and one consumer share without a lock, and on which every packet is accounted for.
#![tactic(auto)]

mod accepted;
mod closed;
mod examples;
mod laws;
mod open;
mod protocol;
mod queue;
mod seat;
mod settling;
mod taken;
mod tap;
mod view;

pub use closed::ClosedSeat;
pub use examples::{account_examples, fault_examples, settled_examples};
pub use laws::{calls_keep_together, queues_keep_account};
pub use open::Opened;
pub use queue::RuledQueue;
pub use seat::Seat;
pub use settling::{Settled, settle};
pub use tap::Tap;
pub use view::{Gathered, QueueSetup, View};

//! What every crate of the pull half of a router speaks of: packets, faults, and where bytes come from and go.
#![tactic(auto)]

mod bytes;
mod counts;
mod examples;
mod failing;
mod failures;
mod fault;
mod from_std;
mod io;
mod lengths;
mod limits;
mod number;
mod packet;
mod packets;
mod scheduler;
mod tally;
mod traces;

pub use bytes::{keep_freed, let_go, read_up_to, write_all};
pub use counts::{Counts, Total};
pub use examples::writing_examples;
pub use failing::{FailingSink, FailingSource};
pub use failures::Failures;
pub use fault::Fault;
pub use from_std::{FromRead, ToWrite};
pub use io::{Failed, Sink, Source};
pub use limits::{
    DEFAULT_QUANTUM, MAX_BURST, MAX_CAPACITY, MAX_ELEMENTS, MAX_INPUTS, MAX_LENGTH, MAX_LEVELS,
    MAX_QUANTUM, MAX_RATE, MAX_RECORDS, MAX_SENDER, MAX_TICKETS, MAX_TRACE_BYTES,
};
pub use number::{leading_number, number_before, number_in};
pub use packet::{Kind, Offered, Packet};
pub use packets::Packets;
pub use scheduler::{Scheduler, SchedulerName};
pub use tally::Tally;
pub use traces::Traces;

//! Traces that run on threads, whose reports are the same in every schedule.

use crate::trees::{self, DRR_1_OVER_ONE, DRR_500_OVER_TWO, EIGHT_SENDERS, FOUR_AT_EACH};

/// A run of a trace over a tree, under the name of what it shows.
#[derive(Clone, Copy)]
pub struct Run {
    pub name: &'static str,
    pub tree: &'static str,
    /// Records. The trace has them so many times, one after another.
    pub records: &'static str,
    pub times: usize,
    pub report: &'static str,
}

/// A record of 64 bytes of each of eight senders.
const ONE_OF_EIGHT: &str = "0,64\n1,64\n2,64\n3,64\n4,64\n5,64\n6,64\n7,64\n";

/// The report if each of eight senders sent a hundred packets of 64 bytes.
const HUNDRED_OF_EIGHT: &str =
    "sender 0: sent 100 6400, accepted 100 6400, refused 0 0, evicted 0 0, emitted 100 6400\n\
    sender 1: sent 100 6400, accepted 100 6400, refused 0 0, evicted 0 0, emitted 100 6400\n\
    sender 2: sent 100 6400, accepted 100 6400, refused 0 0, evicted 0 0, emitted 100 6400\n\
    sender 3: sent 100 6400, accepted 100 6400, refused 0 0, evicted 0 0, emitted 100 6400\n\
    sender 4: sent 100 6400, accepted 100 6400, refused 0 0, evicted 0 0, emitted 100 6400\n\
    sender 5: sent 100 6400, accepted 100 6400, refused 0 0, evicted 0 0, emitted 100 6400\n\
    sender 6: sent 100 6400, accepted 100 6400, refused 0 0, evicted 0 0, emitted 100 6400\n\
    sender 7: sent 100 6400, accepted 100 6400, refused 0 0, evicted 0 0, emitted 100 6400\n";

/// Eight senders share a queue that has room for all that they send.
pub const EIGHT_SENDERS_ONE_QUEUE: Run = Run {
    name: "eight-senders-one-queue",
    tree: EIGHT_SENDERS,
    records: ONE_OF_EIGHT,
    times: 100,
    report: HUNDRED_OF_EIGHT,
};

/// Four of eight senders share the queue of one device, and the other four that of another.
pub const EIGHT_SENDERS_TWO_DEVICES: Run = Run {
    name: "eight-senders-two-devices",
    tree: FOUR_AT_EACH,
    records: ONE_OF_EIGHT,
    times: 100,
    report: HUNDRED_OF_EIGHT,
};

/// Each sender of the tree is reported, even if the trace has no record.
pub const EMPTY_TRACE_TWO_QUEUES: Run = Run {
    name: "empty-trace-two-queues",
    tree: DRR_500_OVER_TWO,
    records: "",
    times: 0,
    report: "sender 0: sent 0 0, accepted 0 0, refused 0 0, evicted 0 0, emitted 0 0\n\
    sender 1: sent 0 0, accepted 0 0, refused 0 0, evicted 0 0, emitted 0 0\n",
};

/// The longest packet waits for 65,535 quanta of a byte. A drain of one packet may make 131,072 pulls.
pub const LONG_RUN: Run = Run {
    name: "long-run",
    tree: DRR_1_OVER_ONE,
    records: "0,65535\n",
    times: 1,
    report: "sender 0: sent 1 65535, accepted 1 65535, refused 0 0, evicted 0 0, emitted 1 65535\n",
};

/// A tree without a sender has a report without a line.
pub const NO_SENDER: Run = Run {
    name: "no-sender",
    tree: trees::NO_SENDER,
    records: "",
    times: 0,
    report: "",
};

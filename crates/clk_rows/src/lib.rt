//! Worked rows, each written once for the tests of all crates that show it, and how their scripts are read and their lines are written.
//!
//! A row that the tests of one crate alone show stands there. Some rows are written again elsewhere, where a text of Rust can't be read.
//! The examples in `specs/Examples/` of `clk_sched` have some as visits of a definition, and the stored run of the program has
//! `prio-two-queues` in its files. The tests of `clk_ruled` have the rows of full queues as calls of seats, which return lists of packets.
#![tactic(auto)]

mod deficit;
mod devices;
mod in_order;
mod queues;
mod runs;
pub mod script;
mod shaper;
mod stride;
mod texts;
pub mod trees;

pub use deficit::{
    DEFICIT_HELD, DEFICIT_HELD_AT_CLOSE, DEFICIT_TWO_QUEUES, LONG_DRAIN, NESTED_DEFICIT,
    QUANTUM_EACH, VISIT_CSV,
};
pub use devices::{TWO_DEVICES, TWO_DEVICES_DRAINED};
pub use in_order::{PRIO_TWO_QUEUES, ROUND_ROBIN_THREE};
pub use queues::{EVICTS_OTHER_SENDER, FRONT_DROP_FULL, TAIL_DROP_FULL};
pub use runs::{
    EIGHT_SENDERS_ONE_QUEUE, EIGHT_SENDERS_TWO_DEVICES, EMPTY_TRACE_TWO_QUEUES, LONG_RUN,
    NO_SENDER, Run,
};
pub use shaper::{SHAPER_BURST_TWO, SHAPER_LATE_MOMENT};
pub use stride::{STRIDE_IDLE_INPUT, STRIDE_TWO_TO_ONE};
pub use texts::{CANONICAL_TEXT, Text};

/// A script over a tree, under the name of what it shows.
#[derive(Clone, Copy)]
pub struct Row {
    pub name: &'static str,
    pub tree: &'static str,
    pub script: &'static str,
    /// What the script writes.
    pub answer: &'static str,
    /// Its visits as CSV, without the header. Empty if it shows none.
    pub visits: &'static str,
}

/// All scripts.
pub const SCRIPTS: [Row; 18] = [
    PRIO_TWO_QUEUES,
    ROUND_ROBIN_THREE,
    TAIL_DROP_FULL,
    FRONT_DROP_FULL,
    EVICTS_OTHER_SENDER,
    DEFICIT_TWO_QUEUES,
    VISIT_CSV,
    DEFICIT_HELD,
    DEFICIT_HELD_AT_CLOSE,
    NESTED_DEFICIT,
    LONG_DRAIN,
    QUANTUM_EACH,
    STRIDE_TWO_TO_ONE,
    STRIDE_IDLE_INPUT,
    SHAPER_BURST_TWO,
    SHAPER_LATE_MOMENT,
    TWO_DEVICES,
    TWO_DEVICES_DRAINED,
];

//! What a run through inlets returns.

use clk_live::Live;
use clk_packet::Sink;

/// The outcome of a run through inlets, after all its packets are out of the router.
#[derive(Drop)]
pub struct LiveOutcome<R: Sink + Drop> {
    /// The router, which has the account of each sender.
    pub live: Live,
    /// The sink of the record.
    pub sink: R,
    /// Whether the sink failed. If it did, it has a front of the record.
    pub write_failed: bool,
}

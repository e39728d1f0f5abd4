//! A live router with its inlets and tokens.

use super::taking::Slots;
use clk_inlet::Inlet;
use clk_live::{Live, Reclaimed};

/// A live router, and the inlets that were not handed out yet.
#[derive(Drop)]
pub struct LiveRouter {
    /// The router, until its tokens are reclaimed.
    pub live: Option<Live>,
    /// The inlet of each sender, at the sender's place, until it is handed out.
    pub inlets: Vec<Option<Box<Inlet>>>,
    /// The tokens that are left to reclaim, once there is no router.
    pub reclaimed: Reclaimed,
    /// Where packets are put as they are taken. Only the call that takes them reads them.
    pub slots: Slots,
}

//! What a drain of a session returns.

ghost use Rattle.std.specs.Prelude.{◌≡◌, IfOk, IsOkUnless};
ghost use Rattle.clk_sched.specs.Packed.{logged};

use clk_packet::{Fault, Packet, Tally};
use clk_sched::{PackedLog, Visit};
use std::alloc::Global;

/// The outcome of a device, after all who sent to its queues had closed their seats and it was drained. Its log may be packed.
#[derive(Drop)]
pub struct Drained<L = Vec<Visit>> {
    /// The packets that the device emitted, in order, if these or visits are kept.
    pub emitted: Vec<Packet>,
    /// Every visit of its tree, in order, if visits are kept.
    pub log: L,
    /// What was accepted, refused and evicted of each sender's packets: one tally a sender, by rising number.
    pub tallies: Vec<Tally>,
}

impl Drained<PackedLog> {
    /// This outcome with its log as a list. Fault 1 if an allocation fails.
    pub(crate) fn unpack(self, alloc: Global) -> Result<Drained, Fault>
        ensures emitted { IfOk result (λ drained. drained.emitted.items ≡ self.emitted.items) }
        ensures log { IfOk result (λ drained. drained.log.items ≡ logged self.log) }
        ensures tallies { IfOk result (λ drained. drained.tallies.items ≡ self.tallies.items) }
        ensures fault { IsOkUnless result Fault.Memory }
    {
        let Drained {
            emitted,
            log,
            tallies,
        } = self;
        Ok(Drained {
            emitted,
            log: log.into_vec(alloc)?,
            tallies,
        })
    }
}

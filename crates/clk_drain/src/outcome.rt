//! What a run returns.

ghost use Rattle.std.specs.Prelude.{◌≡◌, map, IfOk, IsOkUnless};
ghost use Rattle.clk_sched.specs.Packed.{logged};

use clk_packet::{Fault, Packet, Tally};
use clk_sched::{PackedLog, Visit};
use std::alloc::Global;

/// The outcome of a run, after all producers had closed their seats and every device was drained. Its logs may be packed.
#[derive(Drop)]
pub struct Outcome<L = Vec<Visit>> {
    /// For each device, by its number, the packets that it emitted, in order, if these or visits are kept.
    pub emitted: Vec<Vec<Packet>>,
    /// For each device every visit of its tree, in order, if visits are kept.
    pub logs: Vec<L>,
    /// What was accepted, refused and evicted of each sender's packets: one tally a sender of the plan, by rising number.
    pub tallies: Vec<Tally>,
}

impl Outcome<PackedLog> {
    /// This outcome with its logs as lists. Allocates a list of logs, and a list for each log that is packed.
    ///
    /// # Errors
    ///
    /// Fault 1 if an allocation fails.
    pub fn unpack(self, alloc: Global) -> Result<Outcome, Fault>
        ensures emitted { IfOk result (λ outcome. outcome.emitted.items ≡ self.emitted.items) }
        ensures logs { IfOk result (λ outcome. map (λ log. log.items) outcome.logs.items ≡ map logged self.logs.items) }
        ensures tallies { IfOk result (λ outcome. outcome.tallies.items ≡ self.tallies.items) }
        ensures fault { IsOkUnless result Fault.Memory }
    {
        let Outcome {
            emitted,
            logs,
            tallies,
        } = self;
        let mut unpacked = Vec::with_capacity(alloc, logs.len())?;
        for log in logs {
            unpacked.push(log.into_vec(alloc)?)?;
        }
        Ok(Outcome {
            emitted,
            logs: unpacked,
            tallies,
        })
    }
}

//! What all threads of a run share.

use clk_gate::Gate;
use clk_packet::Traces;
use std::marker::Model;
use std::sync::Wait;
use std::sync::atomic::{AtomicU64, Ordering};

/// What all threads of a run share: what is sent, at which moments devices are pulled, and how many producers are done.
#[derive(Drop)]
pub struct RunTerms<'a, W: Wait, G: Gate> {
    pub wait: &'a W,
    pub traces: &'a Traces,
    pub gate: &'a G,
    /// How many ticks lie between two pulls of a device, from 1 to 1,000.
    pub step: u32,
    /// How often a device is pulled at most while producers run, from 1 to 1,000,000.
    pub limit: u32,
    pub producers: u64,
    /// How many of the producers are done.
    pub through: AtomicU64,
}

impl<'a, W: Wait, G: Gate> Model for RunTerms<'a, W, G> {
    ghost use Rattle.std.specs.Prelude.{◌≤◌};
    ghost use Rattle.clk_gate.specs.declared.limits.TheConstants.{MAX_STEP, MAX_LIMIT};
    ghost use Rattle.clk_drain.specs.inside.Threads.{Terms};

    ghost Value = { Terms };

    ghost view = { λ c. record { traces = c.traces.now; step = c.step; limit = c.limit } };

    ghost invariant = { λ c. (c.step ≤ MAX_STEP) × (c.limit ≤ MAX_LIMIT) };
}

impl<'a, W: Wait, G: Gate> RunTerms<'a, W, G> {
    ghost use Rattle.std.specs.Prelude.{◌≡◌, ◌≤◌, ◌*◌, ◌<◌};
    ghost use Rattle.clk_sched.specs.declared.limits.TheConstants.{END_OF_MOMENTS};
    ghost use Rattle.clk_gate.specs.declared.limits.TheConstants.{MAX_STEP, MAX_LIMIT};

    /// What the threads share, if `producers` producers are to run.
    pub fn new(
        wait: &'a W,
        traces: &'a Traces,
        gate: &'a G,
        step: u32,
        limit: u32,
        producers: usize,
    ) -> RunTerms<'a, W, G>
        requires step { step ≤ MAX_STEP }
        requires limit { limit ≤ MAX_LIMIT }
        ensures { result ≡ record { traces = traces.now; step = step; limit = limit } }
    {
        RunTerms {
            wait,
            traces,
            gate,
            step,
            limit,
            producers: producers as u64,
            through: AtomicU64::new(0),
        }
    }

    /// How often a device is pulled at most while producers run.
    pub fn limit(&self) -> u32
        ensures value { result ≡ self.now.limit }
        ensures within { result ≤ MAX_LIMIT }
    {
        self.limit
    }

    /// The moment, in ticks, of a device's pull with this number, counted from 1.
    pub fn moment(&self, pull: u32) -> u64
        requires { pull ≤ self.now.limit }
        ensures moment { result ≡ pull * self.now.step }
        ensures within { result < END_OF_MOMENTS }
    {
        u64::from(pull) * u64::from(self.step)
    }

    /// Whether all producers are done.
    pub fn is_over(&self) -> bool {
        self.through.load(Ordering::SeqCst) == self.producers
    }
}

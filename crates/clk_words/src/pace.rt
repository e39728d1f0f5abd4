//! The pace of a run.

ghost use Rattle.std.specs.Prelude.{◌≤◌};
ghost use Rattle.clk_gate.specs.declared.limits.TheConstants.{MAX_LIMIT, MAX_STEP};

/// How devices are pulled while producers run.
#[derive(Clone, Copy, Debug, PartialEq, Eq)]
pub struct Pace {
    /// How many ticks lie between two pulls of a device, from 1 to 1,000.
    pub step: u32,
    /// How often a device is pulled at most while producers run, from 1 to 1,000,000.
    pub limit: u32,
    ghost some_step: { 1 ≤ step },
    ghost step_within: { step ≤ MAX_STEP },
    ghost some_limit: { 1 ≤ limit },
    ghost limit_within: { limit ≤ MAX_LIMIT },
}

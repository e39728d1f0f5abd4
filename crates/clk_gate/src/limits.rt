//! The limits of a run (this project's own choice).

/// The largest number of ticks between two pulls of a device while producers run.
pub const MAX_STEP: u32 = 1000;

/// The largest number of pulls of a device while producers run.
pub const MAX_LIMIT: u32 = 1_000_000;

//! The limits of a script (this project's own choice).

/// How many bytes a script may have at most.
pub const MAX_SCRIPT_BYTES: usize = 33_554_432;

/// How many lines a script may have at most.
pub const MAX_LINES: u32 = 1_000_000;

/// The greatest moment that a script may name, in ticks.
pub const MAX_MOMENT: u64 = (1 << 40) - 1;

/// The greatest number of a device that a line may hold.
pub const MAX_DEVICE: u64 = 65_535;

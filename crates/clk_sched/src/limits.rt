//! The limits of sessions (this project's own choice).

/// The moment, in ticks, from which on no device is pulled, so that the tokens of a bucket fit 64 bits.
pub const END_OF_MOMENTS: u64 = 1 << 44;

/// The counted moment, in ticks, from which on no drain begins: its pulls stay below the end of moments.
pub const END_OF_DRAINS: u64 = (1 << 43) - 1;

/// How many packets are left to a drain at most.
pub const MAX_LEFT: u64 = 1_000_000;

/// The number of pulls from which on a session is not pulled, so that their numbers fit 64 bits.
pub const END_OF_PULLS: u64 = 1 << 63;

/// The number of pulls below which a drain doesn't come to the end of pulls.
pub const END_OF_DRAINED_PULLS: u64 = 1 << 62;

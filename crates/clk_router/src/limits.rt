//! The limit of a router (this project's own choice).

/// A device takes no more packets once this many were accepted at it and not evicted, so that their count fits 64 bits.
pub const END_OF_PACKETS: u64 = 1 << 63;

//! The limits of an inlet (this project's own choice).

/// The largest number of packets that an inlet has room for.
pub const MAX_ROOM: u32 = 1 << 24;

/// The greatest length of a packet, in bytes. It fits 16 bits.
pub const MAX_LENGTH: u32 = 65_535;

/// The largest number of packets that go through an inlet in all. The number of each fits 32 bits.
pub const MAX_PACKETS: u32 = u32::MAX;

//! The limits of packets, queues, trees and traces (this project's own choice).

/// The greatest number of a sender.
pub const MAX_SENDER: u64 = 65_535;

/// The greatest length of a packet, in bytes.
pub const MAX_LENGTH: u64 = 65_535;

/// How many packets a queue holds at most.
pub const MAX_CAPACITY: u32 = 1_000_000;

/// How many inputs a scheduler has at most.
pub const MAX_INPUTS: usize = 64;

/// How many schedulers stand on a path at most.
pub const MAX_LEVELS: u8 = 64;

/// The greatest quantum of an input of a DRRSched, in bytes.
pub const MAX_QUANTUM: u32 = 1_000_000;

/// The quantum of each input of a DRRSched, in bytes, if its arguments are left out (Click's default).
pub const DEFAULT_QUANTUM: u32 = 500;

/// How many tickets an input of a StrideSched has at most.
pub const MAX_TICKETS: u32 = 32_768;

/// The greatest rate of a Shaper, in packets a tick.
pub const MAX_RATE: u32 = 1_000_000;

/// The greatest burst of a Shaper, in packets.
pub const MAX_BURST: u32 = 1_000_000;

/// How many queues and schedulers a tree of a session has at most, the device counted.
pub const MAX_ELEMENTS: u16 = 256;

/// How many bytes a trace may have.
pub const MAX_TRACE_BYTES: usize = 33_554_432;

/// How many records a trace may have.
pub const MAX_RECORDS: u32 = 1_000_000;

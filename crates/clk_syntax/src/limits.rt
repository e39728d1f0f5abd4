//! The limits of a tree text (this project's own choice).

/// How many bytes a text may have.
pub const MAX_TREE_BYTES: usize = 1_048_576;

/// The greatest port.
pub const MAX_PORT: u32 = 65_535;

/// The capacity of a queue, in packets, if its argument is left out.
pub const DEFAULT_CAPACITY: u32 = 1000;

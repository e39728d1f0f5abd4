//! How long explanations are (this project's own choice).

/// How many bytes of a line are shown at most.
pub const SHOWN: usize = 120;

/// How many of them stand before the fault at most.
pub const SHOWN_BEFORE: usize = 80;

/// How many bytes a line of words has at most.
pub const MAX_WORDS: usize = 200;

/// How many bytes of a word are quoted at most.
pub const MAX_QUOTED: usize = 40;

/// How many bytes an explanation has at most.
pub const MAX_EXPLANATION: usize = 1024;

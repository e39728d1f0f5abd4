//! The kinds of warnings.

/// What a plan says, but hardly means. `element` is the place of the element that the warning is about, from 0 in order of declaration.
/// Inputs are counted from 0.
#[derive(Clone, Copy, Debug, PartialEq, Eq)]
pub enum Warning {
    /// The quantum of an input of a DRRSched is below the longest packet that reaches the input. A pull may then return nothing, though
    /// packets wait, while the input saves up.
    SmallQuantum {
        element: usize,
        input: usize,
        /// In bytes.
        quantum: u32,
        /// The length of the longest packet that reaches the input, in bytes. Without a trace it is `USUAL_LENGTH`.
        longest: u16,
        /// Whether it may lose its priority: a PrioSched prefers the DRRSched, or a scheduler or Shaper that the DRRSched is below, to
        /// another input. The PrioSched may ask that input while the DRRSched returns nothing.
        preferred: bool,
    },
    /// The burst of a Shaper is below its rate. It passes no more packets than the burst at one moment, so it never reaches the rate.
    SmallBurst {
        element: usize,
        /// In packets a tick.
        rate: u32,
        /// In packets.
        burst: u32,
    },
    /// No sender is connected to a queue.
    UnusedQueue {
        element: usize,
    },
    /// Two inputs of a StrideSched have different tickets, but one stride, since strides are rounded down. So they get the same share.
    SameStride {
        element: usize,
        input: usize,
        /// The first earlier input that has other tickets and the same stride.
        other: usize,
        stride: u32,
    },
    /// A scheduler has one input, so it has nothing to choose from. A Shaper isn't meant.
    OneInput {
        element: usize,
    },
    /// A sender has more packets in the trace than its queue holds. They may all come before the first pull.
    SmallQueue {
        element: usize,
        /// In packets.
        capacity: u32,
        /// The number of the sender.
        sender: u16,
        /// How many packets it has in the trace.
        packets: u32,
    },
}

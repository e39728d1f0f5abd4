//! How many packets of a sender, and how many bytes.

/// How many packets, and how many bytes in all of them. `N` is the type of a count.
#[derive(Clone, Copy, Debug)]
pub struct Total<N> {
    /// How many packets.
    pub packets: N,
    /// How many bytes in all of them.
    pub bytes: N,
}

/// The totals of a sender's packets. Those that it sent are those that its queue accepted, and those that the queue refused.
#[derive(Clone, Copy, Debug)]
pub struct Counts<N> {
    /// The number of the sender.
    pub sender: u16,
    /// What its queue accepted.
    pub accepted: Total<N>,
    /// What its queue refused.
    pub refused: Total<N>,
    /// What its queue accepted, and later evicted.
    pub evicted: Total<N>,
    /// What a device emitted.
    pub emitted: Total<N>,
}

//! A gate, which the threads of a run pass at each step.

/// What the threads of a run call at each step, so that the caller can follow them or hold them up. A run promises the same whatever a gate
/// does, as long as its calls return.
pub trait Gate {
    /// A producer is about to offer this packet of its sender. Packets are numbered from 0. In a run over shared queues, the other
    /// producers of the queue may wait a little for a producer that is held up here, before each 1,024 packets. Then they go on.
    fn before(&self, sender: u16, number: u32);

    /// The consumer of a device has made its n-th pull, counted from 1. The gate is not told of the pulls of the drain.
    fn pulled(&self, device: u16, n: u64);
}

/// The gate that does nothing.
#[derive(Clone, Copy)]
pub struct Free;

impl Gate for Free {
    fn before(&self, _sender: u16, _number: u32) {}

    fn pulled(&self, _device: u16, _n: u64) {}
}

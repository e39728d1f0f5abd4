//! Which queues have packets.

ghost use Rattle.std.specs.Prelude.{◌≡◌, ℕ, Bool};

/// Queues of which one can ask whether they have a packet, without taking it.
pub trait Backlog {
    // Which leaves have a queue that holds a packet.
    ghost backlogged: { Self → ℕ → Bool };

    /// Whether the queue at a leaf holds a packet. No queue stands at a leaf that is not there.
    fn is_backlogged(&self, leaf: u16) -> bool
        ensures { result ≡ backlogged self.now leaf };
}

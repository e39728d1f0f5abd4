//! What a tree pulls from.

ghost use Rattle.std.specs.Prelude.{◌≡◌, ℕ, ◌<◌, ◌≤◌, ◌+◌, Bool, false, None};
ghost use Rattle.std.specs.declared.option.Option.{Option};
ghost use Rattle.clk_packet.specs.declared.packet.Packet.{Packet};

use clk_packet::Packet;

/// What a tree pulls packets from.
pub trait Ask {
    // Which leaves there are.
    ghost has: { Self → ℕ → Bool };

    // How many packets it holds for each leaf. An implementation that says nothing of them may use 0.
    ghost holds: { Self → ℕ → ℕ };

    // Which results a call may return for a leaf in a state, and which state follows.
    ghost gives: { Self → ℕ → Option Packet → Self → Type 0 };

    /// Takes the next packet of the queue at a leaf, if it has one. A leaf that isn't there has none.
    fn ask(&mut self, leaf: u16) -> Option<Packet>
        ensures answer { gives self.old leaf result self.new }
        ensures missing { has self.old leaf ≡ false → result ≡ None };

    /// How many queues from a leaf on are known to be empty, `count` at most and without a gap, so that they needn't be asked one by one.
    /// An implementation that doesn't know returns 0.
    fn idle_from(&self, leaf: u16, count: u16) -> u16
        ensures within { result ≤ count }
        ensures idle { (k : ℕ) → k < result → gives self.now (leaf + k) None self.now }
    {
        0
    }
}

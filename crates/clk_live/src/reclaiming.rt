//! Reclaiming the tokens of packets that are still inside.

use crate::live::Live;
use circular_buffer::HeapCircularBuffer;
use std::alloc::Global;
use std::marker::Model;

/// The tokens of the packets that were inside a live router when it was given up.
#[derive(Drop)]
pub struct Reclaimed {
    // The tokens of each queue, by its number. Those of the queues below `queue` are taken.
    tokens: Vec<HeapCircularBuffer<u64>>,
    queue: usize,
}

impl Model for Reclaimed {
    ghost use Rattle.std.specs.Prelude.{ℕ, List, drop};

    ghost Value = { List ℕ };

    ghost use Rattle.std.specs.List.{flat_map};
    ghost use Rattle.clk_live.specs.inside.Buffers.{buffer_items};

    ghost view = { λ r. flat_map buffer_items (drop r.queue r.tokens.items) };
}

impl Reclaimed {
    ghost use Rattle.std.specs.Prelude.{◌≡◌, [], ◌∷◌, None, IfSome};

    /// No tokens. It allocates nothing.
    pub fn none(alloc: Global) -> Reclaimed
        ensures { result ≡ [] }
    {
        Reclaimed {
            tokens: Vec::new(alloc),
            queue: 0,
        }
    }

    /// Takes out the next token. Returns `None` once there is none left.
    pub fn take(&mut self) -> Option<u64>
        ensures token { IfSome result (λ t. self.old ≡ t ∷ self.new) }
        ensures none { result ≡ None → (self.old ≡ []) × (self.new ≡ []) }
    {
        while self.queue < self.tokens.len() {
            if let Some(token) = self.tokens[self.queue].pop_front() {
                return Some(token);
            }
            self.queue += 1;
        }
        None
    }
}

impl Live {
    ghost use Rattle.clk_live.specs.State.{seen};
    ghost use Rattle.clk_live.specs.Reclaiming.{AreTokensInside};

    /// Gives up the router, and returns the tokens of all packets that are inside it, queue by queue. In each queue the packet comes first
    /// that would have been emitted first. Tokens that still wait in the inlets are not among them.
    pub fn reclaim(self) -> Reclaimed
        ensures { AreTokensInside (seen self) result }
    {
        let Live {
            router: _,
            outlets: _,
            tokens,
            turn: _,
        } = self;
        Reclaimed { tokens, queue: 0 }
    }
}

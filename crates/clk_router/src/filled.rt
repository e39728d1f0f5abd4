//! Which queues may hold a packet.

ghost use Rattle.std.specs.Prelude.{◌≡◌, ◌≢◌, ℕ, ◌+◌, ◌*◌, ◌<◌, ◌≤◌, length, IfOk, IsOkUnless};
ghost use Rattle.std.specs.Int.{bit_at};
ghost use Rattle.clk_router.specs.inside.Queues.{bit_of};

use clk_packet::Fault;
use std::alloc::Global;

/// A set of queues by number, a bit for each: those that may hold a packet.
#[derive(Drop)]
pub struct Filled {
    /// Bit `queue % 64` of word `queue / 64` is 1 if the queue is in the set.
    pub words: Vec<u64>,
}

impl Filled {
    /// No queue, with room for this many. Fault 1 if an allocation fails.
    pub fn none(alloc: Global, queues: usize) -> Result<Filled, Fault>
        ensures room { IfOk result (λ filled. queues ≤ 64 * length filled.words.items) }
        ensures none { IfOk result (λ filled. (q : ℕ) → bit_of filled.words.items q ≡ 0) }
        ensures fault { IsOkUnless result Fault.Memory }
    {
        let mut words = Vec::new(alloc);
        words.resize(queues / 64 + 1, 0)?;
        Ok(Filled { words })
    }

    /// Adds a queue.
    #[inline]
    pub fn add(&mut self, queue: u16)
        requires { queue < 64 * length self.old.words.items }
        ensures count { length self.new.words.items ≡ length self.old.words.items }
        ensures here { bit_of self.new.words.items queue ≡ 1 }
        ensures others { (q : ℕ) → q ≢ queue → bit_of self.new.words.items q ≡ bit_of self.old.words.items q }
    {
        self.words[usize::from(queue / 64)] |= 1 << (queue % 64);
    }

    /// Takes a queue out.
    #[inline]
    pub fn remove(&mut self, queue: u16)
        requires { queue < 64 * length self.old.words.items }
        ensures count { length self.new.words.items ≡ length self.old.words.items }
        ensures here { bit_of self.new.words.items queue ≡ 0 }
        ensures others { (q : ℕ) → q ≢ queue → bit_of self.new.words.items q ≡ bit_of self.old.words.items q }
    {
        self.words[usize::from(queue / 64)] &= !(1 << (queue % 64));
    }

    /// How many queues from this one on are not in the set, without a gap, up to the end of its word.
    #[inline]
    pub fn none_from(&self, queue: u16) -> u16
        ensures { (k : ℕ) → k < result → bit_of self.now.words.items (queue + k) ≡ 0 }
    {
        match self.words.get(usize::from(queue / 64)) {
            Some(word) => zeros_from(*word, queue % 64),
            None => 0,
        }
    }
}

/// How many bits of a word from this place on are 0, without a gap.
#[inline]
fn zeros_from(word: u64, place: u16) -> u16
    requires { place < 64 }
    ensures within { place + result ≤ 64 }
    ensures zeros { (k : ℕ) → k < result → bit_at word (place + k) ≡ 0 }
{
    // Most often the first queue is in the set, and a branch is predicted, where a number of 0 would be waited for.
    if word & (1 << place) != 0 {
        return 0;
    }
    let rest = word >> place;
    (64 - place).min(rest.trailing_zeros() as u16)
}

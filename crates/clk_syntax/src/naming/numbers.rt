//! The numbers of Senders.

ghost use Rattle.std.specs.Prelude.{◌≡◌, length};

use clk_packet::Fault;
use std::alloc::Global;

/// Numbers of Senders.
#[derive(Drop)]
pub struct Numbers {
    /// A bit for each number that a Sender may have, 64 in one.
    marks: Vec<u64>,
    ghost size: { length marks.items ≡ 1024 },
}

impl Numbers {
    ghost use Rattle.std.specs.Prelude.{◌≡◌, ℕ, ◌<◌, ◌==◌, ◌&&◌, ◌||◌, not, length, false, IfOk, IsOkUnless};
    ghost use Rattle.clk_syntax.specs.inside.Numbers.{is_marked, has_number};

    /// No numbers. Fault 1 if an allocation fails.
    pub fn new(alloc: Global) -> Result<Numbers, Fault>
        ensures none { IfOk result (λ numbers. (n : ℕ) → has_number numbers n ≡ false) }
        ensures fault { IsOkUnless result Fault.Memory }
    {
        let marks = vec![in alloc; 0u64; 1024]?;
        Ok(Numbers { marks })
    }

    /// Adds a number, and returns whether it wasn't there.
    pub fn insert(&mut self, number: u16) -> bool
        ensures added { result ≡ not (has_number self.old number) }
        ensures there { (n : ℕ) → has_number self.new n ≡ ((number == n) || has_number self.old n) }
    {
        Numbers::mark(&mut self.marks, number / 64, number % 64)
    }

    /// Sets a bit of the number at a place, and returns whether it wasn't set.
    fn mark(marks: &mut [u64], place: u16, bit: u16) -> bool
        requires place { place < length marks.old }
        requires bit { bit < 64 }
        ensures added { result ≡ not (is_marked marks.old place bit) }
        ensures marked { (i j : ℕ) → is_marked marks.new i j ≡ (((place == i) && (bit == j)) || is_marked marks.old i j) }
    {
        let bits = marks[place as usize];
        if (bits >> bit) & 1 == 1 {
            return false;
        }
        marks[place as usize] = bits | (1 << bit);
        true
    }
}

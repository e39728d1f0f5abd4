//! Moments in rows.

use std::marker::Model;

/// A moment in ticks, in two halves, so that it can stand at any multiple of four bytes.
#[derive(Clone, Copy)]
pub struct Moment {
    high: u32,
    low: u32,
}

impl Model for Moment {
    ghost use Rattle.std.specs.Prelude.{ℕ, ◌+◌, ◌*◌, ◌/◌, ◌%◌, ◌<◌};
    ghost use Rattle.std.proofs.lemmas.Nat.{div-mul-add, mod-mul-add};

    ghost Value = { ℕ };

    ghost view = { λ m. m.high * 4294967296 + m.low };

    ghost invariant = { λ m. m.low < 4294967296 };

    ghost inverse = { λ ticks. record { high = ticks / 4294967296; low = ticks % 4294967296 } };

    ghost inverse_ok = { λ m h i. record { high = div-mul-add m.high 4294967296 m.low h i; low = mod-mul-add m.high 4294967296 m.low h i } };
}

impl Moment {
    ghost use Rattle.std.specs.Prelude.{◌≡◌};

    /// The moment of so many ticks.
    #[inline(always)]
    pub fn at(ticks: u64) -> Moment
        ensures { result ≡ ticks }
    {
        Moment {
            high: (ticks >> 32) as u32,
            low: (ticks % 4_294_967_296) as u32,
        }
    }

    /// This moment, in ticks.
    #[inline(always)]
    pub fn ticks(self) -> u64
        ensures { result ≡ self }
    {
        (u64::from(self.high) << 32) + u64::from(self.low)
    }
}

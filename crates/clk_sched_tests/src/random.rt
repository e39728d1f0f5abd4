//! Random numbers, which are the same in each run.

ghost use Rattle.std.specs.Prelude.{◌<◌, ◌≤◌};

/// A linear congruential generator.
#[derive(Drop)]
pub struct Random(u32);

impl Random {
    /// The numbers that follow from this seed.
    pub fn new(seed: u32) -> Random {
        Random(seed)
    }

    /// The next number below this one.
    pub fn below(&mut self, end: u16) -> u16
        requires { 1 ≤ end }
        ensures { result < end }
    {
        self.0 = self.0.wrapping_mul(69_069).wrapping_add(12_345);
        (self.0 >> 16) as u16 % end
    }
}

//! A sink in memory.

use clk_packet::{Failed, Failures, Sink};
use std::alloc::Global;

/// A sink that keeps all that it takes in memory. It fails if an allocation fails.
#[derive(Drop)]
pub struct Kept {
    pub bytes: Vec<u8>,
    pub failures: Failures,
}

impl Kept {
    ghost use Rattle.std.specs.Prelude.{◌≡◌, []};

    /// A sink that has taken nothing.
    pub fn new(alloc: Global) -> Kept
        ensures taken { result.bytes.items ≡ [] }
        ensures failures { result.failures.count ≡ 0 }
    {
        Kept {
            bytes: Vec::new(alloc),
            failures: Failures::none(),
        }
    }
}

impl Sink for Kept {
    ghost use Rattle.std.specs.Prelude.{Some};

    ghost taken = { λ s. Some s.bytes.items };

    ghost failures = { λ s. s.failures.count };

    fn write(&mut self, bytes: &[u8]) -> Result<usize, Failed> {
        match self.bytes.extend_from_slice(bytes) {
            Ok(()) => Ok(bytes.len()),
            Err(_) => {
                self.failures.add_one();
                Err(Failed)
            }
        }
    }
}

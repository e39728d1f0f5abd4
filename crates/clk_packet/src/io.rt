//! Where bytes come from, and where they go.
ghost use Rattle.std.specs.Prelude.{◌≡◌, ℕ, List, ◌<◌, ◌≤◌, length, IfOk};
ghost use Rattle.std.specs.Io.KnownBytes.{ReadConsumes, WriteAppends};
ghost use Rattle.std.specs.declared.option.Option.{Option};
ghost use Rattle.clk_packet.specs.Io.{failures_after};

/// A read or a write failed. It moved no bytes.
#[derive(Clone, Copy, Debug, PartialEq, Eq)]
pub struct Failed;

/// What bytes are read from.
pub trait Source {
    // The bytes that reads will give from here on, if they are known.
    ghost remaining: { Self → Option (List ℕ) };

    // How many reads have failed.
    ghost failures: { Self → ℕ };

    /// Reads some bytes into the front of `buf`, and returns how many: 0 at the end of the source, or if `buf` is empty.
    ///
    /// # Errors
    ///
    /// `Failed` if the source can't be read. It gives no byte then.
    fn read(&mut self, buf: &mut [u8]) -> Result<usize, Failed>
        ensures bound { IfOk result (λ n. n ≤ length buf.new) }
        ensures bytes { ReadConsumes (remaining self.old) (remaining self.new) result buf.new }
        ensures counted { failures self.new ≡ failures_after result (failures self.old) };
}

/// What bytes are written to.
pub trait Sink {
    // The bytes that it has taken so far, if they are known.
    ghost taken: { Self → Option (List ℕ) };

    // How many writes have failed.
    ghost failures: { Self → ℕ };

    /// Writes bytes from the front of `bytes`, and returns how many it took: at least one, unless `bytes` is empty.
    ///
    /// # Errors
    ///
    /// `Failed` if the sink takes none of the bytes.
    fn write(&mut self, bytes: &[u8]) -> Result<usize, Failed>
        ensures bound { IfOk result (λ n. n ≤ length bytes.now) }
        ensures progress { 0 < length bytes.now → IfOk result (λ n. 0 < n) }
        ensures bytes { WriteAppends (taken self.old) (taken self.new) result bytes.now }
        ensures counted { failures self.new ≡ failures_after result (failures self.old) };
}

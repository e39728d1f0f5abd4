//! Lengths of packets, two bytes each.

ghost use Rattle.std.specs.Prelude.{◌≤◌};
ghost use Rattle.clk_packet.specs.declared.limits.TheConstants.{MAX_LENGTH};

use crate::fault::Fault;
use std::alloc::Global;
use std::marker::Model;

/// The length of a packet.
#[derive(Clone, Copy)]
pub struct Length {
    /// In bytes, from 1 to 65,535.
    pub bytes: u16,
    ghost has_bytes: { 1 ≤ bytes },
    ghost is_within: { bytes ≤ MAX_LENGTH },
}

/// The lengths of a sender's packets, in order.
#[derive(Drop)]
pub struct Lengths {
    items: Vec<Length>,
}

impl Model for Lengths {
    ghost use Rattle.std.specs.Prelude.{List};
    ghost use Rattle.clk_packet.specs.declared.lengths.Length.{Length};

    ghost Value = { List Length };

    ghost view = { λ lengths. lengths.items.items };
}

impl Lengths {
    ghost use Rattle.std.specs.Prelude.{◌≡◌, ◌++◌, ◌∷◌, [], length, slice_get, OnOk, OnErr, IsOkUnless};

    /// No lengths. Does not allocate.
    pub fn new(alloc: Global) -> Lengths
        ensures { result ≡ [] }
    {
        Lengths {
            items: Vec::new(alloc),
        }
    }

    /// Adds a length at the end. Fault 1 if an allocation fails, and then nothing has changed.
    pub fn push(&mut self, length: Length) -> Result<(), Fault>
        ensures added { OnOk result (self.new ≡ self.old ++ length ∷ []) }
        ensures unchanged { OnErr result (self.new ≡ self.old) }
        ensures fault { IsOkUnless result Fault.Memory }
    {
        self.items.push(length)?;
        Ok(())
    }

    /// How many lengths there are.
    pub fn len(&self) -> usize
        ensures { result ≡ length self.now }
    {
        self.items.len()
    }

    /// The length at a place, if one is there.
    pub fn get(&self, place: usize) -> Option<Length>
        ensures { result ≡ slice_get self.now place }
    {
        self.items.get(place).copied()
    }
}

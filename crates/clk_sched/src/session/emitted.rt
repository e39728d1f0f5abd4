//! The packets that a session emitted.

ghost use Rattle.std.specs.Prelude.{◌≡◌, ◌+◌, ◌<◌, ◌≤◌, ◌^◌, ◌++◌, true, false, [], length, OnOk, IsOk};
ghost use Rattle.std.specs.List.{cons_option};
ghost use Rattle.std.specs.Vec.{vec_len, vec_capacity};

use clk_packet::Packet;
use std::alloc::{AllocError, Global};

/// The packets emitted, in order, if they are kept, and how many were emitted.
#[derive(Drop)]
pub struct EmittedPackets {
    pub packets: Vec<Packet>,
    pub keeps: bool,
    pub count: u64,
}

impl EmittedPackets {
    /// Nothing was emitted so far. Emitted packets will be kept, or only counted.
    pub fn new(alloc: Global, keeps: bool) -> EmittedPackets
        ensures packets { result.packets.items ≡ [] }
        ensures keeps { result.keeps ≡ keeps }
        ensures count { result.count ≡ 0 }
    {
        EmittedPackets {
            packets: Vec::new(alloc),
            keeps,
            count: 0,
        }
    }

    /// Makes room for so many more packets.
    ///
    /// # Errors
    ///
    /// If an allocation fails. If packets are only counted, it allocates nothing.
    #[inline]
    pub fn reserve(&mut self, packets: usize) -> Result<(), AllocError>
        ensures room { OnOk result (self.new.keeps ≡ true → vec_len self.new.packets + packets ≤ vec_capacity self.new.packets) }
        ensures unkept { self.old.keeps ≡ false → IsOk result }
        ensures packets { self.new.packets.items ≡ self.old.packets.items }
        ensures keeps { self.new.keeps ≡ self.old.keeps }
        ensures count { self.new.count ≡ self.old.count }
    {
        if self.keeps {
            self.packets.reserve(packets)?;
        }
        Ok(())
    }

    /// Adds the packet that a pull emitted, if any.
    #[inline]
    pub fn add(&mut self, got: Option<Packet>)
        requires room { self.old.keeps ≡ true → vec_len self.old.packets < vec_capacity self.old.packets }
        requires few { self.old.count + 1 < 2 ^ 64 }
        ensures packets { self.old.keeps ≡ true → self.new.packets.items ≡ self.old.packets.items ++ cons_option got [] }
        ensures unkept { self.old.keeps ≡ false → self.new.packets.items ≡ self.old.packets.items }
        ensures keeps { self.new.keeps ≡ self.old.keeps }
        ensures count { self.new.count ≡ self.old.count + length (cons_option got []) }
    {
        if let Some(packet) = got {
            self.count += 1;
            if self.keeps {
                self.packets.push_reserved(packet);
            }
        }
    }
}

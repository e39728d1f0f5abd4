//! The packets that a tap pulled, if it keeps them.

ghost use Rattle.std.specs.Prelude.{◌≡◌, ◌≤◌, [], true, vec_capacity, IfOk, IsOkUnless};

use crate::seat::note;
use clk_packet::{Fault, Packet};
use std::alloc::Global;

/// The packets that a tap pulled, if it keeps them.
#[derive(Drop)]
pub struct TakenPackets {
    pub keeps: bool,
    pub packets: Vec<Packet>,
}

impl TakenPackets {
    ghost use Rattle.std.specs.Prelude.{◌≡◌, ◌+◌, ◌≤◌, ◌++◌, [], true, length, vec_capacity, IfOk, IsOkUnless};
    ghost use Rattle.std.specs.List.{cons_option};

    /// No packets yet. If they will be kept, there is room for so many. Fault 1 if an allocation fails.
    pub fn none(alloc: Global, keeps: bool, room: usize) -> Result<TakenPackets, Fault>
        ensures keeps { IfOk result (λ taken. taken.keeps ≡ keeps) }
        ensures none { IfOk result (λ taken. taken.packets.items ≡ []) }
        ensures room { IfOk result (λ taken. keeps ≡ true → room ≤ vec_capacity taken.packets) }
        ensures fault { IsOkUnless result Fault.Memory }
    {
        let packets = if keeps {
            Vec::with_capacity(alloc, room)?
        } else {
            Vec::new(alloc)
        };
        Ok(TakenPackets { keeps, packets })
    }

    /// Adds the packet that was pulled, if there is one, if packets are kept. Does not allocate.
    #[inline(always)]
    pub fn add(&mut self, pulled: Option<Packet>)
        requires room { self.old.keeps ≡ true → length self.old.packets.items + length (cons_option pulled []) ≤ vec_capacity self.old.packets }
        ensures keeps { self.new.keeps ≡ self.old.keeps }
        ensures added { self.old.keeps ≡ true → self.new.packets.items ≡ self.old.packets.items ++ cons_option pulled [] }
        ensures capacity { self.old.keeps ≡ true → vec_capacity self.old.packets ≤ vec_capacity self.new.packets }
    {
        if !self.keeps {
            return;
        }
        if let Some(packet) = pulled {
            note(&mut self.packets, packet);
        }
    }
}

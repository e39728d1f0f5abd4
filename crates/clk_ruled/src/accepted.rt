//! The packets that a queue accepted from one sender.

ghost use Rattle.std.specs.Prelude.{◌≡◌, ◌++◌, ◌∷◌, List, [], None, IfSome};
ghost use Rattle.std.specs.Borrow.{ftrue};
ghost use Rattle.clk_packet.specs.declared.packet.Packet.{Packet};
ghost use Rattle.clk_ruled.specs.inside.Parts.{HaveLengths, IsFirst, IsNotFirst};

use crate::seat::note;
use clk_packet::{Fault, Packet};
use std::alloc::Global;
use std::marker::Model;

/// The packets that a queue accepted from one sender, by rising number. Each number is that of an accepted or of a refused packet, so
/// memory holds only their lengths: two bytes a packet.
#[derive(Drop)]
pub struct AcceptedPackets {
    pub lengths: Vec<u16>,
    pub all: AllAccepted,
    pub ghost lengths_are: { HaveLengths all.items lengths.items },
}

/// The packets as ghost state: they occupy no memory.
#[derive(Drop)]
pub struct AllAccepted {
    pub ghost items: { List Packet },
}

impl Model for AllAccepted {
    ghost also_owns = { λ _. ftrue };
}

impl AllAccepted {
    /// No packets.
    fn none() -> AllAccepted
        ensures { result.items ≡ [] }
    {
        AllAccepted {}
    }

    /// Adds a packet.
    fn push(&mut self, packet: &Packet)
        ensures { self.new.items ≡ self.old.items ++ packet.now ∷ [] }
    {}
}

impl AcceptedPackets {
    ghost use Rattle.std.specs.Prelude.{◌≡◌, ◌++◌, ◌∷◌, ◌<◌, ◌≤◌, [], length, vec_capacity, IfOk, IsOkUnless};
    ghost use Rattle.clk_ruled.specs.Queue.{IsShared};

    /// No packets yet, with room for so many. Fault 1 if an allocation fails.
    pub fn none(alloc: Global, room: usize) -> Result<AcceptedPackets, Fault>
        ensures none { IfOk result (λ accepted. (accepted.all.items ≡ []) × (accepted.lengths.items ≡ [])) }
        ensures room { IfOk result (λ accepted. room ≤ vec_capacity accepted.lengths) }
        ensures fault { IsOkUnless result Fault.Memory }
    {
        Ok(AcceptedPackets {
            lengths: Vec::with_capacity(alloc, room)?,
            all: AllAccepted::none(),
        })
    }

    /// Adds a packet, for which there is room. Does not allocate.
    #[inline(always)]
    pub fn add(&mut self, packet: Packet)
        requires { length self.old.lengths.items < vec_capacity self.old.lengths }
        ensures items { self.new.all.items ≡ self.old.all.items ++ packet ∷ [] }
        ensures lengths { self.new.lengths.items ≡ self.old.lengths.items ++ packet.length ∷ [] }
        ensures capacity { vec_capacity self.old.lengths ≤ vec_capacity self.new.lengths }
    {
        self.all.push(&packet);
        note(&mut self.lengths, packet.length);
    }

    /// How many they are.
    pub fn len(&self) -> usize
        ensures { result ≡ length self.now.all.items }
    {
        self.lengths.len()
    }

    /// Lists them, if the sender offered `next` packets and these were refused. Fault 1 if an allocation fails.
    pub fn list(
        &self,
        alloc: Global,
        sender: u16,
        next: u32,
        refused: &[Packet],
    ) -> Result<Vec<Packet>, Fault>
        requires shared { IsShared sender next self.now.all.items refused.now }
        ensures list { IfOk result (λ list. list.items ≡ self.now.all.items) }
        ensures fault { IsOkUnless result Fault.Memory }
    {
        let mut packets = Vec::with_capacity(alloc, self.lengths.len())?;
        let mut rest = refused;
        let mut number = 0;
        while number < next {
            if let Some(later) = after(rest, number) {
                rest = later;
                number += 1;
                continue;
            }
            packets.push(Packet {
                number,
                sender,
                length: self.lengths[packets.len()],
            })?;
            number += 1;
        }
        Ok(packets)
    }
}

/// What comes after the packet of this number, if it is the first.
fn after(packets: &[Packet], number: u32) -> Option<&[Packet]>
    ensures some { IfSome result (λ rest. IsFirst number packets.now rest.now) }
    ensures none { result ≡ None → IsNotFirst number packets.now }
{
    match packets {
        [first, rest @ ..] if first.number == number => Some(rest),
        _ => None,
    }
}

//! Lists of packets.

use crate::fault::Fault;
use crate::packet::Packet;
use std::alloc::Global;
use std::marker::Model;

/// A list of packets, in order.
#[derive(Drop)]
pub struct Packets {
    items: Vec<Packet>,
}

impl Model for Packets {
    ghost use Rattle.std.specs.Prelude.{List};
    ghost use Rattle.clk_packet.specs.declared.packet.Packet.{Packet};

    ghost Value = { List Packet };

    ghost view = { λ packets. packets.items.items };
}

impl Packets {
    ghost use Rattle.std.specs.Prelude.{◌≡◌, ◌++◌, ◌∷◌, [], OnOk, OnErr, IsOkUnless};

    /// No packets. Does not allocate.
    pub fn new(alloc: Global) -> Packets
        ensures { result ≡ [] }
    {
        Packets {
            items: Vec::new(alloc),
        }
    }

    /// Adds a packet at the end.
    ///
    /// # Errors
    ///
    /// Fault 1 if an allocation fails. Then nothing has changed.
    pub fn push(&mut self, packet: Packet) -> Result<(), Fault>
        ensures added { OnOk result (self.new ≡ self.old ++ packet ∷ []) }
        ensures unchanged { OnErr result (self.new ≡ self.old) }
        ensures fault { IsOkUnless result Fault.Memory }
    {
        self.items.push(packet)?;
        Ok(())
    }

    /// The packets.
    pub fn as_slice(&self) -> &[Packet]
        ensures { result.now ≡ self.now }
    {
        self.items.as_slice()
    }

    /// The packets as a `Vec`. Does not allocate.
    pub fn into_vec(self) -> Vec<Packet>
        ensures { result.items ≡ self }
    {
        self.items
    }
}

impl From<Vec<Packet>> for Packets {
    ghost use Rattle.std.specs.Prelude.{◌≡◌};

    fn from(items: Vec<Packet>) -> Packets
        ensures { result ≡ items.items }
    {
        Packets { items }
    }
}

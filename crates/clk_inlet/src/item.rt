//! What goes through an inlet.

ghost use Rattle.clk_inlet.specs.Items.{MayFollow};

use crate::limits::MAX_LENGTH;
use rtrb::Protocol;

/// A packet, or the end of a sender's packets.
///
/// It carries neither a sender nor a number. An inlet has one sender, and the n-th packet that goes through is packet n, from 0.
#[repr(C)]
#[derive(Clone, Copy, Debug, PartialEq, Eq)]
pub struct Item {
    /// A value of the caller's, which goes with the packet.
    pub token: u64,
    /// The packet's length in bytes, from 1 to 65,535. Length 0 is the end.
    // In 32 bits, as callers in C have it, so that their items are pushed as they are.
    pub length: u32,
}

impl Item {
    ghost use Rattle.std.specs.Prelude.{◌≡◌};
    ghost use Rattle.clk_inlet.specs.Items.{is_packet, IsShort};

    /// Whether it is a packet: its length is one that a packet may have.
    pub fn is_packet(&self) -> bool
        ensures { result ≡ is_packet self.now }
    {
        self.length > 0 && self.length <= MAX_LENGTH
    }

    /// The length of a packet or of the end, in bytes.
    pub fn bytes(&self) -> u16
        requires { IsShort self.now }
        ensures { result ≡ self.now.length }
    {
        self.length as u16
    }
}

/// The order of items: nothing follows the end, no packet is longer than 65,535 bytes, and each packet's number fits 32 bits.
#[derive(Clone, Copy)]
pub(crate) struct ItemOrder;

impl Protocol<Item> for ItemOrder {
    ghost allows = { λ before x. MayFollow before x };
}

//! Packets with their tokens, as C receives them.

ghost use Rattle.std.specs.Prelude.{◌≡◌};
ghost use Rattle.clickpull_c.specs.live.Values.{taken_in_c, emitted_in_c, departed_in_c};

use crate::statuses::{ACCEPTED, EVICTED, REFUSED};
use crate::values::{CPacket, packet_for_c};
use clk_live::{Departed, Emitted, OfferOutcome, Taken};

/// A packet that was taken from its inlet and offered to its queue. In C it is the struct `clk_taken`.
#[repr(C)]
#[derive(Clone, Copy)]
pub struct CTaken {
    /// The packet.
    pub packet: CPacket,
    /// The token that came with it.
    pub token: u64,
    /// The packet that was evicted for it. All zero unless the outcome is 2.
    pub evicted: CPacket,
    /// The token that came with the evicted packet. 0 unless the outcome is 2.
    pub evicted_token: u64,
    /// 0 if the packet was accepted, 1 if it was refused, 2 if it was accepted and another was evicted for it.
    pub outcome: u32,
}

/// A packet that a device emitted. In C it is the struct `clk_emitted`.
#[repr(C)]
#[derive(Clone, Copy)]
pub struct CEmitted {
    /// The packet.
    pub packet: CPacket,
    /// The token that came with it.
    pub token: u64,
}

/// A packet that a drain emitted. In C it is the struct `clk_departed`.
#[repr(C)]
#[derive(Clone, Copy)]
pub struct CDeparted {
    /// When it was emitted, in ticks.
    pub moment: u64,
    /// The packet.
    pub packet: CPacket,
    /// The token that came with it.
    pub token: u64,
}

/// A packet that was taken, as C sees it.
pub fn taken_for_c(taken: Taken) -> CTaken
    ensures { result ≡ taken_in_c taken }
{
    let none = CPacket {
        number: 0,
        sender: 0,
        length: 0,
    };
    let (evicted, evicted_token, outcome) = match taken.outcome {
        OfferOutcome::Accepted => (none, 0, ACCEPTED),
        OfferOutcome::Refused => (none, 0, REFUSED),
        OfferOutcome::Evicted { packet, token } => (packet_for_c(packet), token, EVICTED),
    };
    CTaken {
        packet: packet_for_c(taken.packet),
        token: taken.token,
        evicted,
        evicted_token,
        outcome,
    }
}

/// A packet that was emitted, as C sees it.
pub fn emitted_for_c(emitted: Emitted) -> CEmitted
    ensures { result ≡ emitted_in_c emitted }
{
    CEmitted {
        packet: packet_for_c(emitted.packet),
        token: emitted.token,
    }
}

/// A packet that a drain emitted, as C sees it.
pub fn departed_for_c(departed: Departed) -> CDeparted
    ensures { result ≡ departed_in_c departed }
{
    CDeparted {
        moment: departed.moment,
        packet: packet_for_c(departed.packet),
        token: departed.token,
    }
}

//! What a node got, in a form that a call returns in a register.

use clk_packet::Packet;
use std::marker::Model;

/// What a node got: a packet, or none.
// It is one number, since a call returns an `Option<Packet>` through memory, and each call on the way to the device would copy it once more.
#[derive(Clone, Copy, Debug)]
pub struct Got {
    number: u64,
}

impl Model for Got {
    ghost use Rattle.std.specs.Prelude.{Option};
    ghost use Rattle.std.proofs.Common.{ap};
    ghost use Rattle.clk_packet.specs.declared.packet.Packet.{Packet};
    ghost use Rattle.clk_sched.specs.inside.Got.{got_in, number_of, IsGot, number-back};

    ghost Value = { Option Packet };

    ghost view = { λ got. got_in got.number };

    ghost invariant = { λ got. IsGot got.number };

    ghost inverse = { λ got. record { number = number_of got } };

    ghost inverse_ok = { λ got h. ap (λ n. record { number = n }) (number-back got.number h) };
}

impl Got {
    ghost use Rattle.std.specs.Prelude.{◌≡◌};

    /// This packet, or none.
    #[inline(always)]
    pub fn new(got: Option<Packet>) -> Got
        ensures { result ≡ got }
    {
        match got {
            Some(packet) => Got {
                number: u64::from(packet.number)
                    + (u64::from(packet.sender) << 32)
                    + (u64::from(packet.length) << 48),
            },
            None => Got { number: 0 },
        }
    }

    /// The packet, if one was got.
    #[inline(always)]
    pub fn packet(self) -> Option<Packet>
        ensures { result ≡ self }
    {
        let length = (self.number >> 48) as u16;
        if length == 0 {
            return None;
        }
        Some(Packet {
            number: (self.number % 4_294_967_296) as u32,
            sender: ((self.number >> 32) % 65_536) as u16,
            length,
        })
    }
}

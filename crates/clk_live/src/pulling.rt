//! Pulling devices.

use crate::live::Live;
use clk_packet::Packet;

/// A packet that a device emitted.
#[derive(Clone, Copy, Debug, PartialEq, Eq)]
pub struct Emitted {
    /// The packet.
    pub packet: Packet,
    /// The token that came with it.
    pub token: u64,
}

impl Live {
    ghost use Rattle.std.specs.Prelude.{◌≡◌, ◌<◌, ◌≤◌, length};
    ghost use Rattle.clk_router.specs.Course.{CanPull};
    ghost use Rattle.clk_live.specs.State.{seen};
    ghost use Rattle.clk_live.specs.Pulling.{IsPulledLive, ArePulled};

    /// Pulls a device once, at this moment in ticks, or at the device's latest moment if that is later.
    #[inline(always)]
    pub fn pull(&mut self, device: u16, moment: u64) -> Option<Emitted>
        requires can { CanPull self.old.course device moment }
        ensures pulled { IsPulledLive device moment (seen self.old) result (seen self.new) }
        ensures unchanged { (self.new.outlets ≡ self.old.outlets) × (self.new.turn ≡ self.old.turn) }
    {
        // These laws, which do nothing, say how the packets inside each queue change.
        self.router.queues_go_on();
        self.router.has_happened();
        let _ = self.router.senders();
        let packet = self.router.pull(device, moment);
        self.router.has_happened();
        let packet = packet?;
        let place = self.router.place_of(packet.sender).unwrap();
        let queue = self.router.accounts()[usize::from(place)].queue;
        let token = self.tokens[usize::from(queue)].pop_front().unwrap();
        Some(Emitted { packet, token })
    }

    /// Pulls a device at this moment, in ticks, until a pull emits no packet, `emitted` is full, or no more pulls can be made. Returns how
    /// many packets were emitted.
    pub fn pull_many(&mut self, device: u16, moment: u64, emitted: &mut [Emitted]) -> usize
        requires can { CanPull self.old.course device moment }
        ensures pulled { ArePulled device moment (seen self.old) (seen self.new) emitted.old emitted.new result }
        ensures unchanged { (self.new.outlets ≡ self.old.outlets) × (self.new.turn ≡ self.old.turn) }
    {
        let mut given = 0;
        while given < emitted.len() {
            let Some(one) = self.pull(device, moment) else {
                return given;
            };
            emitted[given] = one;
            given += 1;
            if !self.router.can_pull(device, moment) {
                return given;
            }
        }
        given
    }
}

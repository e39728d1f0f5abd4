//! Draining devices.

ghost use Rattle.std.specs.Prelude.{◌≡◌, ◌<◌, ◌≤◌, ◌++◌, [], length, take, drop};

use crate::live::Live;
use crate::pulling::Emitted;
use clk_packet::Packet;

/// A packet that a drain emitted.
#[derive(Clone, Copy, Debug, PartialEq, Eq)]
pub struct Departed {
    /// The moment of its pull, in ticks.
    pub moment: u64,
    /// The packet.
    pub packet: Packet,
    /// The token that came with it.
    pub token: u64,
}

/// Why a drain ended.
#[derive(Clone, Copy, Debug, PartialEq, Eq)]
pub enum DrainEnd {
    /// No packet is left for the device.
    Empty,
    /// Packets are left, but no place for them is free, or no pull is left.
    MoreLeft,
    /// Packets are left, but the moments or the pulls of the device are at their end.
    AtEnd,
}

impl Live {
    ghost use Rattle.std.specs.Prelude.{◌≡◌, ◌<◌, length};
    ghost use Rattle.clk_live.specs.State.{seen};
    ghost use Rattle.clk_live.specs.Draining.{AreDrained};

    /// Drains a device: pulls it one tick apart, the first time one tick after its latest moment, while packets are left for it. Makes at
    /// most `pulls` pulls, and stops once `departed` is full. Returns how many packets were emitted, and why the drain ended.
    pub fn drain(&mut self, device: u16, departed: &mut [Departed], pulls: u64) -> (usize, DrainEnd)
        requires device { device < length self.old.course.setup.trees }
        ensures drained { AreDrained device pulls (seen self.old) (seen self.new) departed.old departed.new result.0 result.1 }
        ensures unchanged { (self.new.outlets ≡ self.old.outlets) × (self.new.turn ≡ self.old.turn) }
    {
        let mut given = 0;
        let mut made = 0;
        while self.router.left(device) > 0 {
            if given == departed.len() || made == pulls {
                return (given, DrainEnd::MoreLeft);
            }
            let moment = self.router.moment(device) + 1;
            if !self.router.can_pull(device, moment) {
                return (given, DrainEnd::AtEnd);
            }
            let got = self.pull(device, moment);
            given = Departed::note(departed, given, moment, got);
            made += 1;
        }
        (given, DrainEnd::Empty)
    }
}

impl Departed {
    ghost use Rattle.clk_live.specs.Draining.{with_departed};

    // Fills in what a pull emitted at a moment, if it emitted a packet. Returns how many places are filled then.
    fn note(departed: &mut [Departed], given: usize, moment: u64, got: Option<Emitted>) -> usize
        requires low { given < length departed.old }
        ensures filled { take result departed.new ≡ take given departed.old ++ with_departed moment got [] }
        ensures others { drop result departed.new ≡ drop result departed.old }
        ensures within { (given ≤ result) × (result ≤ length departed.old) }
    {
        let Some(one) = got else {
            return given;
        };
        departed[given] = Departed {
            moment,
            packet: one.packet,
            token: one.token,
        };
        given + 1
    }
}

//! The packets emitted at the device while it was drained, and their moments.

ghost use Rattle.std.specs.Prelude.{◌≡◌, [], OnOk, IsOk};
ghost use Rattle.clk_sched.specs.Departures.{departure_at, HasRoom, IsAddedTo};
ghost use Rattle.clk_sched.specs.declared.session.departures.Departures.TheVariants.{Dropped};

use clk_packet::Packet;
use std::alloc::AllocError;

/// A packet emitted at the device.
#[derive(Clone, Copy, Debug, PartialEq, Eq)]
pub struct Departure {
    /// The counted moment of the pull that emitted it, in ticks.
    pub moment: u64,
    /// The packet.
    pub packet: Packet,
}

/// Where emitted packets go.
#[derive(Drop)]
pub enum Departures {
    /// To a list, in order.
    Kept(Vec<Departure>),
    /// Nowhere.
    Dropped,
}

impl Departures {
    /// Makes room for one more departure.
    ///
    /// # Errors
    ///
    /// If an allocation fails. If departures are dropped, it allocates nothing.
    #[inline]
    pub fn reserve(&mut self) -> Result<(), AllocError>
        ensures room { OnOk result (HasRoom self.new) }
        ensures same { IsAddedTo self.old [] self.new }
        ensures dropped { self.old ≡ Dropped → IsOk result }
    {
        match self {
            Departures::Kept(list) => list.reserve(1),
            Departures::Dropped => Ok(()),
        }
    }

    /// Adds the packet that a pull at this moment emitted, if any.
    #[inline]
    pub fn add(&mut self, moment: u64, got: Option<Packet>)
        requires { HasRoom self.old }
        ensures { IsAddedTo self.old (departure_at moment got) self.new }
    {
        if let (Departures::Kept(list), Some(packet)) = (self, got) {
            list.push_reserved(Departure { moment, packet });
        }
    }
}

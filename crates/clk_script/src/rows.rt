//! What an answer keeps of each command of a script.

ghost use Rattle.clk_script.specs.inside.Rows.{fate_of};

use crate::moment::Moment;
use clk_packet::{Offered, Packet};

/// A command of a script, with its result. Before it is carried out, the packet of a send has the number 0 and counts as refused, and a
/// pull counts as one that gave none. Which packet a pull gave, and which was evicted, is kept elsewhere.
// The fields are in an order in which a row takes 12 bytes.
#[derive(Clone, Copy)]
pub enum ScriptRow {
    /// The sender at this place offers this packet, with this outcome.
    Send {
        fate: Fate,
        place: u16,
        packet: Packet,
    },
    /// A device is pulled, at this moment in ticks, and gives a packet or none.
    Pull {
        gave: bool,
        device: u16,
        moment: Moment,
    },
}

/// The outcome of an offer, without the packet that was evicted.
#[derive(Clone, Copy)]
pub enum Fate {
    /// It is accepted.
    Accepted,
    /// It is refused.
    Refused,
    /// It is accepted, and its queue evicts a packet for it.
    Evicting,
}

impl Fate {
    ghost use Rattle.std.specs.Prelude.{◌≡◌};

    /// The outcome of an offer, without the packet that was evicted for it.
    pub fn of(offered: Offered) -> Fate
        ensures { result ≡ fate_of offered }
    {
        match offered {
            Offered::Accepted => Fate::Accepted,
            Offered::Refused(_) => Fate::Refused,
            Offered::Evicted(_) => Fate::Evicting,
        }
    }
}

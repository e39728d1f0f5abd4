//! What calls return. Two statuses are the header's alone: 2, for a router or an inlet that is shut, and 3, for a null pointer.

ghost use Rattle.std.specs.Prelude.{◌≡◌};
ghost use Rattle.clickpull_c.specs.Calls.{pulls_status};

/// Done.
pub const OK: u32 = 0;

/// No packet was emitted or taken; a drain or a reclaim has more to do; or what was asked isn't true yet.
pub const NONE: u32 = 1;

/// The tree has no sender of this number, or at this place.
pub const UNKNOWN_SENDER: u32 = 4;

/// The tree has no device of this number.
pub const UNKNOWN_DEVICE: u32 = 5;

/// The length of a packet is not from 1 to 65,535.
pub const BAD_LENGTH: u32 = 6;

/// The sender or the inlet has no more numbers for packets; the moments or the pulls of the device are at their end; or a limit of records
/// is reached.
pub const AT_END: u32 = 7;

/// The tree has no queue of this number.
pub const UNKNOWN_QUEUE: u32 = 8;

/// The text makes no router, or an allocation failed.
pub const FAULT: u32 = 9;

/// The inlet has no room for the packet now, or a buffer has none for the lines of a record or for a name.
pub const FULL: u32 = 10;

/// The room of inlets is not from 1 to 16,777,216 packets.
pub const BAD_ROOM: u32 = 11;

/// The inlet of this sender was handed out before.
pub const HANDED_OUT: u32 = 12;

/// The tokens of the live router were reclaimed. It can only be reclaimed further, or closed.
pub const RECLAIMED: u32 = 13;

/// The packet was accepted.
pub const ACCEPTED: u32 = 0;

/// The packet was refused.
pub const REFUSED: u32 = 1;

/// The packet was accepted, and another was evicted for it.
pub const EVICTED: u32 = 2;

/// What a call returns that filled in `given` of `places` places.
pub(crate) fn given_status(given: usize, places: usize) -> u32
    ensures { result ≡ pulls_status given places }
{
    if given == 0 && places > 0 { NONE } else { OK }
}

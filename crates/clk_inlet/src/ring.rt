//! How the ring of an inlet is opened.

ghost use Rattle.std.specs.Prelude.{◌≡◌, ◌≤◌, [], IfOk};
ghost use Rattle.clk_inlet.specs.declared.limits.TheConstants.{MAX_ROOM};
ghost use Rattle.clk_inlet.specs.Halves.{pushed, fits, popped, AreHalves};

use crate::inlet::Inlet;
use crate::item::ItemOrder;
use crate::outlet::Outlet;
use rtrb::RingBuffer;
use std::alloc::{AllocError, Global};

/// Opens an inlet with room for `room` packets, from 1 to [`MAX_ROOM`](crate::MAX_ROOM), and returns its two halves.
///
/// The ring takes 16 bytes for each packet, and for the end. No other call allocates.
///
/// # Errors
///
/// Fails if the allocation fails.
pub fn open(alloc: Global, room: u32) -> Result<(Inlet, Outlet), AllocError>
    requires room { (1 ≤ room) × (room ≤ MAX_ROOM) }
    ensures halves { IfOk result (λ r. AreHalves r.0 r.1) }
    ensures empty { IfOk result (λ r. (pushed r.0 ≡ []) × (popped r.1 ≡ [])) }
    ensures fits { IfOk result (λ r. fits r.0 ≡ room) }
{
    let (producer, consumer) = RingBuffer::with_protocol::<Global, ItemOrder>(
        alloc,
        room as usize + 1,
    )?;
    Ok((Inlet::of(producer, room), Outlet::of(consumer)))
}

//! Whether a queue that lost packets accepted as many as it may hold.

ghost use Rattle.std.specs.Prelude.{◌≡◌, ◌+◌, ◌-◌, ◌<◌, ◌≤◌, length, OnOk, IfErr, OnErr, true, false};
ghost use Rattle.std.specs.List.{AllByRecursion};
ghost use Rattle.clk_packet.specs.declared.fault.Fault.TheVariants.{Unsettled};
ghost use Rattle.clk_ruled.specs.Queue.{IsSharedOut};
ghost use Rattle.clk_ruled.specs.Settle.{accepted_count, lost_count, lists_of};

use crate::closed::ClosedSeat;
use clk_packet::Fault;

// Fault 21 if a packet was refused or evicted, and fewer packets were accepted than the capacity.
pub fn check_reached(closed: &[ClosedSeat], capacity: u32, index: u16) -> Result<(), Fault>
    ensures reached { OnOk result (0 < lost_count (lists_of closed.now) → capacity ≤ accepted_count (lists_of closed.now)) }
    ensures fault { IfErr result (λ fault. (fault ≡ Unsettled index (accepted_count (lists_of closed.now)) capacity) × (0 < lost_count (lists_of closed.now)) × (accepted_count (lists_of closed.now) < capacity)) }
    ensures shared { OnErr result (AllByRecursion IsSharedOut (lists_of closed.now)) }
{
    if !lost_some(closed) {
        return Ok(());
    }
    match missing(closed, capacity) {
        0 => Ok(()),
        missing => Err(Fault::Unsettled {
            queue: index,
            accepted: capacity - missing,
            capacity,
        }),
    }
}

// Whether a packet was refused or evicted.
fn lost_some(closed: &[ClosedSeat]) -> bool
    ensures some { result ≡ true → 0 < lost_count (lists_of closed.now) }
    ensures none { result ≡ false → lost_count (lists_of closed.now) ≡ 0 }
{
    for seat in closed {
        if lost_one(seat) {
            return true;
        }
    }
    false
}

// Whether a packet of this seat was refused, or one was evicted for it.
fn lost_one(seat: &ClosedSeat) -> bool
    ensures some { result ≡ true → 0 < length seat.now.lists.refused + length seat.now.lists.evicted }
    ensures none { result ≡ false → length seat.now.lists.refused + length seat.now.lists.evicted ≡ 0 }
{
    if seat.refused().is_empty() {
        !seat.evicted().is_empty()
    } else {
        true
    }
}

// How many packets fewer than `capacity` the queue accepted, and 0 if it accepted as many or more.
fn missing(closed: &[ClosedSeat], capacity: u32) -> u32
    ensures missing { result ≡ capacity - accepted_count (lists_of closed.now) }
    ensures shared { AllByRecursion IsSharedOut (lists_of closed.now) }
{
    let mut missing = capacity;
    for seat in closed {
        missing = less(missing, seat.count_accepted());
    }
    missing
}

// A number less another, and 0 if the other is greater.
fn less(number: u32, away: usize) -> u32
    ensures { result ≡ number - away }
{
    if away < number as usize {
        number - away as u32
    } else {
        0
    }
}

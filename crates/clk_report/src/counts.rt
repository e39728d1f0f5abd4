//! The counts of a sender's packets, in 128 bits.

ghost use Rattle.std.specs.Prelude.{◌≡◌, [], ◌-◌, ◌<◌, ◌^◌};
ghost use Rattle.clk_packet.specs.Counts.{counts_of};
ghost use Rattle.clk_report.specs.Counts.{sent_in};
ghost use Rattle.clk_report.specs.inside.Totals.{FitsSent};

use crate::total::total_of;
use clk_packet::{Counts, Tally, Total};

/// The counts of the packets that a tally lists, if `emitted` is the total of its sender's packets that all devices emitted. Takes time in
/// proportion to the packets.
pub fn counts_of(tally: &Tally, emitted: Total<u128>) -> Counts<u128>
    ensures counts { result ≡ record (counts_of [] tally.now) { emitted = emitted } }
    ensures fits { FitsSent result }
{
    Counts {
        sender: tally.sender,
        accepted: total_of(tally.accepted.as_slice()),
        refused: total_of(tally.refused.as_slice()),
        evicted: total_of(tally.evicted.as_slice()),
        emitted,
    }
}

/// These counts, in 128 bits.
pub fn widened(counts: &Counts<u64>) -> Counts<u128>
    ensures counts { result ≡ counts.now }
    ensures fits { FitsSent result }
{
    Counts {
        sender: counts.sender,
        accepted: wide(counts.accepted),
        refused: wide(counts.refused),
        evicted: wide(counts.evicted),
        emitted: wide(counts.emitted),
    }
}

/// This total, in 128 bits.
fn wide(total: Total<u64>) -> Total<u128>
    ensures total { result ≡ total }
    ensures packets { result.packets < 2 ^ 64 }
    ensures bytes { result.bytes < 2 ^ 64 }
{
    Total {
        packets: u128::from(total.packets),
        bytes: u128::from(total.bytes),
    }
}

/// The total of what a sender sent: accepted and refused together.
pub fn sent_in(counts: &Counts<u128>) -> Total<u128>
    requires fits { FitsSent counts.now }
    ensures { result ≡ sent_in counts.now }
{
    Total {
        packets: counts.accepted.packets + counts.refused.packets,
        bytes: counts.accepted.bytes + counts.refused.bytes,
    }
}

/// The first total less the second.
pub fn less(total: Total<u128>, part: Total<u128>) -> Total<u128>
    ensures packets { result.packets ≡ total.packets - part.packets }
    ensures bytes { result.bytes ≡ total.bytes - part.bytes }
{
    Total {
        packets: total.packets.saturating_sub(part.packets),
        bytes: total.bytes.saturating_sub(part.bytes),
    }
}

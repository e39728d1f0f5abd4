//! Numbers of packets and of their bytes, in 128 bits: no lists that a report is of have so many that it overflows.

ghost use Rattle.std.specs.Prelude.{◌≡◌, ◌+◌, ◌<◌, ◌≤◌, ◌^◌, ◌++◌, [], List, All, length};
ghost use Rattle.clk_packet.specs.Counts.{total_of};
ghost use Rattle.clk_packet.specs.declared.packet.Packet.{Packet};
ghost use Rattle.clk_report.specs.Devices.{all_emitted};
ghost use Rattle.clk_report.specs.inside.Totals.{AreTotals, HasRoom, with_packet};

use crate::reports::MAX_DEVICES;
use clk_packet::{MAX_SENDER, Packet, Total};

/// How many senders there may be at most.
pub const SENDERS: usize = MAX_SENDER as usize + 1;

/// How many totals a small table has. It is for a report whose senders' numbers are all below this.
pub const FEW: usize = 256;

/// The total of no packets.
pub const NONE: Total<u128> = Total {
    packets: 0,
    bytes: 0,
};

/// Adds one packet to a total.
fn add(total: &mut Total<u128>, packet: Packet)
    requires packets { total.old.packets + 1 < 2 ^ 128 }
    requires bytes { total.old.bytes + packet.length < 2 ^ 128 }
    ensures { total.new ≡ with_packet packet total.old }
{
    total.packets += 1;
    total.bytes += u128::from(packet.length);
}

/// The total of some packets.
pub fn total_of(packets: &[Packet]) -> Total<u128>
    ensures { result ≡ total_of packets.now }
{
    let mut total = NONE;
    for packet in packets {
        add(&mut total, *packet);
    }
    total
}

/// Counts the packets that each device emitted, by the numbers of their senders, in a table that has counted none. Leaves out packets of
/// senders beyond the table.
pub fn count_by_sender(totals: &mut [Total<u128>], emitted: &[Vec<Packet>])
    requires none { AreTotals [] totals.old }
    requires few { length emitted.now ≤ MAX_DEVICES }
    ensures totals { AreTotals (all_emitted emitted.now) totals.new }
{
    for packets in emitted {
        count(totals, packets);
    }
}

/// Counts these packets too, by the numbers of their senders.
fn count(totals: &mut [Total<u128>], packets: &[Packet])
    requires room { All (HasRoom (length packets.now)) totals.old }
    ensures counted { (before : List Packet) → AreTotals before totals.old → AreTotals (before ++ packets.now) totals.new }
{
    for packet in packets {
        let sender = usize::from(packet.sender);
        if sender < totals.len() {
            add(&mut totals[sender], *packet);
        }
    }
}

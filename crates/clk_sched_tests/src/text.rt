//! How packets and visits are shown.

use clk_packet::Packet;
use clk_rows::script::show_packet;
use clk_sched::Visit;
use std::alloc::AllocError;

/// Packets, each after a space.
pub fn show_packets(text: &mut String, packets: &[Packet]) -> Result<(), AllocError> {
    for packet in packets {
        text.push_str(" ")?;
        show_packet(text, *packet)?;
    }
    text.push_str("\n")
}

/// A visit as a line of the visit CSV: pull, node, input, fresh, then sender, number and length of what was got, passed, moment.
pub fn show_visit(text: &mut String, visit: &Visit) -> Result<(), AllocError> {
    let fresh = u8::from(visit.fresh);
    write!(
        text,
        "{},{},{},{fresh},",
        visit.pull, visit.node, visit.input
    )?;
    match visit.got {
        Some(packet) => write!(
            text,
            "{},{},{},",
            packet.sender, packet.number, packet.length
        )?,
        None => text.push_str(",,,")?,
    }
    let passed = u8::from(visit.passed);
    writeln!(text, "{passed},{}", visit.moment)
}

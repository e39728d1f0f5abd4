//! Scripts of worked rows, as commands for tests that run them by the calls of a crate, and lines as a script writes them.

use crate::Row;
use clk_packet::{Offered, Packet};
use std::alloc::AllocError;

/// What a line of a script says.
#[derive(Clone, Copy)]
pub enum Command {
    /// A sender sends a packet of this length.
    Send(u16, u16),
    /// The link pulls at this moment.
    Pull(u64),
    /// All is drained from this moment on.
    Drain(u64),
}

/// The command in a line, if it has one.
pub fn command_of(line: &str) -> Option<Command> {
    let mut words = line.split_ascii_whitespace();
    let word = words.next()?;
    let number: u64 = words.next()?.parse().ok()?;
    match word {
        "send" => {
            let sender = u16::try_from(number).ok()?;
            Some(Command::Send(sender, words.next()?.parse().ok()?))
        }
        "pull" => Some(Command::Pull(number)),
        "drain" => Some(Command::Drain(number)),
        _ => None,
    }
}

/// A packet as `S#n L`, sender, number and length.
pub fn show_packet(text: &mut String, packet: Packet) -> Result<(), AllocError> {
    let Packet {
        number,
        sender,
        length,
    } = packet;
    write!(text, "{sender}#{number} {length}")
}

/// A packet as `S#n L`, or `none`.
pub fn show_got(text: &mut String, got: Option<Packet>) -> Result<(), AllocError> {
    match got {
        Some(packet) => show_packet(text, packet),
        None => text.push_str("none"),
    }
}

/// The line of a packet that was sent, with the outcome of its offer.
pub fn show_sent(text: &mut String, packet: Packet, offered: Offered) -> Result<(), AllocError> {
    show_packet(text, packet)?;
    match offered {
        Offered::Accepted => text.push_str(" accepted\n"),
        Offered::Refused(_) => text.push_str(" refused\n"),
        Offered::Evicted(front) => {
            writeln!(text, " accepted evicted {}#{}", front.sender, front.number)
        }
    }
}

/// The line of a pull.
pub fn show_pull(text: &mut String, moment: u64, got: Option<Packet>) -> Result<(), AllocError> {
    write!(text, "pull {moment}: ")?;
    show_got(text, got)?;
    text.push_str("\n")
}

impl Row {
    /// Whether the script of the row writes these lines, apart from a report at its end.
    pub fn is_answered_by(&self, lines: &str) -> bool {
        match self.answer.strip_prefix(lines) {
            Some(rest) => rest.is_empty() || rest.starts_with("sender "),
            None => false,
        }
    }
}

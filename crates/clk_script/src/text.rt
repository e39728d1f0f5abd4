//! The lines of a script's answer and of its record. Each is written from its end to its front.

ghost use Rattle.std.specs.Prelude.{◌≡◌, ◌+◌, ◌≤◌, ◌++◌, drop, length, Some};
ghost use Rattle.clk_script.specs.declared.text.TheConstants.{COMMAND_ROOM};
ghost use Rattle.clk_script.specs.Meaning.{name_text, packet_text, outcome_text, result_text, device_text, pull_text, offer_text};
ghost use Rattle.clk_script.specs.Record.{named_device, command_text, drain_text};

use crate::script::Command;
use clk_packet::{Offered, Packet};
use clk_report::{put, put_number};

/// How many bytes a line has at most.
pub const LINE: usize = 128;

/// How many bytes the line of a command or of a drain has at most: the room that `command_line` and `drain_line` want.
pub const COMMAND_ROOM: usize = 48;

/// Puts the line of an offer before the place `end`. Returns where it starts.
#[inline(always)]
pub fn put_offer(line: &mut [u8], packet: Packet, outcome: Offered, end: usize) -> usize
    requires room { 122 ≤ end }
    requires within { end ≤ length line.old }
    ensures piece { drop result line.new ≡ offer_text packet outcome ++ drop end line.old }
    ensures before { result ≤ end }
{
    let end = put(line, b"\n", end);
    let end = put_outcome(line, outcome, end);
    put_packet(line, packet, end)
}

/// Puts the line of a pull of a device before the place `end`, with the moment that was handed in, in ticks. `several` says whether there
/// are several devices. Returns where the line starts.
#[inline(always)]
pub fn put_pull(
    line: &mut [u8],
    several: bool,
    device: u16,
    moment: u64,
    got: Option<Packet>,
    end: usize,
) -> usize
    requires room { 122 ≤ end }
    requires within { end ≤ length line.old }
    ensures piece { drop result line.new ≡ pull_text several device moment got ++ drop end line.old }
    ensures before { result ≤ end }
{
    let end = put(line, b"\n", end);
    let end = put_result(line, got, end);
    let end = put(line, b": ", end);
    let end = put_device(line, several, device, end);
    let end = put_number(line, moment, end);
    put(line, b"pull ", end)
}

/// Puts the number of a device before the place `end`, if there are several. Returns where it starts.
#[inline(always)]
fn put_device(line: &mut [u8], several: bool, device: u16, end: usize) -> usize
    requires room { 21 ≤ end }
    requires within { end ≤ length line.old }
    ensures piece { drop result line.new ≡ device_text several device ++ drop end line.old }
    ensures near { end ≤ result + 21 }
    ensures before { result ≤ end }
{
    if !several {
        return end;
    }
    let end = put_number(line, u64::from(device), end);
    put(line, b" ", end)
}

/// Puts ` accepted`, ` refused` or ` accepted evicted S#n` before the place `end`. Returns where it starts.
fn put_outcome(line: &mut [u8], outcome: Offered, end: usize) -> usize
    requires room { 59 ≤ end }
    requires within { end ≤ length line.old }
    ensures piece { drop result line.new ≡ outcome_text outcome ++ drop end line.old }
    ensures near { end ≤ result + 59 }
    ensures before { result ≤ end }
{
    match outcome {
        Offered::Accepted => put(line, b" accepted", end),
        Offered::Refused(_) => put(line, b" refused", end),
        Offered::Evicted(front) => {
            let end = put_name(line, front, end);
            put(line, b" accepted evicted ", end)
        }
    }
}

/// Puts `S#n L` or `none` before the place `end`. Returns where it starts.
fn put_result(line: &mut [u8], got: Option<Packet>, end: usize) -> usize
    requires room { 62 ≤ end }
    requires within { end ≤ length line.old }
    ensures piece { drop result line.new ≡ result_text got ++ drop end line.old }
    ensures near { end ≤ result + 62 }
    ensures before { result ≤ end }
{
    match got {
        Some(packet) => put_packet(line, packet, end),
        None => put(line, b"none", end),
    }
}

/// Puts `S#n L` before the place `end`. Returns where it starts.
fn put_packet(line: &mut [u8], packet: Packet, end: usize) -> usize
    requires room { 62 ≤ end }
    requires within { end ≤ length line.old }
    ensures piece { drop result line.new ≡ packet_text packet ++ drop end line.old }
    ensures near { end ≤ result + 62 }
    ensures before { result ≤ end }
{
    let end = put_number(line, u64::from(packet.length), end);
    let end = put(line, b" ", end);
    put_name(line, packet, end)
}

/// Puts `S#n` before the place `end`. Returns where it starts.
fn put_name(line: &mut [u8], packet: Packet, end: usize) -> usize
    requires room { 41 ≤ end }
    requires within { end ≤ length line.old }
    ensures piece { drop result line.new ≡ name_text packet ++ drop end line.old }
    ensures near { end ≤ result + 41 }
    ensures before { result ≤ end }
{
    let end = put_number(line, u64::from(packet.number), end);
    let end = put(line, b"#", end);
    put_number(line, u64::from(packet.sender), end)
}

/// Puts the line of a command into some room, and returns it.
#[inline(always)]
pub fn command_line(room: &mut [u8; COMMAND_ROOM], command: Command) -> &[u8]
    ensures line { result.now ≡ command_text command }
{
    let start = put_command(room, command, COMMAND_ROOM);
    &room[start..]
}

/// Puts the line of a command before the place `end`. Returns where it starts.
#[inline(always)]
pub fn put_command(line: &mut [u8], command: Command, end: usize) -> usize
    requires room { COMMAND_ROOM ≤ end }
    requires within { end ≤ length line.old }
    ensures piece { drop result line.new ≡ command_text command ++ drop end line.old }
    ensures near { end ≤ result + COMMAND_ROOM }
    ensures before { result ≤ end }
{
    let end = put(line, b"\n", end);
    match command {
        Command::Send { sender, length } => {
            let end = put_number(line, u64::from(length), end);
            let end = put(line, b" ", end);
            let end = put_number(line, u64::from(sender), end);
            put(line, b"send ", end)
        }
        Command::Pull { device, moment } => {
            let end = put_named_device(line, device, end);
            let end = put_number(line, moment, end);
            put(line, b"pull ", end)
        }
    }
}

/// Puts the number of a device before the place `end`, unless it is 0. Returns where it starts.
#[inline(always)]
fn put_named_device(line: &mut [u8], device: u16, end: usize) -> usize
    requires room { 21 ≤ end }
    requires within { end ≤ length line.old }
    ensures piece { drop result line.new ≡ named_device device ++ drop end line.old }
    ensures near { end ≤ result + 21 }
    ensures before { result ≤ end }
{
    if device == 0 {
        return end;
    }
    let end = put_number(line, u64::from(device), end);
    put(line, b" ", end)
}

/// Puts the line of a drain from this moment on, in ticks, into some room, and returns it.
#[inline(always)]
pub fn drain_line(room: &mut [u8; COMMAND_ROOM], moment: u64) -> &[u8]
    ensures line { result.now ≡ drain_text (Some moment) }
{
    let end = put(room, b"\n", COMMAND_ROOM);
    let end = put_number(room, moment, end);
    let start = put(room, b"drain ", end);
    &room[start..]
}

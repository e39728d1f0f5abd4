//! Lines are added to a record: the script of what a router did, at the front of a text of the caller's.

ghost use Rattle.std.specs.Prelude.{◌≡◌, ◌<◌, ◌≤◌, ◌+◌, length, map, replicate, [], true, false, Some, None, IfSome};
ghost use Rattle.std.specs.List.{list_any};
ghost use Rattle.clk_script.specs.Record.{command_text, record_text};
ghost use Rattle.clk_script.specs.declared.script.Command.TheVariants.{Pull, Send};
ghost use Rattle.clickpull_c.specs.Recording.{AddsLines, AddsSends, FindsRoom, IsAdded, MayGoOn, lacks_length, send_of};

use crate::live::CTaken;
use crate::statuses::{AT_END, BAD_LENGTH, FULL, OK};
use crate::values::{COffered, CPacket};
use clk_script::{COMMAND_ROOM, Command, MAX_LINES, MAX_MOMENT, command_line, drain_line};

/// How many bytes a line of a record has at most.
pub const MOST_LINE: usize = 25;

/// What a line of a record says of a packet that was offered.
trait Sent {
    ghost use Rattle.std.specs.Prelude.{◌≡◌};
    ghost use Rattle.clickpull_c.specs.declared.values.CPacket.{CPacket};

    // The packet.
    ghost packet: { Self → CPacket };

    /// The packet.
    fn packet(&self) -> CPacket
        ensures { result ≡ packet self.now };
}

impl Sent for COffered {
    ghost packet = { λ offered. offered.packet };

    #[inline]
    fn packet(&self) -> CPacket {
        self.packet
    }
}

impl Sent for CTaken {
    ghost packet = { λ taken. taken.packet };

    #[inline]
    fn packet(&self) -> CPacket {
        self.packet
    }
}

/// Adds the lines of packets that were offered to a router, behind the bytes of the text that are used.
#[unsafe(no_mangle)]
pub extern "C" fn clk_raw_record_offered(
    offered: &[COffered],
    text: &mut [u8],
    used: &mut usize,
    lines: &mut u32,
) -> u32
    ensures answer { AddsSends (map (λ o. o.packet) offered.now) text.old text.new used.old used.new lines.old lines.new result }
    ensures enough { FindsRoom (length offered.now) text.old used.old result }
{
    add_packets(offered, text, used, lines)
}

/// Adds the lines of packets that were taken from inlets, behind the bytes of the text that are used.
#[unsafe(no_mangle)]
pub extern "C" fn clk_raw_record_taken(
    taken: &[CTaken],
    text: &mut [u8],
    used: &mut usize,
    lines: &mut u32,
) -> u32
    ensures answer { AddsSends (map (λ t. t.packet) taken.now) text.old text.new used.old used.new lines.old lines.new result }
    ensures enough { FindsRoom (length taken.now) text.old used.old result }
{
    add_packets(taken, text, used, lines)
}

/// Adds the lines of so many pulls of the device with this number, each at this moment in ticks, behind the bytes of the text that are
/// used.
#[unsafe(no_mangle)]
pub extern "C" fn clk_raw_record_pulls(
    device: u16,
    moment: u64,
    pulls: u64,
    text: &mut [u8],
    used: &mut usize,
    lines: &mut u32,
) -> u32
    ensures answer { AddsLines (record_text (replicate pulls (Pull device moment)) None) pulls (Some moment) text.old text.new used.old used.new lines.old lines.new result }
    ensures enough { FindsRoom pulls text.old used.old result }
{
    if !may_go_on(*lines, pulls, Some(moment)) {
        return AT_END;
    }
    if *used > text.len() {
        return FULL;
    }
    let mut room = [0; COMMAND_ROOM];
    let line = command_line(&mut room, Command::Pull { device, moment });
    let mut end = *used;
    let mut made = 0;
    while made < pulls {
        let Some(next) = add_line(text, end, line) else {
            return FULL;
        };
        end = next;
        made += 1;
    }
    *used = end;
    *lines += pulls as u32;
    OK
}

/// Adds the line of the drain that ends the record, from this moment on in ticks, behind the bytes of the text that are used.
#[unsafe(no_mangle)]
pub extern "C" fn clk_raw_record_drain(
    moment: u64,
    text: &mut [u8],
    used: &mut usize,
    lines: &mut u32,
) -> u32
    ensures answer { AddsLines (record_text [] (Some moment)) 1 (Some moment) text.old text.new used.old used.new lines.old lines.new result }
    ensures enough { FindsRoom 1 text.old used.old result }
{
    if !may_go_on(*lines, 1, Some(moment)) {
        return AT_END;
    }
    let mut room = [0; COMMAND_ROOM];
    let Some(end) = add_line(text, *used, drain_line(&mut room, moment)) else {
        return FULL;
    };
    *used = end;
    *lines += 1;
    OK
}

// Adds the lines of packets that were offered, if each has a length.
fn add_packets<S: Sent>(sent: &[S], text: &mut [u8], used: &mut usize, lines: &mut u32) -> u32
    ensures answer { AddsSends (map (λ s. S.Sent.packet s) sent.now) text.old text.new used.old used.new lines.old lines.new result }
    ensures enough { FindsRoom (length sent.now) text.old used.old result }
{
    if lack_length(sent) {
        return BAD_LENGTH;
    }
    add_sends(sent, text, used, lines)
}

// Whether one of these packets has no length.
fn lack_length<S: Sent>(sent: &[S]) -> bool
    ensures { result ≡ list_any (λ s. lacks_length (S.Sent.packet s)) sent.now }
{
    sent.iter().any(|it| it.packet().length == 0)
}

// Adds the lines of packets that were offered.
fn add_sends<S: Sent>(sent: &[S], text: &mut [u8], used: &mut usize, lines: &mut u32) -> u32
    ensures answer { AddsLines (record_text (map (λ s. send_of (S.Sent.packet s)) sent.now) None) (length sent.now) None text.old text.new used.old used.new lines.old lines.new result }
    ensures enough { FindsRoom (length sent.now) text.old used.old result }
{
    if !may_go_on(*lines, sent.len() as u64, None) {
        return AT_END;
    }
    if *used > text.len() {
        return FULL;
    }
    let mut end = *used;
    let mut done = 0;
    while done < sent.len() {
        let packet = sent[done].packet();
        let Some(next) = add_send(text, end, packet.sender, packet.length) else {
            return FULL;
        };
        end = next;
        done += 1;
    }
    *used = end;
    *lines += sent.len() as u32;
    OK
}

// Adds the line of a packet that was offered. Returns where it ends, or nothing if there is no room for it.
fn add_send(text: &mut [u8], used: usize, sender: u16, size: u16) -> Option<usize>
    ensures added { IfSome result (λ end. IsAdded (command_text (Send sender size)) text.old text.new used end) }
    ensures full { result ≡ None → (length text.old < used + length (command_text (Send sender size))) × (text.new ≡ text.old) }
    ensures size { length text.new ≡ length text.old }
    ensures short { length (command_text (Send sender size)) ≤ MOST_LINE }
{
    let command = Command::Send {
        sender,
        length: size,
    };
    let mut room = [0; COMMAND_ROOM];
    add_line(text, used, command_line(&mut room, command))
}

// Adds a line behind the bytes of a text that are used. Returns where it ends, or nothing if there is no room for it.
fn add_line(text: &mut [u8], used: usize, line: &[u8]) -> Option<usize>
    ensures added { IfSome result (λ end. IsAdded line.now text.old text.new used end) }
    ensures full { result ≡ None → (length text.old < used + length line.now) × (text.new ≡ text.old) }
    ensures size { length text.new ≡ length text.old }
{
    if used > text.len() || line.len() > text.len() - used {
        return None;
    }
    let end = used + line.len();
    text[used..end].copy_from_slice(line);
    Some(end)
}

// Whether a record of so many lines may go on with `count` lines of this moment, in ticks.
fn may_go_on(lines: u32, count: u64, moment: Option<u64>) -> bool
    ensures yes { result ≡ true → MayGoOn lines count moment }
    ensures no { result ≡ false → MayGoOn lines count moment → ⊥ }
{
    let is_early = match moment {
        Some(moment) => moment <= MAX_MOMENT,
        None => true,
    };
    is_early && lines <= MAX_LINES && count <= u64::from(MAX_LINES - lines)
}

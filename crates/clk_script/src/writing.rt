//! Writing an answer, without allocating.

ghost use Rattle.std.specs.Prelude.{◌≡◌, ◌≤◌, ◌+◌, ◌++◌, true, drop, length, slice_get, IfSome};
ghost use Rattle.std.specs.List.{flat_map};
ghost use Rattle.clk_packet.specs.Bytes.{Wrote};
ghost use Rattle.clk_report.specs.Devices.{lists_of};
ghost use Rattle.clk_script.specs.Meaning.{offer_text};
ghost use Rattle.clk_script.specs.inside.Lines.{PassesOn};
ghost use Rattle.clk_script.specs.inside.Rows.{offered_as, fronts_left, row_text, rows_text, given_of, given_after, fronts_after, closings_text, answer_text};
ghost use Rattle.clk_script.specs.inside.ScriptRouter.{departure_text};

use crate::answer::Answer;
use crate::lines::LineBuffer;
use crate::report::write_accounts;
use crate::rows::{Fate, ScriptRow};
use crate::script_router::ScriptRouter;
use crate::text::{LINE, put_offer, put_pull};
use clk_packet::{Fault, Offered, Packet, Sink};
use clk_report::MAX_DEVICES;
use clk_sched::Departure;

/// Writes the lines of an answer, and the report if the script has a drain.
///
/// # Errors
///
/// Fault 20 if the sink fails. It has then taken a front of these lines.
pub fn write_answer<W: Sink>(answer: &Answer, writer: &mut W) -> Result<(), Fault>
    requires packets { answer.now.script_router.router.keeps.packets ≡ true }
    requires closings { IfSome answer.now.closing (λ closings. length closings.items ≤ MAX_DEVICES) }
    ensures { Wrote (W.Sink.taken writer.old) (W.Sink.taken writer.new)
        (W.Sink.failures writer.old) (W.Sink.failures writer.new) result (answer_text answer.now) }
{
    let done = &answer.script_router;
    let several = done.router.devices() > 1;
    let mut lines = LineBuffer::new();
    write_rows(
        &mut lines,
        several,
        &answer.rows,
        given_of(done),
        &done.evicted,
        writer,
    )?;
    let Some(closings) = &answer.closing else {
        return lines.write(writer);
    };
    write_closings(&mut lines, several, 0, closings, writer)?;
    lines.write(writer)?;
    write_accounts(&done.accounts, writer)
}

/// The packets that pulls gave before the drain, in order. With a single device those of the drain follow them.
fn given_of(done: &ScriptRouter) -> &[Packet]
    requires { done.now.router.keeps.packets ≡ true }
    ensures { result.now ≡ given_of done.now }
{
    if done.router.devices() > 1 {
        &done.given
    } else {
        done.router.emitted(0)
    }
}

/// Adds the lines of these rows. `emitted` has the packets that pulls gave, from the first row on, and `put_out` those that were evicted.
fn write_rows<W: Sink>(
    lines: &mut LineBuffer,
    several: bool,
    rows: &[ScriptRow],
    emitted: &[Packet],
    put_out: &[Packet],
    writer: &mut W,
) -> Result<(), Fault>
    ensures { PassesOn (W.Sink.taken writer.old) (W.Sink.taken writer.new)
        (W.Sink.failures writer.old) (W.Sink.failures writer.new) result
        lines.old (rows_text several rows.now emitted.now put_out.now) lines.new }
{
    let mut line = [0; LINE];
    let mut given = emitted;
    let mut fronts = put_out;
    for row in rows {
        let start;
        (start, given, fronts) = put_row(&mut line, several, *row, given, fronts);
        lines.add(&line[start..], writer)?;
    }
    Ok(())
}

/// Puts the line of a row. Returns where it starts, and what is left after the row of the packets that were given and of those that were
/// evicted.
#[inline(always)]
fn put_row<'a>(
    line: &mut [u8],
    several: bool,
    row: ScriptRow,
    given: &'a [Packet],
    fronts: &'a [Packet],
) -> (usize, &'a [Packet], &'a [Packet])
    requires within { 128 ≤ length line.old }
    ensures piece { drop result.0 line.new ≡ row_text several row given.now fronts.now ++ drop 128 line.old }
    ensures before { result.0 ≤ 128 }
    ensures given { result.1.now ≡ given_after row given.now }
    ensures fronts { result.2.now ≡ fronts_after row fronts.now }
{
    match row {
        ScriptRow::Send { fate, packet, .. } => {
            let (start, fronts) = put_send(line, fate, packet, fronts);
            (start, given, fronts)
        }
        ScriptRow::Pull {
            gave,
            device,
            moment,
        } => {
            let moment = moment.ticks();
            if !gave {
                let start = put_pull(line, several, device, moment, None, LINE);
                return (start, given, fronts);
            }
            let (got, given) = first(given);
            let start = put_pull(line, several, device, moment, got, LINE);
            (start, given, fronts)
        }
    }
}

/// Puts the line of a send of this packet with this outcome. Returns where it starts, and what is left of the packets that were evicted.
#[inline(always)]
fn put_send<'a>(
    line: &mut [u8],
    fate: Fate,
    packet: Packet,
    fronts: &'a [Packet],
) -> (usize, &'a [Packet])
    requires within { 128 ≤ length line.old }
    ensures piece { drop result.0 line.new ≡ offer_text packet (offered_as packet fate (slice_get fronts.now 0)) ++ drop 128 line.old }
    ensures before { result.0 ≤ 128 }
    ensures fronts { result.1.now ≡ fronts_left fate fronts.now }
{
    match fate {
        Fate::Accepted => (put_offer(line, packet, Offered::Accepted, LINE), fronts),
        Fate::Refused => (
            put_offer(line, packet, Offered::Refused(packet), LINE),
            fronts,
        ),
        Fate::Evicting => {
            let (front, fronts) = first(fronts);
            let offered = front.map_or(Offered::Accepted, Offered::Evicted);
            (put_offer(line, packet, offered, LINE), fronts)
        }
    }
}

/// The first of some packets, if there is one, and those after it.
fn first(packets: &[Packet]) -> (Option<Packet>, &[Packet])
    ensures first { result.0 ≡ slice_get packets.now 0 }
    ensures rest { result.1.now ≡ drop 1 packets.now }
{
    match packets {
        [] => (None, packets),
        [first, rest @ ..] => (Some(*first), rest),
    }
}

/// Adds the lines of the drains of devices, from this number on. `closings` has the packets that each device emitted in its drain.
fn write_closings<W: Sink>(
    lines: &mut LineBuffer,
    several: bool,
    device: u16,
    closings: &[Vec<Departure>],
    writer: &mut W,
) -> Result<(), Fault>
    requires { device + length closings.now ≤ MAX_DEVICES }
    ensures { PassesOn (W.Sink.taken writer.old) (W.Sink.taken writer.new)
        (W.Sink.failures writer.old) (W.Sink.failures writer.new) result
        lines.old (closings_text several device (lists_of closings.now)) lines.new }
{
    let [departures, closings @ ..] = closings else {
        return Ok(());
    };
    write_departures(lines, several, device, departures, writer)?;
    write_closings(lines, several, device + 1, closings, writer)
}

/// Adds a line for each packet that the device emitted in its drain.
fn write_departures<W: Sink>(
    lines: &mut LineBuffer,
    several: bool,
    device: u16,
    departures: &[Departure],
    writer: &mut W,
) -> Result<(), Fault>
    ensures { PassesOn (W.Sink.taken writer.old) (W.Sink.taken writer.new)
        (W.Sink.failures writer.old) (W.Sink.failures writer.new) result
        lines.old (flat_map (departure_text several device) departures.now) lines.new }
{
    let mut line = [0; LINE];
    for departure in departures {
        let start = put_departure(&mut line, several, device, *departure);
        lines.add(&line[start..], writer)?;
    }
    Ok(())
}

/// Puts the line of a packet that the device emitted in its drain. Returns where it starts.
#[inline(always)]
fn put_departure(line: &mut [u8], several: bool, device: u16, departure: Departure) -> usize
    requires within { 128 ≤ length line.old }
    ensures piece { drop result line.new ≡ departure_text several device departure ++ drop 128 line.old }
    ensures before { result ≤ 128 }
{
    let Departure { moment, packet } = departure;
    put_pull(line, several, device, moment, Some(packet), LINE)
}

//! The report: how many packets of each sender were sent, accepted, refused, evicted and emitted.

ghost use Rattle.std.specs.Prelude.{◌≡◌, ℕ, ◌+◌, ◌*◌, ◌<◌, ◌≤◌, ◌++◌, List, All, drop, length, IsOkUnless};
ghost use Rattle.std.specs.List.{flat_map};
ghost use Rattle.clk_packet.specs.Bytes.{Wrote, write_failures};
ghost use Rattle.clk_packet.specs.declared.packet.Packet.{Packet};
ghost use Rattle.clk_packet.specs.Counts.{counts_of};
ghost use Rattle.clk_report.specs.Counts.{counts_text};
ghost use Rattle.clk_report.specs.Devices.{all_emitted};
ghost use Rattle.clk_packet.specs.Dealt.{AccountFor};
ghost use Rattle.clk_report.specs.Report.{report_text};
ghost use Rattle.clk_report.specs.inside.Totals.{AreTotals, AccountsBeyond, FitsSent, TellsBelow};

use crate::counts::{counts_of, less, widened};
use crate::line::{LINE, put_line};
use crate::total::{FEW, NONE, SENDERS, count_by_sender};
use clk_packet::{Counts, Fault, Packet, Sink, Tally, Total, write_all};

/// How many devices there may be at most.
pub const MAX_DEVICES: usize = 65_535;

/// How many lines are written at a time.
const LINES: usize = 64;

/// How many bytes these lines have at most.
const ROOM: usize = LINES * LINE;

/// Writes the report: a line for each tally, in order. `emitted` has the packets that each device emitted; there are at most 65,535
/// devices. `N B` stands for N packets whose lengths sum to B bytes. Sent is accepted and refused together, and emitted counts the packets
/// that any device emitted:
///
/// `sender S: sent N B, accepted N B, refused N B, evicted N B, emitted N B`
///
/// Doesn't allocate. Takes time in proportion to the packets and the tallies.
///
/// # Errors
///
/// Fault 20 if the sink fails. It has then taken a front of the report.
pub fn report<W: Sink>(
    tallies: &[Tally],
    emitted: &[Vec<Packet>],
    writer: &mut W,
) -> Result<(), Fault>
    requires { length emitted.now ≤ MAX_DEVICES }
    ensures { Wrote (W.Sink.taken writer.old) (W.Sink.taken writer.new)
        (W.Sink.failures writer.old) (W.Sink.failures writer.new) result (report_text (all_emitted emitted.now) tallies.now) }
{
    if table_len(tallies) <= FEW {
        write_lines::<FEW, W>(tallies, emitted, writer)
    } else {
        write_lines::<SENDERS, W>(tallies, emitted, writer)
    }
}

/// Writes the report as `report` does, by the tallies alone. It is for a caller that doesn't have the emitted packets, but whose tallies
/// account for them: of each sender exactly those were emitted that were accepted and not evicted. If the tallies don't, nothing is
/// promised of what is written. Doesn't allocate. Takes time in proportion to the packets that the tallies list.
///
/// # Errors
///
/// Fault 20 if the sink fails. It has then taken a front of the report.
pub fn report_tallies<W: Sink>(tallies: &[Tally], writer: &mut W) -> Result<(), Fault>
    ensures report { (emitted : List Packet) → AccountFor emitted tallies.now → Wrote (W.Sink.taken writer.old) (W.Sink.taken writer.new)
        (W.Sink.failures writer.old) (W.Sink.failures writer.new) result (report_text emitted tallies.now) }
    // Whatever the tallies account for.
    ensures fault { IsOkUnless result Fault.Write }
    ensures failures { W.Sink.failures writer.new ≡ write_failures result (W.Sink.failures writer.old) }
{
    // No sender stands in a table of no totals.
    write_lines::<0, W>(tallies, &[], writer)
}

/// Writes the line of one sender, by its counts. It is for a caller that has counted all packets: the lines of its senders, in order, are
/// the report (`counts_tell_tallies`). Doesn't allocate.
///
/// # Errors
///
/// Fault 20 if the sink fails. It has then taken a front of the line.
pub fn report_line<W: Sink>(counts: &Counts<u64>, writer: &mut W) -> Result<(), Fault>
    ensures { Wrote (W.Sink.taken writer.old) (W.Sink.taken writer.new)
        (W.Sink.failures writer.old) (W.Sink.failures writer.new) result (counts_text counts.now) }
{
    let mut line = [0; LINE];
    let start = put_line(&mut line, &widened(counts), LINE);
    let (_, text) = line.split_at(start);
    write_all(writer, text)
}

/// How many totals a table needs to have one for each of these senders: one more than the greatest of their numbers.
fn table_len(tallies: &[Tally]) -> usize
    ensures within { All (λ t. t.sender < result) tallies.now }
    ensures limit { result ≤ SENDERS }
{
    let mut len = 0;
    for tally in tallies {
        len = len.max(usize::from(tally.sender) + 1);
    }
    len
}

/// Writes the report by a table of N totals, of the packets that were emitted of the first N senders. Of any other sender those were
/// emitted that its tally has as accepted and not as evicted. It isn't inlined, so that the larger table doesn't stand in the frame of a
/// report of few senders.
#[inline(never)]
fn write_lines<const N: usize, W: Sink>(
    tallies: &[Tally],
    emitted: &[Vec<Packet>],
    writer: &mut W,
) -> Result<(), Fault>
    requires size { N ≤ SENDERS }
    requires few { length emitted.now ≤ MAX_DEVICES }
    ensures lines { (out : List Packet) → TellsBelow N (all_emitted emitted.now) out → All (AccountsBeyond N out) tallies.now → Wrote (W.Sink.taken writer.old) (W.Sink.taken writer.new)
        (W.Sink.failures writer.old) (W.Sink.failures writer.new) result
        (flat_map (λ t. counts_text (counts_of out t)) tallies.now) }
    ensures fault { IsOkUnless result Fault.Write }
    ensures failures { W.Sink.failures writer.new ≡ write_failures result (W.Sink.failures writer.old) }
{
    let mut totals = [NONE; N];
    count_by_sender(&mut totals, emitted);
    let mut lines = [0; ROOM];
    let mut rest = tallies;
    while !rest.is_empty() {
        let (part, after) = rest.split_at(rest.len().min(LINES));
        let start = put_lines(&mut lines, part, &totals, ROOM);
        let (_, text) = lines.split_at(start);
        write_all(writer, text)?;
        rest = after;
    }
    Ok(())
}

/// Puts the lines of some senders before the place `end`. `totals` has the total of each sender's emitted packets, by its number, as far as
/// it goes. Returns where the lines start.
fn put_lines(lines: &mut [u8], tallies: &[Tally], totals: &[Total<u128>], end: usize) -> usize
    requires room { 512 * length tallies.now ≤ end }
    requires within { end ≤ length lines.old }
    ensures piece { (emitted : List Packet) → AreTotals emitted totals.now → All (AccountsBeyond (length totals.now) emitted) tallies.now → drop result lines.new ≡ flat_map (λ t. counts_text (counts_of emitted t)) tallies.now ++ drop end lines.old }
    ensures near { end ≤ result + 512 * length tallies.now }
    ensures before { result ≤ end }
{
    let [first, rest @ ..] = tallies else {
        return end;
    };
    let end = put_lines(lines, rest, totals, end);
    let counts = counts_by(first, totals);
    put_line(lines, &counts, end)
}

/// The counts of a sender, by its tally and the totals of emitted packets.
fn counts_by(tally: &Tally, totals: &[Total<u128>]) -> Counts<u128>
    ensures counts { (emitted : List Packet) → AreTotals emitted totals.now → AccountsBeyond (length totals.now) emitted tally.now → result ≡ counts_of emitted tally.now }
    ensures fits { FitsSent result }
{
    match totals.get(usize::from(tally.sender)) {
        Some(emitted) => counts_of(tally, *emitted),
        None => {
            let mut counts = counts_of(tally, NONE);
            counts.emitted = less(counts.accepted, counts.evicted);
            counts
        }
    }
}

//! The visit CSV.

ghost use Rattle.std.specs.Prelude.{◌≡◌, ◌*◌, ◌≤◌, ◌++◌, drop, length, map};
ghost use Rattle.clk_packet.specs.Bytes.{Wrote};
ghost use Rattle.clk_report.specs.VisitCsv.{devices_text, header_of, rows_text, visits_text};

use crate::row::{ROW, put_row};
use clk_packet::{Fault, Sink, write_all};
use clk_sched::{PackedLog, PackedVisit, Visit};
use std::alloc::Global;

/// The names of the columns.
const HEADER: &[u8] = b"pull,node,input,fresh,sender,number,length,passed,moment\n";

/// The names of the columns, with one for the device.
const DEVICES_HEADER: &[u8] = b"device,pull,node,input,fresh,sender,number,length,passed,moment\n";

/// How many rows are written at a time.
const ROWS: usize = 512;

/// How many bytes these rows have at most.
const ROOM: usize = ROWS * ROW;

/// How many rows a short log has at most. Less room is cleared for it.
const FEW: usize = 32;

/// How many bytes the rows of a short log have at most.
const FEW_ROOM: usize = FEW * ROW;

/// A log of visits, as a list or packed.
pub trait VisitLog {
    ghost use Rattle.std.specs.Prelude.{List};
    ghost use Rattle.clk_packet.specs.Bytes.{Wrote};
    ghost use Rattle.clk_sched.specs.declared.visit.Visit.{Visit};
    ghost use Rattle.clk_report.specs.VisitCsv.{rows_text};

    // Its visits, in order.
    ghost visits: { Self → List Visit };

    /// Writes the rows of its visits, each with the number of their device if one is given. Doesn't allocate.
    ///
    /// # Errors
    ///
    /// Fault 20 if the sink fails. It has then taken a front of the rows.
    fn rows<W: Sink>(&self, device: Option<u64>, writer: &mut W) -> Result<(), Fault>
        ensures { Wrote (W.Sink.taken writer.old) (W.Sink.taken writer.new)
            (W.Sink.failures writer.old) (W.Sink.failures writer.new) result (rows_text device (visits self.now)) };
}

impl VisitLog for Vec<Visit> {
    ghost visits = { λ log. log.items };

    fn rows<W: Sink>(&self, device: Option<u64>, writer: &mut W) -> Result<(), Fault> {
        visit_rows(device, self, writer)
    }
}

impl VisitLog for PackedLog {
    ghost use Rattle.clk_sched.specs.Packed.{logged};

    ghost visits = { logged };

    fn rows<W: Sink>(&self, device: Option<u64>, writer: &mut W) -> Result<(), Fault> {
        let (packed, rest) = self.parts();
        rows_of(device, packed, writer)?;
        rows_of(device, rest, writer)
    }
}

/// A visit, as it is or packed.
trait Shown {
    ghost use Rattle.std.specs.Prelude.{◌≡◌};
    ghost use Rattle.clk_sched.specs.declared.visit.Visit.{Visit};

    // The visit itself.
    ghost shown: { Self → Visit };

    /// The visit itself.
    fn show(&self) -> Visit
        ensures { result ≡ shown self.now };
}

impl Shown for Visit {
    ghost shown = { λ visit. visit };

    #[inline]
    fn show(&self) -> Visit {
        *self
    }
}

impl Shown for PackedVisit {
    ghost use Rattle.clk_sched.specs.Packed.{unpacked};

    ghost shown = { unpacked };

    #[inline]
    fn show(&self) -> Visit {
        self.unpack()
    }
}

/// Writes the log of each device as CSV: a header line, and a row for each visit, log after log. `fresh` and `passed` are 0 or 1. If a
/// visit got nothing, the sender, the number and the length are empty. If there are several logs, each line has a first column, `device`,
/// with the place of its log among these, from 0. Doesn't allocate. Takes time in proportion to the visits and the logs.
///
/// # Errors
///
/// Fault 20 if the sink fails. It has then taken a front of the text.
pub fn visits_csv<L: VisitLog, W: Sink>(logs: &[L], writer: &mut W) -> Result<(), Fault>
    ensures { Wrote (W.Sink.taken writer.old) (W.Sink.taken writer.new)
        (W.Sink.failures writer.old) (W.Sink.failures writer.new) result (visits_text (map L.visits logs.now)) }
{
    match logs {
        [] => visits_header(false, writer),
        [log] => {
            visits_header(false, writer)?;
            log.rows(None, writer)
        }
        _ => {
            visits_header(true, writer)?;
            write_devices(logs, writer)
        }
    }
}

/// Writes the header line of a visit CSV, of several devices or of one. Its rows may follow in parts (`visit_rows`), while a log grows: the
/// parts together are the whole text (`visits_come_in_pieces`). If there are several devices, the rows of each follow those of the one
/// before.
///
/// # Errors
///
/// Fault 20 if the sink fails. It has then taken a front of the line.
pub fn visits_header<W: Sink>(several: bool, writer: &mut W) -> Result<(), Fault>
    ensures { Wrote (W.Sink.taken writer.old) (W.Sink.taken writer.new)
        (W.Sink.failures writer.old) (W.Sink.failures writer.new) result (header_of several) }
{
    write_all(writer, if several { DEVICES_HEADER } else { HEADER })
}

/// Writes the rows of several devices, each row with its device.
fn write_devices<L: VisitLog, W: Sink>(logs: &[L], writer: &mut W) -> Result<(), Fault>
    ensures { Wrote (W.Sink.taken writer.old) (W.Sink.taken writer.new)
        (W.Sink.failures writer.old) (W.Sink.failures writer.new) result (devices_text 0 (map L.visits logs.now)) }
{
    for (device, log) in logs.iter().enumerate() {
        log.rows(Some(device as u64), writer)?;
    }
    Ok(())
}

/// Writes the rows of some visits, each with the number of their device if one is given. Doesn't allocate.
///
/// # Errors
///
/// Fault 20 if the sink fails. It has then taken a front of the rows.
pub fn visit_rows<W: Sink>(device: Option<u64>, log: &[Visit], writer: &mut W) -> Result<(), Fault>
    ensures { Wrote (W.Sink.taken writer.old) (W.Sink.taken writer.new)
        (W.Sink.failures writer.old) (W.Sink.failures writer.new) result (rows_text device log.now) }
{
    rows_of(device, log, writer)
}

/// Writes the rows of some visits, which may be packed, each with the number of their device if one is given.
fn rows_of<V: Shown, W: Sink>(device: Option<u64>, log: &[V], writer: &mut W) -> Result<(), Fault>
    ensures { Wrote (W.Sink.taken writer.old) (W.Sink.taken writer.new)
        (W.Sink.failures writer.old) (W.Sink.failures writer.new) result (rows_text device (map V.shown log.now)) }
{
    if log.len() <= FEW {
        write_rows::<FEW_ROOM, V, W>(device, log, writer)
    } else {
        write_rows::<ROOM, V, W>(device, log, writer)
    }
}

/// Writes the rows of some visits, as many at a time as N bytes are sure to hold. It isn't inlined, so that the larger buffer doesn't stand
/// in the frame of a call for a short log.
#[inline(never)]
fn write_rows<const N: usize, V: Shown, W: Sink>(
    device: Option<u64>,
    log: &[V],
    writer: &mut W,
) -> Result<(), Fault>
    requires some { ROW ≤ N }
    requires limit { N ≤ ROOM }
    ensures { Wrote (W.Sink.taken writer.old) (W.Sink.taken writer.new)
        (W.Sink.failures writer.old) (W.Sink.failures writer.new) result (rows_text device (map V.shown log.now)) }
{
    let mut rows = [0; N];
    let mut rest = log;
    while !rest.is_empty() {
        let (part, after) = rest.split_at(rest.len().min(N / ROW));
        let start = put_rows(&mut rows, device, part, N);
        let (_, text) = rows.split_at(start);
        write_all(writer, text)?;
        rest = after;
    }
    Ok(())
}

/// Puts the rows of some visits before the place `end`, the last row first. Returns where they start.
fn put_rows<V: Shown>(rows: &mut [u8], device: Option<u64>, log: &[V], end: usize) -> usize
    requires room { ROW * length log.now ≤ end }
    requires within { end ≤ length rows.old }
    ensures piece { drop result rows.new ≡ rows_text device (map V.shown log.now) ++ drop end rows.old }
    ensures before { result ≤ end }
{
    let mut start = end;
    let mut left = log;
    while let [before @ .., last] = left {
        start = put_row(rows, device, &last.show(), start);
        left = before;
    }
    start
}

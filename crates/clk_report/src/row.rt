//! The row of a visit in a visit CSV, written from its end to its front as the line of a report is. It is what the crate csv writes of
//! these columns (`row_text`). csv isn't called: no field needs quotes, so a number or a flag stands for itself.

ghost use Rattle.std.specs.Prelude.{◌≡◌, ◌+◌, ◌≤◌, ◌++◌, codes, decimal, drop, length};
ghost use Rattle.std.specs.List.{flat_map};
ghost use Rattle.csv.specs.Writing.{default_writer, field_text, row_text};
ghost use Rattle.clk_report.specs.VisitCsv.{columns, device_column, flag_text, got_text};

use crate::pieces::{put, put_number};
use clk_packet::Packet;
use clk_sched::Visit;

/// How many bytes a row has at most.
pub const ROW: usize = 128;

/// Puts the row of a visit before the place `end`, with the number of its device if one is given. Returns where the row starts.
pub fn put_row(rows: &mut [u8], device: Option<u64>, visit: &Visit, end: usize) -> usize
    requires room { ROW ≤ end }
    requires within { end ≤ length rows.old }
    ensures piece { drop result rows.new ≡ row_text default_writer (device_column device ++ columns visit.now) ++ drop end rows.old }
    ensures near { end ≤ result + ROW }
    ensures before { result ≤ end }
{
    let end = put(rows, b"\n", end);
    let end = put_field(rows, visit.moment, end);
    let end = put_flag(rows, visit.passed, end);
    let end = put_got(rows, visit.got, end);
    let end = put_flag(rows, visit.fresh, end);
    let end = put_short_field(rows, visit.input, end);
    let end = put(rows, b",", end);
    let end = put_short_field(rows, visit.node, end);
    let end = put(rows, b",", end);
    let end = put_field(rows, visit.pull, end);
    put_device(rows, device, end)
}

/// Puts the field of a device and a comma before the place `end`, if a device is given. Returns where they start.
fn put_device(rows: &mut [u8], device: Option<u64>, end: usize) -> usize
    requires room { 21 ≤ end }
    requires within { end ≤ length rows.old }
    ensures piece { drop result rows.new ≡ flat_map (λ column. field_text default_writer column ++ codes ",") (device_column device) ++ drop end rows.old }
    ensures near { end ≤ result + 21 }
    ensures before { result ≤ end }
{
    let Some(device) = device else {
        return end;
    };
    let end = put(rows, b",", end);
    put_field(rows, device, end)
}

/// Puts the fields of the packet that a visit got, before the place `end`: its sender, its number and its length, or three empty fields.
/// Returns where they start.
fn put_got(rows: &mut [u8], got: Option<Packet>, end: usize) -> usize
    requires room { 32 ≤ end }
    requires within { end ≤ length rows.old }
    ensures piece { drop result rows.new ≡ field_text default_writer (got_text (λ p. p.sender) got) ++ (codes "," ++ (field_text default_writer (got_text (λ p. p.number) got)
        ++ (codes "," ++ (field_text default_writer (got_text (λ p. p.length) got) ++ drop end rows.old)))) }
    ensures near { end ≤ result + 32 }
    ensures before { result ≤ end }
{
    let Some(packet) = got else {
        return put(rows, b",,", end);
    };
    let end = put_short_field(rows, packet.length, end);
    let end = put(rows, b",", end);
    let end = put_field(rows, u64::from(packet.number), end);
    let end = put(rows, b",", end);
    put_short_field(rows, packet.sender, end)
}

/// Puts the field of a flag, with the commas around it, before the place `end`. Returns where they start.
#[inline]
fn put_flag(rows: &mut [u8], flag: bool, end: usize) -> usize
    requires room { 3 ≤ end }
    requires within { end ≤ length rows.old }
    ensures piece { drop result rows.new ≡ codes "," ++ (field_text default_writer (flag_text flag) ++ (codes "," ++ drop end rows.old)) }
    ensures start { result + 3 ≡ end }
{
    put(rows, if flag { b",1," } else { b",0," }, end)
}

/// Puts a number as a field before the place `end`. Returns where it starts.
#[inline]
fn put_field(rows: &mut [u8], number: u64, end: usize) -> usize
    requires room { 20 ≤ end }
    requires within { end ≤ length rows.old }
    ensures piece { drop result rows.new ≡ field_text default_writer (decimal number) ++ drop end rows.old }
    ensures near { end ≤ result + 20 }
    ensures before { result ≤ end }
{
    put_number(rows, number, end)
}

/// Puts a number of at most 5 digits as a field before the place `end`. Returns where it starts.
#[inline]
fn put_short_field(rows: &mut [u8], number: u16, end: usize) -> usize
    requires room { 5 ≤ end }
    requires within { end ≤ length rows.old }
    ensures piece { drop result rows.new ≡ field_text default_writer (decimal number) ++ drop end rows.old }
    ensures near { end ≤ result + 5 }
    ensures before { result ≤ end }
{
    itoa::write_digits(u64::from(number), rows, end)
}

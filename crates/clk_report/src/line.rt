//! The lines of a report. Each is written from its end to its front.

ghost use Rattle.std.specs.Prelude.{◌≡◌, ◌+◌, ◌≤◌, ◌++◌, decimal, drop, length};
ghost use Rattle.clk_report.specs.Counts.{counts_text, words_text};
ghost use Rattle.clk_report.specs.inside.Totals.{FitsSent};

use crate::counts::sent_in;
use crate::pieces::{put, put_number};
use clk_packet::{Counts, Total};
use itoa::Buffer;

/// How many bytes a line has at most.
pub const LINE: usize = 512;

/// Puts the line of a sender with these counts before the place `end`. Returns where the line starts.
pub fn put_line(lines: &mut [u8], counts: &Counts<u128>, end: usize) -> usize
    requires room { 512 ≤ end }
    requires within { end ≤ length lines.old }
    requires fits { FitsSent counts.now }
    ensures piece { drop result lines.new ≡ counts_text counts.now ++ drop end lines.old }
    ensures near { end ≤ result + 512 }
    ensures before { result ≤ end }
{
    let end = put(lines, b"\n", end);
    let end = put_total(lines, b", emitted", counts.emitted, end);
    let end = put_total(lines, b", evicted", counts.evicted, end);
    let end = put_total(lines, b", refused", counts.refused, end);
    let end = put_total(lines, b", accepted", counts.accepted, end);
    let end = put_total(lines, b": sent", sent_in(counts), end);
    let end = put_number(lines, u64::from(counts.sender), end);
    put(lines, b"sender ", end)
}

/// Puts some words and ` N B` before the place `end`. Returns where they start.
fn put_total(lines: &mut [u8], words: &[u8], total: Total<u128>, end: usize) -> usize
    requires room { length words.now + 82 ≤ end }
    requires within { end ≤ length lines.old }
    ensures piece { drop result lines.new ≡ words_text words.now total ++ drop end lines.old }
    ensures near { end ≤ result + length words.now + 82 }
    ensures before { result ≤ end }
{
    let end = put_count(lines, total.bytes, end);
    let end = put(lines, b" ", end);
    let end = put_count(lines, total.packets, end);
    let end = put(lines, b" ", end);
    put(lines, words, end)
}

/// Puts a count before the place `end`. Returns where it starts.
fn put_count(lines: &mut [u8], count: u128, end: usize) -> usize
    requires room { 40 ≤ end }
    requires within { end ≤ length lines.old }
    ensures piece { drop result lines.new ≡ decimal count ++ drop end lines.old }
    ensures near { end ≤ result + 40 }
    ensures before { result ≤ end }
{
    put(lines, Buffer::new().format(count).as_bytes(), end)
}

//! Where an offset of a text is, and what of its line is shown.

ghost use Rattle.std.specs.Prelude.{◌≡◌, ◌≤◌, ◌+◌, take, drop, length, not, count_by};
ghost use Rattle.std.specs.List.{after_last, before_first, suffix_len, position_or_len};
ghost use Rattle.clk_explain.specs.Position.{is_feed, is_line_end, line_before, line_after, line_at, column_at, shown_before, shown_after};

use crate::limits::{SHOWN, SHOWN_BEFORE};

/// A line and a column of a text, each counted from 1. Columns are counted in bytes.
#[derive(Clone, Copy, Debug, PartialEq, Eq)]
pub struct Position {
    pub line: usize,
    pub column: usize,
}

/// Where an offset of a text is. An offset beyond the text counts as its end.
pub fn position_of(text: &[u8], offset: usize) -> Position
    ensures line { result.line ≡ line_at text.now offset }
    ensures column { result.column ≡ column_at text.now offset }
{
    let (front, _) = parts_at(text, offset);
    Position {
        line: 1 + feeds(front),
        column: 1 + last_line(front).len(),
    }
}

/// What of the line of an offset is shown: what stands before the offset, and what stands from it on.
pub fn shown_at(text: &[u8], offset: usize) -> (&[u8], &[u8])
    ensures before { result.0.now ≡ shown_before text.now offset }
    ensures after { result.1.now ≡ shown_after text.now offset }
    ensures few_before { length result.0.now ≤ SHOWN_BEFORE }
    ensures few { length result.0.now + length result.1.now ≤ SHOWN }
{
    let (front, back) = parts_at(text, offset);
    let before = last_line(front);
    let (_, before) = before.split_at(before.len().saturating_sub(SHOWN_BEFORE));
    let (after, _) = parts_at(first_line(back), SHOWN - before.len());
    (before, after)
}

/// What stands before an offset, and what stands from it on.
pub fn parts_at(text: &[u8], offset: usize) -> (&[u8], &[u8])
    ensures front { result.0.now ≡ take offset text.now }
    ensures back { result.1.now ≡ drop offset text.now }
    ensures few { length result.0.now ≤ offset }
{
    text.split_at(offset.min(text.len()))
}

/// How many line feeds a text has.
fn feeds(text: &[u8]) -> usize
    ensures feeds { result ≡ count_by is_feed text.now }
    ensures within { result ≤ length text.now }
{
    text.iter().filter(|byte| **byte == b'\n').count()
}

/// What stands behind the last line feed of a text.
fn last_line(text: &[u8]) -> &[u8]
    ensures line { result.now ≡ after_last is_feed text.now }
    ensures within { length result.now ≤ length text.now }
{
    let (_, line) = text.split_at(text.len() - last_line_len(text));
    line
}

/// How many bytes stand behind the last line feed of a text.
fn last_line_len(text: &[u8]) -> usize
    ensures bytes { result ≡ suffix_len (λ byte. not (is_feed byte)) text.now }
    ensures within { result ≤ length text.now }
{
    text.iter().rev().take_while(|byte| **byte != b'\n').count()
}

/// What stands at the front of a text up to its first line feed or carriage return.
fn first_line(text: &[u8]) -> &[u8]
    ensures { result.now ≡ before_first is_line_end text.now }
{
    let (line, _) = text.split_at(first_line_len(text));
    line
}

/// How many bytes stand before the first line feed or carriage return of a text.
fn first_line_len(text: &[u8]) -> usize
    ensures bytes { result ≡ position_or_len is_line_end text.now }
    ensures within { result ≤ length text.now }
{
    text.iter()
        .take_while(|byte| **byte != b'\n' && **byte != b'\r')
        .count()
}

//! Rows of tests: words, and what they do.

use crate::answers::{AMPLE, Difference, answer, compare, input};
use crate::files::{compare_files, write_all};
use clk_packet::Fault;
use std::rt::Files;
use std::sync::Wait;
use std::thread::Threads;
use std::{fs, str};

/// Files that exist before, each with its path and contents. Words, what they return for the script `input`, and what they write to
/// standard output; they write nothing to standard error. Files with their contents afterwards, or `None` if they don't exist.
pub type Row = (
    &'static [(&'static str, &'static str)],
    &'static str,
    Result<u8, Fault>,
    &'static str,
    &'static [(&'static str, Option<&'static str>)],
);

/// Words with the status that they return, how the text that they write begins, and a part of it. With status 2 they write it to standard
/// error, and with 0 to standard output.
pub type Said = (&'static str, u8, &'static str, &'static str);

/// Compares each row with what its words do, in order, beside a folder `out/folder`. Returns the words of the first row that differs, and
/// how. Fault 1 if an allocation fails, and fault 20 if the files of a row can't be written.
pub fn compare_rows(
    rt: &(impl Files + AllocGlobal + Threads + Wait + Sync),
    rows: &[Row],
) -> Result<Option<(&'static str, Difference)>, Fault> {
    fs::create_dir_all(rt, "out/folder").or(Err(Fault::Write))?;
    for (files, words, outcome, written, left) in rows {
        write_all(rt, files).or(Err(Fault::Write))?;
        let found = compare(rt, words, input(), *outcome, written.as_bytes())?;
        if let Some(difference) = found.or(compare_files(rt, left)) {
            return Ok(Some((words, difference)));
        }
    }
    Ok(None)
}

/// Whether words return this status, and write a text that begins so and has this part, and nothing else. Fault 1 if an allocation fails.
pub fn is_said(
    rt: &(impl Files + AllocGlobal + Threads + Wait + Sync),
    words: &str,
    status: u8,
    begin: &str,
    part: &str,
) -> Result<bool, Fault> {
    let answered = answer(rt, words, input(), AMPLE, AMPLE)?;
    let (said, other) = match status {
        0 => (answered.written, answered.told),
        _ => (answered.told, answered.written),
    };
    Ok(answered.outcome == Ok(status) && begins_and_has(&said, begin, part) && other.is_empty())
}

fn begins_and_has(text: &[u8], begin: &str, part: &str) -> bool {
    match str::from_utf8(text) {
        Ok(text) => text.starts_with(begin) && text.contains(part),
        Err(_) => false,
    }
}

//! Worked rows by the words of the program, over files.

use clk_command_fixtures::{compare, input, write};
use clk_packet::Fault;
use clk_rows::{
    CANONICAL_TEXT, EIGHT_SENDERS_ONE_QUEUE, EIGHT_SENDERS_TWO_DEVICES, EMPTY_TRACE_TWO_QUEUES,
    LONG_RUN, NO_SENDER, PRIO_TWO_QUEUES, SCRIPTS, TWO_DEVICES,
};
use csv::Reader;
use std::process::Abort;
use std::rt::Files;
use std::sync::Wait;
use std::test::Fail;
use std::thread::Threads;
use std::{fs, str};

// Fails unless words return this, write this to standard output, and write nothing else.
fn assert_writes(
    rt: &(impl Files + AllocGlobal + Threads + Wait + Sync + Abort),
    words: &str,
    outcome: Result<u8, Fault>,
    written: &str,
) {
    let found = compare(rt, words, input(), outcome, written.as_bytes());
    assert_eq!(rt; found.expect(rt, "ample memory"), None, "at {words}");
}

/// Fails unless words before the names of two files, with a tree and this input, return this and write this.
pub fn assert_row<H: Files + AllocGlobal + Threads + Wait + Sync + Abort>(
    rt: &H,
    tree: &str,
    words: &str,
    input: &str,
    outcome: Result<u8, Fault>,
    written: &str,
) -> Result<(), Fail> {
    write(rt, "out/row.click", tree)?;
    write(rt, "out/row.input", input)?;
    let words = format!(in rt.alloc(); "{words} out/row.click out/row.input")?;
    assert_writes(rt, &words, outcome, written);
    Ok(())
}

#[test]
fn scripts_are_answered(rt: HostRuntime) -> Result<(), Fail> {
    assert_writes(&rt, "", Ok(0), PRIO_TWO_QUEUES.answer);
    for row in SCRIPTS {
        assert_row(&rt, row.tree, "script", row.script, Ok(0), row.answer)?;
    }
    let fault = Fault::BadScript { line: 1 };
    assert_row(
        &rt,
        TWO_DEVICES.tree,
        "script",
        "pull 0 2\n",
        Err(fault),
        "",
    )
}

#[test]
fn a_tree_is_written(rt: HostRuntime) -> Result<(), Fail> {
    let row = CANONICAL_TEXT;
    write(&rt, "out/row.click", row.tree)?;
    assert_writes(&rt, "check out/row.click", Ok(0), row.canonical);
    Ok(())
}

#[test]
fn runs_are_reported(rt: HostRuntime) -> Result<(), Fail> {
    for (row, words) in [
        (NO_SENDER, "run"),
        (EMPTY_TRACE_TWO_QUEUES, "run"),
        // Nearly all pulls are made in the drain, after the one pull while the producer runs.
        (LONG_RUN, "run --step 1 --limit 1 --visits out/row.csv"),
        (EIGHT_SENDERS_ONE_QUEUE, "run"),
        (EIGHT_SENDERS_ONE_QUEUE, "run --step 1 --limit 1"),
        (
            EIGHT_SENDERS_TWO_DEVICES,
            "run --visits out/row.devices.csv",
        ),
    ] {
        let trace = row.records.repeat(rt.alloc(), row.times)?;
        assert_row(&rt, row.tree, words, &trace, Ok(0), row.report)?;
    }
    // The long drain may take at most 131,072 pulls; the one pull before it makes one more, and pulls are counted from 0.
    assert!(rt; last_pull(&rt, "out/row.csv")? <= 131_072);
    assert_apart(&rt)
}

// The number of the last pull in a file of visits.
fn last_pull(rt: &(impl Files + AllocGlobal + Abort), path: &str) -> Result<u64, Fail> {
    let text = fs::read(rt, path)?;
    let text = str::from_utf8(&text).expect(rt, "a text");
    let (_, row) = text.trim_end().rsplit_once('\n').expect(rt, "a row");
    let (pull, _) = row.split_once(',').expect(rt, "a pull");
    Ok(pull.parse().expect(rt, "a number"))
}

// Fails unless the visits of two devices show 800 emitted packets, those of the first four senders at the first device.
fn assert_apart(rt: &(impl Files + AllocGlobal + Abort)) -> Result<(), Fail> {
    let text = fs::read(rt, "out/row.devices.csv")?;
    let mut packets = 0_u32;
    for row in Reader::from_reader(rt.alloc(), text.as_slice()).records() {
        let row = row.expect(rt, "a row");
        let device = row.get(0).expect(rt, "a device");
        let sender = row.get(5).expect(rt, "a sender or none");
        if !sender.is_empty() {
            packets = packets.saturating_add(1);
            assert_eq!(rt; device == "0", ["0", "1", "2", "3"].contains(&sender));
        }
    }
    assert_eq!(rt; packets, 800);
    Ok(())
}

//! Traces that run over trees through inlets, their records and their visits.

use crate::rows::assert_row;
use clk_command_fixtures::{
    AMPLE, Row, Said, answer, compare_rows, input, is_said, write, write_all,
};
use clk_packet::Fault;
use clk_rows::{
    EIGHT_SENDERS_ONE_QUEUE, EIGHT_SENDERS_TWO_DEVICES, EMPTY_TRACE_TWO_QUEUES, NO_SENDER,
};
use std::fs;
use std::process::Abort;
use std::rt::Files;
use std::sync::Wait;
use std::test::Fail;
use std::thread::Threads;

const TREE: (&str, &str) = (
    "out/live.click",
    "s :: Sender(0); q :: Queue(1000); d :: ToDevice(link); s -> q -> d;",
);

/// A trace over the tree `TREE`.
const SENT: (&str, &str) = ("out/live.trace", "0,10\n0,20\n");

/// The report of the trace `SENT`.
const REPORT: &str = "sender 0: sent 2 30, accepted 2 30, refused 0 0, evicted 0 0, emitted 2 30\n";

/// Words for a trace with a fault, and the files that aren't created then.
const WRONG: &str =
    "live out/live.click out/unlive.trace --record out/unlive.script --visits out/unlive.csv";

const UNMADE: &[(&str, Option<&str>)] = &[("out/unlive.script", None), ("out/unlive.csv", None)];

/// Runs of traces, and words that run none.
const ROWS: &[Row] = &[
    (
        &[TREE, SENT],
        "live --step 1 --limit 1 out/live.click out/live.trace",
        Ok(0),
        REPORT,
        &[],
    ),
    // A run that isn't recorded may pull as often as the limit allows at most.
    (
        &[TREE, SENT],
        "live --step=1000 --limit=1000000 out/live.click out/live.trace",
        Ok(0),
        REPORT,
        &[],
    ),
    // Two packets, 999,997 pulls and the drain are 1,000,000 lines, and one pull more is too many.
    (
        &[TREE, SENT],
        "live --limit 999997 --record out/longest.script out/live.click out/live.trace",
        Ok(0),
        REPORT,
        &[],
    ),
    (
        &[TREE, SENT],
        "live --limit 999998 --record out/longer.script out/live.click out/live.trace",
        Err(Fault::TooLarge),
        "",
        &[("out/longer.script", None)],
    ),
    (
        &[TREE, SENT],
        "live --limit 999998 --visits out/longer.csv out/live.click out/live.trace",
        Err(Fault::TooLarge),
        "",
        &[("out/longer.csv", None)],
    ),
    // A trace with a fault runs nothing.
    (
        &[TREE, ("out/unlive.trace", "9,10\n0,10\n7,10\n")],
        WRONG,
        Err(Fault::UnknownSender { sender: 7 }),
        "",
        UNMADE,
    ),
    (
        &[TREE, ("out/unlive.trace", "3,10\n3,0\n")],
        WRONG,
        Err(Fault::BadTrace { row: 2 }),
        "",
        UNMADE,
    ),
    // A tree is read and checked before the trace is opened.
    (
        &[("out/bad.click", "q :: Que;")],
        "live out/bad.click missing.trace",
        Err(Fault::UnknownClass { offset: 5 }),
        "",
        &[],
    ),
    (
        &[TREE],
        "live out/live.click missing.trace",
        Err(Fault::Read),
        "",
        &[],
    ),
    // A file that can't be created is reported after the report of the run.
    (
        &[TREE, SENT],
        "live out/live.click out/live.trace --record out/folder",
        Err(Fault::Write),
        REPORT,
        &[],
    ),
    (
        &[TREE, SENT],
        "live out/live.click out/live.trace --record out/folder --visits out/unvisited.csv",
        Err(Fault::Write),
        REPORT,
        &[("out/unvisited.csv", None)],
    ),
    (
        &[TREE, SENT],
        "live out/live.click out/live.trace --visits out/folder",
        Err(Fault::Write),
        REPORT,
        &[],
    ),
];

#[test]
fn words_of_live_runs_are_answered(rt: HostRuntime) {
    let found = compare_rows(&rt, ROWS).expect(&rt, "ample memory and files");
    assert_eq!(rt; found, None);
}

const SAID: &[Said] = &[
    (
        "run a b --record c",
        2,
        "error: ",
        "unexpected argument '--record' found",
    ),
    ("live", 2, "error: ", "<TREE>"),
    ("live a", 2, "error: ", "<TRACE>"),
    (
        "live a b c",
        2,
        "error: ",
        "Usage: clickpull live [OPTIONS] <TREE> <TRACE>",
    ),
    ("live a b --record", 2, "error: ", "--record <FILE>"),
    (
        "live a b --step 1001",
        2,
        "error: ",
        "1001 is not in 1..=1000",
    ),
    (
        "live a b --limit 0",
        2,
        "error: ",
        "0 is not in 1..=1000000",
    ),
    (
        "live --help",
        0,
        "",
        "Usage: clickpull live [OPTIONS] <TREE> <TRACE>",
    ),
    ("help live", 0, "", "drain 0"),
    ("help", 0, "", "live    Runs a trace"),
];

#[test]
fn wrong_words_and_help_of_live_are_told(rt: HostRuntime) {
    for &(words, status, begin, part) in SAID {
        let is_so = is_said(&rt, words, status, begin, part);
        assert!(rt; is_so.expect(&rt, "ample memory"), "at {words}");
    }
}

#[test]
fn runs_through_inlets_are_reported(rt: HostRuntime) -> Result<(), Fail> {
    for (row, words) in [
        (NO_SENDER, "live"),
        (EMPTY_TRACE_TWO_QUEUES, "live"),
        (EIGHT_SENDERS_ONE_QUEUE, "live --step 1 --limit 1"),
        (EIGHT_SENDERS_TWO_DEVICES, "live"),
    ] {
        let trace = row.records.repeat(rt.alloc(), row.times)?;
        assert_row(&rt, row.tree, words, &trace, Ok(0), row.report)?;
    }
    Ok(())
}

// Runs words, and returns what they write.
fn written<H: Files + AllocGlobal + Threads + Wait + Sync + Abort>(rt: &H, words: &str) -> Vec<u8> {
    let answered = answer(rt, words, input(), ROOM, AMPLE).expect(rt, "ample memory");
    assert_eq!(rt; answered.outcome, Ok(0), "at {words}");
    answered.written
}

/// How many bytes an answer has at most.
const ROOM: usize = 1_000_000;

// Eight senders, two devices, and a queue that may refuse packets.
#[test]
fn a_record_tells_the_run(rt: HostRuntime) -> Result<(), Fail> {
    let row = EIGHT_SENDERS_TWO_DEVICES;
    let trace = row.records.repeat(rt.alloc(), row.times)?;
    let small =
        "s :: Sender(0); q :: FrontDropQueue(2); t :: Sender(1); r :: Queue(1); p :: RoundRobinSched;
        d :: ToDevice(link); s -> q -> p -> d; t -> r -> [1] p;";
    write_all(
        &rt,
        &[("out/told.click", row.tree), ("out/small.click", small)],
    )?;
    write(&rt, "out/told.trace", trace)?;
    write(
        &rt,
        "out/small.trace",
        "0,10\n1,20\n1,30\n".repeat(rt.alloc(), 500)?,
    )?;
    for &name in &["told", "small"] {
        assert_told(&rt, name)?;
    }
    Ok(())
}

// Fails unless the record of a run, with its visits or without, prints a text that ends in the report, and makes these visits.
fn assert_told<H: Files + AllocGlobal + Threads + Wait + Sync + Abort>(
    rt: &H,
    name: &str,
) -> Result<(), Fail> {
    for &(options, replayed) in &[
        ("--record out/told.script", false),
        ("--record out/told.script --visits out/told.csv", true),
    ] {
        let words = format!(in rt.alloc(); "live {options} out/{name}.click out/{name}.trace")?;
        let report = written(rt, &words);
        let words = format!(in rt.alloc();
            "script out/{name}.click out/told.script --visits out/again.csv"
        )?;
        let answer = written(rt, &words);
        assert!(rt;
            !report.is_empty() && answer.ends_with(&report),
            "at {name}"
        );
        assert!(rt; fs::read(rt, "out/told.script")?.ends_with(b"drain 0\n"));
        if replayed {
            assert!(rt; fs::read(rt, "out/told.csv")? == fs::read(rt, "out/again.csv")?);
        }
    }
    Ok(())
}

//! Traces that run over trees, with producers on threads.

use crate::visits::{Numbers, assert_shown, read_back};
use clk_command::{Pace, run_trace};
use clk_command_fixtures::{AMPLE, Row, answer, compare_rows, input, write, write_all};
use clk_packet::{FailingSink, FailingSource, Fault};
use clk_report::visits_csv;
use clk_sched::PackedLog;
use clk_tree::Plan;
use std::alloc::{AllocError, Global};
use std::process::Abort;
use std::sync::Wait;
use std::thread::Threads;

/// A tree of a sender and a queue.
const ALONE: &str = "s :: Sender(0); q :: Queue(1000); d :: ToDevice(link); s -> q -> d;";

const TREE: (&str, &str) = ("out/sound.click", ALONE);

/// A trace over the tree `ALONE`.
const TRACE: &str = "0,10\n0,20\n";

/// The report of the trace `TRACE`.
const REPORT: &str = "sender 0: sent 2 30, accepted 2 30, refused 0 0, evicted 0 0, emitted 2 30\n";

const SENT: (&str, &str) = ("out/sent.trace", TRACE);

/// Words for a trace with a fault.
const WRONG: &str = "run out/sound.click out/wrong.trace --visits out/wrong.csv";

/// The visit file that isn't created then.
const UNMADE: (&str, Option<&str>) = ("out/wrong.csv", None);

/// Runs of traces, and words that run none.
const ROWS: &[Row] = &[
    // A run may go at any pace.
    (
        &[TREE, SENT],
        "run --step 1 --limit 1 out/sound.click out/sent.trace",
        Ok(0),
        REPORT,
        &[],
    ),
    (
        &[TREE, SENT],
        "run --step=1000 --limit=1000000 out/sound.click out/sent.trace",
        Ok(0),
        REPORT,
        &[],
    ),
    (
        &[TREE, SENT],
        "run --limit 0007 out/sound.click out/sent.trace",
        Ok(0),
        REPORT,
        &[],
    ),
    (
        &[TREE, SENT],
        "run --step 20 out/sound.click out/sent.trace",
        Ok(0),
        REPORT,
        &[],
    ),
    // A trace with a fault runs nothing.
    (
        &[TREE, ("out/wrong.trace", "9,10\n")],
        WRONG,
        Err(Fault::UnknownSender { sender: 9 }),
        "",
        &[UNMADE],
    ),
    (
        &[TREE, ("out/wrong.trace", "9,10\n0,10\n7,10\n")],
        WRONG,
        Err(Fault::UnknownSender { sender: 7 }),
        "",
        &[UNMADE],
    ),
    (
        &[TREE, ("out/wrong.trace", "3,10\n3,0\n")],
        WRONG,
        Err(Fault::BadTrace { row: 2 }),
        "",
        &[UNMADE],
    ),
    (
        &[TREE, ("out/wrong.trace", "0,10\n0,10,10\n")],
        WRONG,
        Err(Fault::BadTrace { row: 2 }),
        "",
        &[UNMADE],
    ),
    (
        &[TREE, ("out/wrong.trace", "65536,10\n")],
        WRONG,
        Err(Fault::BadTrace { row: 1 }),
        "",
        &[UNMADE],
    ),
    // A tree is read and checked before the trace is opened.
    (
        &[("out/bad.click", "q :: Que;")],
        "run out/bad.click missing.trace",
        Err(Fault::UnknownClass { offset: 5 }),
        "",
        &[],
    ),
    (
        &[TREE],
        "run out/sound.click missing.trace",
        Err(Fault::Read),
        "",
        &[],
    ),
    (
        &[],
        "run missing.click missing.trace",
        Err(Fault::Read),
        "",
        &[],
    ),
    // A visit file that can't be created is reported after the report of the run.
    (
        &[TREE, SENT],
        "run out/sound.click out/sent.trace --visits out/folder",
        Err(Fault::Write),
        REPORT,
        &[],
    ),
];

#[test]
fn words_of_runs_are_answered(rt: HostRuntime) {
    let found = compare_rows(&rt, ROWS).expect(&rt, "ample memory and files");
    assert_eq!(rt; found, None);
}

/// How a run of that trace ends, and what it wrote, if the trace fails after it has given `limit` bytes, and the writer after it has taken
/// `room`.
fn run_within<H: Threads + Wait + Sync + AllocGlobal>(
    rt: &H,
    limit: usize,
    room: usize,
) -> Result<(Result<Vec<PackedLog>, Fault>, Vec<u8>), Fault> {
    let alloc = rt.alloc();
    let plan = Plan::read(alloc, ALONE.as_bytes())?;
    let mut trace = FailingSource::new(TRACE.as_bytes().to_vec(alloc)?, limit);
    let mut writer = FailingSink::new(vec![in alloc; 0; room]?);
    let pace = Pace {
        step: 1,
        limit: 1000,
    };
    let outcome = run_trace(rt, alloc, rt, &plan, &mut trace, &mut writer, pace, true);
    Ok((outcome, writer.taken().to_vec(alloc)?))
}

/// Fails unless the run ends with this fault, and has written this.
fn assert_fails<H: Threads + Wait + Sync + AllocGlobal + Abort>(
    rt: &H,
    limit: usize,
    room: usize,
    fault: Fault,
    front: &[u8],
) {
    let (outcome, written) = run_within(rt, limit, room).expect(rt, "ample memory");
    assert_eq!(rt;
        outcome.err(),
        Some(fault),
        "within {limit} and {room} bytes"
    );
    assert_eq!(rt;
        written.as_slice(),
        front,
        "within {limit} and {room} bytes"
    );
}

#[test]
fn a_report_may_be_cut_off(rt: HostRuntime) {
    for room in [0, 1, 70, REPORT.len() - 1] {
        assert_fails(
            &rt,
            usize::MAX,
            room,
            Fault::Write,
            &REPORT.as_bytes()[..room],
        );
    }
}

#[test]
fn a_failing_trace_is_told(rt: HostRuntime) {
    for limit in 0..=TRACE.len() {
        assert_fails(&rt, limit, AMPLE, Fault::Read, b"");
    }
}

// The visit file of these logs.
fn visits_text(alloc: Global, logs: &[PackedLog]) -> Result<Vec<u8>, Fault> {
    let mut csv = FailingSink::new(vec![in alloc; 0; AMPLE]?);
    visits_csv(logs, &mut csv)?;
    Ok(csv.taken().to_vec(alloc)?)
}

#[test]
fn the_logs_of_a_run_are_read_back(rt: HostRuntime) {
    let (outcome, _) = run_within(&rt, usize::MAX, AMPLE).expect(&rt, "ample memory");
    let logs = outcome.expect(&rt, "a run");
    let csv = visits_text(rt.alloc(), &logs).expect(&rt, "ample memory");
    write(&rt, "out/logs.csv", csv).expect(&rt, "a file");
    assert_eq!(rt; logs.len(), 1);
    for log in logs {
        let visits = log.into_vec(rt.alloc()).expect(&rt, "ample memory");
        assert_shown(&rt, "out/logs.csv", &visits);
    }
}

// A device over a queue makes one visit in each pull.
#[test]
fn visits_go_at_the_pace_of_the_run(rt: HostRuntime) {
    write_all(&rt, &[TREE, ("out/visited.trace", "0,10\n0,20\n0,30\n")]).expect(&rt, "files");
    let words = "run --step 7 --visits out/visited.csv out/sound.click out/visited.trace";
    let answered = answer(&rt, words, input(), AMPLE, AMPLE).expect(&rt, "ample memory");
    assert_eq!(rt; answered.outcome, Ok(0));
    let rows = read_back(&rt, "out/visited.csv");
    assert_paced(&rt, &rows);
    let lengths = lengths_of(rt.alloc(), &rows).expect(&rt, "ample memory");
    assert_eq!(rt; lengths.as_slice(), &[10, 20, 30][..]);
}

// With `-` the visits follow the report, and a record is written between them.
#[test]
fn visits_follow_the_report(rt: HostRuntime) {
    write_all(&rt, &[TREE, SENT]).expect(&rt, "files");
    for &words in &[
        "run --visits -",
        "live --visits -",
        "live --visits - --record out/followed.script",
    ] {
        let words = format!(in rt.alloc();
            "{words} --step 7 --limit 9 out/sound.click out/sent.trace"
        ).expect(&rt, "ample memory");
        let answered = answer(&rt, &words, input(), AMPLE, AMPLE).expect(&rt, "ample memory");
        assert_eq!(rt; answered.outcome, Ok(0), "at {words}");
        let visits = answered
            .written
            .strip_prefix(REPORT.as_bytes())
            .expect(&rt, "the report");
        write(&rt, "out/followed.csv", visits).expect(&rt, "a file");
        let rows = read_back(&rt, "out/followed.csv");
        assert_paced(&rt, &rows);
        let lengths = lengths_of(rt.alloc(), &rows).expect(&rt, "ample memory");
        assert_eq!(rt; lengths.as_slice(), &[10, 20][..]);
    }
}

// Fails unless pulls are seven ticks apart, and one tick once the drain has begun, and each packet passes.
fn assert_paced(rt: &impl Abort, rows: &[Numbers]) {
    let (mut last, mut ticks) = (0, 7);
    for row in rows {
        let moment = row[8].expect(rt, "a moment");
        let since = moment.saturating_sub(last);
        assert!(rt; since == 1 || since == 7 && ticks == 7);
        assert!(rt; row[7] == Some(1) || row[6].is_none());
        (last, ticks) = (moment, since);
    }
}

// The lengths of the packets that were emitted, in bytes.
fn lengths_of(alloc: Global, rows: &[Numbers]) -> Result<Vec<u64>, AllocError> {
    let mut lengths = Vec::new(alloc);
    for row in rows {
        if let Some(length) = row[6] {
            lengths.push(length)?;
        }
    }
    Ok(lengths)
}

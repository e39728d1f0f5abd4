//! The visits of a script, in a file or after the answer.

use clk_command_fixtures::{AMPLE, Row, answer, compare_rows, write_all};
use clk_packet::Fault;
use clk_router::Router;
use clk_sched::{Keeps, Visit};
use clk_tree::Plan;
use csv::{Reader, StringRecord};
use std::alloc::Global;
use std::fs;
use std::process::Abort;
use std::rt::Files;

const TREE: &str = "v, b :: Queue(3); s :: Sender(4); t :: Sender(70);
p :: DRRSched(500, 700); h :: Shaper(1, 2); d :: ToDevice(link);
s -> v -> [0] p; t -> b -> [1] p; p -> h -> d;";

const SCRIPT: &str =
    "send 4 600\nsend 70 65535\nsend 4 20\npull 0\npull 0\npull 3\npull 2\ndrain 7\n";

/// A tree of a sender and a queue.
const ALONE: (&str, &str) = (
    "out/same.click",
    "s :: Sender(3); q :: Queue; d :: ToDevice(link); s -> q -> d;",
);

/// A script over the tree `ALONE`.
const SAME: (&str, &str) = ("out/same.script", "send 3 10\npull 5\npull 4\n");

/// What the script `SAME` writes.
const ANSWER: &str = "3#0 10 accepted\npull 5: 3#0 10\npull 4: none\n";

/// A script over the tree `ALONE`, with a drain.
const CLOSED: (&str, &str) = ("out/closed.script", "send 3 10\ndrain 0\n");

/// What the script `CLOSED` writes.
const CLOSING: &str = "3#0 10 accepted\npull 1: 3#0 10\n\
    sender 3: sent 1 10, accepted 1 10, refused 0 0, evicted 0 0, emitted 1 10\n";

/// A text that is longer than the visits of the script `SAME`.
const LONG: &str =
    "xxxxxxxxxxxxxxxxxxxxxxxxxxxxxxxxxxxxxxxxxxxxxxxxxxxxxxxxxxxxxxxxxxxxxxxxxxxxxxxxxxxxxxxxxxxxxxxxxxxxxxxxxxxxxxxxxxxxxxxxxxxxxxxx";

/// Scripts with visits.
const ROWS: &[Row] = &[
    // Visits don't change the answer.
    (
        &[ALONE, SAME],
        "script out/same.click out/same.script",
        Ok(0),
        ANSWER,
        &[],
    ),
    // A file that exists is overwritten.
    (
        &[ALONE, SAME, ("out/same.csv", LONG)],
        "script --visits=out/same.csv out/same.click out/same.script",
        Ok(0),
        ANSWER,
        &[(
            "out/same.csv",
            Some(
                "pull,node,input,fresh,sender,number,length,passed,moment\n0,0,0,1,3,0,10,1,5\n1,0,0,1,,,,0,5\n",
            ),
        )],
    ),
    // Visits follow the answer, and a drain's follow the report. No file is created.
    (
        &[ALONE, CLOSED],
        "script out/same.click out/closed.script --visits -",
        Ok(0),
        "3#0 10 accepted\npull 1: 3#0 10\n\
        sender 3: sent 1 10, accepted 1 10, refused 0 0, evicted 0 0, emitted 1 10\n\
        pull,node,input,fresh,sender,number,length,passed,moment\n0,0,0,1,3,0,10,1,1\n",
        &[("-", None)],
    ),
    // A visit file that can't be created is reported after the answer.
    (
        &[ALONE, CLOSED],
        "script out/same.click out/closed.script --visits out/folder",
        Err(Fault::Write),
        CLOSING,
        &[],
    ),
    (
        &[ALONE, CLOSED],
        "script out/same.click out/closed.script --visits missing/unmade.csv",
        Err(Fault::Write),
        CLOSING,
        &[],
    ),
    // A script with a fault creates none.
    (
        &[ALONE, ("out/refused.script", "send 3 10\npush\n")],
        "script out/same.click out/refused.script --visits out/refused.csv",
        Err(Fault::BadScript { line: 2 }),
        "",
        &[("out/refused.csv", None)],
    ),
];

#[test]
fn words_with_visits_are_answered(rt: HostRuntime) {
    let found = compare_rows(&rt, ROWS).expect(&rt, "ample memory and files");
    assert_eq!(rt; found, None);
}

/// A row of a visit file, in the order of its columns: its numbers, or `None` for an empty field.
pub type Numbers = [Option<u64>; 9];

/// The rows of a file of one device's visits, as `csv` reads them.
pub fn read_back(rt: &(impl Files + AllocGlobal + Abort), path: &str) -> Vec<Numbers> {
    let alloc = rt.alloc();
    let text = fs::read(rt, path).expect(rt, "a file");
    let mut rows = Vec::new(alloc);
    for row in Reader::from_reader(alloc, text.as_slice()).records() {
        let row = row.expect(rt, "a row");
        assert_eq!(rt; row.len(), 9);
        let numbers = numbers_of(rt, &row);
        let [pull, node, input, fresh, .., passed, moment] = numbers;
        for number in [pull, node, input, fresh, passed, moment] {
            assert!(rt; number.is_some());
        }
        rows.push(numbers).expect(rt, "ample memory");
    }
    rows
}

fn numbers_of(rt: &impl Abort, row: &StringRecord) -> Numbers {
    [
        number(rt, row, 0),
        number(rt, row, 1),
        number(rt, row, 2),
        number(rt, row, 3),
        number(rt, row, 4),
        number(rt, row, 5),
        number(rt, row, 6),
        number(rt, row, 7),
        number(rt, row, 8),
    ]
}

// The number in a field of a row, or `None` if the field is empty.
fn number(rt: &impl Abort, row: &StringRecord, place: usize) -> Option<u64> {
    let field = row.get(place).expect(rt, "a field");
    match field {
        "" => None,
        _ => Some(field.parse().expect(rt, "a number")),
    }
}

/// The row that shows a visit.
fn row_of(visit: &Visit) -> Numbers {
    let got = visit.got;
    [
        Some(visit.pull),
        Some(visit.node.into()),
        Some(visit.input.into()),
        Some(visit.fresh.into()),
        got.map(|packet| packet.sender.into()),
        got.map(|packet| packet.number.into()),
        got.map(|packet| packet.length.into()),
        Some(visit.passed.into()),
        Some(visit.moment),
    ]
}

/// Fails unless the rows of this file show these visits, in order.
pub fn assert_shown(rt: &(impl Files + AllocGlobal + Abort), path: &str, visits: &[Visit]) {
    let rows = read_back(rt, path);
    assert_eq!(rt; rows.len(), visits.len());
    for (row, visit) in rows.iter().zip(visits) {
        assert_eq!(rt; *row, row_of(visit));
    }
}

/// The visits of a router that does what `SCRIPT` says, and keeps them.
fn log_of_script(rt: &impl Abort, alloc: Global) -> Result<Vec<Visit>, Fault> {
    let plan = Plan::read(alloc, TREE.as_bytes())?;
    let mut router = Router::open(alloc, &plan, Keeps::ALL)?;
    for &(place, length) in &[(0, 600), (1, 65_535), (0, 20)] {
        assert!(rt; router.can_offer(place));
        router.offer(place, length);
    }
    // The latest moment is 3, and the drain begins after moment 7.
    for &moment in &[0, 0, 3, 2] {
        assert!(rt; router.can_pull(0, moment));
        router.pull(0, moment)?;
    }
    for moment in 8..1_000 {
        assert!(rt; router.can_pull(0, moment));
        if router.left(0) > 0 {
            router.pull(0, moment)?;
        }
    }
    assert!(rt; router.is_drained());
    Ok(router.log(0).to_vec(alloc)?)
}

#[test]
fn visits_are_read_back(rt: HostRuntime) {
    let files = &[
        ("out/read_back.click", TREE),
        ("out/read_back.script", SCRIPT),
    ];
    write_all(&rt, files).expect(&rt, "files");
    let words = "script out/read_back.click out/read_back.script --visits out/read_back.csv";
    let answered = answer(&rt, words, b"", AMPLE, AMPLE).expect(&rt, "ample memory");
    assert_eq!(rt; answered.outcome, Ok(0));
    let log = log_of_script(&rt, rt.alloc()).expect(&rt, "ample memory");
    assert!(rt; log.len() > 10);
    assert_shown(&rt, "out/read_back.csv", &log);
}

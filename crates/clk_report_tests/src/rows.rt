//! The CSV of the log of a row, and of the logs of several devices.

use crate::values::sink_of;
use clk_fixtures::Queues;
use clk_packet::Fault;
use clk_report::visits_csv;
use clk_rows::Row;
use clk_rows::script::{Command, command_of};
use clk_sched::{Session, Tree, Visit};
use std::alloc::Global;
use std::process::Abort;

/// How many queues there are, each with a sender of its number.
const QUEUES: u16 = 2;

/// The first line of the CSV of the log of one device.
pub const HEADER: &str = "pull,node,input,fresh,sender,number,length,passed,moment\n";

/// Carries out the script of a row over its tree. Fails unless the CSV of the log has the row's visits, and a writer that fails after fewer
/// bytes has taken these.
pub fn assert_row(rt: &impl Abort, alloc: Global, tree: Result<Tree, Fault>, row: &Row) {
    let log = log_of(rt, alloc, tree, row).expect(rt, "ample memory");
    let expected = format!(in alloc; "{HEADER}{}", row.visits).expect(rt, "ample memory");
    assert_writes_all(rt, alloc, &[log], &expected);
}

// The log of a session of a tree after the script of a row, which sends and pulls.
fn log_of(
    rt: &impl Abort,
    alloc: Global,
    tree: Result<Tree, Fault>,
    row: &Row,
) -> Result<Vec<Visit>, Fault> {
    let tree = tree?;
    assert!(rt; tree.leaves_distinct());
    let mut session = Session::new(alloc, tree)?;
    let mut queues = Queues::new(alloc, QUEUES)?;
    for line in row.script.lines() {
        match command_of(line).expect(rt, "a command") {
            Command::Send(sender, length) => {
                queues.send_one(sender, length)?;
            }
            Command::Pull(moment) => {
                assert!(rt; moment < 1 << 44);
                session.pull(&mut queues, moment)?;
            }
            Command::Drain(_) => panic!(rt; "a row that drains"),
        }
    }
    let (log, _) = session.into_parts();
    Ok(log)
}

/// Fails unless this is the CSV of these logs, and a writer that fails after fewer bytes has taken these.
pub fn assert_writes_all(rt: &impl Abort, alloc: Global, logs: &[Vec<Visit>], expected: &str) {
    let bytes = expected.as_bytes();
    for room in 0..bytes.len() {
        assert_takes(rt, alloc, logs, &bytes[..room], Err(Fault::Write));
    }
    assert_takes(rt, alloc, logs, bytes, Ok(()));
}

// Writes the CSV of logs to a sink with room for so many bytes. Fails unless the result is this, and these bytes were written.
fn assert_takes(
    rt: &impl Abort,
    alloc: Global,
    logs: &[Vec<Visit>],
    bytes: &[u8],
    expected: Result<(), Fault>,
) {
    let mut sink = sink_of(alloc, bytes.len()).expect(rt, "ample memory");
    assert_eq!(rt; visits_csv(logs, &mut sink), expected);
    assert_eq!(rt; sink.taken(), bytes);
}

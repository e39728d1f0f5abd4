//! What tests do with a script over a tree.

use crate::logged::assert_logged;
use crate::{closing, deficit, devices, in_order, queues, scripts, shaper, stride};
use clk_packet::{FailingSink, Fault, FromRead, Source};
use clk_rows::{Row, SCRIPTS};
use clk_script::{run_script, run_script_logged};
use clk_tree::Plan;
use std::alloc::Global;
use std::process::Abort;

/// How many bytes a writer takes that isn't meant to fail, beside those that it is meant to take.
pub const AMPLE: usize = 4096;

/// A tree, a script over it, how the script ends, and what it writes.
pub type Answer = (
    &'static str,
    &'static [u8],
    Result<(), Fault>,
    &'static [u8],
);

/// Fails unless a script over a tree ends in this way, and writes what is expected.
pub fn assert_ends(
    rt: &impl Abort,
    alloc: Global,
    tree: &str,
    script: &[u8],
    outcome: Result<(), Fault>,
    expected: &[u8],
) {
    let room = expected.len().saturating_add(AMPLE);
    let run = run_within(alloc, tree, &mut FromRead::new(script), room);
    let (ended, written) = run.expect(rt, "ample memory");
    assert_eq!(rt;
        (ended, written.as_slice()),
        (outcome, expected),
        "at {script:?}"
    );
}

/// Fails unless each script has this answer, whether its visits are kept or not.
fn assert_answers(rt: &impl Abort, alloc: Global, answers: &[Answer]) {
    for (tree, script, outcome, expected) in answers {
        assert_ends(rt, alloc, tree, script, *outcome, expected);
        assert_logged(rt, alloc, tree, script, *outcome, expected);
    }
}

/// How a run of a script over a tree ends, and what it wrote, if the writer fails after it has taken `room` bytes.
pub fn run_within(
    alloc: Global,
    tree: &str,
    script: &mut impl Source,
    room: usize,
) -> Result<(Result<(), Fault>, Vec<u8>), Fault> {
    let mut writer = FailingSink::new(vec![in alloc; 0; room]?);
    let outcome = match Plan::read(alloc, tree.as_bytes()) {
        Ok(plan) => run_script(alloc, script, &mut writer, &plan),
        Err(fault) => Err(fault),
    };
    Ok((outcome, writer.taken().to_vec(alloc)?))
}

/// Fails unless each script has the answer of its row, and makes the visits that the row shows.
fn assert_rows(rt: &impl Abort, alloc: Global, rows: &[Row]) {
    for row in rows {
        let (script, answer) = (row.script.as_bytes(), row.answer.as_bytes());
        assert_answers(rt, alloc, &[(row.tree, script, Ok(()), answer)]);
        if !row.visits.is_empty() {
            assert_visits(rt, alloc, row, &mut FromRead::new(script));
        }
    }
}

const HEADER: &[u8] = b"pull,node,input,fresh,sender,number,length,passed,moment\n";

/// Fails unless the visits of a row's script, as a reader gives it, are those of the row.
pub fn assert_visits(rt: &impl Abort, alloc: Global, row: &Row, script: &mut impl Source) {
    let written = csv_of(alloc, row.tree, script).expect(rt, "ample memory");
    let visits = written.strip_prefix(HEADER);
    assert_eq!(rt; visits, Some(row.visits.as_bytes()), "at {}", row.name);
}

fn csv_of(alloc: Global, tree: &str, script: &mut impl Source) -> Result<Vec<u8>, Fault> {
    let plan = Plan::read(alloc, tree.as_bytes())?;
    let mut writer = FailingSink::new(vec![in alloc; 0; AMPLE]?);
    let replay = run_script_logged(alloc, script, &mut writer, &plan)?;
    let mut sink = FailingSink::new(vec![in alloc; 0; AMPLE]?);
    replay.write(&mut sink)?;
    Ok(sink.taken().to_vec(alloc)?)
}

#[test]
fn rows_are_written(rt: HostRuntime) {
    for rows in [
        &SCRIPTS[..],
        &closing::ROWS,
        &deficit::ROWS,
        &in_order::ROWS,
        &queues::ROWS,
        &shaper::ROWS,
        &stride::ROWS,
    ] {
        assert_rows(&rt, rt.alloc(), rows);
    }
}

#[test]
fn scripts_are_answered(rt: HostRuntime) {
    for answers in [
        devices::ANSWERED,
        devices::REFUSED,
        scripts::ANSWERED,
        scripts::REFUSED,
    ] {
        assert_answers(&rt, rt.alloc(), answers);
    }
}

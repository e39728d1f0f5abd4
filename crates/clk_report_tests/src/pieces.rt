//! Visits that are written some at a time.

use crate::values::{packet, sink_of};
use clk_packet::Fault;
use clk_report::{visit_rows, visits_csv, visits_header};
use clk_sched::Visit;
use std::alloc::Global;
use std::process::Abort;

/// How many bytes a sink takes that isn't meant to fail.
const AMPLE: usize = 4096;

/// How many visits the longest log has.
const LONGEST: usize = 4;

// The text of logs whose rows are written in two pieces each, of which the first has so many visits.
fn in_pieces(alloc: Global, logs: &[Vec<Visit>], cut: usize) -> Result<Vec<u8>, Fault> {
    let several = logs.len() > 1;
    let mut sink = sink_of(alloc, AMPLE)?;
    visits_header(several, &mut sink)?;
    for (device, log) in logs.iter().enumerate() {
        let device = several.then_some(device as u64);
        let (before, after) = log.split_at(cut.min(log.len()));
        visit_rows(device, before, &mut sink)?;
        visit_rows(device, after, &mut sink)?;
    }
    Ok(sink.taken().to_vec(alloc)?)
}

fn whole(alloc: Global, logs: &[Vec<Visit>]) -> Result<Vec<u8>, Fault> {
    let mut sink = sink_of(alloc, AMPLE)?;
    visits_csv(logs, &mut sink)?;
    Ok(sink.taken().to_vec(alloc)?)
}

// Fails unless the text of logs that are cut at any place is that of them whole.
fn assert_joined(rt: &impl Abort, alloc: Global, logs: &[Vec<Visit>]) -> Result<(), Fault> {
    let text = whole(alloc, logs)?;
    for cut in 0..=LONGEST {
        assert_eq!(rt; in_pieces(alloc, logs, cut)?, text, "cut at {cut}");
    }
    Ok(())
}

#[test]
fn rows_may_come_in_pieces(rt: HostRuntime) -> Result<(), Fault> {
    let alloc = rt.alloc();
    let visits = [
        Visit::asking(0, 5, 0, 0, Some(packet(3, 0, 10))),
        Visit::asking(1, 6, 0, 0, None),
        Visit::asking(2, 6, 0, 0, Some(packet(65_535, 9, 65_535))),
        Visit::asking(3, 1_099_511_627_776, 0, 0, None),
    ];
    let logs = [
        visits.to_vec(alloc)?,
        Vec::new(alloc),
        visits[1..].to_vec(alloc)?,
    ];
    assert_joined(&rt, alloc, &logs[..1])?;
    assert_joined(&rt, alloc, &logs)
}

//! The CSV of packed logs is that of their lists.

use crate::values::sink_of;
use clk_fixtures::Queues;
use clk_fixtures::trees::prio_over_two;
use clk_packet::Fault;
use clk_report::{VisitLog, visits_csv};
use clk_sched::{Keeps, PackedLog, Session, Visit};
use std::alloc::Global;
use std::process::Abort;

/// How many bytes a sink takes that isn't meant to fail.
const AMPLE: usize = 1 << 18;

/// How far apart pulls are in ticks: the 513th and those behind it are at 2^32 or later, and their visits aren't packed.
const STEP: u64 = 1 << 23;

/// A session that keeps its visits as a list and packed.
const BOTH: Keeps = Keeps {
    visits: true,
    packed: true,
    packets: false,
    latest: false,
};

// The visits of so many pulls of a PrioSched over two queues with three packets each, as a list and packed.
fn logs_of(rt: &impl Abort, alloc: Global, pulls: u64) -> Result<(Vec<Visit>, PackedLog), Fault> {
    let tree = prio_over_two(alloc)?;
    assert!(rt; tree.leaves_distinct());
    let mut session = Session::keeping(alloc, tree, BOTH)?;
    let mut queues = Queues::new(alloc, 2)?;
    for sender in 0..2 {
        queues.send(sender, &[100, 600, 200])?;
    }
    for pull in 0..pulls {
        let moment = pull.saturating_mul(STEP);
        assert!(rt; moment < 1 << 44);
        session.pull(&mut queues, moment)?;
    }
    let log = session.log().to_vec(alloc)?;
    let (packed, _) = session.into_packed(alloc)?;
    Ok((log, packed))
}

// What a sink with so much room takes of the CSV of logs, and the result of writing it.
fn written<L: VisitLog>(
    alloc: Global,
    logs: &[L],
    room: usize,
) -> Result<(Vec<u8>, Result<(), Fault>), Fault> {
    let mut sink = sink_of(alloc, room)?;
    let ended = visits_csv(logs, &mut sink);
    Ok((sink.taken().to_vec(alloc)?, ended))
}

// Fails unless the CSV of packed logs is that of the lists, also if the sink takes only some of it.
fn assert_written_alike(
    rt: &impl Abort,
    alloc: Global,
    lists: &[Vec<Visit>],
    packed: &[PackedLog],
) -> Result<(), Fault> {
    let whole = written(alloc, lists, AMPLE)?;
    assert_eq!(rt; whole.1, Ok(()));
    let len = whole.0.len();
    assert!(rt; written(alloc, packed, AMPLE)? == whole);
    for cut in [1, 20, len / 4, len / 2, len] {
        let room = len.saturating_sub(cut);
        let front = written(alloc, lists, room)?;
        assert_eq!(rt; front.1, Err(Fault::Write));
        assert!(rt; written(alloc, packed, room)? == front);
    }
    Ok(())
}

#[test]
fn packed_logs_are_written_as_lists_are(rt: HostRuntime) -> Result<(), Fault> {
    let alloc = rt.alloc();
    for pulls in [1, 10, 171, 513, 600] {
        let (list, packed) = logs_of(&rt, alloc, pulls)?;
        assert_written_alike(&rt, alloc, &[list], &[packed])?;
    }
    Ok(())
}

#[test]
fn packed_logs_of_devices_are_written_as_lists_are(rt: HostRuntime) -> Result<(), Fault> {
    let alloc = rt.alloc();
    let (first, first_packed) = logs_of(&rt, alloc, 600)?;
    let (second, second_packed) = logs_of(&rt, alloc, 3)?;
    assert_written_alike(&rt, alloc, &[first, second], &[first_packed, second_packed])
}

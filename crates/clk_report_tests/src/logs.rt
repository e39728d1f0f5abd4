//! The logs of worked rows and of several devices, and a log of many rows.

use crate::rows::{HEADER, assert_row, assert_writes_all};
use crate::values::{packet, sink_of};
use clk_fixtures::trees::{drr_over_two, prio_over_two};
use clk_packet::Fault;
use clk_report::visits_csv;
use clk_rows::{DEFICIT_TWO_QUEUES, PRIO_TWO_QUEUES};
use clk_sched::Visit;
use std::alloc::{AllocError, Global};
use std::test::Fail;

#[test]
fn the_visits_of_rows_are_written(rt: HostRuntime) {
    let alloc = rt.alloc();
    for (tree, row) in [
        (prio_over_two(alloc), PRIO_TWO_QUEUES),
        (drr_over_two(alloc, 500, 500), DEFICIT_TWO_QUEUES),
    ] {
        assert_row(&rt, alloc, tree, &row);
    }
}

#[test]
fn several_devices_are_told(rt: HostRuntime) -> Result<(), Fail> {
    let first = Visit::asking(0, 5, 0, 0, Some(packet(3, 0, 10)));
    let none = Visit::asking(0, 6, 1, 0, None);
    let last = Visit::asking(1, 7, 0, 0, Some(packet(65_535, 2, 65_535)));
    let logs = [
        [first].to_vec(rt.alloc())?,
        Vec::new(rt.alloc()),
        [none, last].to_vec(rt.alloc())?,
    ];
    let expected = "device,pull,node,input,fresh,sender,number,length,passed,moment\n\
        0,0,0,0,1,3,0,10,1,5\n2,0,1,0,1,,,,0,6\n2,1,0,0,1,65535,2,65535,1,7\n";
    assert_writes_all(&rt, rt.alloc(), &logs, expected);
    Ok(())
}

#[test]
fn without_a_log_there_is_the_header_alone(rt: HostRuntime) {
    assert_writes_all(&rt, rt.alloc(), &[], HEADER);
}

// A visit whose row is long.
fn long_visit(pull: u64) -> Visit {
    let packet = packet(65_535, u32::MAX, 65_535);
    Visit::asking(pull, u64::MAX, 65_535, 65_535, Some(packet))
}

// The log of this many long visits, and its rows, each with this before it.
fn long_log(alloc: Global, before: &str, visits: u64) -> Result<(Vec<Visit>, String), AllocError> {
    let mut log = Vec::new(alloc);
    let mut rows = String::new(alloc);
    for pull in 0..visits {
        log.push(long_visit(pull))?;
        writeln!(
            rows,
            "{before}{pull},65535,65535,1,65535,4294967295,65535,1,18446744073709551615"
        )?;
    }
    Ok((log, rows))
}

// Rows that are put together at once, and one more, in a short log and in a long one.
#[test]
fn long_logs_are_written_in_parts(rt: HostRuntime) -> Result<(), Fail> {
    let alloc = rt.alloc();
    for visits in [32, 33, 512, 513, 1025] {
        let (log, rows) = long_log(alloc, "", visits)?;
        let expected = format!(in alloc; "{HEADER}{rows}")?;
        let mut sink = sink_of(alloc, expected.len())?;
        visits_csv(&[log], &mut sink)?;
        assert_eq!(rt; sink.taken(), expected.as_bytes());
    }
    Ok(())
}

#[test]
fn long_logs_of_devices_are_written_in_parts(rt: HostRuntime) -> Result<(), Fail> {
    let alloc = rt.alloc();
    let (first, rows) = long_log(alloc, "0,", 33)?;
    let (second, more) = long_log(alloc, "1,", 513)?;
    let expected = format!(in alloc; "device,{HEADER}{rows}{more}")?;
    let mut sink = sink_of(alloc, expected.len())?;
    visits_csv(&[first, second], &mut sink)?;
    assert_eq!(rt; sink.taken(), expected.as_bytes());
    Ok(())
}

// The sink fails in the last of two parts.
#[test]
fn a_long_log_is_cut_off_where_the_sink_fails(rt: HostRuntime) -> Result<(), Fail> {
    let alloc = rt.alloc();
    let (log, rows) = long_log(alloc, "", 513)?;
    let text = format!(in alloc; "{HEADER}{rows}")?;
    let (front, _) = text.as_bytes().split_at(text.len().saturating_sub(1));
    let mut sink = sink_of(alloc, front.len())?;
    assert_eq!(rt; visits_csv(&[log], &mut sink), Err(Fault::Write));
    assert_eq!(rt; sink.taken(), front);
    Ok(())
}

//! A reader or a writer that fails in mid-stream.

use crate::row::{AMPLE, run_within};
use clk_packet::{Failed, FailingSink, FailingSource, Failures, Fault, Sink, Source};
use clk_rows::{PRIO_TWO_QUEUES, Row, TAIL_DROP_FULL};
use clk_script::run_script;
use clk_tree::Plan;
use std::alloc::Global;
use std::process::Abort;

// A source that fails at its first read, and would give the script after that.
#[derive(Drop)]
struct FailsOnce {
    script: FailingSource,
    failed: bool,
    failures: Failures,
}

impl Source for FailsOnce {
    ghost use Rattle.std.specs.Prelude.{None};

    ghost remaining = { λ s. None };

    ghost failures = { λ s. s.failures.count };

    fn read(&mut self, buf: &mut [u8]) -> Result<usize, Failed> {
        if !self.failed {
            self.failed = true;
            self.failures.add_one();
            return Err(Failed);
        }
        let read = self.script.read(buf);
        if read.is_err() {
            self.failures.add_one();
        }
        read
    }
}

#[test]
fn a_read_that_failed_is_not_made_again(rt: HostRuntime) {
    let script = script(&rt, rt.alloc(), &PRIO_TWO_QUEUES);
    let mut reader = FailsOnce {
        script: FailingSource::new(script, usize::MAX),
        failed: false,
        failures: Failures::none(),
    };
    let mut writer = sink(&rt, rt.alloc());
    assert_refused(&rt, rt.alloc(), &mut reader, &mut writer, Fault::Read);
    assert!(rt; writer.taken().is_empty());
}

// A sink that fails at its first write, and would take bytes after that.
#[derive(Drop)]
struct RefusesOnce {
    text: FailingSink,
    failed: bool,
    failures: Failures,
}

impl Sink for RefusesOnce {
    ghost use Rattle.std.specs.Prelude.{None};

    ghost taken = { λ s. None };

    ghost failures = { λ s. s.failures.count };

    fn write(&mut self, bytes: &[u8]) -> Result<usize, Failed> {
        if !self.failed {
            self.failed = true;
            self.failures.add_one();
            return Err(Failed);
        }
        let written = self.text.write(bytes);
        if written.is_err() {
            self.failures.add_one();
        }
        written
    }
}

#[test]
fn a_write_that_failed_is_not_made_again(rt: HostRuntime) {
    let script = script(&rt, rt.alloc(), &PRIO_TWO_QUEUES);
    let mut reader = FailingSource::new(script, usize::MAX);
    let mut writer = RefusesOnce {
        text: sink(&rt, rt.alloc()),
        failed: false,
        failures: Failures::none(),
    };
    assert_refused(&rt, rt.alloc(), &mut reader, &mut writer, Fault::Write);
    assert!(rt; writer.text.taken().is_empty());
}

// The script of a row.
fn script(rt: &impl Abort, alloc: Global, row: &Row) -> Vec<u8> {
    let script = row.script.as_bytes().to_vec(alloc);
    script.expect(rt, "ample memory")
}

fn sink(rt: &impl Abort, alloc: Global) -> FailingSink {
    FailingSink::new(vec![in alloc; 0; AMPLE].expect(rt, "ample memory"))
}

// Fails unless a script over two queues ends with this fault.
fn assert_refused(
    rt: &impl Abort,
    alloc: Global,
    reader: &mut impl Source,
    writer: &mut impl Sink,
    fault: Fault,
) {
    let plan = Plan::read(alloc, PRIO_TWO_QUEUES.tree.as_bytes()).expect(rt, "a tree");
    assert_eq!(rt; run_script(alloc, reader, writer, &plan), Err(fault));
}

// Fails unless a run of a script with a drain ends in this way and has written this. The reader fails after it has given `limit` bytes, and
// the writer after it has taken `room`.
fn assert_ends_within(
    rt: &impl Abort,
    alloc: Global,
    limit: usize,
    room: usize,
    outcome: Result<(), Fault>,
    front: &[u8],
) {
    let script = script(rt, alloc, &TAIL_DROP_FULL);
    let mut reader = FailingSource::new(script, limit);
    let run = run_within(alloc, TAIL_DROP_FULL.tree, &mut reader, room);
    let (ended, written) = run.expect(rt, "ample memory");
    assert_eq!(rt;
        (ended, written.as_slice()),
        (outcome, front),
        "within {limit} and {room} bytes"
    );
}

#[test]
fn a_failing_reader_is_told(rt: HostRuntime) {
    for limit in 0..=TAIL_DROP_FULL.script.len() {
        assert_ends_within(&rt, rt.alloc(), limit, AMPLE, Err(Fault::Read), b"");
    }
}

// After 53 bytes the writer is within the report, behind its first word.
#[test]
fn a_report_may_be_cut_off(rt: HostRuntime) {
    let alloc = rt.alloc();
    let answer = TAIL_DROP_FULL.answer.as_bytes();
    for room in 0..answer.len() {
        assert_ends_within(
            &rt,
            alloc,
            usize::MAX,
            room,
            Err(Fault::Write),
            &answer[..room],
        );
    }
    // There may be just enough room.
    assert_ends_within(&rt, alloc, usize::MAX, answer.len(), Ok(()), answer);
}

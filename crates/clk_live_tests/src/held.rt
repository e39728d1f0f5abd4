//! Runs through inlets whose senders a gate holds back, so that their records are known.

use clk_gate::{Free, Gate};
use clk_live_run::{LiveOutcome, run_live};
use clk_packet::{FailingSink, Fault, FromRead, Traces};
use clk_tree::Plan;
use std::alloc::Global;
use std::process::Abort;
use std::sync::Wait;
use std::sync::atomic::{AtomicU64, Ordering};
use std::test::Fail;
use std::thread;
use std::thread::Threads;

/// How many turns a sender waits at most.
const TURNS: u32 = 1_000_000;

/// A gate at which senders wait until this many pulls were made.
#[derive(Drop)]
struct HeldForPulls {
    pulls: AtomicU64,
    most: u64,
}

impl Gate for HeldForPulls {
    fn before(&self, _sender: u16, _number: u32) {
        for _ in 0..TURNS {
            if self.pulls.load(Ordering::SeqCst) >= self.most {
                return;
            }
            thread::yield_now();
        }
    }

    fn pulled(&self, _device: u16, _n: u64) {
        self.pulls.fetch_add(1, Ordering::SeqCst);
    }
}

const QUEUE: &str = "s :: Sender(3); q :: Queue(1); d :: ToDevice(link); s -> q -> d;";

const FRONT_DROP_QUEUE: &str =
    "s :: Sender(3); q :: FrontDropQueue(1); d :: ToDevice(link); s -> q -> d;";

const TWO_DEVICES: &str =
    "s :: Sender(3); t :: Sender(5); q, r :: Queue(2); d :: ToDevice(one); e :: ToDevice(two);
    s -> q -> d; t -> r -> e;";

/// A run, with the number of pulls for which its senders wait.
struct Held {
    tree: &'static str,
    trace: &'static str,
    pulls: u64,
    record: &'static str,
    /// How many packets of the last sender were refused, evicted and emitted.
    counts: (u64, u64, u64),
}

const ROWS: [Held; 4] = [
    Held {
        tree: QUEUE,
        trace: "3,10\n3,20\n3,30\n",
        pulls: 2,
        record: "pull 5\npull 10\nsend 3 10\nsend 3 20\nsend 3 30\ndrain 0\n",
        counts: (2, 0, 1),
    },
    Held {
        tree: FRONT_DROP_QUEUE,
        trace: "3,10\n3,20\n3,30\n",
        pulls: 2,
        record: "pull 5\npull 10\nsend 3 10\nsend 3 20\nsend 3 30\ndrain 0\n",
        counts: (0, 2, 1),
    },
    Held {
        tree: TWO_DEVICES,
        trace: "5,10\n",
        pulls: 4,
        record: "pull 5\npull 5 1\npull 10\npull 10 1\nsend 5 10\ndrain 0\n",
        counts: (0, 0, 1),
    },
    Held {
        tree: TWO_DEVICES,
        trace: "3,65535\n3,1\n3,2\n",
        pulls: 4,
        record: "pull 5\npull 5 1\npull 10\npull 10 1\nsend 3 65535\nsend 3 1\nsend 3 2\ndrain 0\n",
        counts: (0, 0, 0),
    },
];

// Runs a trace over the plan of a text, with at most two pulls of each device, 5 ticks apart. The record's sink takes `room` bytes.
fn run<R: Threads + Wait + Sync, G: Gate + Sync>(
    rt: &R,
    alloc: Global,
    tree: &str,
    trace: &str,
    gate: &G,
    recording: bool,
    room: usize,
) -> Result<LiveOutcome<FailingSink>, Fault> {
    let plan = Plan::read(alloc, tree.as_bytes())?;
    let traces = Traces::read_csv(alloc, &mut FromRead::new(trace.as_bytes()))?;
    let sink = FailingSink::new(vec![in alloc; 0; room]?);
    run_live(rt, alloc, rt, &plan, &traces, 5, 2, gate, recording, sink)
}

fn waiting_for(pulls: u64) -> HeldForPulls {
    HeldForPulls {
        pulls: AtomicU64::new(0),
        most: pulls,
    }
}

#[test]
fn held_runs_are_recorded(rt: HostRuntime) -> Result<(), Fault> {
    for row in &ROWS {
        let gate = waiting_for(row.pulls);
        let outcome = run(&rt, rt.alloc(), row.tree, row.trace, &gate, true, 1024)?;
        assert!(rt; !outcome.write_failed);
        assert_eq!(rt; outcome.sink.taken(), row.record.as_bytes());
        let account = outcome
            .live
            .router()
            .accounts()
            .last()
            .expect(&rt, "a sender");
        let totals = account.counts;
        let counts = (
            totals.refused.packets,
            totals.evicted.packets,
            totals.emitted.packets,
        );
        assert_eq!(rt; counts, row.counts);
    }
    Ok(())
}

/// A sink that fails has a front of the record, and the run goes on. A run that is not recorded leaves its sink unchanged.
#[test]
fn a_run_goes_on_without_its_record(rt: HostRuntime) -> Result<(), Fault> {
    let trace = "3,10\n3,20\n";
    let failed = run(&rt, rt.alloc(), QUEUE, trace, &waiting_for(2), true, 9)?;
    assert!(rt; failed.write_failed);
    assert_eq!(rt; failed.sink.taken(), b"pull 5\npu".as_slice());
    let unrecorded = run(&rt, rt.alloc(), QUEUE, trace, &Free, false, 9)?;
    assert!(rt; !unrecorded.write_failed);
    assert_eq!(rt; unrecorded.sink.taken(), b"".as_slice());
    for outcome in [failed, unrecorded] {
        let account = outcome
            .live
            .router()
            .accounts()
            .last()
            .expect(&rt, "a sender");
        let counts = account.counts;
        let offered = counts.accepted.packets.checked_add(counts.refused.packets);
        assert_eq!(rt; offered, Some(2));
    }
    Ok(())
}

/// A sender that the plan lacks is reported first.
#[test]
fn an_unknown_sender_runs_nothing(rt: HostRuntime) -> Result<(), Fail> {
    let outcome = run(&rt, rt.alloc(), QUEUE, "9,1\n4,1\n3,1\n", &Free, true, 0);
    assert_eq!(rt; outcome.err(), Some(Fault::UnknownSender { sender: 4 }));
    Ok(())
}

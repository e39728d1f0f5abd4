//! Runs of two devices that keep all visits, only what was emitted, or neither, in which an allocation or the start of a thread fails. The
//! script tests/refuse-memory makes each of these of the tests here fail in turn.

use crate::gates::{Calls, Counted};
use crate::running::{EMITTED, records, traces};
use clk_drain::{Outcome, run_with};
use clk_packet::{Fault, Tally, Traces};
use clk_sched::Keeps;
use clk_tree::Plan;
use std::alloc::Global;
use std::process::Abort;
use std::sync::Wait;
use std::thread::Threads;

/// Two devices, with a DRRSched over two queues and a queue of two senders.
const TWO_DEVICES: &str =
    "s0 :: Sender(0); s1 :: Sender(1); p, q :: Queue(50); x :: DRRSched(500); a :: ToDevice(link); s0 -> p -> x; s1 -> q -> [1] x; x -> a;
    s2 :: Sender(2); s3 :: Sender(3); r :: FrontDropQueue(100); b :: ToDevice(link); s2 -> r; s3 -> r; r -> b;";

/// How many packets each of the four senders sends.
const EACH: u32 = 50;

const PACKED: Keeps = Keeps {
    visits: false,
    packed: true,
    packets: false,
    latest: false,
};

/// The calls that may fail.
#[derive(Clone, Copy, Debug, PartialEq, Eq)]
enum Call {
    Run,
    // What the test itself makes for the run.
    Setup,
}

// Only the first call fails, since only one allocation or one start of a thread does.
#[test]
fn two_devices_are_run_again(rt: HostRuntime) {
    assert_eq!(rt; met_refusal(&rt, rt.alloc(), PACKED), None);
}

#[test]
fn a_run_without_visits_is_made_again(rt: HostRuntime) {
    assert_eq!(rt; met_refusal(&rt, rt.alloc(), EMITTED), None);
}

#[test]
fn a_run_that_keeps_nothing_is_made_again(rt: HostRuntime) {
    assert_eq!(rt; met_refusal(&rt, rt.alloc(), Keeps::NOTHING), None);
}

// Runs the devices, and runs them again if that failed. Returns which call failed.
fn met_refusal<R: Threads + Wait + Abort + Sync>(
    rt: &R,
    alloc: Global,
    keeps: Keeps,
) -> Option<Call> {
    match four_senders(alloc) {
        Ok((plan, traces)) => refused_run(rt, alloc, &plan, &traces, keeps),
        Err(fault) => {
            assert_eq!(rt; fault, Fault::Memory);
            Some(Call::Setup)
        }
    }
}

// The plan of the devices, and what their senders send.
fn four_senders(alloc: Global) -> Result<(Plan, Traces), Fault> {
    let plan = Plan::read(alloc, TWO_DEVICES.as_bytes())?;
    let traces = traces(alloc, records(alloc, b"0123", EACH)?)?;
    Ok((plan, traces))
}

// After a run has failed all its threads have ended, so none calls its gate. With one pull at most, a run always allocates equally often.
fn refused_run<R: Threads + Wait + Abort + Sync>(
    rt: &R,
    alloc: Global,
    plan: &Plan,
    traces: &Traces,
    keeps: Keeps,
) -> Option<Call> {
    let gate = Counted {
        calls: Calls::none(),
    };
    let Err(fault) = run_once(rt, alloc, plan, traces, &gate, keeps) else {
        return None;
    };
    assert!(rt; gate.calls.have_ended(), "no thread goes on");
    assert_eq!(rt; fault, Fault::Memory);
    assert_eq!(rt; run_once(rt, alloc, plan, traces, &gate, keeps), Ok(()));
    Some(Call::Run)
}

// If the run succeeds, fails unless all packets are accepted and, where emitted packets are known, each is emitted by the device of its
// sender.
fn run_once<R: Threads + Wait + Abort + Sync>(
    rt: &R,
    alloc: Global,
    plan: &Plan,
    traces: &Traces,
    gate: &Counted,
    keeps: Keeps,
) -> Result<(), Fault> {
    let outcome = run_with(rt, alloc, rt, plan, traces, 1, 1, gate, keeps)?.unpack(alloc)?;
    for tally in &outcome.tallies {
        assert_taken(rt, tally);
    }
    if keeps.packed || keeps.packets {
        assert_all_emitted(rt, &outcome);
    }
    assert_eq!(rt; outcome.logs.len(), if keeps.packed { 2 } else { 0 });
    Ok(())
}

// Fails unless all that a sender sends was accepted, and nothing was evicted.
fn assert_taken(rt: &impl Abort, tally: &Tally) {
    assert_eq!(rt; tally.accepted.as_slice().len(), EACH as usize);
    assert!(rt; tally.evicted.as_slice().is_empty());
}

fn assert_all_emitted(rt: &impl Abort, outcome: &Outcome) {
    assert_eq!(rt; outcome.emitted.len(), 2);
    for (device, emitted) in outcome.emitted.iter().enumerate() {
        assert_eq!(rt; emitted.len(), 2 * EACH as usize);
        assert!(rt;
            emitted
                .iter()
                .all(|packet| usize::from(packet.sender) / 2 == device)
        );
    }
}

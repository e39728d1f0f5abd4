//! Opening a live router when an allocation fails. tests/refuse-memory makes each allocation of the test fail in turn.

use crate::bench::{Bench, assert_steps};
use crate::steps::Step;
use clk_live::Live;
use clk_packet::Fault;
use clk_tree::Plan;
use std::alloc::Global;
use std::process::Abort;

// Queues of both kinds, with a DRRSched above them, for two senders.
const TREE: &str = "s :: Sender(1); t :: Sender(2); f :: FrontDropQueue(1); q :: Queue(2);
    x :: DRRSched(500); d :: ToDevice(link); s -> f -> [0] x; t -> q -> [1] x; x -> d;";

// A packet goes through a live router that was opened.
const STEPS: [Step; 4] = [
    Step::Offers((2, 0, 60)),
    Step::Accepted((2, 0, 60)),
    Step::Emits((2, 0, 60)),
    Step::IsDrained(true),
];

/// The calls whose allocations may fail.
#[derive(Clone, Copy, Debug, PartialEq, Eq)]
enum Call {
    Open,
    // The plan, which the test reads first.
    Plan,
}

// Only the first call fails, since only one allocation does.
#[test]
fn a_refused_call_is_made_again(rt: HostRuntime) {
    let refused = met_refusal(&rt, rt.alloc());
    assert_eq!(rt; refused, None);
}

// Opens a live router, and opens it again if that failed. Returns which call failed.
fn met_refusal(rt: &impl Abort, alloc: Global) -> Option<Call> {
    match Plan::read(alloc, TREE.as_bytes()) {
        Ok(plan) => refused_open(rt, alloc, &plan),
        Err(fault) => {
            assert_eq!(rt; fault, Fault::Memory);
            Some(Call::Plan)
        }
    }
}

// Opens a live router over a plan, and opens it again if that failed. Returns whether it failed.
fn refused_open(rt: &impl Abort, alloc: Global, plan: &Plan) -> Option<Call> {
    let mut refused = None;
    let (live, inlets) = match Live::open(alloc, plan, 2) {
        Ok(opened) => opened,
        Err(fault) => {
            assert_eq!(rt; fault, Fault::Memory);
            refused = Some(Call::Open);
            Live::open(alloc, plan, 2).expect(rt, "memory")
        }
    };
    assert_steps(rt, &mut Bench::new(live, inlets), "opened", &STEPS);
    refused
}

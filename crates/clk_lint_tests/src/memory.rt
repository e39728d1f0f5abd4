//! Warnings of a plan and a trace when an allocation fails. tests/refuse-memory makes each allocation of the test fail in turn.

use crate::row::AMPLE;
use clk_lint::lint;
use clk_packet::{FailingSink, Fault, FromRead, Traces};
use clk_tree::Plan;
use std::alloc::{AllocError, Global};
use std::process::Abort;

const TREE: &str =
    "s :: Sender(0); q :: Queue; x :: DRRSched; h :: Shaper(2, 1); d :: ToDevice(l); s -> q -> x -> h -> d;";

const TRACE: &str = "0,1500\n0,40\n";

const LINES: &[u8] = b"warning: h: burst 1 is below the rate, 2
warning: x input 0: quantum 500 is below the longest packet, 1500
warning: x: it has one input
";

/// The calls whose allocations may fail.
#[derive(Clone, Copy, Debug, PartialEq, Eq)]
enum Call {
    Lint,
    // The plan, the trace and the sink, which the test makes first.
    Setup,
}

// Only one allocation fails, so only one call does.
#[test]
fn a_refused_call_is_made_again(rt: HostRuntime) {
    let refused = met_refusal(&rt, rt.alloc());
    assert_eq!(rt; refused, None);
}

// Writes the warnings of a plan and a trace, and writes them again if that failed. Returns which call failed.
fn met_refusal(rt: &impl Abort, alloc: Global) -> Option<Call> {
    let Ok(plan) = Plan::read(alloc, TREE.as_bytes()) else {
        return Some(Call::Setup);
    };
    let Ok(traces) = Traces::read_csv(alloc, &mut FromRead::new(TRACE.as_bytes())) else {
        return Some(Call::Setup);
    };
    let Ok(writer) = sink(alloc) else {
        return Some(Call::Setup);
    };
    refused_lint(rt, alloc, &plan, &traces, writer)
}

/// A sink with room for all lines.
fn sink(alloc: Global) -> Result<FailingSink, AllocError> {
    Ok(FailingSink::new(vec![in alloc; 0; AMPLE]?))
}

// Writes the warnings of a plan and a trace, and writes them again if that failed. Returns whether it failed.
fn refused_lint(
    rt: &impl Abort,
    alloc: Global,
    plan: &Plan,
    traces: &Traces,
    writer: FailingSink,
) -> Option<Call> {
    let mut writer = writer;
    let mut refused = None;
    if let Err(fault) = lint(alloc, plan, Some(traces), &mut writer) {
        assert_eq!(rt; fault, Fault::Memory);
        assert!(rt; writer.taken().is_empty());
        refused = Some(Call::Lint);
        lint(alloc, plan, Some(traces), &mut writer).expect(rt, "memory");
    }
    assert_eq!(rt; writer.taken(), LINES);
    refused
}

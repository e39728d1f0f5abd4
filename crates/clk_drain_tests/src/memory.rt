//! A run in which an allocation fails. tests/refuse-memory makes each allocation of the test fail in turn.

use crate::gates::{Calls, Counted};
use crate::running::{records, traces};
use clk_drain::{Outcome, run};
use clk_packet::{Fault, Traces};
use clk_rows::trees::EIGHT_SENDERS;
use clk_tree::Plan;
use std::alloc::Global;
use std::process::Abort;
use std::sync::Wait;
use std::thread::Threads;

/// The calls whose allocations may fail.
#[derive(Clone, Copy, Debug, PartialEq, Eq)]
enum Call {
    Run,
    // What the test itself makes for the run.
    Setup,
}

// Only the first call fails, since only one allocation does.
#[test]
fn a_refused_call_is_made_again(rt: HostRuntime) {
    let refused = met_refusal(&rt, rt.alloc());
    assert_eq!(rt; refused, None);
}

// Runs eight senders, and runs them again if that failed. Returns which call failed.
fn met_refusal<R: Threads + Wait + Abort + Sync>(rt: &R, alloc: Global) -> Option<Call> {
    match eight_senders(alloc) {
        Ok((plan, traces)) => refused_run(rt, alloc, &plan, &traces),
        Err(fault) => {
            assert_eq!(rt; fault, Fault::Memory);
            Some(Call::Setup)
        }
    }
}

// A plan of eight senders, and what they send.
fn eight_senders(alloc: Global) -> Result<(Plan, Traces), Fault> {
    let plan = Plan::read(alloc, EIGHT_SENDERS.as_bytes())?;
    let traces = traces(alloc, records(alloc, b"01234567", 100)?)?;
    Ok((plan, traces))
}

// After a run has failed all its threads have ended, so none calls its gate. With one pull at most, a run always allocates equally often.
fn refused_run<R: Threads + Wait + Abort + Sync>(
    rt: &R,
    alloc: Global,
    plan: &Plan,
    traces: &Traces,
) -> Option<Call> {
    let gate = Counted {
        calls: Calls::none(),
    };
    match run(rt, alloc, rt, plan, traces, 1, 1, &gate) {
        Ok(outcome) => {
            assert_all_emitted(rt, &outcome);
            None
        }
        Err(fault) => {
            assert!(rt; gate.calls.have_ended(), "no thread goes on");
            assert_eq!(rt; fault, Fault::Memory);
            let again = run(rt, alloc, rt, plan, traces, 1, 1, &gate);
            assert_all_emitted(rt, &again.expect(rt, "memory"));
            Some(Call::Run)
        }
    }
}

// Fails unless all packets of the eight senders were accepted and emitted.
fn assert_all_emitted(rt: &impl Abort, outcome: &Outcome) {
    assert_eq!(rt; outcome.emitted.len(), 1);
    for emitted in &outcome.emitted {
        assert_eq!(rt; emitted.len(), 800);
    }
    assert_eq!(rt; outcome.tallies.len(), 8);
    for tally in &outcome.tallies {
        assert_eq!(rt; tally.accepted.as_slice().len(), 100);
    }
}

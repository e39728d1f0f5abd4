//! Runs of plans over traces, on threads.

ghost use Rattle.std.specs.Prelude.{◌≤◌};
ghost use Rattle.clk_gate.specs.declared.limits.TheConstants.{MAX_LIMIT};

use crate::gates::{AllMeet, Calls, Counted, HeldForTwoPulls, InTurns};
use clk_drain::{Free, Gate, Outcome, run, run_with};
use clk_packet::{FailingSource, Fault, Packet, Tally, Traces};
use clk_rows::trees::{DRR_500_OVER_TWO, EIGHT_SENDERS};
use clk_rows::{EIGHT_SENDERS_ONE_QUEUE, EMPTY_TRACE_TWO_QUEUES, LONG_RUN, NO_SENDER, Run};
use clk_sched::Keeps;
use clk_tree::Plan;
use std::alloc::Global;
use std::process::Abort;
use std::sync::Wait;
use std::test::Fail;
use std::thread::Threads;

/// What devices emit, and no visits.
pub const EMITTED: Keeps = Keeps {
    visits: false,
    packed: false,
    packets: true,
    latest: false,
};

const FOUR_AT_A_QUEUE: &str =
    "s0 :: Sender(0); s1 :: Sender(1); s2 :: Sender(2); s3 :: Sender(3); q :: Queue(1); d :: ToDevice(link); s0 -> q; s1 -> q; s2 -> q; s3 -> q; q -> d;";

const FOUR_AT_A_FRONT_DROP_QUEUE: &str =
    "s0 :: Sender(0); s1 :: Sender(1); s2 :: Sender(2); s3 :: Sender(3); q :: FrontDropQueue(1); d :: ToDevice(link); s0 -> q; s1 -> q; s2 -> q; s3 -> q; q -> d;";

const PRIO_OVER_TWO: &str =
    "s0 :: Sender(0); q0 :: Queue; s1 :: Sender(1); q1 :: Queue; x :: PrioSched; d :: ToDevice(link); s0 -> q0 -> [0] x; s1 -> q1 -> [1] x; x -> d;";

const TWO_AT_A_QUEUE: &str =
    "s0 :: Sender(0); s1 :: Sender(1); q :: Queue(3000); d :: ToDevice(link); s0 -> q; s1 -> q; q -> d;";

const ONE_AT_A_QUEUE: &str = "s :: Sender(0); q :: Queue(1); d :: ToDevice(link); s -> q -> d;";

/// The records of `packets` packets of 64 bytes from each of these senders, each named by a digit.
pub fn records(alloc: Global, senders: &[u8], packets: u32) -> Result<Vec<u8>, Fault> {
    let mut text = Vec::new(alloc);
    for sender in senders {
        for _ in 0..packets {
            text.push(*sender)?;
            text.extend_from_slice(b",64\n")?;
        }
    }
    Ok(text)
}

/// The traces of these records.
pub fn traces(alloc: Global, text: Vec<u8>) -> Result<Traces, Fault> {
    Traces::read_csv(alloc, &mut FailingSource::new(text, usize::MAX))
}

/// The traces of a row.
pub fn traces_of(alloc: Global, row: &Run) -> Result<Traces, Fault> {
    traces(alloc, row.records.repeat(alloc, row.times)?.into_bytes())
}

/// Runs the plan of a text over traces, with a tick between two pulls.
pub fn run_text<R: Threads + Wait + Sync, G: Gate + Sync>(
    rt: &R,
    alloc: Global,
    text: &str,
    traces: &Traces,
    limit: u32,
    gate: &G,
) -> Result<Outcome, Fault>
    requires limit { (1 ≤ limit) × (limit ≤ MAX_LIMIT) }
{
    let plan = Plan::read(alloc, text.as_bytes())?;
    run(rt, alloc, rt, &plan, traces, 1, limit, gate)
}

// All that a sender sends, in order.
fn sent_by(alloc: Global, traces: &Traces, sender: u16) -> Result<Vec<Packet>, Fault> {
    let mut sent = Vec::new(alloc);
    for number in 0..traces.count(sender) {
        if let Some(packet) = traces.sent(sender, number) {
            sent.push(packet)?;
        }
    }
    Ok(sent)
}

// The packets of two lists, by number.
fn merged(alloc: Global, some: &[Packet], more: &[Packet]) -> Result<Vec<Packet>, Fault> {
    let mut all = some.to_vec(alloc)?;
    all.extend_from_slice(more)?;
    all.sort_unstable_by_key(|packet| packet.number);
    Ok(all)
}

// The packets of a sender that were emitted, in order.
fn emitted_of(alloc: Global, outcome: &Outcome, sender: u16) -> Result<Vec<Packet>, Fault> {
    let mut packets = Vec::new(alloc);
    for emitted in &outcome.emitted {
        for packet in emitted {
            if packet.sender == sender {
                packets.push(*packet)?;
            }
        }
    }
    Ok(packets)
}

// Fails unless a tally accounts for all that its sender sends, and all that was accepted and not evicted was emitted, in order.
fn assert_accounted(
    rt: &impl Abort,
    alloc: Global,
    traces: &Traces,
    outcome: &Outcome,
    tally: &Tally,
) -> Result<(), Fault> {
    let (accepted, refused, evicted) = (
        tally.accepted.as_slice(),
        tally.refused.as_slice(),
        tally.evicted.as_slice(),
    );
    assert_eq!(rt;
        merged(alloc, accepted, refused)?,
        sent_by(alloc, traces, tally.sender)?
    );
    let emitted = emitted_of(alloc, outcome, tally.sender)?;
    assert_eq!(rt; merged(alloc, &emitted, evicted)?, accepted.to_vec(alloc)?);
    assert!(rt; emitted.is_sorted_by_key(|packet| packet.number));
    Ok(())
}

/// Fails unless all that each of `senders` senders sends is accounted for.
pub fn assert_all_accounted(
    rt: &impl Abort,
    alloc: Global,
    traces: &Traces,
    outcome: &Outcome,
    senders: usize,
) -> Result<(), Fault> {
    assert_eq!(rt; outcome.tallies.len(), senders);
    for tally in &outcome.tallies {
        assert_accounted(rt, alloc, traces, outcome, tally)?;
    }
    Ok(())
}

// Fails unless a tally has all that its sender sends as accepted, and nothing as refused or evicted.
fn assert_accepted(
    rt: &impl Abort,
    alloc: Global,
    traces: &Traces,
    tally: &Tally,
) -> Result<(), Fault> {
    assert_eq!(rt;
        tally.accepted.as_slice().to_vec(alloc)?,
        sent_by(alloc, traces, tally.sender)?
    );
    assert!(rt; tally.refused.as_slice().is_empty());
    assert!(rt; tally.evicted.as_slice().is_empty());
    Ok(())
}

/// Fails unless all that each sender sends was accepted, and nothing was evicted.
pub fn assert_all_accepted(
    rt: &impl Abort,
    alloc: Global,
    traces: &Traces,
    outcome: &Outcome,
) -> Result<(), Fault> {
    for tally in &outcome.tallies {
        assert_accepted(rt, alloc, traces, tally)?;
    }
    Ok(())
}

#[test]
fn eight_senders_one_queue(rt: HostRuntime) -> Result<(), Fault> {
    let alloc = rt.alloc();
    let row = EIGHT_SENDERS_ONE_QUEUE;
    let traces = traces_of(alloc, &row)?;
    let outcome = run_text(&rt, alloc, row.tree, &traces, 1000, &Free)?;
    assert_all_accounted(&rt, alloc, &traces, &outcome, 8)?;
    for tally in &outcome.tallies {
        assert_eq!(rt; tally.accepted.as_slice().len(), 100);
    }
    assert_all_accepted(&rt, alloc, &traces, &outcome)
}

// Without visits all packets are accounted for too, and no device has a log.
#[test]
fn a_run_may_keep_no_visits(rt: HostRuntime) -> Result<(), Fault> {
    let alloc = rt.alloc();
    let traces = traces(alloc, records(alloc, b"01", 50)?)?;
    let plan = Plan::read(alloc, DRR_500_OVER_TWO.as_bytes())?;
    let packed = run_with(&rt, alloc, &rt, &plan, &traces, 1, 1000, &Free, EMITTED)?;
    let outcome = packed.unpack(alloc)?;
    assert_all_accounted(&rt, alloc, &traces, &outcome, 2)?;
    assert!(rt; outcome.logs.is_empty());
    assert_all_accepted(&rt, alloc, &traces, &outcome)
}

// A run that keeps nothing has its tallies, no log, and no emitted packets.
#[test]
fn a_run_may_keep_nothing(rt: HostRuntime) -> Result<(), Fault> {
    let alloc = rt.alloc();
    let traces = traces(alloc, records(alloc, b"01", 50)?)?;
    let plan = Plan::read(alloc, DRR_500_OVER_TWO.as_bytes())?;
    let keeps = Keeps::NOTHING;
    let outcome = run_with(&rt, alloc, &rt, &plan, &traces, 1, 1000, &Free, keeps)?;
    assert_eq!(rt; outcome.tallies.len(), 2);
    for tally in &outcome.tallies {
        assert_accepted(&rt, alloc, &traces, tally)?;
    }
    assert!(rt; outcome.logs.is_empty());
    for emitted in &outcome.emitted {
        assert!(rt; emitted.is_empty());
    }
    Ok(())
}

#[test]
fn contended_capacity_one(rt: HostRuntime) -> Result<(), Fault> {
    let alloc = rt.alloc();
    let traces = traces(alloc, records(alloc, b"0123", 50)?)?;
    let outcome = run_text(&rt, alloc, FOUR_AT_A_QUEUE, &traces, 1000, &Free)?;
    assert_all_accounted(&rt, alloc, &traces, &outcome, 4)?;
    for tally in &outcome.tallies {
        assert!(rt; tally.evicted.as_slice().is_empty());
    }
    let outcome = run_text(&rt, alloc, FOUR_AT_A_FRONT_DROP_QUEUE, &traces, 1000, &Free)?;
    assert_all_accounted(&rt, alloc, &traces, &outcome, 4)?;
    for tally in &outcome.tallies {
        assert!(rt; tally.refused.as_slice().is_empty());
    }
    Ok(())
}

#[test]
fn empty_trace_two_queues(rt: HostRuntime) -> Result<(), Fault> {
    let alloc = rt.alloc();
    let row = EMPTY_TRACE_TWO_QUEUES;
    let traces = traces_of(alloc, &row)?;
    let outcome = run_text(&rt, alloc, row.tree, &traces, 1000, &Free)?;
    assert_all_accounted(&rt, alloc, &traces, &outcome, 2)?;
    assert_eq!(rt; outcome.emitted, vec![in alloc; Vec::new(alloc)]?);
    Ok(())
}

#[test]
fn threads_really_run(rt: HostRuntime) -> Result<(), Fault> {
    let alloc = rt.alloc();
    let traces = traces(alloc, records(alloc, b"01", 3)?)?;
    let gate = AllMeet {
        calls: Calls::none(),
    };
    let outcome = run_text(&rt, alloc, PRIO_OVER_TWO, &traces, 1000, &gate)?;
    assert!(rt;
        gate.calls.came(),
        "two producers and the consumer wait for one another"
    );
    assert_eq!(rt; gate.calls.count(), 3);
    assert_all_accounted(&rt, alloc, &traces, &outcome, 2)
}

// A producer that is held has its queue's baton, and the other producer goes on without it.
#[test]
fn no_producer_waits_for_one_that_is_held(rt: HostRuntime) -> Result<(), Fault> {
    let alloc = rt.alloc();
    let traces = traces(alloc, records(alloc, b"01", 3)?)?;
    let gate = AllMeet {
        calls: Calls::none(),
    };
    let outcome = run_text(&rt, alloc, TWO_AT_A_QUEUE, &traces, 1000, &gate)?;
    assert!(rt;
        gate.calls.came(),
        "two producers of one queue and the consumer wait for one another"
    );
    assert_all_accounted(&rt, alloc, &traces, &outcome, 2)
}

// Each producer passes the baton on once before its last packet.
#[test]
fn producers_of_one_queue_pass_the_baton_on(rt: HostRuntime) -> Result<(), Fault> {
    let alloc = rt.alloc();
    let traces = traces(alloc, records(alloc, b"01", 1_500)?)?;
    let outcome = run_text(&rt, alloc, TWO_AT_A_QUEUE, &traces, 1000, &Free)?;
    assert_all_accounted(&rt, alloc, &traces, &outcome, 2)?;
    assert_all_accepted(&rt, alloc, &traces, &outcome)
}

// The consumer asks the queue while the producer runs: the queue of one place has room for the second packet.
#[test]
fn queues_are_asked_while_producers_run(rt: HostRuntime) -> Result<(), Fault> {
    let alloc = rt.alloc();
    let traces = traces(alloc, records(alloc, b"0", 2)?)?;
    let gate = InTurns {
        offers: Calls::none(),
        pulls: Calls::none(),
    };
    let outcome = run_text(&rt, alloc, ONE_AT_A_QUEUE, &traces, 1000, &gate)?;
    assert!(rt;
        gate.offers.came() && gate.pulls.came(),
        "the producer and the consumer go on in turns"
    );
    assert_all_accounted(&rt, alloc, &traces, &outcome, 1)?;
    for log in &outcome.logs {
        let first = log.iter().find(|visit| visit.got.is_some());
        assert!(rt; first.is_some_and(|visit| visit.pull <= 1));
    }
    for tally in &outcome.tallies {
        assert!(rt; tally.refused.as_slice().is_empty());
    }
    Ok(())
}

// While its producer is held, a device is pulled as often as the limit says, and no more.
#[test]
fn no_device_is_pulled_beyond_the_limit(rt: HostRuntime) -> Result<(), Fault> {
    let alloc = rt.alloc();
    let traces = traces(alloc, records(alloc, b"0", 2)?)?;
    let gate = HeldForTwoPulls {
        pulls: Calls::none(),
    };
    let outcome = run_text(&rt, alloc, ONE_AT_A_QUEUE, &traces, 2, &gate)?;
    assert!(rt;
        gate.pulls.came(),
        "two pulls are made while the producer is held"
    );
    assert_eq!(rt; gate.pulls.count(), 2);
    assert_all_accounted(&rt, alloc, &traces, &outcome, 1)
}

#[test]
fn unknown_senders_are_refused(rt: HostRuntime) -> Result<(), Fail> {
    let alloc = rt.alloc();
    let traces = traces(alloc, records(alloc, b"19", 1)?)?;
    let gate = Counted {
        calls: Calls::none(),
    };
    let refused = run_text(&rt, alloc, ONE_AT_A_QUEUE, &traces, 1000, &gate);
    assert!(rt; matches!(refused, Err(Fault::UnknownSender { sender: 1 })));
    // No thread was started.
    assert_eq!(rt; gate.calls.count(), 0);
    Ok(())
}

#[test]
fn one_pull_while_producers_run(rt: HostRuntime) -> Result<(), Fault> {
    let alloc = rt.alloc();
    let traces = traces_of(alloc, &EIGHT_SENDERS_ONE_QUEUE)?;
    let outcome = run_text(&rt, alloc, EIGHT_SENDERS, &traces, 1, &Free)?;
    assert_all_accounted(&rt, alloc, &traces, &outcome, 8)?;
    assert_all_accepted(&rt, alloc, &traces, &outcome)
}

#[test]
fn a_plan_without_senders_runs(rt: HostRuntime) -> Result<(), Fault> {
    let alloc = rt.alloc();
    let traces = traces_of(alloc, &NO_SENDER)?;
    let outcome = run_text(&rt, alloc, NO_SENDER.tree, &traces, 1000, &Free)?;
    assert!(rt; outcome.tallies.is_empty());
    assert_eq!(rt; outcome.emitted, vec![in alloc; Vec::new(alloc)]?);
    Ok(())
}

// Nearly all pulls are made in the drain, after the one pull while its producer runs.
#[test]
fn a_drain_may_take_long(rt: HostRuntime) -> Result<(), Fault> {
    let alloc = rt.alloc();
    let traces = traces_of(alloc, &LONG_RUN)?;
    let outcome = run_text(&rt, alloc, LONG_RUN.tree, &traces, 1, &Free)?;
    assert_all_accounted(&rt, alloc, &traces, &outcome, 1)?;
    assert_all_accepted(&rt, alloc, &traces, &outcome)?;
    for log in &outcome.logs {
        assert!(rt; log.last().is_some_and(|visit| visit.pull <= 131_072));
    }
    Ok(())
}

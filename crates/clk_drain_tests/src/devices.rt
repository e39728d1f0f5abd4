//! Runs of plans with several devices.

ghost use Rattle.std.specs.Prelude.{◌≤◌};
ghost use Rattle.clk_gate.specs.declared.limits.TheConstants.{MAX_LIMIT};

use crate::gates::{Calls, DevicesMeet};
use crate::running::{
    assert_all_accepted, assert_all_accounted, records, run_text, traces, traces_of,
};
use clk_drain::{Free, Outcome, run};
use clk_packet::Fault;
use clk_rows::EIGHT_SENDERS_TWO_DEVICES;
use clk_rows::trees::TWO_DEVICES;
use clk_tree::Plan;
use std::alloc::Global;
use std::process::Abort;
use std::sync::Wait;
use std::thread::Threads;

/// How many devices a plan of many devices has.
const DEVICES: u16 = 8;

/// How many senders each of many devices has.
const SENDERS: u16 = 8;

const PACKETS: u32 = 3;

/// How often many devices run with the same limit of pulls.
const ROUNDS: u32 = 200;

// Many devices with a queue and senders each.
fn many_devices(alloc: Global) -> Result<String, Fault> {
    let mut text = String::new(alloc);
    for device in 0..DEVICES {
        let queue = format!(in alloc;
            "q{device} :: Queue(100); d{device} :: ToDevice(link); q{device} -> d{device};\n"
        )?;
        text.push_str(&queue)?;
        for place in 0..SENDERS {
            let number = device * SENDERS + place;
            let sender = format!(in alloc;
                "s{number} :: Sender({number}); s{number} -> q{device};\n"
            )?;
            text.push_str(&sender)?;
        }
    }
    Ok(text)
}

// Some packets of each sender of the many devices.
fn many_records(alloc: Global) -> Result<Vec<u8>, Fault> {
    let mut text = Vec::new(alloc);
    for number in 0..DEVICES * SENDERS {
        for _ in 0..PACKETS {
            let record = format!(in alloc; "{number},64\n")?;
            text.extend_from_slice(record.as_bytes())?;
        }
    }
    Ok(text)
}

// Fails unless there are `devices` devices, and each emits packets of its own senders alone: `senders` senders, whose numbers follow those
// of the device before.
fn assert_own_senders(rt: &impl Abort, outcome: &Outcome, devices: u16, senders: u16)
    requires { 1 ≤ senders }
{
    let mut device = 0;
    for emitted in &outcome.emitted {
        for packet in emitted {
            assert_eq!(rt; packet.sender / senders, device);
        }
        assert!(rt; device < devices);
        device += 1;
    }
    assert_eq!(rt; device, devices);
}

// Fails unless each device emits the packets that it got in its log.
fn assert_logged(rt: &impl Abort, alloc: Global, outcome: &Outcome) -> Result<(), Fault> {
    let mut logged = Vec::new(alloc);
    for log in &outcome.logs {
        let mut given = Vec::new(alloc);
        for visit in log {
            if visit.node == 0 && visit.passed {
                if let Some(packet) = visit.got {
                    given.push(packet)?;
                }
            }
        }
        logged.push(given)?;
    }
    assert_eq!(rt; logged, outcome.emitted);
    Ok(())
}

#[test]
fn two_devices_run(rt: HostRuntime) -> Result<(), Fault> {
    let alloc = rt.alloc();
    let row = EIGHT_SENDERS_TWO_DEVICES;
    let traces = traces_of(alloc, &row)?;
    let outcome = run_text(&rt, alloc, row.tree, &traces, 1000, &Free)?;
    assert_all_accounted(&rt, alloc, &traces, &outcome, 8)?;
    for tally in &outcome.tallies {
        assert_eq!(rt; tally.accepted.as_slice().len(), 100);
    }
    assert_all_accepted(&rt, alloc, &traces, &outcome)?;
    assert_own_senders(&rt, &outcome, 2, 4);
    assert_logged(&rt, alloc, &outcome)
}

#[test]
fn two_devices_threads(rt: HostRuntime) -> Result<(), Fault> {
    let alloc = rt.alloc();
    let traces = traces(alloc, records(alloc, b"01", 1)?)?;
    let gate = DevicesMeet {
        first: Calls::none(),
        second: Calls::none(),
    };
    let outcome = run_text(&rt, alloc, TWO_DEVICES, &traces, 1000, &gate)?;
    assert!(rt;
        gate.first.came() && gate.second.came(),
        "the first pulls of two devices wait for one another, and a producer for both"
    );
    assert_eq!(rt; (gate.first.count(), gate.second.count()), (1, 1));
    assert_all_accounted(&rt, alloc, &traces, &outcome, 2)?;
    assert_all_accepted(&rt, alloc, &traces, &outcome)?;
    assert_own_senders(&rt, &outcome, 2, 1);
    Ok(())
}

// Runs many devices round after round, each pulled at most `limit` times while producers run. Fails unless in each round all that is sent
// is accepted, and emitted by its own device.
fn assert_rounds<R: Threads + Wait + Abort + Sync>(
    rt: &R,
    alloc: Global,
    limit: u32,
) -> Result<(), Fault>
    requires limit { (1 ≤ limit) × (limit ≤ MAX_LIMIT) }
{
    let plan = Plan::read(alloc, many_devices(alloc)?.as_bytes())?;
    let traces = traces(alloc, many_records(alloc)?)?;
    for _ in 0..ROUNDS {
        let outcome = run(rt, alloc, rt, &plan, &traces, 1, limit, &Free)?;
        assert_all_accounted(rt, alloc, &traces, &outcome, 64)?;
        assert_all_accepted(rt, alloc, &traces, &outcome)?;
        assert_own_senders(rt, &outcome, DEVICES, SENDERS);
        assert_logged(rt, alloc, &outcome)?;
    }
    Ok(())
}

#[test]
fn many_devices_with_one_pull_each(rt: HostRuntime) -> Result<(), Fault> {
    assert_rounds(&rt, rt.alloc(), 1)
}

#[test]
fn many_devices_with_ten_pulls_each(rt: HostRuntime) -> Result<(), Fault> {
    assert_rounds(&rt, rt.alloc(), 10)
}

#[test]
fn many_devices_with_a_hundred_pulls_each(rt: HostRuntime) -> Result<(), Fault> {
    assert_rounds(&rt, rt.alloc(), 100)
}

#[test]
fn many_devices_with_a_thousand_pulls_each(rt: HostRuntime) -> Result<(), Fault> {
    assert_rounds(&rt, rt.alloc(), 1000)
}

#[test]
fn many_devices_with_a_million_pulls_each(rt: HostRuntime) -> Result<(), Fault> {
    assert_rounds(&rt, rt.alloc(), 1_000_000)
}

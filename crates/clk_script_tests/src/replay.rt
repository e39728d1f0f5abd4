//! Visits that are made again as they are written.

use crate::random::Random;
use clk_packet::{FailingSink, Fault, FromRead};
use clk_report::visits_csv;
use clk_router::Router;
use clk_sched::{Keeps, Visit};
use clk_script::{Command, ScriptWriter, run_script_logged};
use clk_tree::Plan;
use std::alloc::Global;
use std::process::Abort;

/// Two devices: a Shaper over a DRRSched, which holds heads, and a PrioSched over a queue that evicts.
const TWO_DEVICES: &str = "s :: Sender(2); t :: Sender(3); u :: Sender(5); v :: Sender(7);
    p, q :: Queue(9); r :: FrontDropQueue(2); w :: Queue(1);
    x :: DRRSched(300, 200); y :: Shaper(2, 3); z :: PrioSched; d, e :: ToDevice(l);
    s -> p -> [0] x; t -> w -> [1] x; x -> [0] y; y -> d; u -> q -> [0] z; v -> r -> [1] z; z -> e;";

/// One device, over a StrideSched.
const ONE_DEVICE: &str =
    "s :: Sender(2); t :: Sender(3); p, q :: Queue(4); x :: StrideSched(3, 1); d :: ToDevice(l);
    s -> p -> [0] x; t -> q -> [1] x; x -> d;";

/// How many bytes a script, an answer or the visits have at most.
const ROOM: usize = 65_536;

/// How many commands a random script has.
const COMMANDS: u32 = 120;

/// How often a device is pulled at most until nothing is left.
const PULLS: u64 = 4_000;

// A router that keeps all its visits does a random command, and the command is recorded.
fn step(
    rt: &impl Abort,
    router: &mut Router,
    writer: &mut ScriptWriter,
    sink: &mut FailingSink,
    random: &mut Random,
    now: &mut u64,
) -> Result<(), Fault> {
    let place = usize::from(random.below(4));
    if random.below(2) == 0 && router.can_offer(place) {
        let (packet, _) = router.offer(place, 1 + random.below(900));
        let Some(&sender) = router.senders().get(place) else {
            return Ok(());
        };
        return writer.record(
            Command::Send {
                sender,
                length: packet.length,
            },
            sink,
        );
    }
    assert!(rt; *now < 1 << 30);
    *now += u64::from(random.below(2));
    let device = random.below(2);
    let moment = *now - u64::from(random.below(2)).min(*now);
    if !router.can_pull(device, moment) {
        return Ok(());
    }
    router.pull(device, moment)?;
    assert!(rt; moment < 1 << 40);
    writer.record(Command::Pull { device, moment }, sink)
}

// Pulls a device one tick apart, from a moment on, until nothing is left for it.
fn pull_empty(rt: &impl Abort, router: &mut Router, device: u16, moment: u64) -> Result<(), Fault> {
    assert!(rt; usize::from(device) < router.devices());
    let start = router.moment(device).max(moment);
    for later in 1..PULLS {
        assert!(rt; usize::from(device) < router.devices());
        if router.left(device) == 0 {
            return Ok(());
        }
        assert!(rt; start < 1 << 40);
        assert!(rt; router.can_pull(device, start + later));
        router.pull(device, start + later)?;
    }
    assert!(rt; false, "packets are left");
    Ok(())
}

// The visit CSV of a router that keeps all its visits.
fn csv_of(rt: &impl Abort, alloc: Global, router: &Router) -> Result<Vec<u8>, Fault> {
    let mut logs: Vec<Vec<Visit>> = Vec::new(alloc);
    for device in 0..router.devices() {
        assert!(rt; device < router.devices() && device < 3);
        logs.push(router.log(device as u16).to_vec(alloc)?)?;
    }
    let mut sink = FailingSink::new(vec![in alloc; 0; ROOM]?);
    visits_csv(&logs, &mut sink)?;
    Ok(sink.taken().to_vec(alloc)?)
}

// Fails unless a random script over a tree writes, at its end, the visits of the router that did the same.
fn assert_replayed(rt: &impl Abort, alloc: Global, tree: &str, seed: u32) -> Result<(), Fault> {
    let plan = Plan::read(alloc, tree.as_bytes())?;
    let mut router = Router::open(alloc, &plan, Keeps::ALL)?;
    let mut random = Random::new(seed);
    let mut writer = ScriptWriter::new();
    let mut script = FailingSink::new(vec![in alloc; 0; ROOM]?);
    let mut now = 0;
    for _ in 0..COMMANDS {
        step(
            rt,
            &mut router,
            &mut writer,
            &mut script,
            &mut random,
            &mut now,
        )?;
    }
    let drained = random.below(4) > 0;
    if drained {
        let moment = u64::from(random.below(90));
        for device in 0..2 {
            if usize::from(device) < router.devices() {
                pull_empty(rt, &mut router, device, moment)?;
            }
        }
        writer.finish_by_drain(moment, &mut script)?;
    } else {
        writer.finish(&mut script)?;
    }
    let expected = csv_of(rt, alloc, &router)?;
    assert_visits(rt, alloc, &plan, script.taken(), &expected)
}

// Fails unless these are the visits of a script, and a sink that fails takes a front of them.
fn assert_visits(
    rt: &impl Abort,
    alloc: Global,
    plan: &Plan,
    script: &[u8],
    expected: &[u8],
) -> Result<(), Fault> {
    for room in [0, 1, 60, 600, expected.len() / 2, expected.len()] {
        let mut answer = FailingSink::new(vec![in alloc; 0; ROOM]?);
        let replay = run_script_logged(alloc, &mut FromRead::new(script), &mut answer, plan)?;
        let mut sink = FailingSink::new(vec![in alloc; 0; room]?);
        let ended = replay.write(&mut sink);
        if room >= expected.len() {
            assert_eq!(rt; (ended, sink.taken()), (Ok(()), expected));
        } else {
            assert_eq!(rt; ended, Err(Fault::Write));
            assert!(rt; expected.starts_with(sink.taken()));
        }
    }
    Ok(())
}

#[test]
fn visits_are_those_of_a_router_that_keeps_them(rt: HostRuntime) -> Result<(), Fault> {
    for seed in 0..12 {
        assert_replayed(&rt, rt.alloc(), TWO_DEVICES, seed)?;
        assert_replayed(&rt, rt.alloc(), ONE_DEVICE, 77 + seed)?;
    }
    Ok(())
}

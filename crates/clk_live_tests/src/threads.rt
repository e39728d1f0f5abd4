//! Senders on threads of their own, and the live router on the test's.

use crate::seen::{Seen, assert_settled, take_and_pull};
use crate::senders::{Gate, Job, PACKETS, SENDERS, send, send_through};
use crate::steps::{EMPTY_SLOT, token_of};
use clk_live::Live;
use clk_packet::Fault;
use clk_tree::Plan;
use std::alloc::{AllocError, Global};
use std::sync::Wait;
use std::test::Fail;
use std::thread;
use std::thread::Threads;

/// Queues that are soon full, of which one refuses and another evicts, below a DRRSched that holds heads.
pub const LOSSY: &str = "a :: Sender(2); b :: Sender(4); c :: Sender(6); e :: Sender(8);
    q :: Queue(4); f :: FrontDropQueue(3); g :: Queue(2);
    x :: DRRSched(500); y :: PrioSched; d :: ToDevice(link);
    a -> q -> [0] x; b -> f -> [1] x; c -> f; e -> g -> [1] y; x -> [0] y; y -> d;";

// A small queue for each sender but one, and a RoundRobinSched.
const SMALL: &str = "a :: Sender(2); b :: Sender(4); c :: Sender(6); e :: Sender(8);
    p :: Queue(1); q :: Queue(2); f :: FrontDropQueue(1); x :: RoundRobinSched; d :: ToDevice(link);
    a -> p -> [0] x; b -> q -> [1] x; c -> f -> [2] x; e -> q; x -> d;";

const ONE: &str = "s :: Sender(3); q :: Queue; d :: ToDevice(link); s -> q -> d;";

// A live router over the plan of a text, and what each sender's thread has.
fn opened(alloc: Global, text: &str) -> Result<(Live, Vec<Job>), Fault> {
    let plan = Plan::read(alloc, text.as_bytes())?;
    let (live, inlets) = Live::open(alloc, &plan, 16)?;
    let mut jobs = Vec::new(alloc);
    for (inlet, (sender, packets)) in inlets.into_iter().zip(SENDERS) {
        jobs.push(Job {
            inlet,
            sender,
            packets,
        })?;
    }
    Ok((live, jobs))
}

// All that a live router takes and emits until its senders have ended.
fn take_all(
    rt: &impl Wait,
    alloc: Global,
    live: Live,
    only_fitting: bool,
) -> Result<Seen, AllocError> {
    let mut live = live;
    let mut seen = Seen::none(alloc);
    take_and_pull(rt, &mut live, only_fitting, usize::MAX, &mut seen)?;
    Ok(seen)
}

// Runs the senders on threads of their own, and takes and pulls on this one.
fn run<R: Threads + Wait + Sync>(
    rt: &R,
    alloc: Global,
    text: &str,
    only_fitting: bool,
) -> Result<(Vec<u32>, Seen), Fault> {
    let (live, jobs) = opened(alloc, text)?;
    let (accepted, seen) = thread::join(
        rt,
        || thread::map_vec(rt, jobs, &|job| send(rt, job)),
        || take_all(rt, alloc, live, only_fitting),
    );
    Ok((accepted?, seen?))
}

#[test]
fn each_token_comes_back_once(rt: HostRuntime) -> Result<(), Fault> {
    let (accepted, seen) = run(&rt, rt.alloc(), LOSSY, false)?;
    assert_eq!(rt; accepted.as_slice(), SENDERS.map(|it| it.1).as_slice());
    assert_settled(&rt, rt.alloc(), &seen)?;
    Ok(())
}

#[test]
fn full_queues_hold_senders_back(rt: HostRuntime) -> Result<(), Fault> {
    let (_, seen) = run(&rt, rt.alloc(), SMALL, true)?;
    assert_settled(&rt, rt.alloc(), &seen)?;
    assert_eq!(rt; seen.emitted.len(), 3 * PACKETS as usize);
    Ok(())
}

// Emits the first packet, and opens the gate once no packet is left and no sender has ended. Then it emits all. Returns what was emitted,
// and whether the router was idle and not ended when the gate was opened.
fn open_gate(
    rt: &impl Wait,
    alloc: Global,
    live: Live,
    gate: &Gate,
) -> Result<(Seen, bool), AllocError> {
    let mut live = live;
    let mut seen = Seen::none(alloc);
    take_and_pull(rt, &mut live, false, 1, &mut seen)?;
    let is_idle = live.take_in(2, &mut [EMPTY_SLOT]) == 0 && live.is_drained() && !live.is_ended();
    gate.open();
    take_and_pull(rt, &mut live, false, usize::MAX, &mut seen)?;
    Ok((seen, is_idle))
}

#[test]
fn a_sender_is_waited_for(rt: HostRuntime) -> Result<(), Fail> {
    let plan = Plan::read(rt.alloc(), ONE.as_bytes()).expect(&rt, "a plan");
    let (live, inlets) = Live::open(rt.alloc(), &plan, 1).expect(&rt, "a live router");
    let inlet = inlets.into_iter().next().expect(&rt, "an inlet");
    let gate = Gate::shut();
    let (sent, seen) = thread::join(
        &rt,
        || send_through(&rt, inlet, 3, &gate),
        || open_gate(&rt, rt.alloc(), live, &gate),
    );
    let (seen, is_idle) = seen?;
    assert!(rt; sent && is_idle);
    let numbers = [0, 1].map(|number| token_of(3, number));
    assert!(rt; seen.emitted.iter().map(|one| one.token).eq(numbers));
    Ok(())
}

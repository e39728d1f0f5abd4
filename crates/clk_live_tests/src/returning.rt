//! Senders whose threads return their inlets, and a live router that is settled beside them.

ghost use Rattle.std.specs.Prelude.{◌≡◌, [], ◌∷◌, map, IfOk, IfSome};
ghost use Rattle.std.specs.List.{AllByRecursion, AllZip};
ghost use Rattle.clk_inlet.specs.Halves.{offered, AreHalves};
ghost use Rattle.clk_live.specs.State.{seen, AllGoOn};
ghost use Rattle.clk_live.specs.Outcome.{IsLiveOutcome};
ghost use Rattle.clk_live.specs.Sending.{HasSent};

use crate::seen::{Seen, assert_settled, take_and_pull};
use crate::senders::{SENDERS, length_of};
use crate::steps::token_of;
use crate::threads::LOSSY;
use clk_inlet::{Inlet, Item, Refusal};
use clk_live::Live;
use clk_packet::Fault;
use clk_tree::Plan;
use std::alloc::{AllocError, Global};
use std::process::Abort;
use std::snapshot::Snapshot;
use std::sync::Wait;
use std::thread;
use std::thread::{Promise, PromisedHandle, Scope, Threads};

/// What a sender's thread gets: its inlet, and the packets that it sends.
#[derive(Drop)]
struct Sender {
    inlet: Inlet,
    packets: Vec<Item>,
}

/// What a sender's thread promises: it gives its inlet back, and has sent all its packets through it.
#[derive(Drop)]
struct Sending {
    inlet: Snapshot<Inlet>,
    packets: Snapshot<Vec<Item>>,
}

impl Promise<Inlet> for Sending {
    ghost use Rattle.clk_live.specs.Sending.{HasSent};

    ghost kept_by = { λ p inlet. HasSent p.inlet.value p.packets.value.items inlet };
}

// Offers a packet until it is accepted.
fn offer<R: Wait + Abort>(rt: &R, inlet: &mut Inlet, packet: Item)
    ensures sent { HasSent inlet.old (packet ∷ []) inlet.new }
{
    assert!(rt; packet.is_packet());
    for _ in rt.forever() {
        match inlet.offer(packet.bytes(), packet.token) {
            Ok(_) => return,
            Err(refusal) => assert_eq!(rt; refusal, Refusal::Full),
        }
        thread::yield_now();
    }
    unreachable!()
}

// Sends all packets of a sender, ends its inlet, and returns it.
fn send_all<R: Wait + Abort>(rt: &R, sender: Sender) -> Inlet
    ensures sent { HasSent sender.inlet sender.packets.items result }
{
    let Sender { mut inlet, packets } = sender;
    for packet in packets {
        offer(rt, &mut inlet, packet);
    }
    inlet.end();
    inlet
}

// Starts a sender's thread.
fn start<'s, E, R: Wait + Abort + Sync>(
    rt: &'s R,
    scope: &Scope<'s, E>,
    sender: Sender,
) -> Result<PromisedHandle<Inlet, Sending>, AllocError>
    ensures started { IfOk result (λ handle. (handle.promise.inlet.value ≡ sender.inlet) × (handle.promise.packets.value.items ≡ sender.packets.items)) }
{
    let promise = Sending {
        inlet: Snapshot::of(&sender.inlet),
        packets: Snapshot::of(&sender.packets),
    };
    let send = move || -> Inlet
        ensures { HasSent sender.inlet sender.packets.items result }
    { send_all(rt, sender) };
    Ok(scope.spawn_with(promise, send)?)
}

// Starts a thread for each sender.
fn start_all<'s, E, R: Wait + Abort + Sync>(
    rt: &'s R,
    scope: &Scope<'s, E>,
    alloc: Global,
    senders: Vec<Sender>,
) -> Result<Vec<PromisedHandle<Inlet, Sending>>, AllocError>
    ensures started { IfOk result (λ handles. AllZip (λ sender handle. (handle.promise.inlet.value ≡ sender.inlet) × (handle.promise.packets.value.items ≡ sender.packets.items)) senders.items handles.items) }
{
    let mut handles = Vec::new(alloc);
    for sender in senders {
        handles.push(start(rt, scope, sender)?)?;
    }
    Ok(handles)
}

// Joins the threads of senders, and returns their inlets.
fn join_all(
    rt: &impl Threads,
    alloc: Global,
    handles: Vec<PromisedHandle<Inlet, Sending>>,
) -> Result<Vec<Inlet>, AllocError>
    ensures sent { IfOk result (λ inlets. AllZip (λ handle inlet. HasSent handle.promise.inlet.value handle.promise.packets.value.items inlet) handles.items inlets.items) }
{
    let mut inlets = Vec::new(alloc);
    for handle in handles {
        inlets.push(handle.join(rt))?;
    }
    Ok(inlets)
}

/// What a run returns.
#[derive(Drop)]
struct Ended {
    live: Live,
    inlets: Vec<Inlet>,
    seen: Seen,
}

// Runs each sender on a thread of its own and the live router on this, until all is taken and emitted.
fn run<R: Threads + Wait + Abort + Sync>(
    rt: &R,
    alloc: Global,
    live: Live,
    senders: Vec<Sender>,
) -> Result<Ended, AllocError>
    ensures outlets { IfOk result (λ ended. AllGoOn live.outlets ended.live.outlets) }
    ensures sent { IfOk result (λ ended. AllZip (λ sender inlet. HasSent sender.inlet sender.packets.items inlet) senders.items ended.inlets.items) }
{
    thread::scope(
        thread::scope_env(),
        rt,
        move |scope| -> Result<Ended, AllocError>
            ensures { IfOk result (λ ended. AllGoOn live.outlets ended.live.outlets × AllZip (λ sender inlet. HasSent sender.inlet sender.packets.items inlet) senders.items ended.inlets.items) }
        {
            let mut live = live;
            let mut seen = Seen::none(alloc);
            // If a thread cannot be started, its inlet ends, and those that run are still served.
            let handles = start_all(rt, scope, alloc, senders);
            take_and_pull(rt, &mut live, false, usize::MAX, &mut seen)?;
            let handles = handles?;
            let inlets = join_all(rt, alloc, handles)?;
            Ok(Ended { live, inlets, seen })
        },
    )
}

// Sends all packets from threads. Returns `None` unless all of them were taken, with their tokens, and are settled once the inlets are
// back.
fn send_and_settle<R: Threads + Wait + Abort + Sync>(
    rt: &R,
    alloc: Global,
    live: Live,
    senders: Vec<Sender>,
) -> Result<Option<(Live, Seen)>, AllocError>
    requires halves { AllZip AreHalves (map (λ sender. sender.inlet) senders.items) live.outlets }
    requires none { AllByRecursion (λ inlet. offered inlet ≡ []) (map (λ sender. sender.inlet) senders.items) }
    ensures outcome { IfOk result (λ settled. IfSome settled (λ r. IsLiveOutcome r.0.course (map (λ sender. sender.packets.items) senders.items))) }
    ensures taken { IfOk result (λ settled. IfSome settled (λ r. (seen r.0).items ≡ map (λ sender. sender.packets.items) senders.items)) }
{
    let Ended {
        mut live,
        mut inlets,
        seen,
    } = run(rt, alloc, live, senders)?;
    if !live.is_settled(inlets.as_mut_slice()) {
        return Ok(None);
    }
    Ok(Some((live, seen)))
}

// The packets that a sender sends.
fn packets_of(alloc: Global, sender: u16, count: u32) -> Result<Vec<Item>, AllocError> {
    let mut packets = Vec::new(alloc);
    for number in 0..count {
        packets.push(Item {
            token: token_of(sender, number),
            length: u32::from(length_of(number)),
        })?;
    }
    Ok(packets)
}

// What each sender's thread gets, by the places of these inlets.
fn senders_with(
    rt: &impl Abort,
    alloc: Global,
    inlets: Vec<Inlet>,
) -> Result<Vec<Sender>, AllocError>
    ensures inlets { IfOk result (λ senders. map (λ sender. sender.inlet) senders.items ≡ inlets.items) }
{
    let mut senders = Vec::new(alloc);
    for inlet in inlets {
        let (sender, count) = *SENDERS.get(senders.len()).expect(rt, "a sender");
        let packets = packets_of(alloc, sender, count)?;
        senders.push(Sender { inlet, packets })?;
    }
    Ok(senders)
}

// A live router over the plan of a text, and what each sender's thread gets.
fn opened(rt: &impl Abort, alloc: Global, text: &str) -> Result<(Live, Vec<Sender>), Fault>
    ensures halves { IfOk result (λ r. AllZip AreHalves (map (λ sender. sender.inlet) r.1.items) r.0.outlets) }
    ensures none { IfOk result (λ r. AllByRecursion (λ inlet. offered inlet ≡ []) (map (λ sender. sender.inlet) r.1.items)) }
{
    let plan = Plan::read(alloc, text.as_bytes())?;
    let (live, inlets) = Live::open(alloc, &plan, 16)?;
    let senders = senders_with(rt, alloc, inlets)?;
    Ok((live, senders))
}

#[test]
fn all_that_was_sent_is_settled(rt: HostRuntime) -> Result<(), Fault> {
    let (live, senders) = opened(&rt, rt.alloc(), LOSSY)?;
    let settled = send_and_settle(&rt, rt.alloc(), live, senders)?;
    let (_, seen) = settled.expect(&rt, "a settled router");
    assert_settled(&rt, rt.alloc(), &seen)?;
    Ok(())
}

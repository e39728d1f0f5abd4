//! The threads of a run: one for each sender, and the consumer on the calling thread.

ghost use Rattle.std.specs.Prelude.{◌≡◌, ◌≤◌, IfOk};
ghost use Rattle.std.specs.List.{AllZip};
ghost use Rattle.clk_gate.specs.declared.limits.TheConstants.{MAX_LIMIT, MAX_STEP};
ghost use Rattle.clk_packet.specs.Trace.{sent_by};
ghost use Rattle.clk_live.specs.Sending.{HasSent};
ghost use Rattle.clk_live_run.specs.inside.Consuming.{items_of, commands_of, HasConsumed, HasPaced};
ghost use Rattle.clk_live_run.specs.inside.Recording.{LeadsOn};
ghost use Rattle.clk_live_run.specs.inside.Sending.{IsStarted, GaveBack, HasSentAll};

use crate::consumer::RecordedLive;
use crate::senders::{SenderInlet, send_all};
use clk_gate::Gate;
use clk_inlet::Inlet;
use clk_packet::{Sink, Traces};
use std::alloc::{AllocError, Global};
use std::snapshot::Snapshot;
use std::sync::Wait;
use std::thread;
use std::thread::{Promise, PromisedHandle, Scope, Threads};

/// What the threads of a run share: what is sent, when devices are pulled, and the gate.
#[derive(Drop)]
pub struct LiveTerms<'a, P: Wait, G: Gate> {
    pub wait: &'a P,
    pub traces: &'a Traces,
    pub gate: &'a G,
    /// How many ticks lie between two pulls of a device.
    pub step: u32,
    /// How often a device is pulled at most while senders send.
    pub limit: u32,
}

/// What a sender's thread promises: it gives its inlet back, through which it has sent all that the sender sends.
#[derive(Drop)]
pub struct SenderEnd {
    traces: Snapshot<Traces>,
    number: u16,
    inlet: Snapshot<Inlet>,
}

impl Promise<Inlet> for SenderEnd {
    ghost use Rattle.clk_packet.specs.Trace.{sent_by};
    ghost use Rattle.clk_live.specs.Sending.{HasSent};
    ghost use Rattle.clk_live_run.specs.inside.Consuming.{items_of};

    ghost kept_by = { λ p inlet. HasSent p.inlet.value (items_of (sent_by p.traces.value p.number)) inlet };
}

// Starts a sender's thread. What threads share is lent piece by piece, so that contracts see what the closure captures.
fn start<'s, E, P: Wait + Sync, G: Gate + Sync>(
    scope: &Scope<'s, E>,
    terms: &'s LiveTerms<'s, P, G>,
    sender: SenderInlet,
) -> Result<PromisedHandle<Inlet, SenderEnd>, AllocError>
    ensures traces { IfOk result (λ handle. handle.promise.traces.value ≡ terms.now.traces.now) }
    ensures number { IfOk result (λ handle. handle.promise.number ≡ sender.number) }
    ensures inlet { IfOk result (λ handle. handle.promise.inlet.value ≡ sender.inlet) }
{
    let SenderInlet { number, inlet } = sender;
    let (wait, traces, gate) = (terms.wait, terms.traces, terms.gate);
    let promise = SenderEnd {
        traces: Snapshot::of(traces),
        number,
        inlet: Snapshot::of(&inlet),
    };
    let send = move || -> Inlet
        ensures { HasSent inlet (items_of (sent_by traces.entry.now number)) result }
    { send_all(wait, traces, gate, number, inlet) };
    Ok(scope.spawn_with(promise, send)?)
}

// Starts a thread for each sender.
fn start_all<'s, E, P: Wait + Sync, G: Gate + Sync>(
    scope: &Scope<'s, E>,
    alloc: Global,
    terms: &'s LiveTerms<'s, P, G>,
    senders: Vec<SenderInlet>,
) -> Result<Vec<PromisedHandle<Inlet, SenderEnd>>, AllocError>
    ensures started { IfOk result (λ handles. AllZip (IsStarted terms.now.traces.now) senders.items handles.items) }
{
    let mut handles = Vec::new(alloc);
    for sender in senders {
        handles.push(start(scope, terms, sender)?)?;
    }
    Ok(handles)
}

// Joins the threads of senders, and returns their inlets.
fn join_all<R: Threads>(
    rt: &R,
    alloc: Global,
    handles: Vec<PromisedHandle<Inlet, SenderEnd>>,
) -> Result<Vec<Inlet>, AllocError>
    ensures sent { IfOk result (λ inlets. AllZip GaveBack handles.items inlets.items) }
{
    let mut inlets = Vec::new(alloc);
    for handle in handles {
        inlets.push(handle.join(rt))?;
    }
    Ok(inlets)
}

/// What a run has after all its threads have ended.
#[derive(Drop)]
pub struct Ended<R: Sink + Drop> {
    pub consumer: RecordedLive<R>,
    pub inlets: Vec<Inlet>,
}

/// Runs each sender on a thread of its own and the consumer on this one, until all that is sent is taken.
///
/// # Errors
///
/// Fails if an allocation or the start of a thread fails. All threads have ended then, too.
pub fn run_threads<H: Threads + Wait, P: Wait + Sync, G: Gate + Sync, R: Sink + Drop>(
    rt: &H,
    alloc: Global,
    terms: &LiveTerms<P, G>,
    consumer: RecordedLive<R>,
    senders: Vec<SenderInlet>,
) -> Result<Ended<R>, AllocError>
    requires step { terms.now.step ≤ MAX_STEP }
    requires limit { terms.now.limit ≤ MAX_LIMIT }
    requires unpulled { HasPaced terms.now.step 0 consumer.live }
    ensures consumed { IfOk result (λ ended. HasConsumed terms.now.step terms.now.limit consumer.live ended.consumer.live) }
    ensures recorded { IfOk result (λ ended. LeadsOn consumer.recording ended.consumer.recording (commands_of consumer.live.course) (commands_of ended.consumer.live.course)) }
    ensures sent { IfOk result (λ ended. AllZip (HasSentAll terms.now.traces.now) senders.items ended.inlets.items) }
{
    thread::scope(
        thread::scope_env(),
        rt,
        move |scope| -> Result<Ended<R>, AllocError>
            requires { (terms.now.step ≤ MAX_STEP) × (terms.now.limit ≤ MAX_LIMIT) × HasPaced terms.now.step 0 consumer.live }
            ensures { IfOk result (λ ended. HasConsumed terms.entry.now.step terms.entry.now.limit consumer.live ended.consumer.live × AllZip (HasSentAll terms.entry.now.traces.now) senders.items ended.inlets.items
                × LeadsOn consumer.recording ended.consumer.recording (commands_of consumer.live.course) (commands_of ended.consumer.live.course)) }
        {
            let mut consumer = consumer;
            // If a thread cannot be started, its inlet ends, and those that run are still served.
            let handles = start_all(scope, alloc, terms, senders);
            consumer.consume(terms.wait, terms.step, terms.limit, terms.gate);
            let inlets = join_all(rt, alloc, handles?)?;
            Ok(Ended { consumer, inlets })
        },
    )
}

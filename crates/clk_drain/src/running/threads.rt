//! The threads of a run: a producer for each sender, and a consumer for each device from the second on.

ghost use Rattle.std.specs.Prelude.{◌≡◌, [], length, IfOk, IsOkUnless};
ghost use Rattle.std.specs.List.{AllZip};
ghost use Rattle.clk_packet.specs.declared.fault.Fault.TheVariants.{Memory};
ghost use Rattle.clk_packet.specs.Trace.{sent_by};
ghost use Rattle.clk_ruled.specs.Queue.{IsSeatOf};
ghost use Rattle.clk_ruled.specs.Closing.{IsClosedOf};
ghost use Rattle.clk_drain.specs.Closing.{AreOffered};
ghost use Rattle.clk_drain.specs.inside.Threads.{IsUnused, HaveSentAll, IsUnpulled, IsPulled};
ghost use Rattle.clk_drain.specs.inside.Handed.{FitPlaces, AreAllUnused, AreLeft, IsUnpulledOver, HasDeviceSent, HavePulled};

use crate::running::consumer::Consumer;
use crate::running::opening::{Ends, LeafQueue};
use crate::running::producer::send_all;
use crate::running::terms::RunTerms;
use clk_gate::Gate;
use clk_packet::{Fault, Traces};
use clk_ruled::{ClosedSeat, Seat};
use std::alloc::{AllocError, Global};
use std::snapshot::Snapshot;
use std::sync::Wait;
use std::thread::{Promise, PromisedHandle, Scope, Threads};
use std::{mem, thread};

/// What a producer's thread promises to return: its seat, closed after all was offered.
#[derive(Drop)]
pub struct ProducerEnd {
    traces: Snapshot<Traces>,
    seat: Snapshot<Seat>,
}

impl Promise<ClosedSeat> for ProducerEnd {
    ghost use Rattle.clk_packet.specs.Trace.{sent_by};
    ghost use Rattle.clk_ruled.specs.Closing.{IsClosedOf};
    ghost use Rattle.clk_drain.specs.Closing.{AreOffered};

    ghost kept_by = { λ p closed. IsClosedOf p.seat.value closed × AreOffered (sent_by p.traces.value p.seat.value.sender) closed.lists };
}

/// What a consumer's thread promises to return: the consumer, after its pulls.
#[derive(Drop)]
pub struct Pulling<'a, W: Wait, G: Gate> {
    terms: Snapshot<RunTerms<'a, W, G>>,
    consumer: Snapshot<Consumer<'a, W>>,
}

impl<'a, W: Wait, G: Gate> Promise<Result<Consumer<'a, W>, Fault>> for Pulling<'a, W, G> {
    ghost use Rattle.std.specs.Prelude.{IfOk, IsOkUnless};
    ghost use Rattle.clk_packet.specs.declared.fault.Fault.TheVariants.{Memory};
    ghost use Rattle.clk_drain.specs.inside.Threads.{IsPulled};

    ghost kept_by = { λ p result. IfOk result (IsPulled p.terms.value p.consumer.value) × IsOkUnless result Memory };
}

// Starts a producer's thread. What it shares is lent piece by piece: of a closure that captures `RunTerms` contracts don't know the result.
fn start_sending<'s, E, W: Wait + Sync, G: Gate + Sync>(
    scope: &Scope<'s, E>,
    terms: &'s RunTerms<'s, W, G>,
    at: &'s LeafQueue,
    seat: Seat,
) -> Result<PromisedHandle<ClosedSeat, ProducerEnd>, AllocError>
    requires unused { IsUnused terms.now at.now.queue seat }
    ensures traces { IfOk result (λ handle. handle.promise.traces.value ≡ terms.now.traces) }
    ensures seat { IfOk result (λ handle. handle.promise.seat.value ≡ seat) }
{
    let LeafQueue { queue, baton, .. } = at;
    let (wait, traces, gate, through) = (terms.wait, terms.traces, terms.gate, &terms.through);
    let promise = ProducerEnd {
        traces: Snapshot::of(traces),
        seat: Snapshot::of(&seat),
    };
    let send = move || -> ClosedSeat
        requires { IsSeatOf queue.now seat × AreOffered [] seat × (seat.room ≡ length (sent_by traces.now seat.sender)) }
        ensures { IsClosedOf seat result × AreOffered (sent_by traces.entry.now seat.sender) result.lists }
    { send_all(wait, traces, gate, through, queue, baton, seat) };
    Ok(scope.spawn_with(promise, send)?)
}

// Starts a consumer's thread.
fn start_pulling<'s, E, W: Wait + Sync, G: Gate + Sync>(
    scope: &Scope<'s, E>,
    terms: &'s RunTerms<'s, W, G>,
    consumer: Consumer<'s, W>,
) -> Result<PromisedHandle<Result<Consumer<'s, W>, Fault>, Pulling<'s, W, G>>, AllocError>
    requires unpulled { IsUnpulled consumer }
    ensures terms { IfOk result (λ handle. handle.promise.terms.value ≡ terms.now) }
    ensures consumer { IfOk result (λ handle. handle.promise.consumer.value ≡ consumer.entry) }
{
    let promise = Pulling {
        terms: Snapshot::of(terms),
        consumer: Snapshot::of(&consumer),
    };
    let pull = move || -> Result<Consumer<W>, Fault>
        requires { IsUnpulled consumer }
        ensures { IfOk result (IsPulled terms.entry.now consumer.entry) × IsOkUnless result Fault.Memory }
    { consumer.pull_all(terms) };
    Ok(scope.spawn_with(promise, pull)?)
}

/// Runs a producer for each seat and a consumer for each device, each but the first consumer on a thread of its own, and joins them.
///
/// # Errors
///
/// Fault 1 if an allocation fails or a thread can't be started. All threads have ended then too.
pub fn run_threads<R: Threads + Wait, W: Wait + Sync, G: Gate + Sync>(
    rt: &R,
    alloc: Global,
    terms: &RunTerms<W, G>,
    queues: &[Vec<LeafQueue>],
    seats: Vec<Vec<Vec<Seat>>>,
    ends: Vec<Ends>,
) -> Result<Returned, Fault>
    requires unused { FitPlaces (AreAllUnused terms.now) seats.items queues.now }
    requires unpulled { FitPlaces IsUnpulledOver ends.items queues.now }
    ensures sent { IfOk result (λ sent. AllZip (HasDeviceSent terms.now) seats.items sent.devices.items) }
    ensures pulled { IfOk result (λ sent. HavePulled terms.now ends.items sent.ends.items queues.now) }
    ensures fault { IsOkUnless result Fault.Memory }
{
    let left = Left {
        terms,
        lent: queues,
        devices: seats,
        queues: Vec::new(alloc),
        seats: Vec::new(alloc),
    };
    thread::scope(
        thread::scope_env(),
        rt,
        move |scope| -> Result<Returned, Fault>
            requires { AreLeft left.terms.now left.lent.now left.devices left.queues left.seats × FitPlaces IsUnpulledOver ends.items left.lent.now }
            ensures { IfOk result (λ sent. AllZip (HasDeviceSent left.entry.terms.now) left.entry.devices.items sent.devices.items × HavePulled left.entry.terms.now ends.items sent.ends.items left.entry.lent.now) × IsOkUnless result Fault.Memory }
        { send_and_pull(rt, scope, alloc, left, ends) },
    )
}

/// What is left to start: a producer for each of these seats, which are those of devices, those of queues of the next device, and those of
/// its next queue. Beside them stands what the threads share. (Contracts don't know the result of a closure that captures `RunTerms`
/// itself.)
#[derive(Drop)]
pub struct Left<'a, W: Wait, G: Gate> {
    pub terms: &'a RunTerms<'a, W, G>,
    /// The queues of all devices.
    pub lent: &'a [Vec<LeafQueue>],
    pub devices: Vec<Vec<Vec<Seat>>>,
    pub queues: Vec<Vec<Seat>>,
    pub seats: Vec<Seat>,
}

/// What the threads of a run return: the seats, closed, as they stood in `Left`, and for each device its session and taps.
#[derive(Drop)]
pub struct Returned {
    pub devices: Vec<Vec<Vec<ClosedSeat>>>,
    pub queues: Vec<Vec<ClosedSeat>>,
    pub seats: Vec<ClosedSeat>,
    pub ends: Vec<Ends>,
}

// Runs each producer and each consumer on a thread of its own, except the first consumer, which runs on this thread. Fault 1 if an
// allocation fails or a thread can't be started. The threads that were started are joined then too.
fn send_and_pull<'s, E, R: Threads, W: Wait + Sync, G: Gate + Sync>(
    rt: &R,
    scope: &Scope<'s, E>,
    alloc: Global,
    left: Left<'s, W, G>,
    ends: Vec<Ends>,
) -> Result<Returned, Fault>
    requires left { AreLeft left.terms.now left.lent.now left.devices left.queues left.seats }
    requires unpulled { FitPlaces IsUnpulledOver ends.items left.lent.now }
    ensures devices { IfOk result (λ sent. AllZip (HasDeviceSent left.entry.terms.now) left.entry.devices.items sent.devices.items) }
    ensures queues { IfOk result (λ sent. AllZip (HaveSentAll left.entry.terms.now) left.entry.queues.items sent.queues.items) }
    ensures seats { IfOk result (λ sent. HaveSentAll left.entry.terms.now left.entry.seats sent.seats) }
    ensures pulled { IfOk result (λ sent. HavePulled left.entry.terms.now ends.items sent.ends.items left.entry.lent.now) }
    ensures fault { IsOkUnless result Fault.Memory }
{
    let mut left = left;
    if let Some(seat) = left.seats.pop() {
        let at = &left.lent[left.devices.len()][left.queues.len()];
        let handle = start_sending(scope, left.terms, at, seat)?;
        let sent = send_and_pull(rt, scope, alloc, left, ends);
        let seat = handle.join(rt);
        let mut sent = sent?;
        sent.seats.push(seat)?;
        return Ok(sent);
    }
    if let Some(seats) = left.queues.pop() {
        left.seats = seats;
        let mut sent = send_and_pull(rt, scope, alloc, left, ends)?;
        let seats = mem::replace(&mut sent.seats, Vec::new(alloc));
        sent.queues.push(seats)?;
        return Ok(sent);
    }
    if let Some(its_queues) = left.devices.pop() {
        left.queues = its_queues;
        let mut sent = send_and_pull(rt, scope, alloc, left, ends)?;
        let its_queues = mem::replace(&mut sent.queues, Vec::new(alloc));
        sent.devices.push(its_queues)?;
        return Ok(sent);
    }
    Ok(Returned {
        devices: Vec::new(alloc),
        queues: Vec::new(alloc),
        seats: Vec::new(alloc),
        ends: pull_each(rt, scope, alloc, left.terms, left.lent, ends)?,
    })
}

// Runs a consumer for each device on a thread of its own, except the first, which runs on this thread.
fn pull_each<'s, E, R: Threads, W: Wait + Sync, G: Gate + Sync>(
    rt: &R,
    scope: &Scope<'s, E>,
    alloc: Global,
    terms: &'s RunTerms<'s, W, G>,
    queues: &'s [Vec<LeafQueue>],
    ends: Vec<Ends>,
) -> Result<Vec<Ends>, Fault>
    requires unpulled { FitPlaces IsUnpulledOver ends.items queues.now }
    ensures pulled { IfOk result (λ pulled. HavePulled terms.now ends.items pulled.items queues.now) }
    ensures fault { IsOkUnless result Fault.Memory }
{
    let mut ends = ends;
    let Some(its_ends) = ends.pop() else {
        return Ok(ends);
    };
    let consumer = Consumer::new(alloc, terms.wait, &queues[ends.len()], its_ends)?;
    if ends.is_empty() {
        ends.push(consumer.pull_all(terms)?.into_ends(alloc)?)?;
        return Ok(ends);
    }
    let handle = start_pulling(scope, terms, consumer)?;
    let pulled = pull_each(rt, scope, alloc, terms, queues, ends);
    let consumer = handle.join(rt);
    let mut pulled = pulled?;
    pulled.push(consumer?.into_ends(alloc)?)?;
    Ok(pulled)
}

//! Seats of one queue, each in a thread of its own, and the tap in the test's.

ghost use Rattle.std.specs.Prelude.{◌≡◌, ◌+◌, ◌<◌, ◌≤◌, IfOk};
ghost use Rattle.clk_packet.specs.declared.limits.TheConstants.{MAX_CAPACITY};
ghost use Rattle.clk_packet.specs.Lists.{AreRising};
ghost use Rattle.clk_ruled.specs.Rooms.{named_in, rooms_in_all};
ghost use Rattle.clk_ruled.specs.Queue.{IsSeatOf, IsTapOf};
ghost use Rattle.clk_ruled.specs.Closing.{IsSameSeat, IsClosedOf, AreClosedOf, AreSeatsOf};

mod fates;
mod meeting;

use crate::shared::{assert_packets, assert_tally};
use clk_packet::{Kind, Packet, Tally};
use clk_ruled::{ClosedSeat, Opened, RuledQueue, Seat, Tap, settle};
use fates::{PutOut, ROOM, assert_shared, assert_taken, tally_of};
use meeting::Meeting;
use std::alloc::{AllocError, Global};
use std::process::Abort;
use std::snapshot::Snapshot;
use std::sync::Wait;
use std::test::Fail;
use std::thread;
use std::thread::{Promise, PromisedHandle, Scope, Threads};

// The packet of this number from this sender.
fn packet(sender: u16, number: u32) -> Packet
    ensures own { result.sender ≡ sender }
    ensures number { result.number ≡ number }
{
    Packet {
        number,
        sender,
        length: 1 + (number % 1500) as u16,
    }
}

// Offers the seat's next packet.
fn offer_next(wait: &impl Wait, queue: &RuledQueue, seat: &mut Seat)
    requires together { IsSeatOf queue.now seat.old }
    requires room { seat.old.next < seat.old.room }
    ensures same { IsSameSeat seat.old seat.new }
    ensures next { seat.new.next ≡ seat.old.next + 1 }
{
    let packet = packet(seat.sender(), seat.next());
    let _ = seat.offer(queue, wait, packet);
}

// Offers all that the seat may still offer.
fn offer_rest(wait: &impl Wait, queue: &RuledQueue, seat: &mut Seat)
    requires together { IsSeatOf queue.now seat.old }
    ensures same { IsSameSeat seat.old seat.new }
{
    while seat.next() < seat.room() {
        offer_next(wait, queue, seat);
    }
}

// Offers the first packet of a seat, waits until each sender has, and offers the rest. Then it closes the seat.
fn send_all<R: Wait + Abort>(
    rt: &R,
    queue: &RuledQueue,
    meeting: &Meeting,
    seat: Seat,
) -> ClosedSeat
    requires together { IsSeatOf queue.now seat }
    ensures closed { IsClosedOf seat result }
{
    let mut seat = seat;
    if seat.next() < seat.room() {
        offer_next(rt, queue, &mut seat);
    }
    meeting.wait_for_all(rt);
    offer_rest(rt, queue, &mut seat);
    let seat = seat.close();
    meeting.leave();
    seat
}

// Pulls once, and returns whether a packet came.
fn pull_one(wait: &impl Wait, queue: &RuledQueue, tap: &mut Tap) -> bool
    requires together { IsTapOf queue.now tap.old }
    ensures same { (tap.new.id ≡ tap.old.id) × (tap.new.setup ≡ tap.old.setup) }
{
    match tap.pull(queue, wait) {
        None => false,
        Some(_) => true,
    }
}

// Pulls until all seats are closed and a last pull returns none.
fn pull_all(wait: &impl Wait, queue: &RuledQueue, meeting: &Meeting, tap: &mut Tap)
    requires together { IsTapOf queue.now tap.old }
    ensures same { (tap.new.id ≡ tap.old.id) × (tap.new.setup ≡ tap.old.setup) }
{
    for _ in wait.forever() {
        let last = meeting.is_over();
        if !pull_one(wait, queue, tap) && last {
            return;
        }
    }
}

// What a thread returns: its seat, closed.
#[derive(Drop)]
struct ClosedOf(Snapshot<Seat>);

impl Promise<ClosedSeat> for ClosedOf {
    ghost use Rattle.clk_ruled.specs.Closing.{IsClosedOf};

    ghost kept_by = { λ p closed. IsClosedOf p.0.value closed };
}

// Starts a thread that offers all packets of a seat.
fn start<'s, E, R: Threads + Wait + Abort + Sync>(
    rt: &'s R,
    scope: &Scope<'s, E>,
    queue: &'s RuledQueue,
    meeting: &'s Meeting,
    seat: Seat,
) -> Result<PromisedHandle<ClosedSeat, ClosedOf>, AllocError>
    requires together { IsSeatOf queue.now seat }
    ensures promise { IfOk result (λ handle. handle.promise.0.value ≡ seat) }
{
    let promise = ClosedOf(Snapshot::of(&seat));
    let send = move || -> ClosedSeat
        requires { IsSeatOf queue.now seat }
        ensures { IsClosedOf seat result }
    { send_all(rt, queue, meeting, seat) };
    Ok(scope.spawn_with(promise, send)?)
}

// Starts a thread for each seat, pulls here while they send, and returns the closed seats in order.
fn send_and_pull<'s, E, R: Threads + Wait + Abort + Sync>(
    rt: &'s R,
    scope: &Scope<'s, E>,
    queue: &'s RuledQueue,
    meeting: &'s Meeting,
    tap: &mut Tap,
    seats: Vec<Seat>,
) -> Result<Vec<ClosedSeat>, AllocError>
    requires tap { IsTapOf queue.now tap.old }
    requires seats { AreSeatsOf queue.now seats.items }
    ensures same { (tap.new.id ≡ tap.old.id) × (tap.new.setup ≡ tap.old.setup) }
    ensures closed { IfOk result (λ closed. AreClosedOf seats.items closed.items) }
{
    let mut seats = seats;
    let Some(seat) = seats.pop() else {
        pull_all(rt, queue, meeting, tap);
        return Ok(Vec::new(*seats.allocator()));
    };
    let handle = start(rt, scope, queue, meeting, seat)?;
    let mut all = send_and_pull(rt, scope, queue, meeting, tap, seats)?;
    all.push(handle.join(rt))?;
    Ok(all)
}

// Sends through all seats at once, each in a thread of its own, and pulls in this one until all is done.
fn run<R: Threads + Wait + Abort + Sync>(
    rt: &R,
    queue: &RuledQueue,
    tap: Tap,
    seats: Vec<Seat>,
) -> Result<(Tap, Vec<ClosedSeat>), AllocError>
    requires tap { IsTapOf queue.now tap }
    requires seats { AreSeatsOf queue.now seats.items }
    ensures tap { IfOk result (λ r. (r.0.id ≡ tap.id) × (r.0.setup ≡ tap.setup)) }
    ensures closed { IfOk result (λ r. AreClosedOf seats.items r.1.items) }
{
    let meeting = Meeting::of(seats.len());
    let shared = &meeting;
    thread::scope(
        thread::scope_env(),
        rt,
        move |scope| -> Result<(Tap, Vec<ClosedSeat>), AllocError>
            requires { IsTapOf queue.now tap × AreSeatsOf queue.now seats.items }
            ensures { IfOk result (λ r. (r.0.id ≡ tap.id) × (r.0.setup ≡ tap.setup) × AreClosedOf seats.items r.1.items) }
        {
            let mut tap = tap;
            let all = send_and_pull(rt, scope, queue, shared, &mut tap, seats)?;
            Ok((tap, all))
        },
    )
}

// The tallies of all senders, by the lists of the seats and of the tap, once all is done.
fn tallies<R: Abort>(
    rt: &R,
    alloc: Global,
    kind: Kind,
    seats: &[ClosedSeat],
    taken: &[Packet],
) -> Result<Vec<Tally>, AllocError> {
    let put_out = PutOut::of(rt, alloc, seats)?;
    let mut tallies = Vec::new(alloc);
    let mut evicted = 0usize;
    for seat in seats {
        let accepted = seat.accepted(alloc).expect(rt, "memory");
        assert_shared(rt, seat, accepted.as_slice());
        assert_taken(
            rt,
            alloc,
            seat.sender(),
            accepted.as_slice(),
            &put_out,
            taken,
        )?;
        match kind {
            Kind::TailDrop => assert!(rt; seat.evicted().is_empty()),
            Kind::FrontDrop => assert!(rt; seat.refused().is_empty()),
        }
        let tally = tally_of(alloc, seat, accepted, &put_out)?;
        evicted = evicted.saturating_add(tally.evicted.as_slice().len());
        tallies.push(tally)?;
    }
    assert_eq!(rt; put_out.count(), evicted);
    Ok(tallies)
}

// Runs these senders through a queue, looks every packet up, and settles the queue.
fn share<R: Threads + Wait + Abort + Sync>(
    rt: &R,
    alloc: Global,
    kind: Kind,
    senders: &[(u16, u32)],
    capacity: u32,
) -> Result<(), Fail>
    requires capacity { (1 ≤ capacity) × (capacity ≤ MAX_CAPACITY) }
    requires rising { AreRising (named_in senders.now) }
    requires room { rooms_in_all senders.now ≤ MAX_CAPACITY }
{
    let Opened { queue, seats, tap } = RuledQueue::open(alloc, kind, capacity, senders)?;
    let (tap, closed) = run(rt, &queue, tap, seats)?;
    let expected = tallies(rt, alloc, kind, &closed, tap.taken())?;
    let taken = tap.taken().to_vec(alloc)?;
    let settled = settle(alloc, queue, tap, closed, 0)?;
    assert_same(rt, &settled.tallies, &expected);
    assert_packets(rt, settled.taken.as_slice(), taken.as_slice());
    Ok(())
}

fn assert_same(rt: &impl Abort, tallies: &[Tally], expected: &[Tally]) {
    assert_eq!(rt; tallies.len(), expected.len());
    for (tally, other) in tallies.iter().zip(expected) {
        let (accepted, refused) = (other.accepted.as_slice(), other.refused.as_slice());
        let expected = (other.sender, accepted, refused, other.evicted.as_slice());
        assert_tally(rt, tally, expected);
    }
}

// Runs these senders through queues of each kind and of several capacities.
fn share_queues<R: Threads + Wait + Abort + Sync>(
    rt: &R,
    alloc: Global,
    senders: &[(u16, u32)],
) -> Result<(), Fail>
    requires rising { AreRising (named_in senders.now) }
    requires room { rooms_in_all senders.now ≤ MAX_CAPACITY }
{
    for kind in [Kind::TailDrop, Kind::FrontDrop] {
        share(rt, alloc, kind, senders, 1)?;
        share(rt, alloc, kind, senders, 16)?;
        share(rt, alloc, kind, senders, 1000)?;
    }
    Ok(())
}

const TWO: [(u16, u32); 2] = [(0, ROOM), (1, ROOM)];

const FOUR: [(u16, u32); 4] = [(0, ROOM), (1, ROOM), (2, ROOM), (3, ROOM)];

const EIGHT: [(u16, u32); 8] = [
    (0, ROOM),
    (1, ROOM),
    (2, ROOM),
    (3, ROOM),
    (4, ROOM),
    (5, ROOM),
    (6, ROOM),
    (7, ROOM),
];

#[test]
fn two_senders_share_a_queue(rt: HostRuntime) -> Result<(), Fail> {
    share_queues(&rt, rt.alloc(), &TWO)
}

#[test]
fn four_senders_share_a_queue(rt: HostRuntime) -> Result<(), Fail> {
    share_queues(&rt, rt.alloc(), &FOUR)
}

#[test]
fn eight_senders_share_a_queue(rt: HostRuntime) -> Result<(), Fail> {
    share_queues(&rt, rt.alloc(), &EIGHT)
}

// Neither goes on before both have offered a packet to the one place.
#[test]
fn two_seats_offer_at_the_same_time(rt: HostRuntime) -> Result<(), Fail> {
    share(&rt, rt.alloc(), Kind::TailDrop, &[(0, 2), (1, 2)], 1)
}

//! How a shared queue is opened.

ghost use Rattle.std.specs.Prelude.{◌≡◌, ◌≤◌, [], ◌∷◌, ◌++◌, true, false, min, max, IfOk, OnOk, IsOkUnless};
ghost use Rattle.crossbeam_queue.specs.Passes.{view, IsPassOf, IsSamePass};
ghost use Rattle.clk_packet.specs.declared.limits.TheConstants.{MAX_CAPACITY};
ghost use Rattle.clk_packet.specs.Lists.{stands_in, AreRising};
ghost use Rattle.clk_ruled.specs.Rooms.{named_in, room_of, rooms_in_all};
ghost use Rattle.clk_ruled.specs.Queue.{setup_of, empty_seat};
ghost use Rattle.clk_ruled.specs.inside.Parts.{IsSeated};
ghost use Rattle.clk_ruled.specs.inside.Rule.{blank_view, tap_view, seat_view};

use crate::protocol::{Open, Opening, Seated, Sending};
use crate::queue::{Line, RuledQueue};
use crate::seat::Seat;
use crate::taken::TakenPackets;
use crate::tap::Tap;
use crate::view::View;
use clk_packet::{Fault, Kind, Packet};
use crossbeam_queue::Pass;
use std::alloc::Global;
use std::marker::Brand;

// The tap's pass learns what the queue is opened with.
fn set_up<O: Opening>(
    line: &Line,
    pass: &mut Pass<Packet, View>,
    kind: Kind,
    capacity: u32,
    senders: &[(u16, u32)],
)
    requires opening { setup_of kind capacity senders.now ≡ O.setup }
    requires rising { AreRising (named_in senders.now) }
    requires queue { IsPassOf line.now pass.old }
    requires blank { view pass.old ≡ blank_view }
    ensures queue { IsSamePass pass.old pass.new }
    ensures open { view pass.new ≡ tap_view (setup_of kind capacity senders.now) [] [] [] }
{
    let _ = kind;
    let _ = capacity;
    let _ = senders;
    let _spare = line.another::<Open<O>>(pass);
}

// A sender that has had no seat gets its pass.
fn seat_for<S: Sending>(
    line: &Line,
    pass: &mut Pass<Packet, View>,
    sender: u16,
) -> Pass<Packet, View>
    requires sending { sender ≡ S.sender }
    requires queue { IsPassOf line.now pass.old }
    requires taps { (view pass.old).taps ≡ true }
    requires new { stands_in sender (view pass.old).given ≡ false }
    ensures queue { IsSamePass pass.old pass.new × IsPassOf line.now result }
    ensures tap { view pass.new ≡ tap_view (view pass.old).setup (view pass.old).taken (sender ∷ (view pass.old).given) (view pass.old).gathered }
    ensures seat { view result ≡ seat_view (view pass.old).setup sender [] [] }
{
    let _ = sender;
    line.another::<Seated<S>>(pass)
}

// How many packets may be offered in all.
fn room_in_all(senders: &[(u16, u32)]) -> u32
    requires { rooms_in_all senders.now ≤ MAX_CAPACITY }
    ensures { result ≡ rooms_in_all senders.now }
{
    let mut rest = senders;
    let mut total = 0;
    while let [(_, room), after @ ..] = rest {
        total += *room;
        rest = after;
    }
    total
}

// Adds a seat for a sender that has had none. Fault 1 if an allocation fails.
fn add_seat(
    alloc: Global,
    line: &Line,
    pass: &mut Pass<Packet, View>,
    seats: &mut Vec<Seat>,
    sender: u16,
    room: u32,
) -> Result<(), Fault>
    requires queue { IsPassOf line.now pass.old }
    requires taps { (view pass.old).taps ≡ true }
    requires new { stands_in sender (view pass.old).given ≡ false }
    requires some { 1 ≤ (view pass.old).setup.capacity }
    requires room { room_of (view pass.old).setup.rooms sender ≡ room }
    ensures queue { IsSamePass pass.old pass.new }
    ensures tap { view pass.new ≡ tap_view (view pass.old).setup (view pass.old).taken (sender ∷ (view pass.old).given) (view pass.old).gathered }
    ensures seats { OnOk result (seats.new.items ≡ seats.old.items ++ empty_seat pass.old.table_id (view pass.old).setup (sender, room) ∷ []) }
    ensures fault { IsOkUnless result Fault.Memory }
{
    let theirs = seat_for::<Brand>(line, pass, sender);
    let seat = Seat::fresh(alloc, theirs, sender, room)?;
    seats.push(seat)?;
    Ok(())
}

// A seat for each sender, in order. Fault 1 if an allocation fails.
fn seats_for(
    alloc: Global,
    line: &Line,
    pass: &mut Pass<Packet, View>,
    senders: &[(u16, u32)],
) -> Result<Vec<Seat>, Fault>
    requires queue { IsPassOf line.now pass.old }
    requires open { IsSeated (view pass.old).setup pass.old.table_id (view pass.old) [] senders.now }
    ensures queue { IsSamePass pass.old pass.new }
    ensures seats { IfOk result (λ seats. IsSeated (view pass.old).setup pass.old.table_id (view pass.new) seats.items []) }
    ensures fault { IsOkUnless result Fault.Memory }
{
    let mut seats = Vec::new(alloc);
    let mut rest = senders;
    while let [(sender, room), after @ ..] = rest {
        add_seat(alloc, line, pass, &mut seats, *sender, *room)?;
        rest = after;
    }
    Ok(seats)
}

// How many places a queue has for its packets: no more than its capacity, no more than packets can be offered, and at least one.
fn places(capacity: u32, room: u32) -> u32
    ensures { result ≡ max 1 (min capacity room) }
{
    let within = if capacity < room { capacity } else { room };
    if within < 1 { 1 } else { within }
}

/// A shared queue as it was opened, with a seat for each sender and the tap.
#[derive(Drop)]
pub struct Opened {
    pub queue: RuledQueue,
    /// One seat for each sender, in order.
    pub seats: Vec<Seat>,
    pub tap: Tap,
}

impl RuledQueue {
    ghost use Rattle.clk_ruled.specs.Queue.{IsOpened};

    /// Opens a queue of this kind that holds at most `capacity` packets, from 1 to 1,000,000, for these senders, by rising number, each with
    /// the number of packets that it may offer, 1,000,000 in all. The memory of all seats and of the tap, which keeps what it pulls, is
    /// allocated here.
    ///
    /// The queue has no more places than packets can be offered in all. No packet is refused for that: fewer places than the capacity are
    /// full only once every sender has offered all that it may.
    ///
    /// # Errors
    ///
    /// Fault 1 if an allocation fails.
    pub fn open(
        alloc: Global,
        kind: Kind,
        capacity: u32,
        senders: &[(u16, u32)],
    ) -> Result<Opened, Fault>
        requires capacity { (1 ≤ capacity) × (capacity ≤ MAX_CAPACITY) }
        requires rising { AreRising (named_in senders.now) }
        requires room { rooms_in_all senders.now ≤ MAX_CAPACITY }
        ensures opened { IfOk result (λ opened. IsOpened (setup_of kind capacity senders.now) opened.queue opened.seats.items opened.tap) }
        ensures keeps { IfOk result (λ opened. opened.tap.keeps ≡ true) }
        ensures fault { IsOkUnless result Fault.Memory }
    {
        RuledQueue::open_keeping(alloc, kind, capacity, senders, true)
    }

    /// Opens a queue as `open` does. `keeps` says whether its tap keeps the packets that it pulls.
    ///
    /// # Errors
    ///
    /// Fault 1 if an allocation fails.
    pub fn open_keeping(
        alloc: Global,
        kind: Kind,
        capacity: u32,
        senders: &[(u16, u32)],
        keeps: bool,
    ) -> Result<Opened, Fault>
        requires capacity { (1 ≤ capacity) × (capacity ≤ MAX_CAPACITY) }
        requires rising { AreRising (named_in senders.now) }
        requires room { rooms_in_all senders.now ≤ MAX_CAPACITY }
        ensures opened { IfOk result (λ opened. IsOpened (setup_of kind capacity senders.now) opened.queue opened.seats.items opened.tap) }
        ensures keeps { IfOk result (λ opened. opened.tap.keeps ≡ keeps) }
        ensures fault { IsOkUnless result Fault.Memory }
    {
        let room = room_in_all(senders);
        let (line, mut pass) = Line::ruled(alloc, places(capacity, room) as usize)?;
        set_up::<Brand>(&line, &mut pass, kind, capacity, senders);
        let seats = seats_for(alloc, &line, &mut pass, senders)?;
        let taken = TakenPackets::none(alloc, keeps, room as usize)?;
        let tap = Tap::fresh(&line, pass, taken);
        let queue = RuledQueue {
            line,
            kind,
            capacity,
        };
        Ok(Opened { queue, seats, tap })
    }
}

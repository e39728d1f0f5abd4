//! How a shared queue is settled, once all its seats are closed.

mod marks;
mod reach;

ghost use Rattle.std.specs.Prelude.{◌≡◌, ◌||◌, map, filter, IfOk, IfErr, OnOk, IsOkUnless};
ghost use Rattle.std.specs.List.{AllByRecursion};
ghost use Rattle.clk_packet.specs.declared.packet.Packet.{Packet};
ghost use Rattle.clk_ruled.specs.PacketLists.{has_packet};
ghost use Rattle.clk_ruled.specs.inside.Marks.{is_marked, untold, telling};
ghost use Rattle.clk_ruled.specs.Queue.{IsTapOf, IsSharedOut};
ghost use Rattle.clk_ruled.specs.Settle.{AreOpenedTogether, AreOfTap, HasEach, IsSettled, IsFaultOfSettle, all_evicted, lists_of};

use crate::closed::ClosedSeat;
use crate::queue::RuledQueue;
use crate::tap::Tap;
use clk_packet::{Fault, Packet, Packets, Tally};
use marks::Marks;
use reach::check_reached;
use std::alloc::Global;

/// What settling a shared queue returns.
#[derive(Drop)]
pub struct Settled {
    /// A tally for each sender, in order.
    pub tallies: Vec<Tally>,
    /// The packets that were pulled, in order, if the tap keeps them.
    pub taken: Vec<Packet>,
}

/// Settles a queue whose seats are all closed. Returns a tally for each sender, in order, and the packets that were pulled, if the tap
/// keeps them. What the queue still holds is dropped. Seats that weren't gathered are gathered. `index` is the queue's number, for the
/// fault.
///
/// # Errors
///
/// Fault 1 if an allocation fails. Fault 21 if a packet was refused or evicted though the queue accepted fewer packets than its capacity.
pub fn settle(
    alloc: Global,
    queue: RuledQueue,
    tap: Tap,
    closed: Vec<ClosedSeat>,
    index: u16,
) -> Result<Settled, Fault>
    requires together { AreOpenedTogether queue tap closed.items }
    ensures settled { IfOk result (λ settled. IsSettled tap closed.items settled.taken.items settled.tallies.items) }
    ensures fault { IfErr result (IsFaultOfSettle tap closed.items index) }
{
    let mut tap = tap;
    let mut closed = closed;
    gather_all(&queue, &mut tap, &mut closed);
    // The contract of this call says that packets are accounted for.
    tap.stays_within();
    check_reached(&closed, queue.capacity, index)?;
    // The memory of the queue is freed before the lists of the tallies are allocated.
    drop(queue);
    let mut marks = Marks::none(alloc);
    let mut tallies = take_apart(alloc, closed, &mut marks)?;
    tell_evicted(alloc, &mut tallies, &marks)?;
    Ok(Settled {
        tallies,
        taken: tap.into_taken(),
    })
}

// The tap gathers all these seats.
fn gather_all(queue: &RuledQueue, tap: &mut Tap, closed: &mut Vec<ClosedSeat>)
    requires queue { IsTapOf queue.now tap.old }
    requires together { AreOfTap tap.old closed.old.items }
    ensures lists { lists_of closed.new.items ≡ lists_of closed.old.items }
    ensures tap { (tap.new.setup ≡ tap.old.setup) × (tap.new.taken ≡ tap.old.taken) }
    ensures keeps { tap.new.keeps ≡ tap.old.keeps }
    ensures gathered { HasEach tap.new (lists_of closed.old.items) }
{
    for seat in closed.iter_mut() {
        tap.gather(queue, seat);
    }
}

// A tally for each seat, which doesn't list evicted packets yet. Packets that were evicted for the seats are marked, and the lists of them
// are freed. Fault 1 if an allocation fails.
fn take_apart(
    alloc: Global,
    closed: Vec<ClosedSeat>,
    marks: &mut Marks,
) -> Result<Vec<Tally>, Fault>
    ensures tallies { IfOk result (λ tallies. tallies.items ≡ map untold (lists_of closed.items)) }
    ensures marked { OnOk result ((p : Packet) → is_marked marks.new p ≡ (has_packet (all_evicted (lists_of closed.items)) p || is_marked marks.old p)) }
    ensures shared { OnOk result (AllByRecursion IsSharedOut (lists_of closed.items)) }
    ensures fault { IsOkUnless result Fault.Memory }
{
    let mut tallies = Vec::new(alloc);
    for seat in closed {
        tallies.push(take_seat(alloc, seat, marks)?)?;
    }
    Ok(tallies)
}

// The tally of a seat, which doesn't list evicted packets yet. Packets that were evicted for the seat are marked, and the list of them is
// freed. Fault 1 if an allocation fails.
fn take_seat(alloc: Global, seat: ClosedSeat, marks: &mut Marks) -> Result<Tally, Fault>
    ensures tally { IfOk result (λ tally. tally ≡ untold seat.lists) }
    ensures marked { OnOk result ((p : Packet) → is_marked marks.new p ≡ (has_packet seat.lists.evicted p || is_marked marks.old p)) }
    ensures shared { IsSharedOut seat.lists }
    ensures fault { IsOkUnless result Fault.Memory }
{
    let ClosedSeat {
        sender,
        next,
        accepted,
        refused,
        evicted,
        ..
    } = seat;
    marks.mark_all(alloc, evicted.as_slice())?;
    // This list is freed before that of the accepted packets is allocated.
    drop(evicted);
    let accepted = accepted.list(alloc, sender, next, refused.as_slice())?;
    Ok(Tally {
        sender,
        accepted: Packets::from(accepted),
        refused: Packets::from(refused),
        evicted: Packets::new(alloc),
    })
}

// Lists in each tally those of its accepted packets that are marked, as evicted. Fault 1 if an allocation fails.
fn tell_evicted(alloc: Global, tallies: &mut Vec<Tally>, marks: &Marks) -> Result<(), Fault>
    ensures told { OnOk result (tallies.new.items ≡ map (telling (is_marked marks.now)) tallies.old.items) }
    ensures fault { IsOkUnless result Fault.Memory }
{
    for tally in tallies.iter_mut() {
        let evicted = marked_among(alloc, tally.sender, tally.accepted.as_slice(), marks)?;
        tally.evicted = Packets::from(evicted);
    }
    Ok(())
}

// Those of a sender's packets that are marked. The sender says only for how many to make room. Fault 1 if an allocation fails.
fn marked_among(
    alloc: Global,
    sender: u16,
    packets: &[Packet],
    marks: &Marks,
) -> Result<Vec<Packet>, Fault>
    ensures marked { IfOk result (λ marked. marked.items ≡ filter (is_marked marks.now) packets.now) }
    ensures fault { IsOkUnless result Fault.Memory }
{
    if marks.is_empty() {
        return Ok(Vec::new(alloc));
    }
    let mut marked = Vec::with_capacity(alloc, marks.count_of(sender))?;
    for packet in packets {
        if marks.has(*packet) {
            marked.push(*packet)?;
        }
    }
    Ok(marked)
}

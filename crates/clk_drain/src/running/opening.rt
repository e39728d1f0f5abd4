//! The shared queues that a run opens, each with its tap and its seats.

ghost use Rattle.std.specs.Prelude.{◌≡◌, ◌<◌, ◌≤◌, length, IfOk, OnOk, IsOkUnless};
ghost use Rattle.clk_packet.specs.declared.fault.Fault.TheVariants.{Memory};
ghost use Rattle.clk_packet.specs.Trace.{packets_in};
ghost use Rattle.clk_packet.specs.declared.limits.TheConstants.{MAX_RECORDS};
ghost use Rattle.clk_tree.specs.PlanParts.{queued, HasCapacity, shared_at};
ghost use Rattle.clk_packet.specs.Lists.{AreRising};
ghost use Rattle.clk_drain.specs.inside.Opening.{rooms_for, IsAdded};

use crate::running::baton::Baton;
use clk_packet::{Fault, Traces};
use clk_ruled::{Opened, RuledQueue, Seat, Tap};
use clk_sched::Session;
use clk_tree::QueueSpec;
use std::alloc::Global;
use std::marker::Model;

/// A shared queue at the leaf where it stands.
#[derive(Drop)]
pub struct LeafQueue {
    pub leaf: u16,
    pub queue: RuledQueue,
    /// The baton of its producers.
    pub baton: Baton,
}

/// The queues of a device by rising leaf, with the tap and the seats of each.
#[derive(Drop)]
pub struct OpenQueues {
    pub queues: Vec<LeafQueue>,
    pub taps: Vec<Tap>,
    pub seats: Vec<Vec<Seat>>,
}

/// A device's session with the taps of its queues, by rising leaf. Contracts see all but the device's number.
#[derive(Drop)]
pub struct Ends {
    pub device: u16,
    pub session: Session,
    pub taps: Vec<Tap>,
}

impl Model for Ends {
    ghost use Rattle.std.specs.Prelude.{◌≡◌};
    ghost use Rattle.std.specs.Coded.{codes};
    ghost use Rattle.clk_sched.specs.Session.{progress_of};
    ghost use Rattle.clk_sched.specs.Stored.{tree_code};
    ghost use Rattle.clk_drain.specs.inside.Threads.{EndLists};

    ghost Value = { EndLists };

    ghost coded = { Prim.hlevel (codes, tree_code) };

    ghost view = { λ e. record { session = progress_of e.session; keeps = e.session.keeps; taps = e.taps.items } };

    ghost invariant = { λ e. e.session.gone ≡ 0 };
}

/// Opens one more queue, at this leaf, with room for all that is sent to it. Fault 1 if an allocation fails.
pub fn open_queue(
    alloc: Global,
    opened: &mut OpenQueues,
    leaf: u16,
    queue: &QueueSpec,
    traces: &Traces,
) -> Result<(), Fault>
    requires capacity { HasCapacity (queued queue.now) }
    requires rising { AreRising queue.now.senders.items }
    ensures added { OnOk result (IsAdded traces.now (shared_at leaf (queued queue.now)) opened.old opened.new) }
    ensures fault { IsOkUnless result Fault.Memory }
{
    let rooms = rooms_for(alloc, &queue.senders, traces)?;
    let Opened { queue, seats, tap } = RuledQueue::open_keeping(
        alloc,
        queue.kind,
        queue.capacity,
        &rooms,
        false,
    )?;
    opened.queues.push(LeafQueue {
        leaf,
        queue,
        baton: Baton::new(),
    })?;
    opened.taps.push(tap)?;
    opened.seats.push(seats)?;
    Ok(())
}

// How many packets each of these senders may offer: all that it sends.
fn rooms_for(alloc: Global, senders: &[u16], traces: &Traces) -> Result<Vec<(u16, u32)>, Fault>
    ensures rooms { IfOk result (λ rooms. rooms.items ≡ rooms_for traces.now senders.now) }
    // No trace sends more: counting a sender's packets brings this into scope.
    ensures within { IfOk result (λ _. 0 < length senders.now → packets_in traces.now ≤ MAX_RECORDS) }
    ensures fault { IsOkUnless result Fault.Memory }
{
    let mut rooms = Vec::with_capacity(alloc, senders.len())?;
    for sender in senders {
        rooms.push((*sender, traces.count(*sender)))?;
    }
    Ok(rooms)
}

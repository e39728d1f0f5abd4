//! What a run opens over a plan before its threads start: for each device a session of its tree, and its queues.

ghost use Rattle.std.specs.Prelude.{◌≡◌, ◌<◌, IfOk, IsOkUnless};
ghost use Rattle.std.specs.List.{AllByRecursion};
ghost use Rattle.clk_packet.specs.declared.fault.Fault.TheVariants.{Memory};
ghost use Rattle.clk_tree.specs.PlanTree.{device_count};
ghost use Rattle.clk_tree.specs.PlanParts.{queues_of};
ghost use Rattle.clk_drain.specs.Opening.{queues_at};
ghost use Rattle.clk_drain.specs.inside.Opening.{AreOpenAs};
ghost use Rattle.clk_drain.specs.inside.Devices.{IsOpenOf, AreOpenFrom, KeepsSo};

use crate::running::opening::{Ends, LeafQueue, OpenQueues, open_queue};
use clk_packet::{Fault, Traces};
use clk_ruled::Seat;
use clk_sched::{Keeps, Session};
use clk_tree::Plan;
use std::alloc::Global;

/// The devices of a plan, by number, as they were opened.
#[derive(Drop)]
pub struct OpenPlan {
    pub queues: Vec<Vec<LeafQueue>>,
    pub seats: Vec<Vec<Vec<Seat>>>,
    pub ends: Vec<Ends>,
}

/// Opens each device of a plan, with room for all that is sent. `keeps` says what its session keeps.
///
/// # Errors
///
/// Fault 1 if an allocation fails.
pub fn open_devices(
    alloc: Global,
    plan: &Plan,
    traces: &Traces,
    keeps: Keeps,
) -> Result<OpenPlan, Fault>
    ensures opened { IfOk result (λ opened. AreOpenFrom plan.now traces.now 0 (device_count plan.now) opened.queues.items opened.seats.items opened.ends.items) }
    ensures kept { IfOk result (λ opened. AllByRecursion (KeepsSo keeps) opened.ends.items) }
    ensures fault { IsOkUnless result Fault.Memory }
{
    let devices = plan.devices();
    let mut queues = Vec::with_capacity(alloc, usize::from(devices))?;
    let mut seats = Vec::with_capacity(alloc, usize::from(devices))?;
    let mut ends = Vec::with_capacity(alloc, usize::from(devices))?;
    for device in 0..devices {
        let (its_queues, its_seats, its_ends) = open_device(alloc, plan, traces, device, keeps)?;
        queues.push(its_queues)?;
        seats.push(its_seats)?;
        ends.push(its_ends)?;
    }
    Ok(OpenPlan {
        queues,
        seats,
        ends,
    })
}

// Opens a device of a plan.
fn open_device(
    alloc: Global,
    plan: &Plan,
    traces: &Traces,
    device: u16,
    keeps: Keeps,
) -> Result<(Vec<LeafQueue>, Vec<Vec<Seat>>, Ends), Fault>
    requires device { device < device_count plan.now }
    ensures opened { IfOk result (λ opened. IsOpenOf plan.now traces.now device opened.0.items opened.1.items opened.2) }
    ensures kept { IfOk result (λ opened. opened.2.keeps ≡ keeps) }
    ensures fault { IsOkUnless result Fault.Memory }
{
    let tree = plan.tree(alloc, device)?;
    let mut session = Session::keeping(alloc, tree, keeps)?;
    let OpenQueues {
        queues,
        taps,
        seats,
    } = open_queues(alloc, plan, traces, device)?;
    session.reserve(rooms_of(&seats))?;
    Ok((
        queues,
        seats,
        Ends {
            device,
            session,
            taps,
        },
    ))
}

// How many packets the senders at these seats may offer in all. The device emits no more. Only how much memory is reserved depends on it.
fn rooms_of(seats: &[Vec<Seat>]) -> usize {
    let mut rooms: usize = 0;
    for at_queue in seats {
        for seat in at_queue {
            rooms = rooms.saturating_add(seat.room() as usize);
        }
    }
    rooms
}

// Opens the queues of a device, each at the leaf of its number.
fn open_queues(
    alloc: Global,
    plan: &Plan,
    traces: &Traces,
    device: u16,
) -> Result<OpenQueues, Fault>
    ensures opened { IfOk result (λ opened. AreOpenAs traces.now (queues_at device 0 (queues_of plan.now)) opened.queues.items opened.taps.items opened.seats.items) }
    ensures fault { IsOkUnless result Fault.Memory }
{
    let mut opened = OpenQueues {
        queues: Vec::new(alloc),
        taps: Vec::new(alloc),
        seats: Vec::new(alloc),
    };
    let mut leaf = 0;
    for queue in plan.queues() {
        if queue.device == device {
            open_queue(alloc, &mut opened, leaf, queue, traces)?;
        }
        leaf += 1;
    }
    Ok(opened)
}

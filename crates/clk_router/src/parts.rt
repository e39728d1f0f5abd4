//! The parts of a router, and their steps.

ghost use Rattle.std.specs.Prelude.{◌≡◌, map, IfOk, IsOkUnless};
ghost use Rattle.clk_tree.specs.PlanParts.{queued};
ghost use Rattle.clk_router.specs.inside.Parts.{path_made};

use crate::devices::{RouterDevice, devices_of};
use crate::queues::Queues;
use crate::senders::{Sender, numbers_of, senders_of};
use clk_packet::{Fault, Offered, Packet};
use clk_ring::calls_are_history;
use clk_sched::{Departure, Keeps, Tree, runs_conserve_packets, runs_go_on};
use clk_tree::{QueueSpec, SenderSpec};
use std::alloc::Global;

/// Senders, queues, and for each device a session of its tree over the queues.
#[derive(Drop)]
pub struct Parts {
    /// The devices, by number.
    pub devices: Vec<RouterDevice>,
    /// The queues, by number.
    pub queues: Queues,
    /// The device that emits the packets of each queue.
    pub paths: Vec<u16>,
    /// The senders, by rising numbers.
    pub senders: Vec<Sender>,
    /// The number of each sender.
    pub numbers: Vec<u16>,
    /// What the devices keep.
    keeps: Keeps,
}

impl Parts {
    ghost use Rattle.std.specs.Prelude.{◌≡◌, ℕ, ◌+◌, ◌<◌, ◌≤◌, ◌++◌, List, ◌∷◌, [], Some, map, length, slice_get, IfOk, OnErr, IsOk, IsOkUnless, false};
    ghost use Rattle.std.specs.List.{AllByRecursion};
    ghost use Rattle.clk_sched.specs.Keeps.{grows};
    ghost use Rattle.clk_sched.specs.declared.limits.TheConstants.{END_OF_MOMENTS};
    ghost use Rattle.clk_sched.specs.Results.{emitted};
    ghost use Rattle.clk_tree.specs.PlanParts.{queued, HasCapacity};
    ghost use Rattle.clk_router.specs.Events.{Setup, Event, offered};
    ghost use Rattle.clk_router.specs.inside.Parts.{CanStand, CanOfferAt, CanPullAt, CanCloseAt, CountsLeft, IsAt, IsWhole, LeadsOnByPull, LeadsOnByPulls, ClosesBy, StopsBy, Stand, IsSessionDue, setup_of};

    /// The parts of a router before anything has happened. `keeps` says what its devices keep of the past. Fault 1 if an allocation fails.
    pub fn new(
        alloc: Global,
        trees: Vec<Tree>,
        queues: &[QueueSpec],
        senders: &[SenderSpec],
        keeps: Keeps,
    ) -> Result<Parts, Fault>
        requires trees { AllByRecursion CanStand trees.items }
        requires capacities { AllByRecursion HasCapacity (map queued queues.now) }
        requires whole { (names : List (List ℕ)) → IsWhole (setup_of names trees.items (map queued queues.now) senders.now) }
        ensures at { IfOk result (λ parts. (names : List (List ℕ)) → IsAt (setup_of names trees.items (map queued queues.now) senders.now) [] parts) }
        ensures keeps { IfOk result (λ parts. parts.keeps ≡ keeps) }
        ensures fault { IsOkUnless result Fault.Memory }
    {
        // The empty log is a run, and the queues lead on from here, by these laws, which do nothing.
        runs_go_on();
        calls_are_history();
        Ok(Parts {
            devices: devices_of(alloc, trees, keeps)?,
            queues: Queues::new(alloc, queues)?,
            paths: paths_of(alloc, queues)?,
            senders: senders_of(alloc, senders)?,
            numbers: numbers_of(alloc, senders)?,
            keeps,
        })
    }

    /// The sender at this place offers its next packet, of this length in bytes, to its queue. Returns the packet and the outcome.
    #[inline(always)]
    pub fn offer(&mut self, place: usize, length: u16) -> (Packet, Offered)
        requires can { CanOfferAt self.old place }
        requires has_length { 1 ≤ length }
        ensures sender { slice_get self.old.numbers.items place ≡ Some result.0.sender }
        ensures length { result.0.length ≡ length }
        ensures leads { (setup : Setup) (events : _) → IsAt setup events self.old → IsAt setup (events ++ offered result.0 result.1 ∷ []) self.new }
        ensures keeps { self.new.keeps ≡ self.old.keeps }
    {
        // The history of the queue goes on by this event, by this law, which does nothing.
        calls_are_history();
        let sender = &mut self.senders[place];
        let queue = sender.queue;
        let packet = sender.next_packet(length);
        let outcome = self.queues.offer(queue, packet);
        let device = self.paths[usize::from(queue)];
        self.devices[usize::from(device)].count(outcome);
        (packet, outcome)
    }

    /// Pulls a device once, at this moment in ticks, or at the device's latest moment if that is later. Fault 1 if an allocation for what
    /// it keeps fails.
    #[inline(always)]
    pub fn pull(&mut self, device: u16, moment: u64) -> Result<Option<Packet>, Fault>
        requires can { CanPullAt self.old.keeps (slice_get self.old.devices.items device) }
        requires moment { moment < END_OF_MOMENTS }
        ensures leads { IfOk result (λ got. (setup : Setup) (events : _) → IsAt setup events self.old → LeadsOnByPull setup self.new device moment got events) }
        ensures keeps { self.new.keeps ≡ self.old.keeps }
        ensures fault { IsOkUnless result Fault.Memory }
        ensures steady { grows self.old.keeps ≡ false → IsOk result }
        ensures stays { OnErr result ((setup : Setup) (events : _) → IsAt setup events self.old → IsAt setup events self.new) }
    {
        // The histories of the queues go on by this pull, by this law, which does nothing.
        calls_are_history();
        let session = &mut self.devices[usize::from(device)].session;
        session.pull(&mut self.queues, moment)
    }

    /// How many packets are left for a device, in queues and in heads.
    pub fn left(&self, device: u16) -> u64
        requires { CountsLeft (slice_get self.now.devices.items device) }
        ensures { (here : _) → slice_get self.now.devices.items device ≡ Some here → length (emitted here.session.log) + result ≡ here.kept }
    {
        let device = &self.devices[usize::from(device)];
        device.kept - device.session.count_emitted()
    }

    /// The earliest moment, in ticks, at which a pull of a device could emit a packet, as things stand.
    pub fn due(&self, device: u16) -> Option<u64>
        requires { device < length self.now.devices.items }
        ensures { (its : _) → slice_get self.now.devices.items device ≡ Some its → IsSessionDue its.session self.now.queues.rings.items result }
    {
        self.devices[usize::from(device)].session.due(&self.queues)
    }

    /// Drains a device: pulls it one tick apart until all packets that are left for it are emitted. The first pull is one tick after the
    /// later of this moment and the device's latest. Returns these packets, each with its moment. Fault 1 if an allocation fails.
    pub fn close(
        &mut self,
        alloc: Global,
        device: u16,
        moment: u64,
    ) -> Result<Vec<Departure>, Fault>
        requires can { CanCloseAt moment (slice_get self.old.devices.items device) }
        requires stands { (setup : Setup) × (events : List Event) × Stand setup events self.old }
        ensures leads { (setup : Setup) (events : _) → IsAt setup events self.old → LeadsOnByPulls setup self.new device moment events }
        ensures closed { IfOk result (λ departures. (setup : Setup) (events : _) → IsAt setup events self.old
            → (its : _) → slice_get self.new.devices.items device ≡ Some its → ClosesBy setup events device moment its.session departures.items) }
        ensures short { OnErr result ((setup : Setup) (events : _) → IsAt setup events self.old
            → (its : _) → slice_get self.new.devices.items device ≡ Some its → StopsBy setup events device moment its.session) }
        ensures keeps { self.new.keeps ≡ self.old.keeps }
        ensures fault { IsOkUnless result Fault.Memory }
    {
        // The histories of the queues go on by these pulls, and the queues and the heads hold what is left, by these laws, which do
        // nothing.
        calls_are_history();
        runs_go_on();
        runs_conserve_packets();
        let left = self.left(device);
        let session = &mut self.devices[usize::from(device)].session;
        session.close(alloc, &mut self.queues, left, moment)
    }
}

/// The devices that emit the packets of these queues. Fault 1 if an allocation fails.
fn paths_of(alloc: Global, specs: &[QueueSpec]) -> Result<Vec<u16>, Fault>
    ensures made { IfOk result (λ paths. paths.items ≡ map path_made (map queued specs.now)) }
    ensures fault { IsOkUnless result Fault.Memory }
{
    let mut paths = Vec::new(alloc);
    for spec in specs {
        paths.push(spec.device)?;
    }
    Ok(paths)
}

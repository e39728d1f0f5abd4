//! The router of a plan.

ghost use Rattle.std.specs.Prelude.{◌≡◌, ◌≤◌, length, IfOk, IsOkUnless};
ghost use Rattle.std.specs.List.{AllByRecursion};
ghost use Rattle.clk_packet.specs.declared.limits.TheConstants.{MAX_ELEMENTS};
ghost use Rattle.clk_packet.specs.declared.fault.Fault.TheVariants.{Memory};
ghost use Rattle.clk_tree.specs.Shares.{AreTreesOf};
ghost use Rattle.clk_router.specs.inside.Parts.{CanStand};

use crate::parts::Parts;
use crate::past::Past;
use crate::queue_state::QueueState;
use crate::senders::{are_few, place_of};
use clk_packet::{Fault, Offered, Packet};
use clk_sched::{
    Departure, END_OF_DRAINED_PULLS, END_OF_DRAINS, END_OF_MOMENTS, END_OF_PULLS, Keeps, MAX_LEFT,
    Tree, Visit, closing_bound_is_enough, pulls_emit_once_due, runs_conserve_packets, runs_go_on,
};
use clk_tree::Plan;
use std::alloc::Global;
use std::marker::Model;

/// The senders, the queues and the devices of a plan, and what they hold. Contracts speak of all its events so far: offers of packets, and
/// pulls of devices.
#[derive(Drop)]
pub struct Router {
    parts: Parts,
    past: Past,
}

impl Model for Router {
    ghost use Rattle.clk_router.specs.Course.{Course};
    ghost use Rattle.clk_router.specs.Stored.{course_code};
    ghost use Rattle.clk_router.specs.inside.Parts.{Stand};

    ghost Value = { Course };

    ghost coded = { course_code };

    ghost view = { λ r. record { setup = r.past.setup; events = r.past.events; keeps = r.parts.keeps } };

    ghost invariant = { λ r. Stand r.past.setup r.past.events r.parts };
}

impl Router {
    ghost use Rattle.std.specs.Prelude.{◌≡◌, ℕ, ◌+◌, ◌^◌, ◌<◌, ◌≤◌, ◌∷◌, [], Some, None, true, false, map, length, IfSome, IfOk, OnErr, IsOk, IsOkUnless};
    ghost use Rattle.clk_packet.specs.declared.limits.TheConstants.{MAX_ELEMENTS, MAX_CAPACITY};
    ghost use Rattle.clk_sched.specs.declared.visit.Visit.{Visit};
    ghost use Rattle.clk_sched.specs.Keeps.{grows};
    ghost use Rattle.clk_sched.specs.declared.limits.TheConstants.{END_OF_MOMENTS};
    ghost use Rattle.clk_sched.specs.Results.{emitted};
    ghost use Rattle.clk_packet.specs.Lists.{AreRising};
    ghost use Rattle.clk_router.specs.Course.{after, events_of, sender_at, accepted_at, evicted_at, emitted_at, moment_at, pulls_at, latest_visits, device_at, CanOffer, CanPull, CanClose, IsOpened, IsPulled, IsClosed, IsQueueState};
    ghost use Rattle.clk_router.specs.Events.{offered, sender_numbers, numbers_of, log_of, CanHappen};
    ghost use Rattle.clk_router.specs.InsideQueues.{QueuesGoOn, AreOutOrInside};
    ghost use Rattle.clk_router.specs.Due.{IsDeviceDue, EmitsNoneBefore};
    ghost use Rattle.clk_router.specs.Drains.{DrainsEnd, StopsShort};
    ghost use Rattle.clk_router.specs.Settled.{IsCourseAccounted, IsCourseSettled, AreOutOnce, AreAllOut, IsDrained, offered_of};

    /// Opens the router of a plan, before anything has happened. `keeps` says what its devices keep of the past. Visits that they keep
    /// packed can't be taken out of it.
    ///
    /// # Errors
    ///
    /// Fault 1 if an allocation fails.
    pub fn open(alloc: Global, plan: &Plan, keeps: Keeps) -> Result<Router, Fault>
        ensures opened { IfOk result (IsOpened plan.now keeps) }
        ensures fault { IsOkUnless result Fault.Memory }
    {
        // Its trees share out its queues, by this law.
        plan.trees_share_queues();
        let trees = trees_of(alloc, plan)?;
        let (queues, senders) = (plan.queues(), plan.senders());
        let parts = Parts::new(alloc, trees, queues, senders, keeps)?;
        let mut past = Past::none();
        past.begin(plan, &parts);
        Ok(Router { parts, past })
    }

    /// The numbers of its senders, in rising order. The place of a sender is its place here.
    pub fn senders(&self) -> &[u16]
        ensures numbers { result.now ≡ sender_numbers self.now.setup }
        ensures rising { AreRising result.now }
    {
        self.parts.numbers.as_slice()
    }

    /// The place of the sender with this number, if there is one.
    pub fn place_of(&self, sender: u16) -> Option<u16>
        ensures found { IfSome result (λ place. sender_at self.now.setup place ≡ Some sender) }
        ensures missing { result ≡ None → (place : _) → sender_at self.now.setup place ≡ Some sender → ⊥ }
    {
        place_of(self.senders(), sender)
    }

    /// How many devices it has, one at least.
    pub fn devices(&self) -> usize
        ensures count { result ≡ length self.now.setup.trees }
        ensures some { 1 ≤ result }
        ensures few { result ≤ MAX_ELEMENTS }
    {
        self.parts.devices.len()
    }

    /// All that has happened can happen over its setup. A law, which does nothing.
    pub fn has_happened(&self)
        ensures { CanHappen self.now.setup self.now.events }
    {
        let _ = &self.parts;
    }

    /// Each offered packet was refused, evicted or emitted, or is held as a head in its device's tree, or held in its queue: in one of
    /// these places, once. If no packet is left for any device, all are settled. A sender has offered fewer than 2^32 packets. A law, which
    /// does nothing.
    #[inline(always)]
    pub fn has_account(&self)
        ensures accounted { IsCourseAccounted self.now.setup self.now.events }
        ensures few { AllByRecursion (λ s. length (offered_of self.now.events s) < 2 ^ 32) (sender_numbers self.now.setup) }
        ensures once { AreOutOnce self.now.setup self.now.events }
        ensures out_or_inside { AreOutOrInside self.now.setup self.now.events }
        ensures settled { IsDrained self.now → IsCourseSettled self.now.setup self.now.events }
        ensures all_out { IsDrained self.now → AreAllOut self.now.setup self.now.events }
    {
        // The empty log is a run, and trees conserve packets, by these laws, which do nothing.
        runs_go_on();
        runs_conserve_packets();
        let _ = &self.parts;
    }

    /// How the packets inside each queue change by each event, and how many they are. A law, which does nothing.
    pub fn queues_go_on(&self)
        ensures { QueuesGoOn self.now.setup }
    {
        // Trees conserve packets, by this law, which does nothing.
        runs_conserve_packets();
        let _ = &self.parts;
    }

    /// A drain of a device ends before moments or pulls do. Take a device that can be drained from a moment on, and that is pulled as the
    /// drain would pull it. It can be pulled once more as long as packets are left for it. A law, which does nothing.
    pub fn drains_end(&self)
        ensures { (device moment : ℕ) → DrainsEnd self.now device moment }
    {
        // The empty log is a run, trees conserve packets, and the closing bound is enough, by these laws, which do nothing.
        runs_go_on();
        runs_conserve_packets();
        closing_bound_is_enough();
        let _ = &self.parts;
    }

    /// The device that emits the packets of the sender at this place.
    pub fn device_of_sender(&self, place: usize) -> u16
        requires { place < length self.now.setup.senders }
        ensures { device_at self.now.setup place ≡ Some result }
    {
        let queue = self.parts.senders[place].queue;
        self.parts.paths[usize::from(queue)]
    }

    /// Whether the sender at this place can offer a packet: it exists, it has offered fewer than 4,294,967,295 packets, and its device
    /// takes one more.
    pub fn can_offer(&self, place: usize) -> bool
        ensures yes { result ≡ true → CanOffer self.now place }
        ensures no { result ≡ false → CanOffer self.now place → ⊥ }
    {
        if place >= self.parts.senders.len() {
            return false;
        }
        !self.has_ended(place)
    }

    /// Whether the sender at this place has offered 4,294,967,295 packets, so that it can't offer another.
    pub fn has_ended(&self, place: usize) -> bool
        requires { place < length self.now.setup.senders }
        ensures ended { result ≡ true → CanOffer self.now place → ⊥ }
        ensures goes_on { result ≡ false → CanOffer self.now place }
    {
        // Its device always takes one more. There are 65,536 senders at most, by this law, which does nothing, and each has offered fewer
        // than 2^32 packets.
        are_few(self.senders());
        let sender = &self.parts.senders[place];
        sender.sent == u32::MAX
    }

    /// How many packets the sender at this place has offered.
    pub fn sent(&self, place: usize) -> u32
        requires { place < length self.now.setup.senders }
        ensures { (sender : ℕ) → sender_at self.now.setup place ≡ Some sender → result ≡ length (numbers_of sender self.now.events) }
    {
        self.parts.senders[place].sent
    }

    /// The sender at this place offers its next packet, of this length in bytes, to its queue. Returns the packet and the outcome.
    #[inline(always)]
    pub fn offer(&mut self, place: usize, length: u16) -> (Packet, Offered)
        requires can { CanOffer self.old place }
        requires has_length { 1 ≤ length }
        ensures sender { sender_at self.old.setup place ≡ Some result.0.sender }
        ensures length { result.0.length ≡ length }
        ensures goes_on { self.new ≡ after self.old (offered result.0 result.1 ∷ []) }
    {
        let (packet, outcome) = self.parts.offer(place, length);
        self.past.offered(&packet, &outcome);
        (packet, outcome)
    }

    /// Whether a device can be pulled at this moment, in ticks: it exists, the moment is below 2^44, and it was pulled fewer than 2^63
    /// times.
    pub fn can_pull(&self, device: u16, moment: u64) -> bool
        ensures yes { result ≡ true → CanPull self.now device moment }
        ensures no { result ≡ false → CanPull self.now device moment → ⊥ }
    {
        let Some(its) = self.parts.devices.get(usize::from(device)) else {
            return false;
        };
        if moment >= END_OF_MOMENTS {
            return false;
        }
        its.session.pulls() < END_OF_PULLS
    }

    /// Pulls a device once, at this moment in ticks, or at the device's latest moment if that is later.
    ///
    /// # Errors
    ///
    /// Fault 1 if an allocation for what the devices keep fails. Then nothing has happened. It never fails if they keep nothing, or only
    /// the visits of the latest pull.
    #[inline(always)]
    pub fn pull(&mut self, device: u16, moment: u64) -> Result<Option<Packet>, Fault>
        requires can { CanPull self.old device moment }
        ensures pulled { IfOk result (IsPulled self.old self.new device moment) }
        ensures fault { IsOkUnless result Fault.Memory }
        ensures steady { grows self.old.keeps ≡ false → IsOk result }
        ensures unchanged { OnErr result (self.new ≡ self.old) }
    {
        let got = self.parts.pull(device, moment)?;
        self.past
            .pulled(&device, &moment, &self.parts.devices[usize::from(device)]);
        Ok(got)
    }

    /// The visits of a device's latest pull, in order, if the devices keep these, and else none. There are none before its first pull.
    pub fn latest(&self, device: u16) -> &[Visit]
        requires { device < length self.now.setup.trees }
        ensures visits { self.now.keeps.latest ≡ true → result.now ≡ latest_visits self.now device }
        ensures none { self.now.keeps.latest ≡ false → result.now ≡ [] }
    {
        self.parts.devices[usize::from(device)].session.latest()
    }

    /// The earliest moment, in ticks, at which a pull of a device could emit a packet, as things stand. It is the device's latest moment,
    /// or the next tick if every packet is below a Shaper that has no token for it yet. `None` if no packet is left for the device. If the
    /// next event is a pull before that moment, it emits nothing. A pull at that moment may still emit none, while a DRRSched saves up for
    /// the packet.
    pub fn due(&self, device: u16) -> Option<u64>
        requires { device < length self.now.setup.trees }
        ensures due { IsDeviceDue self.now device result }
        ensures before { EmitsNoneBefore self.now device result }
    {
        // No pull emits a packet at a moment at which it could emit none, by this law, which does nothing.
        pulls_emit_once_due();
        self.parts.due(device)
    }

    /// Whether a device can be closed at this moment, in ticks: it exists, at most 1,000,000 packets are left for it, the moment and the
    /// device's latest are below 2^43 - 1, and it was pulled fewer than 2^62 times.
    pub fn can_close(&self, device: u16, moment: u64) -> bool
        ensures yes { result ≡ true → CanClose self.now device moment }
        ensures no { result ≡ false → CanClose self.now device moment → ⊥ }
    {
        if usize::from(device) >= self.devices() || self.left(device) > MAX_LEFT {
            return false;
        }
        self.moment(device).max(moment) < END_OF_DRAINS && self.pulls(device) < END_OF_DRAINED_PULLS
    }

    /// Drains a device, if it can be closed: pulls it one tick apart until all packets that were accepted at it are evicted or emitted. The
    /// first pull is one tick after the later of this moment, in ticks, and the device's latest. Returns the packets that these pulls
    /// emitted, each with its moment.
    ///
    /// # Errors
    ///
    /// Fault 1 if an allocation fails. Then it holds the pulls that were made, packets are left for the device, and those that were emitted
    /// aren't returned.
    pub fn close(
        &mut self,
        alloc: Global,
        device: u16,
        moment: u64,
    ) -> Result<Vec<Departure>, Fault>
        requires can { CanClose self.old device moment }
        ensures closed { IfOk result (λ departures. IsClosed self.old self.new device moment departures.items) }
        ensures stopped { OnErr result (StopsShort self.old self.new device moment) }
        ensures fault { IsOkUnless result Fault.Memory }
    {
        // The empty log is a run, and what queues and heads hold is what is left, by these laws, which do nothing.
        runs_go_on();
        runs_conserve_packets();
        let departures = self.parts.close(alloc, device, moment);
        self.past
            .closed(&device, &moment, &self.parts.devices[usize::from(device)]);
        departures
    }

    /// The device's latest moment, in ticks: the greatest at which it was pulled, and 0 before its first pull.
    pub fn moment(&self, device: u16) -> u64
        requires { device < length self.now.setup.trees }
        ensures moment { result ≡ moment_at self.now device }
        ensures limit { result < END_OF_MOMENTS }
    {
        self.parts.devices[usize::from(device)].session.now()
    }

    /// How often a device was pulled.
    pub fn pulls(&self, device: u16) -> u64
        requires { device < length self.now.setup.trees }
        ensures { result ≡ pulls_at self.now device }
    {
        self.parts.devices[usize::from(device)].session.pulls()
    }

    /// How many queues it has.
    pub fn queues(&self) -> usize
        ensures count { result ≡ length self.now.setup.queues }
        ensures few { result ≤ MAX_ELEMENTS }
    {
        self.parts.paths.len()
    }

    /// The queue with this number, as it is now.
    pub fn queue(&self, number: u16) -> QueueState
        requires { number < length self.now.setup.queues }
        ensures state { IsQueueState self.now number result }
        ensures capacity { result.capacity ≤ MAX_CAPACITY }
        ensures held { result.held ≤ result.capacity }
    {
        let number = usize::from(number);
        let ring = &self.parts.queues.rings[number];
        QueueState {
            kind: ring.kind(),
            capacity: ring.capacity(),
            held: ring.len(),
            device: self.parts.paths[number],
        }
    }

    /// How many packets are left for a device: accepted at it, and neither evicted nor emitted.
    pub fn left(&self, device: u16) -> u64
        requires { device < length self.now.setup.trees }
        ensures { accepted_at self.now device ≡ evicted_at self.now device + emitted_at self.now device + result }
    {
        // The empty log is a run, and what queues and heads hold is what is left, by these laws, which do nothing.
        runs_go_on();
        runs_conserve_packets();
        self.parts.left(device)
    }

    /// Whether no packet is left for any device. Then all packets that were offered are settled.
    pub fn is_drained(&self) -> bool
        ensures yes { result ≡ true → IsDrained self.now }
        ensures no { result ≡ false → IsDrained self.now → ⊥ }
        ensures settled { result ≡ true → IsCourseSettled self.now.setup self.now.events }
        ensures all_out { result ≡ true → AreAllOut self.now.setup self.now.events }
    {
        // If nothing is left, all packets are settled, by this law, which does nothing.
        self.has_account();
        for device in 0..self.devices() {
            if self.left(device as u16) > 0 {
                return false;
            }
        }
        true
    }

    /// The visits of a device's pulls, in order, if the devices keep all as a list, and else none.
    pub fn log(&self, device: u16) -> &[Visit]
        requires { device < length self.now.setup.trees }
        ensures visits { self.now.keeps.visits ≡ true → result.now ≡ log_of (events_of self.now device) }
        ensures none { self.now.keeps.visits ≡ false → result.now ≡ [] }
    {
        self.parts.devices[usize::from(device)].session.log()
    }

    /// The packets that a device emitted, in order, if the devices keep these, and else none.
    pub fn emitted(&self, device: u16) -> &[Packet]
        requires { device < length self.now.setup.trees }
        ensures packets { self.now.keeps.packets ≡ true → result.now ≡ emitted (log_of (events_of self.now device)) }
        ensures none { self.now.keeps.packets ≡ false → result.now ≡ [] }
    {
        self.parts.devices[usize::from(device)].session.as_emitted()
    }
}

/// The tree of each device of a plan. Fault 1 if an allocation fails.
fn trees_of(alloc: Global, plan: &Plan) -> Result<Vec<Tree>, Fault>
    ensures trees { IfOk result (λ trees. AreTreesOf plan.now trees.items) }
    ensures each { IfOk result (λ trees. AllByRecursion CanStand trees.items) }
    ensures some { IfOk result (λ trees. 1 ≤ length trees.items) }
    ensures few { IfOk result (λ trees. length trees.items ≤ MAX_ELEMENTS) }
    ensures fault { IsOkUnless result Memory }
{
    let mut trees = Vec::new(alloc);
    for device in 0..plan.devices() {
        let tree = plan.tree(alloc, device)?;
        // Laws, which do nothing.
        tree.schedulers_are_sound();
        tree.closing_bound_is_low();
        trees.push(tree)?;
    }
    Ok(trees)
}

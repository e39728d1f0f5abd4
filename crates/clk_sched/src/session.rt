//! A session: a tree that is pulled, and what is kept of its past.

mod all;
pub(crate) mod departures;
mod drr;
mod due;
mod emitted;
mod got;
mod heads;
mod idle;
mod inputs;
pub(crate) mod keeps;
mod layout;
mod log;
mod nodes;
pub(crate) mod packed;
mod prio;
mod resting;
mod round_robin;
mod shaper;
mod state;
mod stride;

use crate::ask::Ask;
use crate::backlog::Backlog;
use crate::limits::END_OF_PULLS;
use crate::session::departures::{Departure, Departures};
use crate::session::emitted::EmittedPackets;
use crate::session::heads::held_heads;
use crate::session::keeps::Keeps;
use crate::session::layout::lay_out;
use crate::session::nodes::Nodes;
use crate::session::packed::PackedLog;
use crate::session::prio::{DEVICE, pull_device};
use crate::tree::Tree;
use crate::visit::Visit;
use clk_packet::{Fault, Packet};
use std::alloc::Global;
use std::marker::Model;

/// A tree of schedulers with all that its nodes hold, and what is kept of the past. Contracts speak of every visit that its nodes made,
/// whether visits are kept or not. A session can be pulled 2^63 times. If it keeps nothing, or only the latest pull's visits, it allocates
/// nothing as it goes on.
#[derive(Drop)]
pub struct Session {
    tree: Tree,
    nodes: Nodes,
    // The packets emitted at the device. If they are kept, nobody has to look for them in the log.
    emitted: EmittedPackets,
}

impl Model for Session {
    ghost use Rattle.std.specs.Prelude.{◌≡◌, ◌<◌, ◌≤◌, true, false, [], drop, length};
    ghost use Rattle.clk_sched.specs.declared.limits.TheConstants.{END_OF_MOMENTS};
    ghost use Rattle.clk_sched.specs.Tree.{leaves_distinct};
    ghost use Rattle.clk_sched.specs.inside.Places.{edges_of};
    ghost use Rattle.clk_sched.specs.inside.Session.{IsAfterRun};
    ghost use Rattle.clk_sched.specs.Session.{SessionLists, latest_pull};
    ghost use Rattle.clk_sched.specs.Results.{emitted as emitted_in};
    ghost use Rattle.std.specs.Coded.{codes};
    ghost use Rattle.clk_sched.specs.Stored.{tree_code};

    ghost Value = { SessionLists };

    ghost coded = { Prim.hlevel (codes, tree_code) };

    ghost view = { λ s. record {
      tree = s.tree;
      log = s.nodes.log.items;
      keeps = record { visits = s.nodes.log.kind.keeps; packed = s.nodes.log.kind.packs; packets = s.emitted.keeps; latest = s.nodes.log.kind.latest };
      gone = s.nodes.log.kind.gone;
    } };

    ghost invariant = { λ s. IsAfterRun s.tree s.nodes × (s.nodes.moment < END_OF_MOMENTS) × (leaves_distinct s.tree ≡ true)
        × (s.emitted.keeps ≡ true → s.emitted.packets.items ≡ emitted_in s.nodes.log.items)
        × (s.emitted.count ≡ length (emitted_in s.nodes.log.items)) × (s.emitted.count ≤ s.nodes.pull)
        × (drop s.nodes.log.kind.start s.nodes.log.items ≡ latest_pull s.nodes.log.items)
        × (s.nodes.log.kind.latest ≡ true → edges_of s.nodes.inputs.items 0 ≤ s.nodes.log.kind.room)
        × (s.emitted.keeps ≡ false → s.emitted.packets.items ≡ []) };
}

impl Session {
    ghost use Rattle.std.specs.Prelude.{◌≡◌, ℕ, ◌+◌, ◌<◌, ◌≤◌, ◌^◌, true, false, [], drop, length, max, Ok, Err, IfOk, IfErr, OnOk, OnErr, IsOk, IsOkUnless};
    ghost use Rattle.clk_packet.specs.declared.limits.TheConstants.{MAX_ELEMENTS};
    ghost use Rattle.clk_sched.specs.Tree.{root, leaves_distinct, IsSound};
    ghost use Rattle.clk_sched.specs.declared.limits.TheConstants.{MAX_LEFT, END_OF_MOMENTS, END_OF_DRAINS, END_OF_PULLS, END_OF_DRAINED_PULLS};
    ghost use Rattle.clk_sched.specs.LaidOut.{IsRefused};
    ghost use Rattle.clk_sched.specs.Packed.{logged};
    ghost use Rattle.clk_sched.specs.Run.{IsRun};
    ghost use Rattle.clk_sched.specs.Bound.{closing_bound};
    ghost use Rattle.clk_sched.specs.Results.{emitted, heads};
    ghost use Rattle.clk_packet.specs.declared.fault.Fault.TheVariants.{TooManyPulls};
    ghost use Rattle.clk_sched.specs.Answers.{Answers, tree_queue};
    ghost use Rattle.clk_sched.specs.Drain.{drain_start, HasDrained, after_pulls};
    ghost use Rattle.clk_sched.specs.Session.{IsPulledOnce, counted_moment, elements, latest_pull, newly, progress_of, pulls_made};
    ghost use Rattle.clk_sched.specs.Departures.{departures_in, pulls_since, IsAddedTo};
    ghost use Rattle.clk_sched.specs.declared.session.departures.Departures.TheVariants.{Dropped};
    ghost use Rattle.clk_sched.specs.Keeps.{grows, keeps_all, keeps_emitted, keeps_visits};
    ghost use Rattle.clk_sched.specs.Due.{IsDue, tree_could_emit};

    /// A session of this tree, in which no queue stands twice, before its first pull. It keeps every visit and every packet that the device
    /// emits.
    ///
    /// # Errors
    ///
    /// Fault 18 if the tree has more than 256 queues and schedulers, the device counted. Otherwise fault 1 if an allocation fails.
    pub fn new(alloc: Global, tree: Tree) -> Result<Session, Fault>
        requires distinct { leaves_distinct tree ≡ true }
        ensures made { IfOk result (λ s. s ≡ record { tree = tree; log = []; keeps = keeps_all; gone = 0 }) }
        ensures fits { IfOk result (λ s. 1 + elements (root tree) ≤ MAX_ELEMENTS) }
        ensures refused { IfErr result (λ fault. IsRefused tree fault) }
        ensures too_large { MAX_ELEMENTS < 1 + elements (root tree) → result ≡ Err Fault.TooLarge }
    {
        Session::keeping(alloc, tree, Keeps::ALL)
    }

    /// A session as `new` makes it, which keeps of the past what `keeps` says.
    ///
    /// # Errors
    ///
    /// Those of `new`.
    pub fn keeping(alloc: Global, tree: Tree, keeps: Keeps) -> Result<Session, Fault>
        requires distinct { leaves_distinct tree ≡ true }
        ensures made { IfOk result (λ s. s ≡ record { tree = tree; log = []; keeps = keeps; gone = 0 }) }
        ensures fits { IfOk result (λ s. 1 + elements (root tree) ≤ MAX_ELEMENTS) }
        ensures refused { IfErr result (λ fault. IsRefused tree fault) }
        ensures too_large { MAX_ELEMENTS < 1 + elements (root tree) → result ≡ Err Fault.TooLarge }
    {
        let nodes = lay_out(alloc, &tree, keeps)?;
        Ok(Session {
            tree,
            nodes,
            emitted: EmittedPackets::new(alloc, keeps.packets),
        })
    }

    /// Pulls the device once, and returns the packet that it emitted, if any. `moment`, in ticks, is below 2^44. A moment that is earlier
    /// than the latest so far counts as that.
    ///
    /// # Errors
    ///
    /// Fault 1 if an allocation fails, or if 2^63 pulls were made before. Then nothing has changed, and no queue was asked. A session that
    /// keeps nothing, or only the visits of the latest pull, allocates nothing.
    #[inline(always)]
    pub fn pull<Q: Ask>(&mut self, q: &mut Q, moment: u64) -> Result<Option<Packet>, Fault>
        requires moment { moment < END_OF_MOMENTS }
        ensures pulled { IfOk result (IsPulledOnce (progress_of self.old) (progress_of self.new) moment) }
        ensures answers { OnOk result (Answers Q.gives (tree_queue self.old.tree) q.old (newly (progress_of self.old) (progress_of self.new)) q.new) }
        ensures keeps { self.new.keeps ≡ self.old.keeps }
        ensures gone { self.new.gone ≡ self.old.gone }
        ensures fault { IsOkUnless result Fault.Memory }
        ensures steady { grows self.old.keeps ≡ false → pulls_made (progress_of self.old) < END_OF_PULLS → IsOk result }
        ensures ended { END_OF_PULLS ≤ pulls_made (progress_of self.old) → result ≡ Err Fault.Memory }
        ensures unchanged { OnErr result (self.new ≡ self.old) }
        ensures unasked { OnErr result (q.new ≡ q.old) }
    {
        if self.nodes.pull >= END_OF_PULLS {
            return Err(Fault::Memory);
        }
        let edges = usize::from(self.nodes.inputs[DEVICE as usize].edges);
        self.emitted.reserve(1)?;
        self.nodes.log.begin(edges)?;
        self.nodes.moment = self.nodes.moment.max(moment);
        let got = pull_device(&mut self.nodes, q);
        self.nodes.pull += 1;
        self.emitted.add(got);
        Ok(got)
    }

    /// Makes room for so many more packets, if packets are kept, and for as many visits, if these are kept packed. Pulls that emit no more
    /// packets then allocate nothing for them.
    ///
    /// # Errors
    ///
    /// Fault 1 if an allocation fails.
    pub fn reserve(&mut self, packets: usize) -> Result<(), Fault>
        ensures unchanged { self.new ≡ self.old }
        ensures fault { IsOkUnless result Fault.Memory }
    {
        self.nodes.log.reserve_packed(packets)?;
        self.emitted.reserve(packets)?;
        Ok(())
    }

    /// Pulls the device until `left` packets, 1,000,000 at most, were emitted, and returns the number of pulls. The pulls are one tick
    /// apart, the first one tick after the later of `moment` and the latest moment so far. That later moment is below 2^43 - 1. If `left`
    /// is 0, it makes no pull.
    ///
    /// # Errors
    ///
    /// Fault 1 if an allocation fails, or at the end of pulls. It never comes if nothing that grows is kept and fewer than 2^62 pulls were
    /// made before. Fault 17, with the number of pulls, if `bound(left)` pulls emitted fewer packets. The session then holds the pulls that
    /// were made. Fault 17 never comes if `q` loses nothing, and the heads and the leaves of the tree together hold exactly `left` packets.
    pub fn drain<Q: Ask>(&mut self, q: &mut Q, left: u64, moment: u64) -> Result<u64, Fault>
        requires left { left ≤ MAX_LEFT }
        requires moment { drain_start self.old moment < END_OF_DRAINS }
        ensures drained { HasDrained Q.gives Q.holds q.old q.new self.old self.new left moment result }
        ensures steady { grows self.old.keeps ≡ false → pulls_made (progress_of self.old) < END_OF_DRAINED_PULLS
            → IsOkUnless result (TooManyPulls (closing_bound self.old.tree left)) }
    {
        self.drain_to(q, &mut Departures::Dropped, left, moment)
    }

    // Drains the device as `drain` does, and adds emitted packets to the departures, if these are kept.
    fn drain_to<Q: Ask>(
        &mut self,
        q: &mut Q,
        departures: &mut Departures,
        left: u64,
        moment: u64,
    ) -> Result<u64, Fault>
        requires left { left ≤ MAX_LEFT }
        requires moment { drain_start self.old moment < END_OF_DRAINS }
        ensures drained { HasDrained Q.gives Q.holds q.old q.new self.old self.new left moment result }
        ensures steady { grows self.old.keeps ≡ false → pulls_made (progress_of self.old) < END_OF_DRAINED_PULLS → departures.old ≡ Dropped
            → IsOkUnless result (TooManyPulls (closing_bound self.old.tree left)) }
        ensures departures { IsAddedTo departures.old (departures_in (pulls_since (progress_of self.old) (progress_of self.new))) departures.new }
    {
        // Reading a field brings the type invariant into scope: the log is a run.
        let _ = &self.nodes;
        let bound = self.bound(left);
        let start = self.now().max(moment);
        let mut made = 0;
        let mut given = 0;
        while given < left {
            if made == bound {
                return Err(Fault::TooManyPulls { pulls: made });
            }
            departures.reserve()?;
            let got = self.pull(q, start + made + 1)?;
            made += 1;
            departures.add(start + made, got);
            if got.is_some() {
                given += 1;
            }
        }
        Ok(made)
    }

    /// Drains the device as `drain` does, and returns the packets that it emitted, with their moments.
    ///
    /// # Errors
    ///
    /// Fault 1 if an allocation fails, or at the end of pulls. Fault 17, with the number of pulls, if `bound(left)` pulls emitted fewer
    /// packets. The session then holds the pulls that were made. Fault 17 never comes if `q` loses nothing, and the heads and the leaves of
    /// the tree together hold exactly `left` packets.
    pub fn close<Q: Ask>(
        &mut self,
        alloc: Global,
        q: &mut Q,
        left: u64,
        moment: u64,
    ) -> Result<Vec<Departure>, Fault>
        requires left { left ≤ MAX_LEFT }
        requires moment { drain_start self.old moment < END_OF_DRAINS }
        ensures drained { (made : ℕ) × HasDrained Q.gives Q.holds q.old q.new self.old self.new left moment (after_pulls made result) }
        ensures departures { IfOk result (λ departures. departures.items ≡ departures_in (pulls_since (progress_of self.old) (progress_of self.new))) }
    {
        let mut departures = Departures::Kept(Vec::new(alloc));
        self.drain_to(q, &mut departures, left, moment)?;
        match departures {
            Departures::Kept(list) => Ok(list),
            Departures::Dropped => unreachable!(),
        }
    }

    /// How many pulls a drain of `left` packets, 1,000,000 at most, makes at most. For each packet it is one more than the number of
    /// schedulers on the longest path, times the rounds that the packet may need. These are 1 without a DRRSched. Otherwise they are the
    /// greatest length over the least quantum, rounded up, plus 1.
    pub fn bound(&self, left: u64) -> u64
        requires { left ≤ MAX_LEFT }
        ensures value { result ≡ closing_bound self.now.tree left }
        ensures limit { result < 2 ^ 42 }
        ensures sound { IsSound (root self.now.tree) }
    {
        // This call does nothing: its contract is a law.
        self.tree.schedulers_are_sound();
        left * self.tree.pulls_per_packet()
    }

    /// Drops the visits so far from memory, except those of the latest pull if these are kept. Contracts still speak of all.
    pub fn let_go(&mut self)
        ensures { self.new ≡ record { tree = self.old.tree; log = self.old.log; keeps = self.old.keeps; gone = length self.old.log } }
    {
        self.nodes.log.let_go();
    }

    /// The visits that are kept as a list, in order: all but those that were dropped, or none if they aren't kept. All visits, kept or not, are
    /// a run of the tree.
    pub fn log(&self) -> &[Visit]
        ensures visits { self.now.keeps.visits ≡ true → result.now ≡ drop self.now.gone self.now.log }
        ensures none { self.now.keeps.visits ≡ false → result.now ≡ [] }
        ensures run { IsRun self.now.tree self.now.log }
        ensures distinct { leaves_distinct self.now.tree ≡ true }
    {
        self.nodes.log.kept()
    }

    /// The visits of the latest pull, in order, if these are kept, and else none. There are none before the first pull.
    pub fn latest(&self) -> &[Visit]
        ensures visits { self.now.keeps.latest ≡ true → result.now ≡ latest_pull self.now.log }
        ensures none { self.now.keeps.latest ≡ false → result.now ≡ [] }
    {
        self.nodes.log.latest()
    }

    /// The counted moment, in ticks: the latest at which the session was pulled, and 0 before the first pull.
    pub fn now(&self) -> u64
        ensures moment { result ≡ counted_moment (progress_of self.now) }
        ensures limit { result < END_OF_MOMENTS }
    {
        self.nodes.moment
    }

    /// How many pulls were made.
    pub fn pulls(&self) -> u64
        ensures { result ≡ pulls_made (progress_of self.now) }
    {
        self.nodes.pull
    }

    /// The packets emitted at the device, in order, if they are kept, and else none.
    ///
    /// # Errors
    ///
    /// Fault 1 if an allocation fails.
    pub fn emitted(&self, alloc: Global) -> Result<Vec<Packet>, Fault>
        ensures packets { self.now.keeps.packets ≡ true → IfOk result (λ packets. packets.items ≡ emitted self.now.log) }
        ensures none { self.now.keeps.packets ≡ false → IfOk result (λ packets. packets.items ≡ []) }
        ensures fault { IsOkUnless result Fault.Memory }
    {
        Ok(self.as_emitted().to_vec(alloc)?)
    }

    /// The packets emitted at the device, in order, if they are kept, and else none, as the session keeps them.
    pub fn as_emitted(&self) -> &[Packet]
        ensures packets { self.now.keeps.packets ≡ true → result.now ≡ emitted self.now.log }
        ensures none { self.now.keeps.packets ≡ false → result.now ≡ [] }
    {
        // Reading a field brings the type invariant into scope: what is kept is what was emitted, or nothing.
        let _ = &self.nodes;
        self.emitted.packets.as_slice()
    }

    /// How many packets were emitted at the device.
    pub fn count_emitted(&self) -> u64
        ensures { result ≡ length (emitted self.now.log) }
    {
        // Reading a field brings the type invariant into scope: so many packets were emitted.
        let _ = &self.nodes;
        self.emitted.count
    }

    /// The visits that are kept as a list, and the packets emitted at the device that are kept, in order. Does not allocate.
    pub fn into_parts(self) -> (Vec<Visit>, Vec<Packet>)
        ensures log { self.keeps.visits ≡ true → result.0.items ≡ drop self.gone self.log }
        ensures no_log { self.keeps.visits ≡ false → result.0.items ≡ [] }
        ensures emitted { self.keeps.packets ≡ true → result.1.items ≡ emitted self.log }
        ensures none_emitted { self.keeps.packets ≡ false → result.1.items ≡ [] }
    {
        let Session { nodes, emitted, .. } = self;
        (nodes.log.into_kept(), emitted.packets)
    }

    /// The visits, if they are kept as a list or packed, and the packets emitted at the device, in order. Packets that aren't kept are read
    /// off the visits, if visits are kept and none was dropped.
    ///
    /// # Errors
    ///
    /// Fault 1 if an allocation fails. A session that keeps its packets allocates nothing, and never fails.
    pub fn into_packed(self, alloc: Global) -> Result<(PackedLog, Vec<Packet>), Fault>
        ensures log { IfOk result (λ parts. keeps_visits self.keeps ≡ true → logged parts.0 ≡ drop self.gone self.log) }
        ensures no_log { IfOk result (λ parts. keeps_visits self.keeps ≡ false → logged parts.0 ≡ []) }
        ensures emitted { IfOk result (λ parts. self.keeps.packets ≡ true → parts.1.items ≡ emitted self.log) }
        ensures told { IfOk result (λ parts. keeps_visits self.keeps ≡ true → self.gone ≡ 0 → parts.1.items ≡ emitted self.log) }
        ensures untold { IfOk result (λ parts. keeps_emitted self.keeps ≡ false → parts.1.items ≡ []) }
        ensures fault { IsOkUnless result Fault.Memory }
        ensures takes_none { self.keeps.packets ≡ true → IsOk result }
    {
        let Session { nodes, emitted, .. } = self;
        let log = nodes.log.into_packed(alloc);
        if emitted.keeps {
            return Ok((log, emitted.packets));
        }
        let packets = log.emitted(alloc)?;
        Ok((log, packets))
    }

    /// The earliest moment, in ticks, at which a pull could emit a packet, as things stand. It is the counted moment, or a later one if
    /// every packet is below a Shaper that has no room for it yet. `None` if no queue of the tree is backlogged and no head is held.
    pub fn due<B: Backlog>(&self, queues: &B) -> Option<u64>
        ensures due { IsDue (tree_could_emit self.now.tree self.now.log (B.backlogged queues.now)) (counted_moment (progress_of self.now)) result }
    {
        let inputs = &self.nodes.inputs[DEVICE as usize].each;
        self.nodes.due_among(queues, DEVICE, inputs)
    }

    /// The packets held as heads, by node and then by input.
    ///
    /// # Errors
    ///
    /// Fault 1 if an allocation fails.
    pub fn held_heads(&self, alloc: Global) -> Result<Vec<Packet>, Fault>
        ensures packets { IfOk result (λ packets. packets.items ≡ heads self.now.tree self.now.log) }
        ensures fault { IsOkUnless result Fault.Memory }
    {
        held_heads(alloc, &self.nodes)
    }
}

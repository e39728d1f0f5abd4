//! The nodes of a tree, by number, as they are pulled.

use crate::ask::Ask;
use crate::session::drr::Deficits;
use crate::session::got::Got;
use crate::session::idle::IdleInputs;
use crate::session::inputs::{Input, Inputs};
use crate::session::log::Log;
use crate::session::prio::pull_prio;
use crate::session::round_robin::Beginning;
use crate::session::shaper::Bucket;
use crate::session::state::State;
use crate::session::stride::{Passes, Rank, following};
use crate::visit::Visit;
use clk_packet::Packet;
use std::mem::{forget, replace};

/// From this number of inputs on, a StrideSched looks for empty ones first, which is then faster than asking each.
const MANY: u16 = 8;

/// The nodes of a tree in a pull, with the log.
#[derive(Drop)]
pub struct Nodes {
    /// The inputs of each node.
    pub inputs: Vec<Inputs>,
    /// What each node holds from pull to pull. While a state is taken out for a node's turn, `Prio` stands in its place.
    pub states: Vec<State>,
    /// Every visit so far, in order.
    pub log: Log,
    /// The number of the pull, from 0.
    pub pull: u64,
    /// The counted moment of the pull, in ticks.
    pub moment: u64,
}

impl Nodes {
    ghost use Rattle.std.specs.Prelude.{◌≡◌, ℕ, suc, None, ◌-◌, ◌<◌, ◌++◌, ◌∷◌, [], ◌+◌, ◌≤◌, length, take, IsSome, IfSome, Some, slice_get, true};
    ghost use Rattle.std.specs.List.{AllByRecursion, range_with_len};
    ghost use Rattle.clk_packet.specs.declared.limits.TheConstants.{MAX_INPUTS};
    ghost use Rattle.clk_sched.specs.declared.visit.Visit.{Visit};
    ghost use Rattle.clk_sched.specs.declared.session.state.State.TheVariants.{Prio};
    ghost use Rattle.clk_sched.specs.Answers.{Answers};
    ghost use Rattle.clk_sched.specs.inside.Places.{edges_of, edges_at, edges_in, input_at, queue_asked};
    ghost use Rattle.clk_sched.specs.Log.{asking};
    ghost use Rattle.clk_sched.specs.inside.Looking.{Logs};
    ghost use Rattle.clk_sched.specs.inside.Pulling.{CanPull, Keeps, Asks, added};
    ghost use Rattle.clk_sched.specs.inside.Ranks.{AreInOrder, inputs_in};
    ghost use Rattle.clk_sched.specs.inside.Turning.{with_state, with_idle_at, HasAsked, HasAskedAll, IsIdle, WasPulled};

    /// Pulls a node, as its class does, and returns its result.
    #[cycle(pull)]
    #[inline(always)]
    pub fn pull<Q: Ask>(&mut self, q: &mut Q, node: u16) -> Got
        requires can_pull { CanPull self.old node (edges_of self.old.inputs.items node) }
        ensures { WasPulled Q.gives self.old self.new q.old q.new node result }
    {
        match &self.states[node as usize] {
            State::Prio => pull_prio(self, q, node),
            State::RoundRobin(_) => Beginning::pull(self, q, node),
            State::Drr(_) => Deficits::pull(self, q, node),
            State::Stride(passes) => {
                if passes.is_vain() {
                    Passes::ask_on(self, q, node, 0)
                } else {
                    Passes::pull(self, q, node)
                }
            }
            State::Shaper(_) => Bucket::pull(self, q, node),
        }
    }

    /// Takes the state of a node out for its turn. `Prio` stands in its place meanwhile.
    #[inline]
    pub fn take(&mut self, node: u16) -> State
        requires { node < length self.old.states.items }
        ensures state { slice_get self.old.states.items node ≡ Some result }
        ensures taken { self.new ≡ with_state self.old node Prio }
    {
        replace(&mut self.states[node as usize], State::Prio)
    }

    /// Puts the state of a node back in its place.
    #[inline]
    pub fn put(&mut self, node: u16, state: State)
        requires { node < length self.old.states.items }
        ensures { self.new ≡ with_state self.old node state }
    {
        // What stands there meanwhile owns nothing to drop.
        forget(replace(&mut self.states[node as usize], state));
    }

    /// Asks inputs of a node in this order until one gives a packet, and returns its place in the order and the packet. Skips those that are
    /// known to give nothing.
    #[cycle(pull)]
    #[inline(always)]
    pub fn ask_in_order<Q: Ask>(
        &mut self,
        q: &mut Q,
        node: u16,
        order: &[Rank],
    ) -> Option<(usize, Packet)>
        requires can_pull { CanPull self.old node (edges_in self.old.inputs.items node (inputs_in order.now)) }
        requires within { AllByRecursion (λ i. IsSome (input_at self.old.inputs.items node i)) (inputs_in order.now) }
        requires order { AreInOrder order.now }
        ensures place { IfSome result (λ r. r.0 < length order.now) }
        ensures asked { HasAskedAll Q.gives self.old self.new q.old q.new node (inputs_in order.now) result }
    {
        let mut place = 0;
        while place < order.len() {
            place += self.pass_resting_of(q, node, &order[place..]);
            if place < order.len() {
                if let Some(packet) = self.look(q, node, order[place].input()) {
                    return Some((place, packet));
                }
                place += 1;
            }
        }
        None
    }

    /// Skips the longest run of consecutive, equal-pass inputs, from the first of these on, whose queues are known to be empty. Records a
    /// visit to each, and returns how many. It is 0 if the first is not known to be empty, or if they are so few that asking each is faster.
    #[inline]
    pub fn pass_idle_of<Q: Ask>(&mut self, q: &Q, node: u16, order: &[Rank]) -> usize
        requires can_pull { CanPull self.old node (edges_in self.old.inputs.items node (inputs_in order.now)) }
        requires within { AllByRecursion (λ i. IsSome (input_at self.old.inputs.items node i)) (inputs_in order.now) }
        requires order { AreInOrder order.now }
        ensures within { result ≤ length order.now }
        ensures asked { HasAskedAll Q.gives self.old self.new q.now q.now node (take result (inputs_in order.now)) None }
    {
        if order.len() < usize::from(MANY) {
            return 0;
        }
        // `MANY` consecutive inputs end `MANY` - 1 behind the first.
        let first = order[0].input();
        let last = order[usize::from(MANY) - 1].input();
        if usize::from(last) != usize::from(first) + usize::from(MANY) - 1 {
            return 0;
        }
        let left = self.inputs[node as usize].each.len() - usize::from(first);
        let idle = self.idle_from(q, node, first, order.len().min(left) as u16);
        if idle == 0 {
            return 0;
        }
        let count = following(&order[..usize::from(idle)]);
        self.record_idle(node, first, count as u16);
        count
    }

    /// Asks `count` inputs of a node, from `first` on, until one gives a packet. Returns its place among them and the packet. `vain` says
    /// that the first may well be idle.
    #[cycle(pull)]
    #[inline(always)]
    pub fn ask_in_turn<Q: Ask>(
        &mut self,
        q: &mut Q,
        node: u16,
        first: u16,
        count: u16,
        vain: bool,
    ) -> Option<(u16, Packet)>
        requires can_pull { CanPull self.old node (edges_in self.old.inputs.items node (range_with_len first count)) }
        requires within { AllByRecursion (λ i. IsSome (input_at self.old.inputs.items node i)) (range_with_len first count) }
        requires few { first + count ≤ MAX_INPUTS }
        ensures place { IfSome result (λ r. r.0 < count) }
        ensures asked { HasAskedAll Q.gives self.old self.new q.old q.new node (range_with_len first count) result }
    {
        let mut place = 0;
        if vain {
            place = self.pass_resting(q, node, first, count);
        }
        while place < count {
            place += self.pass_idle(q, node, first + place, count - place);
            if place < count {
                if let Some(packet) = self.look(q, node, first + place) {
                    return Some((place, packet));
                }
                place += 1;
                place += self.pass_resting(q, node, first + place, count - place);
            }
        }
        None
    }

    /// Skips inputs of a node, from `first` on and `count` at most, whose queues are known to be empty. Records a visit to each, and
    /// returns how many.
    #[inline]
    fn pass_idle<Q: Ask>(&mut self, q: &Q, node: u16, first: u16, count: u16) -> u16
        requires can_pull { CanPull self.old node (edges_in self.old.inputs.items node (range_with_len first count)) }
        requires within { AllByRecursion (λ i. IsSome (input_at self.old.inputs.items node i)) (range_with_len first count) }
        requires few { first + count ≤ MAX_INPUTS }
        ensures within { result ≤ count }
        ensures asked { HasAskedAll Q.gives self.old self.new q.now q.now node (range_with_len first result) None }
    {
        let idle = self.idle_from(q, node, first, count);
        if idle > 0 {
            self.record_idle(node, first, idle);
        }
        idle
    }

    /// How many inputs of a node, from `first` on and `count` at most, are queues known to be empty, without a gap.
    #[inline]
    pub fn idle_from<Q: Ask>(&self, q: &Q, node: u16, first: u16, count: u16) -> u16
        requires there { node < length self.now.inputs.items }
        requires within { (i : ℕ) → i < count → IsSome (input_at self.now.inputs.items node (first + i)) }
        ensures within { result ≤ count }
        ensures idle { (i : ℕ) → i < result → IsIdle Q.gives self.now q.now node (first + i) }
    {
        match self.inputs[node as usize].queues_from() {
            Some(leaf) if count > 0 => q.idle_from(leaf + first, count),
            _ => 0,
        }
    }

    /// Asks what stands at an input of a node, records the visit, and returns what it got.
    #[cycle(pull)]
    #[inline(always)]
    pub fn look<Q: Ask>(&mut self, q: &mut Q, node: u16, input: u16) -> Option<Packet>
        requires can_pull { CanPull self.old node (edges_at self.old.inputs.items node input) }
        requires within { IsSome (input_at self.old.inputs.items node input) }
        ensures { HasAsked Q.gives self.old self.new q.old q.new node input result }
    {
        let got = self.ask(q, node, input);
        self.record(node, input, got);
        got
    }

    /// Records that an input of a node was asked, and what it gave.
    #[inline(always)]
    pub fn record(&mut self, node: u16, input: u16, got: Option<Packet>)
        requires { 1 ≤ self.old.log.spare }
        ensures { Logs self.old self.new (asking self.old.pull self.old.moment node input got) }
    {
        if self.log.keeps_any() {
            self.record_kept(node, input, got);
            return;
        }
        self.log
            .pass(&Visit::asking(self.pull, self.moment, node, input, got));
    }

    /// Records it as `record` does, in a log that keeps visits. It is a call of its own, so that a pull whose visits aren't kept puts none
    /// together.
    #[inline(never)]
    fn record_kept(&mut self, node: u16, input: u16, got: Option<Packet>)
        requires { 1 ≤ self.old.log.spare }
        ensures { Logs self.old self.new (asking self.old.pull self.old.moment node input got) }
    {
        self.log
            .push(Visit::asking(self.pull, self.moment, node, input, got));
    }

    /// Records that `count` inputs of a node, from `first` on, were asked and gave nothing.
    #[inline]
    pub fn record_idle(&mut self, node: u16, first: u16, count: u16)
        requires room { count ≤ self.old.log.spare }
        requires few { first + count ≤ MAX_INPUTS }
        ensures { self.new ≡ with_idle_at self.old node first count }
    {
        if self.log.keeps_any() {
            self.record_idle_kept(node, first, count);
            return;
        }
        self.log.pass_idle(&IdleInputs {
            pull: self.pull,
            moment: self.moment,
            node,
            first,
            count,
        });
    }

    /// Records it as `record_idle` does, in a log that keeps visits. It is a call of its own, as `record_kept` is.
    #[inline(never)]
    fn record_idle_kept(&mut self, node: u16, first: u16, count: u16)
        requires room { count ≤ self.old.log.spare }
        requires few { first + count ≤ MAX_INPUTS }
        ensures { self.new ≡ with_idle_at self.old node first count }
    {
        self.log.push_idle(&IdleInputs {
            pull: self.pull,
            moment: self.moment,
            node,
            first,
            count,
        });
    }

    /// Asks what stands at an input of a node.
    #[cycle(pull)]
    #[inline(always)]
    pub fn ask<Q: Ask>(&mut self, q: &mut Q, node: u16, input: u16) -> Option<Packet>
        requires can_pull { CanPull self.old node (edges_at self.old.inputs.items node input) }
        requires within { IsSome (input_at self.old.inputs.items node input) }
        ensures keeps { Keeps (suc node) self.old self.new (edges_at self.old.inputs.items node input - 1) }
        ensures answers { (v : Visit) → v.node ≡ node → v.input ≡ input → v.fresh ≡ true → v.got ≡ result
            → Answers Q.gives (queue_asked self.old.inputs.items) q.old (added self.old self.new ++ v ∷ []) q.new }
        ensures asks { Asks self.old self.new node input result }
    {
        match self.inputs[node as usize].each[input as usize] {
            Input::Queue(leaf) => q.ask(leaf),
            Input::Node(child) => self.pull(q, child).packet(),
        }
    }
}

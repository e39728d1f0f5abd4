//! Nodes that give nothing and change nothing, since all queues below them are empty.

use crate::ask::Ask;
use crate::session::inputs::Input;
use crate::session::nodes::Nodes;
use crate::session::stride::Rank;

impl Nodes {
    ghost use Rattle.std.specs.Prelude.{◌≡◌, ◌<◌, ◌≤◌, ◌+◌, ◌||◌, true, false, length, take, List, None, IsSome};
    ghost use Rattle.std.specs.List.{AllByRecursion, range_with_len};
    ghost use Rattle.clk_packet.specs.declared.limits.TheConstants.{MAX_INPUTS};
    ghost use Rattle.clk_sched.specs.declared.visit.Visit.{Visit};
    ghost use Rattle.clk_sched.specs.inside.Places.{AreWired, AllFit, edges_at, edges_in, input_at};
    ghost use Rattle.clk_sched.specs.inside.Pulling.{CanPull};
    ghost use Rattle.clk_sched.specs.inside.Ranks.{AreInOrder, inputs_in};
    ghost use Rattle.clk_sched.specs.inside.Resting.{IsIdleNode, IsIdleInput, AreAtRest, with_block};
    ghost use Rattle.clk_sched.specs.inside.Turning.{HasAsked, HasAskedAll};

    /// Skips inputs of a node, from `first` on and `count` at most, of which it is known that asking them gives nothing and changes nothing.
    /// Records a visit to each, and returns how many. It is 0 where visits are kept, and where all inputs are queues in a row: `pass_idle`
    /// skips these together.
    // A function of its own, so that a pull that gets a packet at once pays nothing for it.
    #[inline(never)]
    pub fn pass_resting<Q: Ask>(&mut self, q: &Q, node: u16, first: u16, count: u16) -> u16
        requires can_pull { CanPull self.old node (edges_in self.old.inputs.items node (range_with_len first count)) }
        requires within { AllByRecursion (λ i. IsSome (input_at self.old.inputs.items node i)) (range_with_len first count) }
        requires few { first + count ≤ MAX_INPUTS }
        ensures within { result ≤ count }
        ensures asked { HasAskedAll Q.gives self.old self.new q.now q.now node (range_with_len first result) None }
    {
        if self.inputs[node as usize].queues_from().is_some() {
            return 0;
        }
        for place in 0..count {
            if !self.skip(q, node, first + place) {
                return place;
            }
        }
        count
    }

    /// Skips inputs of a node in this order, from the first on, as `pass_resting` does. Queues in a row are skipped together here, also where
    /// visits are kept.
    #[inline(never)]
    pub fn pass_resting_of<Q: Ask>(&mut self, q: &Q, node: u16, order: &[Rank]) -> usize
        requires can_pull { CanPull self.old node (edges_in self.old.inputs.items node (inputs_in order.now)) }
        requires within { AllByRecursion (λ i. IsSome (input_at self.old.inputs.items node i)) (inputs_in order.now) }
        requires order { AreInOrder order.now }
        ensures within { result ≤ length order.now }
        ensures asked { HasAskedAll Q.gives self.old self.new q.now q.now node (take result (inputs_in order.now)) None }
    {
        let mut place = 0;
        while place < order.len() {
            let idle = self.pass_idle_of(q, node, &order[place..]);
            if idle > 0 {
                place += idle;
                continue;
            }
            if !self.skip(q, node, order[place].input()) {
                return place;
            }
            place += 1;
        }
        order.len()
    }

    /// Skips an input of a node, if visits aren't kept and it is known that asking it gives nothing and changes nothing. Records a visit to
    /// it, and returns whether it did.
    #[inline(always)]
    pub fn skip<Q: Ask>(&mut self, q: &Q, node: u16, input: u16) -> bool
        requires can_pull { CanPull self.old node (edges_at self.old.inputs.items node input) }
        requires within { IsSome (input_at self.old.inputs.items node input) }
        ensures asked { result ≡ true → HasAsked Q.gives self.old self.new q.now q.now node input None }
        ensures stays { result ≡ false → self.new ≡ self.old }
    {
        if self.log.keeps_any() {
            return false;
        }
        if !self.rests_at(q, node, input) {
            return false;
        }
        self.pass_visits(node, input);
        true
    }

    /// Whether what stands at an input of a node is known to give nothing and to change nothing if it is asked.
    #[inline(always)]
    fn rests_at<Q: Ask>(&self, q: &Q, node: u16, input: u16) -> bool
        requires can_pull { CanPull self.now node (edges_at self.now.inputs.items node input) }
        requires within { IsSome (input_at self.now.inputs.items node input) }
        ensures { result ≡ true → IsIdleInput Q.gives self.now q.now node input }
    {
        match self.inputs[node as usize].each[input as usize] {
            Input::Queue(leaf) => q.idle_from(leaf, 1) == 1,
            Input::Node(child) => self.is_idle(q, child),
        }
    }

    // Adds the visit to an input of a node, and those below it, which only contracts see.
    #[inline]
    fn pass_visits(&mut self, _node: u16, _input: u16)
        ghost visits: { List Visit }
        requires unkept { self.old.log.kind.keeps || (self.old.log.kind.packs || self.old.log.kind.latest) ≡ false }
        ensures { self.new ≡ with_block self.old visits }
    {
        self.log.pass_all();
    }

    /// Whether all queues below a node are known to be empty, and it and all nodes below it are at rest.
    // Queues between the least and the greatest leaf that stand elsewhere count too. Mostly there are none. A function of its own, so that an
    // input where a queue stands is looked at without a call.
    #[inline(never)]
    fn is_idle<Q: Ask>(&self, q: &Q, node: u16) -> bool
        requires there { node < length self.now.inputs.items }
        requires wired { AreWired self.now.inputs.items }
        requires fit { AllFit self.now.inputs.items self.now.states.items }
        ensures { result ≡ true → IsIdleNode Q.gives self.now q.now node }
    {
        let below = self.inputs[node as usize].below();
        if below.last < below.first {
            return false;
        }
        let Some(leaves) = (below.last - below.first).checked_add(1) else {
            return false;
        };
        if q.idle_from(below.first, leaves) < leaves {
            return false;
        }
        self.are_at_rest(node, below.nodes)
    }

    /// Whether a node and so many after it are at rest.
    #[inline]
    fn are_at_rest(&self, node: u16, after: u16) -> bool
        requires { node + after < length self.now.states.items }
        ensures { result ≡ true → AreAtRest self.now.states.items node after }
    {
        let count = after as usize + 1;
        for place in 0..count {
            if !self.states[node as usize + place].is_at_rest() {
                return false;
            }
        }
        true
    }
}

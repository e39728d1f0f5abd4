//! From which moment on a pull could emit a packet.

ghost use Rattle.std.specs.Prelude.{◌≡◌, ◌<◌, ◌≤◌, length, IfSome};
ghost use Rattle.clk_sched.specs.Due.{has_come};
ghost use Rattle.clk_sched.specs.inside.Due.{sooner_of};

use crate::backlog::Backlog;
use crate::session::inputs::Input;
use crate::session::nodes::Nodes;

impl Nodes {
    ghost use Rattle.std.specs.Prelude.{◌+◌, [], ◌∷◌};
    ghost use Rattle.std.specs.List.{AllByRecursion};
    ghost use Rattle.clk_sched.specs.declared.limits.TheConstants.{END_OF_MOMENTS};
    ghost use Rattle.clk_sched.specs.inside.Due.{AreDue, IsDueAt};
    ghost use Rattle.clk_sched.specs.inside.Places.{AreWired, AllFit, IsAfter};

    /// The earliest moment, in ticks, from that of these nodes on, at which a pull could emit a packet from a node, as things stand. `None`
    /// if no queue below the node is backlogged, and neither the node nor one below it holds a head.
    #[cycle(due)]
    fn due_at<B: Backlog>(&self, queues: &B, node: u16) -> Option<u64>
        requires there { node < length self.now.inputs.items }
        requires wired { AreWired self.now.inputs.items }
        requires fit { AllFit self.now.inputs.items self.now.states.items }
        requires moment { self.now.moment < END_OF_MOMENTS }
        ensures due { IsDueAt self.now (B.backlogged queues.now) node result }
        ensures soon { IfSome result (λ due. due ≤ self.now.moment + 1) }
    {
        let state = &self.states[node as usize];
        let opens = state.opens_at(self.moment);
        if state.holds_head() {
            return Some(opens);
        }
        let inputs = &self.inputs[node as usize].each;
        let due = self.due_among(queues, node, inputs)?;
        Some(due.max(opens))
    }

    /// The earliest moment at which a pull could emit a packet from one of these inputs of a node.
    #[cycle(due)]
    pub fn due_among<B: Backlog>(&self, queues: &B, above: u16, inputs: &[Input]) -> Option<u64>
        requires after { AllByRecursion (IsAfter (length self.now.inputs.items) above) inputs.now }
        requires wired { AreWired self.now.inputs.items }
        requires fit { AllFit self.now.inputs.items self.now.states.items }
        requires moment { self.now.moment < END_OF_MOMENTS }
        ensures due { AreDue self.now (B.backlogged queues.now) inputs.now result }
        ensures soon { IfSome result (λ due. due ≤ self.now.moment + 1) }
    {
        let [first, rest @ ..] = inputs else {
            return None;
        };
        let here = self.due_from(queues, above, first);
        // Nothing is due sooner than at once.
        if here == Some(self.moment) {
            return here;
        }
        sooner(here, self.due_among(queues, above, rest))
    }

    /// The earliest moment at which a pull could emit a packet from one input of a node.
    #[cycle(due)]
    fn due_from<B: Backlog>(&self, queues: &B, above: u16, input: &Input) -> Option<u64>
        requires after { IsAfter (length self.now.inputs.items) above input.now }
        requires wired { AreWired self.now.inputs.items }
        requires fit { AllFit self.now.inputs.items self.now.states.items }
        requires moment { self.now.moment < END_OF_MOMENTS }
        ensures due { AreDue self.now (B.backlogged queues.now) (input.now ∷ []) result }
        ensures soon { IfSome result (λ due. due ≤ self.now.moment + 1) }
    {
        match input {
            Input::Queue(leaf) => self.due_if(queues.is_backlogged(*leaf)),
            Input::Node(below) => self.due_at(queues, *below),
        }
    }

    // The moment of these nodes, if something is backlogged.
    fn due_if(&self, backlogged: bool) -> Option<u64>
        ensures due { (moment : _) → self.now.moment ≤ moment → has_come result moment ≡ backlogged }
        ensures now { IfSome result (λ due. due ≡ self.now.moment) }
    {
        if backlogged { Some(self.moment) } else { None }
    }
}

// The sooner of two moments, each of which may be none.
fn sooner(one: Option<u64>, other: Option<u64>) -> Option<u64>
    ensures { result ≡ sooner_of one other }
{
    match (one, other) {
        (Some(a), Some(b)) => Some(a.min(b)),
        (Some(a), None) => Some(a),
        (None, b) => b,
    }
}

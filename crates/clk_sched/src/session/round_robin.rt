//! The state and the pull of a RoundRobinSched.

use crate::ask::Ask;
use crate::session::got::Got;
use crate::session::inputs::input_after;
use crate::session::nodes::Nodes;
use crate::session::state::State;

/// The input at which the next pull begins.
#[derive(Clone, Copy, Debug)]
pub struct Beginning {
    pub input: u16,
}

impl Beginning {
    ghost use Rattle.std.specs.Prelude.{◌≡◌, ◌<◌, [], ◌∷◌, length, Some, IfSome, slice_get};
    ghost use Rattle.clk_sched.specs.inside.Places.{edges_of};
    ghost use Rattle.clk_sched.specs.inside.Pulling.{CanPull};
    ghost use Rattle.clk_sched.specs.inside.Turning.{with_state, MayAskOn, WasPulled};
    ghost use Rattle.clk_sched.specs.inside.Holds.OfClass.{IsRoundRobin};
    ghost use Rattle.clk_sched.specs.declared.session.state.State.TheVariants.{RoundRobin};

    /// Pulls a RoundRobinSched.
    // What it holds stays in its place, since nothing of it is needed while inputs are asked.
    #[cycle(pull)]
    #[inline(never)]
    pub fn pull<Q: Ask>(nodes: &mut Nodes, q: &mut Q, node: u16) -> Got
        requires can_pull { CanPull nodes.old node (edges_of nodes.old.inputs.items node) }
        requires holds { IfSome (slice_get nodes.old.states.items node) IsRoundRobin }
        ensures { WasPulled Q.gives nodes.old nodes.new q.old q.new node result }
    {
        match Beginning::first_input(nodes, q, node) {
            Some(input) => Beginning::ask_first(nodes, q, node, input),
            None => Beginning::ask_on(nodes, q, node, 0),
        }
    }

    // The input at which a pull begins, unless it is known to be idle.
    #[inline(always)]
    fn first_input<Q: Ask>(nodes: &Nodes, q: &Q, node: u16) -> Option<u16>
        requires can_pull { CanPull nodes.now node (edges_of nodes.now.inputs.items node) }
        requires holds { IfSome (slice_get nodes.now.states.items node) IsRoundRobin }
        ensures { IfSome result (λ input. slice_get nodes.now.states.items node ≡ Some (RoundRobin (record { input = input }))) }
    {
        let beginning = Beginning::of(nodes, node);
        if nodes.idle_from(q, node, beginning.input, 1) > 0 {
            return None;
        }
        Some(beginning.input)
    }

    // Pulls a RoundRobinSched whose first input mostly gives a packet. It and the loops over the other inputs are calls of their own, so that
    // neither pays for the other.
    #[cycle(pull)]
    #[inline(never)]
    fn ask_first<Q: Ask>(nodes: &mut Nodes, q: &mut Q, node: u16, input: u16) -> Got
        requires can_pull { CanPull nodes.old node (edges_of nodes.old.inputs.items node) }
        requires holds { slice_get nodes.old.states.items node ≡ Some (RoundRobin (record { input = input })) }
        ensures { WasPulled Q.gives nodes.old nodes.new q.old q.new node result }
    {
        let Some(packet) = nodes.look(q, node, input) else {
            return Beginning::ask_on(nodes, q, node, 1);
        };
        let inputs = nodes.inputs[node as usize].each.len() as u16;
        Beginning::begin_at(nodes, node, input_after(input, inputs));
        Got::new(Some(packet))
    }

    // Goes on with the turn of a RoundRobinSched that asked the first so many inputs, one at most, which gave nothing.
    #[cycle(pull)]
    #[inline(never)]
    fn ask_on<Q: Ask>(nodes: &mut Nodes, q: &mut Q, node: u16, asked: u16) -> Got
        requires { (b : Beginning) × MayAskOn Q.gives nodes.old q.old node (RoundRobin b) (b.input ∷ []) asked }
        ensures { (b : Beginning) (m : MayAskOn Q.gives nodes.old q.old node (RoundRobin b) (b.input ∷ []) asked) → WasPulled Q.gives m.first nodes.new m.before q.new node result }
    {
        let inputs = nodes.inputs[node as usize].each.len() as u16;
        let beginning = Beginning::of(nodes, node);
        let first = beginning.input;
        if let Some((place, packet)) = nodes.ask_in_turn(
            q,
            node,
            first + asked,
            inputs - first - asked,
            asked > 0,
        ) {
            let input = input_after(first + asked + place, inputs);
            Beginning::begin_at(nodes, node, input);
            return Got::new(Some(packet));
        }
        match nodes.ask_in_turn(q, node, 0, first, true) {
            Some((place, packet)) => {
                Beginning::begin_at(nodes, node, place + 1);
                Got::new(Some(packet))
            }
            None => Got::new(None),
        }
    }

    // Has the next pull begin at this input.
    #[inline]
    fn begin_at(nodes: &mut Nodes, node: u16, input: u16)
        requires there { node < length nodes.old.states.items }
        requires holds { IfSome (slice_get nodes.old.states.items node) IsRoundRobin }
        ensures { nodes.new ≡ with_state nodes.old node (RoundRobin (record { input = input })) }
    {
        if let State::RoundRobin(beginning) = &mut nodes.states[node as usize] {
            beginning.input = input;
        }
    }

    // What a RoundRobinSched holds.
    #[inline]
    fn of(nodes: &Nodes, node: u16) -> Beginning
        requires there { node < length nodes.now.states.items }
        requires holds { IfSome (slice_get nodes.now.states.items node) IsRoundRobin }
        ensures { slice_get nodes.now.states.items node ≡ Some (RoundRobin result) }
    {
        match &nodes.states[node as usize] {
            State::RoundRobin(beginning) => *beginning,
            _ => unreachable!(),
        }
    }
}

//! The pull of a PrioSched, and of the device, which is one over one input.

ghost use Rattle.std.specs.Prelude.{◌≡◌, IfSome, length, slice_get};
ghost use Rattle.clk_sched.specs.inside.Places.{edges_of};
ghost use Rattle.clk_sched.specs.inside.Holds.OfClass.{IsPrio};
ghost use Rattle.clk_sched.specs.inside.Pulling.{CanPull};
ghost use Rattle.clk_sched.specs.inside.Turning.{WasPulled};

use crate::ask::Ask;
use crate::session::got::Got;
use crate::session::nodes::Nodes;
use clk_packet::Packet;

/// The node number of the device.
pub const DEVICE: u16 = 0;

/// Pulls the device. It asks its one input, with nothing to choose.
#[inline(always)]
pub fn pull_device<Q: Ask>(nodes: &mut Nodes, q: &mut Q) -> Option<Packet>
    requires can_pull { CanPull nodes.old 0 (edges_of nodes.old.inputs.items 0) }
    requires holds { IfSome (slice_get nodes.old.states.items 0) IsPrio }
    requires one { IfSome (slice_get nodes.old.inputs.items 0) (λ p. length p.each.items ≡ 1) }
    ensures { WasPulled Q.gives nodes.old nodes.new q.old q.new 0 result }
{
    nodes.look(q, DEVICE, 0)
}

/// Pulls a PrioSched.
#[cycle(pull)]
#[inline(never)]
pub fn pull_prio<Q: Ask>(nodes: &mut Nodes, q: &mut Q, node: u16) -> Got
    requires can_pull { CanPull nodes.old node (edges_of nodes.old.inputs.items node) }
    requires holds { IfSome (slice_get nodes.old.states.items node) IsPrio }
    ensures { WasPulled Q.gives nodes.old nodes.new q.old q.new node result }
{
    let inputs = nodes.inputs[node as usize].each.len() as u16;
    match nodes.ask_in_turn(q, node, 0, inputs, false) {
        Some((_, packet)) => Got::new(Some(packet)),
        None => Got::new(None),
    }
}

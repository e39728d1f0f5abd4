//! The checks of devices, of trees and of sizes.

ghost use Rattle.std.specs.Prelude.{◌≡◌, ◌<◌, ◌≤◌, length, Some, IfOk, IsOkUnless, if◌then◌else◌};
ghost use Rattle.clk_packet.specs.declared.limits.TheConstants.{MAX_ELEMENTS};
ghost use Rattle.clk_syntax.specs.Ports.{is_scheduler, has_device, not_a_tree};
ghost use Rattle.clk_syntax.specs.Size.{levels, is_too_large, too_large};
ghost use Rattle.clk_syntax.specs.Tables.{IsTabled};

use crate::checks::paths::ends_of;
use crate::checks::tables::Graph;
use crate::naming::class::Role;
use crate::node::Node;
use clk_packet::{Fault, MAX_ELEMENTS, MAX_INPUTS, MAX_LEVELS};
use std::alloc::Global;

/// Whether a device is declared.
pub fn has_device(nodes: &[Node]) -> bool
    ensures { result ≡ has_device nodes.now }
{
    nodes.iter().any(|node| node.role.is_device())
}

/// Where a scheduler or Shaper is declared whose outputs don't lead to a device, in bytes of the text. Fault 1 if an allocation fails.
pub fn not_a_tree(alloc: Global, graph: &Graph) -> Result<Option<u32>, Fault>
    requires { IsTabled graph.now }
    ensures place { IfOk result (λ place. place ≡ not_a_tree graph.now.nodes.now graph.now.links.now) }
    ensures fault { IsOkUnless result Fault.Memory }
{
    let ends = ends_of(alloc, graph)?;
    for (place, node) in graph.nodes.iter().enumerate() {
        if node.role.is_scheduler() && !graph.role(ends[place]).is_device() {
            return Ok(Some(node.place));
        }
    }
    Ok(None)
}

/// What an element adds to the schedulers and Shapers on a way.
fn level(role: Role) -> u32
    ensures { result ≡ (if is_scheduler (Some role) then 1 else 0) }
{
    if role.is_scheduler() { 1 } else { 0 }
}

/// How many schedulers and Shapers stand on the way from an element on, itself among them.
fn levels(graph: &Graph, start: u32) -> u32
    requires tabled { IsTabled graph.now }
    requires few { length graph.now.nodes.now ≤ MAX_ELEMENTS }
    requires start { start < length graph.now.nodes.now }
    ensures { result ≡ levels graph.now.nodes.now graph.now.links.now start }
{
    let mut count = 0;
    let mut at = start;
    for left in (0..graph.nodes.len()).rev() {
        let level = level(graph.role(at));
        count += level;
        match graph.target(at) {
            Some(target) => at = target,
            // Nothing comes after this element, which doesn't count.
            None if level == 0 => return count,
            None => {}
        }
    }
    count
}

/// Whether an element has too many inputs, or too many schedulers and Shapers on its way.
fn is_too_large(graph: &Graph, place: u32, node: Node) -> bool
    requires tabled { IsTabled graph.now }
    requires few { length graph.now.nodes.now ≤ MAX_ELEMENTS }
    requires place { place < length graph.now.nodes.now }
    ensures { result ≡ is_too_large place node graph.now.nodes.now graph.now.links.now }
{
    if node.role.inputs_with(graph.inputs(place).end) > MAX_INPUTS as u32 {
        return true;
    }
    levels(graph, place) > MAX_LEVELS as u32
}

/// Whether there are too many elements, or one is too large.
pub fn too_large(graph: &Graph) -> bool
    requires { IsTabled graph.now }
    ensures { result ≡ too_large graph.now.nodes.now graph.now.links.now }
{
    if graph.nodes.len() > MAX_ELEMENTS as usize {
        return true;
    }
    for (place, node) in graph.nodes.iter().enumerate() {
        if is_too_large(graph, place as u32, *node) {
            return true;
        }
    }
    false
}

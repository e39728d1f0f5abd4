//! The checks of elements and connections, in order.

mod paths;
mod ports;
mod role;
mod shape;
pub mod tables;
mod used;

ghost use Rattle.std.specs.Prelude.{◌≡◌, ◌⊎◌, Some, None, OnOk, IfErr};
ghost use Rattle.clk_syntax.specs.Faults.{port_fault, shape_fault, nodes_fault};
ghost use Rattle.clk_syntax.specs.Tables.{IsTabled};

use crate::checks::ports::{bad_port, port_missing, port_twice, wrong_kind};
use crate::checks::shape::{has_device, not_a_tree, too_large};
use crate::checks::tables::Graph;
use clk_packet::Fault;
use std::alloc::Global;

/// Checks that ports are connected as they should be. Faults 7 to 10 if they aren't, the first in this order, and fault 1 if an allocation
/// fails.
fn check_ports(alloc: Global, graph: &Graph) -> Result<(), Fault>
    requires { IsTabled graph.now }
    ensures good { OnOk result (port_fault graph.now.nodes.now graph.now.links.now ≡ None) }
    ensures fault { IfErr result (λ fault. (fault ≡ Fault.Memory) ⊎ (port_fault graph.now.nodes.now graph.now.links.now ≡ Some fault)) }
{
    if let Some(offset) = bad_port(graph.nodes, graph.links) {
        return Err(Fault::BadPort { offset });
    }
    if let Some(offset) = port_twice(alloc, graph)? {
        return Err(Fault::PortTwice { offset });
    }
    if let Some(offset) = port_missing(graph) {
        return Err(Fault::PortMissing { offset });
    }
    if let Some(offset) = wrong_kind(graph.nodes, graph.links) {
        return Err(Fault::WrongKind { offset });
    }
    Ok(())
}

/// Checks that there is a device, that all schedulers and Shapers lead to one, and that nothing is too large. Faults 11, 13 and 18 if not,
/// the first in this order, and fault 1 if an allocation fails.
fn check_shape(alloc: Global, graph: &Graph) -> Result<(), Fault>
    requires { IsTabled graph.now }
    ensures good { OnOk result (shape_fault graph.now.nodes.now graph.now.links.now ≡ None) }
    ensures fault { IfErr result (λ fault. (fault ≡ Fault.Memory) ⊎ (shape_fault graph.now.nodes.now graph.now.links.now ≡ Some fault)) }
{
    if !has_device(graph.nodes) {
        return Err(Fault::NoDevice);
    }
    if let Some(offset) = not_a_tree(alloc, graph)? {
        return Err(Fault::NotATree { offset });
    }
    if too_large(graph) {
        return Err(Fault::TooLarge);
    }
    Ok(())
}

/// Checks that elements and connections make up trees, one for each device. Faults 7 to 11, 13 and 18 if they don't, the first in this
/// order, and fault 1 if an allocation fails.
pub fn check_graph(alloc: Global, graph: &Graph) -> Result<(), Fault>
    requires { IsTabled graph.now }
    ensures good { OnOk result (nodes_fault graph.now.nodes.now graph.now.links.now ≡ None) }
    ensures fault { IfErr result (λ fault. (fault ≡ Fault.Memory) ⊎ (nodes_fault graph.now.nodes.now graph.now.links.now ≡ Some fault)) }
{
    check_ports(alloc, graph)?;
    check_shape(alloc, graph)
}

//! The checks of ports.

ghost use Rattle.std.specs.Prelude.{◌≡◌, ℕ, ◌<◌, ◌==◌, ◌&&◌, ◌||◌, true, length, slice_set, Some, None, IfOk, IsOkUnless};
ghost use Rattle.std.specs.List.{AllByRecursion};
ghost use Rattle.clk_syntax.specs.Ports.{role_at, bad_port, port_twice, port_missing, wrong_kind};
ghost use Rattle.clk_syntax.specs.Within.{IsLinkWithin};
ghost use Rattle.clk_syntax.specs.inside.Used.{is_used, size};
ghost use Rattle.clk_syntax.specs.Tables.{IsTabled};
ghost use Rattle.clk_syntax.specs.inside.Checks.{bad_link, mixed_link, again, leads_on, has_inputs, is_connected};

use crate::checks::tables::{Graph, InputUse};
use crate::checks::used::UsedInputs;
use crate::naming::class::Role;
use crate::node::{Link, Node};
use clk_packet::Fault;
use std::alloc::Global;

/// What ports the element at a place has.
fn role_at(nodes: &[Node], place: u32) -> Role
    requires { place < length nodes.now }
    ensures { Some result ≡ role_at nodes.now place }
{
    nodes[place as usize].role
}

/// Where a connection uses a port that isn't there, in bytes of the text.
fn bad_link(nodes: &[Node], link: Link) -> Option<u32>
    requires { IsLinkWithin nodes.now link }
    ensures { result ≡ bad_link nodes.now link }
{
    if !role_at(nodes, link.from).has_output(link.output) {
        return Some(link.from_place);
    }
    if !role_at(nodes, link.to).has_input(link.input) {
        return Some(link.to_place);
    }
    None
}

/// Where a connection first uses a port that isn't there, in bytes of the text.
pub fn bad_port(nodes: &[Node], links: &[Link]) -> Option<u32>
    requires { AllByRecursion (IsLinkWithin nodes.now) links.now }
    ensures { result ≡ bad_port nodes.now links.now }
{
    for link in links {
        let place = bad_link(nodes, *link);
        if place.is_some() {
            return place;
        }
    }
    None
}

/// Marks the ports that a connection uses. If it uses an output, or a pull input, that is marked already, returns the place, in bytes of
/// the text. Fault 1 if an allocation fails.
fn mark_ports(
    outputs: &mut Vec<bool>,
    inputs: &mut UsedInputs,
    nodes: &[Node],
    link: Link,
) -> Result<Option<u32>, Fault>
    requires within { IsLinkWithin nodes.now link }
    requires outputs { length outputs.old.items ≡ length nodes.now }
    requires inputs { size inputs.old ≡ length nodes.now }
    ensures place { IfOk result (λ place. place ≡ again nodes.now outputs.old.items (is_used inputs.old) link) }
    ensures outputs { IfOk result (λ place. place ≡ None → outputs.new.items ≡ slice_set outputs.old.items link.from true) }
    ensures inputs { IfOk result (λ place. place ≡ None
        → ((i j : ℕ) → is_used inputs.new i j ≡ (((link.to == i) && (link.input == j)) || is_used inputs.old i j))) }
    ensures size { size inputs.new ≡ size inputs.old }
    ensures fault { IsOkUnless result Fault.Memory }
{
    if outputs[link.from as usize] {
        return Ok(Some(link.from_place));
    }
    outputs[link.from as usize] = true;
    let added = inputs.insert(link.to, link.input)?;
    if added {
        return Ok(None);
    }
    if role_at(nodes, link.to).is_queue() {
        return Ok(None);
    }
    Ok(Some(link.to_place))
}

/// Where a connection first uses an output, or a pull input, that an earlier one used, in bytes of the text. Fault 1 if an allocation
/// fails.
pub fn port_twice(alloc: Global, graph: &Graph) -> Result<Option<u32>, Fault>
    requires { IsTabled graph.now }
    ensures place { IfOk result (λ place. place ≡ port_twice graph.now.nodes.now graph.now.links.now) }
    ensures fault { IsOkUnless result Fault.Memory }
{
    let mut outputs = vec![in alloc; false; graph.nodes.len()]?;
    let mut inputs = UsedInputs::new(alloc, graph)?;
    for link in graph.links {
        let place = mark_ports(&mut outputs, &mut inputs, graph.nodes, *link)?;
        if place.is_some() {
            return Ok(place);
        }
    }
    Ok(None)
}

/// Whether the output of an element is connected, if it has one, by where it leads.
fn leads_on(role: Role, target: Option<u32>) -> bool
    ensures { result ≡ leads_on role target }
{
    match role {
        Role::Device => true,
        Role::Source | Role::Queue | Role::Scheduler | Role::SchedulerOf(_) => target.is_some(),
    }
}

/// Whether all pull inputs of an element are connected, if none is used twice.
fn has_inputs(role: Role, inputs: InputUse) -> bool
    ensures { result ≡ has_inputs role inputs }
{
    match role {
        Role::Source | Role::Queue => true,
        Role::Scheduler | Role::SchedulerOf(_) | Role::Device => {
            inputs.count == role.inputs_with(inputs.end)
        }
    }
}

/// Whether the output and the pull inputs of an element are connected.
fn is_connected(graph: &Graph, place: u32, role: Role) -> bool
    requires tabled { IsTabled graph.now }
    requires there { bad_port graph.now.nodes.now graph.now.links.now ≡ None }
    requires once { port_twice graph.now.nodes.now graph.now.links.now ≡ None }
    requires place { place < length graph.now.nodes.now }
    requires role { role_at graph.now.nodes.now place ≡ Some role }
    ensures { result ≡ is_connected place role graph.now.links.now }
{
    if !leads_on(role, graph.target(place)) {
        return false;
    }
    has_inputs(role, graph.inputs(place))
}

/// Where an element is declared whose output, or a pull input, isn't connected, in bytes of the text.
pub fn port_missing(graph: &Graph) -> Option<u32>
    requires tabled { IsTabled graph.now }
    requires there { bad_port graph.now.nodes.now graph.now.links.now ≡ None }
    requires once { port_twice graph.now.nodes.now graph.now.links.now ≡ None }
    ensures { result ≡ port_missing graph.now.nodes.now graph.now.links.now }
{
    for (place, node) in graph.nodes.iter().enumerate() {
        if !is_connected(graph, place as u32, node.role) {
            return Some(node.place);
        }
    }
    None
}

/// Where a connection joins push to pull, in bytes of the text.
fn mixed_link(nodes: &[Node], link: Link) -> Option<u32>
    requires { IsLinkWithin nodes.now link }
    ensures { result ≡ mixed_link nodes.now link }
{
    let pushes = role_at(nodes, link.from).is_source();
    let takes = role_at(nodes, link.to).is_queue();
    if pushes == takes {
        return None;
    }
    Some(link.from_place)
}

/// Where a connection first joins push to pull, in bytes of the text.
pub fn wrong_kind(nodes: &[Node], links: &[Link]) -> Option<u32>
    requires { AllByRecursion (IsLinkWithin nodes.now) links.now }
    ensures { result ≡ wrong_kind nodes.now links.now }
{
    for link in links {
        let place = mixed_link(nodes, *link);
        if place.is_some() {
            return place;
        }
    }
    None
}

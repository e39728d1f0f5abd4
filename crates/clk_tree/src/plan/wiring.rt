//! Which elements are connected to which.

ghost use Rattle.std.specs.Prelude.{◌≡◌, ◌==◌, false, ◌<◌, ◌≤◌, ◌++◌, ◌∷◌, [], ℕ, if◌then◌else◌, map, filter, length, IfOk, OnOk, IsOkUnless};
ghost use Rattle.std.specs.List.{AllByRecursion, range_with_len};
ghost use Rattle.std.specs.Option.{option_map_or};
ghost use Rattle.clk_packet.specs.declared.fault.Fault.TheVariants.{Memory};
ghost use Rattle.clk_packet.specs.declared.limits.TheConstants.{MAX_ELEMENTS};
ghost use Rattle.clk_syntax.specs.Ports.{target};
ghost use Rattle.clk_syntax.specs.Tables.{IsTabled};
ghost use Rattle.clk_tree.specs.Plan.{source_at, is_connected, sources_of};

use clk_packet::Fault;
use clk_syntax::{Graph, Link, Role};
use std::alloc::Global;

/// The elements connected to one of this role: to a queue its senders in order of declaration, to any other element the one at each
/// input. Fault 1 if an allocation fails.
pub fn sources_of(alloc: Global, graph: &Graph, place: u32, role: Role) -> Result<Vec<u16>, Fault>
    requires tabled { IsTabled graph.now }
    requires few { length graph.now.nodes.now ≤ MAX_ELEMENTS }
    requires place { place < length graph.now.nodes.now }
    ensures made { IfOk result (λ sources. sources.items ≡ sources_of (length graph.now.nodes.now) graph.now.links.now place role) }
    ensures fault { IsOkUnless result Memory }
{
    match role {
        Role::Queue => connected_to(alloc, graph, place),
        _ => {
            let inputs = role.inputs_with(graph.inputs(place).end);
            sources_at_inputs(alloc, place, inputs, graph.links)
        }
    }
}

/// The elements that are connected to one, in order. Fault 1 if an allocation fails.
fn connected_to(alloc: Global, graph: &Graph, place: u32) -> Result<Vec<u16>, Fault>
    requires tabled { IsTabled graph.now }
    requires few { length graph.now.nodes.now ≤ MAX_ELEMENTS }
    ensures made { IfOk result (λ sources. sources.items ≡ filter (is_connected graph.now.links.now place) (range_with_len 0 (length graph.now.nodes.now))) }
    ensures fault { IsOkUnless result Memory }
{
    let mut sources = Vec::new(alloc);
    for source in 0..graph.nodes.len() as u16 {
        let is_connected = leads(graph, u32::from(source), place);
        push_if(&mut sources, source, is_connected)?;
    }
    Ok(sources)
}

/// Whether the first connection from an element leads to another.
fn leads(graph: &Graph, from: u32, to: u32) -> bool
    requires tabled { IsTabled graph.now }
    requires place { from < length graph.now.nodes.now }
    ensures { result ≡ option_map_or (λ other. other == to) (target from graph.now.links.now) false }
{
    graph.target(from) == Some(to)
}

/// Adds a source if it is connected. Fault 1 if an allocation fails.
fn push_if(sources: &mut Vec<u16>, source: u16, is_connected: bool) -> Result<(), Fault>
    ensures added { OnOk result (sources.new.items ≡ (if is_connected then sources.old.items ++ source ∷ [] else sources.old.items)) }
    ensures fault { IsOkUnless result Memory }
{
    if is_connected {
        sources.push(source)?;
    }
    Ok(())
}

/// The element connected to each of so many inputs of one. Fault 1 if an allocation fails.
fn sources_at_inputs(
    alloc: Global,
    place: u32,
    inputs: u32,
    links: &[Link],
) -> Result<Vec<u16>, Fault>
    requires within { AllByRecursion (λ c. c.from < MAX_ELEMENTS) links.now }
    ensures made { IfOk result (λ sources. sources.items ≡ map (source_at links.now place) (range_with_len 0 inputs)) }
    ensures fault { IsOkUnless result Memory }
{
    let mut sources = Vec::new(alloc);
    for input in 0..inputs {
        sources.push(source_at(place, input, links) as u16)?;
    }
    Ok(sources)
}

/// The element connected to an input of another.
fn source_at(place: u32, input: u32, links: &[Link]) -> u32
    ensures source { result ≡ source_at links.now place input }
    ensures within { (count : ℕ) → 0 < count → AllByRecursion (λ c. c.from < count) links.now → result < count }
{
    for link in links {
        if link.to == place && link.input == input {
            return link.from;
        }
    }
    0
}

//! Elements and connections, with tables of what the connections say of each element.

ghost use Rattle.std.specs.Prelude.{◌≡◌, ◌≤◌, ◌<◌, length, Some, IfOk, IsOkUnless};
ghost use Rattle.std.specs.List.{AllByRecursion};
ghost use Rattle.clk_syntax.specs.declared.limits.TheConstants.{MAX_TREE_BYTES};
ghost use Rattle.clk_syntax.specs.Ports.{role_at, next, target};
ghost use Rattle.clk_syntax.specs.Within.{IsLinkWithin, HasPorts};
ghost use Rattle.clk_syntax.specs.Tables.{IsTargets, IsInputs, IsTabled, inputs_at};

use crate::naming::class::Role;
use crate::node::{Link, Node};
use clk_packet::Fault;
use std::alloc::Global;

/// What the connections use of the inputs of an element.
#[derive(Clone, Copy, Debug, PartialEq, Eq)]
pub struct InputUse {
    /// How many connections lead to it.
    pub count: u32,
    /// One more than the greatest input that is connected, or 0.
    pub end: u32,
}

/// Elements and their connections, with tables of what these say of each element.
#[derive(Drop)]
pub struct Graph<'a> {
    pub nodes: &'a [Node],
    pub links: &'a [Link],
    /// Where the first connection from each element leads, if there is one.
    targets: Vec<Option<u32>>,
    /// What the connections use of the inputs of each element.
    inputs: Vec<InputUse>,
}

impl<'a> Graph<'a> {
    /// These elements and connections with their tables. Fault 1 if an allocation fails.
    pub fn new(alloc: Global, nodes: &'a [Node], links: &'a [Link]) -> Result<Graph<'a>, Fault>
        requires few_nodes { length nodes.now ≤ MAX_TREE_BYTES }
        requires few_links { length links.now ≤ MAX_TREE_BYTES }
        requires within { AllByRecursion (IsLinkWithin nodes.now) links.now }
        requires ports { AllByRecursion HasPorts links.now }
        ensures nodes { IfOk result (λ graph. graph.nodes.now ≡ nodes.now) }
        ensures links { IfOk result (λ graph. graph.links.now ≡ links.now) }
        ensures tabled { IfOk result IsTabled }
        ensures fault { IsOkUnless result Fault.Memory }
    {
        let targets = targets_of(alloc, nodes, links)?;
        let inputs = inputs_of(alloc, nodes, links)?;
        Ok(Graph {
            nodes,
            links,
            targets,
            inputs,
        })
    }

    /// What ports the element at a place has.
    pub fn role(&self, place: u32) -> Role
        requires { place < length self.now.nodes.now }
        ensures { Some result ≡ role_at self.now.nodes.now place }
    {
        self.nodes[place as usize].role
    }

    /// Where the first connection from the element at a place leads, if there is one.
    pub fn target(&self, place: u32) -> Option<u32>
        requires tabled { IsTabled self.now }
        requires place { place < length self.now.nodes.now }
        ensures { result ≡ target place self.now.links.now }
    {
        self.targets[place as usize]
    }

    /// Where the element at a place leads: one that isn't connected leads to itself.
    pub fn next(&self, place: u32) -> u32
        requires tabled { IsTabled self.now }
        requires place { place < length self.now.nodes.now }
        ensures { result ≡ next self.now.links.now place }
    {
        self.target(place).unwrap_or(place)
    }

    /// What the connections use of the inputs of the element at a place.
    pub fn inputs(&self, place: u32) -> InputUse
        requires tabled { IsTabled self.now }
        requires place { place < length self.now.nodes.now }
        ensures { result ≡ inputs_at place self.now.links.now }
    {
        self.inputs[place as usize]
    }
}

/// Where the first connection from each element leads, if there is one. Fault 1 if an allocation fails.
fn targets_of(alloc: Global, nodes: &[Node], links: &[Link]) -> Result<Vec<Option<u32>>, Fault>
    requires { AllByRecursion (IsLinkWithin nodes.now) links.now }
    ensures made { IfOk result (λ targets. IsTargets (length nodes.now) links.now targets.items) }
    ensures fault { IsOkUnless result Fault.Memory }
{
    let mut targets = vec![in alloc; None; nodes.len()]?;
    // From the last on, so that the first is what stays.
    for place in (0..links.len()).rev() {
        let link = links[place];
        targets[link.from as usize] = Some(link.to);
    }
    Ok(targets)
}

/// What the connections use of the inputs of each element. Fault 1 if an allocation fails.
fn inputs_of(alloc: Global, nodes: &[Node], links: &[Link]) -> Result<Vec<InputUse>, Fault>
    requires few { length links.now ≤ MAX_TREE_BYTES }
    requires within { AllByRecursion (IsLinkWithin nodes.now) links.now }
    requires ports { AllByRecursion HasPorts links.now }
    ensures made { IfOk result (λ inputs. IsInputs (length nodes.now) links.now inputs.items) }
    ensures fault { IsOkUnless result Fault.Memory }
{
    let none = InputUse { count: 0, end: 0 };
    let mut inputs = vec![in alloc; none; nodes.len()]?;
    for place in (0..links.len()).rev() {
        let link = links[place];
        let used = inputs[link.to as usize];
        inputs[link.to as usize] = InputUse {
            count: used.count + 1,
            end: used.end.max(link.input + 1),
        };
    }
    Ok(inputs)
}

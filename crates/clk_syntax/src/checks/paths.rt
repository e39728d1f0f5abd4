//! Where the ways from all elements lead.

ghost use Rattle.std.specs.Prelude.{ℕ, ◌<◌, length, slice_index, IfOk, IsOkUnless};
ghost use Rattle.clk_syntax.specs.Tables.{IsTabled};
ghost use Rattle.clk_syntax.specs.inside.Checks.{IsFollowed, IsComposed};

use crate::checks::tables::Graph;
use clk_packet::Fault;
use std::alloc::Global;

/// Where the second table leads from where the first does. Fault 1 if an allocation fails.
fn composed(alloc: Global, first: &[u32], second: &[u32]) -> Result<Vec<u32>, Fault>
    requires { (i : ℕ) → i < length first.now → slice_index first.now i < length second.now }
    ensures made { IfOk result (λ table. IsComposed first.now second.now table.items) }
    ensures fault { IsOkUnless result Fault.Memory }
{
    let mut table = Vec::with_capacity(alloc, first.len())?;
    for place in first {
        table.push(second[*place as usize])?;
    }
    Ok(table)
}

/// The places of all elements: the table of no steps. Fault 1 if an allocation fails.
fn places(alloc: Global, graph: &Graph) -> Result<Vec<u32>, Fault>
    requires { IsTabled graph.now }
    ensures made { IfOk result (λ table. IsFollowed (length graph.now.nodes.now) graph.now.links.now 0 table.items) }
    ensures fault { IsOkUnless result Fault.Memory }
{
    let mut table = Vec::with_capacity(alloc, graph.nodes.len())?;
    for place in 0..graph.nodes.len() {
        table.push(place as u32)?;
    }
    Ok(table)
}

/// Where each element leads: one that isn't connected leads to itself. Fault 1 if an allocation fails.
fn steps(alloc: Global, graph: &Graph) -> Result<Vec<u32>, Fault>
    requires { IsTabled graph.now }
    ensures made { IfOk result (λ table. IsFollowed (length graph.now.nodes.now) graph.now.links.now 1 table.items) }
    ensures fault { IsOkUnless result Fault.Memory }
{
    let mut table = Vec::with_capacity(alloc, graph.nodes.len())?;
    for place in 0..graph.nodes.len() {
        table.push(graph.next(place as u32))?;
    }
    Ok(table)
}

/// Where the way from each element leads, as many steps on as there are elements. Fault 1 if an allocation fails.
pub fn ends_of(alloc: Global, graph: &Graph) -> Result<Vec<u32>, Fault>
    requires { IsTabled graph.now }
    ensures made { IfOk result (λ table. IsFollowed (length graph.now.nodes.now) graph.now.links.now (length graph.now.nodes.now) table.items) }
    ensures fault { IsOkUnless result Fault.Memory }
{
    let mut ends = places(alloc, graph)?;
    let mut step = steps(alloc, graph)?;
    // One binary digit of the number of steps after another: a step is twice as long each time.
    let mut left = graph.nodes.len();
    while left > 0 {
        let twice = composed(alloc, &step, &step)?;
        if twice == step {
            // All ways end within this step, so that one more step does as well as all that are left.
            return composed(alloc, &ends, &step);
        }
        if left % 2 == 1 {
            ends = composed(alloc, &ends, &step)?;
        }
        step = twice;
        left /= 2;
    }
    Ok(ends)
}

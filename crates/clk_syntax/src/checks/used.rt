//! The inputs that connections use, one after another.

ghost use Rattle.std.specs.Prelude.{◌≡◌, ℕ, ◌<◌, ◌==◌, ◌&&◌, ◌||◌, not, length, false, IfOk, OnOk, IsOkUnless};
ghost use Rattle.clk_syntax.specs.Tables.{IsTabled};
ghost use Rattle.clk_syntax.specs.inside.Used.{is_used, size};

use crate::checks::tables::Graph;
use clk_packet::Fault;
use std::alloc::Global;
use std::collections::BTreeSet;

/// A set of inputs of elements. Each element has as many slots of its own as connections lead to it.
#[derive(Drop)]
pub struct UsedInputs {
    /// The slot for the first input of each element; those for its others follow.
    starts: Vec<u32>,
    slots: Vec<Option<(u32, u32)>>,
    /// Inputs whose slot isn't there or is another's. Only a wrong text has such inputs.
    more: BTreeSet<(u32, u32)>,
}

/// How many connections lead to the elements before each element. Fault 1 if an allocation fails.
fn starts_of(alloc: Global, graph: &Graph) -> Result<Vec<u32>, Fault>
    requires { IsTabled graph.now }
    ensures count { IfOk result (λ starts. length starts.items ≡ length graph.now.nodes.now) }
    ensures fault { IsOkUnless result Fault.Memory }
{
    let mut starts = Vec::with_capacity(alloc, graph.nodes.len())?;
    let mut start: u32 = 0;
    for place in 0..graph.nodes.len() {
        starts.push(start)?;
        start = start.saturating_add(graph.inputs(place as u32).count);
    }
    Ok(starts)
}

impl UsedInputs {
    /// No inputs of these elements. Fault 1 if an allocation fails.
    pub fn new(alloc: Global, graph: &Graph) -> Result<UsedInputs, Fault>
        requires { IsTabled graph.now }
        ensures size { IfOk result (λ used. size used ≡ length graph.now.nodes.now) }
        ensures none { IfOk result (λ used. (i j : ℕ) → is_used used i j ≡ false) }
        ensures fault { IsOkUnless result Fault.Memory }
    {
        let starts = starts_of(alloc, graph)?;
        let slots = vec![in alloc; None; graph.links.len()]?;
        Ok(UsedInputs {
            starts,
            slots,
            more: BTreeSet::new(alloc),
        })
    }

    /// Adds an input of an element, and returns whether it wasn't there. Fault 1 if an allocation fails.
    pub fn insert(&mut self, place: u32, input: u32) -> Result<bool, Fault>
        requires { place < size self.old }
        ensures added { IfOk result (λ added. added ≡ not (is_used self.old place input)) }
        ensures used { OnOk result ((i j : ℕ) → is_used self.new i j ≡ (((place == i) && (input == j)) || is_used self.old i j)) }
        ensures size { size self.new ≡ size self.old }
        ensures fault { IsOkUnless result Fault.Memory }
    {
        let slot = self.starts[place as usize] as usize + input as usize;
        if slot >= self.slots.len() {
            return Ok(self.more.insert((place, input))?);
        }
        match self.slots[slot] {
            None => {
                self.slots[slot] = Some((place, input));
                Ok(!self.more.contains(&(place, input)))
            }
            Some((element, used)) => {
                if element == place && used == input {
                    return Ok(false);
                }
                Ok(self.more.insert((place, input))?)
            }
        }
    }
}

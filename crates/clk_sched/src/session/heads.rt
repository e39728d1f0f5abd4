//! The packets that a session holds back.

ghost use Rattle.std.specs.Prelude.{◌≡◌, IfOk, IsOkUnless};
ghost use Rattle.clk_sched.specs.Tree.{Tree};
ghost use Rattle.clk_sched.specs.Results.{heads};
ghost use Rattle.clk_sched.specs.inside.Session.{IsAfterRun};

use crate::session::nodes::Nodes;
use crate::session::state::State;
use clk_packet::{Fault, Packet};
use std::alloc::Global;

/// The packets held as heads, by node and then by input.
///
/// # Errors
///
/// Fault 1 if an allocation fails.
pub fn held_heads(alloc: Global, nodes: &Nodes) -> Result<Vec<Packet>, Fault>
    ensures packets { IfOk result (λ packets. (tree : Tree) → IsAfterRun tree nodes.now → packets.items ≡ heads tree nodes.now.log.items) }
    ensures fault { IsOkUnless result Fault.Memory }
{
    let mut heads = Vec::new(alloc);
    for state in &nodes.states {
        if let State::Drr(deficits) = state {
            deficits.add_heads(&mut heads)?;
        }
    }
    Ok(heads)
}

//! A text of a tree, in canonical form.

ghost use Rattle.std.specs.Prelude.{◌≡◌, ◌≤◌, ◌⊎◌, List, length, IfOk, IfErr};
ghost use Rattle.clk_packet.specs.declared.fault.Fault.TheVariants.{Memory};
ghost use Rattle.clk_syntax.specs.declared.limits.TheConstants.{MAX_TREE_BYTES};
ghost use Rattle.clk_tree.specs.Plan.{Planned, Denotes};
ghost use Rattle.clk_syntax.specs.Reading.{HasFault};

use clk_packet::Fault;
use clk_tree::{Plan, texts_have_one_meaning};
use std::alloc::Global;

/// The canonical form of a tree text. If it is no longer than a text may be, it denotes the plan that the text denotes.
pub fn canonical(alloc: Global, text: &[u8]) -> Result<Vec<u8>, Fault>
    ensures same { IfOk result (λ form. length form.items ≤ MAX_TREE_BYTES → (plan : List Planned) → Denotes text.now plan → Denotes form.items plan) }
    ensures fault { IfErr result (λ fault. (fault ≡ Memory) ⊎ HasFault text.now fault) }
{
    // This call does nothing: its contract is a law.
    texts_have_one_meaning();
    let plan = Plan::read(alloc, text)?;
    plan.write(alloc)
}

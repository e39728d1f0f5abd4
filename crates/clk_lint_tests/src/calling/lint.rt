//! A plan that is judged.

ghost use Rattle.std.specs.Prelude.{◌≡◌, [], None, true, IfOk, IsOkUnless};
ghost use Rattle.clk_packet.specs.declared.fault.Fault.TheVariants.{Memory};
ghost use Rattle.clk_lint.specs.Warnings.{warnings};

use clk_lint::warnings;
use clk_packet::Fault;
use clk_tree::Plan;
use std::alloc::Global;

/// Whether a plan has no warnings. Fault 1 if an allocation fails.
pub fn is_sound(alloc: Global, plan: &Plan) -> Result<bool, Fault>
    ensures none { IfOk result (λ sound. sound ≡ true → warnings plan.now None ≡ []) }
    ensures fault { IsOkUnless result Memory }
{
    let found = warnings(alloc, plan, None)?;
    Ok(found.is_empty())
}

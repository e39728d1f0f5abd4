//! Why a text is no tree, for a person.

ghost use Rattle.std.specs.Prelude.{◌≡◌, ◌⊎◌, IfSome};
ghost use Rattle.clk_explain.specs.Explanation.{Explains};
ghost use Rattle.clk_packet.specs.declared.fault.Fault.TheVariants.{Memory};
ghost use Rattle.clk_syntax.specs.Reading.{HasFault};

use clk_explain::{Explanation, explain};
use clk_packet::Fault;
use clk_tree::Plan;
use std::alloc::Global;

/// Why a text denotes no plan, if so: the fault, and its explanation.
pub fn explained(alloc: Global, text: &[u8]) -> Option<(Fault, Explanation)>
    ensures fault { IfSome result (λ told. (told.0 ≡ Memory) ⊎ HasFault text.now told.0) }
    ensures explanation { IfSome result (λ told. Explains text.now told.0 told.1) }
{
    match Plan::read(alloc, text) {
        Ok(_) => None,
        Err(fault) => Some((fault, explain(text, fault))),
    }
}

//! What is wrong with a text before it is a plan.

ghost use Rattle.std.specs.Prelude.{◌≡◌, ◌⊎◌, IfSome};
ghost use Rattle.clk_packet.specs.declared.fault.Fault.TheVariants.{Memory};
ghost use Rattle.clk_syntax.specs.Reading.{HasFault};

use clk_packet::Fault;
use clk_syntax::named_text;
use std::alloc::Global;

/// What is wrong with the grammar, the names and the classes of a tree text, if anything is: its first fault. Ports and trees aren't
/// checked.
pub fn fault_of_names(alloc: Global, text: &[u8]) -> Option<Fault>
    ensures { IfSome result (λ fault. (fault ≡ Memory) ⊎ HasFault text.now fault) }
{
    named_text(alloc, text).err()
}

//! What a text says as a whole.

ghost use Rattle.std.specs.Prelude.{◌≡◌, ◌⊎◌, ◌≤◌, map, length, IfOk, IfErr};
ghost use Rattle.std.specs.List.{AllByRecursion};
ghost use Rattle.clk_packet.specs.declared.fault.Fault.TheVariants.{Memory};
ghost use Rattle.clk_syntax.specs.declared.limits.TheConstants.{MAX_TREE_BYTES};
ghost use Rattle.clk_syntax.specs.Tokens.{tokens_of};
ghost use Rattle.clk_syntax.specs.Source.{kept};
ghost use Rattle.clk_syntax.specs.Declarations.{class_in};
ghost use Rattle.clk_syntax.specs.Classes.{is_class};
ghost use Rattle.clk_syntax.specs.Within.{IsDeclaredWithin, IsLinkWithin, HasPorts, words_in};
ghost use Rattle.clk_syntax.specs.Reading.{IsNamedText, HasFault};

use crate::limits::MAX_TREE_BYTES;
use crate::naming::{Named, name_all};
use crate::texts::lexer::tokens_of;
use crate::texts::parser::statements_of;
use crate::texts::statements::Statements;
use clk_packet::Fault;
use std::alloc::Global;

/// What a text declares and connects, by name. Fault 1 if an allocation fails. Otherwise fault 18 for a text that is too long, fault 2 for
/// one that breaks the grammar, and then 5, 3, 4 and 6, the first in this order.
pub fn named_text(alloc: Global, text: &[u8]) -> Result<(Statements, Named), Fault>
    ensures named { IfOk result (λ r. IsNamedText text.now (tokens_of text.now) (map kept r.0.declarations.items) r.0.connections.items r.1.nodes.items r.1.links.items) }
    ensures classes { IfOk result (λ r. map (class_in text.now) (map kept r.0.declarations.items) ≡ map is_class r.1.classes.items) }
    ensures within { IfOk result (λ r. AllByRecursion (IsDeclaredWithin (length text.now)) (map kept r.0.declarations.items)) }
    ensures words { IfOk result (λ r. words_in (map kept r.0.declarations.items) ≤ MAX_TREE_BYTES) }
    ensures few_nodes { IfOk result (λ r. length r.1.nodes.items ≤ MAX_TREE_BYTES) }
    ensures few_links { IfOk result (λ r. length r.1.links.items ≤ MAX_TREE_BYTES) }
    ensures links { IfOk result (λ r. AllByRecursion (IsLinkWithin r.1.nodes.items) r.1.links.items) }
    ensures ports { IfOk result (λ r. AllByRecursion HasPorts r.1.links.items) }
    ensures fault { IfErr result (λ fault. (fault ≡ Memory) ⊎ HasFault text.now fault) }
{
    if text.len() > MAX_TREE_BYTES {
        return Err(Fault::TooLarge);
    }
    let tokens = tokens_of(alloc, text)?;
    let statements = statements_of(alloc, &tokens, text.len() as u32)?;
    drop(tokens);
    let named = name_all(alloc, text, &statements)?;
    Ok((statements, named))
}

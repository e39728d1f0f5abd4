//! A tree text in memory that is checked.

ghost use Rattle.std.specs.Prelude.{Some};
ghost use Rattle.clk_packet.specs.Written.{WroteWhat};
ghost use Rattle.clk_command.specs.Tasks.{IsCanonicalOf};

use clk_command::check_tree;
use clk_packet::{Fault, FromRead, Sink};
use std::alloc::Global;

/// Checks a tree text that stands in memory, as the words `check TREE` check a file, and writes the canonical text of its plan.
pub fn check_text<W: Sink>(alloc: Global, tree: &[u8], writer: &mut W) -> Result<(), Fault>
    ensures { WroteWhat (IsCanonicalOf (Some tree.now)) result (W.Sink.taken writer.old) (W.Sink.taken writer.new) }
{
    check_tree(alloc, &mut FromRead::new(tree), writer)
}

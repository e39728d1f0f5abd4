//! The caller that CALLING.md of clk_inlet shows.

ghost use Rattle.std.specs.Prelude.{◌≡◌, ◌≤◌, Some, IfOk};
ghost use Rattle.clk_inlet.specs.Items.{packet_item};

use clk_inlet::{Item, open};
use std::alloc::{AllocError, Global};

/// A packet goes through an inlet, and is taken with its length and its token.
pub fn through(alloc: Global, length: u16, token: u64) -> Result<Option<Item>, AllocError>
    requires { 1 ≤ length }
    ensures { IfOk result (λ got. got ≡ Some (packet_item length token)) }
{
    let (mut inlet, mut outlet) = open(alloc, 1)?;
    let _ = inlet.offer(length, token);
    outlet.beside(&mut inlet);
    Ok(outlet.take())
}

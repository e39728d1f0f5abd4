//! Long texts.

use std::alloc::{AllocError, Global};

/// A piece of a text, which is repeated for each number from the first to the one before the second. The number replaces each `%` in it.
pub type Pieces = (&'static str, u32, u32);

/// The text of these pieces.
pub fn text_of(alloc: Global, pieces: &[Pieces]) -> Result<String, AllocError> {
    let mut text = String::new(alloc);
    for (piece, from, to) in pieces {
        add_pieces(alloc, &mut text, piece, *from, *to)?;
    }
    Ok(text)
}

fn add_pieces(
    alloc: Global,
    text: &mut String,
    piece: &str,
    from: u32,
    to: u32,
) -> Result<(), AllocError> {
    for number in from..to {
        let number = format!(in alloc; "{number}")?;
        text.push_str(&piece.replace(alloc, "%", &number)?)?;
    }
    Ok(())
}

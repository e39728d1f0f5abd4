//! What is wrong with the arguments of an element.

use crate::mentions::{Found, arguments_at, letters, token_from, word_from};
use crate::words::Words;
use clk_packet::{MAX_SENDER, number_in};
use clk_syntax::Symbol;

/// What is wrong with the arguments of the class whose name stands at an offset.
pub fn sentence(text: &[u8], offset: usize) -> Words {
    let class = word_from(text, offset);
    if has_none(text, offset) {
        return Words::of("").and_quoted(class).and(" has no argument");
    }
    match sender_at(text, offset) {
        Some(number) => sender_twice(text, offset, number),
        None => Words::of("an argument of ")
            .and_quoted(class)
            .and(" is wrong"),
    }
}

/// Whether the class whose name stands at an offset has no argument.
fn has_none(text: &[u8], offset: usize) -> bool {
    match arguments_at(text, offset) {
        Some(first) => first.symbol == Symbol::CloseArguments,
        None => true,
    }
}

/// That the Sender of this number at an offset was declared before, or else that it has more than one name.
fn sender_twice(text: &[u8], offset: usize, number: u64) -> Words {
    let sender = Words::of("Sender ").and_number(number as usize);
    match first_sender(text, number) {
        Some(first) if first.start < offset => sender
            .and(" is declared twice; first at ")
            .and_position(text, first.start),
        _ => sender.and(" has more than one name"),
    }
}

/// Where the first Sender of this number is declared.
fn first_sender(text: &[u8], number: u64) -> Option<Found> {
    let mut token = token_from(text, 0)?;
    while sender_at(text, token.start) != Some(number) {
        token = token_from(text, token.end)?;
    }
    Some(token)
}

/// The number of the Sender whose class stands at an offset, if it is a Sender's and its only argument is a number that it may have.
fn sender_at(text: &[u8], offset: usize) -> Option<u64> {
    if word_from(text, offset) != b"Sender".as_slice() {
        return None;
    }
    let number = arguments_at(text, offset)?;
    let close = token_from(text, number.end)?;
    if close.symbol != Symbol::CloseArguments {
        return None;
    }
    number_in(letters(text, number), 0, MAX_SENDER)
}

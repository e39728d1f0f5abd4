//! The tokens of a text.

ghost use Rattle.std.specs.Prelude.{◌≡◌, ◌+◌, ◌<◌, ◌≤◌, ◌==◌, ◌∷◌, ◌++◌, ◌^◌, length, drop, true, None, IfSome, IfOk, IsOkUnless};
ghost use Rattle.std.specs.List.{position_or_len, prefix_len};
ghost use Rattle.std.specs.Str.{all_ascii_digits};
ghost use Rattle.clk_packet.specs.declared.fault.Fault.TheVariants.{Memory};
ghost use Rattle.clk_syntax.specs.declared.limits.TheConstants.{MAX_TREE_BYTES};
ghost use Rattle.clk_syntax.specs.Within.{AreWithin};
ghost use Rattle.clk_syntax.specs.Tokens.{is_blank, is_word_byte, begins_with, comment_end, comment, word_symbol, word, mark_of, piece_at, first_piece, piece_len, shown, tokens_of};

use crate::texts::token::{Symbol, Token};
use clk_packet::Fault;
use std::alloc::Global;

/// What stands at the front of a text.
#[derive(Clone, Copy, Debug, PartialEq, Eq)]
pub enum Piece {
    /// Blanks or a comment of so many bytes.
    Gap(usize),
    /// A token of so many bytes.
    Token(Symbol, usize),
}

/// Whether a byte is a space, a tab, a line feed or a carriage return.
fn is_blank(byte: u8) -> bool
    ensures { result ≡ is_blank byte }
{
    matches!(byte, b' ' | b'\t' | b'\n' | b'\r')
}

/// Whether a byte is an ASCII letter, a digit or an underscore.
fn is_word_byte(byte: u8) -> bool
    ensures { result ≡ is_word_byte byte }
{
    // Most are small letters, which are known by two tests.
    if byte >= b'a' {
        return byte <= b'z';
    }
    if byte >= b'A' {
        return byte <= b'Z' || byte == b'_';
    }
    byte >= b'0' && byte <= b'9'
}

/// Whether a text begins with this byte.
fn begins_with(byte: u8, text: &[u8]) -> bool
    ensures { result ≡ begins_with byte text.now }
{
    match text {
        [] => false,
        [first, ..] => *first == byte,
    }
}

/// How many bytes of a word a text begins with.
fn word_len(text: &[u8]) -> usize
    ensures bytes { result ≡ prefix_len is_word_byte text.now }
    ensures within { result ≤ length text.now }
{
    text.iter().take_while(|byte| is_word_byte(**byte)).count()
}

/// Where the first line of a text ends: at its line feed, or at the end of the text.
fn line_len(text: &[u8]) -> usize
    ensures bytes { result ≡ position_or_len (λ byte. byte == 10) text.now }
    ensures within { result ≤ length text.now }
{
    text.iter().take_while(|byte| **byte != b'\n').count()
}

/// How many bytes a text has up to its first `*/`, with it, if it has one.
fn close_len(text: &[u8]) -> Option<usize>
    ensures place { result ≡ comment_end text.now }
    ensures within { IfSome result (λ n. n ≤ length text.now) }
{
    let mut len = 0;
    let mut left = text;
    while let [byte, rest @ ..] = left {
        if *byte == b'*' {
            if begins_with(b'/', rest) {
                return Some(len + 2);
            }
        }
        len += 1;
        left = rest;
    }
    None
}

/// Whether a word has digits alone.
fn is_number(word: &[u8]) -> bool
    ensures { result ≡ all_ascii_digits word.now }
{
    for byte in word {
        if !byte.is_ascii_digit() {
            return false;
        }
    }
    true
}

/// What a word is that begins with this byte.
fn word_symbol(first: u8, word: &[u8]) -> Symbol
    ensures { result ≡ word_symbol first word.now }
{
    if !matches!(first, b'0'..=b'9') {
        return Symbol::Name;
    }
    if is_number(word) {
        Symbol::Number
    } else {
        Symbol::OtherWord
    }
}

/// The word at the front of a text that begins with this byte.
fn word(first: u8, text: &[u8]) -> Piece
    ensures piece { result ≡ word first text.now (prefix_len is_word_byte text.now) }
    ensures within { piece_len result ≤ length text.now }
{
    let len = word_len(text);
    let (word, _) = text.split_at(len);
    Piece::Token(word_symbol(first, word), len)
}

/// The comment whose `/*` comes right before a text. Once a comment isn't closed, no later one is, and its end isn't looked for.
fn comment(text: &[u8], unclosed: &mut bool) -> Piece
    requires { unclosed.old ≡ true → comment_end text.now ≡ None }
    ensures piece { result ≡ comment (comment_end text.now) }
    ensures within { piece_len result ≤ length text.now + 2 }
    ensures kept { unclosed.new ≡ true → comment_end text.now ≡ None }
{
    if *unclosed {
        return Piece::Token(Symbol::Nothing, 1);
    }
    match close_len(text) {
        Some(len) => Piece::Gap(2 + len),
        None => {
            *unclosed = true;
            Piece::Token(Symbol::Nothing, 1)
        }
    }
}

/// The symbol of the mark that a byte is, or `Nothing`.
fn mark_of(byte: u8) -> Symbol
    ensures { result ≡ mark_of byte }
{
    match byte {
        b'[' => Symbol::OpenPort,
        b']' => Symbol::ClosePort,
        b'(' => Symbol::OpenArguments,
        b')' => Symbol::CloseArguments,
        b',' => Symbol::Comma,
        b';' => Symbol::Semicolon,
        _ => Symbol::Nothing,
    }
}

/// What stands at the front of a text, which is this byte and the rest.
fn piece_at(byte: u8, rest: &[u8], text: &[u8], unclosed: &mut bool) -> Piece
    requires parts { text.now ≡ byte ∷ rest.now }
    requires none_closed { unclosed.old ≡ true → comment_end rest.now ≡ None }
    ensures piece { result ≡ piece_at byte rest.now }
    ensures some { 1 ≤ piece_len result }
    ensures within { piece_len result ≤ length text.now }
    ensures kept { unclosed.new ≡ true → comment_end (drop 1 rest.now) ≡ None }
{
    if is_blank(byte) {
        return Piece::Gap(1);
    }
    if byte == b'/' {
        if begins_with(b'/', rest) {
            return Piece::Gap(line_len(text));
        }
        if let [b'*', inside @ ..] = rest {
            return comment(inside, unclosed);
        }
        return Piece::Token(Symbol::Nothing, 1);
    }
    if is_word_byte(byte) {
        return word(byte, text);
    }
    if byte == b':' {
        if begins_with(b':', rest) {
            return Piece::Token(Symbol::Declares, 2);
        }
    }
    if byte == b'-' {
        if begins_with(b'>', rest) {
            return Piece::Token(Symbol::LeadsTo, 2);
        }
    }
    Piece::Token(mark_of(byte), 1)
}

/// What stands at the front of a text, if it isn't empty. It takes time in proportion to the piece, or to the text if that opens a comment
/// and doesn't close it.
pub fn first_piece(text: &[u8]) -> Option<Piece>
    ensures piece { result ≡ first_piece text.now }
    ensures within { IfSome result (λ piece. (1 ≤ piece_len piece) × (piece_len piece ≤ length text.now)) }
{
    let [byte, rest @ ..] = text else {
        return None;
    };
    Some(piece_at(*byte, rest, text, &mut false))
}

/// Keeps the token that a piece at this place is, if it is one, and returns how many bytes the piece has. Fault 1 if an allocation fails.
fn keep(tokens: &mut Vec<Token>, place: usize, piece: Piece) -> Result<usize, Fault>
    requires fits { place + piece_len piece < 2 ^ 32 }
    ensures kept { IfOk result (λ n. (tokens.new.items ≡ tokens.old.items ++ shown place piece) × (n ≡ piece_len piece)) }
    ensures fault { IsOkUnless result Memory }
{
    match piece {
        Piece::Gap(len) => Ok(len),
        Piece::Token(symbol, len) => {
            tokens.push(Token {
                symbol,
                place: place as u32,
                length: len as u32,
            })?;
            Ok(len)
        }
    }
}

/// The tokens of a text. Fault 1 if an allocation fails.
pub fn tokens_of(alloc: Global, text: &[u8]) -> Result<Vec<Token>, Fault>
    requires { length text.now ≤ MAX_TREE_BYTES }
    ensures tokens { IfOk result (λ tokens. tokens.items ≡ tokens_of text.now) }
    ensures within { IfOk result (λ tokens. AreWithin (length text.now) tokens.items) }
    ensures fault { IsOkUnless result Memory }
{
    // Most tokens have two bytes and more, with the blanks between them.
    let mut tokens = Vec::with_capacity(alloc, text.len() / 2)?;
    let mut unclosed = false;
    let mut place = 0;
    let mut left = text;
    while let [byte, rest @ ..] = left {
        let piece = piece_at(*byte, rest, left, &mut unclosed);
        let len = keep(&mut tokens, place, piece)?;
        let (_, after) = left.split_at(len);
        place += len;
        left = after;
    }
    Ok(tokens)
}

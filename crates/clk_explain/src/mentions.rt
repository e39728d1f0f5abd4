//! The tokens of a text one after another, and where an element is mentioned.

ghost use Rattle.std.specs.Prelude.{◌≤◌, ◌<◌, length, IfSome};

use clk_packet::number_in;
use clk_syntax::{ClassName, MAX_PORT, Piece, Symbol, first_piece};

/// A token of a text: what it is, and where it begins and ends.
#[derive(Clone, Copy)]
pub struct Found {
    pub symbol: Symbol,
    pub start: usize,
    pub end: usize,
}

/// How an element is mentioned.
#[derive(Clone, Copy)]
pub enum Mention {
    /// It is declared.
    Declared,
    /// Its output is connected.
    Output,
    /// Its input of this number is connected.
    Input(u64),
}

/// A token with what stands before it.
#[derive(Clone, Copy)]
struct Walk {
    token: Found,
    /// The token before it.
    before: Symbol,
    /// The number of the port whose brackets stand before it.
    port: Option<Found>,
    /// Whether it stands in parentheses.
    inside: bool,
}

/// The first token of a text that begins at this place or behind it.
pub fn token_from(text: &[u8], place: usize) -> Option<Found>
    ensures { IfSome result (λ found. (place ≤ found.start) × (found.start < found.end) × (found.end ≤ length text.now)) }
{
    let mut start = place;
    while start < text.len() {
        let (_, rest) = text.split_at(start);
        match first_piece(rest)? {
            Piece::Gap(len) => start += len,
            Piece::Token(symbol, len) => {
                return Some(Found {
                    symbol,
                    start,
                    end: start + len,
                });
            }
        }
    }
    None
}

/// The bytes of a token.
pub fn letters(text: &[u8], token: Found) -> &[u8] {
    text.get(token.start..token.end).unwrap_or(&[])
}

/// The bytes of the first token of a text that begins at this place or behind it.
pub fn word_from(text: &[u8], place: usize) -> &[u8] {
    match token_from(text, place) {
        Some(token) => letters(text, token),
        None => &[],
    }
}

/// Where a text mentions an element so for the first time.
pub fn find(text: &[u8], name: &[u8], mention: Mention) -> Option<Found> {
    let mut walk = first(text)?;
    loop {
        if is_mention(text, &walk, name, mention) {
            return Some(walk.token);
        }
        walk = next(text, &walk)?;
    }
}

/// The class with which a text declares an element, if it has that name.
pub fn class_of(text: &[u8], name: &[u8]) -> Option<ClassName> {
    ClassName::named(letters(text, class_word(text, name)?))
}

/// The word behind the `::` with which a text declares an element.
fn class_word(text: &[u8], name: &[u8]) -> Option<Found> {
    let mut token = find(text, name, Mention::Declared)?;
    while token.symbol != Symbol::Declares {
        token = token_from(text, token.end)?;
    }
    token_from(text, token.end)
}

/// What stands behind the parenthesis that opens the arguments of the class at an offset, if one does.
pub fn arguments_at(text: &[u8], offset: usize) -> Option<Found> {
    let class = token_from(text, offset)?;
    let open = token_from(text, class.end)?;
    if open.symbol != Symbol::OpenArguments {
        return None;
    }
    token_from(text, open.end)
}

/// How many arguments the class has with which a text declares an element.
pub fn argument_count(text: &[u8], name: &[u8]) -> Option<usize> {
    let class = class_word(text, name)?;
    let mut token = arguments_at(text, class.start)?;
    let mut count: usize = 0;
    while token.symbol != Symbol::CloseArguments {
        if token.symbol != Symbol::Comma {
            count = count.saturating_add(1);
        }
        token = token_from(text, token.end)?;
    }
    Some(count)
}

/// The number of the input to which a chain leads at the name that begins at this place, if one does.
pub fn input_at(text: &[u8], place: usize) -> Option<u64> {
    let mut walk = first(text)?;
    while walk.token.start < place {
        walk = next(text, &walk)?;
    }
    input_of(text, &walk)
}

/// The first token of a text.
fn first(text: &[u8]) -> Option<Walk> {
    Some(Walk {
        token: token_from(text, 0)?,
        before: Symbol::Semicolon,
        port: None,
        inside: false,
    })
}

/// The token after another, unless a text is wrong at that one.
fn next(text: &[u8], walk: &Walk) -> Option<Walk>
    ensures { IfSome result (λ after. (walk.now.token.end < after.token.end) × (after.token.end ≤ length text.now)) }
{
    let symbol = walk.token.symbol;
    if symbol == Symbol::Nothing {
        return None;
    }
    Some(Walk {
        token: token_from(text, walk.token.end)?,
        before: symbol,
        port: match symbol {
            Symbol::Number => Some(walk.token),
            _ => walk.port,
        },
        inside: match symbol {
            Symbol::OpenArguments => true,
            Symbol::CloseArguments | Symbol::Semicolon => false,
            _ => walk.inside,
        },
    })
}

/// Whether a token mentions the element of this name so.
fn is_mention(text: &[u8], walk: &Walk, name: &[u8], mention: Mention) -> bool {
    if walk.inside {
        return false;
    }
    if letters(text, walk.token) != name {
        return false;
    }
    match mention {
        Mention::Declared => matches!(
            symbol_after(text, walk),
            Some(Symbol::Declares | Symbol::Comma)
        ),
        Mention::Output => matches!(
            symbol_after(text, walk),
            Some(Symbol::LeadsTo | Symbol::OpenPort)
        ),
        Mention::Input(port) => input_of(text, walk) == Some(port),
    }
}

/// What the token after another is.
fn symbol_after(text: &[u8], walk: &Walk) -> Option<Symbol> {
    Some(token_from(text, walk.token.end)?.symbol)
}

/// The number of the input to which a chain leads at this token, if one does.
fn input_of(text: &[u8], walk: &Walk) -> Option<u64> {
    match walk.before {
        Symbol::LeadsTo => Some(0),
        Symbol::ClosePort => number_in(letters(text, walk.port?), 0, MAX_PORT as u64),
        _ => None,
    }
}

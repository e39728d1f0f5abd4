//! What is wrong where a text breaks the grammar.

use crate::diagram::{Context, Gap, context_of};
use crate::mentions::{Found, letters, token_from};
use crate::words::Words;
use clk_syntax::Symbol;

/// Why a text is wrong at an offset.
#[derive(Clone, Copy)]
enum Broken {
    /// It begins with a byte order mark.
    ByteOrderMark,
    /// It ends.
    End,
    /// A comment isn't closed.
    OpenComment,
    /// A feature of Click that is left out.
    LeftOut(Feature),
    /// No word and no mark begins here.
    Byte,
    /// This token can't stand here.
    Token(Found),
}

/// A feature of Click that is left out.
#[derive(Clone, Copy)]
enum Feature {
    /// `elementclass NAME { .. }`, and `{ .. }` elsewhere.
    Compound,
    /// `require(..)` and `define(..)`.
    Statement,
    /// `.. -> Class(..) -> ..` and `.. -> name :: Class(..) -> ..`
    Inline,
    /// `name :: Class(..) -> ..`
    DeclaredChain,
    /// `Class(KEYWORD value)`
    Keyword,
    /// `Class("..")`
    Quoted,
}

/// What is wrong with the grammar at an offset.
pub fn sentence(text: &[u8], offset: usize) -> Words {
    match broken_at(text, offset) {
        Broken::ByteOrderMark => Words::of("the text begins with a byte order mark"),
        Broken::End => Words::of("the text ends inside a statement"),
        Broken::OpenComment => Words::of("a comment isn't closed"),
        Broken::LeftOut(feature) => Words::of("Click's ")
            .and(name_of(feature))
            .and(" are left out here"),
        Broken::Byte => Words::of("no word or mark begins here"),
        Broken::Token(token) => Words::of("")
            .and_quoted(letters(text, token))
            .and(" can't stand here"),
    }
}

/// What the grammar expects at an offset.
pub fn expected(text: &[u8], offset: usize) -> Words {
    match broken_at(text, offset) {
        Broken::ByteOrderMark => Words::of("expected a text without one"),
        Broken::OpenComment => Words::of("expected '*/'"),
        Broken::LeftOut(feature) => instead_of(feature),
        _ => Words::of("expected ").and(context_of(text, offset).spot.expected()),
    }
}

/// Why a text is wrong at an offset.
fn broken_at(text: &[u8], offset: usize) -> Broken {
    let Some(token) = token_from(text, offset) else {
        return Broken::End;
    };
    let context = context_of(text, offset);
    if let Some(feature) = feature_at(text, &context, token) {
        return Broken::LeftOut(feature);
    }
    if token.symbol != Symbol::Nothing {
        return Broken::Token(token);
    }
    let (_, rest) = text.split_at(token.start);
    match rest {
        [0xef, 0xbb, 0xbf, ..] if token.start == 0 => Broken::ByteOrderMark,
        [b'/', b'*', ..] => Broken::OpenComment,
        [_, ..] => Broken::Byte,
        [] => Broken::End,
    }
}

/// Which feature of Click a token begins that can't stand where it does, if it is one.
fn feature_at(text: &[u8], context: &Context, token: Found) -> Option<Feature> {
    if token.symbol == Symbol::Nothing {
        return match letters(text, token) {
            [b'{' | b'}', ..] => Some(Feature::Compound),
            [b'"' | b'\'', ..] => Some(Feature::Quoted),
            _ => None,
        };
    }
    match context.spot {
        Gap::FirstName => feature_after_name(text, context, token.symbol),
        Gap::NextName => match token.symbol {
            Symbol::OpenArguments | Symbol::Declares => Some(Feature::Inline),
            _ => None,
        },
        Gap::Class | Gap::Closed => match token.symbol {
            Symbol::LeadsTo | Symbol::OpenPort => Some(Feature::DeclaredChain),
            _ => None,
        },
        Gap::Argument => feature_after_argument(context, token.symbol),
        _ => None,
    }
}

/// Which feature of Click begins with the first word of a statement and a token of this symbol, if one does.
fn feature_after_name(text: &[u8], context: &Context, symbol: Symbol) -> Option<Feature> {
    let word = letters(text, context.before?);
    if word == b"elementclass".as_slice() {
        return Some(Feature::Compound);
    }
    if symbol != Symbol::OpenArguments {
        return None;
    }
    if word == b"require".as_slice() {
        return Some(Feature::Statement);
    }
    if word == b"define".as_slice() {
        return Some(Feature::Statement);
    }
    Some(Feature::Inline)
}

/// Which feature of Click begins with an argument and a token of this symbol, if one does. A keyword argument begins with a name.
fn feature_after_argument(context: &Context, symbol: Symbol) -> Option<Feature> {
    if context.before?.symbol != Symbol::Name {
        return None;
    }
    match symbol {
        Symbol::Name | Symbol::Number | Symbol::OtherWord => Some(Feature::Keyword),
        _ => None,
    }
}

/// A feature of Click by name.
fn name_of(feature: Feature) -> &'static str {
    match feature {
        Feature::Compound => "compound elements (elementclass)",
        Feature::Statement => "'require' and 'define'",
        Feature::Inline => "inline elements",
        Feature::DeclaredChain => "chains that begin with a declaration",
        Feature::Keyword => "keyword arguments",
        Feature::Quoted => "quoted arguments",
    }
}

/// What is written instead of a feature of Click.
fn instead_of(feature: Feature) -> Words {
    Words::of(match feature {
        Feature::Compound => "expected each element by itself",
        Feature::Statement => "expected a declaration or a chain",
        Feature::Inline => "expected 'NAME :: CLASS(..);' before, and NAME in the chain",
        Feature::DeclaredChain => "expected ';' here, and the name at the front of a chain",
        Feature::Keyword => "expected ',' or ')': the values alone, in their order",
        Feature::Quoted => "expected a word of letters, digits and underscores",
    })
}

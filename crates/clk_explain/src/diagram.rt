//! What may stand after what in a tree text.

use crate::mentions::{Found, token_from};
use clk_syntax::Symbol;

/// The places between the tokens of a statement, by what was read last.
#[derive(Clone, Copy, Debug, PartialEq, Eq)]
pub enum Gap {
    /// Nothing of a statement.
    Start,
    /// The first name of a declaration or a chain.
    FirstName,
    /// A comma between names.
    Comma,
    /// A name after a comma.
    FurtherName,
    /// `::`
    Declares,
    /// A class.
    Class,
    /// The parenthesis that opens arguments.
    Opened,
    /// An argument.
    Argument,
    /// A comma between arguments.
    ArgumentComma,
    /// The parenthesis that closes arguments.
    Closed,
    /// The bracket that opens an output port.
    OutputOpened,
    /// The number of an output port.
    OutputNumber,
    /// The bracket that closes an output port.
    OutputClosed,
    /// `->`
    LeadsTo,
    /// The bracket that opens an input port.
    InputOpened,
    /// The number of an input port.
    InputNumber,
    /// The bracket that closes an input port.
    InputClosed,
    /// A name after `->`.
    NextName,
}

impl Gap {
    ghost use Rattle.std.specs.Prelude.{◌≡◌, option_map};
    ghost use Rattle.clk_syntax.specs.Diagram.{after};
    ghost use Rattle.clk_explain.specs.inside.Diagram.{in_diagram};

    /// The place after one more token, if it can stand there.
    fn after(self, symbol: Symbol) -> Option<Gap>
        ensures { option_map in_diagram result ≡ after (in_diagram self) symbol }
    {
        match (self, symbol) {
            (Gap::Start, Symbol::Name) => Some(Gap::FirstName),
            (Gap::Start, Symbol::Semicolon) => Some(Gap::Start),
            (Gap::FirstName | Gap::FurtherName, Symbol::Comma) => Some(Gap::Comma),
            (Gap::FirstName | Gap::FurtherName, Symbol::Declares) => Some(Gap::Declares),
            (Gap::FirstName | Gap::NextName, Symbol::OpenPort) => Some(Gap::OutputOpened),
            (Gap::FirstName | Gap::NextName | Gap::OutputClosed, Symbol::LeadsTo) => {
                Some(Gap::LeadsTo)
            }
            (Gap::Comma, Symbol::Name) => Some(Gap::FurtherName),
            (Gap::Declares, Symbol::Name) => Some(Gap::Class),
            (Gap::Class, Symbol::OpenArguments) => Some(Gap::Opened),
            (Gap::Opened | Gap::ArgumentComma, Symbol::Name | Symbol::Number | Symbol::OtherWord) =>
                Some(Gap::Argument),
            (Gap::Opened | Gap::Argument, Symbol::CloseArguments) => Some(Gap::Closed),
            (Gap::Argument, Symbol::Comma) => Some(Gap::ArgumentComma),
            (Gap::Class | Gap::Closed | Gap::NextName, Symbol::Semicolon) => Some(Gap::Start),
            (Gap::OutputOpened, Symbol::Number) => Some(Gap::OutputNumber),
            (Gap::OutputNumber, Symbol::ClosePort) => Some(Gap::OutputClosed),
            (Gap::LeadsTo, Symbol::OpenPort) => Some(Gap::InputOpened),
            (Gap::InputOpened, Symbol::Number) => Some(Gap::InputNumber),
            (Gap::InputNumber, Symbol::ClosePort) => Some(Gap::InputClosed),
            (Gap::LeadsTo | Gap::InputClosed, Symbol::Name) => Some(Gap::NextName),
            _ => None,
        }
    }

    /// What can stand here, in words.
    pub fn expected(self) -> &'static str {
        match self {
            Gap::Start | Gap::Comma | Gap::InputClosed => "a name",
            Gap::FirstName => "'::', ',', '->' or '['",
            Gap::FurtherName => "'::' or ','",
            Gap::Declares => "a class",
            Gap::Class => "'(' or ';'",
            Gap::Opened => "a word, a number or ')'",
            Gap::Argument => "',' or ')'",
            Gap::ArgumentComma => "a word or a number",
            Gap::Closed => "';'",
            Gap::OutputOpened | Gap::InputOpened => "a number",
            Gap::OutputNumber | Gap::InputNumber => "']'",
            Gap::OutputClosed => "'->'",
            Gap::LeadsTo => "a name or '['",
            Gap::NextName => "';', '->' or '['",
        }
    }
}

/// The token at an offset of a text as the grammar sees it: after what it stands.
#[derive(Clone, Copy)]
pub struct Context {
    /// Where it stands in a statement.
    pub spot: Gap,
    /// The token before it.
    pub before: Option<Found>,
}

/// What stands before an offset of a text, as far as the text keeps to the grammar.
pub fn context_of(text: &[u8], offset: usize) -> Context {
    let mut context = Context {
        spot: Gap::Start,
        before: None,
    };
    let mut place = 0;
    loop {
        let Some(token) = token_from(text, place) else {
            return context;
        };
        if token.start >= offset {
            return context;
        }
        let Some(spot) = context.spot.after(token.symbol) else {
            return context;
        };
        context = Context {
            spot,
            before: Some(token),
        };
        place = token.end;
    }
}

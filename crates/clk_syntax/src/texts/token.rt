//! Tokens of a tree text.

/// What a token is.
#[derive(Clone, Copy, Debug, Default, PartialEq, Eq)]
pub enum Symbol {
    /// A word that doesn't begin with a digit.
    Name,
    /// A word of digits.
    Number,
    /// A word that begins with a digit and has other letters.
    OtherWord,
    /// `::`
    Declares,
    /// `->`
    LeadsTo,
    /// `[`
    OpenPort,
    /// `]`
    ClosePort,
    /// `(`
    OpenArguments,
    /// `)`
    CloseArguments,
    /// `,`
    Comma,
    /// `;`
    Semicolon,
    /// No token begins here.
    #[default]
    Nothing,
}

/// A token of a text.
#[derive(Clone, Copy, Debug, Default, PartialEq, Eq)]
pub struct Token {
    pub symbol: Symbol,
    /// Where in the text it begins, in bytes.
    pub place: u32,
    /// How many bytes it has.
    pub length: u32,
}

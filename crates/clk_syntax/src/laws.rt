//! What the grammar of a tree text says: each law is a function that does nothing and whose contract is the law.

ghost use Rattle.clk_syntax.specs.Laws.{TextsCanBeRead, TextsHaveOneReading, RightTokensAreTexts, WrongTokensCannotBeMended};

/// No token of a text of statements is wrong.
pub fn texts_can_be_read()
    ensures { TextsCanBeRead }
{}

/// Tokens are those of one text of statements at most.
pub fn texts_have_one_reading()
    ensures { TextsHaveOneReading }
{}

/// Tokens none of which is wrong are those of a text of statements.
pub fn right_tokens_are_texts()
    ensures { RightTokensAreTexts }
{}

/// The tokens up to the first wrong one are those that some text begins with, and no text begins with these and it.
pub fn wrong_tokens_cannot_be_mended()
    ensures { WrongTokensCannotBeMended }
{}

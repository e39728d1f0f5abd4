//! Texts of trees: their tokens, and the statements that these make up.

pub mod lexer;
pub mod parser;
pub mod statements;
pub mod token;

//! What the statements of a text declare and connect.

use crate::texts::token::Token;
use smallvec::SmallVec;

/// A declaration: names, of which there is at least one, their class, and its arguments. Most declarations have one name and at most one
/// argument, which stand in the value.
#[derive(Drop)]
pub struct Declaration {
    pub names: SmallVec<Token, 1>,
    pub class: Token,
    pub arguments: SmallVec<Token, 1>,
}

/// A connection of a chain: the names at its ends, and the ports that are written.
#[derive(Clone, Copy, Debug, PartialEq, Eq)]
pub struct Connection {
    pub from: Token,
    pub output: Option<Token>,
    pub input: Option<Token>,
    pub to: Token,
}

/// All declarations and all connections of a text, each in order.
#[derive(Drop)]
pub struct Statements {
    pub declarations: Vec<Declaration>,
    pub connections: Vec<Connection>,
}

//! Elements and connections, as the checks of ports see them.

use crate::naming::class::Role;

/// An element: where in the text its name is declared, in bytes, and its ports.
#[derive(Clone, Copy, Debug, PartialEq, Eq)]
pub struct Node {
    pub place: u32,
    pub role: Role,
}

/// A connection from an output of one element to an input of another, which are named by their places among the elements.
/// A port above 65,535, which no element has, stands as 65,536.
#[derive(Clone, Copy, Debug, PartialEq, Eq)]
pub struct Link {
    pub from: u32,
    pub output: u32,
    pub input: u32,
    pub to: u32,
    /// Where the name of `from` stands in the chain, in bytes of the text.
    pub from_place: u32,
    /// Where the name of `to` stands in the chain, in bytes of the text.
    pub to_place: u32,
}

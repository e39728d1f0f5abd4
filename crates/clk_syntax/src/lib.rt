//! The syntax of Click's tree texts: what a text says, before it is a plan, and its faults.
#![tactic(auto)]

mod checks;
mod examples;
mod laws;
mod limits;
mod naming;
mod node;
mod reading;
mod texts;

pub use checks::check_graph;
pub use checks::tables::{Graph, InputUse};
pub use examples::{fault_examples, order_examples};
pub use laws::{
    right_tokens_are_texts, texts_can_be_read, texts_have_one_reading,
    wrong_tokens_cannot_be_mended,
};
pub use limits::{DEFAULT_CAPACITY, MAX_PORT, MAX_TREE_BYTES};
pub use naming::Named;
pub use naming::class::{Class, ClassName, Role, letters};
pub use node::{Link, Node};
pub use reading::named_text;
pub use texts::lexer::{Piece, first_piece};
pub use texts::statements::{Connection, Declaration, Statements};
pub use texts::token::{Symbol, Token};

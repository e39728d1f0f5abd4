//! Explains a fault of a tree text, or what is wrong in another text: where it is, the line with a caret, what is wrong, and what was
//! expected.
#![tactic(auto)]

mod diagram;
mod examples;
mod explanation;
mod limits;
mod mentions;
mod position;
mod wording;
mod words;

pub use examples::{explanation_examples, position_examples};
pub use explanation::{Explanation, explain, point_out, tell};
pub use limits::{MAX_EXPLANATION, MAX_QUOTED, MAX_WORDS, SHOWN, SHOWN_BEFORE};
pub use position::{Position, position_of};
pub use words::Words;

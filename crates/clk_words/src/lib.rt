//! The words of the command line: what they ask for.
#![tactic(auto)]

mod examples;
mod pace;
mod paths;
mod words;

pub use examples::word_examples;
pub use pace::Pace;
pub use paths::{DASH, is_standard};
pub use words::{Asked, Job, asked_by};

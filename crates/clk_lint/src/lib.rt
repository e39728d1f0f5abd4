//! Warnings of a plan: what a tree text may say, but hardly means.
#![tactic(auto)]

mod examples;
mod find;
mod judged;
mod lines;
mod linting;
mod load;
mod own;
mod shares;
mod warning;

pub use examples::{element_examples, length_examples, plan_examples};
pub use find::warnings;
pub use linting::lint;
pub use load::USUAL_LENGTH;
pub use warning::Warning;

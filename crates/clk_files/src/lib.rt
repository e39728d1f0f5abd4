//! The files of a task: they are opened when they are first read or written, what they give may be kept, and a fault of theirs is explained
//! to a person.
#![tactic(auto)]

mod explaining;
mod files;
mod heard;
mod mistakes;

pub use explaining::{TaskInputs, explain_fault, input_of, tree_of};
pub use files::{Failure, FileToRead, FileToWrite, Opener, Purpose};
pub use heard::{Heard, Recalled, Recalls};

//! What the tests of `clk_command` share: the program over memory and over files of the tests, and how what it does differs from what it is
//! meant to do. A library can't assert: its functions return what differs, and the tests assert that nothing does.
#![tactic(auto)]

mod answers;
mod files;
mod rows;

pub use answers::{AMPLE, Answered, Difference, answer, compare, input};
pub use files::{compare_files, write, write_all};
pub use rows::{Row, Said, compare_rows, is_said};

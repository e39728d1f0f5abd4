//! The program, over values that stand for standard input, output and error: what its words ask for, runs of traces, and the lines of
//! faults.
#![tactic(auto)]

mod apart;
mod builtin;
mod commands;
mod examples;
mod faults;
mod jobs;
mod kept;
mod linting;
mod live;
mod over;
mod running;
mod together;

pub use clk_files::{Heard, Recalled, Recalls};
pub use clk_script::run_script;
pub use clk_words::Pace;
pub use commands::command;
pub use examples::{record_examples, tree_examples, visits_examples};
pub use faults::fault_line;
pub use linting::{lint_over, lint_trace, lint_tree};
pub use live::live_trace;
pub use over::{
    check_tree, live_over, live_with_visits, read_plan, run_over, run_with_visits, script_over,
    script_with_visits,
};
pub use running::run_trace;
pub use together::{live_then_visits, run_then_visits, script_then_visits};

//! Tests of clk_command, by its public calls alone: words, the examples, and which files a task may have. The tests of runs are in
//! `clk_command_run_tests`, and those of faults in `clk_command_fault_tests`.
#![tactic(auto)]

#[cfg(test)]
mod apart;
#[cfg(test)]
mod calling;
#[cfg(test)]
mod command;
#[cfg(test)]
mod examples;
#[cfg(test)]
mod fronts;
#[cfg(test)]
mod linting;

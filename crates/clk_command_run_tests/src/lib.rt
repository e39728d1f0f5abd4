//! Tests of clk_command, by its public calls alone: runs of traces and scripts, their visits and their records.
#![tactic(auto)]

#[cfg(test)]
mod living;
#[cfg(test)]
mod rows;
#[cfg(test)]
mod running;
#[cfg(test)]
mod visits;

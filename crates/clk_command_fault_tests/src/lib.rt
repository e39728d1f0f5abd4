//! Tests of clk_command, by its public calls alone: how faults are written and explained, and sources and sinks that fail in mid-stream.
#![tactic(auto)]

#[cfg(test)]
mod cut_off;
#[cfg(test)]
mod explaining;
#[cfg(test)]
mod fault_lines;
#[cfg(test)]
mod over;

//! Tests of clk_lint, by its public calls alone: which trees and traces have which warnings.
#![tactic(auto)]

#[cfg(test)]
mod calling;
#[cfg(test)]
mod cut_off;
#[cfg(test)]
mod lines;
#[cfg(test)]
mod memory;
#[cfg(test)]
mod row;
#[cfg(test)]
mod traced;

//! Tests of clk_report, by its public calls alone: the texts of worked rows, and writers that fail. They stand apart so that clk_report is
//! not proved twice.
#![tactic(auto)]

#[cfg(test)]
mod calling;
#[cfg(test)]
mod logs;
#[cfg(test)]
mod packed;
#[cfg(test)]
mod pieces;
#[cfg(test)]
mod reports;
#[cfg(test)]
mod rows;
#[cfg(test)]
mod values;

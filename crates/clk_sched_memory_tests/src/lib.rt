//! Tests of what sessions of clk_sched keep in memory, by public calls alone: visits as lists, packed and in pieces, packets, and calls in
//! which an allocation fails. They stand apart so that clk_sched is not proved twice.
#![tactic(auto)]

#[cfg(test)]
mod growths;
#[cfg(test)]
mod kinds;
#[cfg(test)]
mod memory;
#[cfg(test)]
mod packed;
#[cfg(test)]
mod pieces;
#[cfg(test)]
mod refusals;
#[cfg(test)]
mod unkept;

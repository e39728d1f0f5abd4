//! Tests of clk_ruled, by its public calls alone: what the calls of a shared queue return, on one thread and on many.
#![tactic(auto)]

#[cfg(test)]
mod gathering;
#[cfg(test)]
mod memory;
#[cfg(test)]
mod plain;
#[cfg(test)]
mod rows;
#[cfg(test)]
mod shared;
#[cfg(test)]
mod threads;

//! Tests of clk_inlet, by its public calls alone: on one thread, with the sender on another, and with an allocation that fails.
#![tactic(auto)]

#[cfg(test)]
mod calling;
#[cfg(test)]
mod calls;
#[cfg(test)]
mod memory;
#[cfg(test)]
mod threads;

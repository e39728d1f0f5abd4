//! Tests of clk_drain, by its public calls alone: drains of sessions over their lines, and runs of producers on threads.
#![tactic(auto)]

#[cfg(test)]
mod calling;
#[cfg(test)]
mod closing;
#[cfg(test)]
mod devices;
#[cfg(test)]
mod gates;
#[cfg(test)]
mod library;
#[cfg(test)]
mod memory;
#[cfg(test)]
mod refusals;
#[cfg(test)]
mod running;
#[cfg(test)]
mod shared;

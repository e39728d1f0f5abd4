//! Tests of clk_live, by its public calls alone: worked rows on one thread, senders on threads, and failed allocations.
#![tactic(auto)]

#[cfg(test)]
mod bench;
#[cfg(test)]
mod calling;
#[cfg(test)]
mod held;
#[cfg(test)]
mod many;
#[cfg(test)]
mod memory;
#[cfg(test)]
mod returning;
#[cfg(test)]
mod rounds;
#[cfg(test)]
mod rows;
#[cfg(test)]
mod seen;
#[cfg(test)]
mod senders;
#[cfg(test)]
mod settling;
#[cfg(test)]
mod steps;
#[cfg(test)]
mod threads;

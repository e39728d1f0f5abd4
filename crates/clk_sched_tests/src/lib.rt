//! Tests of clk_sched, by its public calls alone: what trees may be, what sessions emit and when, and worked rows, each a tree, the steps
//! that are taken with it, and the text that they show. They stand apart so that clk_sched is not proved twice.
#![tactic(auto)]

#[cfg(test)]
mod calling;
#[cfg(test)]
mod closing;
#[cfg(test)]
mod constructors;
#[cfg(test)]
mod due;
#[cfg(test)]
mod heads;
#[cfg(test)]
mod limits;
#[cfg(test)]
mod random;
#[cfg(test)]
mod row;
#[cfg(test)]
mod rows;
#[cfg(test)]
mod shaped;
#[cfg(test)]
mod strides;
#[cfg(test)]
mod text;

//! Tests of clk_script and clk_router, by their public calls alone: what scripts over trees write, and when devices are due.
#![tactic(auto)]

#[cfg(test)]
mod calling;
#[cfg(test)]
mod closing;
#[cfg(test)]
mod deficit;
#[cfg(test)]
mod devices;
#[cfg(test)]
mod due;
#[cfg(test)]
mod failures;
#[cfg(test)]
mod in_order;
#[cfg(test)]
mod limits;
#[cfg(test)]
mod logged;
#[cfg(test)]
mod pieces;
#[cfg(test)]
mod queues;
#[cfg(test)]
mod random;
#[cfg(test)]
mod records;
#[cfg(test)]
mod replay;
#[cfg(test)]
mod row;
#[cfg(test)]
mod scripts;
#[cfg(test)]
mod shaper;
#[cfg(test)]
mod stride;
#[cfg(test)]
mod text;
#[cfg(test)]
mod trees;

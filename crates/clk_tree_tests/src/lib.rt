//! Tests of clk_tree, by its public calls alone: which plans and faults texts of trees have.
#![tactic(auto)]

#[cfg(test)]
mod altered;
#[cfg(test)]
mod calling;
#[cfg(test)]
mod canonical;
#[cfg(test)]
mod drrs;
#[cfg(test)]
mod explained;
#[cfg(test)]
mod faults;
#[cfg(test)]
mod limits;
#[cfg(test)]
mod memory;
#[cfg(test)]
mod parts;
#[cfg(test)]
mod row;
#[cfg(test)]
mod sound;
#[cfg(test)]
mod trees;

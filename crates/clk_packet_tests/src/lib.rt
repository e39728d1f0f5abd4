//! Tests of clk_packet, clk_ring and clk_locked, by their public calls alone. They stand apart so that none of these is proved twice.
#![tactic(auto)]

#[cfg(test)]
mod calling;
#[cfg(test)]
mod packet;
#[cfg(test)]
mod ring;

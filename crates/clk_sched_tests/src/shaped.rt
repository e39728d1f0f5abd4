//! Trees with Shapers.

ghost use Rattle.std.specs.Prelude.{◌≤◌};
ghost use Rattle.clk_packet.specs.declared.limits.TheConstants.{MAX_BURST};

use clk_fixtures::trees::{drr_over_one, drr_over_two};
use clk_packet::Fault;
use clk_sched::Tree;
use std::alloc::Global;

/// Two Shapers of one packet each tick and these bursts, the first over the second, over queue 0.
pub fn shaper_over_shaper(alloc: Global, upper: u32, lower: u32) -> Result<Tree, Fault>
    requires upper { (1 ≤ upper) × (upper ≤ MAX_BURST) }
    requires lower { (1 ≤ lower) × (lower ≤ MAX_BURST) }
{
    Tree::shaper(alloc, 1, upper, shaped(alloc, lower, Tree::leaf(0))?)
}

/// A PrioSched over a Shaper of one packet each tick over queue 0, and over queue 1.
pub fn prio_over_shaper(alloc: Global) -> Result<Tree, Fault> {
    Tree::prio(vec![in alloc; shaped(alloc, 1, Tree::leaf(0))?, Tree::leaf(1)]?)
}

/// A PrioSched over two Shapers of one packet each tick over queues 0 and 1: the first of burst 1, the second of burst 2.
pub fn prio_over_shapers(alloc: Global) -> Result<Tree, Fault> {
    let first = shaped(alloc, 1, Tree::leaf(0))?;
    let second = shaped(alloc, 2, Tree::leaf(1))?;
    Tree::prio(vec![in alloc; first, second]?)
}

/// A Shaper of one packet each tick over a DRRSched of quanta 500 over queues 0 and 1.
pub fn shaped_drr_over_two(alloc: Global) -> Result<Tree, Fault> {
    shaped(alloc, 1, drr_over_two(alloc, 500, 500)?)
}

/// A Shaper over a DRRSched over a Shaper over queue 0, and over a StrideSched over queues 1 and 2.
pub fn shaped_shares(alloc: Global) -> Result<Tree, Fault> {
    let first = shaped(alloc, 1, Tree::leaf(0))?;
    let leaves = vec![in alloc; Tree::leaf(1), Tree::leaf(2)]?;
    let second = Tree::stride(vec![in alloc; 1, 2]?, leaves)?;
    let shares = Tree::drr(vec![in alloc; 500, 300]?, vec![in alloc; first, second]?)?;
    shaped(alloc, 2, shares)
}

/// A PrioSched over a Shaper over a DRRSched over queue 0, and over a Shaper over a RoundRobinSched over queues 1 and 2.
pub fn shaped_priorities(alloc: Global) -> Result<Tree, Fault> {
    let first = shaped(alloc, 1, drr_over_one(alloc, 300)?)?;
    let leaves = vec![in alloc; Tree::leaf(1), Tree::leaf(2)]?;
    let second = Tree::shaper(alloc, 2, 3, Tree::round_robin(leaves)?)?;
    Tree::prio(vec![in alloc; first, second]?)
}

/// A RoundRobinSched over a Shaper over queue 0, and over a Shaper over a DRRSched over a Shaper over queue 1, and over queue 2.
pub fn shaped_turns(alloc: Global) -> Result<Tree, Fault> {
    let first = shaped(alloc, 1, Tree::leaf(0))?;
    let inner = shaped(alloc, 1, Tree::leaf(1))?;
    let leaves = vec![in alloc; inner, Tree::leaf(2)]?;
    let second = shaped(alloc, 2, Tree::drr(vec![in alloc; 400, 400]?, leaves)?)?;
    Tree::round_robin(vec![in alloc; first, second]?)
}

// A Shaper of one packet each tick and this burst.
fn shaped(alloc: Global, burst: u32, child: Tree) -> Result<Tree, Fault>
    requires { (1 ≤ burst) × (burst ≤ MAX_BURST) }
{
    Tree::shaper(alloc, 1, burst, child)
}

//! The trees of the rows.

ghost use Rattle.std.specs.Prelude.{◌≤◌};
ghost use Rattle.clk_packet.specs.declared.limits.TheConstants.{MAX_QUANTUM, MAX_TICKETS};

use clk_packet::Fault;
use clk_sched::Tree;
use std::alloc::Global;

/// A PrioSched over queues 0 and 1.
pub fn prio_over_two(alloc: Global) -> Result<Tree, Fault> {
    Tree::prio(vec![in alloc; Tree::leaf(0), Tree::leaf(1)]?)
}

/// A RoundRobinSched over queues 0, 1 and 2.
pub fn round_robin_over_three(alloc: Global) -> Result<Tree, Fault> {
    Tree::round_robin(vec![in alloc; Tree::leaf(0), Tree::leaf(1), Tree::leaf(2)]?)
}

/// A DRRSched over queue 0, with this quantum.
pub fn drr_over_one(alloc: Global, quantum: u32) -> Result<Tree, Fault>
    requires { (1 ≤ quantum) × (quantum ≤ MAX_QUANTUM) }
{
    drr_over(alloc, quantum, Tree::leaf(0))
}

/// So many DRRScheds of one quantum, one over another, over queue 0.
pub fn drr_path(alloc: Global, count: u8, quantum: u32) -> Result<Tree, Fault>
    requires { (1 ≤ quantum) × (quantum ≤ MAX_QUANTUM) }
{
    let mut tree = Tree::leaf(0);
    for _ in 0..count {
        tree = drr_over(alloc, quantum, tree)?;
    }
    Ok(tree)
}

/// So many DRRScheds of one quantum, one over another, over queue 0, under a Shaper of one packet each tick.
pub fn shaped_drr_path(alloc: Global, count: u8, quantum: u32) -> Result<Tree, Fault>
    requires { (1 ≤ quantum) × (quantum ≤ MAX_QUANTUM) }
{
    Tree::shaper(alloc, 1, 1, drr_path(alloc, count, quantum)?)
}

/// A DRRSched of quantum 500 over one of quantum 300 over queue 0.
pub fn drr_over_drr(alloc: Global) -> Result<Tree, Fault> {
    drr_over(alloc, 500, drr_over_one(alloc, 300)?)
}

/// A DRRSched of quantum 5 over a PrioSched over queues 0 and 1.
pub fn drr_over_prio(alloc: Global) -> Result<Tree, Fault> {
    drr_over(alloc, 5, prio_over_two(alloc)?)
}

fn drr_over(alloc: Global, quantum: u32, child: Tree) -> Result<Tree, Fault>
    requires { (1 ≤ quantum) × (quantum ≤ MAX_QUANTUM) }
{
    Tree::drr(vec![in alloc; quantum]?, vec![in alloc; child]?)
}

/// A DRRSched over queues 0 and 1, with these quanta.
pub fn drr_over_two(alloc: Global, first: u32, second: u32) -> Result<Tree, Fault>
    requires first { (1 ≤ first) × (first ≤ MAX_QUANTUM) }
    requires second { (1 ≤ second) × (second ≤ MAX_QUANTUM) }
{
    Tree::drr(
        vec![in alloc; first, second]?,
        vec![in alloc; Tree::leaf(0), Tree::leaf(1)]?,
    )
}

/// A StrideSched over queues 0 and 1, with these tickets.
pub fn stride_over_two(alloc: Global, first: u32, second: u32) -> Result<Tree, Fault>
    requires first { (1 ≤ first) × (first ≤ MAX_TICKETS) }
    requires second { (1 ≤ second) × (second ≤ MAX_TICKETS) }
{
    Tree::stride(
        vec![in alloc; first, second]?,
        vec![in alloc; Tree::leaf(0), Tree::leaf(1)]?,
    )
}

/// A DRRSched of quantum 100 over a StrideSched over queues 0 to 8, with a ticket each, and queues 9 to 12. Neither has room in
/// itself for what it holds of so many inputs.
pub fn drr_over_stride(alloc: Global) -> Result<Tree, Fault> {
    let nine = vec![in alloc;
        Tree::leaf(0),
        Tree::leaf(1),
        Tree::leaf(2),
        Tree::leaf(3),
        Tree::leaf(4),
        Tree::leaf(5),
        Tree::leaf(6),
        Tree::leaf(7),
        Tree::leaf(8),
    ]?;
    let shared = Tree::stride(vec![in alloc; 1, 1, 1, 1, 1, 1, 1, 1, 1]?, nine)?;
    Tree::drr(
        vec![in alloc; 100, 100, 100, 100, 100]?,
        vec![in alloc;
            shared,
            Tree::leaf(9),
            Tree::leaf(10),
            Tree::leaf(11),
            Tree::leaf(12),
        ]?,
    )
}

/// A StrideSched over a DRRSched over two RoundRobinScheds, a Shaper over a PrioSched, and a DRRSched. Each of the lowest schedulers is
/// over two of the queues 0 to 7.
pub fn three_levels(alloc: Global) -> Result<Tree, Fault> {
    let first = Tree::round_robin(vec![in alloc; Tree::leaf(0), Tree::leaf(1)]?)?;
    let second = Tree::round_robin(vec![in alloc; Tree::leaf(2), Tree::leaf(3)]?)?;
    let turns = Tree::drr(vec![in alloc; 500, 300]?, vec![in alloc; first, second]?)?;
    let urgent = Tree::prio(vec![in alloc; Tree::leaf(4), Tree::leaf(5)]?)?;
    let paced = Tree::shaper(alloc, 1, 2, urgent)?;
    let bytes = Tree::drr(
        vec![in alloc; 100, 100]?,
        vec![in alloc; Tree::leaf(6), Tree::leaf(7)]?,
    )?;
    Tree::stride(
        vec![in alloc; 4, 2, 1]?,
        vec![in alloc; turns, paced, bytes]?,
    )
}

/// So many PrioScheds, one above another, over queue 0.
pub fn prio_path(alloc: Global, count: u8) -> Result<Tree, Fault> {
    let mut tree = Tree::leaf(0);
    for _ in 0..count {
        tree = Tree::prio(vec![in alloc; tree]?)?;
    }
    Ok(tree)
}

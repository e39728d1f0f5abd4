//! Trees of schedulers over queues.

mod bound;
mod distinct;
mod drrs;

ghost use Rattle.std.specs.Prelude.{◌≡◌, ◌≤◌, length};
ghost use Rattle.clk_packet.specs.declared.limits.TheConstants.{MAX_QUANTUM, MAX_TICKETS, MAX_RATE, MAX_BURST};
ghost use Rattle.clk_packet.specs.Scheduler.{prio, round_robin, drr, stride, shaper};
ghost use Rattle.clk_sched.specs.Tree.{queue, height, IsWellFormed};
ghost use Rattle.clk_sched.specs.Built.{built, row};

use clk_packet::{Fault, MAX_INPUTS, MAX_LEVELS, Scheduler};
use std::alloc::Global;
use std::marker::Model;

/// A tree of schedulers over queues: a queue alone, or a scheduler with its inputs.
#[cycle(tree)]
#[derive(Drop)]
pub struct Tree {
    pub(crate) node: Node,
    // How many schedulers stand on the longest path.
    height: u8,
}

#[cycle(tree)]
#[derive(Drop)]
pub(crate) enum Node {
    Leaf(u16),
    Inner(Scheduler, Vec<Tree>),
}

impl Model for Tree {
    ghost use Rattle.std.specs.Prelude.{◌≡◌, ◌≤◌};
    ghost use Rattle.clk_sched.specs.Tree as tree;
    ghost use Rattle.clk_sched.specs.Stored.{tree_code};

    ghost Value = { tree.Tree };

    ghost coded = { tree_code };

    ghost use Rattle.clk_sched.specs.Tree.{root, IsWellFormed};
    ghost use Rattle.clk_sched.specs.Built.{levels};
    ghost use Rattle.clk_packet.specs.declared.limits.TheConstants.{MAX_LEVELS};
    ghost use Rattle.clk_sched.specs.inside.Kept.{kept};

    ghost view = { λ a. kept a.node };

    ghost invariant = { λ a. (a.height ≡ levels (kept a.node)) × IsWellFormed (root (kept a.node)) × (a.height ≤ MAX_LEVELS) };

    ghost size = { levels };

    ghost use Rattle.clk_sched.specs.inside.Falls.{depth_le-levels};

    ghost size_decreases = { λ a h. depth_le-levels a.node };
}

impl Tree {
    ghost use Rattle.std.specs.Prelude.{◌⊎◌, Err, [], ◌∷◌};
    ghost use Rattle.clk_packet.specs.declared.fault.Fault.TheVariants.{Memory};
    ghost use Rattle.std.specs.List.{AllByRecursion};
    ghost use Rattle.clk_packet.specs.Scheduler.{HasArguments};
    ghost use Rattle.clk_packet.specs.Scheduler.{scheduler_view};

    /// The queue of this number alone.
    pub fn leaf(q: u16) -> Tree
        ensures { result ≡ queue q }
    {
        Tree {
            node: Node::Leaf(q),
            height: 0,
        }
    }

    /// A PrioSched over these trees, of which there is at least one.
    ///
    /// # Errors
    ///
    /// Fault 18 if there are more than 64 trees, or if more than 64 schedulers would stand on a path.
    pub fn prio(children: Vec<Tree>) -> Result<Tree, Fault>
        requires inputs { 1 ≤ length children.items }
        ensures { result ≡ built prio children.items }
    {
        Tree::scheduler(Scheduler::Prio, children)
    }

    /// A RoundRobinSched over these trees, of which there is at least one.
    ///
    /// # Errors
    ///
    /// Fault 18 if there are more than 64 trees, or if more than 64 schedulers would stand on a path.
    pub fn round_robin(children: Vec<Tree>) -> Result<Tree, Fault>
        requires inputs { 1 ≤ length children.items }
        ensures { result ≡ built round_robin children.items }
    {
        Tree::scheduler(Scheduler::RoundRobin, children)
    }

    /// A DRRSched over these trees, of which there is at least one, with the quantum of each in bytes, from 1 to 1,000,000.
    ///
    /// # Errors
    ///
    /// Fault 18 if there are more than 64 trees, or if more than 64 schedulers would stand on a path.
    pub fn drr(quanta: Vec<u32>, children: Vec<Tree>) -> Result<Tree, Fault>
        requires inputs { 1 ≤ length children.items }
        requires one_each { length quanta.items ≡ length children.items }
        requires quanta { AllByRecursion (λ n. (1 ≤ n) × (n ≤ MAX_QUANTUM)) quanta.items }
        ensures { result ≡ built (drr quanta.items) children.items }
    {
        Tree::scheduler(Scheduler::Drr(quanta), children)
    }

    /// A StrideSched over these trees, of which there is at least one, with the tickets of each, from 1 to 32,768.
    ///
    /// # Errors
    ///
    /// Fault 18 if there are more than 64 trees, or if more than 64 schedulers would stand on a path.
    pub fn stride(tickets: Vec<u32>, children: Vec<Tree>) -> Result<Tree, Fault>
        requires inputs { 1 ≤ length children.items }
        requires one_each { length tickets.items ≡ length children.items }
        requires tickets { AllByRecursion (λ n. (1 ≤ n) × (n ≤ MAX_TICKETS)) tickets.items }
        ensures { result ≡ built (stride tickets.items) children.items }
    {
        Tree::scheduler(Scheduler::Stride(tickets), children)
    }

    /// A Shaper over a tree: a token bucket that fills by `rate` packets a tick, and holds `burst` packets at most. Each is
    /// from 1 to 1,000,000.
    ///
    /// # Errors
    ///
    /// Fault 1 if an allocation fails, and fault 18 if more than 64 schedulers would stand on a path.
    pub fn shaper(alloc: Global, rate: u32, burst: u32, child: Tree) -> Result<Tree, Fault>
        requires rate { (1 ≤ rate) × (rate ≤ MAX_RATE) }
        requires burst { (1 ≤ burst) × (burst ≤ MAX_BURST) }
        ensures { (result ≡ Err Memory) ⊎ (result ≡ built (shaper rate burst) (child ∷ [])) }
    {
        let mut children = Vec::new(alloc);
        children.push(child)?;
        Tree::scheduler(Scheduler::Shaper(rate, burst), children)
    }

    /// A scheduler over these trees, of which there is at least one. A DRRSched has a quantum for each of them, a StrideSched has tickets
    /// for each, and a Shaper stands over one. The numbers are within the limits that `drr`, `stride` and `shaper` have.
    ///
    /// # Errors
    ///
    /// Fault 18 if there are more than 64 trees, or if more than 64 schedulers would stand on a path.
    pub fn scheduler(scheduler: Scheduler, children: Vec<Tree>) -> Result<Tree, Fault>
        requires inputs { 1 ≤ length children.items }
        requires arguments { HasArguments (scheduler_view scheduler) (length children.items) }
        ensures { result ≡ built (scheduler_view scheduler) children.items }
    {
        if children.len() > MAX_INPUTS {
            return Err(Fault::TooLarge);
        }
        let below = highest(&children);
        if below >= MAX_LEVELS {
            return Err(Fault::TooLarge);
        }
        Ok(Tree {
            node: Node::Inner(scheduler, children),
            height: below + 1,
        })
    }
}

/// How many schedulers stand on the longest path of these trees, each of which is well formed.
fn highest(trees: &[Tree]) -> u8
    ensures height { result ≡ height (row trees.now) }
    ensures well_formed { IsWellFormed (row trees.now) }
{
    let mut highest = 0;
    for tree in trees {
        highest = tree.height.max(highest);
    }
    highest
}

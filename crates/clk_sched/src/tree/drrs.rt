//! How many DRRScheds stand above each queue of a tree.

ghost use Rattle.std.specs.Prelude.{◌≡◌, ◌+◌, ◌≤◌, true};
ghost use Rattle.clk_packet.specs.declared.limits.TheConstants.{MAX_LEVELS};
ghost use Rattle.clk_packet.specs.Lists.{are_distinct};
ghost use Rattle.clk_packet.specs.Scheduler.{scheduler_view};
ghost use Rattle.clk_sched.specs.Tree.{height, leaves};
ghost use Rattle.clk_sched.specs.Built.{row};
ghost use Rattle.clk_sched.specs.FewHeads.{most_heads};
ghost use Rattle.clk_sched.specs.inside.Drrs.{HasPlaces, IsCounted};

use super::{Node, Tree};
use clk_packet::Scheduler;

impl Tree {
    ghost use Rattle.std.specs.Prelude.{◌<◌, ℕ, false, length, slice_index};
    ghost use Rattle.clk_packet.specs.Lists.{stands_in};
    ghost use Rattle.clk_sched.specs.Tree.{root, leaves_distinct};
    ghost use Rattle.clk_sched.specs.FewHeads.{drrs_above};

    /// Writes the number of DRRScheds above each queue of this tree to `counts`, at the queue's number, in one walk over the tree. The
    /// other counts stay as they are.
    pub fn count_drrs(&self, counts: &mut [u32])
        requires places { (q : ℕ) → stands_in q (leaves (root self.now)) ≡ true → q < length counts.old }
        requires distinct { leaves_distinct self.now ≡ true }
        ensures length { length counts.new ≡ length counts.old }
        ensures counts { (q : ℕ) → stands_in q (leaves (root self.now)) ≡ true → slice_index counts.new q ≡ drrs_above q (root self.now) }
        ensures others { (q : ℕ) → stands_in q (leaves (root self.now)) ≡ false → slice_index counts.new q ≡ slice_index counts.old q }
        ensures limit { (q : ℕ) → drrs_above q (root self.now) ≤ MAX_LEVELS }
    {
        // Reading a field brings the type invariant into scope, which bounds the height, and so each count.
        let _ = &self.node;
        self.count_below(0, counts);
    }

    // Counts the DRRScheds above each queue of this tree, which stands below `above` others.
    #[cycle(count_below)]
    fn count_below(&self, above: u32, counts: &mut [u32])
        requires places { HasPlaces (root self.now) counts.old }
        requires distinct { are_distinct (leaves (root self.now)) ≡ true }
        requires low { above + height (root self.now) ≤ MAX_LEVELS }
        ensures { IsCounted above (root self.now) counts.old counts.new }
    {
        match &self.node {
            Node::Leaf(q) => counts[usize::from(*q)] = above,
            Node::Inner(scheduler, inputs) => count_below(
                inputs,
                above + most_heads(scheduler),
                counts,
            ),
        }
    }
}

/// Counts the DRRScheds above each queue of these trees, which stand below `above` others.
#[cycle(count_below)]
fn count_below(trees: &[Tree], above: u32, counts: &mut [u32])
    requires places { HasPlaces (row trees.now) counts.old }
    requires distinct { are_distinct (leaves (row trees.now)) ≡ true }
    requires low { above + height (row trees.now) ≤ MAX_LEVELS }
    ensures { IsCounted above (row trees.now) counts.old counts.new }
{
    let [first, rest @ ..] = trees else {
        return;
    };
    first.count_below(above, counts);
    count_below(rest, above, counts);
}

// How many packets of one queue a scheduler holds as heads at most: one if it is a DRRSched.
fn most_heads(scheduler: &Scheduler) -> u32
    ensures heads { result ≡ most_heads (scheduler_view scheduler.now) }
    ensures one { result ≤ 1 }
{
    match scheduler {
        Scheduler::Drr(_) => 1,
        _ => 0,
    }
}

//! How many pulls a drain of a tree makes at most.

ghost use Rattle.std.specs.Prelude.{◌≡◌, ◌+◌, ◌*◌, ◌<◌, ◌≤◌, ◌^◌, ℕ};
ghost use Rattle.std.specs.List.{AllByRecursion};
ghost use Rattle.clk_packet.specs.Scheduler.{scheduler_view};
ghost use Rattle.clk_sched.specs.Tree.{root, IsSound};
ghost use Rattle.clk_sched.specs.Built.{row};
ghost use Rattle.clk_sched.specs.Bound.{quanta_of, rounds_for};
ghost use Rattle.clk_sched.specs.inside.Quanta.{quanta_below, quanta_in, most_rounds};

use super::{Node, Tree};
use clk_packet::{MAX_LENGTH, Scheduler};

impl Tree {
    ghost use Rattle.clk_sched.specs.Bound.{rounds, closing_bound};
    ghost use Rattle.clk_packet.specs.declared.limits.TheConstants.{MAX_LENGTH, MAX_LEVELS};
    ghost use Rattle.clk_sched.specs.declared.limits.TheConstants.{MAX_LEFT};

    /// A law: each scheduler of a tree has at least one input, and arguments within their limits.
    pub fn schedulers_are_sound(&self)
        ensures { IsSound (root self.now) }
    {
        // Reading a field brings the type invariant into scope: the tree is well formed.
        let _ = &self.node;
    }

    /// A law: the closing bound is below 2^42 for 1,000,000 packets at most.
    pub fn closing_bound_is_low(&self)
        ensures { (left : ℕ) → left ≤ MAX_LEFT → closing_bound self.now left < 2 ^ 42 }
    {
        // Reading a field brings the type invariant into scope, which limits the height and the quanta.
        let _ = &self.node;
    }

    /// How many pulls the closing bound has for each packet that is left.
    pub(crate) fn pulls_per_packet(&self) -> u64
        ensures value { (left : ℕ) → closing_bound self.now left ≡ left * result }
        ensures limit { result ≤ (MAX_LEVELS + 1) * (MAX_LENGTH + 1) }
    {
        let levels = u64::from(self.height);
        (levels + 1) * self.rounds()
    }

    // The most rounds that a packet may need at an input of this tree: 1 without a DRRSched.
    fn rounds(&self) -> u64
        ensures value { result ≡ rounds self.now }
        ensures limit { result ≤ MAX_LENGTH + 1 }
    {
        // Reading a field brings the type invariant into scope: the arguments are within their limits.
        let _ = &self.node;
        self.most_rounds(1)
    }

    // The most rounds that a packet may need at an input of this tree, or `most` if that is more.
    #[cycle(most_rounds)]
    fn most_rounds(&self, most: u64) -> u64
        ensures { result ≡ most_rounds most (quanta_in self.now) }
    {
        match &self.node {
            Node::Leaf(_) => most,
            Node::Inner(scheduler, inputs) => most_rounds(inputs, own_rounds(scheduler, most)),
        }
    }
}

/// The most rounds that a packet may need at an input of these trees, or `most` if that is more.
#[cycle(most_rounds)]
fn most_rounds(trees: &[Tree], most: u64) -> u64
    ensures { result ≡ most_rounds most (quanta_below (row trees.now)) }
{
    let [first, rest @ ..] = trees else {
        return most;
    };
    let most = first.most_rounds(most);
    most_rounds(rest, most)
}

// The most rounds that a packet may need at an input of a DRRSched, or `most` if that is more, as for any other scheduler.
fn own_rounds(scheduler: &Scheduler, most: u64) -> u64
    requires some { AllByRecursion (λ n. 1 ≤ n) (quanta_of (scheduler_view scheduler.now)) }
    ensures { result ≡ most_rounds most (quanta_of (scheduler_view scheduler.now)) }
{
    match scheduler {
        Scheduler::Drr(quanta) => rounds_of(quanta, most),
        _ => most,
    }
}

// The most rounds that a packet may need for one of these quanta, or `most` if that is more.
fn rounds_of(quanta: &[u32], most: u64) -> u64
    requires some { AllByRecursion (λ n. 1 ≤ n) quanta.now }
    ensures { result ≡ most_rounds most quanta.now }
{
    let mut most = most;
    for quantum in quanta {
        most = most.max(rounds_for(*quantum));
    }
    most
}

// The rounds that a packet may need for a quantum: the greatest length over it, rounded up, plus 1.
fn rounds_for(quantum: u32) -> u64
    requires some { 1 ≤ quantum }
    ensures { result ≡ rounds_for quantum }
{
    let quantum = u64::from(quantum);
    1 + (MAX_LENGTH + (quantum - 1)) / quantum
}

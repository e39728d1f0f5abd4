//! The laws of every run of a tree: each is a function that does nothing and whose contract is the law.

ghost use Rattle.std.specs.Prelude.{◌≡◌, true};
ghost use Rattle.clk_sched.specs.Tree.{root, leaves_distinct, IsSound};
ghost use Rattle.clk_sched.specs.Step.{GoesOn, CanGoOn};
ghost use Rattle.clk_sched.specs.Choice.{LeavesNoChoice, PullsLeaveNoChoice};
ghost use Rattle.clk_sched.specs.Conservation.{ConservesPackets, ConservesCounts, MakesNothing};
ghost use Rattle.clk_sched.specs.FewHeads.{HoldsFewHeads};
ghost use Rattle.clk_sched.specs.Service.{SharesOut};
ghost use Rattle.clk_sched.specs.Closing.{BoundIsEnough};
ghost use Rattle.clk_sched.specs.Due.{EmitsOnceDue};

/// How a run of a tree begins, and goes on by one pull.
pub fn runs_go_on()
    ensures { (tree : _) → GoesOn tree }
{}

/// A run of a sound tree can go on by one pull at each moment that is no earlier than its last, whatever the queues give.
pub fn runs_can_go_on()
    ensures { (tree : _) → CanGoOn tree }
{}

/// A run of a tree leaves nothing to choose but what each queue gives and the moments of the pulls.
pub fn runs_leave_no_choice()
    ensures runs { (tree : _) → LeavesNoChoice tree }
    ensures pulls { (tree : _) → PullsLeaveNoChoice tree }
{}

/// If no queue stands twice in a tree, each run of the tree conserves the packets of each queue. What the queue gave is what was emitted of
/// it, in order, and then what is held of it. So as many packets are emitted or held as all queues gave. Of the packets of one queue, each
/// DRRSched above the queue holds one at most, and no other scheduler holds any. In any tree, each packet that is emitted or held is among
/// those that one of its queues gave.
pub fn runs_conserve_packets()
    ensures loses_nothing { (tree : _) → leaves_distinct tree ≡ true → ConservesPackets tree }
    ensures counts { (tree : _) → leaves_distinct tree ≡ true → ConservesCounts tree }
    ensures makes_nothing { (tree : _) → MakesNothing tree }
    ensures few_heads { (tree : _) → leaves_distinct tree ≡ true → HoldsFewHeads tree }
{}

/// In each run of a tree each DRRSched and each StrideSched gives the shares that its quanta or its tickets say, within bounds, and each
/// Shaper keeps to its rate.
pub fn runs_share_out()
    ensures { (tree : _) → SharesOut tree }
{}

/// A drain, with pulls one tick apart over queues that lose nothing, emits all that queues and heads hold within the closing bound.
pub fn closing_bound_is_enough()
    ensures { (tree : _) → IsSound (root tree) → leaves_distinct tree ≡ true → BoundIsEnough tree }
{}

/// No pull of a run emits a packet at a moment at which none could be emitted, as things stood, if it gets packets from backlogged queues
/// alone.
pub fn pulls_emit_once_due()
    ensures { (tree : _) → EmitsOnceDue tree }
{}

//! What holds of every pull over lines, and of every run that fails. A law is a function that does nothing and whose contract is the law.

ghost use Rattle.clk_drain.specs.Laws.{TapsTakeWhatLeavesGive, SettledHoldNothing, RunsHoldNothing, RunsAccountForEmitted, LossesHaveLists};

use clk_packet::Traces;
use clk_sched::runs_conserve_packets;
use clk_tree::Plan;

/// The tap of each line takes what the visits of a tree got from its leaf, in order, and nothing else changes.
pub fn taps_take_what_leaves_give()
    ensures { TapsTakeWhatLeavesGive }
{}

/// A settled device holds no packet back, if its queues stand at the leaves of its tree, each at one of its own, and no sender sends to two
/// of them.
pub fn settled_devices_hold_nothing()
    ensures { SettledHoldNothing }
{
    // This call does nothing: its contract is a law.
    runs_conserve_packets();
}

/// After a run of the plan no tree of its devices holds a packet back.
pub fn runs_hold_nothing(plan: &Plan)
    ensures { RunsHoldNothing plan.now }
{
    // These two calls do nothing: their contracts are laws.
    runs_conserve_packets();
    plan.trees_share_queues();
    // Reading senders and queues brings into scope that no sender sends to two queues, and that each queue has a device.
    let _ = plan.senders();
    let _ = plan.queues();
}

/// Whatever counts a run's fault 21 has, there are lists of what the queues of the plan did that agree with them. By these each sender
/// offered all that it sends, and the fault names the first queue, by device and then by number, that lost packets below its capacity.
pub fn losses_have_lists(plan: &Plan, traces: &Traces)
    ensures { LossesHaveLists plan.now traces.now }
{
    // This call does nothing: its contract is a law.
    traces.are_numbered();
    // Reading senders and queues brings into scope that no sender sends to two queues, and that each queue has a device.
    let _ = plan.senders();
    let _ = plan.queues();
}

/// After a run of the plan the tallies account for what was emitted: each packet that a tally has as accepted is one that it has as
/// evicted, or one that a device emitted.
pub fn runs_account_for_emitted(plan: &Plan)
    ensures { RunsAccountForEmitted plan.now }
{
    // This call does nothing: its contract is a law.
    plan.trees_share_queues();
    // Reading senders and queues brings into scope that no sender sends to two queues, and that each queue has a device.
    let _ = plan.senders();
    let _ = plan.queues();
}

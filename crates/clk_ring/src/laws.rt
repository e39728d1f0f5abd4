//! What the definition of a queue's history says: each law is a function that does nothing and whose contract is the law.

ghost use Rattle.clk_packet.specs.declared.packet.Kind.TheVariants.{TailDrop, FrontDrop};
ghost use Rattle.clk_ring.specs.QueueHistory.{IsQueueHistory, empty};
ghost use Rattle.clk_ring.specs.Laws.{CallsAreHistory, HistoriesAreCalls, HistoriesLeaveNoChoice};
ghost use Rattle.clk_ring.specs.Examples.{tail_dropped, front_dropped, two_held, order_turned, other_given, nothing_given, put_out_at_end, put_out_before, newest_put_out, given_in_between, refuses_second, puts_out_second};

/// Calls on a ring, one after another from when it is made, are a history of it.
pub fn calls_are_history()
    ensures { CallsAreHistory }
{}

/// Each offer and each pull in a history of a queue is a call on it. So a history is told by its steps, and by nothing else.
pub fn histories_are_calls()
    ensures { HistoriesAreCalls }
{}

/// The outcome of an offer and the result of a pull follow from what happened to the queue before.
pub fn histories_leave_no_choice()
    ensures { HistoriesLeaveNoChoice }
{}

/// Which worked examples are histories. A full Queue refuses what arrives, and a full FrontDropQueue evicts its front. Neither does what
/// the other does, or does it with room left. No queue holds more than its capacity. None gives a newer packet first, a packet that it
/// never accepted, or nothing while it holds one. None evicts another packet than its front, or evicts one without accepting the packet
/// that forces it.
pub fn history_examples()
    ensures tail_drop { IsQueueHistory TailDrop 1 tail_dropped }
    ensures front_drop { IsQueueHistory FrontDrop 1 front_dropped }
    ensures two_held { IsQueueHistory TailDrop 2 two_held }
    ensures not_refused { ¬ (IsQueueHistory FrontDrop 1 tail_dropped) }
    ensures not_evicted { ¬ (IsQueueHistory TailDrop 1 front_dropped) }
    ensures not_refused_early { ¬ (IsQueueHistory TailDrop 2 tail_dropped) }
    ensures not_evicted_early { ¬ (IsQueueHistory FrontDrop 2 front_dropped) }
    ensures not_two_held { ¬ (IsQueueHistory TailDrop 1 two_held) }
    ensures not_order_turned { ¬ (IsQueueHistory TailDrop 2 order_turned) }
    ensures not_other_given { ¬ (IsQueueHistory TailDrop 1 other_given) }
    ensures not_nothing_given { ¬ (IsQueueHistory TailDrop 1 nothing_given) }
    ensures not_put_out_at_end { ¬ (IsQueueHistory FrontDrop 1 put_out_at_end) }
    ensures not_given_in_between { ¬ (IsQueueHistory FrontDrop 2 given_in_between) }
    ensures not_put_out_before_empty { ¬ (IsQueueHistory FrontDrop 1 (put_out_before empty)) }
    ensures not_put_out_before_evict { ¬ (IsQueueHistory FrontDrop 1 (put_out_before puts_out_second)) }
    ensures not_put_out_before_refuse { ¬ (IsQueueHistory FrontDrop 1 (put_out_before refuses_second)) }
    ensures not_newest_put_out { ¬ (IsQueueHistory FrontDrop 2 newest_put_out) }
{}

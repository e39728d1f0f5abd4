//! What the definitions say of worked examples: of a queue's account, of a settled queue, and of why one isn't settled. Some examples meet
//! them, and others don't. The functions do nothing.

ghost use Rattle.std.specs.Prelude.{[], ◌∷◌};
ghost use Rattle.clk_packet.specs.declared.packet.Kind.TheVariants.{TailDrop, FrontDrop};
ghost use Rattle.clk_packet.specs.declared.fault.Fault.TheVariants.{Memory, Read, Unsettled};
ghost use Rattle.clk_ruled.specs.Account.{IsAccount};
ghost use Rattle.clk_ruled.specs.Examples.{by_sender, for_seats, both, arrived, put_out, pulled, held, one_lost, newest_out, pulled_both, older_held, turned, first_missing, second_alone, with_stranger, stranger_held, p0_0, p0_1};
ghost use Rattle.clk_ruled.specs.SettleExamples.{MayTell, NeverTells, MayRefuse, NeverRefuses, front_dropped, front_tallies, told_at_seat, newer_first, front_refused, with_refused, tail_dropped, tail_tallies, seat_of_a_queue, none_lost, seated_twice, twice_tallies, newer_out, stranger_out};

/// Which lists of a worked queue are an account of it.
pub fn account_examples()
    ensures is_account { IsAccount FrontDrop 2 both (by_sender arrived) (for_seats [] put_out) pulled held }
    ensures not_one_lost { ¬ (IsAccount FrontDrop 2 both (by_sender arrived) (for_seats [] put_out) pulled one_lost) }
    ensures not_newest_out { ¬ (IsAccount FrontDrop 2 both (by_sender arrived) (for_seats [] newest_out) pulled_both older_held) }
    ensures not_turned { ¬ (IsAccount FrontDrop 2 both (by_sender turned) (for_seats [] put_out) pulled held) }
    ensures not_never_taken { ¬ (IsAccount FrontDrop 2 both (by_sender first_missing) (for_seats [] put_out) pulled held) }
    ensures not_put_out_twice { ¬ (IsAccount FrontDrop 2 both (by_sender arrived) (for_seats put_out put_out) pulled held) }
    ensures not_stranger_pulled { ¬ (IsAccount FrontDrop 2 second_alone (by_sender arrived) (for_seats [] put_out) pulled held) }
    ensures not_stranger_held { ¬ (IsAccount FrontDrop 2 both (by_sender with_stranger) (for_seats [] put_out) pulled stranger_held) }
    ensures not_over_capacity { ¬ (IsAccount FrontDrop 1 both (by_sender arrived) (for_seats [] put_out) pulled held) }
    ensures not_of_a_queue { ¬ (IsAccount TailDrop 2 both (by_sender arrived) (for_seats [] put_out) pulled held) }
{}

/// What settling worked queues may tell.
pub fn settled_examples()
    ensures is_front_dropped { MayTell (front_dropped 2 pulled) pulled front_tallies }
    ensures is_tail_dropped { MayTell (tail_dropped 1 (p0_0 ∷ [])) (p0_0 ∷ []) tail_tallies }
    ensures not_other_taken { NeverTells (front_dropped 2 pulled) [] front_tallies }
    ensures not_told_at_seat { NeverTells (front_dropped 2 pulled) pulled told_at_seat }
    ensures not_newer_first { NeverTells (front_dropped 2 newer_first) newer_first front_tallies }
    ensures not_front_refused { NeverTells (front_refused 2) pulled with_refused }
    ensures not_below_capacity { NeverTells (front_dropped 5 pulled) pulled front_tallies }
    ensures not_older_left { NeverTells (seated_twice newer_out []) [] (twice_tallies newer_out) }
    ensures not_one_left { NeverTells (seated_twice stranger_out (p0_0 ∷ [])) (p0_0 ∷ []) (twice_tallies []) }
    ensures not_more_than_left { NeverTells (seated_twice stranger_out pulled_both) pulled_both (twice_tallies []) }
{}

/// Why worked queues, of which each has number 3, aren't settled: an allocation failed, or packets were lost though the queue accepted
/// fewer than it may hold. Fault 21 names the queue, how many packets it accepted, and how many it may hold.
pub fn fault_examples()
    ensures is_memory { MayRefuse (none_lost 2) 3 Memory }
    ensures is_refused_early { MayRefuse (tail_dropped 2 (p0_0 ∷ [])) 3 (Unsettled 3 1 2) }
    ensures is_evicted_early { MayRefuse (front_dropped 5 pulled) 3 (Unsettled 3 4 5) }
    ensures not_reached { NeverRefuses (tail_dropped 1 []) 3 (Unsettled 3 1 1) }
    ensures not_none_lost { NeverRefuses (none_lost 2) 3 (Unsettled 3 1 2) }
    ensures not_other_queue { NeverRefuses (tail_dropped 2 (p0_0 ∷ [])) 3 (Unsettled 4 1 2) }
    ensures not_other_count { NeverRefuses (tail_dropped 2 (p0_0 ∷ [])) 3 (Unsettled 3 0 2) }
    ensures not_other_capacity { NeverRefuses (tail_dropped 2 (p0_0 ∷ [])) 3 (Unsettled 3 1 3) }
    ensures not_other_fault { NeverRefuses (tail_dropped 2 (p0_0 ∷ [])) 3 Read }
    ensures not_refused_one_pulled { NeverRefuses (tail_dropped 2 (p0_1 ∷ [])) 3 (Unsettled 3 1 2) }
    ensures not_front_refused { NeverRefuses (front_refused 5) 3 (Unsettled 3 3 5) }
    ensures not_seat_of_a_queue { NeverRefuses seat_of_a_queue 3 (Unsettled 3 1 2) }
{}

//! What the definitions say of worked examples: which logs are runs and which aren't; which packets are given, emitted and held; and what a
//! pull and a drain of a session are. Each function does nothing.

ghost use Rattle.std.specs.Prelude.{◌≡◌, true, false, [], ◌∷◌, map, reverse, take, Some, None};
ghost use Rattle.clk_sched.specs.Tree.{root};
ghost use Rattle.clk_sched.specs.Log.{visits_of, in_pull};
ghost use Rattle.clk_sched.specs.Run.{IsRun};
ghost use Rattle.clk_sched.specs.Laws.Deficit.{IsDeficit};
ghost use Rattle.clk_sched.specs.Results.{Traced, emitted, heads, leaf_packets, up_to, passed_input, asked_pull, origin_in, traced_emitted, traced_heads};
ghost use Rattle.clk_sched.specs.Conservation.{IsConserved};
ghost use Rattle.clk_sched.specs.Bound.{closing_bound};
ghost use Rattle.clk_sched.specs.LaidOut.{IsRefused};
ghost use Rattle.clk_sched.specs.Session.{IsPulledOnce, IsDrained};
ghost use Rattle.clk_sched.specs.Drain.{GivesAll, StopsAt};
ghost use Rattle.clk_packet.specs.declared.fault.Fault.TheVariants.{Memory, TooManyPulls, TooLarge};
ghost use Rattle.clk_sched.specs.Examples.{names, first_pulls};
ghost use Rattle.clk_sched.specs.Examples.Device.{one_queue, one_queue_tree, device_keeps, device_asks_beside, device_asks_twice, moment_falls, moment_falls_later, pull_left_out, unknown_node};
ghost use Rattle.clk_sched.specs.Examples.Priority.{two_queues, visit_left_out, visit_doubled, passed_turned, other_result, two_queues_tree, other_moment, prio_goes_on, prio_stops_early, prio_asks_beside, prio_unasked, result_lost, third_gives, third_gives_tree, third_left_out, p0_0, p1_0};
ghost use Rattle.clk_sched.specs.Examples.RoundRobin.{three_in_turn, moves_every_pull, begins_where_it_gave, three_in_turn_tree, none_keeps_beginning, none_keeps_beginning_tree, order_unwrapped, round_robin_asks_beside};
ghost use Rattle.clk_sched.specs.Examples.Deficit.{two_deficits, held_at_close, nested, head_below, deficit_kept, asks_over_head, visits_twice, passes_above_deficit, two_deficits_tree, held_at_close_tree, nested_tree, head_below_tree, deficit_outlives_none, head_asked_anew, looks_at_none, begins_at_first, passes_other_head, drr_stops_early, drr_goes_on, inner_unasked, own_quanta, own_quanta_tree, first_quantum_for_all, quanta_exchanged, least_last_tree, least_first_tree};
ghost use Rattle.clk_sched.specs.Examples.Stride.{two_to_one, idle_input, idle_pass, pass_left_behind, lowest_index_first, two_to_one_tree, idle_input_tree, idle_pass_tree, none_changes_no_pass, none_changes_no_pass_tree, rounds_down, rounds_down_tree, over_held_head, over_held_head_tree, rounds_up, three_strides, three_strides_tree, least_alone_first, stride_asks_beside, stride_asks_beside_tree};
ghost use Rattle.clk_sched.specs.Examples.Shaper.{burst_of_two, late_burst, below_deficit, fills_without_cap, asks_without_room, burst_of_two_tree, late_burst_tree, below_deficit_tree, none_costs_nothing, none_costs_nothing_tree, two_a_tick, two_a_tick_tree, two_ticks_at_once, two_ticks_at_once_tree, burst_below_rate, burst_below_rate_tree, rate_above};
ghost use Rattle.clk_sched.specs.Examples.Nested.{p0_0_5, p1_0_10, p2_0_5, p2_1, two_levels, two_levels_tree, outer_first, inner_disobeys, made_from_nothing, last_result_lost, last_disobeys, three_heads, three_heads_tree, number_skipped, last_gives, last_of_five, last_of_five_tree, each_holds, each_holds_tree, passed_later, passed_later_tree, side_by_side_tree, uneven_tree, turned_tree};
ghost use Rattle.clk_sched.specs.Examples.Draining.{never_pulled, pulled_twice, pulls_turned, pulled_again, pulled_at_greatest, other_tree_pulled, pulled_without_prio, drained, other_tree_drained, drained_without_prio, drained_at_once, drained_late, drain_pauses, drain_goes_on, drained_past_bound, stopped_at_first, stopped_at_bound, stopped_past_bound, CountFollows};
ghost use Rattle.clk_sched.specs.Examples.Largest.{largest, larger};
ghost use Rattle.clk_sched.specs.Due.{tree_could_emit, IsDue, GetsFromBacklogged};
ghost use Rattle.clk_sched.specs.Examples.Due.{none, first, second, each, just_let_through, beside_a_queue, from_three, never};

/// Which logs of a worked example of the device are runs.
pub fn device_examples()
    ensures is_one_queue { IsRun one_queue_tree one_queue }
    ensures not_device_keeps { ¬ (IsRun one_queue_tree device_keeps) }
    ensures not_device_asks_beside { ¬ (IsRun one_queue_tree device_asks_beside) }
    ensures not_moment_falls { ¬ (IsRun one_queue_tree moment_falls) }
    ensures not_moment_falls_later { ¬ (IsRun one_queue_tree moment_falls_later) }
    ensures not_pull_left_out { ¬ (IsRun one_queue_tree pull_left_out) }
    ensures not_device_asks_twice { ¬ (IsRun one_queue_tree device_asks_twice) }
    ensures not_unknown_node { ¬ (IsRun one_queue_tree unknown_node) }
{}

/// Which logs of worked examples of a PrioSched are runs.
pub fn priority_examples()
    ensures is_two_queues { IsRun two_queues_tree two_queues }
    ensures is_third_gives { IsRun third_gives_tree third_gives }
    ensures not_visit_left_out { ¬ (IsRun two_queues_tree visit_left_out) }
    ensures not_visit_doubled { ¬ (IsRun two_queues_tree visit_doubled) }
    ensures not_passed_turned { ¬ (IsRun two_queues_tree passed_turned) }
    ensures not_other_result { ¬ (IsRun two_queues_tree other_result) }
    ensures not_other_moment { ¬ (IsRun two_queues_tree other_moment) }
    ensures not_prio_goes_on { ¬ (IsRun two_queues_tree prio_goes_on) }
    ensures not_prio_stops_early { ¬ (IsRun two_queues_tree prio_stops_early) }
    ensures not_prio_asks_beside { ¬ (IsRun two_queues_tree prio_asks_beside) }
    ensures not_prio_unasked { ¬ (IsRun two_queues_tree prio_unasked) }
    ensures not_result_lost { ¬ (IsRun two_queues_tree result_lost) }
    ensures not_third_left_out { ¬ (IsRun third_gives_tree third_left_out) }
{}

/// Which logs of worked examples of a RoundRobinSched are runs.
pub fn round_robin_examples()
    ensures is_three_in_turn { IsRun three_in_turn_tree three_in_turn }
    ensures is_none_keeps_beginning { IsRun none_keeps_beginning_tree none_keeps_beginning }
    ensures not_moves_every_pull { ¬ (IsRun three_in_turn_tree moves_every_pull) }
    ensures not_begins_where_it_gave { ¬ (IsRun three_in_turn_tree begins_where_it_gave) }
    ensures not_order_unwrapped { ¬ (IsRun none_keeps_beginning_tree order_unwrapped) }
    ensures not_round_robin_asks_beside { ¬ (IsRun none_keeps_beginning_tree round_robin_asks_beside) }
{}

/// Which logs of worked examples of a DRRSched are runs, and what its deficits are in one.
pub fn deficit_examples()
    ensures is_two_deficits { IsRun two_deficits_tree two_deficits }
    ensures is_held_at_close { IsRun held_at_close_tree held_at_close }
    ensures is_nested { IsRun nested_tree nested }
    ensures is_head_below { IsRun head_below_tree head_below }
    ensures is_own_quanta { IsRun own_quanta_tree own_quanta }
    ensures first_deficit { IsDeficit (500 ∷ 500 ∷ []) [] 0 500 }
    ensures deficit_of_two_arrivals { IsDeficit (500 ∷ 500 ∷ []) (reverse (take 4 (visits_of 1 two_deficits))) 0 1000 }
    ensures deficit_left_over { IsDeficit (500 ∷ 500 ∷ []) (reverse (take 5 (visits_of 1 two_deficits))) 0 400 }
    ensures deficit_lost { IsDeficit (500 ∷ 500 ∷ []) (reverse (take 6 (visits_of 1 two_deficits))) 1 500 }
    ensures not_deficit_kept { ¬ (IsRun nested_tree deficit_kept) }
    ensures not_asks_over_head { ¬ (IsRun held_at_close_tree asks_over_head) }
    ensures not_visits_twice { ¬ (IsRun held_at_close_tree visits_twice) }
    ensures not_passes_above_deficit { ¬ (IsRun held_at_close_tree passes_above_deficit) }
    ensures not_deficit_outlives_none { ¬ (IsRun held_at_close_tree deficit_outlives_none) }
    ensures not_head_asked_anew { ¬ (IsRun held_at_close_tree head_asked_anew) }
    ensures not_looks_at_none { ¬ (IsRun held_at_close_tree looks_at_none) }
    ensures not_passes_other_head { ¬ (IsRun held_at_close_tree passes_other_head) }
    ensures not_drr_stops_early { ¬ (IsRun two_deficits_tree drr_stops_early) }
    ensures not_drr_goes_on { ¬ (IsRun two_deficits_tree drr_goes_on) }
    ensures not_inner_unasked { ¬ (IsRun head_below_tree inner_unasked) }
    ensures not_first_quantum_for_all { ¬ (IsRun own_quanta_tree first_quantum_for_all) }
    ensures not_quanta_exchanged { ¬ (IsRun own_quanta_tree quanta_exchanged) }
    ensures not_begins_at_first { ¬ (IsRun own_quanta_tree begins_at_first) }
{}

/// Which logs of worked examples of a StrideSched are runs.
pub fn stride_examples()
    ensures is_two_to_one { IsRun two_to_one_tree two_to_one }
    ensures is_idle_input { IsRun idle_input_tree idle_input }
    ensures is_idle_pass { IsRun idle_pass_tree idle_pass }
    ensures is_none_changes_no_pass { IsRun none_changes_no_pass_tree none_changes_no_pass }
    ensures is_rounds_down { IsRun rounds_down_tree rounds_down }
    ensures is_over_held_head { IsRun over_held_head_tree over_held_head }
    ensures is_three_strides { IsRun three_strides_tree three_strides }
    ensures not_pass_left_behind { ¬ (IsRun idle_pass_tree pass_left_behind) }
    ensures not_lowest_index_first { ¬ (IsRun two_to_one_tree lowest_index_first) }
    ensures not_least_alone_first { ¬ (IsRun three_strides_tree least_alone_first) }
    ensures not_rounds_up { ¬ (IsRun rounds_down_tree rounds_up) }
    ensures not_stride_asks_beside { ¬ (IsRun stride_asks_beside_tree stride_asks_beside) }
{}

/// Which logs of worked examples of a Shaper are runs.
pub fn shaper_examples()
    ensures is_burst_of_two { IsRun burst_of_two_tree burst_of_two }
    ensures is_late_burst { IsRun late_burst_tree late_burst }
    ensures is_below_deficit { IsRun below_deficit_tree below_deficit }
    ensures is_none_costs_nothing { IsRun none_costs_nothing_tree none_costs_nothing }
    ensures is_two_a_tick { IsRun two_a_tick_tree two_a_tick }
    ensures is_two_ticks_at_once { IsRun two_ticks_at_once_tree two_ticks_at_once }
    ensures is_burst_below_rate { IsRun burst_below_rate_tree burst_below_rate }
    ensures not_fills_without_cap { ¬ (IsRun late_burst_tree fills_without_cap) }
    ensures not_asks_without_room { ¬ (IsRun late_burst_tree asks_without_room) }
    ensures not_rate_above { ¬ (IsRun burst_of_two_tree rate_above) }
{}

/// Whether a pull could emit a packet after worked logs. A Shaper needs room, a head counts as a packet, and what stands beside a Shaper
/// needs no room of it. Which moments are due moments, and which are none.
pub fn due_examples()
    ensures burst_left { tree_could_emit burst_of_two_tree (first_pulls 1 burst_of_two) each 0 ≡ true }
    ensures burst_used { tree_could_emit burst_of_two_tree (first_pulls 2 burst_of_two) each 0 ≡ false }
    ensures next_tick { tree_could_emit burst_of_two_tree (first_pulls 2 burst_of_two) each 1 ≡ true }
    ensures no_packet { tree_could_emit burst_of_two_tree (first_pulls 2 burst_of_two) none 1 ≡ false }
    ensures held_head { tree_could_emit two_deficits_tree (first_pulls 1 two_deficits) none 0 ≡ true }
    ensures no_head_left { tree_could_emit nested_tree nested none 0 ≡ false }
    ensures below_the_shaper { tree_could_emit beside_a_queue just_let_through first 4 ≡ false }
    ensures below_it_a_tick_later { tree_could_emit beside_a_queue just_let_through first 5 ≡ true }
    ensures beside_the_shaper { tree_could_emit beside_a_queue just_let_through second 4 ≡ true }
    ensures is_due { IsDue from_three 0 (Some 3) }
    ensures is_due_at_once { IsDue from_three 5 (Some 5) }
    ensures is_never_due { IsDue never 0 None }
    ensures not_due_early { ¬ (IsDue from_three 0 (Some 2)) }
    ensures not_due_late { ¬ (IsDue from_three 0 (Some 4)) }
    ensures not_due_never { ¬ (IsDue from_three 0 None) }
    ensures not_due_in_the_past { ¬ (IsDue from_three 5 (Some 3)) }
    ensures not_due_at_all { ¬ (IsDue never 0 (Some 0)) }
    ensures gets_from_backlogged { GetsFromBacklogged burst_of_two_tree first (first_pulls 1 burst_of_two) }
    ensures not_gets_from_empty { ¬ (GetsFromBacklogged burst_of_two_tree none (first_pulls 1 burst_of_two)) }
{}

/// Which logs of worked examples of schedulers below schedulers are runs.
pub fn nested_examples()
    ensures is_two_levels { IsRun two_levels_tree two_levels }
    ensures is_three_heads { IsRun three_heads_tree three_heads }
    ensures is_last_gives { IsRun three_heads_tree last_gives }
    ensures is_last_of_five { IsRun last_of_five_tree last_of_five }
    ensures is_each_holds { IsRun each_holds_tree each_holds }
    ensures is_passed_later { IsRun passed_later_tree passed_later }
    ensures not_outer_first { ¬ (IsRun two_levels_tree outer_first) }
    ensures not_inner_disobeys { ¬ (IsRun two_levels_tree inner_disobeys) }
    ensures not_made_from_nothing { ¬ (IsRun two_levels_tree made_from_nothing) }
    ensures not_number_skipped { ¬ (IsRun three_heads_tree number_skipped) }
    ensures not_last_result_lost { ¬ (IsRun three_heads_tree last_result_lost) }
    ensures not_last_disobeys { ¬ (IsRun each_holds_tree last_disobeys) }
{}

/// Which packets were given, emitted and held in worked examples, and where they came from. That these lose nothing, and an altered log
/// does. How large their closing bounds are.
pub fn result_examples()
    ensures emitted { names (emitted two_deficits) ≡ (1, 0) ∷ (1, 1) ∷ (0, 0) ∷ (0, 1) ∷ [] }
    ensures given { names (leaf_packets two_deficits_tree 0 two_deficits) ≡ (0, 0) ∷ (0, 1) ∷ [] }
    ensures held_first { names (heads two_deficits_tree (first_pulls 1 two_deficits)) ≡ (0, 0) ∷ [] }
    ensures held_inside { names (heads nested_tree (first_pulls 2 nested)) ≡ (0, 0) ∷ [] }
    ensures held_outside { names (heads nested_tree (first_pulls 3 nested)) ≡ (0, 0) ∷ [] }
    ensures none_held { heads nested_tree nested ≡ [] }
    ensures held_of_first { map (λ (t : Traced). t.1) (traced_heads head_below_tree head_below) ≡ Some 0 ∷ [] }
    ensures given_by_first { names (leaf_packets head_below_tree 0 head_below) ≡ (0, 0) ∷ [] }
    ensures none_given { leaf_packets head_below_tree 1 head_below ≡ [] }
    ensures held_by_node { names (heads three_heads_tree three_heads) ≡ (0, 0) ∷ (1, 0) ∷ (2, 0) ∷ [] }
    ensures held_of_second { map (λ (t : Traced). t.1) (traced_heads passed_later_tree (first_pulls 2 passed_later)) ≡ Some 1 ∷ [] }
    ensures held_of_later { map (λ (t : Traced). t.1) (traced_heads passed_later_tree (first_pulls 4 passed_later)) ≡ Some 0 ∷ [] }
    ensures held_from_above { names (heads each_holds_tree each_holds) ≡ (1, 0) ∷ (0, 0) ∷ (2, 0) ∷ [] }
    ensures emitted_with_origins { traced_emitted passed_later_tree passed_later ≡ (p2_0_5, Some 2) ∷ (p2_1, Some 2) ∷ (p1_0_10, Some 1) ∷ (p0_0_5, Some 0) ∷ [] }
    ensures emitted_of_last { traced_emitted three_heads_tree last_gives ≡ (p2_0_5, Some 2) ∷ [] }
    ensures held_with_origins { map (λ (t : Traced). t.1) (traced_heads three_heads_tree three_heads) ≡ Some 0 ∷ Some 1 ∷ Some 2 ∷ [] }
    ensures passed_second { passed_input (in_pull 0 (visits_of 1 two_deficits)) ≡ Some 1 }
    ensures passed_none { passed_input (in_pull 3 (visits_of 1 two_deficits)) ≡ None }
    ensures asked_last { asked_pull 0 (reverse (visits_of 1 two_deficits)) ≡ Some 3 }
    ensures asked_before { asked_pull 0 (up_to 2 (reverse (visits_of 1 two_deficits))) ≡ Some 0 }
    ensures never_asked { asked_pull 2 (reverse (visits_of 1 two_deficits)) ≡ None }
    ensures origin_of_head { origin_in two_deficits 1 (root two_deficits_tree) 0 2 ≡ Some 0 }
    ensures no_origin_of_none { origin_in two_deficits 1 (root two_deficits_tree) 0 3 ≡ None }
    ensures no_origin_beside { origin_in two_deficits 1 (root two_deficits_tree) 1 0 ≡ None }
    ensures conserved { IsConserved two_deficits_tree two_deficits 0 }
    ensures conserved_first { IsConserved two_deficits_tree (first_pulls 1 two_deficits) 0 }
    ensures conserved_inside { IsConserved nested_tree (first_pulls 2 nested) 0 }
    ensures conserved_outside { IsConserved nested_tree (first_pulls 3 nested) 0 }
    ensures conserved_below { IsConserved head_below_tree head_below 0 }
    ensures conserved_while_held { IsConserved passed_later_tree (first_pulls 2 passed_later) 1 }
    ensures conserved_by_first { IsConserved passed_later_tree passed_later 0 }
    ensures conserved_by_second { IsConserved passed_later_tree passed_later 1 }
    ensures conserved_by_last { IsConserved three_heads_tree last_gives 2 }
    ensures conserved_of_five { IsConserved last_of_five_tree last_of_five 2 }
    ensures conserved_and_held { IsConserved own_quanta_tree (first_pulls 2 own_quanta) 0 }
    ensures not_conserved { ¬ (IsConserved two_queues_tree result_lost 1) }
    ensures conserved_held_inner { IsConserved each_holds_tree each_holds 0 }
    ensures conserved_held_outer { IsConserved each_holds_tree each_holds 1 }
    ensures conserved_shaped { IsConserved below_deficit_tree below_deficit 0 }
    ensures bound_deficit { closing_bound held_at_close_tree 1 ≡ 266 }
    ensures bound_nested { closing_bound nested_tree 1 ≡ 660 }
    ensures bound_prio { closing_bound two_queues_tree 5 ≡ 10 }
    ensures bound_side_by_side { closing_bound side_by_side_tree 1 ≡ 660 }
    ensures bound_uneven { closing_bound uneven_tree 1 ≡ 880 }
    ensures bound_turned { closing_bound turned_tree 1 ≡ 880 }
    ensures bound_least_last { closing_bound least_last_tree 1 ≡ 131072 }
    ensures bound_least_first { closing_bound least_first_tree 1 ≡ 131072 }
{}

/// Which changes of a worked session are one pull of it, and which aren't.
pub fn pull_examples()
    ensures is_pulled_again { IsPulledOnce pulled_twice pulled_again 6 (Some p1_0) }
    ensures is_pulled_at_greatest { IsPulledOnce pulled_twice pulled_at_greatest 2 (Some p1_0) }
    ensures not_other_tree { ¬ (IsPulledOnce pulled_twice other_tree_pulled 6 (Some p1_0)) }
    ensures not_pulls_turned { ¬ (IsPulledOnce pulls_turned pulled_again 6 (Some p1_0)) }
    ensures not_unpulled { ¬ (IsPulledOnce never_pulled never_pulled 0 None) }
    ensures not_two_pulls { ¬ (IsPulledOnce pulled_twice drained 6 (Some p1_0)) }
    ensures not_without_prio { ¬ (IsPulledOnce pulled_twice pulled_without_prio 6 (Some p1_0)) }
    ensures not_too_early { ¬ (IsPulledOnce pulled_twice pulled_again 7 (Some p1_0)) }
    ensures not_too_late { ¬ (IsPulledOnce pulled_twice pulled_again 2 (Some p1_0)) }
    ensures not_result_lost { ¬ (IsPulledOnce pulled_twice pulled_again 6 None) }
    ensures not_other_result { ¬ (IsPulledOnce pulled_twice pulled_again 6 (Some p0_0)) }
{}

/// Which changes of a worked session are a drain after moment 5, by how many pulls it made and how many packets it emitted, and which
/// aren't.
pub fn drain_examples()
    ensures is_drained { IsDrained pulled_twice drained 5 2 1 }
    ensures is_stopped { IsDrained pulled_twice stopped_at_first 5 1 0 }
    ensures is_not_begun { IsDrained pulled_twice pulled_twice 5 0 0 }
    ensures not_other_tree { ¬ (IsDrained pulled_twice other_tree_drained 5 2 1) }
    ensures not_pulls_turned { ¬ (IsDrained pulls_turned drained 5 2 1) }
    ensures not_pulls_joined { ¬ (IsDrained pulled_twice drained 5 1 1) }
    ensures not_without_prio { ¬ (IsDrained pulled_twice drained_without_prio 5 2 1) }
    ensures not_at_once { ¬ (IsDrained pulled_twice drained_at_once 5 2 1) }
    ensures not_late { ¬ (IsDrained pulled_twice drained_late 5 2 1) }
    ensures not_pauses { ¬ (IsDrained pulled_twice drain_pauses 5 2 1) }
    ensures not_none_given { ¬ (IsDrained pulled_twice drained 5 2 0) }
    ensures not_both_given { ¬ (IsDrained pulled_twice drained 5 2 2) }
    ensures made_follow { CountFollows }
{}

/// Which drains of a worked session emitted all of so many packets that were left, and which didn't.
pub fn full_drain_examples()
    ensures is_drained { GivesAll pulled_twice drained 5 2 1 }
    ensures is_pulled_again { GivesAll pulled_twice pulled_again 5 1 1 }
    ensures is_none_left { GivesAll pulled_twice pulled_twice 5 0 0 }
    ensures not_past_bound { ¬ (GivesAll pulled_twice drained_past_bound 5 3 1) }
    ensures not_pauses { ¬ (GivesAll pulled_twice drain_pauses 5 2 1) }
    ensures not_one_left { ¬ (GivesAll pulled_twice drained 5 2 2) }
    ensures not_goes_on { ¬ (GivesAll pulled_twice drain_goes_on 5 2 1) }
{}

/// Why drains of a worked session stopped before they had emitted all that was left, and which didn't stop so.
pub fn short_drain_examples()
    ensures is_memory { StopsAt pulled_twice stopped_at_first 5 1 Memory }
    ensures is_memory_at_bound { StopsAt pulled_twice stopped_at_bound 5 1 Memory }
    ensures is_bound { StopsAt pulled_twice stopped_at_bound 5 1 (TooManyPulls 2) }
    ensures is_memory_with_one_left { StopsAt pulled_twice drained 5 2 Memory }
    ensures not_memory_past_bound { ¬ (StopsAt pulled_twice stopped_past_bound 5 1 Memory) }
    ensures not_memory_with_none_left { ¬ (StopsAt pulled_twice drained 5 1 Memory) }
    ensures not_memory_in_pauses { ¬ (StopsAt pulled_twice drain_pauses 5 2 Memory) }
    ensures not_below_bound { ¬ (StopsAt pulled_twice stopped_at_first 5 1 (TooManyPulls 1)) }
    ensures not_bound_with_none_left { ¬ (StopsAt pulled_twice drained 5 1 (TooManyPulls 2)) }
    ensures not_too_large { ¬ (StopsAt pulled_twice stopped_at_first 5 1 TooLarge) }
{}

/// How a session of the largest tree may be refused, and how that of a tree with one queue more is.
pub fn refusal_examples()
    ensures is_memory { IsRefused largest Memory }
    ensures is_too_large { IsRefused larger TooLarge }
    ensures not_too_large { ¬ (IsRefused largest TooLarge) }
    ensures not_memory { ¬ (IsRefused larger Memory) }
    ensures not_too_many_pulls { ¬ (IsRefused largest (TooManyPulls 0)) }
    ensures not_too_many_pulls_of_larger { ¬ (IsRefused larger (TooManyPulls 0)) }
{}

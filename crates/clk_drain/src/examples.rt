//! What the definitions of a settled outcome, of what a run returns and of why it fails say of worked examples: which examples meet each
//! definition, and which don't. The functions do nothing.

ghost use Rattle.std.specs.Prelude.{[], ◌∷◌};
ghost use Rattle.clk_drain.specs.Outcome.{IsSettledOutcome};
ghost use Rattle.clk_drain.specs.Examples.{p0_1, sent, device_a, device_b, tallies, emitted_twice, given_twice, refused_emitted, emitted_none, asks_beside, moment_falls, below_capacity, head_held, other_held, other_emitted, packet_lost, other_evicted, packet_forgotten, tally_missing, tallies_turned, tally_twice, sender_unknown, never_sent, with_never_sent, queue_evicts, with_first_evicted, front_drop_refuses, with_last_refused, both_out, with_both, swapped_by_device, swapped_by_queue, senders_swapped, with_none_evicted, device_ab, other_gave, exchanged};
ghost use Rattle.clk_packet.specs.declared.fault.Fault.TheVariants.{Memory, TooManyPulls, Unsettled};
ghost use Rattle.clk_sched.specs.Tree.{queue};
ghost use Rattle.clk_sched.specs.Examples.Priority.{p0_0};
ghost use Rattle.clk_drain.specs.DrainExamples.{MayDrainTo, NeverDrainsTo};
ghost use Rattle.clk_drain.specs.LostExamples.{MayName, NeverNames, refusing, evicting, none_lost, evicting_another};
ghost use Rattle.clk_drain.specs.Moments.{HasMoments};
ghost use Rattle.clk_drain.specs.RunExamples.{plan, wider_plan, evicting_plan, scheduled_plan, MayComeTo, NeverComesTo, log_a, log_b, only_closing, pull_too_many, step_skipped, closing_late, closing_pauses, closing_goes_on, closing_waits, run_lists, device_missing, device_too_many, log_missing, emitted_missing, logs_swapped, devices_swapped, in_other_list, tally_left_out, with_pull_too_many, with_closing_late, with_closing_goes_on, MayFailWith, NeverFailsWith};

/// Which outcomes of worked examples are settled.
pub fn outcome_examples()
    ensures is_settled { IsSettledOutcome sent (device_a ∷ device_b ∷ []) tallies }
    ensures is_both_out { IsSettledOutcome sent (both_out ∷ device_b ∷ []) with_both }
    ensures is_one_device { IsSettledOutcome sent (device_ab ∷ []) tallies }
    ensures not_emitted_twice { ¬ (IsSettledOutcome sent (emitted_twice ∷ device_b ∷ []) tallies) }
    ensures not_given_twice { ¬ (IsSettledOutcome sent (given_twice ∷ device_b ∷ []) tallies) }
    ensures not_refused_emitted { ¬ (IsSettledOutcome sent (refused_emitted ∷ device_b ∷ []) tallies) }
    ensures not_emitted_none { ¬ (IsSettledOutcome sent (emitted_none ∷ device_b ∷ []) tallies) }
    ensures not_asks_beside { ¬ (IsSettledOutcome sent (asks_beside ∷ device_b ∷ []) tallies) }
    ensures not_moment_falls { ¬ (IsSettledOutcome sent (moment_falls ∷ device_b ∷ []) tallies) }
    ensures not_below_capacity { ¬ (IsSettledOutcome sent (below_capacity ∷ device_b ∷ []) tallies) }
    ensures not_head_held { ¬ (IsSettledOutcome sent (head_held ∷ device_b ∷ []) tallies) }
    ensures not_other_held { ¬ (IsSettledOutcome sent (other_held ∷ device_b ∷ []) tallies) }
    ensures not_other_emitted { ¬ (IsSettledOutcome sent (device_a ∷ other_emitted ∷ []) tallies) }
    ensures not_packet_lost { ¬ (IsSettledOutcome sent (device_a ∷ packet_lost ∷ []) tallies) }
    ensures not_other_evicted { ¬ (IsSettledOutcome sent (device_a ∷ device_b ∷ []) other_evicted) }
    ensures not_packet_forgotten { ¬ (IsSettledOutcome sent (device_a ∷ device_b ∷ []) packet_forgotten) }
    ensures not_tally_missing { ¬ (IsSettledOutcome sent (device_a ∷ device_b ∷ []) tally_missing) }
    ensures not_tallies_turned { ¬ (IsSettledOutcome sent (device_a ∷ device_b ∷ []) tallies_turned) }
    ensures not_tally_twice { ¬ (IsSettledOutcome sent (device_a ∷ device_b ∷ []) tally_twice) }
    ensures not_sender_unknown { ¬ (IsSettledOutcome sent (device_a ∷ device_b ∷ []) sender_unknown) }
    ensures not_never_sent { ¬ (IsSettledOutcome sent (never_sent ∷ device_b ∷ []) with_never_sent) }
    ensures not_queue_evicts { ¬ (IsSettledOutcome sent (queue_evicts ∷ device_b ∷ []) with_first_evicted) }
    ensures not_front_drop_refuses { ¬ (IsSettledOutcome sent (device_a ∷ front_drop_refuses ∷ []) with_last_refused) }
    ensures not_swapped_by_device { ¬ (IsSettledOutcome sent (swapped_by_device ∷ device_b ∷ []) with_both) }
    ensures not_swapped_by_queue { ¬ (IsSettledOutcome sent (swapped_by_queue ∷ device_b ∷ []) with_both) }
    ensures not_senders_swapped { ¬ (IsSettledOutcome sent (device_a ∷ senders_swapped ∷ []) with_none_evicted) }
    ensures not_other_gave { ¬ (IsSettledOutcome sent (other_gave ∷ []) tallies) }
    ensures not_exchanged { ¬ (IsSettledOutcome sent (exchanged ∷ []) tallies) }
{}

/// What a drain of a queue may return that accepted the first packet of its sender and refused the second: these outcomes, and not the
/// other way round.
pub fn drain_examples()
    ensures is_drained { MayDrainTo p0_0 p0_1 }
    ensures not_other_accepted { NeverDrainsTo p0_1 p0_0 }
{}

/// Which logs of a device with one queue have the moments of a run with a pull each three ticks and two at most.
pub fn moment_examples()
    ensures is_two_steps { HasMoments 3 2 (queue 0) log_a }
    ensures is_step_and_closing { HasMoments 3 2 (queue 0) log_b }
    ensures is_only_closing { HasMoments 3 2 (queue 0) only_closing }
    ensures not_pull_too_many { ¬ (HasMoments 3 2 (queue 0) pull_too_many) }
    ensures not_step_skipped { ¬ (HasMoments 3 2 (queue 0) step_skipped) }
    ensures not_closing_late { ¬ (HasMoments 3 2 (queue 0) closing_late) }
    ensures not_closing_pauses { ¬ (HasMoments 3 2 (queue 0) closing_pauses) }
    ensures not_closing_goes_on { ¬ (HasMoments 3 2 (queue 0) closing_goes_on) }
    ensures not_closing_waits { ¬ (HasMoments 3 2 (queue 0) closing_waits) }
{}

/// Which of worked queues fault 21 may name, with how many packets it accepted and its capacity.
pub fn lost_examples()
    ensures is_alone { MayName (refusing 3 ∷ []) (Unsettled 0 1 3) }
    ensures is_behind_a_full_one { MayName (refusing 1 ∷ evicting 3 ∷ []) (Unsettled 1 2 3) }
    ensures not_behind_another { NeverNames (refusing 3 ∷ evicting 3 ∷ []) (Unsettled 1 2 3) }
    ensures not_full { NeverNames (refusing 1 ∷ []) (Unsettled 0 1 1) }
    ensures not_none_lost { NeverNames (none_lost ∷ []) (Unsettled 0 2 3) }
    ensures not_evicting_another { NeverNames (evicting_another ∷ []) (Unsettled 1 2 3) }
    ensures not_other_leaf { NeverNames (refusing 3 ∷ []) (Unsettled 1 1 3) }
    ensures not_other_count { NeverNames (refusing 3 ∷ []) (Unsettled 0 0 3) }
    ensures not_other_capacity { NeverNames (refusing 3 ∷ []) (Unsettled 0 1 4) }
{}

/// Which lists a run of a worked plan with two devices may return.
pub fn run_examples()
    ensures is_run { MayComeTo plan run_lists }
    ensures not_of_wider_plan { NeverComesTo wider_plan run_lists }
    ensures not_of_scheduled_plan { NeverComesTo scheduled_plan run_lists }
    ensures not_device_missing { NeverComesTo plan device_missing }
    ensures not_device_too_many { NeverComesTo plan device_too_many }
    ensures not_log_missing { NeverComesTo plan log_missing }
    ensures not_emitted_missing { NeverComesTo plan emitted_missing }
    ensures not_logs_swapped { NeverComesTo plan logs_swapped }
    ensures not_devices_swapped { NeverComesTo plan devices_swapped }
    ensures not_in_other_list { NeverComesTo plan in_other_list }
    ensures not_tally_missing { NeverComesTo plan tally_left_out }
    ensures not_pull_too_many { NeverComesTo plan with_pull_too_many }
    ensures not_closing_late { NeverComesTo plan with_closing_late }
    ensures not_closing_goes_on { NeverComesTo plan with_closing_goes_on }
{}

/// With which faults a run of worked plans may fail. The first Queue of `plan` holds one packet, and that of `wider_plan` three, as does
/// the FrontDropQueue of `evicting_plan`. Two packets are sent to it.
pub fn fault_examples()
    ensures is_memory { MayFailWith plan Memory }
    ensures is_refused_early { MayFailWith wider_plan (Unsettled 0 1 3) }
    ensures is_evicted_early { MayFailWith evicting_plan (Unsettled 0 2 3) }
    ensures not_full { NeverFailsWith plan (Unsettled 0 1 1) }
    ensures not_none_lost { NeverFailsWith wider_plan (Unsettled 0 2 3) }
    ensures not_refused_by_evicting { NeverFailsWith evicting_plan (Unsettled 0 1 3) }
    ensures not_none_accepted { NeverFailsWith evicting_plan (Unsettled 0 0 3) }
    ensures not_other_leaf { NeverFailsWith wider_plan (Unsettled 9 1 3) }
    ensures not_other_capacity { NeverFailsWith wider_plan (Unsettled 0 1 4) }
    ensures not_stopped_short { NeverFailsWith plan (TooManyPulls 1) }
{}

//! What the definitions of tokens, takes, pulls and rounds say of worked examples. The functions do nothing.

ghost use Rattle.std.specs.Prelude.{[], None, slice_get};
ghost use Rattle.clk_sched.specs.Examples.Priority.{p0_0, p1_0};
ghost use Rattle.clk_router.specs.SettledExamples.{two_devices, p0_1, p1_1, p7_0};
ghost use Rattle.clk_live.specs.declared.taking.OfferOutcome.TheVariants.{Accepted, Refused, Evicted};
ghost use Rattle.clk_live.specs.State.{IsTokenOf};
ghost use Rattle.clk_live.specs.Taking.{IsTaken, IsQueueFull, AreSharesOr, AreSharesBefore};
ghost use Rattle.clk_live.specs.Pulling.{IsPulledLive};
ghost use Rattle.clk_live.specs.Examples.{two_and_one, nothing_taken, one_taken, one_kept, told, before_eviction, after_eviction, one_emitted, emitted_with, one_held, two_held, one_left, one_of_each, two_of_first, filled, with_room};

/// A token came with the packet whose number is its place, and with no other. It came not with the next packet, not with another sender's,
/// not with one of an unknown sender, and not with one that was not taken.
pub fn token_examples()
    ensures first { IsTokenOf two_devices two_and_one p0_0 7 }
    ensures second { IsTokenOf two_devices two_and_one p0_1 8 }
    ensures other_sender { IsTokenOf two_devices two_and_one p1_0 9 }
    ensures not_of_next { ¬ (IsTokenOf two_devices two_and_one p0_0 8) }
    ensures not_of_other_sender { ¬ (IsTokenOf two_devices two_and_one p1_0 7) }
    ensures not_of_stranger { ¬ (IsTokenOf two_devices two_and_one p7_0 7) }
    ensures not_untaken { ¬ (IsTokenOf two_devices two_and_one p1_1 9) }
{}

/// A take returns its sender's next packet, with the packet's own token and outcome. It does not return another token, number or outcome, a
/// packet of another inlet, or one that was not offered. An evicted packet comes with its own token.
pub fn taken_examples()
    ensures taken { IsTaken 0 nothing_taken (told p0_0 7 Accepted) one_taken }
    ensures evicted { IsTaken 1 before_eviction (told p1_1 6 (Evicted p1_0 5)) after_eviction }
    ensures not_other_token { ¬ (IsTaken 0 nothing_taken (told p0_0 8 Accepted) one_taken) }
    ensures not_other_number { ¬ (IsTaken 0 nothing_taken (told p0_1 7 Accepted) one_taken) }
    ensures not_told_refused { ¬ (IsTaken 0 nothing_taken (told p0_0 7 Refused) one_taken) }
    ensures not_other_inlet { ¬ (IsTaken 1 nothing_taken (told p0_0 7 Accepted) one_taken) }
    ensures not_kept { ¬ (IsTaken 0 nothing_taken (told p0_0 7 Accepted) one_kept) }
    ensures not_evicted_with_own { ¬ (IsTaken 1 before_eviction (told p1_1 6 (Evicted p1_0 6)) after_eviction) }
{}

/// A pull returns the packet that the device emitted, with the packet's own token. It does not return another token, `None`, or a packet
/// that was not emitted.
pub fn pulled_examples()
    ensures emitted { IsPulledLive 0 0 one_taken (emitted_with 7) one_emitted }
    ensures not_other_token { ¬ (IsPulledLive 0 0 one_taken (emitted_with 8) one_emitted) }
    ensures not_nothing { ¬ (IsPulledLive 0 0 one_taken None one_emitted) }
    ensures not_without_pull { ¬ (IsPulledLive 0 0 one_taken (emitted_with 7) one_taken) }
{}

/// A sender's queue is full if it holds as many packets as it may. It is not full with fewer, after one was emitted, or if another sender's
/// queue is full.
pub fn full_examples()
    ensures full { IsQueueFull two_held 0 }
    ensures not_with_one { ¬ (IsQueueFull one_held 0) }
    ensures not_after_pull { ¬ (IsQueueFull one_left 0) }
    ensures not_of_other_sender { ¬ (IsQueueFull two_held 1) }
{}

/// In a round each sender gives its share, or its queue is full. It does not give fewer packets while its queue has room, and never more. A
/// round that ends at a sender took the shares of all before it, from the sender on at which it started.
pub fn share_examples()
    ensures shares { AreSharesOr (λ place. ⊥) two_devices 1 one_of_each }
    ensures or_full { AreSharesOr (IsQueueFull filled) two_devices 2 two_of_first }
    ensures not_fewer { ¬ (AreSharesOr (λ place. ⊥) two_devices 2 two_of_first) }
    ensures not_more { ¬ (AreSharesOr (λ place. ⊥) two_devices 1 two_of_first) }
    ensures not_with_room { ¬ (AreSharesOr (IsQueueFull with_room) two_devices 2 two_of_first) }
    ensures in_turn { AreSharesBefore (λ place. ⊥) two_devices 0 2 2 (slice_get two_of_first 2) two_of_first }
    ensures not_skipped { ¬ (AreSharesBefore (λ place. ⊥) two_devices 1 2 2 (slice_get two_of_first 0) two_of_first) }
    ensures not_cut_short { ¬ (AreSharesBefore (λ place. ⊥) two_devices 0 2 3 (slice_get two_of_first 2) two_of_first) }
{}

//! What the definitions of calls say of worked examples. The functions do nothing.

ghost use Rattle.std.specs.Prelude.{◌≡◌, ℕ, [], map, replicate, Some, None};
ghost use Rattle.clk_packet.specs.declared.fault.Fault.TheVariants.{NoDevice};
ghost use Rattle.clk_inlet.specs.Halves.{next_number};
ghost use Rattle.clk_inlet.specs.declared.inlet.Inlet.{Inlet};
ghost use Rattle.clickpull_c.specs.Answers.{RefusesOffer};
ghost use Rattle.clickpull_c.specs.Calls.{IsDrained, IsPulledOften};
ghost use Rattle.clickpull_c.specs.Explains.{TellsFault, opening_fault, opening_faults};
ghost use Rattle.clickpull_c.specs.Recording.{AddsLines, AddsSends, FindsRoom};
ghost use Rattle.clickpull_c.specs.Values.{fault_in_c};
ghost use Rattle.clickpull_c.specs.Inlets.{Accepts, AcceptsMany, EndsBatch, RefusesPacket};
ghost use Rattle.clickpull_c.specs.Examples.{fresh, fresh_pulled, one_waits, one_out, one_out_pulled, two_wait, first_out, first_out_pulled, packet_before, packet_filled, departure_before, departure_filled, one_item, too_long, a_line, line_room, line_added, a_packet, no_length};
ghost use Rattle.clickpull_c.specs.declared.statuses.TheConstants.{OK, NONE, AT_END, BAD_LENGTH, UNKNOWN_SENDER, FULL};

/// A drain makes no pull if nothing is left, and none once its one place is filled, though it may make five pulls. Pulls at one moment end
/// once their one place is filled.
pub fn call_examples()
    ensures drains_nothing { IsDrained fresh fresh 0 5 departure_before departure_before 0 OK }
    ensures not_pulled_with_none_left { ¬ (IsDrained fresh fresh_pulled 0 5 departure_before departure_before 0 OK) }
    ensures drains_one { IsDrained two_wait first_out 0 5 departure_before departure_filled 1 NONE }
    ensures not_pulled_with_no_place { ¬ (IsDrained two_wait first_out_pulled 0 5 departure_before departure_filled 1 NONE) }
    ensures pulls_one { IsPulledOften one_waits one_out 0 1 packet_before packet_filled 1 }
    ensures not_pulled_once_more { ¬ (IsPulledOften one_waits one_out_pulled 0 1 packet_before packet_filled 1) }
{}

/// Which status an offer is refused with: its length is tested first, and neither it nor the sender's number is cut to 16 bits.
pub fn refusal_examples()
    ensures too_long { RefusesOffer fresh 0 65536 BAD_LENGTH }
    ensures length_first { RefusesOffer fresh 1 0 BAD_LENGTH }
    ensures not_sender_first { ¬ (RefusesOffer fresh 1 0 UNKNOWN_SENDER) }
    ensures not_longest { ¬ (RefusesOffer fresh 0 65535 BAD_LENGTH) }
    ensures not_shortest { ¬ (RefusesOffer fresh 0 1 BAD_LENGTH) }
    ensures unknown { RefusesOffer fresh 65536 1 UNKNOWN_SENDER }
    ensures not_known { ¬ (RefusesOffer fresh 0 1 UNKNOWN_SENDER) }
{}

/// What an inlet accepts and refuses. It tests the length first, it hasn't accepted what wasn't pushed, and a batch ends with its last item
/// or with one that is refused.
pub fn inlet_examples()
    ensures too_long { (i : Inlet) → RefusesPacket i 65536 BAD_LENGTH }
    ensures not_longest { (i : Inlet) → ¬ (RefusesPacket i 65535 BAD_LENGTH) }
    ensures not_shortest { (i : Inlet) → ¬ (RefusesPacket i 1 BAD_LENGTH) }
    ensures length_first { (i : Inlet) → ¬ (RefusesPacket i 0 FULL) }
    ensures not_pushed { (i : Inlet) → ¬ (Accepts i i 100 7 (next_number i)) }
    ensures none_pushed { (i : Inlet) → AcceptsMany i i one_item 0 }
    ensures not_one_pushed { (i : Inlet) → ¬ (AcceptsMany i i one_item 1) }
    ensures ended { (i : Inlet) → EndsBatch i one_item 1 OK }
    ensures not_ended_early { (i : Inlet) → ¬ (EndsBatch i one_item 0 OK) }
    ensures ended_by_length { (i : Inlet) → EndsBatch i too_long 0 BAD_LENGTH }
    ensures not_ended_by_good_length { (i : Inlet) → ¬ (EndsBatch i one_item 0 BAD_LENGTH) }
{}

/// A line is added to a record only if it stands there and is counted, is left out only if it doesn't fit or may not follow, and whether it
/// may is tested first. Before that, a packet without a length is told. With 25 bytes for it there is room.
pub fn record_examples()
    ensures adds { AddsLines a_line 1 None line_room line_added 0 9 0 1 OK }
    ensures not_unwritten { ¬ (AddsLines a_line 1 None line_room line_room 0 9 0 1 OK) }
    ensures not_uncounted { ¬ (AddsLines a_line 1 None line_room line_added 0 9 0 0 OK) }
    ensures not_unused { ¬ (AddsLines a_line 1 None line_room line_added 0 0 0 1 OK) }
    ensures full { AddsLines a_line 1 None line_room line_room 4 4 0 0 FULL }
    ensures not_full { ¬ (AddsLines a_line 1 None line_room line_room 3 3 0 0 FULL) }
    ensures late { AddsLines a_line 1 (Some 1099511627776) line_room line_room 0 0 0 0 AT_END }
    ensures not_late { ¬ (AddsLines a_line 1 (Some 1099511627775) line_room line_room 0 0 0 0 AT_END) }
    ensures long { AddsLines a_line 1 None line_room line_room 0 0 1000000 1000000 AT_END }
    ensures not_long { ¬ (AddsLines a_line 1 None line_room line_room 0 0 999999 999999 AT_END) }
    ensures full_below { FindsRoom 1 (replicate 24 0) 0 FULL }
    ensures not_full_at { ¬ (FindsRoom 1 (replicate 25 0) 0 FULL) }
    ensures not_full_first { ¬ (AddsLines a_line 1 (Some 1099511627776) line_room line_room 4 4 0 0 FULL) }
    ensures no_length { AddsSends no_length line_room line_room 0 0 1000000 1000000 BAD_LENGTH }
    ensures not_sent { ¬ (AddsSends no_length line_room line_added 0 9 0 1 OK) }
    ensures not_at_end_first { ¬ (AddsSends no_length line_room line_room 0 0 1000000 1000000 AT_END) }
    ensures not_without_length { ¬ (AddsSends a_packet line_room line_room 0 0 0 0 BAD_LENGTH) }
{}

/// Each fault that opening a router can have is known by what C sees of it, and a number that no opening has is none. An explanation has
/// some bytes.
pub fn explanation_examples()
    ensures known { (offset : ℕ) → map (λ fault. opening_fault (fault_in_c fault)) (opening_faults offset) ≡ map Some (opening_faults offset) }
    ensures unknown { (offset : ℕ) → opening_fault (record { number = 12; offset = offset }) ≡ None }
    ensures not_empty { ¬ (TellsFault [] (Some NoDevice) [] [] 0 OK) }
{}

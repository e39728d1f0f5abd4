//! What the definitions of scripts say. Each law is a function that does nothing and whose contract is the law.

ghost use Rattle.std.specs.Prelude.{◌≡◌, ℕ, ◌≤◌, ◌<◌, ◌^◌, List, [], ◌∷◌, ◌++◌, length, map, None, Some, codes, true};
ghost use Rattle.std.specs.List.{AllByRecursion};
ghost use Rattle.clk_packet.specs.Bytes.{Takes, AppendsFront};
ghost use Rattle.clk_packet.specs.declared.fault.Fault.TheVariants.{Memory, TooLarge, Write};
ghost use Rattle.clk_packet.specs.Examples.{text, first_byte, second_byte, success};
ghost use Rattle.clk_sched.specs.declared.visit.Visit.{Visit};
ghost use Rattle.clk_sched.specs.Tree.{Tree};
ghost use Rattle.clk_tree.specs.Shares.{AreTreesOf};
ghost use Rattle.clk_packet.specs.Written.{WroteWhat};
ghost use Rattle.clk_router.specs.Events.{Setup, Event, pulled, CanHappen, Closes, plan_setup};
ghost use Rattle.clk_script.specs.declared.script.Command.{Command};
ghost use Rattle.clk_script.specs.declared.limits.TheConstants.{MAX_LINES, MAX_MOMENT};
ghost use Rattle.clk_script.specs.Meaning.{CloseFirst, IsMeaning, MeansOver, MeansOverWith, Explains, ExplainsPlan, names_of, command_of};
ghost use Rattle.clk_router.specs.Setups.{IsWired, IsApart};
ghost use Rattle.clk_script.specs.OneMeaning.{HasAtMostOneMeaning, HasAtMostOneLog, DevicesAreApart};
ghost use Rattle.clk_script.specs.inside.Replay.{DevicesGoAlike};
ghost use Rattle.clk_script.specs.Record.{command_text, drain_text, record_text, FitsLimits, FitsScript, HasRoom, RecordsMeanTheirCourse, PlanRecordsMeanTheirCourse, IsSmall, OnlyFittingRecordsMean};
ghost use Rattle.clk_script.specs.OneDevice.{HasOneDevice, IsMeaningAlone};
ghost use Rattle.clk_script.specs.Examples.{two_queues, two_devices, shaped, moment_not_counted, moment_ahead, second_first, number_left_out, refused_early, never_sent, other_refused, swapped, moment_shared, no_device, one_left, closed_at_once, closed_without_a_pull, closed_a_tick_early, closed_a_pull_late, one_at_each, closed_in_turn, closed_last_first, closed_on, pulled_at, great_sender, from_great, failed, one_pull, holding};
ghost use Rattle.clk_script.specs.Records.{Records};

use clk_ring::histories_leave_no_choice;
use clk_sched::{runs_go_on, runs_leave_no_choice};
use clk_tree::Plan;

/// A script has at most one meaning over a setup whose senders send to queues that exist, and whose trees stand over queues that exist. Its
/// commands decide the events, one after another, and so the text and the logs. Two queues with a sender each, below a PrioSched, are such
/// a setup.
pub fn scripts_have_at_most_one_meaning()
    ensures wired { (setup : _) → IsWired setup → HasAtMostOneMeaning setup }
    ensures logs { (setup : _) → IsWired setup → HasAtMostOneLog setup }
    ensures two_queues { HasAtMostOneMeaning two_queues }
{
    // This follows from these laws, which do nothing.
    histories_leave_no_choice();
    runs_leave_no_choice();
}

/// A script has at most one meaning over a plan, since a plan has one tree for each device. So the script and the plan decide the text that
/// `run_script` writes if it succeeds, and the logs that `run_script_logged` returns.
pub fn plans_have_at_most_one_meaning(plan: &Plan)
    ensures texts { (script one other : List ℕ) → MeansOver plan.now script one → MeansOver plan.now script other → one ≡ other }
    ensures logs { (script one other : List ℕ) (logs others : List (List Visit)) → MeansOverWith plan.now script one logs → MeansOverWith plan.now script other others → logs ≡ others }
{
    // Its senders send to its queues, which its trees share out.
    let _senders = plan.senders();
    plan.trees_share_queues();
    scripts_have_at_most_one_meaning();
}

/// The record of what happened, with the drain at its end if there was one, is a script that means exactly that. Its meaning is the lines
/// of the events, of the drain and of the report, with the logs of the devices. Only events that fit a script have a record that means
/// anything.
pub fn records_mean_their_course()
    ensures course { (setup : _) → RecordsMeanTheirCourse setup }
    ensures fitting { (setup : _) → OnlyFittingRecordsMean setup }
{}

/// The record of what happened over a plan means exactly that, if no moment is 2^40 or later and the record has at most 1,000,000 lines. A
/// script can name each sender and each device of a plan.
pub fn records_of_plans_mean_their_course(plan: &Plan)
    ensures { (trees : List Tree) → AreTreesOf plan.now trees → PlanRecordsMeanTheirCourse plan.now trees }
{
    // A line can hold the number of each of its devices and senders.
    let _devices = plan.devices();
    let _senders = plan.senders();
    records_mean_their_course();
}

/// A record grows line by line: a command adds its line, and so does the drain at the end. Events that fit a script still fit with one
/// more, if that fits too and a line is left.
pub fn records_grow()
    ensures command { (commands : List Command) (command : Command) → record_text (commands ++ command ∷ []) None ≡ record_text commands None ++ command_text command }
    ensures drain { (commands : List Command) (moment : ℕ) → record_text commands (Some moment) ≡ record_text commands None ++ drain_text (Some moment) }
    ensures fits { (setup : Setup) (events : List Event) (event : Event) → FitsScript setup events None → FitsScript setup (event ∷ []) None → length events < MAX_LINES → FitsScript setup (events ++ event ∷ []) None }
    ensures fits_drain { (setup : Setup) (events : List Event) (moment : ℕ) → FitsScript setup events None → moment ≤ MAX_MOMENT → length events < MAX_LINES → FitsScript setup events (Some moment) }
    ensures limits { (events : List Event) (event : Event) → FitsLimits events None → FitsLimits (event ∷ []) None → length events < MAX_LINES → FitsLimits (events ++ event ∷ []) None }
    ensures limits_drain { (events : List Event) (moment : ℕ) → FitsLimits events None → moment ≤ MAX_MOMENT → length events < MAX_LINES → FitsLimits events (Some moment) }
{}

/// Over one device a script means what it means without numbers of devices: its pulls are a run of the one tree, and their lines are
/// `pull M: ..`. Two queues below a PrioSched are such a device.
pub fn one_device_needs_no_number()
    ensures alone { (setup : _) (tree : _) → HasOneDevice setup tree → (script text : List ℕ) → IsMeaning setup script text → IsMeaningAlone setup tree script text }
    ensures all { (setup : _) (tree : _) → HasOneDevice setup tree → (script text : List ℕ) → IsMeaningAlone setup tree script text → IsMeaning setup script text }
    ensures two_queues { (tree : _) × HasOneDevice two_queues tree }
{}

/// What happens at a device, and so each of its lines, follows from its own commands, over a setup whose senders and devices are apart. No
/// pull of another device and no packet that is sent to one changes it.
pub fn devices_stand_apart()
    ensures { (setup : _) → IsWired setup → IsApart setup → DevicesAreApart setup }
{
    // What happens at a device can happen alone. The rest follows from these laws, which do nothing.
    runs_go_on();
    histories_leave_no_choice();
    runs_leave_no_choice();
}

/// The devices of a plan are apart: what happens at each follows from its own commands.
pub fn devices_of_plans_stand_apart(plan: &Plan)
    ensures { (trees : List Tree) → AreTreesOf plan.now trees → DevicesAreApart (plan_setup trees plan.now) }
{
    // Its senders rise and send to its queues, which its trees share out.
    let _senders = plan.senders();
    let _queues = plan.queues();
    plan.trees_share_queues();
    devices_stand_apart();
}

/// What happens at a device of a plan follows from the commands there: if the commands of one course at a device are a prefix of those of
/// another, so are the events.
pub fn devices_of_plans_go_alike(plan: &Plan)
    ensures { (trees : List Tree) → AreTreesOf plan.now trees → DevicesGoAlike (plan_setup trees plan.now) }
{
    // Its senders rise and send to its queues, which its trees share out. The rest follows from these laws, which do nothing.
    let _senders = plan.senders();
    let _queues = plan.queues();
    plan.trees_share_queues();
    runs_go_on();
    histories_leave_no_choice();
    runs_leave_no_choice();
}

/// Which events cannot happen: over two queues below a PrioSched, over one queue below a Shaper, and over two devices with a queue each.
/// And a script with a fault has no meaning.
pub fn script_examples()
    ensures not_moment_not_counted { ¬ (CanHappen shaped moment_not_counted) }
    ensures not_moment_ahead { ¬ (CanHappen shaped moment_ahead) }
    ensures not_second_first { ¬ (CanHappen two_queues second_first) }
    ensures not_number_left_out { ¬ (CanHappen two_queues number_left_out) }
    ensures not_refused_early { ¬ (CanHappen two_queues refused_early) }
    ensures not_never_sent { ¬ (CanHappen two_queues never_sent) }
    ensures not_other_refused { ¬ (CanHappen two_queues other_refused) }
    ensures not_swapped { ¬ (CanHappen two_devices swapped) }
    ensures not_moment_shared { ¬ (CanHappen two_devices moment_shared) }
    ensures not_no_device { ¬ (CanHappen two_devices no_device) }
    ensures not_faulty { (text : _) → ¬ (IsMeaning two_queues (codes "pull\n") text) }
{}

/// Which pulls are a drain from moment 4 on: if one packet is left, and if one is left at each of two devices.
pub fn closing_examples()
    ensures at_once { Closes 0 4 one_left closed_at_once }
    ensures not_without_a_pull { ¬ (Closes 0 4 one_left closed_without_a_pull) }
    ensures not_a_tick_early { ¬ (Closes 0 4 one_left closed_a_tick_early) }
    ensures not_a_pull_late { ¬ (Closes 0 4 one_left closed_a_pull_late) }
    ensures in_turn { CloseFirst two_devices 4 2 one_at_each closed_in_turn }
    ensures not_last_first { ¬ (CloseFirst two_devices 4 2 one_at_each closed_last_first) }
    ensures not_on { ¬ (CloseFirst two_devices 4 2 one_at_each closed_on) }
{}

/// What the words of `run_script`'s contract exclude. No more bytes are read than the limit, and no bytes are written that are no front of
/// the text. The text isn't cut short if the call succeeds, and not only its end is written if the sink fails. Nothing is written at
/// another fault, and no fault is that of another script.
pub fn word_examples()
    ensures not_taken { ¬ (Takes 1 (Some (65 ∷ 66 ∷ [])) (Some [])) }
    ensures not_front { ¬ (AppendsFront (Some []) (Some (66 ∷ [])) (65 ∷ 66 ∷ [])) }
    ensures not_cut_in_success { ¬ (WroteWhat (λ written. written ≡ text) success (Some []) (Some first_byte)) }
    ensures not_end_alone { ¬ (WroteWhat (λ written. written ≡ text) (failed Write) (Some []) (Some second_byte)) }
    ensures not_at_another_fault { ¬ (WroteWhat (λ written. written ≡ text) (failed Memory) (Some []) (Some first_byte)) }
    ensures not_too_large { ¬ (Explains (names_of two_queues) (Some (codes "pull 0\n")) TooLarge) }
    ensures not_too_large_over_a_plan { (plan : _) → ¬ (ExplainsPlan plan (Some (codes "pull 0\n")) TooLarge) }
{}

/// A record byte for byte, and events that fit at the greatest moments. The near misses are an unknown sender, a sender or a device above
/// 65,535, a pull or a drain at 2^40, and line 1,000,001. The record of each near miss means nothing, though that pull can happen. A writer
/// has room for line 1,000,000 at the greatest moment, and for no later line or moment.
pub fn record_examples()
    ensures lines { record_text (map command_of (pulled_at 3)) (Some 4) ≡ codes "send 1 50\npull 3\npull 3 1\ndrain 4\n" }
    ensures fits { FitsScript two_devices (pulled_at 1099511627775) (Some 1099511627775) }
    ensures has_room { HasRoom 999999 (Some 1099511627775) }
    ensures no_line_left { ¬ (HasRoom 1000000 None) }
    ensures no_late_room { ¬ (HasRoom 0 (Some 1099511627776)) }
    ensures not_unknown_sender { ¬ (FitsScript shaped one_left None) }
    ensures no_unknown_sender { (text : List ℕ) → ¬ (IsMeaning shaped (record_text (map command_of one_left) None) text) }
    ensures not_great_sender { ¬ (FitsScript great_sender from_great None) }
    ensures no_great_sender { (text : List ℕ) → ¬ (IsMeaning great_sender (record_text (map command_of from_great) None) text) }
    ensures not_great_device { (setup : Setup) → ¬ (FitsScript setup (pulled 65536 0 [] ∷ []) None) }
    ensures no_great_device { (setup : Setup) (text : List ℕ) → ¬ (IsMeaning setup (record_text (map command_of (pulled 65536 0 [] ∷ [])) None) text) }
    ensures late_can_happen { CanHappen two_devices (pulled_at 1099511627776) }
    ensures not_late { ¬ (FitsScript two_devices (pulled_at 1099511627776) None) }
    ensures no_late { (text : List ℕ) → ¬ (IsMeaning two_devices (record_text (map command_of (pulled_at 1099511627776)) None) text) }
    ensures not_drained_late { ¬ (FitsScript two_devices (pulled_at 3) (Some 1099511627776)) }
    ensures no_drained_late { (text : List ℕ) → ¬ (IsMeaning two_devices (record_text (map command_of (pulled_at 3)) (Some 1099511627776)) text) }
    ensures not_long { (setup : Setup) (events : List Event) → length events ≡ 1000001 → ¬ (FitsScript setup events None) }
    ensures no_long { (setup : Setup) (events : List Event) (text : List ℕ) → AllByRecursion IsSmall (map command_of events) → length events ≡ 1000001 → ¬ (IsMeaning setup (record_text (map command_of events) None) text) }
    ensures not_drained_long { (setup : Setup) (events : List Event) (moment : ℕ) → length events ≡ 1000000 → ¬ (FitsScript setup events (Some moment)) }
    ensures no_drained_long { (setup : Setup) (events : List Event) (moment : ℕ) (text : List ℕ) → AllByRecursion IsSmall (map command_of events) → moment < 2 ^ 64 → length events ≡ 1000000 → ¬ (IsMeaning setup (record_text (map command_of events) (Some moment)) text) }
{
    // By this law, which does nothing, only what fits means anything.
    records_mean_their_course();
}

/// What a writer of a record has written and holds is its whole record, each line once, and it counts the lines. No writer whose sink failed
/// meets `Records`.
pub fn writer_examples()
    ensures holds { Records (Some []) (Some []) one_pull (holding (codes "pull 3\n") 1) }
    ensures wrote { Records (Some []) (Some (codes "pull 3\n")) one_pull (holding [] 1) }
    ensures wrote_some { Records (Some []) (Some (codes "pul")) one_pull (holding (codes "l 3\n") 1) }
    ensures not_lost { ¬ (Records (Some []) (Some []) one_pull (holding [] 1)) }
    ensures not_twice { ¬ (Records (Some []) (Some (codes "pull 3\n")) one_pull (holding (codes "pull 3\n") 1)) }
    ensures not_another { ¬ (Records (Some []) (Some []) one_pull (holding (codes "pull 4\n") 1)) }
    ensures not_uncounted { ¬ (Records (Some []) (Some []) one_pull (holding (codes "pull 3\n") 0)) }
    ensures not_ended { ¬ (Records (Some []) (Some []) one_pull (record (holding (codes "pull 3\n") 1) { ended = true })) }
{}

//! Carrying out a script again, to write its visits.

ghost use Rattle.std.specs.Prelude.{◌≡◌, ℕ, ◌+◌, ◌-◌, ◌<◌, ◌≤◌, ◌==◌, ◌++◌, ◌∷◌, [], true, false, Some, None, max, length, OnOk, Ok};
ghost use Rattle.clk_packet.specs.Bytes.{Wrote};
ghost use Rattle.clk_report.specs.VisitCsv.{rows_text, visits_text};
ghost use Rattle.clk_sched.specs.Keeps.{keeps_latest};
ghost use Rattle.clk_sched.specs.declared.limits.TheConstants.{END_OF_MOMENTS};
ghost use Rattle.clk_sched.specs.declared.visit.Visit.{Visit};
ghost use Rattle.clk_router.specs.Course.{after, events_of, CanPull};
ghost use Rattle.clk_router.specs.Events.{log_of, pulled, CanHappen};
ghost use Rattle.clk_script.specs.declared.limits.TheConstants.{MAX_LINES};
ghost use Rattle.clk_script.specs.Meaning.{names_of};
ghost use Rattle.clk_script.specs.inside.Rows.{IsToDo};
ghost use Rattle.clk_script.specs.inside.Replay.{asked_at, logs_in, device_rows, pulls_asked, column_of, CanReplay, CarriedOn, HeldOn};
ghost use Rattle.std.specs.List.{AllByRecursion};

use crate::answer::Answer;
use crate::laws::devices_of_plans_go_alike;
use crate::rows::ScriptRow;
use clk_packet::{Fault, Sink};
use clk_report::{visit_rows, visits_header};
use clk_router::Router;
use clk_sched::Visit;
use clk_tree::Plan;
use std::marker::Model;

/// How many visits are held until they are written at once.
pub const HELD: usize = 1_024;

/// The visits of a script that was answered. They are not kept: the script is carried out again as they are written, device by device.
/// Contracts see the visits of each device.
#[derive(Drop)]
pub struct Replay {
    /// The answer to the script.
    answer: Answer,
    /// A router of the same plan, to which nothing has happened. It keeps the visits of the latest pull.
    again: Router,
    /// Memory for visits that are held until there are enough to be written at once.
    held: Vec<Visit>,
}

impl Model for Replay {
    ghost use Rattle.std.specs.Prelude.{◌≡◌, List, []};
    ghost use Rattle.std.specs.Coded.{coded_list};
    ghost use Rattle.clk_sched.specs.declared.visit.Visit.{Visit};
    ghost use Rattle.clk_sched.specs.contracts.visit.Visit.{the_row as visit_row};
    ghost use Rattle.clk_script.specs.inside.Replay.{CanReplay, logs_in};

    ghost Value = { List (List Visit) };

    ghost coded = { coded_list (coded_list visit_row.coded) };

    ghost view = { λ r. logs_in r.answer };

    ghost invariant = { λ r. CanReplay r.answer r.again × (r.again.events ≡ []) × (r.held.items ≡ []) };
}

impl Replay {
    ghost use Rattle.std.specs.Prelude.{◌≡◌, []};
    ghost use Rattle.clk_sched.specs.Keeps.{keeps_latest};
    ghost use Rattle.clk_router.specs.Course.{IsOpened};
    ghost use Rattle.clk_script.specs.inside.Replay.{IsAnswerOver, logs_in};

    /// The visits of a script that was answered over a plan, by a second router of the plan, to which nothing has happened. `held` has
    /// memory for some visits.
    pub(crate) fn new(plan: &Plan, answer: Answer, again: Router, held: Vec<Visit>) -> Replay
        requires answer { (known : _) × IsAnswerOver plan.now known answer }
        requires opened { IsOpened plan.now keeps_latest again }
        requires none { held.items ≡ [] }
        ensures { result ≡ logs_in answer }
    {
        // The devices of the plan do the same again, by this law, which does nothing.
        devices_of_plans_go_alike(plan);
        Replay {
            answer,
            again,
            held,
        }
    }

    /// Writes the visits of each device as CSV, as `visits_csv` does. Doesn't allocate. Goes through the lines of the script once for each
    /// device.
    ///
    /// # Errors
    ///
    /// Fault 20 if the sink fails. It has then taken a front of the text.
    pub fn write<W: Sink>(self, writer: &mut W) -> Result<(), Fault>
        ensures { Wrote (W.Sink.taken writer.old) (W.Sink.taken writer.new) (W.Sink.failures writer.old) (W.Sink.failures writer.new) result (visits_text self) }
    {
        let Replay {
            answer,
            mut again,
            mut held,
        } = self;
        let several = again.devices() > 1;
        visits_header(several, writer)?;
        replay_devices(&answer, &mut again, several, &mut held, writer)
    }
}

/// Carries out all that a script asks of each device, one after the other, and writes the rows of the visits.
fn replay_devices<W: Sink>(
    answer: &Answer,
    again: &mut Router,
    several: bool,
    held: &mut Vec<Visit>,
    writer: &mut W,
) -> Result<(), Fault>
    requires can { CanReplay answer.now again.old }
    requires fresh { again.old.events ≡ [] }
    requires none { held.old.items ≡ [] }
    ensures { Wrote (W.Sink.taken writer.old) (W.Sink.taken writer.new) (W.Sink.failures writer.old) (W.Sink.failures writer.new) result
        (device_rows several 0 (logs_in answer.now)) }
{
    let mut device = 0;
    while usize::from(device) < again.devices() {
        let column = column_of(several, device);
        replay_device(answer, again, device, column, held, writer)?;
        device += 1;
    }
    Ok(())
}

/// The column of a device; rows of a single device have none.
fn column_of(several: bool, device: u16) -> Option<u64>
    ensures { result ≡ column_of several device }
{
    if several {
        Some(u64::from(device))
    } else {
        None
    }
}

/// Carries out all that a script asks of a device, and writes the rows of its visits. None are held before and after.
fn replay_device<W: Sink>(
    answer: &Answer,
    again: &mut Router,
    device: u16,
    column: Option<u64>,
    held: &mut Vec<Visit>,
    writer: &mut W,
) -> Result<(), Fault>
    requires can { CanReplay answer.now again.old }
    requires there { device < length again.old.setup.trees }
    requires fresh { events_of again.old device ≡ [] }
    requires none { held.old.items ≡ [] }
    ensures wrote { Wrote (W.Sink.taken writer.old) (W.Sink.taken writer.new) (W.Sink.failures writer.old) (W.Sink.failures writer.new) result
        (rows_text column (log_of (events_of answer.now.script_router.router device))) }
    ensures setup { again.new.setup ≡ again.old.setup }
    ensures keeps { again.new.keeps ≡ again.old.keeps }
    ensures later { (k : ℕ) → (device == k) ≡ false → events_of again.new k ≡ events_of again.old k }
    ensures none { OnOk result (held.new.items ≡ []) }
{
    replay_commands(answer, again, device, column, held, writer)?;
    visit_rows(column, held, writer)?;
    held.clear();
    Ok(())
}

/// Carries out all that a script asks of a device. Visits that there aren't enough of to be written at once are held at the end.
fn replay_commands<W: Sink>(
    answer: &Answer,
    again: &mut Router,
    device: u16,
    column: Option<u64>,
    held: &mut Vec<Visit>,
    writer: &mut W,
) -> Result<(), Fault>
    requires can { CanReplay answer.now again.old }
    requires there { device < length again.old.setup.trees }
    requires fresh { events_of again.old device ≡ [] }
    ensures visits { HeldOn column (record { taken = W.Sink.taken writer.old; failures = W.Sink.failures writer.old; held = held.old.items })
        (record { taken = W.Sink.taken writer.new; failures = W.Sink.failures writer.new; held = held.new.items }) result
        (log_of (events_of answer.now.script_router.router device)) }
    ensures setup { again.new.setup ≡ again.old.setup }
    ensures keeps { again.new.keeps ≡ again.old.keeps }
    ensures later { (k : ℕ) → (device == k) ≡ false → events_of again.new k ≡ events_of again.old k }
{
    // Reading these brings into scope that senders rise.
    let _ = again.senders();
    // What was carried out can happen, by this law, which does nothing.
    answer.script_router.router.has_happened();
    replay_rows(again, device, column, &answer.rows, held, writer)?;
    let Some(moment) = answer.drain else {
        return Ok(());
    };
    let start = again.moment(device).max(moment);
    let end = answer.script_router.router.moment(device);
    replay_drain(again, device, column, start, end, held, writer)
}

/// Carries out the commands of these rows at a device.
fn replay_rows<W: Sink>(
    again: &mut Router,
    device: u16,
    column: Option<u64>,
    rows: &[ScriptRow],
    held: &mut Vec<Visit>,
    writer: &mut W,
) -> Result<(), Fault>
    requires fresh { events_of again.old device ≡ [] }
    requires keeps { again.old.keeps ≡ keeps_latest }
    requires few { length rows.now ≤ MAX_LINES }
    requires to_do { AllByRecursion (IsToDo (names_of again.old.setup)) rows.now }
    ensures { CarriedOn device again.old again.new (asked_at again.old.setup device rows.now) result
        (HeldOn column (record { taken = W.Sink.taken writer.old; failures = W.Sink.failures writer.old; held = held.old.items })
        (record { taken = W.Sink.taken writer.new; failures = W.Sink.failures writer.new; held = held.new.items }) result) }
{
    // A law, which does nothing.
    again.has_happened();
    for row in rows {
        replay_row(again, device, column, *row, held, writer)?;
    }
    Ok(())
}

/// Carries out the command of a row, if it is one at a device.
fn replay_row<W: Sink>(
    again: &mut Router,
    device: u16,
    column: Option<u64>,
    row: ScriptRow,
    held: &mut Vec<Visit>,
    writer: &mut W,
) -> Result<(), Fault>
    requires few { length (events_of again.old device) ≤ MAX_LINES }
    requires keeps { again.old.keeps ≡ keeps_latest }
    requires to_do { IsToDo (names_of again.old.setup) row }
    ensures { CarriedOn device again.old again.new (asked_at again.old.setup device (row ∷ [])) result
        (HeldOn column (record { taken = W.Sink.taken writer.old; failures = W.Sink.failures writer.old; held = held.old.items })
        (record { taken = W.Sink.taken writer.new; failures = W.Sink.failures writer.new; held = held.new.items }) result) }
{
    // Reading these brings into scope that senders rise. What has happened can happen, by this law, which does nothing.
    let _ = again.senders();
    again.has_happened();
    match row {
        ScriptRow::Send { place, packet, .. } => {
            let place = usize::from(place);
            if again.device_of_sender(place) != device {
                return Ok(());
            }
            again.offer(place, packet.length);
            // A law, which does nothing.
            again.has_happened();
            Ok(())
        }
        ScriptRow::Pull {
            device: asked,
            moment,
            ..
        } => {
            if asked != device {
                return Ok(());
            }
            replay_pull(again, device, column, moment.ticks(), held, writer)
        }
    }
}

/// Pulls a device one tick apart from the moment after `start` to `end`.
fn replay_drain<W: Sink>(
    again: &mut Router,
    device: u16,
    column: Option<u64>,
    start: u64,
    end: u64,
    held: &mut Vec<Visit>,
    writer: &mut W,
) -> Result<(), Fault>
    requires there { device < length again.old.setup.trees }
    requires few { length (events_of again.old device) ≤ MAX_LINES }
    requires keeps { again.old.keeps ≡ keeps_latest }
    requires end { end < END_OF_MOMENTS }
    ensures { CarriedOn device again.old again.new (pulls_asked device (start + 1) (end - start)) result
        (HeldOn column (record { taken = W.Sink.taken writer.old; failures = W.Sink.failures writer.old; held = held.old.items })
        (record { taken = W.Sink.taken writer.new; failures = W.Sink.failures writer.new; held = held.new.items }) result) }
{
    // A law, which does nothing.
    again.has_happened();
    let mut moment = start;
    while moment < end {
        moment += 1;
        replay_pull(again, device, column, moment, held, writer)?;
    }
    Ok(())
}

/// Pulls a device once, at this moment in ticks, and holds its visits or writes them.
fn replay_pull<W: Sink>(
    again: &mut Router,
    device: u16,
    column: Option<u64>,
    moment: u64,
    held: &mut Vec<Visit>,
    writer: &mut W,
) -> Result<(), Fault>
    requires can { CanPull again.old device moment }
    requires keeps { again.old.keeps ≡ keeps_latest }
    ensures pulled { (visits : _) × (again.new ≡ after again.old (pulled device moment visits ∷ [])) × CanHappen again.new.setup again.new.events
        × HeldOn column (record { taken = W.Sink.taken writer.old; failures = W.Sink.failures writer.old; held = held.old.items })
        (record { taken = W.Sink.taken writer.new; failures = W.Sink.failures writer.new; held = held.new.items }) result visits }
{
    // What is kept doesn't grow, so that no allocation fails.
    again.pull(device, moment).unwrap();
    // A law, which does nothing.
    again.has_happened();
    hold(column, again.latest(device), held, writer)
}

/// Adds visits to those that are held. If there is no room for them, writes the rows of all.
fn hold<W: Sink>(
    column: Option<u64>,
    visits: &[Visit],
    held: &mut Vec<Visit>,
    writer: &mut W,
) -> Result<(), Fault>
    ensures { HeldOn column (record { taken = W.Sink.taken writer.old; failures = W.Sink.failures writer.old; held = held.old.items })
        (record { taken = W.Sink.taken writer.new; failures = W.Sink.failures writer.new; held = held.new.items }) result visits.now }
{
    if visits.len() <= held.capacity() - held.len() {
        for visit in visits {
            held.push_reserved(*visit);
        }
        return Ok(());
    }
    visit_rows(column, held, writer)?;
    held.clear();
    visit_rows(column, visits, writer)
}

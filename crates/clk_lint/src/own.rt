//! The warnings of one element.

ghost use Rattle.std.specs.Prelude.{◌≡◌, ◌++◌, nat_lt, slice_get, OnOk, IsOkUnless};
ghost use Rattle.std.specs.List.{flat_map};
ghost use Rattle.clk_packet.specs.declared.fault.Fault.TheVariants.{Memory};
ghost use Rattle.clk_packet.specs.Scheduler.{scheduler_view};
ghost use Rattle.clk_syntax.specs.Classes.{class_view};
ghost use Rattle.clk_lint.specs.declared.warning.Warning.TheVariants.{SmallBurst, SmallQueue};
ghost use Rattle.clk_lint.specs.Load.{longest_below, trace_of};
ghost use Rattle.clk_lint.specs.inside.Kept.{plan_in, spot_of, trace_in};
ghost use Rattle.clk_lint.specs.Warnings.{class_warnings, if_so, lone_warnings, scheduler_warnings, sender_warnings, sender_warnings_at, unused_warnings};

use crate::judged::{Judged, Spot};
use crate::load::burst_of;
use crate::shares::{push_quanta, push_tickets};
use crate::warning::Warning;
use clk_packet::{Fault, Scheduler, Traces};
use clk_syntax::Class;

/// Adds the warnings of an element itself. Fault 1 if an allocation fails.
pub fn push_own(
    found: &mut Vec<Warning>,
    judged: &Judged<'_, '_>,
    spot: Spot,
    class: &Class,
    sources: &[u16],
) -> Result<(), Fault>
    ensures added { OnOk result (found.new.items ≡ found.old.items
        ++ class_warnings (plan_in judged.now) (trace_in judged.now) (spot_of spot) sources.now (class_view class.now)) }
    ensures fault { IsOkUnless result Memory }
{
    match class {
        Class::Queue(_, capacity) => push_queue(found, judged, spot.place, *capacity, sources),
        Class::Scheduler(scheduler) => push_scheduler(found, judged, spot, scheduler, sources),
        Class::Sender(_) | Class::ToDevice(_) => Ok(()),
    }
}

/// Adds the warnings of a scheduler itself. Fault 1 if an allocation fails.
fn push_scheduler(
    found: &mut Vec<Warning>,
    judged: &Judged<'_, '_>,
    spot: Spot,
    scheduler: &Scheduler,
    sources: &[u16],
) -> Result<(), Fault>
    ensures added { OnOk result (found.new.items ≡ found.old.items
        ++ scheduler_warnings (spot_of spot) (longest_below (plan_in judged.now) (trace_in judged.now)) sources.now (scheduler_view scheduler.now)) }
    ensures fault { IsOkUnless result Memory }
{
    match scheduler {
        Scheduler::Drr(quanta) => {
            push_quanta(found, judged, spot, quanta, sources)?;
            push_lone(found, spot.place, sources)
        }
        Scheduler::Stride(tickets) => {
            push_tickets(found, spot.place, tickets)?;
            push_lone(found, spot.place, sources)
        }
        Scheduler::Shaper(rate, burst) => push_shaper(found, spot.place, *rate, *burst),
        _ => push_lone(found, spot.place, sources),
    }
}

/// Adds a warning if a scheduler has one input. Fault 1 if an allocation fails.
fn push_lone(found: &mut Vec<Warning>, place: usize, sources: &[u16]) -> Result<(), Fault>
    ensures added { OnOk result (found.new.items ≡ found.old.items ++ lone_warnings place sources.now) }
    ensures fault { IsOkUnless result Memory }
{
    if let [_] = sources {
        found.push(Warning::OneInput { element: place })?;
    }
    Ok(())
}

/// Adds a warning if the burst of a Shaper is below its rate. Fault 1 if an allocation fails.
fn push_shaper(found: &mut Vec<Warning>, place: usize, rate: u32, burst: u32) -> Result<(), Fault>
    ensures added { OnOk result (found.new.items ≡ found.old.items ++ if_so (nat_lt burst rate) (SmallBurst place rate burst)) }
    ensures fault { IsOkUnless result Memory }
{
    if burst < rate {
        found.push(Warning::SmallBurst {
            element: place,
            rate,
            burst,
        })?;
    }
    Ok(())
}

/// Adds the warnings of a queue. Fault 1 if an allocation fails.
fn push_queue(
    found: &mut Vec<Warning>,
    judged: &Judged<'_, '_>,
    place: usize,
    capacity: u32,
    sources: &[u16],
) -> Result<(), Fault>
    ensures added { OnOk result (found.new.items ≡ found.old.items
        ++ (unused_warnings place sources.now ++ flat_map (λ s. sender_warnings_at (trace_in judged.now) place capacity (slice_get (plan_in judged.now) s)) sources.now)) }
    ensures fault { IsOkUnless result Memory }
{
    push_unused(found, place, sources)?;
    for source in sources {
        push_sender(found, judged, place, capacity, usize::from(*source))?;
    }
    Ok(())
}

/// Adds a warning if nobody sends to a queue. Fault 1 if an allocation fails.
fn push_unused(found: &mut Vec<Warning>, place: usize, sources: &[u16]) -> Result<(), Fault>
    ensures added { OnOk result (found.new.items ≡ found.old.items ++ unused_warnings place sources.now) }
    ensures fault { IsOkUnless result Memory }
{
    if sources.is_empty() {
        found.push(Warning::UnusedQueue { element: place })?;
    }
    Ok(())
}

/// Adds a warning if a queue holds fewer packets than one of its senders may offer at once. Fault 1 if an allocation fails.
fn push_sender(
    found: &mut Vec<Warning>,
    judged: &Judged<'_, '_>,
    place: usize,
    capacity: u32,
    source: usize,
) -> Result<(), Fault>
    ensures added { OnOk result (found.new.items ≡ found.old.items
        ++ sender_warnings_at (trace_in judged.now) place capacity (slice_get (plan_in judged.now) source)) }
    ensures fault { IsOkUnless result Memory }
{
    match judged.element(source) {
        Some(element) => push_burst(found, judged.trace, place, capacity, &element.class),
        None => Ok(()),
    }
}

/// Adds a warning if this is a sender that may offer more packets at once than a queue holds. Fault 1 if an allocation fails.
fn push_burst(
    found: &mut Vec<Warning>,
    trace: Option<&Traces>,
    place: usize,
    capacity: u32,
    class: &Class,
) -> Result<(), Fault>
    ensures added { OnOk result (found.new.items ≡ found.old.items ++ sender_warnings (trace_of trace.entry) place capacity (class_view class.now)) }
    ensures fault { IsOkUnless result Memory }
{
    match class {
        Class::Sender(sender) => {
            push_small(found, place, capacity, *sender, burst_of(trace, *sender))
        }
        _ => Ok(()),
    }
}

/// Adds a warning if a queue holds fewer packets than these of a sender. Fault 1 if an allocation fails.
fn push_small(
    found: &mut Vec<Warning>,
    place: usize,
    capacity: u32,
    sender: u16,
    packets: u32,
) -> Result<(), Fault>
    ensures added { OnOk result (found.new.items ≡ found.old.items ++ if_so (nat_lt capacity packets) (SmallQueue place capacity sender packets)) }
    ensures fault { IsOkUnless result Memory }
{
    if capacity < packets {
        found.push(Warning::SmallQueue {
            element: place,
            capacity,
            sender,
            packets,
        })?;
    }
    Ok(())
}

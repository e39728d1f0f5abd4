//! The warnings of a plan, element by element.

ghost use Rattle.std.specs.Prelude.{◌≡◌, ◌++◌, IfOk, OnOk, IsOkUnless};
ghost use Rattle.clk_packet.specs.declared.fault.Fault.TheVariants.{Memory};
ghost use Rattle.clk_syntax.specs.Classes.{class_view};
ghost use Rattle.clk_lint.specs.Load.{trace_of};
ghost use Rattle.clk_lint.specs.inside.Kept.{plan_in, spot_of, trace_in};
ghost use Rattle.clk_lint.specs.Warnings.{device_warnings, input_warnings, prefers, warnings, warnings_at};

use crate::judged::{Judged, Spot};
use crate::own::push_own;
use crate::warning::Warning;
use clk_packet::{Fault, Scheduler, Traces};
use clk_syntax::Class;
use clk_tree::{Element, Plan};
use std::alloc::Global;

/// The warnings of a plan, and of a trace if there is one, by device and below it in preorder: those of an element come before those of
/// what is connected to it. Senders of the trace that the plan doesn't have count for nothing.
///
/// # Errors
///
/// Fault 1 if an allocation fails.
pub fn warnings(alloc: Global, plan: &Plan, trace: Option<&Traces>) -> Result<Vec<Warning>, Fault>
    ensures warnings { IfOk result (λ found. found.items ≡ warnings plan.now (trace_of trace.entry)) }
    ensures fault { IsOkUnless result Memory }
{
    let judged = Judged::of(alloc, plan, trace)?;
    let elements = plan.elements();
    let mut found = Vec::new(alloc);
    for place in 0..elements.len() {
        push_device(&mut found, &judged, place, &elements[place])?;
    }
    Ok(found)
}

/// Adds the warnings of an element at a place and of all that lead to it, if it is a device. Fault 1 if an allocation fails.
fn push_device(
    found: &mut Vec<Warning>,
    judged: &Judged<'_, '_>,
    place: usize,
    element: &Element,
) -> Result<(), Fault>
    ensures added { OnOk result (found.new.items ≡ found.old.items
        ++ device_warnings (plan_in judged.now) (trace_in judged.now) place (class_view element.now.class)) }
    ensures fault { IsOkUnless result Memory }
{
    if !element.is_device() {
        return Ok(());
    }
    let device = Spot {
        place,
        preferred: false,
    };
    push_at(found, judged, judged.elements.len(), device)
}

/// Adds the warnings of an element and of all that lead to it, in so many levels. Fault 1 if an allocation fails.
#[cycle(walk)]
fn push_at(
    found: &mut Vec<Warning>,
    judged: &Judged<'_, '_>,
    levels: usize,
    spot: Spot,
) -> Result<(), Fault>
    ensures added { OnOk result (found.new.items ≡ found.old.items ++ warnings_at (plan_in judged.now) (trace_in judged.now) levels (spot_of spot)) }
    ensures fault { IsOkUnless result Memory }
{
    if levels == 0 {
        return Ok(());
    }
    let Some(element) = judged.element(spot.place) else {
        return Ok(());
    };
    push_own(found, judged, spot, &element.class, &element.sources)?;
    push_below(
        found,
        judged,
        levels - 1,
        spot.preferred,
        &element.class,
        &element.sources,
    )
}

/// Adds the warnings of all that lead to the inputs of an element, in so many levels. Fault 1 if an allocation fails.
#[cycle(walk)]
fn push_below(
    found: &mut Vec<Warning>,
    judged: &Judged<'_, '_>,
    levels: usize,
    preferred: bool,
    class: &Class,
    sources: &[u16],
) -> Result<(), Fault>
    ensures added { OnOk result (found.new.items ≡ found.old.items
        ++ input_warnings (warnings_at (plan_in judged.now) (trace_in judged.now) levels) preferred (class_view class.now) sources.now) }
    ensures fault { IsOkUnless result Memory }
{
    let mut rest = sources;
    while let [source, after @ ..] = rest {
        let spot = Spot {
            place: usize::from(*source),
            preferred: preferred || prefers(class, after),
        };
        push_at(found, judged, levels, spot)?;
        rest = after;
    }
    Ok(())
}

/// Whether a scheduler prefers an input to one of these, which come after it.
fn prefers(class: &Class, after: &[u16]) -> bool
    ensures { result ≡ prefers (class_view class.now) after.now }
{
    match class {
        Class::Scheduler(Scheduler::Prio) => !after.is_empty(),
        _ => false,
    }
}

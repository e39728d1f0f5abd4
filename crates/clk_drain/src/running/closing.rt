//! Draining the devices of a run, one after the other.

ghost use Rattle.std.specs.Prelude.{◌≡◌, ◌<◌, ◌++◌, ◌∷◌, [], IfOk, IfErr, OnOk, IsOkUnless};
ghost use Rattle.std.specs.List.{AllByRecursion};
ghost use Rattle.clk_packet.specs.declared.fault.Fault.TheVariants.{Memory};
ghost use Rattle.clk_drain.specs.inside.Handed.{IsReadyToClose, AreApartDevices, AreSettledTogether, IsFaultOfClosing};

use crate::closing::{add, close};
use crate::drained::Drained;
use crate::outcome::Outcome;
use crate::running::joining::Closing;
use crate::running::terms::RunTerms;
use clk_gate::Gate;
use clk_packet::Fault;
use clk_sched::PackedLog;
use std::alloc::Global;
use std::sync::Wait;

/// Drains each device, in order, and joins their outcomes.
///
/// # Errors
///
/// The first fault of a device, and fault 1 if an allocation fails.
pub fn close_devices<W: Wait, G: Gate>(
    alloc: Global,
    terms: &RunTerms<W, G>,
    closings: Vec<Closing>,
) -> Result<Outcome<PackedLog>, Fault>
    requires ready { AllByRecursion (IsReadyToClose terms.now) closings.items }
    requires apart { AreApartDevices closings.items }
    ensures settled { IfOk result (AreSettledTogether terms.now closings.items) }
    ensures fault { IfErr result (IsFaultOfClosing closings.items) }
{
    let mut outcome = Outcome {
        emitted: Vec::with_capacity(alloc, closings.len())?,
        logs: Vec::with_capacity(alloc, closings.len())?,
        tallies: Vec::new(alloc),
    };
    for Closing { session, lines } in closings {
        let drained = close(alloc, terms.wait, session, lines, 0)?;
        note(&mut outcome, drained)?;
    }
    outcome.tallies.sort_unstable_by_key(|tally| tally.sender);
    Ok(outcome)
}

// Adds the outcome of a device, after those of the devices before it.
fn note(outcome: &mut Outcome<PackedLog>, drained: Drained<PackedLog>) -> Result<(), Fault>
    ensures emitted { OnOk result (outcome.new.emitted.items ≡ outcome.old.emitted.items ++ drained.emitted ∷ []) }
    ensures logs { OnOk result (outcome.new.logs.items ≡ outcome.old.logs.items ++ drained.log ∷ []) }
    ensures tallies { OnOk result (outcome.new.tallies.items ≡ outcome.old.tallies.items ++ drained.tallies.items) }
    ensures fault { IsOkUnless result Fault.Memory }
{
    let Drained {
        emitted,
        log,
        tallies,
    } = drained;
    outcome.emitted.push(emitted)?;
    outcome.logs.push(log)?;
    add(&mut outcome.tallies, tallies)
}

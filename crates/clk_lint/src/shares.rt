//! Warnings of quanta and tickets.

ghost use Rattle.std.specs.Prelude.{◌≡◌, ◌++◌, ◌<◌, length, take, nat_lt, get_or, OnOk, IsOkUnless};
ghost use Rattle.clk_packet.specs.declared.fault.Fault.TheVariants.{Memory};
ghost use Rattle.clk_sched.specs.Laws.Stride.{stride_of};
ghost use Rattle.clk_lint.specs.declared.warning.Warning.TheVariants.{SmallQuantum};
ghost use Rattle.clk_lint.specs.Load.{longest_below};
ghost use Rattle.clk_lint.specs.inside.Kept.{plan_in, spot_of, trace_in};
ghost use Rattle.clk_lint.specs.Warnings.{if_so, quantum_for, quantum_warnings, share_stride, stride_warning, stride_warnings, twin_of};

use crate::judged::{Judged, Spot};
use crate::warning::Warning;
use clk_packet::Fault;

/// The stride of one ticket.
const GREATEST_STRIDE: u32 = 65_536;

/// Adds a warning for each input of a DRRSched whose quantum is below the longest packet that reaches it. Fault 1 if an allocation fails.
pub fn push_quanta(
    found: &mut Vec<Warning>,
    judged: &Judged<'_, '_>,
    spot: Spot,
    quanta: &[u32],
    sources: &[u16],
) -> Result<(), Fault>
    ensures added { OnOk result (found.new.items ≡ found.old.items
        ++ quantum_warnings (spot_of spot) (longest_below (plan_in judged.now) (trace_in judged.now)) quanta.now 0 sources.now) }
    ensures fault { IsOkUnless result Memory }
{
    for input in 0..sources.len() {
        let longest = judged.longest_below(usize::from(sources[input]));
        push_quantum(found, spot, longest, input, quantum_for(quanta, input))?;
    }
    Ok(())
}

/// Adds a warning if a quantum is below the longest packet that reaches its input. Fault 1 if an allocation fails.
fn push_quantum(
    found: &mut Vec<Warning>,
    spot: Spot,
    longest: u16,
    input: usize,
    quantum: u32,
) -> Result<(), Fault>
    ensures added { OnOk result (found.new.items ≡ found.old.items ++ if_so (nat_lt quantum longest) (SmallQuantum spot.place input quantum longest spot.preferred)) }
    ensures fault { IsOkUnless result Memory }
{
    if quantum < u32::from(longest) {
        found.push(Warning::SmallQuantum {
            element: spot.place,
            input,
            quantum,
            longest,
            preferred: spot.preferred,
        })?;
    }
    Ok(())
}

/// The quantum of an input of a DRRSched, or 0 if there is no such input.
fn quantum_for(quanta: &[u32], input: usize) -> u32
    ensures { result ≡ quantum_for quanta.now input }
{
    match quanta {
        [quantum] => *quantum,
        _ => quanta.get(input).copied().unwrap_or(0),
    }
}

/// Adds a warning for each input of a StrideSched that has the stride of an earlier input, and other tickets. Fault 1 if an allocation
/// fails.
pub fn push_tickets(found: &mut Vec<Warning>, place: usize, tickets: &[u32]) -> Result<(), Fault>
    ensures added { OnOk result (found.new.items ≡ found.old.items ++ stride_warnings place tickets.now 0 tickets.now) }
    ensures fault { IsOkUnless result Memory }
{
    for input in 0..tickets.len() {
        push_stride(found, place, tickets, input)?;
    }
    Ok(())
}

/// Adds a warning if an input of a StrideSched has the stride of an earlier input, and other tickets. Fault 1 if an allocation fails.
fn push_stride(
    found: &mut Vec<Warning>,
    place: usize,
    tickets: &[u32],
    input: usize,
) -> Result<(), Fault>
    requires input { input < length tickets.now }
    ensures added { OnOk result (found.new.items ≡ found.old.items ++ stride_warning place input (get_or tickets.now input 0) (twin_of (get_or tickets.now input 0) 0 (take input tickets.now))) }
    ensures fault { IsOkUnless result Memory }
{
    let own = tickets[input];
    if let Some(other) = twin_of(&tickets[..input], own) {
        found.push(Warning::SameStride {
            element: place,
            input,
            other,
            stride: stride_of(own),
        })?;
    }
    Ok(())
}

/// The first of these inputs that has the same stride as one with these tickets, and other tickets.
fn twin_of(before: &[u32], tickets: u32) -> Option<usize>
    ensures { result ≡ twin_of tickets 0 before.now }
{
    for input in 0..before.len() {
        if share_stride(tickets, before[input]) {
            return Some(input);
        }
    }
    None
}

/// Whether numbers of tickets differ, and their strides don't.
fn share_stride(tickets: u32, other: u32) -> bool
    ensures { result ≡ share_stride tickets other }
{
    tickets != other && stride_of(tickets) == stride_of(other)
}

/// The stride of so many tickets.
fn stride_of(tickets: u32) -> u32
    ensures { result ≡ stride_of tickets }
{
    if tickets == 0 {
        return 0;
    }
    GREATEST_STRIDE / tickets
}

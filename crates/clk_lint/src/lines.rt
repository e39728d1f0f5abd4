//! The lines that tell warnings.

ghost use Rattle.std.specs.Prelude.{◌≡◌, ◌++◌, decimal, map, slice_get, IfOk, OnOk, IsOkUnless};
ghost use Rattle.clk_packet.specs.declared.fault.Fault.TheVariants.{Memory};
ghost use Rattle.clk_tree.specs.Canonical.{name_of};
ghost use Rattle.clk_tree.specs.Elements.{planned};
ghost use Rattle.clk_lint.specs.Lines.{burst_text, capacity_text, element_of, lines_of, place_text, priority_text, quantum_text, said_text, stride_text, warning_line};

use crate::warning::Warning;
use clk_packet::Fault;
use clk_tree::Element;
use itoa::Buffer;
use std::alloc::Global;

/// The lines of some warnings of a plan of these elements. Fault 1 if an allocation fails.
pub fn lines_of(alloc: Global, elements: &[Element], found: &[Warning]) -> Result<Vec<u8>, Fault>
    ensures lines { IfOk result (λ text. text.items ≡ lines_of (map planned elements.now) found.now) }
    ensures fault { IsOkUnless result Memory }
{
    let mut text = Vec::new(alloc);
    for warning in found {
        push_line(&mut text, elements, warning)?;
    }
    Ok(text)
}

/// Adds the line of a warning. Fault 1 if an allocation fails.
fn push_line(text: &mut Vec<u8>, elements: &[Element], warning: &Warning) -> Result<(), Fault>
    ensures line { OnOk result (text.new.items ≡ text.old.items ++ warning_line (map planned elements.now) warning.now) }
    ensures fault { IsOkUnless result Memory }
{
    text.extend_from_slice(b"warning: ")?;
    text.extend_from_slice(name_at(elements, element_of(warning)))?;
    push_place(text, warning)?;
    text.extend_from_slice(b": ")?;
    push_said(text, warning)?;
    text.extend_from_slice(b"\n")?;
    Ok(())
}

/// The name of the element at a place, or nothing if there is none.
fn name_at(elements: &[Element], place: usize) -> &[u8]
    ensures { result.now ≡ name_of (slice_get (map planned elements.now) place) }
{
    match elements.get(place) {
        Some(element) => &element.name,
        None => b"",
    }
}

/// The place of the element that a warning is about.
fn element_of(warning: &Warning) -> usize
    ensures { result ≡ element_of warning.now }
{
    match warning {
        Warning::SmallQuantum { element, .. }
        | Warning::SmallBurst { element, .. }
        | Warning::UnusedQueue { element }
        | Warning::SameStride { element, .. }
        | Warning::OneInput { element }
        | Warning::SmallQueue { element, .. } => *element,
    }
}

/// Adds the input that a warning is about, if it is about one. Fault 1 if an allocation fails.
fn push_place(text: &mut Vec<u8>, warning: &Warning) -> Result<(), Fault>
    ensures place { OnOk result (text.new.items ≡ text.old.items ++ place_text warning.now) }
    ensures fault { IsOkUnless result Memory }
{
    match warning {
        Warning::SmallQuantum { input, .. } | Warning::SameStride { input, .. } => {
            push(text, b" input ", *input as u64)
        }
        _ => Ok(()),
    }
}

/// Adds what a warning says. Fault 1 if an allocation fails.
fn push_said(text: &mut Vec<u8>, warning: &Warning) -> Result<(), Fault>
    ensures said { OnOk result (text.new.items ≡ text.old.items ++ said_text warning.now) }
    ensures fault { IsOkUnless result Memory }
{
    match *warning {
        Warning::SmallQuantum {
            quantum,
            longest,
            preferred,
            ..
        } => push_quantum(text, quantum, longest, preferred),
        Warning::SmallBurst { rate, burst, .. } => push_burst(text, rate, burst),
        Warning::UnusedQueue { .. } => push_text(text, b"nobody sends to it"),
        Warning::SameStride { other, stride, .. } => push_stride(text, other, stride),
        Warning::OneInput { .. } => push_text(text, b"it has one input"),
        Warning::SmallQueue {
            capacity,
            sender,
            packets,
            ..
        } => push_capacity(text, capacity, sender, packets),
    }
}

/// Adds what is said of a small quantum. Fault 1 if an allocation fails.
fn push_quantum(
    text: &mut Vec<u8>,
    quantum: u32,
    longest: u16,
    preferred: bool,
) -> Result<(), Fault>
    ensures said { OnOk result (text.new.items ≡ text.old.items ++ quantum_text quantum longest preferred) }
    ensures fault { IsOkUnless result Memory }
{
    push(text, b"quantum ", u64::from(quantum))?;
    push(text, b" is below the longest packet, ", u64::from(longest))?;
    push_priority(text, preferred)
}

/// Adds what a DRRSched may lose that a PrioSched above it prefers to another input. Fault 1 if an allocation fails.
fn push_priority(text: &mut Vec<u8>, preferred: bool) -> Result<(), Fault>
    ensures said { OnOk result (text.new.items ≡ text.old.items ++ priority_text preferred) }
    ensures fault { IsOkUnless result Memory }
{
    if preferred {
        text.extend_from_slice(b", and it loses its priority")?;
    }
    Ok(())
}

/// Adds what is said of a small burst. Fault 1 if an allocation fails.
fn push_burst(text: &mut Vec<u8>, rate: u32, burst: u32) -> Result<(), Fault>
    ensures said { OnOk result (text.new.items ≡ text.old.items ++ burst_text rate burst) }
    ensures fault { IsOkUnless result Memory }
{
    push(text, b"burst ", u64::from(burst))?;
    push(text, b" is below the rate, ", u64::from(rate))
}

/// Adds what is said of a stride that an earlier input has too. Fault 1 if an allocation fails.
fn push_stride(text: &mut Vec<u8>, other: usize, stride: u32) -> Result<(), Fault>
    ensures said { OnOk result (text.new.items ≡ text.old.items ++ stride_text other stride) }
    ensures fault { IsOkUnless result Memory }
{
    push(text, b"its tickets have the stride of input ", other as u64)?;
    push(text, b", ", u64::from(stride))
}

/// Adds what is said of a small queue. Fault 1 if an allocation fails.
fn push_capacity(text: &mut Vec<u8>, capacity: u32, sender: u16, packets: u32) -> Result<(), Fault>
    ensures said { OnOk result (text.new.items ≡ text.old.items ++ capacity_text capacity sender packets) }
    ensures fault { IsOkUnless result Memory }
{
    push(text, b"capacity ", u64::from(capacity))?;
    push(text, b" is below the packets of sender ", u64::from(sender))?;
    push(text, b", ", u64::from(packets))
}

/// Adds some words and then a number. Fault 1 if an allocation fails.
fn push(text: &mut Vec<u8>, words: &[u8], number: u64) -> Result<(), Fault>
    ensures words { OnOk result (text.new.items ≡ text.old.items ++ (words.now ++ decimal number)) }
    ensures fault { IsOkUnless result Memory }
{
    text.extend_from_slice(words)?;
    text.extend_from_slice(Buffer::new().format(number).as_bytes())?;
    Ok(())
}

/// Adds some words. Fault 1 if an allocation fails.
fn push_text(text: &mut Vec<u8>, words: &[u8]) -> Result<(), Fault>
    ensures words { OnOk result (text.new.items ≡ text.old.items ++ words.now) }
    ensures fault { IsOkUnless result Memory }
{
    text.extend_from_slice(words)?;
    Ok(())
}

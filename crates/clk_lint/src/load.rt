//! What senders send by a trace.

ghost use Rattle.std.specs.Prelude.{◌≡◌, map, get_or, slice_get, IfOk, IsOkUnless};
ghost use Rattle.clk_packet.specs.declared.fault.Fault.TheVariants.{Memory};
ghost use Rattle.clk_packet.specs.declared.packet.Packet.{Packet};
ghost use Rattle.clk_packet.specs.Trace.{sent_by};
ghost use Rattle.std.specs.Option.{option_map_or};
ghost use Rattle.clk_syntax.specs.Classes.{class_view};
ghost use Rattle.clk_tree.specs.Elements.{planned};
ghost use Rattle.clk_tree.specs.Plan.{Planned};
ghost use Rattle.clk_lint.specs.Load.{burst_of, greatest, longest_at, longest_of, longest_sent, trace_of};
ghost use Rattle.clk_lint.specs.inside.Sent.{sent_of};

use clk_packet::{Fault, Traces};
use clk_syntax::Class;
use clk_tree::Element;
use std::alloc::Global;

/// The length of the longest packet in bytes, if there is no trace: that of Ethernet.
pub const USUAL_LENGTH: u16 = 1500;

/// How many packets a sender may offer at once.
pub fn burst_of(trace: Option<&Traces>, sender: u16) -> u32
    ensures { result ≡ burst_of (trace_of trace.entry) sender }
{
    match trace {
        None => 0,
        Some(traces) => traces.count(sender),
    }
}

/// The length of the longest packet that each element itself sends, by its place; without a trace of no element. Fault 1 if an allocation
/// fails.
pub fn sent_of(
    alloc: Global,
    elements: &[Element],
    trace: Option<&Traces>,
) -> Result<Vec<u16>, Fault>
    ensures sent { IfOk result (λ sent. sent.items ≡ sent_of (map planned elements.now) (trace_of trace.entry)) }
    ensures fault { IsOkUnless result Memory }
{
    match trace {
        None => Ok(Vec::new(alloc)),
        Some(traces) => sent_by_each(alloc, elements, traces),
    }
}

/// The length of the longest packet that each element itself sends, by its place. Fault 1 if an allocation fails.
fn sent_by_each(alloc: Global, elements: &[Element], traces: &Traces) -> Result<Vec<u16>, Fault>
    ensures sent { IfOk result (λ sent. sent.items ≡ map (λ (e : Planned). longest_sent traces.now e.class) (map planned elements.now)) }
    ensures fault { IsOkUnless result Memory }
{
    let mut sent = Vec::new(alloc);
    for element in elements {
        sent.push(longest_sent(traces, &element.class))?;
    }
    Ok(sent)
}

/// The length of the longest packet that the element at a place and those below it send, in so many levels, by what each itself sends.
#[cycle(below)]
pub fn longest_at(elements: &[Element], sent: &[u16], levels: usize, place: usize) -> u16
    ensures { result ≡ longest_at (map planned elements.now) sent.now levels place }
{
    if levels == 0 {
        return 0;
    }
    let own = sent_at(sent, place);
    match elements.get(place) {
        None => own,
        Some(element) => own.max(longest_from(elements, sent, levels - 1, &element.sources)),
    }
}

/// The length of the longest packet that the elements at these places and those below them send, in so many levels, or 0 if they send none.
#[cycle(below)]
fn longest_from(elements: &[Element], sent: &[u16], levels: usize, sources: &[u16]) -> u16
    ensures { result ≡ greatest (longest_at (map planned elements.now) sent.now levels) sources.now }
{
    let mut longest = 0;
    for source in sources {
        longest = longest_at(elements, sent, levels, usize::from(*source)).max(longest);
    }
    longest
}

/// The length of the longest packet that the element at a place itself sends, or 0 if there is no such element.
fn sent_at(sent: &[u16], place: usize) -> u16
    ensures { result ≡ get_or sent.now place 0 }
{
    sent.get(place).copied().unwrap_or(0)
}

/// The length of the longest packet that an element of a class itself sends, or 0 if it sends none.
fn longest_sent(traces: &Traces, class: &Class) -> u16
    ensures { result ≡ longest_sent traces.now (class_view class.now) }
{
    match class {
        Class::Sender(sender) => longest_of(traces, *sender),
        _ => 0,
    }
}

/// The length of the longest packet of a sender, or 0 if it sends none.
fn longest_of(traces: &Traces, sender: u16) -> u16
    ensures { result ≡ longest_of (sent_by traces.now sender) }
{
    let mut longest = 0;
    for number in 0..traces.count(sender) {
        longest = length_of(traces, sender, number).max(longest);
    }
    longest
}

/// The length of a packet of a sender, or 0 if it sends no packet of this number.
fn length_of(traces: &Traces, sender: u16, number: u32) -> u16
    ensures { result ≡ option_map_or (λ (p : Packet). p.length) (slice_get (sent_by traces.now sender) number) 0 }
{
    match traces.sent(sender, number) {
        Some(packet) => packet.length,
        None => 0,
    }
}

//! A sender of a run: the thread that offers all that it sends.

ghost use Rattle.std.specs.Prelude.{◌≡◌, ◌∷◌, [], map, length, IfOk, IsOkUnless};
ghost use Rattle.clk_packet.specs.declared.fault.Fault.TheVariants.{Memory};
ghost use Rattle.clk_packet.specs.Trace.{sent_by};
ghost use Rattle.clk_inlet.specs.Items.{packet_item};
ghost use Rattle.clk_live.specs.Sending.{HasSent};
ghost use Rattle.clk_live_run.specs.inside.Consuming.{items_of};

use clk_gate::Gate;
use clk_inlet::Inlet;
use clk_packet::{Fault, Packet, Traces};
use std::alloc::Global;
use std::sync::Wait;
use std::thread;

/// What a sender's thread gets: its number, and its inlet.
#[derive(Drop)]
pub struct SenderInlet {
    pub number: u16,
    pub inlet: Inlet,
}

/// The senders of these numbers, each with the inlet at its place.
///
/// # Errors
///
/// Fault 1 if an allocation fails.
pub fn senders_of(
    alloc: Global,
    numbers: &[u16],
    inlets: Vec<Inlet>,
) -> Result<Vec<SenderInlet>, Fault>
    requires many { length inlets.items ≡ length numbers.now }
    ensures inlets { IfOk result (λ senders. map (λ sender. sender.inlet) senders.items ≡ inlets.items) }
    ensures numbers { IfOk result (λ senders. map (λ sender. sender.number) senders.items ≡ numbers.now) }
    ensures fault { IsOkUnless result Memory }
{
    let mut senders = Vec::new(alloc);
    for inlet in inlets {
        let number = numbers[senders.len()];
        senders.push(SenderInlet { number, inlet })?;
    }
    Ok(senders)
}

/// Offers all that a sender sends, in order, and ends its inlet.
pub fn send_all<P: Wait, G: Gate>(
    wait: &P,
    traces: &Traces,
    gate: &G,
    number: u16,
    inlet: Inlet,
) -> Inlet
    ensures sent { HasSent inlet (items_of (sent_by traces.now number)) result }
{
    let mut inlet = inlet;
    for n in 0..traces.count(number) {
        gate.before(number, n);
        if let Some(packet) = traces.sent(number, n) {
            offer(wait, &mut inlet, packet);
        }
    }
    inlet.end();
    inlet
}

// Offers a packet until its inlet accepts it. While the inlet is full, yields to other threads.
fn offer<P: Wait>(wait: &P, inlet: &mut Inlet, packet: Packet)
    ensures sent { HasSent inlet.old (packet_item packet.length 0 ∷ []) inlet.new }
{
    for _ in wait.forever() {
        match inlet.offer(packet.length, 0) {
            Ok(_) => return,
            Err(_) => {}
        }
        thread::yield_now();
    }
    unreachable!()
}

//! Whether a plan has the senders of a trace.

ghost use Rattle.std.specs.Prelude.{◌≡◌, ◌<◌, true, false, map, length, None, IfOk, IfErr};
ghost use Rattle.clk_packet.specs.declared.fault.Fault.TheVariants.{UnknownSender};
ghost use Rattle.clk_packet.specs.Trace.{sent_by};
ghost use Rattle.clk_packet.specs.Lists.{stands_in};
ghost use Rattle.clk_tree.specs.PlanParts.{number_of};
ghost use Rattle.clk_gate.specs.Known.{first_unknown, IsUnknownSender};

use clk_packet::{Fault, Traces};
use clk_tree::SenderSpec;

/// Fails unless each sender of the trace is one of these.
///
/// # Errors
///
/// Fault 15 with the least sender of the trace that is none of these.
pub fn check_senders(senders: &[SenderSpec], traces: &Traces) -> Result<(), Fault>
    ensures known { IfOk result (λ _. first_unknown (map number_of senders.now) traces.now ≡ None) }
    ensures fault { IfErr result (λ fault. IsUnknownSender (map number_of senders.now) traces.now fault) }
{
    for sender in 0..=u16::MAX {
        check_sender(senders, traces, sender)?;
    }
    Ok(())
}

// Fails with fault 15 unless a sender sends nothing or is one of these.
fn check_sender(senders: &[SenderSpec], traces: &Traces, sender: u16) -> Result<(), Fault>
    ensures known { IfOk result (λ _. 0 < length (sent_by traces.now sender) → stands_in sender (map number_of senders.now) ≡ true) }
    ensures fault { IfErr result (λ fault. (fault ≡ UnknownSender sender) × (0 < length (sent_by traces.now sender)) × (stands_in sender (map number_of senders.now) ≡ false)) }
{
    if traces.count(sender) == 0 {
        return Ok(());
    }
    if is_among(senders, sender) {
        return Ok(());
    }
    Err(Fault::UnknownSender { sender })
}

// Whether a sender is one of these.
fn is_among(senders: &[SenderSpec], number: u16) -> bool
    ensures { result ≡ stands_in number (map number_of senders.now) }
{
    let [first, rest @ ..] = senders else {
        return false;
    };
    if first.number == number {
        return true;
    }
    is_among(rest, number)
}

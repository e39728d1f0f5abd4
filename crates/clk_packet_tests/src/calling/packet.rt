//! A trace, read.

ghost use Rattle.std.specs.Prelude.{◌≡◌, Some, length, IfOk, IfErr};
ghost use Rattle.clk_packet.specs.Trace.{ExplainsTrace, pairs_of, sent};

use clk_packet::{Fault, FromRead, Traces};
use std::alloc::Global;

/// How many packets a sender sends by a trace that stands in memory.
pub fn packets_of(alloc: Global, trace: &[u8], sender: u16) -> Result<u32, Fault>
    ensures count { IfOk result (λ count. count ≡ length (sent sender (pairs_of trace.now))) }
    ensures fault { IfErr result (ExplainsTrace (Some trace.now)) }
{
    let mut reader = FromRead::new(trace);
    let traces = Traces::read_csv(alloc, &mut reader)?;
    Ok(traces.count(sender))
}

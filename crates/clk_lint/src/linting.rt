//! The warnings of a plan, written.

ghost use Rattle.std.specs.Prelude.{◌≡◌, ◌⊎◌, IfErr};
ghost use Rattle.clk_packet.specs.declared.fault.Fault.TheVariants.{Memory, Write};
ghost use Rattle.clk_packet.specs.Bytes.{write_failures};
ghost use Rattle.clk_packet.specs.Written.{WroteWhat};
ghost use Rattle.clk_lint.specs.Lines.{lint_text};
ghost use Rattle.clk_lint.specs.Load.{trace_of};

use crate::find::warnings;
use crate::lines::lines_of;
use clk_packet::{Fault, Sink, Traces, write_all};
use clk_tree::Plan;
use std::alloc::Global;

/// Writes a line for each warning of a plan, and of a trace if there is one (`warnings`). Without warnings it writes nothing.
///
/// # Errors
///
/// Fault 1 if an allocation fails, and then nothing is written. Fault 20 if the writer fails; it has then taken a front of the text.
pub fn lint<W: Sink>(
    alloc: Global,
    plan: &Plan,
    trace: Option<&Traces>,
    writer: &mut W,
) -> Result<(), Fault>
    ensures wrote { WroteWhat (λ text. text ≡ lint_text plan.now (trace_of trace.entry)) result (W.Sink.taken writer.old) (W.Sink.taken writer.new) }
    ensures fault { IfErr result (λ fault. (fault ≡ Memory) ⊎ (fault ≡ Write)) }
    ensures write_failures { W.Sink.failures writer.new ≡ write_failures result (W.Sink.failures writer.old) }
{
    let found = warnings(alloc, plan, trace)?;
    let text = lines_of(alloc, plan.elements(), &found)?;
    write_all(writer, &text)
}

//! Running one trace over a plan, with producers on threads.

ghost use Rattle.std.specs.Prelude.{◌≡◌, ◌+◌, true, map, IfOk, IfErr};
ghost use Rattle.clk_packet.specs.Bytes.{Takes, read_failures, write_failures};
ghost use Rattle.clk_packet.specs.declared.limits.TheConstants.{MAX_TRACE_BYTES};
ghost use Rattle.clk_sched.specs.Packed.{logged};
ghost use Rattle.clk_packet.specs.Written.{WroteWhat};
ghost use Rattle.clk_command.specs.Running.{ExplainsRun, RunWrites};

use clk_drain::{Free, Outcome, run_with, runs_account_for_emitted};
use clk_packet::{Fault, Sink, Source, Traces, keep_freed};
use clk_report::report_tallies;
use clk_sched::{Keeps, PackedLog};
use clk_tree::Plan;
use clk_words::Pace;
use std::alloc::Global;
use std::sync::Wait;
use std::thread::Threads;

/// Reads a trace to its end, runs it over a plan, and writes the report. A producer for each sender, on a thread of its own, offers what
/// the sender sends. Meanwhile each device is pulled at this pace. Then the devices are drained. Returns the log of each device, packed, if
/// `visits` is true; otherwise the process keeps freed blocks from then on (`keep_freed`).
///
/// # Errors
///
/// Fault 1 if an allocation fails or a thread can't be started. Otherwise, in this order:
/// - fault 19 if the reader fails;
/// - fault 18 for a trace of more than 33,554,432 bytes;
/// - the fault of the first record that has one: 18 for record 1,000,001, and 14 for one that isn't a sender and a length;
/// - fault 15 with the least sender that the plan doesn't have;
/// - fault 21 if a queue lost packets though it accepted fewer than its capacity;
/// - fault 20 if the writer fails. It has then taken a front of the report. At any other fault nothing is written.
pub fn run_trace<H: Threads + Wait, P: Wait + Sync, R: Source, W: Sink>(
    rt: &H,
    alloc: Global,
    wait: &P,
    plan: &Plan,
    trace: &mut R,
    writer: &mut W,
    pace: Pace,
    visits: bool,
) -> Result<Vec<PackedLog>, Fault>
    ensures wrote { WroteWhat (λ text. (logs : _) × IfOk result (λ answer. visits ≡ true → map logged answer.items ≡ logs)
        × RunWrites plan.now pace (R.Source.remaining trace.old) text logs)
        result (W.Sink.taken writer.old) (W.Sink.taken writer.new) }

    // Each fault has its cause.
    ensures fault { IfErr result (ExplainsRun plan.now (R.Source.remaining trace.old)) }
    ensures read_failures { R.Source.failures trace.new ≡ read_failures result (R.Source.failures trace.old) }
    ensures write_failures { W.Sink.failures writer.new ≡ write_failures result (W.Sink.failures writer.old) }

    // At most one byte past the limit is read.
    ensures limit { Takes (MAX_TRACE_BYTES + 1) (R.Source.remaining trace.old) (R.Source.remaining trace.new) }
{
    let traces = Traces::read_csv(alloc, trace)?;
    // Once the text of the trace is freed, so that the system has its memory back.
    if !visits {
        keep_freed(alloc);
    }
    let keeps = Keeps {
        visits: false,
        packed: visits,
        packets: false,
        latest: false,
    };
    let outcome = run_with(
        rt, alloc, wait, plan, &traces, pace.step, pace.limit, &Free, keeps,
    )?;
    let Outcome { logs, tallies, .. } = outcome;
    // This call does nothing: by its contract the tallies account for what was emitted.
    runs_account_for_emitted(plan);
    report_tallies(&tallies, writer)?;
    Ok(logs)
}

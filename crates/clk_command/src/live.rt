//! Running one trace over a plan, through inlets, and the record of the run.

ghost use Rattle.std.specs.Prelude.{◌≡◌, ◌≢◌, ◌+◌, true, Some, IfOk, IfErr, IsOkUnless};
ghost use Rattle.clk_packet.specs.Bytes.{Takes, read_failures, write_failures};
ghost use Rattle.clk_packet.specs.declared.limits.TheConstants.{MAX_TRACE_BYTES};
ghost use Rattle.clk_packet.specs.Written.{WroteWhat};
ghost use Rattle.clk_packet.specs.declared.fault.Fault.TheVariants.{Memory, Write};
ghost use Rattle.clk_script.specs.Meaning.{MeansOverWith, ending_text};
ghost use Rattle.clk_live_run.specs.Recorded.{failures_with};
ghost use Rattle.clk_command.specs.Running.{EndsIn, ExplainsLive, HasRecord, LiveWrites};

use crate::kept::Kept;
use clk_gate::Free;
use clk_live::Live;
use clk_live_run::{LiveOutcome, report_accounts, run_live};
use clk_packet::{Fault, FromRead, Sink, Source, ToWrite, Traces};
use clk_script::{
    Replay, plans_have_at_most_one_meaning, records_of_plans_mean_their_course, run_script_logged,
};
use clk_tree::Plan;
use clk_words::Pace;
use std::alloc::Global;
use std::io;
use std::sync::Wait;
use std::thread::Threads;

/// Reads a trace to its end, runs it over a plan through inlets, and writes the report. Each sender, on a thread of its own, offers what it
/// sends to an inlet. Meanwhile one consumer takes packets from the inlets and pulls each device at this pace. Then the devices are
/// drained.
///
/// If the run is to be recorded, `sink` takes the script of all that happens while senders send, and of the drain, as it happens. Returns
/// the sink, and whether it failed. A sink that failed has taken a front of the record, and the run went on without it.
///
/// # Errors
///
/// Fault 1 if an allocation fails or a thread can't be started. Otherwise, in this order:
/// - fault 19 if the reader fails;
/// - fault 18 for a trace of more than 33,554,432 bytes;
/// - the fault of the first record that has one: 18 for record 1,000,001, and 14 for one that isn't a sender and a length;
/// - fault 15 with the least sender that the plan doesn't have;
/// - fault 18 if the run is to be recorded and the packets of the trace, with the pulls that the pace allows, are 1,000,000 or more;
/// - fault 20 if the writer fails. It has then taken a front of the report. At any other fault nothing is written.
pub fn live_trace<H: Threads + Wait, P: Wait + Sync, S: Source, W: Sink, R: Sink + Drop>(
    rt: &H,
    alloc: Global,
    wait: &P,
    plan: &Plan,
    trace: &mut S,
    writer: &mut W,
    pace: Pace,
    recording: bool,
    sink: R,
) -> Result<(R, bool), Fault>
    ensures wrote { WroteWhat (λ text. (script : _) × LiveWrites plan.now pace (S.Source.remaining trace.old) recording text script
        × IfOk result (λ answer. HasRecord recording answer.1 (R.Sink.taken sink) (R.Sink.taken answer.0) script))
        result (W.Sink.taken writer.old) (W.Sink.taken writer.new) }
    ensures record_failures { IfOk result (λ answer. R.Sink.failures answer.0 ≡ failures_with answer.1 (R.Sink.failures sink)) }

    // Each fault has its cause.
    ensures fault { IfErr result (ExplainsLive plan.now (S.Source.remaining trace.old) pace.limit recording) }
    ensures read_failures { S.Source.failures trace.new ≡ read_failures result (S.Source.failures trace.old) }
    ensures write_failures { W.Sink.failures writer.new ≡ write_failures result (W.Sink.failures writer.old) }

    // At most one byte past the limit is read.
    ensures limit { Takes (MAX_TRACE_BYTES + 1) (S.Source.remaining trace.old) (S.Source.remaining trace.new) }
{
    let traces = Traces::read_csv(alloc, trace)?;
    let outcome = run_live(
        rt, alloc, wait, plan, &traces, pace.step, pace.limit, &Free, recording, sink,
    )?;
    // This law, which does nothing, says what the record means.
    records_of_plans_mean_their_course(plan);
    let LiveOutcome {
        live,
        sink,
        write_failed,
    } = outcome;
    report_accounts(live.router(), writer)?;
    Ok((sink, write_failed))
}

/// A run that was recorded in memory, and the `Replay` that writes the visits of its record.
#[derive(Drop)]
pub struct Replayed {
    pub live: Live,
    pub kept: Kept,
    pub replay: Replay,
}

/// Reads a trace to its end, runs it over a plan through inlets, and replays the record of the run.
///
/// # Errors
///
/// Those of `live_trace` for a run that is recorded, except 20.
pub fn replayed_trace<H: Threads + Wait, P: Wait + Sync, S: Source>(
    rt: &H,
    alloc: Global,
    wait: &P,
    plan: &Plan,
    trace: &mut S,
    pace: Pace,
) -> Result<Replayed, Fault>
    ensures writes { IfOk result (λ run. LiveWrites plan.now pace (S.Source.remaining trace.old) true (ending_text run.live.course.setup (Some 0) run.live.course.events) run.kept.bytes.items) }
    ensures replayed { IfOk result (λ run. EndsIn plan.now run.kept.bytes.items (ending_text run.live.course.setup (Some 0) run.live.course.events) run.replay) }
    ensures fault { IfErr result (ExplainsLive plan.now (S.Source.remaining trace.old) pace.limit true) }
    ensures not_write { IfErr result (λ fault. fault ≢ Write) }
    ensures read_failures { S.Source.failures trace.new ≡ read_failures result (S.Source.failures trace.old) }
    ensures limit { Takes (MAX_TRACE_BYTES + 1) (S.Source.remaining trace.old) (S.Source.remaining trace.new) }
{
    let traces = Traces::read_csv(alloc, trace)?;
    let outcome = run_live(
        rt,
        alloc,
        wait,
        plan,
        &traces,
        pace.step,
        pace.limit,
        &Free,
        true,
        Kept::new(alloc),
    )?;
    let LiveOutcome {
        live,
        sink,
        write_failed,
    } = outcome;
    if write_failed {
        return Err(Fault::Memory);
    }
    // These laws, which do nothing, say what the record means, and that it means nothing else.
    records_of_plans_mean_their_course(plan);
    plans_have_at_most_one_meaning(plan);
    let replay = replay(alloc, plan, &sink.bytes)?;
    Ok(Replayed {
        live,
        kept: sink,
        replay,
    })
}

/// Carries out a record, and returns a `Replay`, which writes its visits.
///
/// # Errors
///
/// Fault 1 if an allocation fails. There is no other fault: the record has none, and stands in memory.
fn replay(alloc: Global, plan: &Plan, script: &[u8]) -> Result<Replay, Fault>
    ensures logs { IfOk result (λ replay. (text : _) × MeansOverWith plan.now script.now text replay) }
    ensures fault { IsOkUnless result Memory }
{
    let mut nowhere = ToWrite::new(io::sink());
    match run_script_logged(alloc, &mut FromRead::new(script), &mut nowhere, plan) {
        Ok(replay) => Ok(replay),
        Err(_) => Err(Fault::Memory),
    }
}

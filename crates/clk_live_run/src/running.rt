//! Runs of a plan over a trace, through inlets.

ghost use Rattle.std.specs.Prelude.{◌≡◌, ◌≢◌, ◌+◌, ◌*◌, ◌<◌, ◌≤◌, true, ℕ, List, map, length, None, IfOk, IfErr, OnOk, IsErrOf};
ghost use Rattle.clk_packet.specs.declared.fault.Fault.TheVariants.{Memory, TooLarge};
ghost use Rattle.clk_gate.specs.declared.limits.TheConstants.{MAX_LIMIT, MAX_STEP};
ghost use Rattle.clk_gate.specs.Known.{senders_in, first_unknown};
ghost use Rattle.clk_gate.specs.Sent.{sent_in};
ghost use Rattle.clk_tree.specs.PlanParts.{number_of, senders_of};
ghost use Rattle.clk_tree.specs.PlanTree.{device_count};
ghost use Rattle.std.specs.List.{AllZip};
ghost use Rattle.clk_inlet.specs.Halves.{offered, taken, AreHalves};
ghost use Rattle.clk_live.specs.State.{seen};
ghost use Rattle.clk_live.specs.Outcome.{AreAllEnded, IsLiveOutcome};
ghost use Rattle.clk_router.specs.Course.{CanClose};
ghost use Rattle.clk_script.specs.declared.limits.TheConstants.{MAX_LINES};
ghost use Rattle.clk_script.specs.declared.script.Command.{Command};
ghost use Rattle.clk_live_run.specs.inside.Consuming.{HasClosed};
ghost use Rattle.clk_live_run.specs.inside.Counts.{capped};
ghost use Rattle.clk_live_run.specs.inside.Recording.{SinkAt, IsRecordOf, IsEnded};
ghost use Rattle.clk_live_run.specs.Run.{LiveRunOf, IsFaultOfLive, MayBeTooLong};
ghost use Rattle.clk_live_run.specs.Recorded.{IsRecorded, failures_with};

use crate::closing::close_devices;
use crate::consumer::RecordedLive;
use crate::outcome::LiveOutcome;
use crate::recording::Recording;
use crate::senders::senders_of;
use crate::threads::{Ended, LiveTerms, run_threads};
use clk_gate::{Gate, check_senders};
use clk_live::Live;
use clk_packet::{Fault, Sink, Traces};
use clk_script::MAX_LINES;
use clk_tree::{Plan, SenderSpec};
use std::alloc::Global;
use std::sync::Wait;
use std::thread::Threads;

/// How many packets an inlet has room for.
const ROOM: u32 = 1024;

/// Runs a plan over a trace through inlets. Each sender, on a thread of its own, offers all that it sends, in order. It yields to other
/// threads while its inlet is full. One consumer, on the calling thread, works in rounds. A round takes at most 64 packets of each sender.
/// In each of the first `limit` rounds every device is then pulled once, in the n-th at moment `n * step`. Once all that was sent is taken,
/// the devices are drained, one after the other.
///
/// If the run is to be recorded, the script of all that happens while senders send, and of the drain, is written to the sink as it happens.
/// The first write that fails ends the record, and the run goes on.
///
/// `step` is from 1 to 1,000, `limit` from 1 to 1,000,000.
///
/// # Errors
///
/// In this order; all threads have ended then:
/// - fault 15 with the least sender that the trace has and the plan has not;
/// - fault 18 if the run is to be recorded and its record may have more lines than a script;
/// - fault 1 if an allocation or the start of a thread fails.
pub fn run_live<H: Threads + Wait, P: Wait + Sync, G: Gate + Sync, R: Sink + Drop>(
    rt: &H,
    alloc: Global,
    wait: &P,
    plan: &Plan,
    traces: &Traces,
    step: u32,
    limit: u32,
    gate: &G,
    recording: bool,
    sink: R,
) -> Result<LiveOutcome<R>, Fault>
    requires step { (1 ≤ step) × (step ≤ MAX_STEP) }
    requires limit { (1 ≤ limit) × (limit ≤ MAX_LIMIT) }
    ensures ran { IfOk result (λ outcome. LiveRunOf plan.now traces.now step limit outcome.live.course (λ setup events closed. IsRecorded recording outcome.write_failed (R.Sink.taken sink) (R.Sink.taken outcome.sink) events)) }
    ensures known { IfOk result (λ _. first_unknown (senders_in plan.now) traces.now ≡ None) }
    ensures failures { IfOk result (λ outcome. R.Sink.failures outcome.sink ≡ failures_with outcome.write_failed (R.Sink.failures sink)) }
    ensures fault { IfErr result (IsFaultOfLive plan.now traces.now limit recording) }
{
    check_senders(plan.senders(), traces)?;
    if recording {
        check_length(plan, traces, limit)?;
    }
    // Counting packets brings into scope how many are sent in all.
    let _ = traces.count(0);
    let (live, inlets) = Live::open(alloc, plan, ROOM)?;
    let senders = senders_of(alloc, live.router().senders(), inlets)?;
    let consumer = RecordedLive {
        live,
        recording: Recording::new(recording, sink),
    };
    let terms = LiveTerms {
        wait,
        traces,
        gate,
        step,
        limit,
    };
    let ended = run_threads(rt, alloc, &terms, consumer, senders)?;
    Ok(close(wait, ended))
}

// Drains the devices of a run whose threads have ended, and ends its record.
fn close<P: Wait, R: Sink + Drop>(wait: &P, ended: Ended<R>) -> LiveOutcome<R>
    requires halves { AllZip AreHalves ended.inlets.items ended.consumer.live.outlets }
    requires ended { AreAllEnded ended.consumer.live.outlets }
    requires can { (seen ended.consumer.live).items ≡ map offered ended.inlets.items → (d : ℕ) → d < length ended.consumer.live.course.setup.trees → CanClose ended.consumer.live.course d 0 }
    ensures taken { (seen ended.consumer.live).items ≡ map offered ended.inlets.items }
    ensures closed { HasClosed (length ended.consumer.live.course.setup.trees) ended.consumer.live result.live }
    ensures outcome { IsLiveOutcome result.live.course (map taken result.live.outlets) }
    ensures recorded { (recording : _) (start : SinkAt) (commands : List Command) → IsRecordOf recording start ended.consumer.recording commands
        → IsEnded recording result.write_failed start (record { taken = R.Sink.taken result.sink; failures = R.Sink.failures result.sink }) commands }
{
    let Ended {
        consumer,
        mut inlets,
    } = ended;
    let RecordedLive {
        mut live,
        recording,
    } = consumer;
    // All that was sent is taken, so no more is left than a drain emits at most.
    let _ = live.has_taken_all(inlets.as_mut_slice());
    close_devices(wait, &mut live);
    let _ = live.is_drained();
    let (sink, write_failed) = recording.finish();
    LiveOutcome {
        live,
        sink,
        write_failed,
    }
}

// Fails with fault 18 if the record of a run may have more lines than a script.
fn check_length(plan: &Plan, traces: &Traces, limit: u32) -> Result<(), Fault>
    ensures fits { OnOk result (sent_in traces.now (map number_of (senders_of plan.now)) + device_count plan.now * limit + 1 ≤ MAX_LINES) }
    ensures too_long { IfErr result (λ fault. (fault ≡ TooLarge) × MayBeTooLong plan.now traces.now limit) }
{
    let pulls = u64::from(plan.devices()) * u64::from(limit);
    let sent = count_sent(plan.senders(), traces);
    if sent.saturating_add(pulls) >= u64::from(MAX_LINES) {
        return Err(Fault::TooLarge);
    }
    Ok(())
}

// How many packets these senders send together, or 2^64 - 1 if they are more.
fn count_sent(senders: &[SenderSpec], traces: &Traces) -> u64
    ensures { result ≡ capped (sent_in traces.now (map number_of senders.now)) }
{
    let mut count: u64 = 0;
    for sender in senders {
        count = count.saturating_add(u64::from(traces.count(sender.number)));
    }
    count
}

//! A run: producers on threads, a consumer for each device, and then the drain.

mod baton;
mod closing;
mod consumer;
mod devices;
mod joining;
mod open_lines;
mod opening;
mod producer;
mod terms;
mod threads;

ghost use Rattle.std.specs.Prelude.{◌≡◌, ◌≤◌, ◌<◌, true, false, [], None, IfOk, IfErr};
ghost use Rattle.clk_sched.specs.Keeps.{keeps_visits};
ghost use Rattle.clk_gate.specs.declared.limits.TheConstants.{MAX_STEP, MAX_LIMIT};
ghost use Rattle.clk_gate.specs.Known.{senders_in, first_unknown};
ghost use Rattle.clk_drain.specs.Run.{IsRunOutcome, IsKeptRun, IsFaultOfRun};

use crate::outcome::Outcome;
use crate::running::closing::close_devices;
use crate::running::devices::{OpenPlan, open_devices};
use crate::running::joining::join_devices;
use crate::running::terms::RunTerms;
use crate::running::threads::run_threads;
use clk_gate::{Gate, check_senders};
use clk_packet::{Fault, Traces};
use clk_sched::{Keeps, PackedLog};
use clk_tree::Plan;
use std::alloc::Global;
use std::sync::Wait;
use std::thread::Threads;

/// Runs a plan over a trace. For each sender there is a producer on a thread of its own: it offers all that the sender sends, in order, and
/// closes its seat. Meanwhile a consumer for each device pulls its tree, once each `step` ticks, until it has pulled `limit` times or all
/// producers are done. The first device's consumer runs on this thread, each other one on a thread of its own. Then all threads are joined,
/// and the devices are drained one after the other.
///
/// Whatever the threads do, of each sender exactly those packets are emitted that its queue accepted and didn't evict, each once, in the
/// order in which they were sent. Each device's log is a run of its tree over what the queues gave. Which packets are refused or evicted,
/// and how senders mix, depends on the threads.
///
/// `step` is from 1 to 1,000, `limit` from 1 to 1,000,000.
///
/// # Errors
///
/// Fault 1 if an allocation fails or a thread can't be started. Fault 15 with the least sender that the trace has and the plan hasn't,
/// before anything is opened. Fault 21 if a queue lost packets though it accepted fewer than its capacity. At every fault all threads have
/// ended, and nothing is returned.
pub fn run<R: Threads + Wait, W: Wait + Sync, G: Gate + Sync>(
    rt: &R,
    alloc: Global,
    wait: &W,
    plan: &Plan,
    traces: &Traces,
    step: u32,
    limit: u32,
    gate: &G,
) -> Result<Outcome, Fault>
    requires step { (1 ≤ step) × (step ≤ MAX_STEP) }
    requires limit { (1 ≤ limit) × (limit ≤ MAX_LIMIT) }
    ensures outcome { IfOk result (IsRunOutcome plan.now traces.now step limit) }
    ensures known { IfOk result (λ _. first_unknown (senders_in plan.now) traces.now ≡ None) }
    ensures fault { IfErr result (IsFaultOfRun plan.now traces.now) }
{
    run_keeping(rt, alloc, wait, plan, traces, step, limit, gate, Keeps::ALL)?.unpack(alloc)
}

/// Runs a plan over a trace as `run` does, and keeps only what `keeps` says. The outcome has logs if visits are kept, and the emitted
/// packets if these or visits are kept. It always has the tallies. Contracts say that each device made a run of its tree, which fixes what
/// it emitted, also where only contracts know its visits and what it emitted.
///
/// Packed visits take seven tenths of the memory of a list.
///
/// # Errors
///
/// Those of `run`.
pub fn run_with<R: Threads + Wait, W: Wait + Sync, G: Gate + Sync>(
    rt: &R,
    alloc: Global,
    wait: &W,
    plan: &Plan,
    traces: &Traces,
    step: u32,
    limit: u32,
    gate: &G,
    keeps: Keeps,
) -> Result<Outcome<PackedLog>, Fault>
    requires step { (1 ≤ step) × (step ≤ MAX_STEP) }
    requires limit { (1 ≤ limit) × (limit ≤ MAX_LIMIT) }
    ensures outcome { IfOk result (IsKeptRun keeps plan.now traces.now step limit) }
    ensures none { keeps_visits keeps ≡ false → IfOk result (λ outcome. outcome.logs.items ≡ []) }
    ensures known { IfOk result (λ _. first_unknown (senders_in plan.now) traces.now ≡ None) }
    ensures fault { IfErr result (IsFaultOfRun plan.now traces.now) }
{
    let outcome = run_keeping(rt, alloc, wait, plan, traces, step, limit, gate, keeps)?;
    Ok(kept(alloc, outcome, keeps.visits || keeps.packed))
}

/// Runs a plan over a trace as `run_with` does. If no visits are kept, the outcome has an empty log for each device.
///
/// # Errors
///
/// Those of `run`.
fn run_keeping<R: Threads + Wait, W: Wait + Sync, G: Gate + Sync>(
    rt: &R,
    alloc: Global,
    wait: &W,
    plan: &Plan,
    traces: &Traces,
    step: u32,
    limit: u32,
    gate: &G,
    keeps: Keeps,
) -> Result<Outcome<PackedLog>, Fault>
    requires step { (1 ≤ step) × (step ≤ MAX_STEP) }
    requires limit { (1 ≤ limit) × (limit ≤ MAX_LIMIT) }
    ensures outcome { IfOk result (IsKeptRun keeps plan.now traces.now step limit) }
    ensures known { IfOk result (λ _. first_unknown (senders_in plan.now) traces.now ≡ None) }
    ensures fault { IfErr result (IsFaultOfRun plan.now traces.now) }
{
    check_senders(plan.senders(), traces)?;
    // Counting packets brings into scope how many are sent in all.
    let _ = traces.count(0);
    let OpenPlan {
        queues,
        seats,
        ends,
    } = open_devices(alloc, plan, traces, keeps)?;
    let terms = RunTerms::new(wait, traces, gate, step, limit, plan.senders().len());
    let sent = run_threads(rt, alloc, &terms, &queues, seats, ends)?;
    let closings = join_devices(alloc, queues, sent.ends, sent.devices)?;
    close_devices(alloc, &terms, closings)
}

// This outcome, without its logs if no visits are kept.
fn kept(alloc: Global, outcome: Outcome<PackedLog>, visits: bool) -> Outcome<PackedLog>
    ensures emitted { result.emitted.items ≡ outcome.emitted.items }
    ensures tallies { result.tallies.items ≡ outcome.tallies.items }
    ensures logs { visits ≡ true → result.logs.items ≡ outcome.logs.items }
    ensures none { visits ≡ false → result.logs.items ≡ [] }
{
    if visits {
        return outcome;
    }
    let Outcome {
        emitted,
        tallies,
        ..
    } = outcome;
    Outcome {
        emitted,
        logs: Vec::new(alloc),
        tallies,
    }
}

//! What the laws of runs add to what a run returns.

ghost use Rattle.std.specs.Prelude.{IfOk};
ghost use Rattle.std.specs.List.{flat_map};
ghost use Rattle.clk_packet.specs.Dealt.{AccountFor};
ghost use Rattle.clk_drain.specs.Laws.{HoldNothing, LossesHaveLists};
ghost use Rattle.clk_drain.specs.Run.{IsRunOutcome};

use clk_drain::{
    Free, Outcome, losses_have_lists, run, runs_account_for_emitted, runs_hold_nothing,
};
use clk_packet::{Fault, Traces};
use clk_tree::Plan;
use std::alloc::Global;
use std::sync::Wait;
use std::thread::Threads;

/// Runs a trace over a plan, with a pull of each device in every tick, and adds what the laws of runs say. Afterwards no tree holds a
/// packet back, and the tallies account for all that was emitted. If a queue lost packets too early, there are lists of what the queues did
/// that agree with the fault.
pub fn run_by_the_laws<R: Threads + Wait, W: Wait + Sync>(
    rt: &R,
    alloc: Global,
    wait: &W,
    plan: &Plan,
    traces: &Traces,
) -> Result<Outcome, Fault>
    ensures laws { IfOk result (λ outcome. (run : IsRunOutcome plan.now traces.now 1 1000 outcome) × HoldNothing run.devices
        × AccountFor (flat_map (λ packets. packets.items) outcome.emitted.items) outcome.tallies.items) }
    ensures lists { LossesHaveLists plan.now traces.now }
{
    // These three calls do nothing: their contracts are the laws.
    runs_hold_nothing(plan);
    runs_account_for_emitted(plan);
    losses_have_lists(plan, traces);
    run(rt, alloc, wait, plan, traces, 1, 1000, &Free)
}

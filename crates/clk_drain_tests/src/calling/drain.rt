//! A run of producers on threads.

ghost use Rattle.std.specs.Prelude.{◌≡◌, List, map, IfOk, IfErr, MatchOption};
ghost use Rattle.std.specs.List.{AllByRecursion, AllZip, range_with_len};
ghost use Rattle.clk_packet.specs.Lists.{of_sender};
ghost use Rattle.clk_ruled.specs.Queue.{IsDealt};
ghost use Rattle.clk_tree.specs.PlanTree.{device_count};
ghost use Rattle.clk_drain.specs.Outcome.{Device, tally_for};
ghost use Rattle.clk_drain.specs.Run.{IsDeviceOf, IsFaultOfRun};

use clk_drain::{Free, Outcome, run};
use clk_packet::{Fault, Traces};
use clk_tree::Plan;
use std::alloc::Global;
use std::sync::Wait;
use std::thread::Threads;

/// Runs a trace over a plan, with a pull of each device in every tick, at most 1,000 pulls. Whatever the threads do, each packet of a
/// sender that its queue accepted was evicted by the queue or emitted by its device, both in order.
pub fn run_each_tick<R: Threads + Wait, W: Wait + Sync>(
    rt: &R,
    alloc: Global,
    wait: &W,
    plan: &Plan,
    traces: &Traces,
) -> Result<Outcome, Fault>
    ensures emitted { IfOk result (λ outcome. (devices : List Device) × AllZip (IsDeviceOf plan.now) (range_with_len 0 (device_count plan.now)) devices
        × (map (λ packets. packets.items) outcome.emitted.items ≡ map (λ d. d.emitted) devices)
        × AllByRecursion (λ d. AllByRecursion (λ q. AllByRecursion (λ s. MatchOption (tally_for outcome.tallies.items s) ⊥
        (λ t. IsDealt t.accepted t.evicted (of_sender t.sender d.emitted))) q.senders) d.queues) devices) }
    ensures fault { IfErr result (IsFaultOfRun plan.now traces.now) }
{
    run(rt, alloc, wait, plan, traces, 1, 1000, &Free)
}

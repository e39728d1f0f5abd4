//! What each command does, over values that stand for its files: sources of a tree, and of a script or a trace, and a sink for the visits.

ghost use Rattle.std.specs.Prelude.{◌≡◌, ◌≢◌, ◌+◌, ◌⊎◌, true, false, map, Some, IfOk, IfErr, OnOk};
ghost use Rattle.std.specs.Io.KnownBytes.{Appends};
ghost use Rattle.clk_packet.specs.Bytes.{AppendsFront, Takes, read_failures, write_failures};
ghost use Rattle.clk_packet.specs.declared.limits.TheConstants.{MAX_TRACE_BYTES};
ghost use Rattle.clk_packet.specs.declared.fault.Fault.TheVariants.{Write};
ghost use Rattle.clk_report.specs.VisitCsv.{visits_text};
ghost use Rattle.clk_sched.specs.Packed.{logged};
ghost use Rattle.clk_script.specs.Meaning.{ExplainsPlan, ending_text};
ghost use Rattle.clk_script.specs.declared.limits.TheConstants.{MAX_SCRIPT_BYTES};
ghost use Rattle.clk_syntax.specs.declared.limits.TheConstants.{MAX_TREE_BYTES};
ghost use Rattle.clk_packet.specs.Written.{WroteWhat};
ghost use Rattle.clk_command.specs.Tasks.{IsPlanIn, IsCanonicalOf, ExplainsTree, WritesOver, WritesWithVisits, ReportsOver, ReportsWithVisits, LivesOver, LivesWithVisits, WasTreeRead, WroteBetween, WroteBoth, ExplainsOver};
ghost use Rattle.clk_command.specs.Running.{ExplainsRun, ExplainsLive, HasRecord};

use crate::live::{Replayed, live_trace, replayed_trace};
use crate::running::run_trace;
use clk_live_run::report_accounts;
use clk_packet::{Fault, Sink, Source, read_up_to, write_all};
use clk_report::visits_csv;
use clk_sched::PackedLog;
use clk_script::{Replay, run_script, run_script_logged};
use clk_syntax::MAX_TREE_BYTES;
use clk_tree::Plan;
use clk_words::Pace;
use std::alloc::Global;
use std::sync::Wait;
use std::thread::Threads;

/// Reads the plan of a tree text. Reads at most one byte past the limit of 1,048,576 bytes.
///
/// # Errors
///
/// Fault 1 if an allocation fails. Otherwise fault 19 if the source fails, and then the faults of the text, as of `Plan::read`.
pub fn read_plan<T: Source>(alloc: Global, tree: &mut T) -> Result<Plan, Fault>
    ensures plan { IfOk result (IsPlanIn (T.Source.remaining tree.old)) }
    ensures fault { IfErr result (ExplainsTree (T.Source.remaining tree.old)) }
    ensures failures { T.Source.failures tree.new ≡ read_failures result (T.Source.failures tree.old) }
    ensures not_write { IfErr result (λ fault. fault ≢ Write) }
    ensures limit { Takes (MAX_TREE_BYTES + 1) (T.Source.remaining tree.old) (T.Source.remaining tree.new) }
{
    let text = read_up_to(alloc, tree, MAX_TREE_BYTES + 1)?;
    Plan::read(alloc, &text)
}

/// Checks a tree, and writes its canonical text.
///
/// # Errors
///
/// Those of `read_plan`, at which nothing is written. Fault 20 if the writer fails; it has then taken a front of the text.
pub fn check_tree<T: Source, W: Sink>(
    alloc: Global,
    tree: &mut T,
    writer: &mut W,
) -> Result<(), Fault>
    ensures wrote { WroteWhat (IsCanonicalOf (T.Source.remaining tree.old)) result (W.Sink.taken writer.old) (W.Sink.taken writer.new) }
    ensures fault { IfErr result (λ fault. (fault ≡ Write) ⊎ ExplainsTree (T.Source.remaining tree.old) fault) }
    ensures read_failures { T.Source.failures tree.new ≡ read_failures result (T.Source.failures tree.old) }
    ensures write_failures { W.Sink.failures writer.new ≡ write_failures result (W.Sink.failures writer.old) }
    ensures limit { Takes (MAX_TREE_BYTES + 1) (T.Source.remaining tree.old) (T.Source.remaining tree.new) }
{
    let text = read_plan(alloc, tree)?.write(alloc)?;
    write_all(writer, &text)
}

/// Runs a script over a tree. Reads and checks the tree before it reads any byte of the script.
///
/// # Errors
///
/// Those of `read_plan`, and then those of `run_script`. At any other fault than 20 nothing is written.
pub fn script_over<T: Source, S: Source, W: Sink>(
    alloc: Global,
    tree: &mut T,
    script: &mut S,
    writer: &mut W,
) -> Result<(), Fault>
    ensures wrote { WroteWhat (WritesOver (T.Source.remaining tree.old) (S.Source.remaining script.old))
        result (W.Sink.taken writer.old) (W.Sink.taken writer.new) }
    ensures fault { IfErr result (ExplainsOver (T.Source.remaining tree.old) (λ plan. ExplainsPlan plan (S.Source.remaining script.old))) }
    // A read of one of the two failed exactly if the fault is 19.
    ensures read_failures { T.Source.failures tree.new + S.Source.failures script.new
        ≡ read_failures result (T.Source.failures tree.old + S.Source.failures script.old) }
    ensures write_failures { W.Sink.failures writer.new ≡ write_failures result (W.Sink.failures writer.old) }
    // At most one byte past its limit is read from each source.
    ensures tree_limit { Takes (MAX_TREE_BYTES + 1) (T.Source.remaining tree.old) (T.Source.remaining tree.new) }
    ensures script_limit { Takes (MAX_SCRIPT_BYTES + 1) (S.Source.remaining script.old) (S.Source.remaining script.new) }
    // The script is unchanged, unless the tree was read.
    ensures script_unread { (script.new ≡ script.old) ⊎ WasTreeRead (T.Source.remaining tree.old) (T.Source.failures tree.old) (T.Source.failures tree.new) }
{
    let plan = read_plan(alloc, tree)?;
    run_script(alloc, script, writer, &plan)
}

/// Runs a script over a tree as `script_over` does, and writes its visits after the answer, as CSV.
///
/// # Errors
///
/// Those of `script_over`. Fault 20 also if the sink of the visits fails, after the whole answer. At any other fault than 20 nothing is
/// written.
pub fn script_with_visits<T: Source, S: Source, W: Sink, V: Sink>(
    alloc: Global,
    tree: &mut T,
    script: &mut S,
    writer: &mut W,
    visits: &mut V,
) -> Result<(), Fault>
    ensures wrote { WroteBoth (WritesWithVisits (T.Source.remaining tree.old) (S.Source.remaining script.old))
        (W.Sink.taken writer.old) (W.Sink.taken writer.new) result V.Sink.taken visits.old visits.new }
    ensures fault { IfErr result (ExplainsOver (T.Source.remaining tree.old) (λ plan. ExplainsPlan plan (S.Source.remaining script.old))) }
    // A read of one of the two failed exactly if the fault is 19.
    ensures read_failures { T.Source.failures tree.new + S.Source.failures script.new
        ≡ read_failures result (T.Source.failures tree.old + S.Source.failures script.old) }
    ensures write_failures { ((W.Sink.failures writer.new ≡ write_failures result (W.Sink.failures writer.old)) × (V.Sink.failures visits.new ≡ V.Sink.failures visits.old))
        ⊎ ((W.Sink.failures writer.new ≡ W.Sink.failures writer.old) × (V.Sink.failures visits.new ≡ write_failures result (V.Sink.failures visits.old))) }
    // At most one byte past its limit is read from each source.
    ensures tree_limit { Takes (MAX_TREE_BYTES + 1) (T.Source.remaining tree.old) (T.Source.remaining tree.new) }
    ensures script_limit { Takes (MAX_SCRIPT_BYTES + 1) (S.Source.remaining script.old) (S.Source.remaining script.new) }
    // The script is unchanged, unless the tree was read.
    ensures script_unread { (script.new ≡ script.old) ⊎ WasTreeRead (T.Source.remaining tree.old) (T.Source.failures tree.old) (T.Source.failures tree.new) }
{
    let replay = script_logged(alloc, tree, script, writer)?;
    replay.write(visits)
}

/// Runs a script over a tree as `script_over` does, with its faults. Returns a `Replay`, which writes its visits.
pub fn script_logged<T: Source, S: Source, W: Sink>(
    alloc: Global,
    tree: &mut T,
    script: &mut S,
    writer: &mut W,
) -> Result<Replay, Fault>
    ensures wrote { WroteWhat (λ text. (visits : _) × IfOk result (λ replay. visits_text replay ≡ visits)
        × WritesWithVisits (T.Source.remaining tree.old) (S.Source.remaining script.old) text visits)
        result (W.Sink.taken writer.old) (W.Sink.taken writer.new) }
    ensures fault { IfErr result (ExplainsOver (T.Source.remaining tree.old) (λ plan. ExplainsPlan plan (S.Source.remaining script.old))) }
    // A read of one of the two failed exactly if the fault is 19.
    ensures read_failures { T.Source.failures tree.new + S.Source.failures script.new
        ≡ read_failures result (T.Source.failures tree.old + S.Source.failures script.old) }
    ensures write_failures { W.Sink.failures writer.new ≡ write_failures result (W.Sink.failures writer.old) }
    // At most one byte past its limit is read from each source.
    ensures tree_limit { Takes (MAX_TREE_BYTES + 1) (T.Source.remaining tree.old) (T.Source.remaining tree.new) }
    ensures script_limit { Takes (MAX_SCRIPT_BYTES + 1) (S.Source.remaining script.old) (S.Source.remaining script.new) }
    // The script is unchanged, unless the tree was read.
    ensures script_unread { (script.new ≡ script.old) ⊎ WasTreeRead (T.Source.remaining tree.old) (T.Source.failures tree.old) (T.Source.failures tree.new) }
{
    let plan = read_plan(alloc, tree)?;
    run_script_logged(alloc, script, writer, &plan)
}

/// Runs a trace over a tree, and writes the report. Reads and checks the tree before it reads any byte of the trace.
///
/// # Errors
///
/// Those of `read_plan`, and then those of `run_trace`. At any other fault than 20 nothing is written.
pub fn run_over<H: Threads + Wait, P: Wait + Sync, T: Source, S: Source, W: Sink>(
    rt: &H,
    alloc: Global,
    wait: &P,
    tree: &mut T,
    trace: &mut S,
    writer: &mut W,
    pace: Pace,
) -> Result<(), Fault>
    ensures wrote { WroteWhat (ReportsOver (T.Source.remaining tree.old) (S.Source.remaining trace.old) pace)
        result (W.Sink.taken writer.old) (W.Sink.taken writer.new) }
    ensures fault { IfErr result (ExplainsOver (T.Source.remaining tree.old) (λ plan. ExplainsRun plan (S.Source.remaining trace.old))) }
    // A read of one of the two failed exactly if the fault is 19.
    ensures read_failures { T.Source.failures tree.new + S.Source.failures trace.new
        ≡ read_failures result (T.Source.failures tree.old + S.Source.failures trace.old) }
    ensures write_failures { W.Sink.failures writer.new ≡ write_failures result (W.Sink.failures writer.old) }
    // At most one byte past its limit is read from each source.
    ensures tree_limit { Takes (MAX_TREE_BYTES + 1) (T.Source.remaining tree.old) (T.Source.remaining tree.new) }
    ensures trace_limit { Takes (MAX_TRACE_BYTES + 1) (S.Source.remaining trace.old) (S.Source.remaining trace.new) }
    // The trace is unchanged, unless the tree was read.
    ensures trace_unread { (trace.new ≡ trace.old) ⊎ WasTreeRead (T.Source.remaining tree.old) (T.Source.failures tree.old) (T.Source.failures tree.new) }
{
    let plan = read_plan(alloc, tree)?;
    let _ = run_trace(rt, alloc, wait, &plan, trace, writer, pace, false)?;
    Ok(())
}

/// Runs a trace over a tree as `run_over` does, and writes its visits after the report, as CSV.
///
/// # Errors
///
/// Those of `run_over`. Fault 20 also if the sink of the visits fails, after the whole report. At any other fault than 20 nothing is
/// written.
pub fn run_with_visits<H: Threads + Wait, P: Wait + Sync, T: Source, S: Source, W: Sink, V: Sink>(
    rt: &H,
    alloc: Global,
    wait: &P,
    tree: &mut T,
    trace: &mut S,
    writer: &mut W,
    pace: Pace,
    visits: &mut V,
) -> Result<(), Fault>
    ensures wrote { WroteBoth (ReportsWithVisits (T.Source.remaining tree.old) (S.Source.remaining trace.old) pace)
        (W.Sink.taken writer.old) (W.Sink.taken writer.new) result V.Sink.taken visits.old visits.new }
    ensures fault { IfErr result (ExplainsOver (T.Source.remaining tree.old) (λ plan. ExplainsRun plan (S.Source.remaining trace.old))) }
    // A read of one of the two failed exactly if the fault is 19.
    ensures read_failures { T.Source.failures tree.new + S.Source.failures trace.new
        ≡ read_failures result (T.Source.failures tree.old + S.Source.failures trace.old) }
    ensures write_failures { ((W.Sink.failures writer.new ≡ write_failures result (W.Sink.failures writer.old)) × (V.Sink.failures visits.new ≡ V.Sink.failures visits.old))
        ⊎ ((W.Sink.failures writer.new ≡ W.Sink.failures writer.old) × (V.Sink.failures visits.new ≡ write_failures result (V.Sink.failures visits.old))) }
    // At most one byte past its limit is read from each source.
    ensures tree_limit { Takes (MAX_TREE_BYTES + 1) (T.Source.remaining tree.old) (T.Source.remaining tree.new) }
    ensures trace_limit { Takes (MAX_TRACE_BYTES + 1) (S.Source.remaining trace.old) (S.Source.remaining trace.new) }
    // The trace is unchanged, unless the tree was read.
    ensures trace_unread { (trace.new ≡ trace.old) ⊎ WasTreeRead (T.Source.remaining tree.old) (T.Source.failures tree.old) (T.Source.failures tree.new) }
{
    let logs = run_logged(rt, alloc, wait, tree, trace, writer, pace)?;
    visits_csv(&logs, visits)
}

/// Runs a trace over a tree as `run_over` does, with its faults. Returns the log of each device, packed.
pub fn run_logged<H: Threads + Wait, P: Wait + Sync, T: Source, S: Source, W: Sink>(
    rt: &H,
    alloc: Global,
    wait: &P,
    tree: &mut T,
    trace: &mut S,
    writer: &mut W,
    pace: Pace,
) -> Result<Vec<PackedLog>, Fault>
    ensures wrote { WroteWhat (λ text. (visits : _) × IfOk result (λ logs. visits_text (map logged logs.items) ≡ visits)
        × ReportsWithVisits (T.Source.remaining tree.old) (S.Source.remaining trace.old) pace text visits)
        result (W.Sink.taken writer.old) (W.Sink.taken writer.new) }
    ensures fault { IfErr result (ExplainsOver (T.Source.remaining tree.old) (λ plan. ExplainsRun plan (S.Source.remaining trace.old))) }
    // A read of one of the two failed exactly if the fault is 19.
    ensures read_failures { T.Source.failures tree.new + S.Source.failures trace.new
        ≡ read_failures result (T.Source.failures tree.old + S.Source.failures trace.old) }
    ensures write_failures { W.Sink.failures writer.new ≡ write_failures result (W.Sink.failures writer.old) }
    // At most one byte past its limit is read from each source.
    ensures tree_limit { Takes (MAX_TREE_BYTES + 1) (T.Source.remaining tree.old) (T.Source.remaining tree.new) }
    ensures trace_limit { Takes (MAX_TRACE_BYTES + 1) (S.Source.remaining trace.old) (S.Source.remaining trace.new) }
    // The trace is unchanged, unless the tree was read.
    ensures trace_unread { (trace.new ≡ trace.old) ⊎ WasTreeRead (T.Source.remaining tree.old) (T.Source.failures tree.old) (T.Source.failures tree.new) }
{
    let plan = read_plan(alloc, tree)?;
    run_trace(rt, alloc, wait, &plan, trace, writer, pace, true)
}

/// Runs a trace through inlets over a tree, and writes the report. Reads and checks the tree before it reads any byte of the trace. If the
/// run is to be recorded, `sink` takes its record, as it happens. Returns `sink`.
///
/// # Errors
///
/// Those of `read_plan`, and then those of `live_trace`. Fault 20 also if `sink` failed, after the whole report. At any other fault than 20
/// nothing is written to `writer`.
pub fn live_over<H: Threads + Wait, P: Wait + Sync, T: Source, S: Source, W: Sink, R: Sink + Drop>(
    rt: &H,
    alloc: Global,
    wait: &P,
    tree: &mut T,
    trace: &mut S,
    writer: &mut W,
    pace: Pace,
    recording: bool,
    sink: R,
) -> Result<R, Fault>
    // At fault 20 the writer failed, or has the whole report.
    ensures wrote { WroteWhat (λ text. (script : _) × LivesOver (T.Source.remaining tree.old) (S.Source.remaining trace.old) pace recording text script
        × IfOk result (λ answer. HasRecord recording false (R.Sink.taken sink) (R.Sink.taken answer) script)
        × ((W.Sink.failures writer.new ≡ write_failures result (W.Sink.failures writer.old)) ⊎ Appends (W.Sink.taken writer.old) (W.Sink.taken writer.new) text))
        result (W.Sink.taken writer.old) (W.Sink.taken writer.new) }
    ensures fault { IfErr result (ExplainsOver (T.Source.remaining tree.old) (λ plan. ExplainsLive plan (S.Source.remaining trace.old) pace.limit recording)) }
    // A read of one of the two failed exactly if the fault is 19.
    ensures read_failures { T.Source.failures tree.new + S.Source.failures trace.new
        ≡ read_failures result (T.Source.failures tree.old + S.Source.failures trace.old) }
    ensures write_failures { (W.Sink.failures writer.new ≡ W.Sink.failures writer.old)
        ⊎ (W.Sink.failures writer.new ≡ write_failures result (W.Sink.failures writer.old)) }
    ensures record_failures { IfOk result (λ answer. R.Sink.failures answer ≡ R.Sink.failures sink) }
    // At most one byte past its limit is read from each source.
    ensures tree_limit { Takes (MAX_TREE_BYTES + 1) (T.Source.remaining tree.old) (T.Source.remaining tree.new) }
    ensures trace_limit { Takes (MAX_TRACE_BYTES + 1) (S.Source.remaining trace.old) (S.Source.remaining trace.new) }
    // The trace is unchanged, unless the tree was read.
    ensures trace_unread { (trace.new ≡ trace.old) ⊎ WasTreeRead (T.Source.remaining tree.old) (T.Source.failures tree.old) (T.Source.failures tree.new) }
{
    let plan = read_plan(alloc, tree)?;
    let (sink, failed) = live_trace(rt, alloc, wait, &plan, trace, writer, pace, recording, sink)?;
    if failed {
        return Err(Fault::Write);
    }
    Ok(sink)
}

/// Runs a trace through inlets over a tree, and writes the report, then the record of the run to `script`, and then its visits to `visits`,
/// as CSV. The run is recorded in memory, and its record is replayed before anything is written.
///
/// # Errors
///
/// Those of `live_over` for a run that is recorded. Fault 20 also if `script` fails, after the whole report, or `visits`, after the whole
/// report and the whole script. At any other fault than 20 nothing is written.
pub fn live_with_visits<
    H: Threads + Wait,
    P: Wait + Sync,
    T: Source,
    S: Source,
    W: Sink,
    R: Sink,
    V: Sink,
>(
    rt: &H,
    alloc: Global,
    wait: &P,
    tree: &mut T,
    trace: &mut S,
    writer: &mut W,
    pace: Pace,
    script: &mut R,
    visits: &mut V,
) -> Result<(), Fault>
    ensures wrote { WroteBoth (λ text rows. (lines : _) × LivesWithVisits (T.Source.remaining tree.old) (S.Source.remaining trace.old) pace text lines rows
        × WroteBetween lines result R.Sink.taken script.old script.new (Appends (W.Sink.taken writer.old) (W.Sink.taken writer.new) text) (visits.new ≡ visits.old))
        (W.Sink.taken writer.old) (W.Sink.taken writer.new) result V.Sink.taken visits.old visits.new }
    ensures unrecorded { IfErr result (λ fault. fault ≢ Write → script.new ≡ script.old) }
    ensures fault { IfErr result (ExplainsOver (T.Source.remaining tree.old) (λ plan. ExplainsLive plan (S.Source.remaining trace.old) pace.limit true)) }
    // A read of one of the two failed exactly if the fault is 19.
    ensures read_failures { T.Source.failures tree.new + S.Source.failures trace.new
        ≡ read_failures result (T.Source.failures tree.old + S.Source.failures trace.old) }
    // A write of one of the three failed exactly if the fault is 20.
    ensures write_failures { W.Sink.failures writer.new + R.Sink.failures script.new + V.Sink.failures visits.new
        ≡ write_failures result (W.Sink.failures writer.old + R.Sink.failures script.old + V.Sink.failures visits.old) }
    ensures write_failed { (W.Sink.failures writer.new ≡ W.Sink.failures writer.old)
        ⊎ (W.Sink.failures writer.new ≡ write_failures result (W.Sink.failures writer.old)) }
    // At most one byte past its limit is read from each source.
    ensures tree_limit { Takes (MAX_TREE_BYTES + 1) (T.Source.remaining tree.old) (T.Source.remaining tree.new) }
    ensures trace_limit { Takes (MAX_TRACE_BYTES + 1) (S.Source.remaining trace.old) (S.Source.remaining trace.new) }
    // The trace is unchanged, unless the tree was read.
    ensures trace_unread { (trace.new ≡ trace.old) ⊎ WasTreeRead (T.Source.remaining tree.old) (T.Source.failures tree.old) (T.Source.failures tree.new) }
{
    let run = live_replayed(rt, alloc, wait, tree, trace, pace)?;
    report_accounts(run.live.router(), writer)?;
    write_all(script, &run.kept.bytes)?;
    run.replay.write(visits)
}

/// Runs a trace through inlets over a tree, and replays the record of the run. Writes nothing.
///
/// # Errors
///
/// Those of `live_over` for a run that is recorded, except 20.
pub fn live_replayed<H: Threads + Wait, P: Wait + Sync, T: Source, S: Source>(
    rt: &H,
    alloc: Global,
    wait: &P,
    tree: &mut T,
    trace: &mut S,
    pace: Pace,
) -> Result<Replayed, Fault>
    ensures lives { IfOk result (λ run. LivesWithVisits (T.Source.remaining tree.old) (S.Source.remaining trace.old) pace
        (ending_text run.live.course.setup (Some 0) run.live.course.events) run.kept.bytes.items (visits_text run.replay)) }
    ensures fault { IfErr result (ExplainsOver (T.Source.remaining tree.old) (λ plan. ExplainsLive plan (S.Source.remaining trace.old) pace.limit true)) }
    ensures not_write { IfErr result (λ fault. fault ≢ Write) }
    // A read of one of the two failed exactly if the fault is 19.
    ensures read_failures { T.Source.failures tree.new + S.Source.failures trace.new
        ≡ read_failures result (T.Source.failures tree.old + S.Source.failures trace.old) }
    // At most one byte past its limit is read from each source.
    ensures tree_limit { Takes (MAX_TREE_BYTES + 1) (T.Source.remaining tree.old) (T.Source.remaining tree.new) }
    ensures trace_limit { Takes (MAX_TRACE_BYTES + 1) (S.Source.remaining trace.old) (S.Source.remaining trace.new) }
    // The trace is unchanged, unless the tree was read.
    ensures trace_unread { (trace.new ≡ trace.old) ⊎ WasTreeRead (T.Source.remaining tree.old) (T.Source.failures tree.old) (T.Source.failures tree.new) }
{
    let plan = read_plan(alloc, tree)?;
    replayed_trace(rt, alloc, wait, &plan, trace, pace)
}

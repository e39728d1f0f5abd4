//! Tasks whose visits follow the answer, in the same sink.

ghost use Rattle.std.specs.Prelude.{◌≡◌, ◌≢◌, ◌+◌, ◌++◌, ◌⊎◌, true, IfErr};
ghost use Rattle.std.specs.Io.KnownBytes.{Appends};
ghost use Rattle.clk_packet.specs.Bytes.{AppendsFront, Takes, read_failures, write_failures};
ghost use Rattle.clk_packet.specs.declared.limits.TheConstants.{MAX_TRACE_BYTES};
ghost use Rattle.clk_packet.specs.declared.fault.Fault.TheVariants.{Write};
ghost use Rattle.clk_script.specs.declared.limits.TheConstants.{MAX_SCRIPT_BYTES};
ghost use Rattle.clk_syntax.specs.declared.limits.TheConstants.{MAX_TREE_BYTES};
ghost use Rattle.clk_packet.specs.Written.{WroteWhat};
ghost use Rattle.clk_command.specs.Tasks.{AreTogether, LivesWithVisits, ReportsWithVisits, WasTreeRead, WritesWithVisits, WroteBetween, ExplainsOver};
ghost use Rattle.clk_script.specs.Meaning.{ExplainsPlan};
ghost use Rattle.clk_command.specs.Running.{ExplainsRun, ExplainsLive};

use crate::live::Replayed;
use crate::over::{live_replayed, run_logged, script_logged};
use clk_live_run::report_accounts;
use clk_packet::{Fault, Sink, Source, write_all};
use clk_report::visits_csv;
use clk_words::Pace;
use std::alloc::Global;
use std::sync::Wait;
use std::thread::Threads;

/// Runs a script over a tree as `script_over` does, and writes its visits after the answer to the same sink, as CSV.
///
/// # Errors
///
/// Those of `script_over`. If the sink fails, it has taken a beginning of the answer with the visits after it.
pub fn script_then_visits<T: Source, S: Source, W: Sink>(
    alloc: Global,
    tree: &mut T,
    script: &mut S,
    writer: &mut W,
) -> Result<(), Fault>
    ensures wrote { WroteWhat (AreTogether (WritesWithVisits (T.Source.remaining tree.old) (S.Source.remaining script.old)))
        result (W.Sink.taken writer.old) (W.Sink.taken writer.new) }
    ensures fault { IfErr result (ExplainsOver (T.Source.remaining tree.old) (λ plan. ExplainsPlan plan (S.Source.remaining script.old))) }
    // A read of one of the two failed exactly if the fault is 19.
    ensures read_failures { T.Source.failures tree.new + S.Source.failures script.new
        ≡ read_failures result (T.Source.failures tree.old + S.Source.failures script.old) }
    ensures write_failures { W.Sink.failures writer.new ≡ write_failures result (W.Sink.failures writer.old) }
    // At most one byte past its limit is read from each source.
    ensures tree_limit { Takes (MAX_TREE_BYTES + 1) (T.Source.remaining tree.old) (T.Source.remaining tree.new) }
    ensures script_limit { Takes (MAX_SCRIPT_BYTES + 1) (S.Source.remaining script.old) (S.Source.remaining script.new) }
    // The script is unchanged, unless the tree was read.
    ensures script_unread { (script.new ≡ script.old) ⊎ WasTreeRead (T.Source.remaining tree.old) (T.Source.failures tree.old) (T.Source.failures tree.new) }
{
    let replay = script_logged(alloc, tree, script, writer)?;
    replay.write(writer)
}

/// Runs a trace over a tree as `run_over` does, and writes its visits after the report to the same sink, as CSV.
///
/// # Errors
///
/// Those of `run_over`. If the sink fails, it has taken a beginning of the report with the visits after it.
pub fn run_then_visits<H: Threads + Wait, P: Wait + Sync, T: Source, S: Source, W: Sink>(
    rt: &H,
    alloc: Global,
    wait: &P,
    tree: &mut T,
    trace: &mut S,
    writer: &mut W,
    pace: Pace,
) -> Result<(), Fault>
    ensures wrote { WroteWhat (AreTogether (ReportsWithVisits (T.Source.remaining tree.old) (S.Source.remaining trace.old) pace))
        result (W.Sink.taken writer.old) (W.Sink.taken writer.new) }
    ensures fault { IfErr result (ExplainsOver (T.Source.remaining tree.old) (λ plan. ExplainsRun plan (S.Source.remaining trace.old))) }
    // A read of one of the two failed exactly if the fault is 19.
    ensures read_failures { T.Source.failures tree.new + S.Source.failures trace.new
        ≡ read_failures result (T.Source.failures tree.old + S.Source.failures trace.old) }
    ensures write_failures { W.Sink.failures writer.new ≡ write_failures result (W.Sink.failures writer.old) }
    // At most one byte past its limit is read from each source.
    ensures tree_limit { Takes (MAX_TREE_BYTES + 1) (T.Source.remaining tree.old) (T.Source.remaining tree.new) }
    ensures trace_limit { Takes (MAX_TRACE_BYTES + 1) (S.Source.remaining trace.old) (S.Source.remaining trace.new) }
    // The trace is unchanged, unless the tree was read.
    ensures trace_unread { (trace.new ≡ trace.old) ⊎ WasTreeRead (T.Source.remaining tree.old) (T.Source.failures tree.old) (T.Source.failures tree.new) }
{
    let logs = run_logged(rt, alloc, wait, tree, trace, writer, pace)?;
    visits_csv(&logs, writer)
}

/// Runs a trace through inlets over a tree, and writes the report, then the record of the run to `script`, and then its visits after the
/// report, as CSV. The run is recorded in memory, and its record is replayed before anything is written.
///
/// # Errors
///
/// Those of `live_over` for a run that is recorded. If `writer` fails, it has taken a beginning of the report with the visits after it. If
/// `script` fails, `writer` has the whole report and no visits. At any other fault than 20 nothing is written.
pub fn live_then_visits<H: Threads + Wait, P: Wait + Sync, T: Source, S: Source, W: Sink, R: Sink>(
    rt: &H,
    alloc: Global,
    wait: &P,
    tree: &mut T,
    trace: &mut S,
    writer: &mut W,
    pace: Pace,
    script: &mut R,
) -> Result<(), Fault>
    ensures wrote { WroteWhat (λ all. (lines : _) × AreTogether (λ text rows. LivesWithVisits (T.Source.remaining tree.old) (S.Source.remaining trace.old) pace text lines rows
        × WroteBetween lines result R.Sink.taken script.old script.new ((front : _) × Appends (W.Sink.taken writer.old) (W.Sink.taken writer.new) (text ++ front))
        (AppendsFront (W.Sink.taken writer.old) (W.Sink.taken writer.new) text)) all)
        result (W.Sink.taken writer.old) (W.Sink.taken writer.new) }
    ensures unrecorded { IfErr result (λ fault. fault ≢ Write → script.new ≡ script.old) }
    ensures fault { IfErr result (ExplainsOver (T.Source.remaining tree.old) (λ plan. ExplainsLive plan (S.Source.remaining trace.old) pace.limit true)) }
    // A read of one of the two failed exactly if the fault is 19.
    ensures read_failures { T.Source.failures tree.new + S.Source.failures trace.new
        ≡ read_failures result (T.Source.failures tree.old + S.Source.failures trace.old) }
    // A write of one of the two failed exactly if the fault is 20.
    ensures write_failures { W.Sink.failures writer.new + R.Sink.failures script.new
        ≡ write_failures result (W.Sink.failures writer.old + R.Sink.failures script.old) }
    ensures write_failed { (W.Sink.failures writer.new ≡ W.Sink.failures writer.old)
        ⊎ (W.Sink.failures writer.new ≡ write_failures result (W.Sink.failures writer.old)) }
    // At most one byte past its limit is read from each source.
    ensures tree_limit { Takes (MAX_TREE_BYTES + 1) (T.Source.remaining tree.old) (T.Source.remaining tree.new) }
    ensures trace_limit { Takes (MAX_TRACE_BYTES + 1) (S.Source.remaining trace.old) (S.Source.remaining trace.new) }
    // The trace is unchanged, unless the tree was read.
    ensures trace_unread { (trace.new ≡ trace.old) ⊎ WasTreeRead (T.Source.remaining tree.old) (T.Source.failures tree.old) (T.Source.failures tree.new) }
{
    let run = live_replayed(rt, alloc, wait, tree, trace, pace)?;
    report_accounts(run.live.router(), writer)?;
    write_all(script, &run.kept.bytes)?;
    run.replay.write(writer)
}

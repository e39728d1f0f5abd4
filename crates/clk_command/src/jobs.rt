//! What is done over a tree and a second input, with files that are opened when they are first read or written.

ghost use Rattle.std.specs.Prelude.{◌≡◌, ◌≢◌, ◌+◌, ◌⊎◌, Ok, None, Some, true, false, not, option_map, IfOk, IfErr, OnOk};
ghost use Rattle.std.specs.Io.KnownBytes.{Appends, Keeps};
ghost use Rattle.clk_packet.specs.declared.fault.Fault.TheVariants.{Read, Write};
ghost use Rattle.clk_packet.specs.Bytes.{Takes, read_failures, write_failures};
ghost use Rattle.clk_packet.specs.declared.limits.TheConstants.{MAX_TRACE_BYTES};
ghost use Rattle.clk_script.specs.declared.limits.TheConstants.{MAX_SCRIPT_BYTES};
ghost use Rattle.clk_syntax.specs.declared.limits.TheConstants.{MAX_TREE_BYTES};
ghost use Rattle.clk_tree.specs.Plan.{Denotes};
ghost use Rattle.clk_packet.specs.Written.{WroteWhat};
ghost use Rattle.clk_command.specs.Tasks.{DoesWork, ExplainsWork, ExplainsTree, GoesOut, LivesOver, LivesWithVisits, WritesOver, WritesWithVisits, ReportsOver, ReportsWithVisits, builtin_text, ExplainsOver};
ghost use Rattle.clk_script.specs.Meaning.{ExplainsPlan};
ghost use Rattle.clk_command.specs.Running.{ExplainsRun, ExplainsLive};
ghost use Rattle.clk_command.specs.InputLimits.{most_of_work};
ghost use Rattle.clk_words.specs.Words.{go_to_file, is_recorded, writes_output_alone, text_of, visits_follow, work};

use crate::builtin;
use crate::linting::lint_over;
use crate::over::{
    live_over, live_with_visits, run_over, run_with_visits, script_over, script_with_visits,
};
use crate::together::{live_then_visits, run_then_visits, script_then_visits};
use clk_files::Opener;
use clk_packet::{Fault, Sink, Source, ToWrite};
use clk_script::run_script;
use clk_tree::Plan;
use clk_words::{Job, Pace, is_standard};
use std::alloc::Global;
use std::io;
use std::rt::Files;
use std::sync::Wait;
use std::thread::Threads;

/// Does what is asked for over a tree and a second input.
pub fn do_job<
    'a,
    H: Files + AllocGlobal + Threads + Wait,
    P: Wait + Sync,
    T: Source,
    S: Source,
    W: Sink,
>(
    opener: &Opener<'a, H>,
    wait: &P,
    job: Job<'a>,
    tree: &mut T,
    input: &mut S,
    writer: &mut W,
) -> Result<(), Fault>
    ensures done { OnOk result (DoesWork (work job.entry) (T.Source.remaining tree.old) (S.Source.remaining input.old) (λ text. Appends (W.Sink.taken writer.old) (W.Sink.taken writer.new) text)) }
    ensures fault { IfErr result (ExplainsWork (work job.entry) (T.Source.remaining tree.old) (S.Source.remaining input.old)) }
    ensures nothing { IfErr result (λ fault. fault ≢ Write → Keeps (W.Sink.taken writer.old) (W.Sink.taken writer.new)) }
    // A read of one of the two failed exactly if the fault is 19.
    ensures read_failures { T.Source.failures tree.new + S.Source.failures input.new
        ≡ read_failures result (T.Source.failures tree.old + S.Source.failures input.old) }
    ensures write_failures { (W.Sink.failures writer.new ≡ W.Sink.failures writer.old)
        ⊎ (W.Sink.failures writer.new ≡ write_failures result (W.Sink.failures writer.old)) }
    ensures alone { writes_output_alone (work job.entry) ≡ true → W.Sink.failures writer.new ≡ write_failures result (W.Sink.failures writer.old) }
    ensures tree_limit { Takes (MAX_TREE_BYTES + 1) (T.Source.remaining tree.old) (T.Source.remaining tree.new) }
    ensures input_limit { Takes (most_of_work (work job.entry) + 1) (S.Source.remaining input.old) (S.Source.remaining input.new) }
{
    match job {
        Job::LintTrace => lint_over(opener.rt.alloc(), tree, input, writer),
        Job::Script { visits } => script_job(opener, tree, input, visits, writer),
        Job::Run { pace, visits } => run_job(opener, wait, tree, input, pace, visits, writer),
        Job::Live {
            pace,
            record,
            visits,
        } => live_job(opener, wait, tree, input, pace, record, visits, writer),
    }
}

/// Runs the script on `reader` over the built-in tree.
pub fn script_builtin<R: Source, W: Sink>(
    alloc: Global,
    reader: &mut R,
    writer: &mut W,
) -> Result<(), Fault>
    ensures wrote { WroteWhat (WritesOver (Some builtin_text) (R.Source.remaining reader.old)) result (W.Sink.taken writer.old) (W.Sink.taken writer.new) }
    ensures fault { IfErr result (ExplainsOver (Some builtin_text) (λ plan. ExplainsPlan plan (R.Source.remaining reader.old))) }
    ensures write_failures { W.Sink.failures writer.new ≡ write_failures result (W.Sink.failures writer.old) }
    ensures read_failures { R.Source.failures reader.new ≡ read_failures result (R.Source.failures reader.old) }
    ensures limit { Takes (MAX_SCRIPT_BYTES + 1) (R.Source.remaining reader.old) (R.Source.remaining reader.new) }
{
    let plan = builtin_plan(alloc)?;
    run_script(alloc, reader, writer, &plan)
}

/// Runs a script over a tree. If its visits are asked for, they go to a file, or follow the answer.
fn script_job<'a, H: Files + AllocGlobal, T: Source, S: Source, W: Sink>(
    opener: &Opener<'a, H>,
    tree: &mut T,
    script: &mut S,
    visits: Option<&'a str>,
    writer: &mut W,
) -> Result<(), Fault>
    ensures written { OnOk result ((all : _) × GoesOut (visits_follow (option_map text_of visits.entry)) (WritesOver (T.Source.remaining tree.old) (S.Source.remaining script.old))
        (WritesWithVisits (T.Source.remaining tree.old) (S.Source.remaining script.old)) all × Appends (W.Sink.taken writer.old) (W.Sink.taken writer.new) all) }
    ensures fault { IfErr result (ExplainsOver (T.Source.remaining tree.old) (λ plan. ExplainsPlan plan (S.Source.remaining script.old))) }
    ensures nothing { IfErr result (λ fault. fault ≢ Write → Keeps (W.Sink.taken writer.old) (W.Sink.taken writer.new)) }
    // A read of one of the two failed exactly if the fault is 19.
    ensures read_failures { T.Source.failures tree.new + S.Source.failures script.new
        ≡ read_failures result (T.Source.failures tree.old + S.Source.failures script.old) }
    ensures write_failures { (W.Sink.failures writer.new ≡ W.Sink.failures writer.old)
        ⊎ (W.Sink.failures writer.new ≡ write_failures result (W.Sink.failures writer.old)) }
    ensures alone { not (go_to_file (option_map text_of visits.entry)) ≡ true → W.Sink.failures writer.new ≡ write_failures result (W.Sink.failures writer.old) }
    ensures tree_limit { Takes (MAX_TREE_BYTES + 1) (T.Source.remaining tree.old) (T.Source.remaining tree.new) }
    ensures script_limit { Takes (MAX_SCRIPT_BYTES + 1) (S.Source.remaining script.old) (S.Source.remaining script.new) }
{
    let (rt, alloc) = (opener.rt, opener.rt.alloc());
    let Some(path) = visits else {
        return script_over(alloc, tree, script, writer);
    };
    if is_standard(path) {
        return script_then_visits(alloc, tree, script, writer);
    }
    script_with_visits(alloc, tree, script, writer, &mut opener.visits_at(path))
}

/// Runs a trace over a tree. If its visits are asked for, they go to a file, or follow the report.
fn run_job<
    'a,
    H: Files + AllocGlobal + Threads + Wait,
    P: Wait + Sync,
    T: Source,
    S: Source,
    W: Sink,
>(
    opener: &Opener<'a, H>,
    wait: &P,
    tree: &mut T,
    trace: &mut S,
    pace: Pace,
    visits: Option<&'a str>,
    writer: &mut W,
) -> Result<(), Fault>
    ensures written { OnOk result ((all : _) × GoesOut (visits_follow (option_map text_of visits.entry)) (ReportsOver (T.Source.remaining tree.old) (S.Source.remaining trace.old) pace)
        (ReportsWithVisits (T.Source.remaining tree.old) (S.Source.remaining trace.old) pace) all × Appends (W.Sink.taken writer.old) (W.Sink.taken writer.new) all) }
    ensures fault { IfErr result (ExplainsOver (T.Source.remaining tree.old) (λ plan. ExplainsRun plan (S.Source.remaining trace.old))) }
    ensures nothing { IfErr result (λ fault. fault ≢ Write → Keeps (W.Sink.taken writer.old) (W.Sink.taken writer.new)) }
    // A read of one of the two failed exactly if the fault is 19.
    ensures read_failures { T.Source.failures tree.new + S.Source.failures trace.new
        ≡ read_failures result (T.Source.failures tree.old + S.Source.failures trace.old) }
    ensures write_failures { (W.Sink.failures writer.new ≡ W.Sink.failures writer.old)
        ⊎ (W.Sink.failures writer.new ≡ write_failures result (W.Sink.failures writer.old)) }
    ensures alone { not (go_to_file (option_map text_of visits.entry)) ≡ true → W.Sink.failures writer.new ≡ write_failures result (W.Sink.failures writer.old) }
    ensures tree_limit { Takes (MAX_TREE_BYTES + 1) (T.Source.remaining tree.old) (T.Source.remaining tree.new) }
    ensures trace_limit { Takes (MAX_TRACE_BYTES + 1) (S.Source.remaining trace.old) (S.Source.remaining trace.new) }
{
    let (rt, alloc) = (opener.rt, opener.rt.alloc());
    let Some(path) = visits else {
        return run_over(rt, alloc, wait, tree, trace, writer, pace);
    };
    if is_standard(path) {
        return run_then_visits(rt, alloc, wait, tree, trace, writer, pace);
    }
    let mut visits = opener.visits_at(path);
    run_with_visits(rt, alloc, wait, tree, trace, writer, pace, &mut visits)
}

/// Runs a trace through inlets over a tree, and writes its record to a file, if one is named. If its visits are asked for, they go to a
/// file, or follow the report.
fn live_job<
    'a,
    H: Files + AllocGlobal + Threads + Wait,
    P: Wait + Sync,
    T: Source,
    S: Source,
    W: Sink,
>(
    opener: &Opener<'a, H>,
    wait: &P,
    tree: &mut T,
    trace: &mut S,
    pace: Pace,
    script: Option<&'a str>,
    visits: Option<&'a str>,
    writer: &mut W,
) -> Result<(), Fault>
    ensures written { OnOk result ((all : _) × (lines : _) × GoesOut (visits_follow (option_map text_of visits.entry))
        (λ text. LivesOver (T.Source.remaining tree.old) (S.Source.remaining trace.old) pace (is_recorded (option_map text_of script.entry) (option_map text_of visits.entry)) text lines)
        (λ text rows. LivesWithVisits (T.Source.remaining tree.old) (S.Source.remaining trace.old) pace text lines rows) all
        × Appends (W.Sink.taken writer.old) (W.Sink.taken writer.new) all) }
    ensures fault { IfErr result (ExplainsOver (T.Source.remaining tree.old) (λ plan. ExplainsLive plan (S.Source.remaining trace.old) pace.limit (is_recorded (option_map text_of script.entry) (option_map text_of visits.entry)))) }
    ensures nothing { IfErr result (λ fault. fault ≢ Write → Keeps (W.Sink.taken writer.old) (W.Sink.taken writer.new)) }
    // A read of one of the two failed exactly if the fault is 19.
    ensures read_failures { T.Source.failures tree.new + S.Source.failures trace.new
        ≡ read_failures result (T.Source.failures tree.old + S.Source.failures trace.old) }
    ensures write_failures { (W.Sink.failures writer.new ≡ W.Sink.failures writer.old)
        ⊎ (W.Sink.failures writer.new ≡ write_failures result (W.Sink.failures writer.old)) }
    ensures tree_limit { Takes (MAX_TREE_BYTES + 1) (T.Source.remaining tree.old) (T.Source.remaining tree.new) }
    ensures trace_limit { Takes (MAX_TRACE_BYTES + 1) (S.Source.remaining trace.old) (S.Source.remaining trace.new) }
{
    match (script, visits) {
        (None, None) => live_to(opener.rt, wait, tree, trace, pace, false, nowhere(), writer),
        (Some(path), None) => live_to(
            opener.rt,
            wait,
            tree,
            trace,
            pace,
            true,
            opener.record_at(path),
            writer,
        ),
        (None, Some(rows)) => live_visits_to(
            opener,
            wait,
            tree,
            trace,
            pace,
            nowhere(),
            rows,
            writer,
        ),
        (Some(path), Some(rows)) => {
            live_visits_to(
                opener,
                wait,
                tree,
                trace,
                pace,
                opener.record_at(path),
                rows,
                writer,
            )
        }
    }
}

/// Runs a trace through inlets over a tree, and writes the record to a sink, if it is to be recorded.
fn live_to<
    H: AllocGlobal + Threads + Wait,
    P: Wait + Sync,
    T: Source,
    S: Source,
    R: Sink + Drop,
    W: Sink,
>(
    rt: &H,
    wait: &P,
    tree: &mut T,
    trace: &mut S,
    pace: Pace,
    recording: bool,
    script: R,
    writer: &mut W,
) -> Result<(), Fault>
    ensures written { OnOk result ((text : _) × (lines : _) × LivesOver (T.Source.remaining tree.old) (S.Source.remaining trace.old) pace recording text lines × Appends (W.Sink.taken writer.old) (W.Sink.taken writer.new) text) }
    ensures fault { IfErr result (ExplainsOver (T.Source.remaining tree.old) (λ plan. ExplainsLive plan (S.Source.remaining trace.old) pace.limit recording)) }
    ensures nothing { IfErr result (λ fault. fault ≢ Write → Keeps (W.Sink.taken writer.old) (W.Sink.taken writer.new)) }
    // A read of one of the two failed exactly if the fault is 19.
    ensures read_failures { T.Source.failures tree.new + S.Source.failures trace.new
        ≡ read_failures result (T.Source.failures tree.old + S.Source.failures trace.old) }
    ensures write_failures { (W.Sink.failures writer.new ≡ W.Sink.failures writer.old)
        ⊎ (W.Sink.failures writer.new ≡ write_failures result (W.Sink.failures writer.old)) }
    ensures tree_limit { Takes (MAX_TREE_BYTES + 1) (T.Source.remaining tree.old) (T.Source.remaining tree.new) }
    ensures trace_limit { Takes (MAX_TRACE_BYTES + 1) (S.Source.remaining trace.old) (S.Source.remaining trace.new) }
{
    let alloc = rt.alloc();
    let _ = live_over(
        rt, alloc, wait, tree, trace, writer, pace, recording, script,
    )?;
    Ok(())
}

/// Runs a trace through inlets over a tree. Writes the record to a sink, and the visits of the record to a file or after the report.
fn live_visits_to<
    'a,
    H: Files + AllocGlobal + Threads + Wait,
    P: Wait + Sync,
    T: Source,
    S: Source,
    R: Sink + Drop,
    W: Sink,
>(
    opener: &Opener<'a, H>,
    wait: &P,
    tree: &mut T,
    trace: &mut S,
    pace: Pace,
    script: R,
    visits: &'a str,
    writer: &mut W,
) -> Result<(), Fault>
    ensures written { OnOk result ((all : _) × (lines : _) × GoesOut (visits_follow (Some visits.now))
        (λ text. LivesOver (T.Source.remaining tree.old) (S.Source.remaining trace.old) pace true text lines)
        (λ text rows. LivesWithVisits (T.Source.remaining tree.old) (S.Source.remaining trace.old) pace text lines rows) all
        × Appends (W.Sink.taken writer.old) (W.Sink.taken writer.new) all) }
    ensures fault { IfErr result (ExplainsOver (T.Source.remaining tree.old) (λ plan. ExplainsLive plan (S.Source.remaining trace.old) pace.limit true)) }
    ensures nothing { IfErr result (λ fault. fault ≢ Write → Keeps (W.Sink.taken writer.old) (W.Sink.taken writer.new)) }
    // A read of one of the two failed exactly if the fault is 19.
    ensures read_failures { T.Source.failures tree.new + S.Source.failures trace.new
        ≡ read_failures result (T.Source.failures tree.old + S.Source.failures trace.old) }
    ensures write_failures { (W.Sink.failures writer.new ≡ W.Sink.failures writer.old)
        ⊎ (W.Sink.failures writer.new ≡ write_failures result (W.Sink.failures writer.old)) }
    ensures tree_limit { Takes (MAX_TREE_BYTES + 1) (T.Source.remaining tree.old) (T.Source.remaining tree.new) }
    ensures trace_limit { Takes (MAX_TRACE_BYTES + 1) (S.Source.remaining trace.old) (S.Source.remaining trace.new) }
{
    let (rt, alloc) = (opener.rt, opener.rt.alloc());
    let mut script = script;
    if is_standard(visits) {
        return live_then_visits(rt, alloc, wait, tree, trace, writer, pace, &mut script);
    }
    let mut visits = opener.visits_at(visits);
    live_with_visits(
        rt,
        alloc,
        wait,
        tree,
        trace,
        writer,
        pace,
        &mut script,
        &mut visits,
    )
}

/// A sink that takes everything and keeps nothing.
fn nowhere() -> ToWrite<io::Sink> {
    ToWrite::new(io::sink())
}

fn builtin_plan(alloc: Global) -> Result<Plan, Fault>
    ensures denotes { IfOk result (Denotes builtin_text) }
    ensures fault { IfErr result (ExplainsTree (Some builtin_text)) }
    ensures not_write { IfErr result (λ fault. fault ≢ Write) }
    ensures not_read { IfErr result (λ fault. fault ≢ Read) }
{
    Plan::read(alloc, builtin::TEXT.as_bytes())
}

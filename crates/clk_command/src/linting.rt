//! The warnings of trees and traces.

ghost use Rattle.std.specs.Prelude.{◌≡◌, ◌+◌, ◌⊎◌, IfErr};
ghost use Rattle.clk_packet.specs.Bytes.{Takes, read_failures, write_failures};
ghost use Rattle.clk_packet.specs.declared.limits.TheConstants.{MAX_TRACE_BYTES};
ghost use Rattle.clk_packet.specs.Written.{WroteWhat};
ghost use Rattle.clk_packet.specs.declared.fault.Fault.TheVariants.{Write};
ghost use Rattle.clk_syntax.specs.declared.limits.TheConstants.{MAX_TREE_BYTES};
ghost use Rattle.clk_command.specs.Linting.{ExplainsLint, LintWrites};
ghost use Rattle.clk_command.specs.Tasks.{ExplainsTree, IsLintOf, LintsOver, WasTreeRead, ExplainsOver};

use crate::over::read_plan;
use clk_gate::check_senders;
use clk_lint::lint;
use clk_packet::{Fault, Sink, Source, Traces};
use clk_tree::Plan;
use std::alloc::Global;

/// Writes a line for each warning of a tree.
///
/// # Errors
///
/// Those of `read_plan`, at which nothing is written. Fault 20 if the writer fails; it has then taken a front of the text.
pub fn lint_tree<T: Source, W: Sink>(
    alloc: Global,
    tree: &mut T,
    writer: &mut W,
) -> Result<(), Fault>
    ensures wrote { WroteWhat (IsLintOf (T.Source.remaining tree.old)) result (W.Sink.taken writer.old) (W.Sink.taken writer.new) }
    ensures fault { IfErr result (λ fault. (fault ≡ Write) ⊎ ExplainsTree (T.Source.remaining tree.old) fault) }
    ensures read_failures { T.Source.failures tree.new ≡ read_failures result (T.Source.failures tree.old) }
    ensures write_failures { W.Sink.failures writer.new ≡ write_failures result (W.Sink.failures writer.old) }
    ensures limit { Takes (MAX_TREE_BYTES + 1) (T.Source.remaining tree.old) (T.Source.remaining tree.new) }
{
    let plan = read_plan(alloc, tree)?;
    lint(alloc, &plan, None, writer)
}

/// Writes a line for each warning of a tree and a trace. Reads and checks the tree before it reads any byte of the trace.
///
/// # Errors
///
/// Those of `read_plan`, and then those of `lint_trace`. At any other fault than 20 nothing is written.
pub fn lint_over<T: Source, S: Source, W: Sink>(
    alloc: Global,
    tree: &mut T,
    trace: &mut S,
    writer: &mut W,
) -> Result<(), Fault>
    ensures wrote { WroteWhat (LintsOver (T.Source.remaining tree.old) (S.Source.remaining trace.old))
        result (W.Sink.taken writer.old) (W.Sink.taken writer.new) }
    ensures fault { IfErr result (ExplainsOver (T.Source.remaining tree.old) (λ plan. ExplainsLint plan (S.Source.remaining trace.old))) }
    // A read of one of the two failed exactly if the fault is 19.
    ensures read_failures { T.Source.failures tree.new + S.Source.failures trace.new
        ≡ read_failures result (T.Source.failures tree.old + S.Source.failures trace.old) }
    ensures write_failures { W.Sink.failures writer.new ≡ write_failures result (W.Sink.failures writer.old) }
    // At most one byte past its limit is read from each source.
    ensures tree_limit { Takes (MAX_TREE_BYTES + 1) (T.Source.remaining tree.old) (T.Source.remaining tree.new) }
    ensures trace_limit { Takes (MAX_TRACE_BYTES + 1) (S.Source.remaining trace.old) (S.Source.remaining trace.new) }
    // The trace is unchanged, unless the tree was read.
    ensures trace_unread { (trace.new ≡ trace.old) ⊎ WasTreeRead (T.Source.remaining tree.old) (T.Source.failures tree.old) (T.Source.failures tree.new) }
{
    let plan = read_plan(alloc, tree)?;
    lint_trace(alloc, &plan, trace, writer)
}

/// Reads a trace to its end, and writes a line for each warning of a plan and the trace.
///
/// # Errors
///
/// Fault 1 if an allocation fails. Otherwise those of the trace, as of `run_trace`, and fault 15 with the least sender that the plan
/// doesn't have. Fault 20 if the writer fails; it has then taken a front of the text. At any other fault nothing is written.
pub fn lint_trace<S: Source, W: Sink>(
    alloc: Global,
    plan: &Plan,
    trace: &mut S,
    writer: &mut W,
) -> Result<(), Fault>
    ensures wrote { WroteWhat (LintWrites plan.now (S.Source.remaining trace.old)) result (W.Sink.taken writer.old) (W.Sink.taken writer.new) }
    ensures fault { IfErr result (ExplainsLint plan.now (S.Source.remaining trace.old)) }
    ensures read_failures { S.Source.failures trace.new ≡ read_failures result (S.Source.failures trace.old) }
    ensures write_failures { W.Sink.failures writer.new ≡ write_failures result (W.Sink.failures writer.old) }
    // At most one byte past the limit is read.
    ensures limit { Takes (MAX_TRACE_BYTES + 1) (S.Source.remaining trace.old) (S.Source.remaining trace.new) }
{
    let traces = Traces::read_csv(alloc, trace)?;
    check_senders(plan.senders(), &traces)?;
    lint(alloc, plan, Some(&traces), writer)
}

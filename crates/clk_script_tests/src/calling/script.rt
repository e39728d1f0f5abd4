//! A script, run.

ghost use Rattle.std.specs.Prelude.{List, ℕ, Some, OnOk, IfErr};
ghost use Rattle.std.specs.Io.KnownBytes.{Appends};
ghost use Rattle.clk_script.specs.Meaning.{ExplainsPlan, MeansOver};

use clk_packet::{Fault, FromRead, Sink};
use clk_script::{plans_have_at_most_one_meaning, run_script};
use clk_tree::Plan;
use std::alloc::Global;

/// Runs a script that stands in memory over a plan. If it succeeds, the script has a meaning, and that meaning is written: no other text is
/// one.
pub fn run_text<W: Sink>(
    alloc: Global,
    script: &[u8],
    plan: &Plan,
    writer: &mut W,
) -> Result<(), Fault>
    ensures some { OnOk result ((text : List ℕ) × MeansOver plan.now script.now text) }
    ensures written { OnOk result ((text : List ℕ) → MeansOver plan.now script.now text → Appends (W.Sink.taken writer.old) (W.Sink.taken writer.new) text) }
    ensures fault { IfErr result (ExplainsPlan plan.now (Some script.now)) }
{
    // A law, which does nothing.
    plans_have_at_most_one_meaning(plan);
    let mut reader = FromRead::new(script);
    run_script(alloc, &mut reader, writer, plan)
}

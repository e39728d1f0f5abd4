//! Running one script over a plan.

ghost use Rattle.std.specs.Prelude.{◌≡◌, ◌≢◌, ◌+◌, IfOk, IfErr};
ghost use Rattle.clk_packet.specs.Bytes.{Takes, read_failures, write_failures, OfBytes};
ghost use Rattle.clk_packet.specs.Written.{WroteWhat};
ghost use Rattle.clk_packet.specs.declared.fault.Fault.TheVariants.{Write};
ghost use Rattle.clk_script.specs.declared.limits.TheConstants.{MAX_SCRIPT_BYTES};
ghost use Rattle.clk_script.specs.Meaning.{MeansOver, MeansOverWith, ExplainsPlan};
ghost use Rattle.clk_script.specs.inside.Replay.{IsAnswerOver};

use crate::answer::{Answer, answer_script};
use crate::reading::read_script;
use crate::replay::{HELD, Replay};
use crate::script_router::ScriptRouter;
use crate::writing::write_answer;
use clk_packet::{Fault, Sink, Source};
use clk_router::{Router, numbers_of};
use clk_sched::Keeps;
use clk_tree::Plan;
use std::alloc::Global;

/// Reads a script to its end, runs it over a plan, and writes its meaning. Reads and checks the whole script before it writes anything.
///
/// # Errors
///
/// Fault 1 if an allocation fails. Otherwise, in this order:
/// - fault 19 if the reader fails;
/// - fault 18 for a script of more than 33,554,432 bytes;
/// - the fault of the first line that has one: 18 if it is line 1,000,001, 15 if it names an unknown sender, and 16 if it is no line of a
///   script, follows a drain, or names an unknown device;
/// - fault 20 if the writer fails. It has then taken a front of the meaning.
pub fn run_script<R: Source, W: Sink>(
    alloc: Global,
    reader: &mut R,
    writer: &mut W,
    plan: &Plan,
) -> Result<(), Fault>
    ensures wrote { WroteWhat (λ text. OfBytes (R.Source.remaining reader.old) (λ script. MeansOver plan.now script text))
        result (W.Sink.taken writer.old) (W.Sink.taken writer.new) }

    // Each fault has its cause.
    ensures fault { IfErr result (ExplainsPlan plan.now (R.Source.remaining reader.old)) }
    ensures read_failures { R.Source.failures reader.new ≡ read_failures result (R.Source.failures reader.old) }
    ensures write_failures { W.Sink.failures writer.new ≡ write_failures result (W.Sink.failures writer.old) }

    // At most one byte past the limit is read.
    ensures limit { Takes (MAX_SCRIPT_BYTES + 1) (R.Source.remaining reader.old) (R.Source.remaining reader.new) }
{
    let answer = answer_over(alloc, reader, plan)?;
    write_answer(&answer, writer)
}

/// Runs a script as `run_script` does, with its faults. Returns a `Replay`, which writes the visits of each device.
pub fn run_script_logged<R: Source, W: Sink>(
    alloc: Global,
    reader: &mut R,
    writer: &mut W,
    plan: &Plan,
) -> Result<Replay, Fault>
    ensures wrote { WroteWhat (λ text. (logs : _) × IfOk result (λ replay. replay ≡ logs)
        × OfBytes (R.Source.remaining reader.old) (λ script. MeansOverWith plan.now script text logs))
        result (W.Sink.taken writer.old) (W.Sink.taken writer.new) }
    ensures fault { IfErr result (ExplainsPlan plan.now (R.Source.remaining reader.old)) }
    ensures read_failures { R.Source.failures reader.new ≡ read_failures result (R.Source.failures reader.old) }
    ensures write_failures { W.Sink.failures writer.new ≡ write_failures result (W.Sink.failures writer.old) }
    ensures limit { Takes (MAX_SCRIPT_BYTES + 1) (R.Source.remaining reader.old) (R.Source.remaining reader.new) }
{
    let answer = answer_over(alloc, reader, plan)?;
    // All memory is allocated before the first byte is written.
    let again = Router::open(alloc, plan, Keeps::LATEST)?;
    let held = Vec::with_capacity(alloc, HELD)?;
    write_answer(&answer, writer)?;
    Ok(Replay::new(plan, answer, again, held))
}

/// Reads a script to its end and answers it over a plan. Fault 1 if an allocation fails. Otherwise the faults of the script, as of
/// `run_script`.
fn answer_over<R: Source>(alloc: Global, reader: &mut R, plan: &Plan) -> Result<Answer, Fault>
    ensures answer { IfOk result (IsAnswerOver plan.now (R.Source.remaining reader.old)) }
    ensures fault { IfErr result (ExplainsPlan plan.now (R.Source.remaining reader.old)) }
    ensures not_write { IfErr result (λ fault. fault ≢ Write) }
    ensures failures { R.Source.failures reader.new ≡ read_failures result (R.Source.failures reader.old) }
    ensures limit { Takes (MAX_SCRIPT_BYTES + 1) (R.Source.remaining reader.old) (R.Source.remaining reader.new) }
{
    let senders = numbers_of(alloc, plan.senders())?;
    let devices = usize::from(plan.devices());
    let script = read_script(alloc, reader, &senders, devices)?;
    let script_router = ScriptRouter::new(alloc, plan)?;
    answer_script(alloc, script_router, script)
}

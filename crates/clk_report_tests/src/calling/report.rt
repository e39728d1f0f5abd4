//! The texts of a run, one after the other.

ghost use Rattle.std.specs.Prelude.{◌≡◌, ◌≤◌, ◌++◌, length, OnOk, IfErr};
ghost use Rattle.std.specs.Io.KnownBytes.{Appends};
ghost use Rattle.clk_packet.specs.declared.fault.Fault.TheVariants.{Write};
ghost use Rattle.clk_report.specs.Devices.{all_emitted, lists_of};
ghost use Rattle.clk_report.specs.Report.{report_text};
ghost use Rattle.clk_report.specs.VisitCsv.{visits_text};

use clk_packet::{Fault, Packet, Sink, Tally};
use clk_report::{MAX_DEVICES, report, visits_csv};
use clk_sched::Visit;

/// Writes the report of a run, and then its visits.
pub fn write_run<W: Sink>(
    tallies: &[Tally],
    emitted: &[Vec<Packet>],
    logs: &[Vec<Visit>],
    writer: &mut W,
) -> Result<(), Fault>
    requires { length emitted.now ≤ MAX_DEVICES }
    ensures text { OnOk result (Appends (W.Sink.taken writer.old) (W.Sink.taken writer.new)
        (report_text (all_emitted emitted.now) tallies.now ++ visits_text (lists_of logs.now))) }
    ensures fault { IfErr result (λ fault. fault ≡ Write) }
{
    report(tallies, emitted, writer)?;
    visits_csv(logs, writer)
}

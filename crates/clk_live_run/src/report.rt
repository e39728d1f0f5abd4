//! The report of a run.

ghost use Rattle.std.specs.Prelude.{Some};
ghost use Rattle.clk_packet.specs.Bytes.{Wrote};
ghost use Rattle.clk_script.specs.Meaning.{ending_text};

use clk_packet::{Fault, Sink};
use clk_router::CountingRouter;
use clk_script::{accounts_tell, write_accounts};

/// Writes the report of each sender's packets so far: a line for each sender, in order.
///
/// `sender S: sent N B, accepted N B, refused N B, evicted N B, emitted N B`
///
/// Doesn't allocate. Takes time in proportion to the senders.
///
/// # Errors
///
/// Fault 20 if the writer fails. It has then taken a front of the report.
pub fn report_accounts<W: Sink>(router: &CountingRouter, writer: &mut W) -> Result<(), Fault>
    ensures wrote { Wrote (W.Sink.taken writer.old) (W.Sink.taken writer.new)
        (W.Sink.failures writer.old) (W.Sink.failures writer.new) result (ending_text router.now.setup (Some 0) router.now.events) }
{
    // The lines of the accounts are the report, by this law.
    accounts_tell(router);
    write_accounts(router.accounts(), writer)
}

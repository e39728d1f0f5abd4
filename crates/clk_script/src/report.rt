//! The report of a router's senders, by their accounts.

ghost use Rattle.std.specs.Prelude.{◌≡◌, Some, map};
ghost use Rattle.std.specs.List.{flat_map};
ghost use Rattle.clk_packet.specs.Bytes.{Wrote};
ghost use Rattle.clk_router.specs.Accounts.{account_after};
ghost use Rattle.clk_script.specs.Meaning.{ending_text};
ghost use Rattle.clk_script.specs.AccountLines.{account_line};

use clk_packet::{Fault, Sink};
use clk_report::report_line;
use clk_router::{Account, Router};

/// The lines of its senders' accounts are the report of a router. A law, which does nothing.
pub fn accounts_tell(router: &Router)
    ensures { flat_map account_line (map (account_after router.now.events) router.now.setup.senders) ≡ ending_text router.now.setup (Some 0) router.now.events }
{
    // Only its own device emits packets of a sender, by this law, which does nothing.
    router.has_account();
}

/// Writes the line of each account, in order. Doesn't allocate.
///
/// `sender S: sent N B, accepted N B, refused N B, evicted N B, emitted N B`
///
/// # Errors
///
/// Fault 20 if the writer fails. It has then taken a front of the lines.
pub fn write_accounts<W: Sink>(accounts: &[Account], writer: &mut W) -> Result<(), Fault>
    ensures { Wrote (W.Sink.taken writer.old) (W.Sink.taken writer.new)
        (W.Sink.failures writer.old) (W.Sink.failures writer.new) result (flat_map account_line accounts.now) }
{
    for account in accounts {
        report_line(&account.counts, writer)?;
    }
    Ok(())
}

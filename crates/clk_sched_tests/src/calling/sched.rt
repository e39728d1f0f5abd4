//! A session, pulled.

ghost use Rattle.std.specs.Prelude.{◌≡◌, ◌<◌, ◌+◌, ℕ, true, length, OnOk};
ghost use Rattle.clk_sched.specs.Conservation.{IsConserved};
ghost use Rattle.clk_sched.specs.declared.limits.TheConstants.{END_OF_MOMENTS};
ghost use Rattle.clk_sched.specs.Log.{pulls};
ghost use Rattle.clk_sched.specs.Run.{IsRun};
ghost use Rattle.clk_packet.specs.Lists.{stands_in};
ghost use Rattle.clk_sched.specs.Tree.{root, leaves};

use clk_packet::Fault;
use clk_sched::{Ask, Session, runs_conserve_packets};

/// Pulls a device twice at one moment. Whatever the queues give, the log is a run of the tree with two pulls more, and nothing is lost:
/// what a queue gave was emitted, in order, or is held as a head.
pub fn pull_twice<Q: Ask>(session: &mut Session, queues: &mut Q, moment: u64) -> Result<(), Fault>
    requires moment { moment < END_OF_MOMENTS }
    ensures run { OnOk result (IsRun session.new.tree session.new.log) }
    ensures longer { OnOk result (length (pulls session.new.log) ≡ length (pulls session.old.log) + 2) }
    ensures conserved { OnOk result ((q : ℕ) → stands_in q (leaves (root session.new.tree)) ≡ true → IsConserved session.new.tree session.new.log q) }
{
    // This call does nothing: its contract is a law.
    runs_conserve_packets();
    session.pull(queues, moment)?;
    session.pull(queues, moment)?;
    // The contract of `log` says that no queue stands twice in the tree.
    let _ = session.log();
    Ok(())
}

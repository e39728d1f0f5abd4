//! Draining a session: what its lines hold goes to the device, and each queue is settled.

ghost use Rattle.std.specs.Prelude.{◌≡◌, ◌⊎◌, ◌<◌, ◌≤◌, ◌++◌, true, map, IfOk, IfErr, OnOk, IsOkUnless};
ghost use Rattle.std.specs.List.{AllByRecursion};
ghost use Rattle.clk_packet.specs.declared.fault.Fault.TheVariants.{Memory};
ghost use Rattle.clk_sched.specs.Closing.{left_in};
ghost use Rattle.clk_sched.specs.Drain.{drain_start};
ghost use Rattle.clk_sched.specs.Keeps.{keeps_visits};
ghost use Rattle.clk_sched.specs.declared.limits.TheConstants.{MAX_LEFT, END_OF_DRAINS};
ghost use Rattle.clk_sched.specs.Session.{progress_of};
ghost use Rattle.clk_drain.specs.Line.{AreLinesOf, HaveOwnSenders};
ghost use Rattle.clk_drain.specs.Closing.{accepted_over, evicted_over, left_over, seated, AreInOrder, tallies_in, IsDrainedOver, IsFaultOfDrain};
ghost use Rattle.clk_drain.specs.Lost.{HasReached, NamesFirstLost};
ghost use Rattle.clk_drain.specs.inside.Closing.{IsDrainedAs};
ghost use Rattle.clk_drain.specs.inside.Parts.{IsGathered, held_at, AreGatheredFrom, IsDrainOf, IsSettledLine};

use crate::drained::Drained;
use crate::line::Line;
use crate::lines::GatheredLines;
use clk_packet::{Fault, Tally};
use clk_sched::{PackedLog, Session, runs_conserve_packets};
use std::alloc::Global;
use std::sync::Wait;

/// Drains a session whose lines are all closed, and settles each queue. It pulls the device one tick apart until nothing is left in the
/// queues and the tree. The first pull is one tick after the later of this moment, in ticks, and the session's latest; that has to be below
/// 2^43 - 1. The queues accepted at most 1,000,000 packets in all. It gathers every seat before the first pull, so the drain always ends: a
/// tap that gives none has then given all.
///
/// The device emits, before or in the drain, exactly those packets of each sender that its queue accepted and didn't evict. It emits each
/// once, in the order in which they were sent. The session keeps all of its visits, and none was dropped: of any other, nothing is promised
/// of what is returned.
///
/// # Errors
///
/// Fault 1 if an allocation fails, or at the end of 2^63 pulls. Fault 21, with the leaf of the queue, for the first queue that refused or
/// evicted a packet though it accepted fewer than its capacity. Nothing is returned then.
pub fn close_and_drain<W: Wait>(
    alloc: Global,
    wait: &W,
    session: Session,
    lines: Vec<Line>,
    moment: u64,
) -> Result<Drained, Fault>
    requires lines { AreLinesOf (progress_of session) lines.items }
    requires senders { HaveOwnSenders lines.items }
    requires few { accepted_over lines.items ≤ MAX_LEFT }
    requires moment { drain_start session moment < END_OF_DRAINS }
    ensures drained { keeps_visits session.keeps ≡ true → session.gone ≡ 0 → IfOk result (IsDrainedOver (progress_of session) lines.items moment) }
    ensures fault { IfErr result (IsFaultOfDrain lines.items) }
{
    close(alloc, wait, session, lines, moment)?.unpack(alloc)
}

/// Drains a session as `close_and_drain` does, whatever it keeps, if it dropped no visit. Contracts speak of the log and of the emitted
/// packets also where these aren't kept, and aren't returned.
///
/// # Errors
///
/// Those of `close_and_drain`.
pub(crate) fn close<W: Wait>(
    alloc: Global,
    wait: &W,
    session: Session,
    lines: Vec<Line>,
    moment: u64,
) -> Result<Drained<PackedLog>, Fault>
    requires lines { AreLinesOf (progress_of session) lines.items }
    requires senders { HaveOwnSenders lines.items }
    requires few { accepted_over lines.items ≤ MAX_LEFT }
    requires moment { drain_start session moment < END_OF_DRAINS }
    ensures drained { session.gone ≡ 0 → IfOk result (IsDrainedAs (progress_of session) session.keeps lines.items moment) }
    ensures reached { OnOk result (AllByRecursion HasReached (map seated lines.items)) }
    ensures fault { IfErr result (IsFaultOfDrain lines.items) }
{
    runs_conserve_packets();
    let lines = gathered(lines);
    let left = left(&session, &lines);
    let (session, lines) = drain(wait, session, lines, left, moment)?;
    let tallies = settle_all(alloc, lines)?;
    // The contract of `log` says that no queue stands twice in the tree.
    let _ = session.log();
    let (log, emitted) = session.into_packed(alloc)?;
    Ok(Drained {
        emitted,
        log,
        tallies,
    })
}

// The lines, after their taps gathered all seats.
fn gathered(lines: Vec<Line>) -> Vec<Line>
    ensures { AreGatheredFrom lines.items result.items }
{
    let mut lines = lines;
    gather_all(&mut lines);
    lines
}

// Has the taps gather all seats.
fn gather_all(lines: &mut [Line])
    ensures { AreGatheredFrom lines.old lines.new }
{
    for line in lines {
        line.gather();
    }
}

// Drains a session over its lines, whose seats are all gathered, of all packets that queues and heads hold.
fn drain<W: Wait>(
    wait: &W,
    session: Session,
    lines: Vec<Line>,
    left: u64,
    moment: u64,
) -> Result<(Session, Vec<Line>), Fault>
    requires lines { AreLinesOf (progress_of session) lines.items }
    requires gathered { AllByRecursion IsGathered lines.items }
    requires few { left ≤ MAX_LEFT }
    requires left { left ≡ left_in session.tree session.log (held_at lines.items) }
    requires moment { drain_start session moment < END_OF_DRAINS }
    ensures drained { IfOk result (λ drained. IsDrainOf (progress_of session) lines.items moment left (progress_of drained.0) drained.1.items) }
    ensures keeps { IfOk result (λ drained. drained.0.keeps ≡ session.keeps) }
    ensures gone { IfOk result (λ drained. drained.0.gone ≡ session.gone) }
    ensures fault { IsOkUnless result Fault.Memory }
{
    let mut session = session;
    let mut lines = GatheredLines::new(wait, lines);
    session.drain(&mut lines, left, moment)?;
    Ok((session, lines.into_vec()))
}

// How many packets are left: those that all queues accepted, less those that they evicted and those that were emitted. Queues and heads
// hold as many.
fn left(session: &Session, lines: &[Line]) -> u64
    requires lines { AreLinesOf (progress_of session.now) lines.now }
    requires gathered { AllByRecursion IsGathered lines.now }
    requires few { accepted_over lines.now ≤ MAX_LEFT }
    ensures over { result ≡ left_over (progress_of session.now) lines.now }
    ensures held { result ≡ left_in session.now.tree session.now.log (held_at lines.now) }
{
    runs_conserve_packets();
    // The contract of `log` says that the log is a run, and that no queue stands twice in the tree.
    let _ = session.log();
    let emitted = session.count_emitted();
    accepted(lines) - evicted(lines) - emitted
}

// How many packets the queues accepted.
fn accepted(lines: &[Line]) -> u64
    requires few { accepted_over lines.now ≤ MAX_LEFT }
    ensures { result ≡ accepted_over lines.now }
{
    let mut accepted = 0;
    for line in lines {
        accepted += line.accepted();
    }
    accepted
}

// How many packets the queues evicted.
fn evicted(lines: &[Line]) -> u64
    requires few { evicted_over lines.now ≤ MAX_LEFT }
    ensures { result ≡ evicted_over lines.now }
{
    let mut evicted = 0;
    for line in lines {
        evicted += line.evicted();
    }
    evicted
}

// Settles the lines. Returns a tally for each sender, by rising number.
fn settle_all(alloc: Global, lines: Vec<Line>) -> Result<Vec<Tally>, Fault>
    ensures settled { IfOk result (λ _. AllByRecursion IsSettledLine lines.items) }
    ensures tallies { IfOk result (λ tallies. AreInOrder (tallies_in lines.items) tallies.items) }
    ensures fault { IfErr result (λ fault. (fault ≡ Memory) ⊎ NamesFirstLost (map seated lines.items) fault) }
{
    let mut tallies = settle_each(alloc, lines)?;
    tallies.sort_unstable_by_key(|tally| tally.sender);
    Ok(tallies)
}

// Settles each line, in order. Returns the tallies of their senders.
fn settle_each(alloc: Global, lines: Vec<Line>) -> Result<Vec<Tally>, Fault>
    ensures settled { IfOk result (λ _. AllByRecursion IsSettledLine lines.items) }
    ensures tallies { IfOk result (λ tallies. tallies.items ≡ tallies_in lines.items) }
    ensures fault { IfErr result (λ fault. (fault ≡ Memory) ⊎ NamesFirstLost (map seated lines.items) fault) }
{
    let mut tallies = Vec::new(alloc);
    for line in lines {
        let more = line.settle(alloc)?;
        add(&mut tallies, more)?;
    }
    Ok(tallies)
}

/// Adds tallies at the end. Fault 1 if an allocation fails.
pub fn add(tallies: &mut Vec<Tally>, more: Vec<Tally>) -> Result<(), Fault>
    ensures added { OnOk result (tallies.new.items ≡ tallies.old.items ++ more.items) }
    ensures fault { IsOkUnless result Fault.Memory }
{
    for tally in more {
        tallies.push(tally)?;
    }
    Ok(())
}

//! Joining what the threads of a run returned: the lines of each device.

ghost use Rattle.std.specs.Prelude.{◌≡◌, IfOk, IsOkUnless};
ghost use Rattle.clk_packet.specs.declared.fault.Fault.TheVariants.{Memory};
ghost use Rattle.clk_drain.specs.inside.Handed.{AreJoinable, AreAllJoinable, joined_lines, joined_feeds};

use crate::line::Line;
use crate::running::opening::{Ends, LeafQueue};
use clk_packet::Fault;
use clk_ruled::{ClosedSeat, Tap};
use clk_sched::Session;
use std::alloc::Global;
use std::marker::Model;

/// A session with its lines, whose seats are all closed.
#[derive(Drop)]
pub struct Closing {
    pub session: Session,
    pub lines: Vec<Line>,
}

impl Model for Closing {
    ghost use Rattle.clk_drain.specs.inside.Threads.{Feed};
    ghost use Rattle.std.specs.Prelude.{◌≡◌};
    ghost use Rattle.std.specs.Coded.{codes};
    ghost use Rattle.clk_sched.specs.Session.{progress_of};
    ghost use Rattle.clk_sched.specs.Stored.{tree_code};

    ghost Value = { Feed };

    ghost coded = { Prim.hlevel (codes, tree_code) };

    ghost view = { λ c. record { session = progress_of c.session; keeps = c.session.keeps; lines = c.lines.items } };

    ghost invariant = { λ c. c.session.gone ≡ 0 };
}

/// Each device's session with its lines, by number, from its queues, its session with the taps, and its closed seats.
///
/// # Errors
///
/// Fault 1 if an allocation fails.
pub fn join_devices(
    alloc: Global,
    queues: Vec<Vec<LeafQueue>>,
    ends: Vec<Ends>,
    closed: Vec<Vec<Vec<ClosedSeat>>>,
) -> Result<Vec<Closing>, Fault>
    requires joinable { AreAllJoinable queues.items ends.items closed.items }
    ensures joined { IfOk result (λ closings. closings.items ≡ joined_feeds queues.items ends.items closed.items) }
    ensures fault { IsOkUnless result Fault.Memory }
{
    let mut closings = Vec::with_capacity(alloc, queues.len())?;
    let mut ends = ends.into_iter();
    let mut closed = closed.into_iter();
    for its_queues in queues {
        if let (Some(Ends { session, taps, .. }), Some(its_closed)) = (ends.next(), closed.next()) {
            let lines = join_lines(alloc, its_queues, taps, its_closed)?;
            closings.push(Closing { session, lines })?;
        }
    }
    Ok(closings)
}

// The lines of a device, in order: each queue with its tap and its closed seats.
fn join_lines(
    alloc: Global,
    queues: Vec<LeafQueue>,
    taps: Vec<Tap>,
    closed: Vec<Vec<ClosedSeat>>,
) -> Result<Vec<Line>, Fault>
    requires joinable { AreJoinable queues.items taps.items closed.items }
    ensures lines { IfOk result (λ lines. lines.items ≡ joined_lines queues.items taps.items closed.items) }
    ensures fault { IsOkUnless result Fault.Memory }
{
    let mut lines = Vec::with_capacity(alloc, queues.len())?;
    let mut taps = taps.into_iter();
    let mut closed = closed.into_iter();
    for LeafQueue { leaf, queue, .. } in queues {
        if let (Some(tap), Some(closed)) = (taps.next(), closed.next()) {
            lines.push(Line {
                leaf,
                queue,
                tap,
                closed,
            })?;
        }
    }
    Ok(lines)
}

//! Sessions that keep their visits packed: they have the log of a session that keeps a list.

use crate::pieces::{SHAPES, Shape, session_over, three_queues};
use clk_fixtures::Queues;
use clk_packet::Fault;
use clk_sched::{Keeps, PackedLog, Session, Visit};
use std::alloc::Global;
use std::process::Abort;

/// From this moment on a visit isn't packed.
const LATE: u64 = 1 << 32;

/// Moments before that, and from it on.
const MOMENTS: [u64; 7] = [0, 0, 3, 9, LATE - 1, LATE, LATE + 9];

/// A session that was pulled at these moments, over queues that held three packets each.
pub fn pulled(
    rt: &impl Abort,
    alloc: Global,
    shape: Shape,
    keeps: Keeps,
    moments: &[u64],
) -> Result<Session, Fault> {
    let mut queues = three_queues(alloc)?;
    let mut session = session_over(rt, alloc, shape, keeps)?;
    pull_at(rt, &mut session, &mut queues, moments)?;
    Ok(session)
}

fn pull_at(
    rt: &impl Abort,
    session: &mut Session,
    queues: &mut Queues,
    moments: &[u64],
) -> Result<(), Fault> {
    for moment in moments {
        pull(rt, session, queues, *moment)?;
    }
    Ok(())
}

fn pull(
    rt: &impl Abort,
    session: &mut Session,
    queues: &mut Queues,
    moment: u64,
) -> Result<(), Fault> {
    assert!(rt; moment < 1 << 44);
    session.pull(queues, moment)?;
    Ok(())
}

/// What a session keeps that keeps visits as a list, or packed, or both.
pub fn visits_kept(listed: bool, packed: bool) -> Keeps {
    Keeps {
        visits: listed,
        packed,
        packets: false,
        latest: false,
    }
}

// Fails unless these are the visits that are kept, the early ones packed.
fn assert_packed(
    rt: &impl Abort,
    alloc: Global,
    kept: PackedLog,
    log: &[Visit],
) -> Result<(), Fault> {
    let early = log.iter().take_while(|visit| visit.moment < LATE).count();
    let (packed, rest) = kept.parts();
    assert_eq!(rt; packed.len(), early);
    for (packed, visit) in packed.iter().zip(log) {
        assert_eq!(rt; packed.unpack(), *visit);
    }
    assert_eq!(rt; rest.len(), log.len() - early);
    assert!(rt; kept.into_vec(alloc)?.as_slice() == log);
    Ok(())
}

#[test]
fn a_log_may_be_packed(rt: HostRuntime) -> Result<(), Fault> {
    let alloc = rt.alloc();
    for (shape, _) in SHAPES {
        let log = log_of_both(&rt, alloc, shape)?;
        assert_packed_alone(&rt, alloc, shape, &log)?;
    }
    Ok(())
}

// The list of a session that keeps its visits as a list and packed. Fails unless these are the same.
fn log_of_both(rt: &impl Abort, alloc: Global, shape: Shape) -> Result<Vec<Visit>, Fault> {
    let both = pulled(rt, alloc, shape, visits_kept(true, true), &MOMENTS)?;
    let log = both.log().to_vec(alloc)?;
    let (kept, _) = both.into_packed(alloc)?;
    assert_packed(rt, alloc, kept, &log)?;
    Ok(log)
}

// Fails unless a session that keeps its visits only packed has these.
fn assert_packed_alone(
    rt: &impl Abort,
    alloc: Global,
    shape: Shape,
    log: &[Visit],
) -> Result<(), Fault> {
    let packed = pulled(rt, alloc, shape, visits_kept(false, true), &MOMENTS)?;
    assert!(rt; packed.log().is_empty());
    let (kept, _) = packed.into_packed(alloc)?;
    assert_packed(rt, alloc, kept, log)
}

// A session that keeps no packets reads them off its visits, and one that keeps them has them.
#[test]
fn what_came_out_is_told_from_visits(rt: HostRuntime) -> Result<(), Fault> {
    let alloc = rt.alloc();
    for (shape, _) in SHAPES {
        let keeps = Keeps {
            visits: false,
            packed: false,
            packets: true,
            latest: false,
        };
        let (_, came_out) = pulled(&rt, alloc, shape, keeps, &MOMENTS)?.into_packed(alloc)?;
        assert!(rt; came_out.len() >= 2);
        for (listed, packed) in [(true, false), (false, true)] {
            let keeps = visits_kept(listed, packed);
            let (_, told) = pulled(&rt, alloc, shape, keeps, &MOMENTS)?.into_packed(alloc)?;
            assert_eq!(rt; told, came_out);
        }
    }
    Ok(())
}

// Visits that aren't packed are returned as they are.
#[test]
fn a_list_is_given_where_nothing_is_packed(rt: HostRuntime) -> Result<(), Fault> {
    let alloc = rt.alloc();
    let listed = pulled(
        &rt,
        alloc,
        Shape::Shares,
        visits_kept(true, false),
        &MOMENTS,
    )?;
    let log = listed.log().to_vec(alloc)?;
    let (kept, _) = listed.into_packed(alloc)?;
    let (packed, rest) = kept.parts();
    assert!(rt; packed.is_empty());
    assert!(rt; rest == log.as_slice());
    Ok(())
}

// The session is pulled once more after it dropped its visits: just those of that pull are kept.
#[test]
fn packed_visits_may_be_let_go_of(rt: HostRuntime) -> Result<(), Fault> {
    let alloc = rt.alloc();
    for late in [false, true] {
        let moments = if late { &MOMENTS[..] } else { &MOMENTS[..4] };
        let mut session = pulled(
            &rt,
            alloc,
            Shape::Priorities,
            visits_kept(true, true),
            moments,
        )?;
        session.let_go();
        let mut queues = Queues::new(alloc, 3)?;
        pull(&rt, &mut session, &mut queues, 10)?;
        let log = session.log().to_vec(alloc)?;
        assert_eq!(rt; log.len(), 3);
        let (kept, _) = session.into_packed(alloc)?;
        assert_packed(&rt, alloc, kept, &log)?;
    }
    Ok(())
}

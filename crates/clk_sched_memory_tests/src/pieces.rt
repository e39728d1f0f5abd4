//! Sessions that drop their log in pieces of every length: these are together the log of a session that keeps all of it.

use clk_fixtures::Queues;
use clk_fixtures::trees::{drr_over_two, prio_over_two, round_robin_over_three, shaped_drr_path};
use clk_packet::Fault;
use clk_sched::{Keeps, Session, Tree, Visit};
use std::alloc::Global;
use std::process::Abort;

/// The lengths of the packets that each of three senders sends.
pub const LENGTHS: [u16; 3] = [100, 600, 200];

const MOMENTS: [u64; 4] = [0, 0, 3, 9];

/// The moment after which it is drained.
const CLOSED: u64 = 20;

#[derive(Clone, Copy, Debug)]
pub enum Shape {
    Priorities,
    Turns,
    Shares,
    Pace,
}

/// The trees, and how many packets are left in each after four pulls, worked out by hand. Of the shares one is then held as a head, and
/// under the Shaper, which lets two pulls through, another.
pub const SHAPES: [(Shape, u64); 4] = [
    (Shape::Priorities, 2),
    (Shape::Turns, 5),
    (Shape::Shares, 2),
    (Shape::Pace, 2),
];

pub fn tree_of(alloc: Global, shape: Shape) -> Result<Tree, Fault> {
    match shape {
        Shape::Priorities => prio_over_two(alloc),
        Shape::Turns => round_robin_over_three(alloc),
        Shape::Shares => drr_over_two(alloc, 500, 300),
        Shape::Pace => shaped_drr_path(alloc, 2, 500),
    }
}

// A session over a tree of this shape.
pub fn session_over(
    rt: &impl Abort,
    alloc: Global,
    shape: Shape,
    keeps: Keeps,
) -> Result<Session, Fault> {
    let tree = tree_of(alloc, shape)?;
    assert!(rt; tree.leaves_distinct());
    Session::keeping(alloc, tree, keeps)
}

// Queues that hold three packets each.
pub fn three_queues(alloc: Global) -> Result<Queues, Fault> {
    let mut queues = Queues::new(alloc, 3)?;
    for sender in 0..3 {
        queues.send(sender, &LENGTHS)?;
    }
    Ok(queues)
}

/// A session, and the pieces of its log that it dropped so far, in one list.
#[derive(Drop)]
struct LettingGo {
    session: Session,
    queues: Queues,
    pieces: Vec<Visit>,
}

impl LettingGo {
    fn new(rt: &impl Abort, alloc: Global, shape: Shape) -> Result<LettingGo, Fault> {
        let keeps = Keeps {
            visits: true,
            packed: false,
            packets: false,
            latest: false,
        };
        Ok(LettingGo {
            session: session_over(rt, alloc, shape, keeps)?,
            queues: three_queues(alloc)?,
            pieces: Vec::new(alloc),
        })
    }

    // Reads the visits that are kept, and drops them.
    fn take_piece(&mut self) -> Result<(), Fault> {
        self.pieces.extend_from_slice(self.session.log())?;
        self.session.let_go();
        Ok(())
    }

    fn pull(&mut self, rt: &impl Abort, moment: u64) -> Result<(), Fault> {
        assert!(rt; moment < 1 << 44);
        self.session.pull(&mut self.queues, moment)?;
        Ok(())
    }

    fn drain(&mut self, rt: &impl Abort, left: u64) -> Result<(), Fault> {
        assert!(rt; left <= 1_000_000);
        assert!(rt; self.session.now().max(CLOSED) < (1 << 43) - 1);
        self.session.drain(&mut self.queues, left, CLOSED)?;
        Ok(())
    }

    // Pulls at each moment, and drains what is left.
    fn run(&mut self, rt: &impl Abort, left: u64) -> Result<(), Fault> {
        for moment in MOMENTS {
            self.pull(rt, moment)?;
        }
        self.drain(rt, left)
    }

    // The same, and drops the visits whenever it keeps so many, and at the end.
    fn run_in_pieces(&mut self, rt: &impl Abort, left: u64, piece: usize) -> Result<(), Fault> {
        for moment in MOMENTS {
            self.pull(rt, moment)?;
            if self.session.log().len() >= piece {
                self.take_piece()?;
            }
        }
        self.drain(rt, left)?;
        self.take_piece()?;
        assert!(rt; self.session.log().is_empty());
        Ok(())
    }
}

// The log of a session that keeps all of it.
fn log_of(rt: &impl Abort, alloc: Global, shape: Shape, left: u64) -> Result<Vec<Visit>, Fault> {
    let mut session = LettingGo::new(rt, alloc, shape)?;
    session.run(rt, left)?;
    let (log, _) = session.session.into_parts();
    Ok(log)
}

// The visits of a session that drops them whenever it keeps so many.
fn in_pieces(
    rt: &impl Abort,
    alloc: Global,
    shape: Shape,
    left: u64,
    piece: usize,
) -> Result<Vec<Visit>, Fault> {
    let mut session = LettingGo::new(rt, alloc, shape)?;
    session.run_in_pieces(rt, left, piece)?;
    Ok(session.pieces)
}

#[test]
fn a_log_may_be_let_go_of_in_pieces(rt: HostRuntime) -> Result<(), Fault> {
    let alloc = rt.alloc();
    for (shape, left) in SHAPES {
        let log = log_of(&rt, alloc, shape, left)?;
        for piece in 1..=log.len() {
            let pieces = in_pieces(&rt, alloc, shape, left, piece)?;
            assert!(rt; pieces == log, "{shape:?} in pieces of {piece}");
        }
    }
    Ok(())
}

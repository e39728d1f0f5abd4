//! Moments from which on a pull could emit a packet: worked rows, and random steps.

use self::Step::{Emits, EmitsNone, IsDue, IsIdle, Sends};
use crate::random::Random;
use crate::shaped::{
    prio_over_shaper, prio_over_shapers, shaped_drr_over_two, shaped_priorities, shaped_shares,
    shaped_turns, shaper_over_shaper,
};
use clk_fixtures::Queues;
use clk_fixtures::trees::{drr_over_drr, drr_over_one, shaped_drr_path, stride_over_two};
use clk_packet::{Fault, Packet};
use clk_sched::{Keeps, Session, Tree};
use std::alloc::Global;
use std::process::Abort;

/// How many queues there are, each with a sender of its number.
const QUEUES: u16 = 3;

/// How many steps are taken at random with each tree.
const RANDOM_STEPS: u32 = 400;

/// A step of a row, with what it comes to.
#[derive(Clone, Copy)]
enum Step {
    /// A packet of a sender, of this length, goes to the queue of the sender's number.
    Sends(u16, u16),
    /// A pull at this moment emits the packet of this sender and this number.
    Emits(u64, u16, u32),
    /// A pull at this moment emits none.
    EmitsNone(u64),
    /// A pull could emit a packet from this moment on.
    IsDue(u64),
    /// No packet is left.
    IsIdle,
}

/// A session and the queues that it pulls from.
#[derive(Drop)]
struct Bench {
    session: Session,
    queues: Queues,
    // How many packets are in queues and heads.
    left: u64,
}

impl Bench {
    fn new(rt: &impl Abort, alloc: Global, tree: Result<Tree, Fault>) -> Bench {
        let tree = tree.expect(rt, "a tree");
        assert!(rt; tree.leaves_distinct());
        Bench {
            session: Session::keeping(alloc, tree, Keeps::NOTHING).expect(rt, "ample memory"),
            queues: Queues::new(alloc, QUEUES).expect(rt, "ample memory"),
            left: 0,
        }
    }

    fn send(&mut self, rt: &impl Abort, sender: u16, length: u16) {
        let sent = self.queues.send_one(sender, length);
        sent.expect(rt, "ample memory");
        self.left = self.left.saturating_add(1);
    }

    fn pull(&mut self, rt: &impl Abort, moment: u64) -> Option<Packet> {
        assert!(rt; moment < 1 << 44);
        let pulled = self.session.pull(&mut self.queues, moment);
        let got = pulled.expect(rt, "nothing is kept");
        if got.is_some() {
            self.left = self.left.saturating_sub(1);
        }
        got
    }

    // The due moment. There is one exactly if a packet is left, and it is the counted moment or the next.
    fn due(&self, rt: &impl Abort) -> Option<u64> {
        let due = self.session.due(&self.queues);
        assert_eq!(rt; due.is_some(), self.left > 0);
        if let Some(due) = due {
            let now = self.session.now();
            assert!(rt; due == now || due == now + 1);
        }
        due
    }

    // Does a step. Returns whether it came to what it says.
    fn does(&mut self, rt: &impl Abort, step: Step) -> bool {
        match step {
            Sends(sender, length) => {
                self.send(rt, sender, length);
                true
            }
            Emits(moment, sender, number) => self.pull(rt, moment).is_some_and(|packet| (
                packet.sender,
                packet.number,
            ) == (sender, number)),
            EmitsNone(moment) => self.pull(rt, moment).is_none(),
            IsDue(moment) => self.due(rt) == Some(moment),
            IsIdle => self.due(rt).is_none(),
        }
    }

    // Pulls at this moment. Returns whether packets were left and none was due. Then a pull emits none.
    fn is_early(&mut self, rt: &impl Abort, moment: u64) -> bool {
        let due = self.due(rt);
        let counted = self.session.now().max(moment);
        let got = self.pull(rt, moment);
        match due {
            Some(due) if due <= counted => false,
            due => {
                assert_eq!(rt; got, None);
                due.is_some()
            }
        }
    }

    // Pulls at the due moment, if there is one, until a packet is emitted, as often as the closing bound allows. Returns whether a pull
    // emitted none.
    fn saves_up(&mut self, rt: &impl Abort) -> bool {
        let Some(due) = self.due(rt) else {
            return false;
        };
        assert!(rt; self.left <= 1_000_000);
        for pull in 0..self.session.bound(self.left) {
            if self.pull(rt, due).is_some() {
                return pull > 0;
            }
        }
        panic!(rt; "no packet is emitted")
    }
}

// Takes the steps of a row over its tree.
fn assert_steps(
    rt: &impl Abort,
    alloc: Global,
    name: &str,
    tree: Result<Tree, Fault>,
    steps: &[Step],
) {
    let mut bench = Bench::new(rt, alloc, tree);
    for (place, step) in steps.iter().enumerate() {
        assert!(rt; bench.does(rt, *step), "{name}: step {place}");
    }
}

// A queue has a packet at once, and a DRRSched that saves up for a head could emit it.
#[test]
fn packets_are_due_at_once(rt: HostRuntime) {
    let alloc = rt.alloc();
    for (name, tree, steps) in [
        (
            "a queue",
            Ok(Tree::leaf(0)),
            &[
                IsIdle,
                Sends(0, 10),
                IsDue(0),
                Emits(5, 0, 0),
                IsIdle,
                Sends(0, 10),
                IsDue(5),
                Emits(2, 0, 1),
                IsIdle,
            ][..],
        ),
        (
            "the last queue of a StrideSched",
            stride_over_two(alloc, 2, 1),
            &[IsIdle, Sends(1, 10), IsDue(0), Emits(3, 1, 0), IsIdle][..],
        ),
        // The third quantum is enough.
        (
            "a DRRSched that saves up",
            drr_over_one(alloc, 500),
            &[
                Sends(0, 1200),
                IsDue(0),
                EmitsNone(0),
                IsDue(0),
                EmitsNone(7),
                IsDue(7),
                Emits(7, 0, 0),
                IsIdle,
            ][..],
        ),
        (
            "a head held in a DRRSched below another",
            drr_over_drr(alloc),
            &[Sends(0, 1000), IsDue(0), EmitsNone(4), IsDue(4)][..],
        ),
    ] {
        assert_steps(&rt, alloc, name, tree, steps);
    }
}

// A Shaper that has no room has room at the next tick.
#[test]
fn a_shaper_without_burst_has_room_at_the_next_tick(rt: HostRuntime) {
    let alloc = rt.alloc();
    let steps = [
        IsIdle,
        Sends(0, 10),
        Sends(0, 10),
        IsDue(0),
        Emits(3, 0, 0),
        IsDue(4),
        EmitsNone(3),
        IsDue(4),
        Emits(4, 0, 1),
        IsIdle,
        Sends(0, 10),
        IsDue(5),
        Emits(9, 0, 2),
        IsIdle,
    ];
    let tree = Tree::shaper(alloc, 1, 1, Tree::leaf(0));
    assert_steps(&rt, alloc, "a Shaper without burst", tree, &steps);
}

#[test]
fn a_shaper_with_burst_left_has_room_at_once(rt: HostRuntime) {
    let alloc = rt.alloc();
    let steps = [
        Sends(0, 10),
        Sends(0, 10),
        Sends(0, 10),
        Sends(0, 10),
        Emits(0, 0, 0),
        IsDue(0),
        Emits(0, 0, 1),
        IsDue(1),
        Emits(1, 0, 2),
        IsDue(2),
        Emits(4, 0, 3),
        IsIdle,
        Sends(0, 10),
        IsDue(4),
    ];
    let tree = Tree::shaper(alloc, 1, 2, Tree::leaf(0));
    assert_steps(&rt, alloc, "a Shaper with burst left", tree, &steps);
}

#[test]
fn a_shaper_keeps_its_room_while_a_drr_saves_up(rt: HostRuntime) {
    let alloc = rt.alloc();
    let steps = [
        Sends(0, 600),
        Sends(0, 10),
        IsDue(0),
        EmitsNone(0),
        IsDue(0),
        Emits(0, 0, 0),
        IsDue(1),
        Emits(1, 0, 1),
        IsIdle,
    ];
    let tree = shaped_drr_path(alloc, 1, 500);
    assert_steps(&rt, alloc, "a Shaper over a DRRSched", tree, &steps);
}

// The DRRSched holds the packet of queue 0 as a head, and both queues are empty.
#[test]
fn a_head_below_a_shaper_is_due_when_it_has_room(rt: HostRuntime) {
    let alloc = rt.alloc();
    let steps = [
        Sends(0, 1000),
        Sends(1, 100),
        IsDue(0),
        Emits(0, 1, 0),
        IsDue(1),
        EmitsNone(0),
        IsDue(1),
        Emits(1, 0, 0),
        IsIdle,
    ];
    let tree = shaped_drr_over_two(alloc);
    assert_steps(&rt, alloc, "a Shaper over a head", tree, &steps);
}

// The upper one has no burst, and then the lower one.
#[test]
fn both_of_two_shapers_in_a_row_need_room(rt: HostRuntime) {
    let alloc = rt.alloc();
    for (upper, lower) in [(1, 2), (2, 1)] {
        let steps = [
            Sends(0, 10),
            Sends(0, 10),
            Emits(0, 0, 0),
            IsDue(1),
            Emits(1, 0, 1),
        ];
        let tree = shaper_over_shaper(alloc, upper, lower);
        assert_steps(&rt, alloc, "two Shapers in a row", tree, &steps);
    }
}

#[test]
fn a_queue_beside_a_shaper_without_room_is_due(rt: HostRuntime) {
    let alloc = rt.alloc();
    let steps = [
        Sends(0, 10),
        Sends(0, 10),
        Sends(1, 10),
        Emits(0, 0, 0),
        IsDue(0),
        Emits(0, 1, 0),
        IsDue(1),
        EmitsNone(0),
        Emits(1, 0, 1),
        IsIdle,
    ];
    let tree = prio_over_shaper(alloc);
    assert_steps(&rt, alloc, "a Shaper and a queue", tree, &steps);
}

// The first Shaper's burst is 1, and the second's is 2.
#[test]
fn one_of_two_shapers_side_by_side_needs_room(rt: HostRuntime) {
    let alloc = rt.alloc();
    let steps = [
        Sends(0, 10),
        Sends(0, 10),
        Sends(1, 10),
        Sends(1, 10),
        Sends(1, 10),
        Emits(0, 0, 0),
        IsDue(0),
        Emits(0, 1, 0),
        IsDue(0),
        Emits(0, 1, 1),
        IsDue(1),
        EmitsNone(0),
        Emits(1, 0, 1),
        IsDue(1),
        Emits(1, 1, 2),
        IsIdle,
    ];
    let tree = prio_over_shapers(alloc);
    assert_steps(&rt, alloc, "two Shapers side by side", tree, &steps);
}

/// What random steps came upon: pulls before the due moment, and packets for which a DRRSched saved up at the due moment.
#[derive(Drop)]
struct Met {
    early: u32,
    saved_up: u32,
}

// Takes a step: a packet is sent, or a pull is made at a moment near the counted one, or pulls at the due moment.
fn step_at_random(rt: &impl Abort, bench: &mut Bench, random: &mut Random, met: &mut Met) {
    match random.below(5) {
        0 | 1 => bench.send(rt, random.below(QUEUES), 1 + random.below(1500)),
        2 | 3 => {
            let moment = bench.session.now() + u64::from(random.below(2));
            if bench.is_early(rt, moment) {
                met.early = met.early.saturating_add(1);
            }
        }
        _ => {
            if bench.saves_up(rt) {
                met.saved_up = met.saved_up.saturating_add(1);
            }
        }
    }
}

// No pull before the due moment emits a packet, and pulls at the due moment do.
#[test]
fn random_steps_emit_when_due(rt: HostRuntime) {
    let alloc = rt.alloc();
    for (name, tree) in [
        ("shares", shaped_shares(alloc)),
        ("priorities", shaped_priorities(alloc)),
        ("turns", shaped_turns(alloc)),
    ] {
        let mut bench = Bench::new(&rt, alloc, tree);
        let mut random = Random::new(1);
        let mut met = Met {
            early: 0,
            saved_up: 0,
        };
        for _ in 0..RANDOM_STEPS {
            step_at_random(&rt, &mut bench, &mut random, &mut met);
        }
        assert!(rt; met.early > 10, "{name}: {} early pulls", met.early);
        assert!(rt; met.saved_up > 10, "{name}: {} saved up", met.saved_up);
    }
}

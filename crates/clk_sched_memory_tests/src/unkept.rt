//! Sessions that keep nothing, or only their latest pull, emit what a session emits that keeps all.

ghost use Rattle.std.specs.Prelude.{◌≤◌};

use clk_fixtures::Queues;
use clk_fixtures::trees::{
    drr_over_stride, prio_over_two, round_robin_over_three, shaped_drr_path, three_levels,
};
use clk_packet::Fault;
use clk_sched::{END_OF_DRAINS, Keeps, Session, Tree};
use std::alloc::Global;
use std::process::Abort;

/// How many queues there are, each with a sender of its number.
const QUEUES: u16 = 13;

/// What a session keeps that allocates nothing as it goes on.
const STEADY: [Keeps; 2] = [Keeps::NOTHING, Keeps::LATEST];

/// Two sessions over the same tree, each with queues of its own: one that keeps all, and one that keeps little.
#[derive(Drop)]
struct Both {
    keeping: Session,
    queues: Queues,
    bare: Session,
    others: Queues,
    /// Whether the one that keeps little keeps its latest pull.
    latest: bool,
}

impl Both {
    fn new(
        rt: &impl Abort,
        alloc: Global,
        tree: Result<Tree, Fault>,
        again: Result<Tree, Fault>,
        keeps: Keeps,
    ) -> Both {
        let bare = session(rt, alloc, again, keeps);
        assert!(rt; bare.latest().is_empty());
        Both {
            keeping: session(rt, alloc, tree, Keeps::ALL),
            queues: queues(rt, alloc),
            bare,
            others: queues(rt, alloc),
            latest: keeps.latest,
        }
    }

    // Packets of each sender go to its queues.
    fn send(&mut self, lengths: &[u16]) -> Result<(), Fault> {
        for sender in 0..QUEUES {
            self.queues.send(sender, lengths)?;
            self.others.send(sender, lengths)?;
        }
        Ok(())
    }

    // Packets of one sender go to its queues.
    fn send_one(&mut self, sender: u16, lengths: &[u16]) -> Result<(), Fault> {
        self.queues.send(sender, lengths)?;
        self.others.send(sender, lengths)
    }

    // Pulls both at each of these moments.
    fn pulls(&mut self, rt: &impl Abort, moments: &[u64]) -> Result<(), Fault> {
        for moment in moments {
            self.pull(rt, *moment)?;
        }
        Ok(())
    }

    fn pull(&mut self, rt: &impl Abort, moment: u64) -> Result<(), Fault> {
        assert!(rt; moment < 1 << 44);
        let before = self.keeping.log().len();
        let got = self.bare.pull(&mut self.others, moment)?;
        assert_eq!(rt; got, self.keeping.pull(&mut self.queues, moment)?);
        if self.latest {
            assert_eq!(rt; Some(self.bare.latest()), self.keeping.log().get(before..));
        } else {
            assert!(rt; self.bare.latest().is_empty());
        }
        Ok(())
    }

    // Drains both of so many packets.
    fn drain(&mut self, rt: &impl Abort, left: u64, moment: u64) {
        assert!(rt; left <= 1_000_000);
        let kept = drain(rt, &mut self.keeping, &mut self.queues, left, moment);
        let unkept = drain(rt, &mut self.bare, &mut self.others, left, moment);
        assert_eq!(rt; unkept, kept);
    }

    // Fails unless both emitted so many packets by now, and hold the same heads.
    fn assert_same(&self, rt: &impl Abort, alloc: Global, emitted: usize) -> Result<(), Fault> {
        assert_eq!(rt; self.bare.now(), self.keeping.now());
        assert_eq!(rt; self.bare.pulls(), self.keeping.pulls());
        assert_eq!(rt; self.keeping.as_emitted().len(), emitted);
        assert_eq!(rt; self.bare.count_emitted(), emitted as u64);
        assert!(rt; self.bare.as_emitted().is_empty());
        assert!(rt; self.bare.log().is_empty());
        self.assert_same_heads(rt, alloc)
    }

    fn assert_same_heads(&self, rt: &impl Abort, alloc: Global) -> Result<(), Fault> {
        let heads = self.bare.held_heads(alloc)?;
        let others = self.keeping.held_heads(alloc)?;
        assert!(rt; heads == others, "the same heads");
        Ok(())
    }
}

fn queues(rt: &impl Abort, alloc: Global) -> Queues {
    Queues::new(alloc, QUEUES).expect(rt, "ample memory")
}

// A session of a tree that keeps this.
fn session(rt: &impl Abort, alloc: Global, tree: Result<Tree, Fault>, keeps: Keeps) -> Session {
    let tree = tree.expect(rt, "a tree");
    assert!(rt; tree.leaves_distinct());
    Session::keeping(alloc, tree, keeps).expect(rt, "ample memory")
}

fn drain(
    rt: &impl Abort,
    session: &mut Session,
    queues: &mut Queues,
    left: u64,
    moment: u64,
) -> Result<u64, Fault>
    requires { left ≤ 1000000 }
{
    assert!(rt; session.now().max(moment) < END_OF_DRAINS);
    session.drain(queues, left, moment)
}

// Sends three packets of each sender, pulls six times, which emits so many packets, and sends one more of each. Then drains the tree of
// what is left, and of a packet that it hasn't.
fn assert_alike(
    rt: &impl Abort,
    alloc: Global,
    both: &mut Both,
    first: usize,
    left: usize,
) -> Result<(), Fault> {
    both.send(&[150, 40, 900])?;
    both.pulls(rt, &[0, 0, 0, 2, 1, 7])?;
    both.assert_same(rt, alloc, first)?;
    both.send(&[60_000])?;
    both.drain(rt, left as u64, 9);
    both.assert_same(rt, alloc, first.saturating_add(left))?;
    both.drain(rt, 1, 0);
    both.assert_same(rt, alloc, first.saturating_add(left))
}

// Fails unless a session that keeps this, over the second of two trees that are alike, emits what one emits that keeps all, over the first.
fn assert_alike_over(
    rt: &impl Abort,
    alloc: Global,
    trees: (Result<Tree, Fault>, Result<Tree, Fault>),
    keeps: Keeps,
    first: usize,
    left: usize,
) -> Result<(), Fault> {
    let (tree, again) = trees;
    let mut both = Both::new(rt, alloc, tree, again, keeps);
    assert_alike(rt, alloc, &mut both, first, left)
}

#[test]
fn priorities_need_no_log(rt: HostRuntime) -> Result<(), Fault> {
    let alloc = rt.alloc();
    for keeps in STEADY {
        let trees = (prio_over_two(alloc), prio_over_two(alloc));
        assert_alike_over(&rt, alloc, trees, keeps, 6, 2)?;
    }
    Ok(())
}

#[test]
fn turns_need_no_log(rt: HostRuntime) -> Result<(), Fault> {
    let alloc = rt.alloc();
    for keeps in STEADY {
        let trees = (round_robin_over_three(alloc), round_robin_over_three(alloc));
        assert_alike_over(&rt, alloc, trees, keeps, 6, 6)?;
    }
    Ok(())
}

// Of 52 packets, five are emitted in the first six pulls: none in the first, in which all five inputs come to hold a head.
#[test]
fn shares_need_no_log(rt: HostRuntime) -> Result<(), Fault> {
    let alloc = rt.alloc();
    for keeps in STEADY {
        let trees = (drr_over_stride(alloc), drr_over_stride(alloc));
        assert_alike_over(&rt, alloc, trees, keeps, 5, 47)?;
    }
    Ok(())
}

// Two packets pass the Shaper, at moments 0 and 2. The third is held in a DRRSched.
#[test]
fn pace_needs_no_log(rt: HostRuntime) -> Result<(), Fault> {
    let alloc = rt.alloc();
    for keeps in STEADY {
        let trees = (
            shaped_drr_path(alloc, 2, 500),
            shaped_drr_path(alloc, 2, 500),
        );
        assert_alike_over(&rt, alloc, trees, keeps, 2, 2)?;
    }
    Ok(())
}

// Packets come from one sender after another, so most subtrees are idle at a time. A session that keeps nothing skips them.
#[test]
fn idle_subtrees_need_no_log(rt: HostRuntime) -> Result<(), Fault> {
    let alloc = rt.alloc();
    for keeps in STEADY {
        let (tree, again) = (three_levels(alloc), three_levels(alloc));
        let mut both = Both::new(&rt, alloc, tree, again, keeps);
        assert_alike_in_turn(&rt, alloc, &mut both)?;
    }
    Ok(())
}

fn assert_alike_in_turn(rt: &impl Abort, alloc: Global, both: &mut Both) -> Result<(), Fault> {
    for sender in 0..8 {
        both.send_one(sender, &[150, 900, 40])?;
        both.pulls(rt, &[0, 0, 0, 1, 2, 3, 3, 4])?;
        both.assert_same_heads(rt, alloc)?;
    }
    both.pulls(rt, &[9, 9, 9, 9, 10, 11, 12, 13, 14, 15, 16, 17])?;
    both.assert_same(rt, alloc, 24)
}

//! The greatest trees, moments, packets that stay below a head, and drains that come to nothing.

use crate::row::Step::{Ask, Bound, Drain, Heads, Last, Now, Pull, Send, Visits};
use crate::row::{assert_refused, assert_shows};
use clk_fixtures::trees::{drr_over_drr, drr_over_one, drr_over_prio, drr_over_two, prio_path};
use clk_packet::Fault;
use clk_sched::Tree;
use std::alloc::{AllocError, Global};
use std::process::Abort;

// A PrioSched over four, of which three are over 64 queues each, and the last over those that are left. With the device that is
// six more nodes than queues.
fn wide(rt: &impl Abort, alloc: Global, queues: u16) -> Result<Tree, Fault> {
    Tree::prio(vec![in alloc;
        prio_over(rt, alloc, 0, 64),
        prio_over(rt, alloc, 64, 128),
        prio_over(rt, alloc, 128, 192),
        prio_over(rt, alloc, 192, queues),
    ]?)
}

// A PrioSched over the queues from `first` to before `end`.
fn prio_over(rt: &impl Abort, alloc: Global, first: u16, end: u16) -> Tree {
    let children = leaves(alloc, first, end).expect(rt, "ample memory");
    assert!(rt; !children.is_empty());
    Tree::prio(children).expect(rt, "few children")
}

fn leaves(alloc: Global, first: u16, end: u16) -> Result<Vec<Tree>, AllocError> {
    let mut leaves = Vec::new(alloc);
    for queue in first..end {
        leaves.push(Tree::leaf(queue))?;
    }
    Ok(leaves)
}

#[test]
fn a_drain_of_nothing_stops_at_the_bound(rt: HostRuntime) {
    let tree = Ok(Tree::leaf(0));
    let steps = [Drain(1, 0), Visits];
    let expected = "drain: fault 17: TooManyPulls 1\n\
        0,0,0,1,,,,0,1\n";
    assert_shows(&rt, rt.alloc(), tree, &steps, expected);
}

// If each input has a quantum of its own, the least counts. If one DRRSched is above another, both count.
#[test]
fn the_least_quantum_and_the_longest_path_bound_the_pulls(rt: HostRuntime) {
    for (tree, expected) in [
        (drr_over_one(rt.alloc(), 1), "bound: 131072\n"),
        (drr_over_one(rt.alloc(), 500), "bound: 266\n"),
        (drr_over_two(rt.alloc(), 500, 1), "bound: 131072\n"),
        (drr_over_drr(rt.alloc()), "bound: 660\n"),
    ] {
        assert_shows(&rt, rt.alloc(), tree, &[Bound(1)], expected);
    }
}

#[test]
fn a_drain_of_none_left_pulls_nothing(rt: HostRuntime) {
    let tree = Ok(Tree::leaf(0));
    let steps = [
        Send(0, &[10, 10]),
        Pull(&[3]),
        Drain(0, 7),
        Now,
        Visits,
        Ask(0),
    ];
    let expected = "pull 3: 0#0 10\n\
        drain: 0\n\
        now: 3\n\
        0,0,0,1,0,0,10,1,3\n\
        queue 0: 0#1 10\n";
    assert_shows(&rt, rt.alloc(), tree, &steps, expected);
}

#[test]
fn the_moment_never_falls(rt: HostRuntime) {
    let tree = Ok(Tree::leaf(0));
    let steps = [Now, Pull(&[5]), Now, Pull(&[3]), Now];
    let expected = "now: 0\npull 5: none\nnow: 5\npull 3: none\nnow: 5\n";
    assert_shows(&rt, rt.alloc(), tree, &steps, expected);
}

// A DRRSched asks what stands below it for one packet, and holds that back.
#[test]
fn one_head_is_held_of_two_queues(rt: HostRuntime) {
    let tree = drr_over_prio(rt.alloc());
    let steps = [
        Send(0, &[10]),
        Send(1, &[10]),
        Pull(&[0]),
        Heads,
        Ask(0),
        Ask(1),
    ];
    let expected = "pull 0: none\nheads: 0#0 10\nqueue 0: none\nqueue 1: 1#0 10\n";
    assert_shows(&rt, rt.alloc(), tree, &steps, expected);
}

#[test]
fn with_the_device_256_are_a_session(rt: HostRuntime) {
    let tree = wide(&rt, rt.alloc(), 250);
    let steps = [Send(249, &[10]), Pull(&[0])];
    let expected = "pull 0: 249#0 10\n";
    assert_shows(&rt, rt.alloc(), tree, &steps, expected);
    let tree = wide(&rt, rt.alloc(), 251).expect(&rt, "a tree");
    assert_refused(&rt, rt.alloc(), tree, Fault::TooLarge);
}

// The visit of the device is the last.
#[test]
fn a_path_of_64_schedulers_is_pulled(rt: HostRuntime) {
    let tree = prio_path(rt.alloc(), 64);
    let steps = [Send(0, &[10]), Pull(&[0]), Last];
    let expected = "pull 0: 0#0 10\n\
        visits: 65\n\
        0,0,0,1,0,0,10,1,0\n";
    assert_shows(&rt, rt.alloc(), tree, &steps, expected);
}

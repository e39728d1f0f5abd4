//! Sessions that are drained, and what the drains return.

use crate::shared::{assert_drained, close, line, packet, queues};
use clk_packet::{Fault, Kind, Packet};
use clk_sched::{Tree, Visit};
use std::alloc::Global;
use std::process::Abort;
use std::sync::Wait;

// A visit of node 1 to an input, fresh or not, with what it got and whether it passed that on.
fn look(
    pull: u64,
    moment: u64,
    input: u16,
    fresh: bool,
    got: Option<Packet>,
    passed: bool,
) -> Visit {
    Visit {
        pull,
        moment,
        got,
        node: 1,
        input,
        fresh,
        passed,
    }
}

#[test]
fn close_and_drain_one(rt: HostRuntime) -> Result<(), Fault> {
    let alloc = rt.alloc();
    let sent = [packet(0, 0, 10), packet(0, 1, 20), packet(0, 2, 30)];
    let offers = [(0, 10), (0, 20), (0, 30)];
    let line = line(&rt, alloc, 0, Kind::TailDrop, 2, &[(0, 3)], &offers)?;
    let drained = close(&rt, alloc, Tree::leaf(0), vec![in alloc; line]?, &[], 0)?;
    let log = [
        Visit::asking(0, 1, 0, 0, Some(sent[0])),
        Visit::asking(1, 2, 0, 0, Some(sent[1])),
    ];
    let tallies = [(0, &sent[..2], &sent[2..], &[][..])];
    assert_drained(&rt, &drained, &sent[..2], &log, &tallies);
    Ok(())
}

// It is drained from the last moment that a script may name, after a sender that sent nothing.
#[test]
fn a_late_moment_is_drained(rt: HostRuntime) -> Result<(), Fault> {
    let alloc = rt.alloc();
    let sent = [packet(0, 0, 10), packet(0, 1, 20)];
    let senders = [(0, 5), (1, 0)];
    let line = line(
        &rt,
        alloc,
        0,
        Kind::TailDrop,
        10,
        &senders,
        &[(0, 10), (0, 20)],
    )?;
    let last = 1_099_511_627_775;
    let drained = close(&rt, alloc, Tree::leaf(0), vec![in alloc; line]?, &[], last)?;
    let log = [
        Visit::asking(0, 1_099_511_627_776, 0, 0, Some(sent[0])),
        Visit::asking(1, 1_099_511_627_777, 0, 0, Some(sent[1])),
    ];
    let none = &[][..];
    let tallies = [(0, &sent[..], none, none), (1, none, none, none)];
    assert_drained(&rt, &drained, &sent, &log, &tallies);
    Ok(())
}

#[test]
fn each_evicted_packet_is_its_own_senders(rt: HostRuntime) -> Result<(), Fault> {
    let alloc = rt.alloc();
    let of_3 = [packet(3, 0, 1), packet(3, 1, 3)];
    let of_7 = [packet(7, 0, 2), packet(7, 1, 4), packet(7, 2, 5)];
    let offers = [(0, 1), (1, 2), (0, 3), (1, 4), (1, 5)];
    let senders = [(3, 3), (7, 3)];
    let line = line(&rt, alloc, 0, Kind::FrontDrop, 2, &senders, &offers)?;
    let drained = close(&rt, alloc, Tree::leaf(0), vec![in alloc; line]?, &[], 5)?;
    let log = [
        Visit::asking(0, 6, 0, 0, Some(of_7[1])),
        Visit::asking(1, 7, 0, 0, Some(of_7[2])),
    ];
    let none = &[][..];
    let tallies = [
        (3, &of_3[..], none, &of_3[..]),
        (7, &of_7, none, &of_7[..1]),
    ];
    assert_drained(&rt, &drained, &of_7[1..], &log, &tallies);
    Ok(())
}

// tests/refuse-memory makes each allocation of this test fail in turn.
#[test]
fn held_heads_are_drained(rt: HostRuntime) {
    assert_eq!(rt; held_heads(&rt, rt.alloc()).err(), None);
}

// The pull before the drain leaves two heads, for which the quanta are too small then.
fn held_heads<R: Abort + Wait>(rt: &R, alloc: Global) -> Result<(), Fault> {
    let sent = [packet(1, 0, 3), packet(5, 0, 2), packet(9, 0, 1)];
    let [of_1, of_5, of_9] = sent;
    let lines = vec![in alloc;
        line(rt, alloc, 0, Kind::TailDrop, 4, &[(5, 1)], &[(0, 2)])?,
        line(rt, alloc, 1, Kind::TailDrop, 4, &[(1, 1)], &[(0, 3)])?,
        line(rt, alloc, 2, Kind::TailDrop, 4, &[(9, 1)], &[(0, 1)])?,
    ]?;
    let tree = Tree::drr(vec![in alloc; 1, 1, 1]?, queues(alloc, &[0, 1, 2])?)?;
    let drained = close(rt, alloc, tree, lines, &[of_9], 0)?;
    let log = [
        look(0, 0, 0, true, Some(of_5), false),
        look(0, 0, 1, true, Some(of_1), false),
        look(0, 0, 2, true, Some(of_9), true),
        Visit::asking(0, 0, 0, 0, Some(of_9)),
        // The pull goes on at the input that passed, where nothing is left.
        look(1, 1, 2, true, None, false),
        look(1, 1, 0, false, Some(of_5), true),
        Visit::asking(1, 1, 0, 0, Some(of_5)),
        // The longest packet waits for its third quantum, and this pull gives nothing.
        look(2, 2, 0, true, None, false),
        look(2, 2, 1, false, Some(of_1), false),
        look(2, 2, 2, true, None, false),
        Visit::asking(2, 2, 0, 0, None),
        look(3, 3, 0, true, None, false),
        look(3, 3, 1, false, Some(of_1), true),
        Visit::asking(3, 3, 0, 0, Some(of_1)),
    ];
    let none = &[][..];
    let tallies = [
        (1, &sent[..1], none, none),
        (5, &sent[1..2], none, none),
        (9, &sent[2..], none, none),
    ];
    assert_drained(rt, &drained, &[of_9, of_5, of_1], &log, &tallies);
    Ok(())
}

#[test]
fn a_line_without_a_sender_gives_nothing(rt: HostRuntime) -> Result<(), Fault> {
    let alloc = rt.alloc();
    let sent = [packet(2, 0, 7), packet(2, 1, 8)];
    let lines = vec![in alloc;
        line(&rt, alloc, 0, Kind::TailDrop, 1, &[], &[])?,
        line(
            &rt,
            alloc,
            1,
            Kind::TailDrop,
            3,
            &[(2, 2)],
            &[(0, 7), (0, 8)]
        )?,
    ]?;
    let tree = Tree::prio(queues(alloc, &[0, 1])?)?;
    let drained = close(&rt, alloc, tree, lines, &[], 0)?;
    let log = [
        look(0, 1, 0, true, None, false),
        look(0, 1, 1, true, Some(sent[0]), true),
        Visit::asking(0, 1, 0, 0, Some(sent[0])),
        look(1, 2, 0, true, None, false),
        look(1, 2, 1, true, Some(sent[1]), true),
        Visit::asking(1, 2, 0, 0, Some(sent[1])),
    ];
    let tallies = [(2, &sent[..], &[][..], &[][..])];
    assert_drained(&rt, &drained, &sent, &log, &tallies);
    Ok(())
}

#[test]
fn nothing_offered_leaves_nothing_to_drain(rt: HostRuntime) -> Result<(), Fault> {
    let alloc = rt.alloc();
    let line = line(&rt, alloc, 0, Kind::TailDrop, 2, &[(4, 3)], &[])?;
    let drained = close(&rt, alloc, Tree::leaf(0), vec![in alloc; line]?, &[], 0)?;
    let none = &[][..];
    assert_drained(&rt, &drained, none, &[], &[(4, none, none, none)]);
    Ok(())
}

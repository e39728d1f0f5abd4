//! Rows in which a pull or a drain fails and is made again: results and logs are those of the rows undisturbed. tests/refuse-memory makes
//! each allocation of the tests fail in turn.

ghost use Rattle.std.specs.Prelude.{◌≤◌};

use clk_fixtures::trees::{drr_over_one, drr_over_two};
use clk_packet::{Fault, Packet};
use clk_rows::DEFICIT_TWO_QUEUES;
use clk_rows::script::{Command, command_of};
use clk_sched::{Ask, Session, Tree, Visit};
use std::alloc::Global;
use std::process::Abort;

/// The calls that may fail.
#[derive(Clone, Copy, Debug, PartialEq, Eq)]
enum Call {
    // What the test itself makes.
    Setup,
    Pull,
    Drain,
}

/// The pulls that the longest packet takes at a quantum of a byte.
const PULLS: u64 = 65_535;

fn packet(sender: u16, number: u32, length: u16) -> Packet
    requires { 1 ≤ length }
{
    Packet {
        number,
        sender,
        length,
    }
}

/// Packets in the order in which they were sent, each at the queue of its sender's number, and how many each sender sent. They aren't
/// allocated.
#[derive(Clone, Copy, Debug, Drop, PartialEq, Eq)]
struct Sent {
    packets: [Option<Packet>; 3],
    counts: [u32; 2],
}

impl Sent {
    fn none() -> Sent {
        Sent {
            packets: [None; 3],
            counts: [0; 2],
        }
    }

    fn send(&mut self, rt: &impl Abort, sender: u16, length: u16) {
        let number = self.next_number(rt, sender);
        assert!(rt; length >= 1);
        for place in &mut self.packets {
            if place.is_none() {
                *place = Some(packet(sender, number, length));
                return;
            }
        }
    }

    fn next_number(&mut self, rt: &impl Abort, sender: u16) -> u32 {
        let count = self.counts.get_mut(usize::from(sender));
        let count = count.expect(rt, "one of two senders");
        let number = *count;
        *count = number.saturating_add(1);
        number
    }
}

impl Ask for Sent {
    ghost use Rattle.std.specs.Prelude.{true};

    ghost has = { λ s leaf. true };

    ghost holds = { λ s leaf. 0 };

    ghost gives = { λ s leaf got t. Unit };

    fn ask(&mut self, leaf: u16) -> Option<Packet> {
        for place in &mut self.packets {
            if place.is_some_and(|packet| packet.sender == leaf) {
                return place.take();
            }
        }
        None
    }
}

#[derive(Drop)]
struct Row {
    session: Session,
    refused: Option<Call>,
}

impl Row {
    // A pull that fails has changed nothing and asked nothing. A pull returns what the device got.
    fn pull(&mut self, rt: &impl Abort, sent: &mut Sent, moment: u64) {
        let before = (self.session.log().len(), self.session.now(), *sent);
        assert!(rt; moment < 1 << 44);
        let mut got = self.session.pull(sent, moment);
        if let Err(fault) = got {
            self.note(rt, Call::Pull, fault);
            let after = (self.session.log().len(), self.session.now(), *sent);
            assert_eq!(rt; after, before);
            got = self.session.pull(sent, moment);
        }
        let last = self.session.log().last().expect(rt, "a visit");
        assert_eq!(rt; got, Ok(last.got));
    }

    // Drains the longest packet from moment 0 on, a pull a tick, and goes on if that fails.
    fn drain(&mut self, rt: &impl Abort, sent: &mut Sent) {
        let mut before = self.session.now();
        assert_eq!(rt; before, 0);
        let mut made = self.session.drain(sent, 1, 0);
        if let Err(fault) = made {
            self.note(rt, Call::Drain, fault);
            before = self.session.now();
            assert!(rt; before < PULLS);
            made = self.session.drain(sent, 1, 0);
        }
        assert_eq!(rt; made, Ok(PULLS - before));
    }

    // Sends and pulls as a script says.
    fn follow(&mut self, rt: &impl Abort, sent: &mut Sent, script: &str) {
        for line in script.lines() {
            match command_of(line).expect(rt, "a command") {
                Command::Send(sender, length) => sent.send(rt, sender, length),
                Command::Pull(moment) | Command::Drain(moment) => self.pull(rt, sent, moment),
            }
        }
    }

    // Notes that a call failed. It is the only one, since only one allocation fails.
    fn note(&mut self, rt: &impl Abort, call: Call, fault: Fault) {
        assert_eq!(rt; (fault, self.refused), (Fault::Memory, None));
        self.refused = Some(call);
    }
}

// A session of a tree, or none if the test's own part failed.
fn row_of(rt: &impl Abort, alloc: Global, tree: Result<Tree, Fault>) -> Option<Row> {
    let tree = tree.ok()?;
    assert!(rt; tree.leaves_distinct());
    Some(Row {
        session: Session::new(alloc, tree).ok()?,
        refused: None,
    })
}

/// What a visit shows: pull, node, input, fresh, then sender, number and length of what was got, passed, moment.
type Numbers = [Option<u64>; 9];

fn numbers_of(visit: &Visit) -> Numbers {
    let got = visit.got;
    [
        Some(visit.pull),
        Some(visit.node.into()),
        Some(visit.input.into()),
        Some(visit.fresh.into()),
        got.map(|packet| packet.sender.into()),
        got.map(|packet| packet.number.into()),
        got.map(|packet| packet.length.into()),
        Some(visit.passed.into()),
        Some(visit.moment),
    ]
}

// The numbers in a line of the CSV of visits.
fn numbers_in(line: &str) -> Numbers {
    let mut numbers = [None; 9];
    for (number, word) in numbers.iter_mut().zip(line.split(',')) {
        *number = word.parse().ok();
    }
    numbers
}

// Pulls two queues by their deficits, and returns which call failed.
fn pulls_refused(rt: &impl Abort, alloc: Global) -> Option<Call> {
    let Some(mut row) = row_of(rt, alloc, drr_over_two(alloc, 500, 500)) else {
        return Some(Call::Setup);
    };
    let mut sent = Sent::none();
    row.follow(rt, &mut sent, DEFICIT_TWO_QUEUES.script);
    assert_visits(rt, row.session.log(), DEFICIT_TWO_QUEUES.visits);
    row.refused
}

// Fails unless these are the visits in a CSV.
fn assert_visits(rt: &impl Abort, log: &[Visit], csv: &str) {
    assert_eq!(rt; log.len(), csv.lines().count());
    for (visit, line) in log.iter().zip(csv.lines()) {
        assert_eq!(rt; numbers_of(visit), numbers_in(line));
    }
}

#[test]
fn a_refused_pull_is_made_again(rt: HostRuntime) {
    let refused = pulls_refused(&rt, rt.alloc());
    assert_eq!(rt; refused, None);
}

// The visit at a place of the log in which the longest packet is emitted. In each pull a DRRSched looks at it, and then the device at what
// the DRRSched gave.
fn visit_of_long(place: usize) -> Visit {
    let long = packet(0, 0, 65_535);
    let pull = (place / 2) as u64;
    let passed = pull == PULLS - 1;
    if place % 2 == 1 {
        return Visit::asking(pull, pull + 1, 0, 0, if passed { Some(long) } else { None });
    }
    Visit {
        pull,
        moment: pull + 1,
        got: Some(long),
        node: 1,
        input: 0,
        fresh: pull == 0,
        passed,
    }
}

// Drains the longest packet at a quantum of a byte, and returns which call failed.
fn drain_refused(rt: &impl Abort, alloc: Global) -> Option<Call> {
    let Some(mut row) = row_of(rt, alloc, drr_over_one(alloc, 1)) else {
        return Some(Call::Setup);
    };
    let mut sent = Sent::none();
    sent.send(rt, 0, 65_535);
    row.drain(rt, &mut sent);
    assert_long(rt, row.session.log());
    row.refused
}

// Fails unless these are the visits in which the longest packet is emitted.
fn assert_long(rt: &impl Abort, log: &[Visit]) {
    assert_eq!(rt; log.len(), 131_070);
    for (place, visit) in log.iter().enumerate() {
        assert_eq!(rt; *visit, visit_of_long(place));
    }
}

#[test]
fn a_refused_drain_goes_on(rt: HostRuntime) {
    let refused = drain_refused(&rt, rt.alloc());
    assert_eq!(rt; refused, None);
}

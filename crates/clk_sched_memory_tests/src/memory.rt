//! Calls of a session in which an allocation fails. tests/refuse-memory makes each allocation of the test fail in turn.

use clk_fixtures::Queues;
use clk_fixtures::trees::drr_over_stride;
use clk_packet::{Fault, Packet};
use clk_sched::{Ask, Session, Tree};
use std::alloc::Global;
use std::process::Abort;

/// How many packets each queue has at the beginning, by its number.
const SENT: [u32; 13] = [0, 0, 2, 0, 0, 0, 0, 0, 1, 2, 0, 0, 1];

// The packets in the order in which they are emitted, worked out by hand.
fn order() -> [Packet; 6] {
    [
        packet(2, 0),
        packet(9, 0),
        packet(12, 0),
        packet(8, 0),
        packet(9, 1),
        packet(2, 1),
    ]
}

// A packet of a length that two quanta cover, and one doesn't.
fn packet(sender: u16, number: u32) -> Packet {
    Packet {
        number,
        sender,
        length: 150,
    }
}

/// The calls that may fail.
#[derive(Clone, Copy, Debug, PartialEq, Eq)]
enum Call {
    // What the test itself makes.
    Tree,
    New,
    Pull,
    HeldHeads,
    Drain,
    Emitted,
}

// Only one allocation fails, so only one call does.
#[test]
fn a_refused_call_is_made_again(rt: HostRuntime) {
    let refused = met_refusal(&rt, rt.alloc());
    assert_eq!(rt; refused, None);
}

// Makes each call, and makes it again if it failed. Returns which call failed, if one did.
fn met_refusal(rt: &impl Abort, alloc: Global) -> Option<Call> {
    let mut run = Run::new(rt, alloc);
    run.pull(rt, 3, None);
    run.pull(rt, 5, Some(packet(2, 0)));
    run.pull(rt, 8, Some(packet(9, 0)));
    run.held_heads(rt, alloc);
    run.drain(rt, alloc);
    run.emitted(rt, alloc);
    run.refused
}

/// Queues that don't allocate, and count how often they were asked.
#[derive(Drop)]
struct Stock {
    given: [u32; 13],
    asked: u32,
}

impl Ask for Stock {
    ghost use Rattle.std.specs.Prelude.{true};

    ghost has = { λ s leaf. true };

    ghost holds = { λ s leaf. 0 };

    ghost gives = { λ s leaf got t. Unit };

    fn ask(&mut self, leaf: u16) -> Option<Packet> {
        self.asked = self.asked.saturating_add(1);
        let sent = *SENT.get(usize::from(leaf))?;
        let given = self.given.get_mut(usize::from(leaf))?;
        let number = *given;
        if number >= sent {
            return None;
        }
        *given = number + 1;
        Some(packet(leaf, number))
    }
}

#[derive(Drop)]
struct Run {
    session: Session,
    stock: Stock,
    refused: Option<Call>,
}

impl Run {
    fn new(rt: &impl Abort, alloc: Global) -> Run {
        let (session, refused) = new_session(rt, alloc);
        let stock = Stock {
            given: [0; 13],
            asked: 0,
        };
        Run {
            session,
            stock,
            refused,
        }
    }

    // Notes that a call failed.
    fn note(&mut self, rt: &impl Abort, call: Call, fault: Fault) {
        assert_eq!(rt; (fault, self.refused), (Fault::Memory, None));
        self.refused = Some(call);
    }

    fn pull(&mut self, rt: &impl Abort, moment: u32, expected: Option<Packet>) {
        let before = self.state();
        let mut got = self.session.pull(&mut self.stock, u64::from(moment));
        if let Err(fault) = got {
            self.note(rt, Call::Pull, fault);
            assert_eq!(rt; self.state(), before);
            got = self.session.pull(&mut self.stock, u64::from(moment));
        }
        assert_eq!(rt; got, Ok(expected));
    }

    // How many visits there are, the counted moment, and how often the queues were asked.
    fn state(&self) -> (usize, u64, u32) {
        let visits = self.session.log().len();
        (visits, self.session.now(), self.stock.asked)
    }

    fn held_heads(&mut self, rt: &impl Abort, alloc: Global) {
        let mut heads = self.session.held_heads(alloc);
        if let Err(fault) = heads {
            self.note(rt, Call::HeldHeads, fault);
            heads = self.session.held_heads(alloc);
        }
        assert_eq!(rt;
            heads.expect(rt, "memory").as_slice(),
            [packet(8, 0), packet(12, 0)].as_slice()
        );
    }

    // Drains what is left. Five pulls in all do it, at moments 9 to 13, even if one failed.
    fn drain(&mut self, rt: &impl Abort, alloc: Global) {
        if let Err(fault) = self.drain_left(rt, 4) {
            self.note(rt, Call::Drain, fault);
            let left = self.left(rt, alloc);
            assert!(rt; self.drain_left(rt, left).is_ok());
        }
        assert_eq!(rt; self.session.now(), 13);
    }

    fn drain_left(&mut self, rt: &impl Abort, left: u64) -> Result<u64, Fault> {
        assert!(rt; left <= 1_000_000);
        assert!(rt; self.session.now() < 1 << 40);
        self.session.drain(&mut self.stock, left, 7)
    }

    // How many packets are left. Fails unless those that were emitted are a front of them all.
    fn left(&self, rt: &impl Abort, alloc: Global) -> u64 {
        let emitted = self.session.emitted(alloc).expect(rt, "memory");
        let order = order();
        let (front, left) = order.split_at_checked(emitted.len()).expect(rt, "a front");
        assert_eq!(rt; emitted.as_slice(), front);
        left.len() as u64
    }

    fn emitted(&mut self, rt: &impl Abort, alloc: Global) {
        let mut packets = self.session.emitted(alloc);
        if let Err(fault) = packets {
            self.note(rt, Call::Emitted, fault);
            packets = self.session.emitted(alloc);
        }
        assert_eq!(rt; packets.expect(rt, "memory").as_slice(), order().as_slice());
    }
}

// A session of the tree, and which call failed.
fn new_session(rt: &impl Abort, alloc: Global) -> (Session, Option<Call>) {
    let Ok(tree) = drr_over_stride(alloc) else {
        return (again(rt, alloc), Some(Call::Tree));
    };
    match session(rt, alloc, tree) {
        Ok(session) => (session, None),
        Err(fault) => {
            assert_eq!(rt; fault, Fault::Memory);
            (again(rt, alloc), Some(Call::New))
        }
    }
}

fn again(rt: &impl Abort, alloc: Global) -> Session {
    let tree = drr_over_stride(alloc).expect(rt, "memory");
    session(rt, alloc, tree).expect(rt, "memory")
}

fn session(rt: &impl Abort, alloc: Global, tree: Tree) -> Result<Session, Fault> {
    assert!(rt; tree.leaves_distinct());
    Session::new(alloc, tree)
}

//! Sessions that keep what they are told to, in which an allocation fails. tests/refuse-memory makes each allocation of the tests fail in
//! turn.

use clk_fixtures::Queues;
use clk_fixtures::trees::drr_over_two;
use clk_packet::{Fault, Packet};
use clk_sched::{Departure, Keeps, Session, Tree};
use std::alloc::Global;
use std::process::Abort;

/// The calls that may fail.
#[derive(Clone, Copy, Debug, PartialEq, Eq)]
enum Call {
    // What the test itself makes.
    Setup,
    New,
    Pull,
    HeldHeads,
    Close,
}

/// The lengths of the packets that each of two senders sends.
const LENGTHS: [u16; 3] = [100, 600, 200];

/// How many packets they send in all.
const SENT: u64 = 6;

/// A pull by its moment, with the sender, number and length of the packet that it emits.
type Pulled = (u32, u16, u32, u16);

/// Each pull, worked out by hand.
const PULLS: [Pulled; 4] = [
    (0, 0, 0, 100),
    (3, 1, 0, 100),
    (3, 0, 1, 600),
    (9, 0, 2, 200),
];

/// The packet that is held then, and emitted last.
const HELD: Packet = Packet {
    number: 1,
    sender: 1,
    length: 600,
};

const LAST: Packet = Packet {
    number: 2,
    sender: 1,
    length: 200,
};

/// What sessions keep: visits as a list, visits packed, and packets.
const KINDS: [(bool, bool, bool); 6] = [
    (false, false, false),
    (false, false, true),
    (true, false, false),
    (true, false, true),
    (false, true, false),
    (true, true, true),
];

/// The moment after which it is drained. Three pulls do it.
const CLOSED: u64 = 20;

// A tree, and queues with all packets in them.
fn setup(alloc: Global) -> Result<(Tree, Queues), Fault> {
    let mut queues = Queues::new(alloc, 2)?;
    for sender in 0..2 {
        queues.send(sender, &LENGTHS)?;
    }
    Ok((drr_over_two(alloc, 500, 300)?, queues))
}

// The packet that a pull emits.
fn packet_of(rt: &impl Abort, pulled: Pulled) -> Packet {
    let (_, sender, number, length) = pulled;
    assert!(rt; length >= 1);
    Packet {
        number,
        sender,
        length,
    }
}

// The result of a call, or the call if an allocation failed.
fn answer<T: Drop>(rt: &impl Abort, call: Call, answer: Result<T, Fault>) -> Result<T, Call> {
    answer.map_err(|fault| {
        assert_eq!(rt; fault, Fault::Memory);
        call
    })
}

/// A session that keeps what it is told to, and the call that failed.
#[derive(Drop)]
struct Kept {
    session: Session,
    queues: Queues,
    refused: Option<Call>,
}

impl Kept {
    fn new(rt: &impl Abort, alloc: Global, keeps: Keeps) -> Kept {
        match Kept::made(rt, alloc, keeps) {
            Ok(kept) => kept,
            Err(call) => {
                let mut kept = Kept::made(rt, alloc, keeps).expect(rt, "memory");
                kept.refused = Some(call);
                kept
            }
        }
    }

    fn made(rt: &impl Abort, alloc: Global, keeps: Keeps) -> Result<Kept, Call> {
        let (tree, queues) = answer(rt, Call::Setup, setup(alloc))?;
        assert!(rt; tree.leaves_distinct());
        let session = answer(rt, Call::New, Session::keeping(alloc, tree, keeps))?;
        Ok(Kept {
            session,
            queues,
            refused: None,
        })
    }

    // Notes that a call failed.
    fn note(&mut self, rt: &impl Abort, call: Call, fault: Fault) {
        assert_eq!(rt; (fault, self.refused), (Fault::Memory, None));
        self.refused = Some(call);
    }

    // A pull that failed has changed nothing, and a session that keeps nothing never fails.
    fn pull(&mut self, rt: &impl Abort, moment: u32, expected: Packet, keeps: Keeps) {
        let before = self.state();
        let mut got = self.pull_once(moment);
        if let Err(fault) = got {
            assert!(rt; keeps.visits || keeps.packed || keeps.packets);
            self.note(rt, Call::Pull, fault);
            assert_eq!(rt; self.state(), before);
            got = self.pull_once(moment);
        }
        assert_eq!(rt; got, Ok(Some(expected)));
    }

    // Makes these pulls.
    fn pull_all(&mut self, rt: &impl Abort, pulls: &[Pulled], keeps: Keeps) {
        for pull in pulls {
            self.pull(rt, pull.0, packet_of(rt, *pull), keeps);
        }
    }

    fn pull_once(&mut self, moment: u32) -> Result<Option<Packet>, Fault> {
        self.session.pull(&mut self.queues, u64::from(moment))
    }

    // How many visits are kept, how many pulls were made, and how many packets were emitted.
    fn state(&self) -> (usize, u64, u64) {
        let visits = self.session.log().len();
        (visits, self.session.pulls(), self.session.count_emitted())
    }

    fn held_heads(&mut self, rt: &impl Abort, alloc: Global) {
        let mut heads = self.session.held_heads(alloc);
        if let Err(fault) = heads {
            self.note(rt, Call::HeldHeads, fault);
            heads = self.session.held_heads(alloc);
        }
        assert_eq!(rt; heads.expect(rt, "memory").as_slice(), [HELD].as_slice());
    }

    // Three pulls in all do it, even if one failed, and the last emits the last packet.
    fn close(&mut self, rt: &impl Abort, alloc: Global) {
        let mut departures = self.close_left(rt, alloc);
        if let Err(fault) = departures {
            self.note(rt, Call::Close, fault);
            departures = self.close_left(rt, alloc);
        }
        let last = Departure {
            moment: CLOSED + 3,
            packet: LAST,
        };
        assert_eq!(rt; departures.expect(rt, "memory").last(), Some(&last));
        assert_eq!(rt; self.session.count_emitted(), SENT);
    }

    fn close_left(&mut self, rt: &impl Abort, alloc: Global) -> Result<Vec<Departure>, Fault> {
        let left = SENT.saturating_sub(self.session.count_emitted());
        assert!(rt; left <= SENT);
        assert!(rt; self.session.now() < 1 << 40);
        self.session.close(alloc, &mut self.queues, left, CLOSED)
    }
}

// Makes each call, and makes it again if it failed. Returns which call failed, if one did.
fn met_refusal(rt: &impl Abort, alloc: Global, keeps: Keeps) -> Option<Call> {
    let mut kept = Kept::new(rt, alloc, keeps);
    kept.pull_all(rt, &PULLS, keeps);
    kept.held_heads(rt, alloc);
    kept.close(rt, alloc);
    kept.refused
}

// Only one allocation fails, so only one call does.
#[test]
fn a_refused_call_is_made_again(rt: HostRuntime) {
    let mut refused = None;
    for (visits, packed, packets) in KINDS {
        let keeps = Keeps {
            visits,
            packed,
            packets,
            latest: visits,
        };
        let met = met_refusal(&rt, rt.alloc(), keeps);
        assert!(rt; refused.is_none() || met.is_none());
        refused = refused.or(met);
    }
    assert_eq!(rt; refused, None);
}

// Makes these pulls. They don't fail, since nothing grows.
fn pull_bare(rt: &impl Abort, session: &mut Session, queues: &mut Queues, pulls: &[Pulled]) {
    for pull in pulls {
        pull_one(rt, session, queues, pull.0);
    }
}

fn pull_one(rt: &impl Abort, session: &mut Session, queues: &mut Queues, moment: u32) {
    let got = session.pull(queues, u64::from(moment));
    assert!(rt; got.expect(rt, "nothing grows").is_some());
}

// Makes each call of a session that keeps nothing that grows, up to the one that fails. Its pulls and drains don't allocate.
fn bare(rt: &impl Abort, alloc: Global, keeps: Keeps) -> Result<(), Call> {
    let (tree, mut queues) = answer(rt, Call::Setup, setup(alloc))?;
    assert!(rt; tree.leaves_distinct());
    let mut session = answer(rt, Call::New, Session::keeping(alloc, tree, keeps))?;
    pull_bare(rt, &mut session, &mut queues, &PULLS);
    let heads = answer(rt, Call::HeldHeads, session.held_heads(alloc))?;
    assert_eq!(rt; heads.as_slice(), [HELD].as_slice());
    assert!(rt; session.now() < 1 << 40);
    assert_eq!(rt; session.drain(&mut queues, 2, CLOSED), Ok(3));
    Ok(())
}

#[test]
fn a_session_without_a_log_is_made_again(rt: HostRuntime) {
    let mut refused = None;
    for keeps in [Keeps::NOTHING, Keeps::LATEST] {
        let met = bare(&rt, rt.alloc(), keeps).err();
        if met.is_some() {
            assert_eq!(rt; bare(&rt, rt.alloc(), keeps), Ok(()));
        }
        assert!(rt; refused.is_none() || met.is_none());
        refused = refused.or(met);
    }
    assert_eq!(rt; refused, None);
}

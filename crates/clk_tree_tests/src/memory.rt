//! Calls of a plan in which an allocation fails. tests/refuse-memory makes each allocation of the test fail in turn.

use clk_packet::Fault;
use clk_sched::Session;
use clk_tree::Plan;
use std::alloc::Global;
use std::process::Abort;

/// A text with arguments that are left out, ports and a comment.
const TEXT: &str =
    "s :: Sender(3); q :: Queue; x :: DRRSched; d :: ToDevice(l); s -> q -> [0] x -> d; // its tree";

const WRITTEN: &str = "s :: Sender(3);
q :: Queue(1000);
x :: DRRSched(500);
d :: ToDevice(l);
s [0] -> [0] q;
q [0] -> [0] x;
x [0] -> [0] d;
";

/// The calls that may fail.
#[derive(Clone, Copy, Debug, PartialEq, Eq)]
enum Call {
    Read,
    Write,
    Tree,
    DrrsAbove,
    // The session that the test makes of the tree.
    Session,
}

// Only one allocation fails, so only one call does.
#[test]
fn a_refused_call_is_made_again(rt: HostRuntime) {
    let refused = met_refusal(&rt, rt.alloc());
    assert_eq!(rt; refused, None);
}

// Makes each call, and makes it again if it failed. Returns which call failed, if one did.
fn met_refusal(rt: &impl Abort, alloc: Global) -> Option<Call> {
    let mut refused = Refused { call: None };
    let plan = read(rt, alloc, &mut refused);
    write(rt, alloc, &plan, &mut refused);
    tree(rt, alloc, &plan, &mut refused);
    drrs_above(rt, alloc, &plan, &mut refused);
    refused.call
}

/// The call that failed, if one did.
#[derive(Drop)]
struct Refused {
    call: Option<Call>,
}

impl Refused {
    // Notes that a call failed.
    fn note(&mut self, rt: &impl Abort, call: Call, fault: Fault) {
        assert_eq!(rt; (fault, self.call), (Fault::Memory, None));
        self.call = Some(call);
    }
}

fn read(rt: &impl Abort, alloc: Global, refused: &mut Refused) -> Plan {
    match Plan::read(alloc, TEXT.as_bytes()) {
        Ok(plan) => plan,
        Err(fault) => {
            refused.note(rt, Call::Read, fault);
            Plan::read(alloc, TEXT.as_bytes()).expect(rt, "a plan")
        }
    }
}

fn write(rt: &impl Abort, alloc: Global, plan: &Plan, refused: &mut Refused) {
    let written = match plan.write(alloc) {
        Ok(written) => written,
        Err(fault) => {
            refused.note(rt, Call::Write, fault);
            plan.write(alloc).expect(rt, "memory")
        }
    };
    assert_eq!(rt; written.as_slice(), WRITTEN.as_bytes());
}

fn tree(rt: &impl Abort, alloc: Global, plan: &Plan, refused: &mut Refused) {
    // Counting the devices doesn't allocate.
    assert_eq!(rt; plan.devices(), 1);
    let tree = match plan.tree(alloc, 0) {
        Ok(tree) => tree,
        Err(fault) => {
            refused.note(rt, Call::Tree, fault);
            plan.tree(alloc, 0).expect(rt, "memory")
        }
    };
    match Session::new(alloc, tree) {
        // One packet takes at most 1 * 2 * (1 + 65,535 / 500, rounded up) pulls.
        Ok(session) => assert_eq!(rt; session.bound(1), 266),
        Err(fault) => refused.note(rt, Call::Session, fault),
    }
}

fn drrs_above(rt: &impl Abort, alloc: Global, plan: &Plan, refused: &mut Refused) {
    let counts = match plan.drrs_above(alloc) {
        Ok(counts) => counts,
        Err(fault) => {
            refused.note(rt, Call::DrrsAbove, fault);
            plan.drrs_above(alloc).expect(rt, "memory")
        }
    };
    assert_eq!(rt; counts.as_slice(), [1].as_slice());
}

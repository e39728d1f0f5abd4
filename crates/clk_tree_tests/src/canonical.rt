//! The canonical texts of plans.

use crate::row::{plan_of, written_of};
use clk_rows::CANONICAL_TEXT;
use clk_rows::trees::TWO_DEVICES;
use std::alloc::Global;
use std::process::Abort;

/// Texts, and the canonical texts of their plans.
const TEXTS: [(&str, &str); 4] = [
    (EVERY_CLASS, EVERY_CLASS_WRITTEN),
    (
        "q::Queue();d::ToDevice(x);q->d",
        "q :: Queue(1000);
d :: ToDevice(x);
q [0] -> [0] d;
",
    ),
    (
        TWO_DEVICES,
        "s :: Sender(0);
t :: Sender(1);
p :: Queue(1000);
q :: Queue(1000);
a :: ToDevice(x);
b :: ToDevice(x);
s [0] -> [0] p;
t [0] -> [0] q;
p [0] -> [0] a;
q [0] -> [0] b;
",
    ),
    // Connections stand in order of the devices, which are declared before and after the queues.
    (
        "a :: ToDevice(x); p -> b; q -> a; p, q :: Queue; s :: Sender(0); b :: ToDevice(y_2); s -> q",
        "a :: ToDevice(x);
p :: Queue(1000);
q :: Queue(1000);
s :: Sender(0);
b :: ToDevice(y_2);
q [0] -> [0] a;
s [0] -> [0] q;
p [0] -> [0] b;
",
    ),
];

/// Every class, with what may be left out and without.
const EVERY_CLASS: &str = "out :: ToDevice(9x_); top :: PrioSched; turns :: RoundRobinSched();
usual :: DRRSched; one :: DRRSched(700); each :: DRRSched(300, 01500);
share :: StrideSched(3, 1); sh :: Shaper(2, 8);
qa, qb :: Queue; qc :: FrontDropQueue; qd :: FrontDropQueue(1); qe :: Queue(0064); qf :: Queue(1000000);
s0 :: Sender(0); s9 :: Sender(65535); s1 :: Sender(010);
s1 -> qa -> usual -> turns -> top -> out; s9 -> qf -> [1] share [0] -> [1] top; s0 -> [0] qa;
qc -> [1] one; qb -> one -> [1] turns;
qe -> [1] each -> sh -> share; qd -> each;
";

const EVERY_CLASS_WRITTEN: &str = "out :: ToDevice(9x_);
top :: PrioSched;
turns :: RoundRobinSched;
usual :: DRRSched(500);
one :: DRRSched(700);
each :: DRRSched(300, 1500);
share :: StrideSched(3, 1);
sh :: Shaper(2, 8);
qa :: Queue(1000);
qb :: Queue(1000);
qc :: FrontDropQueue(1000);
qd :: FrontDropQueue(1);
qe :: Queue(64);
qf :: Queue(1000000);
s0 :: Sender(0);
s9 :: Sender(65535);
s1 :: Sender(10);
top [0] -> [0] out;
turns [0] -> [0] top;
share [0] -> [1] top;
usual [0] -> [0] turns;
one [0] -> [1] turns;
qa [0] -> [0] usual;
qb [0] -> [0] one;
qc [0] -> [1] one;
qd [0] -> [0] each;
qe [0] -> [1] each;
sh [0] -> [0] share;
qf [0] -> [1] share;
each [0] -> [0] sh;
s0 [0] -> [0] qa;
s1 [0] -> [0] qa;
s9 [0] -> [0] qf;
";

/// Fails unless the plan that a text denotes has this canonical text, which is that of its own plan.
fn assert_written(rt: &impl Abort, alloc: Global, text: &str, canonical: &str) {
    for text in [text, canonical] {
        let written = written_of(rt, alloc, &plan_of(rt, alloc, text.as_bytes()));
        assert_eq!(rt; str::from_utf8(&written), Ok(canonical));
    }
}

#[test]
fn plans_have_canonical_texts(rt: HostRuntime) {
    let row = CANONICAL_TEXT;
    assert_written(&rt, rt.alloc(), row.tree, row.canonical);
    for (text, canonical) in &TEXTS {
        assert_written(&rt, rt.alloc(), text, canonical);
    }
}

//! How many DRRScheds stand above the queues of plans.

use crate::row::plan_of;

/// Texts, and how many DRRScheds stand above each queue of their plans.
const TEXTS: [(&str, &[u32]); 5] = [
    ("q :: Queue; d :: ToDevice(x); q -> d;", &[0]),
    (
        "a, b :: Queue; s :: DRRSched(500); d :: ToDevice(x); a -> s -> d; b -> [1] s;",
        &[1, 1],
    ),
    // A PrioSched over x and f; x is a DRRSched over b, c and a RoundRobinSched, which is over e and a DRRSched over a.
    (
        "a, b, c, e, f :: Queue; p :: PrioSched; x, y :: DRRSched; r :: RoundRobinSched; d :: ToDevice(l);
a -> y -> r -> x -> p -> d; b -> [1] x; c -> [2] x; e -> [1] r; f -> [1] p;",
        &[2, 1, 1, 1, 0],
    ),
    // Neither a Shaper nor a StrideSched is a DRRSched.
    (
        "q :: Queue; x :: DRRSched; h :: Shaper(1); s :: StrideSched(1); d :: ToDevice(l); q -> x -> h -> s -> d;",
        &[1],
    ),
    (TWO_DEVICES, &[1, 0]),
];

/// The first queue leads to the second device, by a DRRSched.
const TWO_DEVICES: &str = "p, q :: Queue; x :: DRRSched; a, b :: ToDevice(l); p -> x -> b; q -> a;";

#[test]
fn drrs_above_queues_are_counted(rt: HostRuntime) {
    for (text, expected) in &TEXTS {
        let plan = plan_of(&rt, rt.alloc(), text.as_bytes());
        let counts = plan.drrs_above(rt.alloc()).expect(&rt, "memory");
        assert_eq!(rt; counts.as_slice(), *expected);
    }
}

// One tree is counted, and the counts of the other device's queues stay.
#[test]
fn counts_of_other_queues_stay(rt: HostRuntime) {
    let plan = plan_of(&rt, rt.alloc(), TWO_DEVICES.as_bytes());
    let mut counts = vec![in rt.alloc(); 7; plan.queues().len()].expect(&rt, "memory");
    assert!(rt; 1 < plan.devices());
    let tree = plan.tree(rt.alloc(), 1).expect(&rt, "memory");
    tree.count_drrs(&mut counts);
    assert_eq!(rt; counts.as_slice(), [1, 7].as_slice());
}

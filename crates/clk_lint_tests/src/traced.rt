//! Warnings that a trace adds or takes away.

use crate::row::{Row, assert_rows};

const SHARED: &str =
    "s :: Sender(0); t :: Sender(1); p, q :: Queue; d :: ToDevice(l); x :: DRRSched(100, 99);
s -> p -> x -> d; t -> q -> [1] x;";

/// The longest packet is that which reaches the input by the trace.
const LENGTHS: [Row; 6] = [
    (
        SHARED,
        Some("0,50\n1,100\n0,99\n"),
        "warning: x input 1: quantum 99 is below the longest packet, 100\n",
    ),
    (SHARED, Some("0,100\n1,99\n"), ""),
    // Nothing reaches input 1.
    (
        SHARED,
        Some("0,9000\n"),
        "warning: x input 0: quantum 100 is below the longest packet, 9000\n",
    ),
    (
        SHARED,
        Some("0,9000\n1,101\n0,200\n1,102\n"),
        "warning: x input 0: quantum 100 is below the longest packet, 9000
warning: x input 1: quantum 99 is below the longest packet, 102
",
    ),
    (SHARED, Some(""), ""),
    // The plan has no sender 7.
    (SHARED, Some("7,9000\n"), ""),
];

#[test]
fn quanta_are_compared_with_the_longest_packet(rt: HostRuntime) {
    assert_rows(&rt, &LENGTHS);
}

/// Voice beside bulk: packets of voice are short, and all of its senders together say how long they are.
const VOICE: &str =
    "a :: Sender(0); b :: Sender(1); c :: Sender(2); e :: Sender(3); voice, calls, bulk :: Queue; d :: ToDevice(l);
y :: RoundRobinSched; h :: Shaper(1); x :: DRRSched(500); a -> voice -> y; b -> calls -> [1] y; c -> calls; y -> h -> x -> d; e -> bulk -> [1] x;";

/// A packet counts at each input on its way to the device, and at no other.
const REACHES: [Row; 4] = [
    (
        VOICE,
        Some("0,160\n1,160\n2,160\n3,1500\n0,160\n3,40\n"),
        "warning: x input 1: quantum 500 is below the longest packet, 1500\n",
    ),
    // The second sender of a queue below two elements.
    (
        VOICE,
        Some("0,160\n1,160\n2,501\n3,500\n"),
        "warning: x input 0: quantum 500 is below the longest packet, 501\n",
    ),
    (
        VOICE,
        None,
        "warning: x input 0: quantum 500 is below the longest packet, 1500
warning: x input 1: quantum 500 is below the longest packet, 1500
",
    ),
    // The packets of x go on to z, where bulk alone goes past it.
    (
        "a :: Sender(0); b :: Sender(1); c :: Sender(2); voice, video, bulk :: Queue; d :: ToDevice(l); x :: DRRSched(160, 1499);
z :: DRRSched(1500, 1499); a -> voice -> x; b -> video -> [1] x; x -> z -> d; c -> bulk -> [1] z;",
        Some("0,160\n1,1500\n2,1499\n"),
        "warning: x input 1: quantum 1499 is below the longest packet, 1500\n",
    ),
];

#[test]
fn quanta_are_compared_with_what_reaches_their_input(rt: HostRuntime) {
    assert_rows(&rt, &REACHES);
}

const SMALL: &str =
    "t :: Sender(1); s :: Sender(0); q :: Queue(2); d :: ToDevice(l); s -> q -> d; t -> q;";

/// A queue has room for all packets of each of its senders, or not.
const BURSTS: [Row; 6] = [
    (
        SMALL,
        Some("0,10\n0,10\n0,10\n1,10\n"),
        "warning: q: capacity 2 is below the packets of sender 0, 3\n",
    ),
    // Senders are in order of declaration.
    (
        SMALL,
        Some("0,10\n0,10\n0,10\n1,10\n1,20\n1,10\n1,10\n"),
        "warning: q: capacity 2 is below the packets of sender 1, 4
warning: q: capacity 2 is below the packets of sender 0, 3
",
    ),
    // Together they have more than the queue holds, and none alone.
    (SMALL, Some("0,10\n1,10\n0,10\n1,10\n"), ""),
    (SMALL, Some(""), ""),
    (SMALL, None, ""),
    (
        "s :: Sender(9); q :: FrontDropQueue(1); d :: ToDevice(l); s -> q -> d;",
        Some("9,1\n9,1\n"),
        "warning: q: capacity 1 is below the packets of sender 9, 2\n",
    ),
];

#[test]
fn queues_are_compared_with_bursts(rt: HostRuntime) {
    assert_rows(&rt, &BURSTS);
}

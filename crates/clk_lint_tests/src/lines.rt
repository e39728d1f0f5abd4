//! Each warning that needs no trace, and its near misses.

use crate::row::{Row, assert_rows};

const QUANTA: [Row; 3] = [
    (
        "s :: Sender(0); t :: Sender(1); p, q :: Queue; d :: ToDevice(l); x :: DRRSched(1499, 1500);
s -> p -> x -> d; t -> q -> [1] x;",
        None,
        "warning: x input 0: quantum 1499 is below the longest packet, 1500\n",
    ),
    // One quantum is for each input.
    (
        "s :: Sender(0); t :: Sender(1); p, q :: Queue; d :: ToDevice(l); x :: DRRSched;
s -> p -> x -> d; t -> q -> [1] x;",
        None,
        "warning: x input 0: quantum 500 is below the longest packet, 1500
warning: x input 1: quantum 500 is below the longest packet, 1500
",
    ),
    (
        "s :: Sender(0); t :: Sender(1); p, q :: Queue; d :: ToDevice(l); x :: DRRSched(1500);
s -> p -> x -> d; t -> q -> [1] x;",
        None,
        "",
    ),
];

#[test]
fn small_quanta_are_told(rt: HostRuntime) {
    assert_rows(&rt, &QUANTA);
}

/// A DRRSched x over two queues, and a third queue. A PrioSched is over some of these.
const PRIORITIES: [Row; 5] = [
    (
        "a :: Sender(0); b :: Sender(1); c :: Sender(2); s, t, u :: Queue; d :: ToDevice(l); x :: DRRSched(20, 1500); p :: PrioSched;
a -> s -> x; b -> t -> [1] x; c -> u -> [1] p; x -> p -> d;",
        None,
        "warning: x input 0: quantum 20 is below the longest packet, 1500, and it loses its priority\n",
    ),
    // At the last input it has no priority to lose.
    (
        "a :: Sender(0); b :: Sender(1); c :: Sender(2); s, t, u :: Queue; d :: ToDevice(l); x :: DRRSched(20, 1500); p :: PrioSched;
a -> s -> x; b -> t -> [1] x; c -> u -> p -> d; x -> [1] p;",
        None,
        "warning: x input 0: quantum 20 is below the longest packet, 1500\n",
    ),
    // No other scheduler has priorities.
    (
        "a :: Sender(0); b :: Sender(1); c :: Sender(2); s, t, u :: Queue; d :: ToDevice(l); x :: DRRSched(20, 1500); p :: RoundRobinSched;
a -> s -> x; b -> t -> [1] x; c -> u -> [1] p; x -> p -> d;",
        None,
        "warning: x input 0: quantum 20 is below the longest packet, 1500\n",
    ),
    // A Shaper between the two changes nothing.
    (
        "a :: Sender(0); b :: Sender(1); c :: Sender(2); s, t, u :: Queue; d :: ToDevice(l); x :: DRRSched(20, 1500); p :: PrioSched;
a -> s -> x; b -> t -> [1] x; c -> u -> [1] p; x -> h -> p -> d; h :: Shaper(1);",
        None,
        "warning: x input 0: quantum 20 is below the longest packet, 1500, and it loses its priority\n",
    ),
    // The last input of a PrioSched that another prefers.
    (
        "a :: Sender(0); b :: Sender(1); c :: Sender(2); e :: Sender(3); s, t, u, v :: Queue; d :: ToDevice(l); x :: DRRSched(20, 1500);
a -> s -> x; b -> t -> [1] x; c -> u -> p; x -> [1] p; p -> o -> d; e -> v -> [1] o; o, p :: PrioSched;",
        None,
        "warning: x input 0: quantum 20 is below the longest packet, 1500, and it loses its priority\n",
    ),
];

#[test]
fn lost_priorities_are_told(rt: HostRuntime) {
    assert_rows(&rt, &PRIORITIES);
}

const BURSTS: [Row; 3] = [
    (
        "s :: Sender(0); q :: Queue; h :: Shaper(3, 2); d :: ToDevice(l); s -> q -> h -> d;",
        None,
        "warning: h: burst 2 is below the rate, 3\n",
    ),
    (
        "s :: Sender(0); q :: Queue; h :: Shaper(3, 3); d :: ToDevice(l); s -> q -> h -> d;",
        None,
        "",
    ),
    (
        "s :: Sender(0); q :: Queue; h :: Shaper(3); d :: ToDevice(l); s -> q -> h -> d;",
        None,
        "",
    ),
];

#[test]
fn small_bursts_are_told(rt: HostRuntime) {
    assert_rows(&rt, &BURSTS);
}

const QUEUES: [Row; 2] = [
    (
        "q :: Queue; d :: ToDevice(l); q -> d;",
        None,
        "warning: q: nobody sends to it\n",
    ),
    (
        "s :: Sender(0); q :: FrontDropQueue(1); d :: ToDevice(l); s -> q -> d;",
        None,
        "",
    ),
];

#[test]
fn unused_queues_are_told(rt: HostRuntime) {
    assert_rows(&rt, &QUEUES);
}

/// 300, 301 and 302 tickets have the strides 218, 217 and 217.
const TICKETS: [Row; 5] = [
    (
        "a :: Sender(0); b :: Sender(1); c :: Sender(2); s, t, u :: Queue; d :: ToDevice(l); x :: StrideSched(300, 301, 302);
a -> s -> x -> d; b -> t -> [1] x; c -> u -> [2] x;",
        None,
        "warning: x input 2: its tickets have the stride of input 1, 217\n",
    ),
    // Equal tickets are no mistake, and the first earlier input is named.
    (
        "a :: Sender(0); b :: Sender(1); c :: Sender(2); s, t, u :: Queue; d :: ToDevice(l); x :: StrideSched(301, 301, 302);
a -> s -> x -> d; b -> t -> [1] x; c -> u -> [2] x;",
        None,
        "warning: x input 2: its tickets have the stride of input 0, 217\n",
    ),
    (
        "a :: Sender(0); b :: Sender(1); c :: Sender(2); s, t, u :: Queue; d :: ToDevice(l); x :: StrideSched(32767, 32768, 32767);
a -> s -> x -> d; b -> t -> [1] x; c -> u -> [2] x;",
        None,
        "warning: x input 1: its tickets have the stride of input 0, 2
warning: x input 2: its tickets have the stride of input 1, 2
",
    ),
    (
        "a :: Sender(0); b :: Sender(1); s, t :: Queue; d :: ToDevice(l); x :: StrideSched(300, 301);
a -> s -> x -> d; b -> t -> [1] x;",
        None,
        "",
    ),
    (
        "a :: Sender(0); b :: Sender(1); s, t :: Queue; d :: ToDevice(l); x :: StrideSched(301, 301);
a -> s -> x -> d; b -> t -> [1] x;",
        None,
        "",
    ),
];

#[test]
fn strides_that_round_to_one_value_are_told(rt: HostRuntime) {
    assert_rows(&rt, &TICKETS);
}

/// Each class of scheduler over one queue, and a Shaper, which has always one input. Then there are two inputs.
const INPUTS: [Row; 3] = [
    (
        "a :: Sender(0); q :: Queue; d :: ToDevice(l); w :: DRRSched(1500); x :: StrideSched(7); y :: RoundRobinSched; z :: PrioSched;
a -> q -> z -> y -> x -> w -> d;",
        None,
        "warning: w: it has one input
warning: x: it has one input
warning: y: it has one input
warning: z: it has one input
",
    ),
    (
        "a :: Sender(0); q :: Queue; d :: ToDevice(l); h :: Shaper(1); a -> q -> h -> d;",
        None,
        "",
    ),
    (
        "a :: Sender(0); b :: Sender(1); p, q :: Queue; d :: ToDevice(l); z :: PrioSched; a -> q -> z -> d; b -> p -> [1] z;",
        None,
        "",
    ),
];

#[test]
fn schedulers_with_one_input_are_told(rt: HostRuntime) {
    assert_rows(&rt, &INPUTS);
}

/// Devices in order of declaration, and below each an element before what is connected to it, input by input.
const ORDERS: [Row; 1] = [(
    "q, p, o, n :: Queue; b, a :: ToDevice(l); r :: RoundRobinSched; y :: DRRSched(9); h :: Shaper(2, 1);
n -> a; h -> b; r -> h; o -> [1] r; y -> r; q -> y; p -> [1] y;",
    None,
    "warning: h: burst 1 is below the rate, 2
warning: y input 0: quantum 9 is below the longest packet, 1500
warning: y input 1: quantum 9 is below the longest packet, 1500
warning: q: nobody sends to it
warning: p: nobody sends to it
warning: o: nobody sends to it
warning: n: nobody sends to it
",
)];

#[test]
fn warnings_are_in_preorder(rt: HostRuntime) {
    assert_rows(&rt, &ORDERS);
}

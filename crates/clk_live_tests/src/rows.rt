//! Worked rows of queues and schedulers: what is refused, evicted and emitted, each with its token.

use crate::bench::assert_rows;
use crate::steps::Row;
use crate::steps::Step::{
    Accepted, Counts, Emits, EmitsNone, Evicts, IsDrained, IsDue, NoneWaits, Offers, Refused,
    TakesIn,
};

/// Packets of the second sender are emitted only after the first's.
const PRIORITY: Row = Row {
    name: "priority",
    tree: "a :: Sender(1); b :: Sender(2); p, q :: Queue; x :: PrioSched; d :: ToDevice(link);
        a -> p -> [0] x; b -> q -> [1] x; x -> d;",
    steps: &[
        Offers((2, 0, 60)),
        Offers((2, 1, 61)),
        Offers((1, 0, 70)),
        Offers((1, 1, 71)),
        Accepted((2, 0, 60)),
        Accepted((2, 1, 61)),
        Accepted((1, 0, 70)),
        Accepted((1, 1, 71)),
        NoneWaits(1),
        Emits((1, 0, 70)),
        Emits((1, 1, 71)),
        Emits((2, 0, 60)),
        Offers((1, 2, 72)),
        Accepted((1, 2, 72)),
        Emits((1, 2, 72)),
        Emits((2, 1, 61)),
        EmitsNone,
    ],
    inside: &[],
};

/// A full Queue refuses the packet that arrives, and accepts the next once there is room again.
const TAIL_DROP: Row = Row {
    name: "tail drop",
    tree: "s :: Sender(7); q :: Queue(1); d :: ToDevice(link); s -> q -> d;",
    steps: &[
        Offers((7, 0, 60)),
        Offers((7, 1, 61)),
        Offers((7, 2, 62)),
        Accepted((7, 0, 60)),
        Refused((7, 1, 61)),
        Emits((7, 0, 60)),
        Accepted((7, 2, 62)),
        Emits((7, 2, 62)),
        EmitsNone,
        Counts(7, [2, 1, 0, 2]),
    ],
    inside: &[],
};

/// A full FrontDropQueue evicts the packet at its front, here of another sender.
const FRONT_DROP: Row = Row {
    name: "front drop",
    tree: "s :: Sender(3); t :: Sender(5); q :: FrontDropQueue(1); d :: ToDevice(link);
        s -> q -> d; t -> q;",
    steps: &[
        Offers((3, 0, 60)),
        Offers((3, 1, 61)),
        Offers((5, 0, 80)),
        Accepted((3, 0, 60)),
        Evicts((3, 1, 61), (3, 0, 60)),
        Evicts((5, 0, 80), (3, 1, 61)),
        Emits((5, 0, 80)),
        EmitsNone,
        Counts(3, [2, 0, 2, 0]),
        Counts(5, [1, 0, 0, 1]),
    ],
    inside: &[],
};

/// A DRRSched holds a head of 1,200 bytes, for which its input needs three quanta of 500. The queue behind it is full and evicts meanwhile:
/// what it evicts is the packet behind the head. In each pull the input gets one quantum more, and 300 bytes of the third are left.
const HELD_HEAD: Row = Row {
    name: "a held head isn't evicted",
    tree: "s :: Sender(1); t :: Sender(2); f :: FrontDropQueue(1); q :: Queue; x :: DRRSched(500);
        d :: ToDevice(link); s -> f -> [0] x; t -> q -> [1] x; x -> d;",
    steps: &[
        Offers((1, 0, 1200)),
        Offers((1, 1, 60)),
        Offers((1, 2, 50)),
        Offers((2, 0, 100)),
        Accepted((1, 0, 1200)),
        Accepted((2, 0, 100)),
        Emits((2, 0, 100)),
        Accepted((1, 1, 60)),
        Evicts((1, 2, 50), (1, 1, 60)),
        EmitsNone,
        Emits((1, 0, 1200)),
        Emits((1, 2, 50)),
        EmitsNone,
        IsDrained(true),
        Counts(1, [3, 0, 1, 2]),
    ],
    inside: &[],
};

/// Inputs have their turns, and one that has no packet is passed over.
const ROUND_ROBIN: Row = Row {
    name: "round robin",
    tree: "a :: Sender(1); b :: Sender(2); c :: Sender(3); p, q, r :: Queue; x :: RoundRobinSched;
        d :: ToDevice(link); a -> p -> [0] x; b -> q -> [1] x; c -> r -> [2] x; x -> d;",
    steps: &[
        Offers((1, 0, 60)),
        Offers((1, 1, 61)),
        Offers((2, 0, 70)),
        Offers((2, 1, 71)),
        Offers((3, 0, 80)),
        TakesIn(
            4,
            8,
            &[(1, 0, 60), (1, 1, 61), (2, 0, 70), (2, 1, 71), (3, 0, 80)],
        ),
        Emits((1, 0, 60)),
        Emits((2, 0, 70)),
        Emits((3, 0, 80)),
        Emits((1, 1, 61)),
        Emits((2, 1, 71)),
        EmitsNone,
    ],
    inside: &[],
};

/// A packet that waits in its inlet is not due. After it is taken, it is due when the Shaper has a token: at once, or one tick after a
/// packet was emitted.
const DUE: Row = Row {
    name: "due moments",
    tree: "s :: Sender(1); q :: Queue; x :: Shaper(1, 1); d :: ToDevice(link); s -> q -> [0] x; x -> d;",
    steps: &[
        IsDue(None),
        Offers((1, 0, 60)),
        Offers((1, 1, 61)),
        IsDue(None),
        Accepted((1, 0, 60)),
        IsDue(Some(0)),
        Emits((1, 0, 60)),
        IsDue(None),
        Accepted((1, 1, 61)),
        IsDue(Some(1)),
        EmitsNone,
        IsDue(Some(1)),
    ],
    inside: &[(1, 1)],
};

/// What queues and schedulers do.
const ROWS: [Row; 6] = [PRIORITY, TAIL_DROP, FRONT_DROP, HELD_HEAD, ROUND_ROBIN, DUE];

#[test]
fn rows_are_met(rt: HostRuntime) {
    assert_rows(&rt, rt.alloc(), &ROWS);
}

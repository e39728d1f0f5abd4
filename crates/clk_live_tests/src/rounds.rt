//! Worked rows of rounds over the senders, and of their ends.

use crate::bench::assert_rows;
use crate::steps::Row;
use crate::steps::Step::{
    Accepted, Counts, Emits, EmitsNone, Ends, IsDrained, IsEnded, NoneWaits, Offers, Refused,
    TakesFitting, TakesIn,
};

/// A round takes two from each sender. The slots of the first two rounds run out at the second sender, so the next start at the third.
const ROUNDS: Row = Row {
    name: "rounds",
    tree: "a :: Sender(1); b :: Sender(2); c :: Sender(3); q :: Queue; d :: ToDevice(link);
        a -> q -> d; b -> q; c -> q;",
    steps: &[
        Offers((1, 0, 60)),
        Offers((1, 1, 61)),
        Offers((1, 2, 62)),
        Offers((2, 0, 70)),
        Offers((2, 1, 71)),
        Offers((2, 2, 72)),
        Offers((3, 0, 80)),
        Offers((3, 1, 81)),
        Offers((3, 2, 82)),
        TakesIn(2, 3, &[(1, 0, 60), (1, 1, 61), (2, 0, 70)]),
        TakesIn(2, 4, &[(3, 0, 80), (3, 1, 81), (1, 2, 62), (2, 1, 71)]),
        TakesIn(2, 8, &[(3, 2, 82), (2, 2, 72)]),
        TakesIn(2, 8, &[]),
    ],
    inside: &[
        (1, 0),
        (1, 1),
        (2, 0),
        (3, 0),
        (3, 1),
        (1, 2),
        (2, 1),
        (3, 2),
        (2, 2),
    ],
};

/// With only what fits, a packet waits in its inlet while its queue is full. So none is refused or evicted. A sender whose queue has room
/// gives as many as it may, even while another sender's queue is full.
const FITTING: Row = Row {
    name: "only what fits",
    tree: "a :: Sender(1); b :: Sender(2); q :: Queue(1); f :: FrontDropQueue(2); x :: PrioSched;
        d :: ToDevice(link); a -> q -> [0] x; b -> f -> [1] x; x -> d;",
    steps: &[
        Offers((1, 0, 60)),
        Offers((1, 1, 61)),
        Offers((2, 0, 70)),
        Offers((2, 1, 71)),
        Offers((2, 2, 72)),
        TakesFitting(1, 8, &[(1, 0, 60), (2, 0, 70)]),
        TakesFitting(4, 8, &[(2, 1, 71)]),
        TakesFitting(4, 8, &[]),
        Emits((1, 0, 60)),
        TakesFitting(4, 8, &[(1, 1, 61)]),
        Emits((1, 1, 61)),
        Emits((2, 0, 70)),
        TakesFitting(4, 8, &[(2, 2, 72)]),
        Emits((2, 1, 71)),
        Emits((2, 2, 72)),
        EmitsNone,
        Counts(1, [2, 0, 0, 2]),
        Counts(2, [3, 0, 0, 3]),
    ],
    inside: &[],
};

/// A live router has ended once the end of each inlet is taken, and is drained once no packet is left inside.
const ENDING: Row = Row {
    name: "ending",
    tree: "a :: Sender(1); b :: Sender(2); q :: Queue(2); d :: ToDevice(link); a -> q -> d; b -> q;",
    steps: &[
        IsEnded(false),
        IsDrained(true),
        Offers((1, 0, 60)),
        Offers((1, 1, 61)),
        Offers((1, 2, 62)),
        Ends(1),
        IsDrained(true),
        Accepted((1, 0, 60)),
        IsDrained(false),
        Accepted((1, 1, 61)),
        Refused((1, 2, 62)),
        Ends(2),
        NoneWaits(1),
        IsEnded(false),
        NoneWaits(2),
        IsEnded(true),
        IsDrained(false),
        Emits((1, 0, 60)),
        Emits((1, 1, 61)),
        IsDrained(true),
        Counts(1, [2, 1, 0, 2]),
        Counts(2, [0, 0, 0, 0]),
    ],
    inside: &[],
};

/// What rounds take, and when a live router has ended.
const ROWS: [Row; 3] = [ROUNDS, FITTING, ENDING];

#[test]
fn rounds_are_met(rt: HostRuntime) {
    assert_rows(&rt, rt.alloc(), &ROWS);
}

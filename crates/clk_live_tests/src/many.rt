//! Worked rows of calls that take or emit many packets, and of the packets that are left inside.

use crate::bench::assert_rows;
use crate::steps::Row;
use crate::steps::Step::{
    Accepted, Drains, Emits, EmitsMany, Evicts, IsDrained, Offers, TakesIn, TakesMany,
};
use clk_live::DrainEnd;

/// As many packets of one sender are taken as there are places. The rest stays in the inlet, and the other sender's packet in its own.
const ONE_SENDER: Row = Row {
    name: "many of one sender",
    tree: "a :: Sender(1); b :: Sender(2); q :: Queue; d :: ToDevice(link); a -> q -> d; b -> q;",
    steps: &[
        Offers((1, 0, 60)),
        Offers((1, 1, 61)),
        Offers((1, 2, 62)),
        Offers((2, 0, 70)),
        TakesMany(1, 0, &[]),
        TakesMany(1, 2, &[(1, 0, 60), (1, 1, 61)]),
        TakesMany(2, 8, &[(2, 0, 70)]),
        TakesMany(1, 8, &[(1, 2, 62)]),
        TakesMany(1, 8, &[]),
    ],
    inside: &[(1, 0), (1, 1), (2, 0), (1, 2)],
};

/// Pulls end once their places are filled, or after the first that emits none. The first input gets 500 bytes in the first pull and twice
/// in the pull that emits none, so the next pull emits its packet.
const MANY_PULLS: Row = Row {
    name: "many pulls",
    tree: "a :: Sender(1); b :: Sender(2); p, q :: Queue; x :: DRRSched(500); d :: ToDevice(link);
        a -> p -> [0] x; b -> q -> [1] x; x -> d;",
    steps: &[
        Offers((1, 0, 1200)),
        Offers((2, 0, 100)),
        Offers((2, 1, 110)),
        Offers((2, 2, 120)),
        TakesIn(4, 8, &[(1, 0, 1200), (2, 0, 100), (2, 1, 110), (2, 2, 120)]),
        EmitsMany(0, &[]),
        EmitsMany(2, &[(2, 0, 100), (2, 1, 110)]),
        EmitsMany(8, &[(2, 2, 120)]),
        IsDrained(false),
        EmitsMany(8, &[(1, 0, 1200)]),
        IsDrained(true),
        EmitsMany(8, &[]),
    ],
    inside: &[],
};

/// A drain pulls one tick apart, from one tick after the latest moment. The pull at 4 ticks emits none. A drain that fills its last place
/// with the last packet has emptied the router.
const DRAINS: Row = Row {
    name: "drains",
    tree: "a :: Sender(1); b :: Sender(2); p, q :: Queue; x :: DRRSched(500); d :: ToDevice(link);
        a -> p -> [0] x; b -> q -> [1] x; x -> d;",
    steps: &[
        Drains(8, 8, &[], DrainEnd::Empty),
        Offers((1, 0, 1200)),
        Offers((2, 0, 100)),
        Offers((2, 1, 110)),
        Offers((2, 2, 120)),
        TakesIn(4, 8, &[(1, 0, 1200), (2, 0, 100), (2, 1, 110), (2, 2, 120)]),
        Drains(0, 8, &[], DrainEnd::MoreLeft),
        Drains(8, 0, &[], DrainEnd::MoreLeft),
        Drains(1, 8, &[(1, (2, 0, 100))], DrainEnd::MoreLeft),
        Drains(
            8,
            2,
            &[(2, (2, 1, 110)), (3, (2, 2, 120))],
            DrainEnd::MoreLeft,
        ),
        Drains(8, 8, &[(5, (1, 0, 1200))], DrainEnd::Empty),
        IsDrained(true),
        Offers((2, 3, 130)),
        TakesMany(2, 8, &[(2, 3, 130)]),
        Drains(1, 1, &[(6, (2, 3, 130))], DrainEnd::Empty),
        Drains(0, 0, &[], DrainEnd::Empty),
    ],
    inside: &[],
};

/// The tokens inside come back queue by queue, first that of a head that a DRRSched holds. The last packet offered is still in its inlet.
const LEFT_INSIDE: Row = Row {
    name: "left inside",
    tree: "a :: Sender(2); b :: Sender(1); f :: FrontDropQueue(1); q :: Queue; x :: DRRSched(500);
        d :: ToDevice(link); a -> f -> [0] x; b -> q -> [1] x; x -> d;",
    steps: &[
        Offers((1, 0, 100)),
        Offers((1, 1, 110)),
        Offers((1, 2, 120)),
        Offers((2, 0, 1200)),
        Offers((2, 1, 60)),
        Offers((2, 2, 50)),
        Offers((2, 3, 40)),
        TakesMany(1, 8, &[(1, 0, 100), (1, 1, 110), (1, 2, 120)]),
        Accepted((2, 0, 1200)),
        Emits((1, 0, 100)),
        Accepted((2, 1, 60)),
        Evicts((2, 2, 50), (2, 1, 60)),
    ],
    inside: &[(2, 0), (2, 2), (1, 1), (1, 2)],
};

/// What calls that take or emit many packets return.
const ROWS: [Row; 4] = [ONE_SENDER, MANY_PULLS, DRAINS, LEFT_INSIDE];

#[test]
fn rows_of_many_are_met(rt: HostRuntime) {
    assert_rows(&rt, rt.alloc(), &ROWS);
}

//! Texts without a fault.

use clk_rows::trees::{
    COMMENTED, DRR_OVER_DRR, NO_SENDER, PRIO_OVER_ROOM_FOR_TWO, SHARED_FRONT_DROP, TWO_DEVICES,
};

/// Texts of trees.
pub const TEXTS: &[(&str, &str)] = &[
    (PRIO_OVER_ROOM_FOR_TWO, ""),
    (TWO_DEVICES, ""),
    // Devices that are declared after their chains, and no Sender.
    (
        "a::ToDevice(x);p->a;q->b;p,q::Queue;b::ToDevice(x);r::FrontDropQueue;r->c;c::ToDevice(9)",
        "",
    ),
    (
        "a, b, c :: ToDevice(x); p, q, r :: Queue; h :: Shaper(1); p -> a; q -> h -> b; r -> [0] c;",
        "",
    ),
    (COMMENTED, ""),
    (DRR_OVER_DRR, ""),
    (NO_SENDER, ""),
    ("q::Queue();d::ToDevice(9x);q[0]->[0]d", ""),
    (
        "// senders\r\na, b :: Queue(007); s :: StrideSched(1, 2);\t/**/d :: ToDevice(x); a -> s -> d; b -> [0001] s;; ;",
        "",
    ),
    (SHARED_FRONT_DROP, ""),
];

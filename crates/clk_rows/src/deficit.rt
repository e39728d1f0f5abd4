//! Inputs with quanta, and heads.

use crate::Row;
use crate::trees::{
    DRR_1_OVER_ONE, DRR_500_1000, DRR_500_OVER_ONE, DRR_500_OVER_TWO, DRR_OVER_DRR,
};

/// A head waits for its deficit: one of 600 bytes for a second quantum, and then one of 401, since 400 bytes are left, for another.
pub const DEFICIT_TWO_QUEUES: Row = Row {
    name: "deficit-two-queues",
    tree: DRR_500_OVER_TWO,
    script: "send 0 600\nsend 1 200\nsend 1 200\npull 0\npull 0\npull 0\nsend 0 401\npull 0\n\
    pull 0\n",
    answer: "0#0 600 accepted\n1#0 200 accepted\n1#1 200 accepted\n\
    pull 0: 1#0 200\npull 0: 1#1 200\npull 0: 0#0 600\n\
    0#1 401 accepted\n\
    pull 0: none\npull 0: 0#1 401\n",
    visits: "0,1,0,1,0,0,600,0,0\n0,1,1,1,1,0,200,1,0\n0,0,0,1,1,0,200,1,0\n\
    1,1,1,1,1,1,200,1,0\n1,0,0,1,1,1,200,1,0\n\
    2,1,1,1,,,,0,0\n2,1,0,0,0,0,600,1,0\n2,0,0,1,0,0,600,1,0\n\
    3,1,0,1,0,1,401,0,0\n3,1,1,1,,,,0,0\n3,0,0,1,,,,0,0\n\
    4,1,0,0,0,1,401,1,0\n4,0,0,1,0,1,401,1,0\n",
};

/// The first three pulls of `deficit-two-queues`, whose visits the row of the visit CSV shows.
pub const VISIT_CSV: Row = Row {
    name: "visit-csv",
    tree: DRR_500_OVER_TWO,
    script: "send 0 600\nsend 1 200\nsend 1 200\npull 0\npull 0\npull 0\n",
    answer: "0#0 600 accepted\n1#0 200 accepted\n1#1 200 accepted\n\
    pull 0: 1#0 200\npull 0: 1#1 200\npull 0: 0#0 600\n",
    visits: "0,1,0,1,0,0,600,0,0\n0,1,1,1,1,0,200,1,0\n0,0,0,1,1,0,200,1,0\n\
    1,1,1,1,1,1,200,1,0\n1,0,0,1,1,1,200,1,0\n\
    2,1,1,1,,,,0,0\n2,1,0,0,0,0,600,1,0\n2,0,0,1,0,0,600,1,0\n",
};

/// A second pull covers a head.
pub const DEFICIT_HELD: Row = Row {
    name: "deficit-held",
    tree: DRR_500_OVER_ONE,
    script: "send 0 1000\npull 0\npull 0\n",
    answer: "0#0 1000 accepted\n\
    pull 0: none\npull 0: 0#0 1000\n",
    visits: "0,1,0,1,0,0,1000,0,0\n0,0,0,1,,,,0,0\n\
    1,1,0,0,0,0,1000,1,0\n1,0,0,1,0,0,1000,1,0\n",
};

/// A head that is held when a drain begins is emitted.
pub const DEFICIT_HELD_AT_CLOSE: Row = Row {
    name: "deficit-held-at-close",
    tree: DRR_500_OVER_ONE,
    script: "send 0 1000\npull 0\ndrain 0\n",
    answer: "0#0 1000 accepted\n\
    pull 0: none\npull 1: 0#0 1000\n\
    sender 0: sent 1 1000, accepted 1 1000, refused 0 0, evicted 0 0, emitted 1 1000\n",
    visits: "0,1,0,1,0,0,1000,0,0\n0,0,0,1,,,,0,0\n\
    1,1,0,0,0,0,1000,1,1\n1,0,0,1,0,0,1000,1,1\n",
};

/// A deficit above a deficit: the inner one covers the packet at the third pull, and the outer one at the fourth.
pub const NESTED_DEFICIT: Row = Row {
    name: "nested-deficit",
    tree: DRR_OVER_DRR,
    script: "send 0 700\npull 0\npull 0\npull 0\npull 0\n",
    answer: "0#0 700 accepted\n\
    pull 0: none\npull 0: none\npull 0: none\npull 0: 0#0 700\n",
    visits: "0,2,0,1,0,0,700,0,0\n0,1,0,1,,,,0,0\n0,0,0,1,,,,0,0\n\
    1,2,0,0,0,0,700,0,0\n1,1,0,1,,,,0,0\n1,0,0,1,,,,0,0\n\
    2,2,0,0,0,0,700,1,0\n2,1,0,1,0,0,700,0,0\n2,0,0,1,,,,0,0\n\
    3,1,0,0,0,0,700,1,0\n3,0,0,1,0,0,700,1,0\n",
};

/// A drain emits the packet at the last of 65,535 pulls.
pub const LONG_DRAIN: Row = Row {
    name: "long-drain",
    tree: DRR_1_OVER_ONE,
    script: "send 0 65535\ndrain 0\n",
    answer: "0#0 65535 accepted\n\
    pull 65535: 0#0 65535\n\
    sender 0: sent 1 65535, accepted 1 65535, refused 0 0, evicted 0 0, emitted 1 65535\n",
    visits: "",
};

/// Each input has a quantum of its own.
pub const QUANTUM_EACH: Row = Row {
    name: "quantum-each",
    tree: DRR_500_1000,
    script: "send 0 500\nsend 0 500\nsend 1 500\nsend 1 500\nsend 1 500\nsend 1 500\npull 0\npull 0\n\
    pull 0\npull 0\npull 0\npull 0\npull 0\n",
    answer: "0#0 500 accepted\n0#1 500 accepted\n1#0 500 accepted\n1#1 500 accepted\n1#2 500 accepted\n\
    1#3 500 accepted\n\
    pull 0: 0#0 500\npull 0: 1#0 500\npull 0: 1#1 500\npull 0: 0#1 500\npull 0: 1#2 500\n\
    pull 0: 1#3 500\npull 0: none\n",
    visits: "",
};

//! Inputs that are asked in order.

use crate::Row;
use crate::trees::{PRIO_OVER_ROOM_FOR_TWO, ROUND_ROBIN_OVER_THREE};

/// A lower input goes first. The program runs this tree when it gets no arguments.
pub const PRIO_TWO_QUEUES: Row = Row {
    name: "prio-two-queues",
    tree: PRIO_OVER_ROOM_FOR_TWO,
    script: "send 0 100\nsend 1 50\npull 0\npull 0\npull 0\n",
    answer: "0#0 100 accepted\n1#0 50 accepted\n\
    pull 0: 0#0 100\npull 0: 1#0 50\npull 0: none\n",
    visits: "0,1,0,1,0,0,100,1,0\n0,0,0,1,0,0,100,1,0\n\
    1,1,0,1,,,,0,0\n1,1,1,1,1,0,50,1,0\n1,0,0,1,1,0,50,1,0\n\
    2,1,0,1,,,,0,0\n2,1,1,1,,,,0,0\n2,0,0,1,,,,0,0\n",
};

/// Three queues take turns. The second pull begins at input 1, and the third at input 0.
pub const ROUND_ROBIN_THREE: Row = Row {
    name: "round-robin-three",
    tree: ROUND_ROBIN_OVER_THREE,
    script: "send 0 10\nsend 0 11\nsend 2 12\nsend 2 13\npull 0\npull 0\npull 0\npull 0\npull 0\n",
    answer: "0#0 10 accepted\n0#1 11 accepted\n2#0 12 accepted\n2#1 13 accepted\n\
    pull 0: 0#0 10\npull 0: 2#0 12\npull 0: 0#1 11\npull 0: 2#1 13\npull 0: none\n",
    visits: "0,1,0,1,0,0,10,1,0\n0,0,0,1,0,0,10,1,0\n\
    1,1,1,1,,,,0,0\n1,1,2,1,2,0,12,1,0\n1,0,0,1,2,0,12,1,0\n\
    2,1,0,1,0,1,11,1,0\n2,0,0,1,0,1,11,1,0\n\
    3,1,1,1,,,,0,0\n3,1,2,1,2,1,13,1,0\n3,0,0,1,2,1,13,1,0\n\
    4,1,0,1,,,,0,0\n4,1,1,1,,,,0,0\n4,1,2,1,,,,0,0\n4,0,0,1,,,,0,0\n",
};

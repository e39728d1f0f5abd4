//! Inputs that are asked in order.

use crate::trees::{
    DRR_OVER_TWO_SCHEDULERS, PRIO_OVER_TWELVE, ROUND_ROBIN_OVER_TWELVE, ROUND_ROBIN_OVER_TWO,
};
use clk_rows::Row;

/// Scripts, and what they write.
pub const ROWS: [Row; 4] = [
    Row {
        name: "a pull that finds nothing keeps the turn",
        tree: ROUND_ROBIN_OVER_TWO,
        script: "send 0 1\npull 0\npull 0\nsend 0 1\nsend 1 1\npull 0\n",
        answer: "0#0 1 accepted\n\
        pull 0: 0#0 1\npull 0: none\n\
        0#1 1 accepted\n1#0 1 accepted\n\
        pull 0: 1#0 1\n",
        visits: "0,1,0,1,0,0,1,1,0\n0,0,0,1,0,0,1,1,0\n\
        1,1,1,1,,,,0,0\n1,1,0,1,,,,0,0\n1,0,0,1,,,,0,0\n\
        2,1,1,1,1,0,1,1,0\n2,0,0,1,1,0,1,1,0\n",
    },
    Row {
        name: "queues that have nothing are passed over, and visited",
        tree: PRIO_OVER_TWELVE,
        script: "send 11 1\npull 0\nsend 0 2\nsend 10 3\npull 1\npull 2\npull 3\n",
        answer: "11#0 1 accepted\npull 0: 11#0 1\n\
        0#0 2 accepted\n10#0 3 accepted\n\
        pull 1: 0#0 2\npull 2: 10#0 3\npull 3: none\n",
        visits: "0,1,0,1,,,,0,0\n0,1,1,1,,,,0,0\n0,1,2,1,,,,0,0\n0,1,3,1,,,,0,0\n0,1,4,1,,,,0,0\n\
        0,1,5,1,,,,0,0\n0,1,6,1,,,,0,0\n0,1,7,1,,,,0,0\n0,1,8,1,,,,0,0\n0,1,9,1,,,,0,0\n\
        0,1,10,1,,,,0,0\n0,1,11,1,11,0,1,1,0\n0,0,0,1,11,0,1,1,0\n\
        1,1,0,1,0,0,2,1,1\n1,0,0,1,0,0,2,1,1\n\
        2,1,0,1,,,,0,2\n2,1,1,1,,,,0,2\n2,1,2,1,,,,0,2\n2,1,3,1,,,,0,2\n2,1,4,1,,,,0,2\n\
        2,1,5,1,,,,0,2\n2,1,6,1,,,,0,2\n2,1,7,1,,,,0,2\n2,1,8,1,,,,0,2\n2,1,9,1,,,,0,2\n\
        2,1,10,1,10,0,3,1,2\n2,0,0,1,10,0,3,1,2\n\
        3,1,0,1,,,,0,3\n3,1,1,1,,,,0,3\n3,1,2,1,,,,0,3\n3,1,3,1,,,,0,3\n3,1,4,1,,,,0,3\n\
        3,1,5,1,,,,0,3\n3,1,6,1,,,,0,3\n3,1,7,1,,,,0,3\n3,1,8,1,,,,0,3\n3,1,9,1,,,,0,3\n\
        3,1,10,1,,,,0,3\n3,1,11,1,,,,0,3\n3,0,0,1,,,,0,3\n",
    },
    Row {
        name: "queues that have nothing are passed over from where the turn is",
        tree: ROUND_ROBIN_OVER_TWELVE,
        script: "send 9 1\nsend 2 5\npull 0\npull 0\npull 0\n",
        answer: "9#0 1 accepted\n2#0 5 accepted\npull 0: 2#0 5\npull 0: 9#0 1\npull 0: none\n",
        visits: "0,1,0,1,,,,0,0\n0,1,1,1,,,,0,0\n0,1,2,1,2,0,5,1,0\n0,0,0,1,2,0,5,1,0\n\
        1,1,3,1,,,,0,0\n1,1,4,1,,,,0,0\n1,1,5,1,,,,0,0\n1,1,6,1,,,,0,0\n1,1,7,1,,,,0,0\n\
        1,1,8,1,,,,0,0\n1,1,9,1,9,0,1,1,0\n1,0,0,1,9,0,1,1,0\n\
        2,1,10,1,,,,0,0\n2,1,11,1,,,,0,0\n2,1,0,1,,,,0,0\n2,1,1,1,,,,0,0\n2,1,2,1,,,,0,0\n\
        2,1,3,1,,,,0,0\n2,1,4,1,,,,0,0\n2,1,5,1,,,,0,0\n2,1,6,1,,,,0,0\n2,1,7,1,,,,0,0\n\
        2,1,8,1,,,,0,0\n2,1,9,1,,,,0,0\n2,0,0,1,,,,0,0\n",
    },
    // When the third pull visits the schedulers, none of their queues is marked: both are visited without asking.
    Row {
        name: "schedulers whose queues have nothing are visited from where their turn is",
        tree: DRR_OVER_TWO_SCHEDULERS,
        script: "send 0 1\nsend 4 2\npull 0\npull 0\npull 0\nsend 1 1\nsend 0 1\npull 0\n",
        answer: "0#0 1 accepted\n4#0 2 accepted\npull 0: 0#0 1\npull 0: 4#0 2\npull 0: none\n\
        1#0 1 accepted\n0#1 1 accepted\npull 0: 1#0 1\n",
        visits: "0,2,0,1,0,0,1,1,0\n0,1,0,1,0,0,1,1,0\n0,0,0,1,0,0,1,1,0\n\
        1,2,1,1,,,,0,0\n1,2,0,1,,,,0,0\n1,1,0,1,,,,0,0\n1,3,0,1,,,,0,0\n1,3,1,1,,,,0,0\n\
        1,1,1,1,,,,0,0\n1,1,2,1,4,0,2,1,0\n1,0,0,1,4,0,2,1,0\n\
        2,1,2,1,,,,0,0\n2,2,1,1,,,,0,0\n2,2,0,1,,,,0,0\n2,1,0,1,,,,0,0\n2,3,0,1,,,,0,0\n\
        2,3,1,1,,,,0,0\n2,1,1,1,,,,0,0\n2,0,0,1,,,,0,0\n\
        3,1,2,1,,,,0,0\n3,2,1,1,1,0,1,1,0\n3,1,0,1,1,0,1,1,0\n3,0,0,1,1,0,1,1,0\n",
    },
];

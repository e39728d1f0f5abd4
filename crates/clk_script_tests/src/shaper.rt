//! Token buckets.

use crate::trees::{DRR_OVER_SHAPER, SHAPER_1_3, SHAPER_2_2, SHAPER_5_2};
use clk_rows::Row;
use clk_rows::trees::SHAPER_1_1;

/// Scripts, and what they write.
pub const ROWS: [Row; 5] = [
    Row {
        name: "a bucket holds no more than a burst",
        tree: SHAPER_5_2,
        script: "send 0 1\nsend 0 1\nsend 0 1\nsend 0 1\nsend 0 1\npull 0\npull 0\npull 0\npull 9\n\
        pull 9\npull 9\n",
        answer: "0#0 1 accepted\n0#1 1 accepted\n0#2 1 accepted\n0#3 1 accepted\n0#4 1 accepted\n\
        pull 0: 0#0 1\npull 0: 0#1 1\npull 0: none\npull 9: 0#2 1\npull 9: 0#3 1\npull 9: none\n",
        visits: "0,1,0,1,0,0,1,1,0\n0,0,0,1,0,0,1,1,0\n\
        1,1,0,1,0,1,1,1,0\n1,0,0,1,0,1,1,1,0\n\
        2,0,0,1,,,,0,0\n\
        3,1,0,1,0,2,1,1,9\n3,0,0,1,0,2,1,1,9\n\
        4,1,0,1,0,3,1,1,9\n4,0,0,1,0,3,1,1,9\n\
        5,0,0,1,,,,0,9\n",
    },
    Row {
        name: "a pull that finds nothing costs nothing",
        tree: SHAPER_1_1,
        script: "pull 0\nsend 0 1\npull 0\n",
        answer: "pull 0: none\n\
        0#0 1 accepted\n\
        pull 0: 0#0 1\n",
        visits: "0,1,0,1,,,,0,0\n0,0,0,1,,,,0,0\n\
        1,1,0,1,0,0,1,1,0\n1,0,0,1,0,0,1,1,0\n",
    },
    Row {
        name: "a tick gives the rate",
        tree: SHAPER_2_2,
        script: "send 0 1\nsend 0 1\nsend 0 1\nsend 0 1\nsend 0 1\npull 0\npull 0\npull 0\npull 1\n\
        pull 1\npull 1\n",
        answer: "0#0 1 accepted\n0#1 1 accepted\n0#2 1 accepted\n0#3 1 accepted\n0#4 1 accepted\n\
        pull 0: 0#0 1\npull 0: 0#1 1\npull 0: none\npull 1: 0#2 1\npull 1: 0#3 1\npull 1: none\n",
        visits: "0,1,0,1,0,0,1,1,0\n0,0,0,1,0,0,1,1,0\n\
        1,1,0,1,0,1,1,1,0\n1,0,0,1,0,1,1,1,0\n\
        2,0,0,1,,,,0,0\n\
        3,1,0,1,0,2,1,1,1\n3,0,0,1,0,2,1,1,1\n\
        4,1,0,1,0,3,1,1,1\n4,0,0,1,0,3,1,1,1\n\
        5,0,0,1,,,,0,1\n",
    },
    Row {
        name: "two ticks give twice the rate",
        tree: SHAPER_1_3,
        script: "send 0 1\nsend 0 1\nsend 0 1\nsend 0 1\nsend 0 1\nsend 0 1\npull 0\npull 0\npull 0\n\
        pull 2\npull 2\npull 2\n",
        answer: "0#0 1 accepted\n0#1 1 accepted\n0#2 1 accepted\n0#3 1 accepted\n0#4 1 accepted\n\
        0#5 1 accepted\n\
        pull 0: 0#0 1\npull 0: 0#1 1\npull 0: 0#2 1\npull 2: 0#3 1\npull 2: 0#4 1\npull 2: none\n",
        visits: "0,1,0,1,0,0,1,1,0\n0,0,0,1,0,0,1,1,0\n\
        1,1,0,1,0,1,1,1,0\n1,0,0,1,0,1,1,1,0\n\
        2,1,0,1,0,2,1,1,0\n2,0,0,1,0,2,1,1,0\n\
        3,1,0,1,0,3,1,1,2\n3,0,0,1,0,3,1,1,2\n\
        4,1,0,1,0,4,1,1,2\n4,0,0,1,0,4,1,1,2\n\
        5,0,0,1,,,,0,2\n",
    },
    Row {
        name: "a shaper stands below a deficit",
        tree: DRR_OVER_SHAPER,
        script: "send 0 300\nsend 0 300\npull 0\npull 0\npull 1\n",
        answer: "0#0 300 accepted\n0#1 300 accepted\n\
        pull 0: 0#0 300\npull 0: none\npull 1: 0#1 300\n",
        visits: "0,2,0,1,0,0,300,1,0\n0,1,0,1,0,0,300,1,0\n0,0,0,1,0,0,300,1,0\n\
        1,1,0,1,,,,0,0\n1,0,0,1,,,,0,0\n\
        2,2,0,1,0,1,300,1,1\n2,1,0,1,0,1,300,1,1\n2,0,0,1,0,1,300,1,1\n",
    },
];

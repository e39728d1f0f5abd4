//! Inputs with tickets.

use crate::row::assert_ends;
use crate::text::{Pieces, text_of};
use crate::trees::{
    STRIDE_1_1, STRIDE_3_1, STRIDE_32768_1, STRIDE_OVER_DEFICIT, STRIDE_OVER_TWELVE,
};
use clk_rows::Row;

/// Scripts, and what they write.
pub const ROWS: [Row; 5] = [
    Row {
        name: "an idle input gets the pass of the winner",
        tree: STRIDE_1_1,
        script: "send 0 1\nsend 0 1\nsend 0 1\nsend 0 1\nsend 0 1\npull 0\npull 0\npull 0\nsend 1 1\n\
        send 1 1\nsend 1 1\npull 0\npull 0\npull 0\npull 0\npull 0\n",
        answer: "0#0 1 accepted\n0#1 1 accepted\n0#2 1 accepted\n0#3 1 accepted\n0#4 1 accepted\n\
        pull 0: 0#0 1\npull 0: 0#1 1\npull 0: 0#2 1\n\
        1#0 1 accepted\n1#1 1 accepted\n1#2 1 accepted\n\
        pull 0: 1#0 1\npull 0: 0#3 1\npull 0: 1#1 1\npull 0: 0#4 1\npull 0: 1#2 1\n",
        visits: "0,1,0,1,0,0,1,1,0\n0,0,0,1,0,0,1,1,0\n\
        1,1,1,1,,,,0,0\n1,1,0,1,0,1,1,1,0\n1,0,0,1,0,1,1,1,0\n\
        2,1,1,1,,,,0,0\n2,1,0,1,0,2,1,1,0\n2,0,0,1,0,2,1,1,0\n\
        3,1,1,1,1,0,1,1,0\n3,0,0,1,1,0,1,1,0\n\
        4,1,0,1,0,3,1,1,0\n4,0,0,1,0,3,1,1,0\n\
        5,1,1,1,1,1,1,1,0\n5,0,0,1,1,1,1,1,0\n\
        6,1,0,1,0,4,1,1,0\n6,0,0,1,0,4,1,1,0\n\
        7,1,1,1,1,2,1,1,0\n7,0,0,1,1,2,1,1,0\n",
    },
    Row {
        name: "queues that have nothing are passed over by rank, and visited",
        tree: STRIDE_OVER_TWELVE,
        script: "send 11 1\nsend 11 2\nsend 11 3\nsend 2 5\npull 0\npull 0\npull 0\npull 0\npull 0\nsend 10 6\npull 0\n",
        answer: "11#0 1 accepted\n11#1 2 accepted\n11#2 3 accepted\n2#0 5 accepted\n\
        pull 0: 2#0 5\npull 0: 11#0 1\npull 0: 11#1 2\npull 0: 11#2 3\npull 0: none\n\
        10#0 6 accepted\npull 0: 10#0 6\n",
        visits: "0,1,0,1,,,,0,0\n0,1,1,1,,,,0,0\n0,1,2,1,2,0,5,1,0\n0,0,0,1,2,0,5,1,0\n\
        1,1,0,1,,,,0,0\n1,1,1,1,,,,0,0\n1,1,3,1,,,,0,0\n1,1,4,1,,,,0,0\n1,1,5,1,,,,0,0\n\
        1,1,6,1,,,,0,0\n1,1,7,1,,,,0,0\n1,1,8,1,,,,0,0\n1,1,9,1,,,,0,0\n1,1,10,1,,,,0,0\n\
        1,1,11,1,11,0,1,1,0\n1,0,0,1,11,0,1,1,0\n\
        2,1,0,1,,,,0,0\n2,1,1,1,,,,0,0\n2,1,3,1,,,,0,0\n2,1,4,1,,,,0,0\n2,1,5,1,,,,0,0\n\
        2,1,6,1,,,,0,0\n2,1,7,1,,,,0,0\n2,1,8,1,,,,0,0\n2,1,9,1,,,,0,0\n2,1,10,1,,,,0,0\n\
        2,1,11,1,11,1,2,1,0\n2,0,0,1,11,1,2,1,0\n\
        3,1,0,1,,,,0,0\n3,1,1,1,,,,0,0\n3,1,3,1,,,,0,0\n3,1,4,1,,,,0,0\n3,1,5,1,,,,0,0\n\
        3,1,6,1,,,,0,0\n3,1,7,1,,,,0,0\n3,1,8,1,,,,0,0\n3,1,9,1,,,,0,0\n3,1,10,1,,,,0,0\n\
        3,1,11,1,11,2,3,1,0\n3,0,0,1,11,2,3,1,0\n\
        4,1,0,1,,,,0,0\n4,1,1,1,,,,0,0\n4,1,3,1,,,,0,0\n4,1,4,1,,,,0,0\n4,1,5,1,,,,0,0\n\
        4,1,6,1,,,,0,0\n4,1,7,1,,,,0,0\n4,1,8,1,,,,0,0\n4,1,9,1,,,,0,0\n4,1,10,1,,,,0,0\n\
        4,1,11,1,,,,0,0\n4,1,2,1,,,,0,0\n4,0,0,1,,,,0,0\n\
        5,1,0,1,,,,0,0\n5,1,1,1,,,,0,0\n5,1,3,1,,,,0,0\n5,1,4,1,,,,0,0\n5,1,5,1,,,,0,0\n\
        5,1,6,1,,,,0,0\n5,1,7,1,,,,0,0\n5,1,8,1,,,,0,0\n5,1,9,1,,,,0,0\n5,1,10,1,10,0,6,1,0\n\
        5,0,0,1,10,0,6,1,0\n",
    },
    Row {
        name: "a pull that finds nothing changes no pass",
        tree: STRIDE_1_1,
        script: "pull 0\nsend 0 1\nsend 1 1\npull 0\n",
        answer: "pull 0: none\n\
        0#0 1 accepted\n1#0 1 accepted\n\
        pull 0: 0#0 1\n",
        visits: "0,1,0,1,,,,0,0\n0,1,1,1,,,,0,0\n0,0,0,1,,,,0,0\n\
        1,1,0,1,0,0,1,1,0\n1,0,0,1,0,0,1,1,0\n",
    },
    Row {
        name: "an input that holds a head back is idle",
        tree: STRIDE_OVER_DEFICIT,
        script: "send 0 25\nsend 0 5\nsend 1 5\nsend 1 5\nsend 1 5\nsend 1 5\nsend 1 5\npull 0\n\
        pull 0\npull 0\npull 0\npull 0\npull 0\npull 0\n",
        answer: "0#0 25 accepted\n0#1 5 accepted\n1#0 5 accepted\n1#1 5 accepted\n1#2 5 accepted\n\
        1#3 5 accepted\n1#4 5 accepted\n\
        pull 0: 1#0 5\npull 0: 1#1 5\npull 0: 1#2 5\npull 0: 0#0 25\npull 0: 1#3 5\npull 0: 0#1 5\n\
        pull 0: 1#4 5\n",
        visits: "0,1,0,1,1,0,5,1,0\n0,0,0,1,1,0,5,1,0\n\
        1,2,0,1,0,0,25,0,0\n1,1,1,1,,,,0,0\n1,1,0,1,1,1,5,1,0\n1,0,0,1,1,1,5,1,0\n\
        2,2,0,0,0,0,25,0,0\n2,1,1,1,,,,0,0\n2,1,0,1,1,2,5,1,0\n2,0,0,1,1,2,5,1,0\n\
        3,2,0,0,0,0,25,1,0\n3,1,1,1,0,0,25,1,0\n3,0,0,1,0,0,25,1,0\n\
        4,1,0,1,1,3,5,1,0\n4,0,0,1,1,3,5,1,0\n\
        5,2,0,1,0,1,5,1,0\n5,1,1,1,0,1,5,1,0\n5,0,0,1,0,1,5,1,0\n\
        6,1,0,1,1,4,5,1,0\n6,0,0,1,1,4,5,1,0\n",
    },
    Row {
        name: "strides are rounded down",
        tree: STRIDE_3_1,
        script: "send 0 1\nsend 0 1\nsend 0 1\nsend 0 1\nsend 0 1\nsend 1 1\nsend 1 1\npull 0\n\
        pull 0\npull 0\npull 0\npull 0\npull 0\npull 0\n",
        answer: "0#0 1 accepted\n0#1 1 accepted\n0#2 1 accepted\n0#3 1 accepted\n0#4 1 accepted\n\
        1#0 1 accepted\n1#1 1 accepted\n\
        pull 0: 0#0 1\npull 0: 1#0 1\npull 0: 0#1 1\npull 0: 0#2 1\npull 0: 0#3 1\npull 0: 1#1 1\n\
        pull 0: 0#4 1\n",
        visits: "0,1,0,1,0,0,1,1,0\n0,0,0,1,0,0,1,1,0\n\
        1,1,1,1,1,0,1,1,0\n1,0,0,1,1,0,1,1,0\n\
        2,1,0,1,0,1,1,1,0\n2,0,0,1,0,1,1,1,0\n\
        3,1,0,1,0,2,1,1,0\n3,0,0,1,0,2,1,1,0\n\
        4,1,0,1,0,3,1,1,0\n4,0,0,1,0,3,1,1,0\n\
        5,1,1,1,1,1,1,1,0\n5,0,0,1,1,1,1,1,0\n\
        6,1,0,1,0,4,1,1,0\n6,0,0,1,0,4,1,1,0\n",
    },
];

/// Sender 0 sends many packets and sender 1 two; then each is pulled.
const MANY: [Pieces; 3] = [
    ("send 0 10\n", 0, 32_769),
    ("send 1 10\n", 0, 2),
    ("pull 0\n", 0, 32_771),
];

/// What the script of `MANY` writes: pull 1 and the last give the packets of sender 1, and all others those of sender 0.
const LINES_OF_MANY: [Pieces; 6] = [
    ("0#% 10 accepted\n", 0, 32_769),
    ("1#% 10 accepted\n", 0, 2),
    ("pull 0: 0#0 10\n", 0, 1),
    ("pull 0: 1#0 10\n", 0, 1),
    ("pull 0: 0#% 10\n", 1, 32_769),
    ("pull 0: 1#1 10\n", 0, 1),
];

// Before the last pull but one, both passes are 65,536, and the first input is asked first.
#[test]
fn tickets_may_be_far_apart(rt: HostRuntime) {
    let script = text_of(rt.alloc(), &MANY).expect(&rt, "ample memory");
    let lines = text_of(rt.alloc(), &LINES_OF_MANY).expect(&rt, "ample memory");
    assert_ends(
        &rt,
        rt.alloc(),
        STRIDE_32768_1,
        script.as_bytes(),
        Ok(()),
        lines.as_bytes(),
    );
}

//! Inputs with quanta, and heads.

use crate::trees::{DRR_500_1, DRR_OVER_TWELVE};
use clk_rows::Row;

/// Scripts, and what they write.
pub const ROWS: [Row; 2] = [
    // The packet is emitted at half of the pulls that the drain may take at most, which are 131,072.
    Row {
        name: "the least quantum tells how long a drain may take",
        tree: DRR_500_1,
        script: "send 1 65535\ndrain 0\n",
        answer: "1#0 65535 accepted\npull 65535: 1#0 65535\n\
        sender 0: sent 0 0, accepted 0 0, refused 0 0, evicted 0 0, emitted 0 0\n\
        sender 1: sent 1 65535, accepted 1 65535, refused 0 0, evicted 0 0, emitted 1 65535\n",
        visits: "",
    },
    // The mark of the queue at input 5 still says that it may hold a packet, while its packet is held as a head.
    Row {
        name: "queues that have nothing are visited up to one whose head is held",
        tree: DRR_OVER_TWELVE,
        script: "send 5 5\nsend 11 1\npull 0\npull 0\npull 0\n",
        answer: "5#0 5 accepted\n11#0 1 accepted\npull 0: 11#0 1\npull 0: 5#0 5\npull 0: none\n",
        visits: "0,1,0,1,,,,0,0\n0,1,1,1,,,,0,0\n0,1,2,1,,,,0,0\n0,1,3,1,,,,0,0\n0,1,4,1,,,,0,0\n\
        0,1,5,1,5,0,5,0,0\n0,1,6,1,,,,0,0\n0,1,7,1,,,,0,0\n0,1,8,1,,,,0,0\n0,1,9,1,,,,0,0\n\
        0,1,10,1,,,,0,0\n0,1,11,1,11,0,1,1,0\n0,0,0,1,11,0,1,1,0\n\
        1,1,11,1,,,,0,0\n1,1,0,1,,,,0,0\n1,1,1,1,,,,0,0\n1,1,2,1,,,,0,0\n1,1,3,1,,,,0,0\n\
        1,1,4,1,,,,0,0\n1,1,5,0,5,0,5,1,0\n1,0,0,1,5,0,5,1,0\n\
        2,1,5,1,,,,0,0\n2,1,6,1,,,,0,0\n2,1,7,1,,,,0,0\n2,1,8,1,,,,0,0\n2,1,9,1,,,,0,0\n\
        2,1,10,1,,,,0,0\n2,1,11,1,,,,0,0\n2,1,0,1,,,,0,0\n2,1,1,1,,,,0,0\n2,1,2,1,,,,0,0\n\
        2,1,3,1,,,,0,0\n2,1,4,1,,,,0,0\n2,0,0,1,,,,0,0\n",
    },
];

//! Token buckets.

use crate::Row;
use crate::trees::{SHAPER_1_1, SHAPER_1_2};

/// A burst goes first. The last pull names an earlier moment than the pull before it, and counts as one at that.
pub const SHAPER_BURST_TWO: Row = Row {
    name: "shaper-burst-two",
    tree: SHAPER_1_2,
    script: "send 0 10\nsend 0 10\nsend 0 10\nsend 0 10\npull 0\npull 0\npull 0\npull 1\npull 0\n\
    drain 0\n",
    answer: "0#0 10 accepted\n0#1 10 accepted\n0#2 10 accepted\n0#3 10 accepted\n\
    pull 0: 0#0 10\npull 0: 0#1 10\npull 0: none\npull 1: 0#2 10\npull 0: none\npull 2: 0#3 10\n\
    sender 0: sent 4 40, accepted 4 40, refused 0 0, evicted 0 0, emitted 4 40\n",
    visits: "0,1,0,1,0,0,10,1,0\n0,0,0,1,0,0,10,1,0\n\
    1,1,0,1,0,1,10,1,0\n1,0,0,1,0,1,10,1,0\n\
    2,0,0,1,,,,0,0\n\
    3,1,0,1,0,2,10,1,1\n3,0,0,1,0,2,10,1,1\n\
    4,0,0,1,,,,0,1\n\
    5,1,0,1,0,3,10,1,2\n5,0,0,1,0,3,10,1,2\n",
};

/// A late moment fills nothing. The first pull is at the last moment that a script can name, and the drain goes on beyond it.
pub const SHAPER_LATE_MOMENT: Row = Row {
    name: "shaper-late-moment",
    tree: SHAPER_1_1,
    script: "send 0 10\nsend 0 10\nsend 0 10\npull 1099511627775\npull 0\ndrain 0\n",
    answer: "0#0 10 accepted\n0#1 10 accepted\n0#2 10 accepted\n\
    pull 1099511627775: 0#0 10\npull 0: none\npull 1099511627776: 0#1 10\n\
    pull 1099511627777: 0#2 10\n\
    sender 0: sent 3 30, accepted 3 30, refused 0 0, evicted 0 0, emitted 3 30\n",
    visits: "0,1,0,1,0,0,10,1,1099511627775\n0,0,0,1,0,0,10,1,1099511627775\n\
    1,0,0,1,,,,0,1099511627775\n\
    2,1,0,1,0,1,10,1,1099511627776\n2,0,0,1,0,1,10,1,1099511627776\n\
    3,1,0,1,0,2,10,1,1099511627777\n3,0,0,1,0,2,10,1,1099511627777\n",
};

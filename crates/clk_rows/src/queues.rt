//! Queues that are full.

use crate::Row;
use crate::trees::{PRIO_OVER_FRONT_DROP, PRIO_OVER_ROOM_FOR_ONE, SHARED_FRONT_DROP};

/// A full Queue refuses a packet. Nothing is left at the drain, which makes no pull.
pub const TAIL_DROP_FULL: Row = Row {
    name: "tail-drop-full",
    tree: PRIO_OVER_ROOM_FOR_ONE,
    script: "send 0 10\nsend 0 20\npull 0\ndrain 0\n",
    answer: "0#0 10 accepted\n\
    0#1 20 refused\n\
    pull 0: 0#0 10\n\
    sender 0: sent 2 30, accepted 1 10, refused 1 20, evicted 0 0, emitted 1 10\n",
    visits: "0,1,0,1,0,0,10,1,0\n0,0,0,1,0,0,10,1,0\n",
};

/// A full FrontDropQueue evicts its front.
pub const FRONT_DROP_FULL: Row = Row {
    name: "front-drop-full",
    tree: PRIO_OVER_FRONT_DROP,
    script: "send 0 10\nsend 0 20\nsend 0 30\npull 0\npull 0\npull 0\n",
    answer: "0#0 10 accepted\n0#1 20 accepted\n\
    0#2 30 accepted evicted 0#0\n\
    pull 0: 0#1 20\npull 0: 0#2 30\npull 0: none\n",
    visits: "0,1,0,1,0,1,20,1,0\n0,0,0,1,0,1,20,1,0\n\
    1,1,0,1,0,2,30,1,0\n1,0,0,1,0,2,30,1,0\n\
    2,1,0,1,,,,0,0\n2,0,0,1,,,,0,0\n",
};

/// A packet may evict another sender's.
pub const EVICTS_OTHER_SENDER: Row = Row {
    name: "evicts-other-sender",
    tree: SHARED_FRONT_DROP,
    script: "send 0 100\nsend 1 60\npull 0\ndrain 0\n",
    answer: "0#0 100 accepted\n\
    1#0 60 accepted evicted 0#0\n\
    pull 0: 1#0 60\n\
    sender 0: sent 1 100, accepted 1 100, refused 0 0, evicted 1 100, emitted 0 0\n\
    sender 1: sent 1 60, accepted 1 60, refused 0 0, evicted 0 0, emitted 1 60\n",
    visits: "0,0,0,1,1,0,60,1,0\n",
};

//! Full queues.

use clk_rows::Row;
use clk_rows::trees::SHARED_FRONT_DROP;

/// Scripts, and what they write.
pub const ROWS: [Row; 1] = [Row {
    name: "a packet that was put out is not waited for",
    tree: SHARED_FRONT_DROP,
    script: "send 0 100\nsend 0 50\nsend 1 60\ndrain 4\n",
    answer: "0#0 100 accepted\n\
        0#1 50 accepted evicted 0#0\n\
        1#0 60 accepted evicted 0#1\n\
        pull 5: 1#0 60\n\
        sender 0: sent 2 150, accepted 2 150, refused 0 0, evicted 2 150, emitted 0 0\n\
        sender 1: sent 1 60, accepted 1 60, refused 0 0, evicted 0 0, emitted 1 60\n",
    visits: "",
}];

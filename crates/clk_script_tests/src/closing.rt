//! The last line of a script, which drains the devices.

use crate::trees::{ONE, PRIO_OVER_ONE, PRIO_OVER_TWO, SHARED_BY_FIRST_AND_LAST};
use clk_rows::Row;

/// Scripts, and what they write.
pub const ROWS: [Row; 6] = [
    Row {
        name: "a report has each sender",
        tree: PRIO_OVER_TWO,
        script: "drain 5\n",
        answer: "sender 0: sent 0 0, accepted 0 0, refused 0 0, evicted 0 0, emitted 0 0\n\
        sender 1: sent 0 0, accepted 0 0, refused 0 0, evicted 0 0, emitted 0 0\n",
        visits: "",
    },
    Row {
        name: "blank lines may come after a drain",
        tree: PRIO_OVER_ONE,
        script: "drain 0\n\n \t \r\n\t",
        answer: "sender 0: sent 0 0, accepted 0 0, refused 0 0, evicted 0 0, emitted 0 0\n",
        visits: "",
    },
    Row {
        name: "a drain may vary as other lines do",
        tree: PRIO_OVER_ONE,
        script: "send 0 10\r\n\t drain \t 0000001099511627775 ",
        answer: "0#0 10 accepted\n\
        pull 1099511627776: 0#0 10\n\
        sender 0: sent 1 10, accepted 1 10, refused 0 0, evicted 0 0, emitted 1 10\n",
        visits: "",
    },
    // The earlier moment of the second pull changes nothing.
    Row {
        name: "a closing starts after the greatest moment so far",
        tree: ONE,
        script: "send 0 10\nsend 0 20\nsend 0 30\nsend 0 40\npull 7\npull 2\ndrain 3\n",
        answer: "0#0 10 accepted\n0#1 20 accepted\n0#2 30 accepted\n0#3 40 accepted\n\
        pull 7: 0#0 10\npull 2: 0#1 20\npull 8: 0#2 30\npull 9: 0#3 40\n\
        sender 0: sent 4 100, accepted 4 100, refused 0 0, evicted 0 0, emitted 4 100\n",
        visits: "",
    },
    Row {
        name: "a closing starts after its own moment where that is later",
        tree: PRIO_OVER_TWO,
        script: "send 1 65535\nsend 0 20\nsend 1 30\npull 7\ndrain 9\n",
        answer: "1#0 65535 accepted\n0#0 20 accepted\n1#1 30 accepted\n\
        pull 7: 0#0 20\npull 10: 1#0 65535\npull 11: 1#1 30\n\
        sender 0: sent 1 20, accepted 1 20, refused 0 0, evicted 0 0, emitted 1 20\n\
        sender 1: sent 2 65565, accepted 2 65565, refused 0 0, evicted 0 0, emitted 2 65565\n",
        visits: "",
    },
    Row {
        name: "a report goes by the numbers of senders",
        tree: SHARED_BY_FIRST_AND_LAST,
        script: "send 65535 10\nsend 0 20\nsend 65535 30\nsend 65535 40\ndrain 0\n",
        answer: "65535#0 10 accepted\n0#0 20 accepted\n\
        65535#1 30 refused\n\
        65535#2 40 refused\n\
        pull 1: 65535#0 10\npull 2: 0#0 20\n\
        sender 0: sent 1 20, accepted 1 20, refused 0 0, evicted 0 0, emitted 1 20\n\
        sender 65535: sent 3 80, accepted 1 10, refused 2 70, evicted 0 0, emitted 1 10\n",
        visits: "",
    },
];

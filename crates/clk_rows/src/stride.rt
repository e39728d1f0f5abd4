//! Inputs with tickets.

use crate::Row;
use crate::trees::STRIDE_2_1;

/// Tickets give turns. At the fourth pull both passes are 65,536, and the lower index goes first.
pub const STRIDE_TWO_TO_ONE: Row = Row {
    name: "stride-two-to-one",
    tree: STRIDE_2_1,
    script: "send 0 10\nsend 0 10\nsend 0 10\nsend 0 10\nsend 1 20\nsend 1 20\npull 0\npull 0\n\
    pull 0\npull 0\npull 0\npull 0\n",
    answer: "0#0 10 accepted\n0#1 10 accepted\n0#2 10 accepted\n0#3 10 accepted\n\
    1#0 20 accepted\n1#1 20 accepted\n\
    pull 0: 0#0 10\npull 0: 1#0 20\npull 0: 0#1 10\npull 0: 0#2 10\npull 0: 1#1 20\n\
    pull 0: 0#3 10\n",
    visits: "0,1,0,1,0,0,10,1,0\n0,0,0,1,0,0,10,1,0\n\
    1,1,1,1,1,0,20,1,0\n1,0,0,1,1,0,20,1,0\n\
    2,1,0,1,0,1,10,1,0\n2,0,0,1,0,1,10,1,0\n\
    3,1,0,1,0,2,10,1,0\n3,0,0,1,0,2,10,1,0\n\
    4,1,1,1,1,1,20,1,0\n4,0,0,1,1,1,20,1,0\n\
    5,1,0,1,0,3,10,1,0\n5,0,0,1,0,3,10,1,0\n",
};

/// An idle input earns nothing: at the second pull input 1 is found empty, and gets pass 32,768.
pub const STRIDE_IDLE_INPUT: Row = Row {
    name: "stride-idle-input",
    tree: STRIDE_2_1,
    script: "send 0 10\nsend 0 10\nsend 0 10\npull 0\npull 0\nsend 1 20\npull 0\npull 0\n",
    answer: "0#0 10 accepted\n0#1 10 accepted\n0#2 10 accepted\n\
    pull 0: 0#0 10\npull 0: 0#1 10\n\
    1#0 20 accepted\n\
    pull 0: 1#0 20\npull 0: 0#2 10\n",
    visits: "0,1,0,1,0,0,10,1,0\n0,0,0,1,0,0,10,1,0\n\
    1,1,1,1,,,,0,0\n1,1,0,1,0,1,10,1,0\n1,0,0,1,0,1,10,1,0\n\
    2,1,1,1,1,0,20,1,0\n2,0,0,1,1,0,20,1,0\n\
    3,1,0,1,0,2,10,1,0\n3,0,0,1,0,2,10,1,0\n",
};

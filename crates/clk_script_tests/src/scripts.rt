//! What scripts write, and the faults that they have.

use crate::row::{Answer, assert_ends};
use clk_packet::Fault;
use clk_rows::trees::PRIO_OVER_ROOM_FOR_TWO as TREE;

/// A script writes a line for each command.
pub const ANSWERED: &[Answer] = &[
    (TREE, b"", Ok(()), b""),
    (
        TREE,
        b"pull 1099511627775\n",
        Ok(()),
        b"pull 1099511627775: none\n",
    ),
    (TREE, b"pull 0 \r\n", Ok(()), b"pull 0: none\n"),
    // The only device may be named.
    (
        TREE,
        b"send 0 10\npull 3 0\npull\t2  00000 \r\n",
        Ok(()),
        b"0#0 10 accepted\npull 3: 0#0 10\npull 2: none\n",
    ),
    // A queue of two packets refuses the third, which still takes a number.
    (
        TREE,
        b"send 0 10\nsend 0 20\nsend 0 30\nsend 1 5\npull 1\npull 1\npull 1\nsend 0 40\n",
        Ok(()),
        b"0#0 10 accepted\n0#1 20 accepted\n0#2 30 refused\n1#0 5 accepted\n\
          pull 1: 0#0 10\npull 1: 0#1 20\npull 1: 1#0 5\n0#3 40 accepted\n",
    ),
    // Each sender numbers its own packets, and queue 0 goes before an older packet of queue 1. A pull's line has the moment that was handed
    // in, even if an earlier pull had a greater one.
    (
        TREE,
        b"send 1 5\nsend 0 6\nsend 1 7\nsend 0 8\nsend 1 9\npull 3\npull 3\npull 2\npull 2\npull 2\n",
        Ok(()),
        b"1#0 5 accepted\n0#0 6 accepted\n1#1 7 accepted\n0#1 8 accepted\n1#2 9 refused\n\
          pull 3: 0#0 6\npull 3: 0#1 8\npull 2: 1#0 5\npull 2: 1#1 7\npull 2: none\n",
    ),
    // Spaces, zeros and line ends may vary.
    (
        TREE,
        b"\tsend   0 \t 1500\t \r\n\r\n \t \r\n\n  \t\n\
        send 000000000000000000000000000000000 0000065535\r\n\
        \t pull\t0007  \n\
        pull 00000000000000000000000001099511627775",
        Ok(()),
        b"0#0 1500 accepted\n0#1 65535 accepted\npull 7: 0#0 1500\npull 1099511627775: 0#1 65535\n",
    ),
];

/// Scripts whose first line is no command.
const MALFORMED: &[&[u8]] = &[
    b"pull 1099511627776\n",
    b"send 0 0\n",
    b"send 0 65536\n",
    b"send 65536 1\n",
    b"pull -1\n",
    b"pull +1\n",
    b"pull 0x1\n",
    b"pull 0 65536\n",
    b"pull 0 -1\n",
    b"pull 0 x\n",
    b"pull x 0\n",
    b"pull 0 0 0\n",
    b"pull 0 1 2\n",
    b"push 0\n",
    b"PULL 0\n",
    b"drain\n",
    b"drain 1 2\n",
    b"drain 1099511627776\n",
    b"drain -1\n",
    b"send 0\n",
    b"send 0 1 1\n",
    // 2^64, and ten times 2^128.
    b"pull 18446744073709551616\n",
    b"pull 3402823669209384634633746074317682114560\n",
    // An unknown sender, but no valid length.
    b"send 7 0\n",
    b"pull\nsend 7 10\n",
    // Only one carriage return, and only before a line feed, is part of a line's end.
    b"pull 0\r",
    b"pull 0\r\r\n",
    b"\0\n",
    b"pull 0\0\n",
    b"pull\x0b0\n",
    b"pull 0 \xff\n",
    b"\xff",
];

/// Other scripts, and the fault of each.
pub const REFUSED: &[Answer] = &[
    (
        TREE,
        b"send 0 10\npull\n",
        Err(Fault::BadScript { line: 2 }),
        b"",
    ),
    // After a drain no line may have a field.
    (
        TREE,
        b"drain 0\npull 0\n",
        Err(Fault::BadScript { line: 2 }),
        b"",
    ),
    (
        TREE,
        b"drain 0\ndrain 0\n",
        Err(Fault::BadScript { line: 2 }),
        b"",
    ),
    (
        TREE,
        b"drain 0\nsend 7 10\n",
        Err(Fault::BadScript { line: 2 }),
        b"",
    ),
    (
        TREE,
        b"send 0 10\ndrain 0\n\n \t\r\nx",
        Err(Fault::BadScript { line: 5 }),
        b"",
    ),
    (
        TREE,
        b"send 7 10\n",
        Err(Fault::UnknownSender { sender: 7 }),
        b"",
    ),
    // There is only device 0.
    (TREE, b"pull 0 1\n", Err(Fault::BadScript { line: 1 }), b""),
    (
        TREE,
        b"send 0 10\npull 0 65535\n",
        Err(Fault::BadScript { line: 2 }),
        b"",
    ),
    // The first line with a fault decides.
    (
        TREE,
        b"send 7 10\npull\n",
        Err(Fault::UnknownSender { sender: 7 }),
        b"",
    ),
    (
        TREE,
        b"send 7 10\npull 0 1\n",
        Err(Fault::UnknownSender { sender: 7 }),
        b"",
    ),
    (
        TREE,
        b"pull 0 1\nsend 7 10\n",
        Err(Fault::BadScript { line: 1 }),
        b"",
    ),
];

#[test]
fn a_malformed_line_is_refused(rt: HostRuntime) {
    for script in MALFORMED {
        let fault = Fault::BadScript { line: 1 };
        assert_ends(&rt, rt.alloc(), TREE, script, Err(fault), b"");
    }
}

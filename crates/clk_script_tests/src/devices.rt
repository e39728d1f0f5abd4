//! Scripts over several devices.

use crate::row::Answer;
use crate::trees::{CROSSED_DEVICES, FULL_AT_TWO_DEVICES, THREE_DEVICES};
use clk_packet::Fault;
use clk_rows::trees::TWO_DEVICES;

/// Trees with several devices, scripts over them, and what they write.
pub const ANSWERED: &[Answer] = &[
    // Each device has its own moment: device 0 was last pulled at 9, and device 1 at 2, which is before the drain's.
    (
        TWO_DEVICES,
        b"send 0 10\nsend 1 20\nsend 1 30\nsend 0 5\npull 9\npull 2 1\ndrain 3\n",
        Ok(()),
        b"0#0 10 accepted\n1#0 20 accepted\n1#1 30 accepted\n0#1 5 accepted\n\
          pull 9 0: 0#0 10\npull 2 1: 1#0 20\npull 10 0: 0#1 5\npull 4 1: 1#1 30\n\
          sender 0: sent 2 15, accepted 2 15, refused 0 0, evicted 0 0, emitted 2 15\n\
          sender 1: sent 2 50, accepted 2 50, refused 0 0, evicted 0 0, emitted 2 50\n",
    ),
    // Here the drain of device 1 begins later, though device 0 is drained first: device 1 was pulled at 9, and device 0 at 4.
    (
        TWO_DEVICES,
        b"send 0 10\nsend 0 11\nsend 1 20\npull 9 1\npull 9 1\nsend 1 21\npull 4\npull 7 1\nsend 1 22\ndrain 5\n",
        Ok(()),
        b"0#0 10 accepted\n0#1 11 accepted\n1#0 20 accepted\n\
          pull 9 1: 1#0 20\npull 9 1: none\n1#1 21 accepted\n\
          pull 4 0: 0#0 10\npull 7 1: 1#1 21\n1#2 22 accepted\n\
          pull 6 0: 0#1 11\npull 10 1: 1#2 22\n\
          sender 0: sent 2 21, accepted 2 21, refused 0 0, evicted 0 0, emitted 2 21\n\
          sender 1: sent 3 63, accepted 3 63, refused 0 0, evicted 0 0, emitted 3 63\n",
    ),
    // Nothing is left at either device.
    (
        TWO_DEVICES,
        b"pull 3 1\ndrain 5\n",
        Ok(()),
        b"pull 3 1: none\n\
          sender 0: sent 0 0, accepted 0 0, refused 0 0, evicted 0 0, emitted 0 0\n\
          sender 1: sent 0 0, accepted 0 0, refused 0 0, evicted 0 0, emitted 0 0\n",
    ),
    // The device between the others has no sender, so its pulls find nothing, and its drain writes no line.
    (
        THREE_DEVICES,
        b"send 0 10\nsend 1 20\npull 4 1\npull 1 2\nsend 1 30\ndrain 2\n",
        Ok(()),
        b"0#0 10 accepted\n1#0 20 accepted\npull 4 1: none\npull 1 2: 1#0 20\n1#1 30 accepted\n\
          pull 3 0: 0#0 10\npull 3 2: 1#1 30\n\
          sender 0: sent 1 10, accepted 1 10, refused 0 0, evicted 0 0, emitted 1 10\n\
          sender 1: sent 2 50, accepted 2 50, refused 0 0, evicted 0 0, emitted 2 50\n",
    ),
    // The second device emits what the first sender sends.
    (
        CROSSED_DEVICES,
        b"send 0 10\nsend 1 20\npull 1\npull 1 1\npull 2\nsend 0 11\nsend 1 21\nsend 1 22\ndrain 2\n",
        Ok(()),
        b"0#0 10 accepted\n1#0 20 accepted\npull 1 0: 1#0 20\npull 1 1: 0#0 10\npull 2 0: none\n\
          0#1 11 accepted\n1#1 21 accepted\n1#2 22 accepted\n\
          pull 3 0: 1#1 21\npull 4 0: 1#2 22\npull 3 1: 0#1 11\n\
          sender 0: sent 2 21, accepted 2 21, refused 0 0, evicted 0 0, emitted 2 21\n\
          sender 1: sent 3 63, accepted 3 63, refused 0 0, evicted 0 0, emitted 3 63\n",
    ),
    // Device 0's queue evicts packets and device 1's refuses some, and the report goes by the senders' numbers.
    (
        FULL_AT_TWO_DEVICES,
        b"send 7 100\nsend 5 50\nsend 3 30\nsend 3 31\nsend 7 101\nsend 5 51\npull 1 1\nsend 3 32\ndrain 0\n",
        Ok(()),
        b"7#0 100 accepted\n5#0 50 accepted\n3#0 30 accepted\n3#1 31 refused\n\
          7#1 101 accepted evicted 7#0\n5#1 51 accepted evicted 5#0\n\
          pull 1 1: 3#0 30\n3#2 32 accepted\n\
          pull 1 0: 7#1 101\npull 2 0: 5#1 51\npull 2 1: 3#2 32\n\
          sender 3: sent 3 93, accepted 2 62, refused 1 31, evicted 0 0, emitted 2 62\n\
          sender 5: sent 2 101, accepted 2 101, refused 0 0, evicted 1 50, emitted 1 51\n\
          sender 7: sent 2 201, accepted 2 201, refused 0 0, evicted 1 100, emitted 1 101\n",
    ),
];

/// The fault is that of the first line that names an unknown device.
pub const REFUSED: &[Answer] = &[
    (
        TWO_DEVICES,
        b"pull 0 2\n",
        Err(Fault::BadScript { line: 1 }),
        b"",
    ),
    (
        TWO_DEVICES,
        b"pull 0 1\npull 0 65535\n",
        Err(Fault::BadScript { line: 2 }),
        b"",
    ),
    (
        TWO_DEVICES,
        b"send 0 10\npull 0 0\npull 0 1\npull 0 2\ndrain 0\n",
        Err(Fault::BadScript { line: 4 }),
        b"",
    ),
    (
        THREE_DEVICES,
        b"pull 0 2\n\npull 0 3\npull 0 4\n",
        Err(Fault::BadScript { line: 3 }),
        b"",
    ),
    (
        TWO_DEVICES,
        b"pull 0 65536\n",
        Err(Fault::BadScript { line: 1 }),
        b"",
    ),
];

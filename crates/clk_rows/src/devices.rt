//! Two devices.

use crate::{Row, trees};

/// A pull names its device.
pub const TWO_DEVICES: Row = Row {
    name: "two-devices",
    tree: trees::TWO_DEVICES,
    script: "send 0 10\nsend 1 20\npull 0\npull 0 1\npull 0 1\ndrain 0\n",
    answer: "0#0 10 accepted\n1#0 20 accepted\n\
    pull 0 0: 0#0 10\npull 0 1: 1#0 20\npull 0 1: none\n\
    sender 0: sent 1 10, accepted 1 10, refused 0 0, evicted 0 0, emitted 1 10\n\
    sender 1: sent 1 20, accepted 1 20, refused 0 0, evicted 0 0, emitted 1 20\n",
    visits: "",
};

/// A drain goes from device to device.
pub const TWO_DEVICES_DRAINED: Row = Row {
    name: "two-devices-drained",
    tree: trees::TWO_DEVICES,
    script: "send 0 10\nsend 1 20\ndrain 5\n",
    answer: "0#0 10 accepted\n1#0 20 accepted\n\
    pull 6 0: 0#0 10\npull 6 1: 1#0 20\n\
    sender 0: sent 1 10, accepted 1 10, refused 0 0, evicted 0 0, emitted 1 10\n\
    sender 1: sent 1 20, accepted 1 20, refused 0 0, evicted 0 0, emitted 1 20\n",
    visits: "",
};

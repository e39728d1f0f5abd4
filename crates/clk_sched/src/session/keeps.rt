//! What a session keeps of the past.

/// What a session keeps of the past. All but the latest pull's visits grows, and allocates, as the session goes on.
#[derive(Clone, Copy, Debug, PartialEq, Eq)]
pub struct Keeps {
    /// Every visit, in a list that can be read at any time.
    pub visits: bool,
    /// Every visit, packed. This takes seven tenths of the memory of a list, and is read at the end (`Session::into_packed`).
    pub packed: bool,
    /// Every packet emitted at the device.
    pub packets: bool,
    /// The visits of the latest pull, in a list of their own (`Session::latest`). Its memory is allocated when the session is made.
    pub latest: bool,
}

impl Keeps {
    /// Everything: each visit, in a list, and each packet.
    pub const ALL: Keeps = Keeps {
        visits: true,
        packed: false,
        packets: true,
        latest: false,
    };

    /// Nothing.
    pub const NOTHING: Keeps = Keeps {
        visits: false,
        packed: false,
        packets: false,
        latest: false,
    };

    /// The visits of the latest pull.
    pub const LATEST: Keeps = Keeps {
        visits: false,
        packed: false,
        packets: false,
        latest: true,
    };
}

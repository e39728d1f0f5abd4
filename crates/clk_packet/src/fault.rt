//! The faults, by name and number.

ghost use Rattle.std.specs.Prelude.{◌≡◌};

use std::alloc::{AllocError, AllocFailed};
use thiserror::Error;

/// Why a call failed. `Display` writes its line without the line feed: `fault`, its number, its name and its fields.
#[derive(Clone, Copy, Debug, PartialEq, Eq, Error)]
pub enum Fault {
    /// An allocation failed.
    #[error("fault 1: Memory")]
    Memory,
    /// A tree text breaks the grammar at this byte.
    #[error("fault 2: BadText {offset}")]
    BadText {
        offset: u32,
    },
    /// A tree text names a class that isn't there, at this byte.
    #[error("fault 3: UnknownClass {offset}")]
    UnknownClass {
        offset: u32,
    },
    /// The arguments of the class at this byte don't fit it.
    #[error("fault 4: BadArgument {offset}")]
    BadArgument {
        offset: u32,
    },
    /// The name at this byte was declared before.
    #[error("fault 5: NameTwice {offset}")]
    NameTwice {
        offset: u32,
    },
    /// The name at this byte isn't declared.
    #[error("fault 6: UnknownName {offset}")]
    UnknownName {
        offset: u32,
    },
    /// The element at this byte lacks the port that the connection uses.
    #[error("fault 7: BadPort {offset}")]
    BadPort {
        offset: u32,
    },
    /// The connection at this byte uses a port that an earlier one used.
    #[error("fault 8: PortTwice {offset}")]
    PortTwice {
        offset: u32,
    },
    /// The element declared at this byte has a port that isn't connected.
    #[error("fault 9: PortMissing {offset}")]
    PortMissing {
        offset: u32,
    },
    /// The connection at this byte joins push to pull.
    #[error("fault 10: WrongKind {offset}")]
    WrongKind {
        offset: u32,
    },
    /// No device is declared.
    #[error("fault 11: NoDevice")]
    NoDevice,
    /// The device at this byte is declared after another. No call returns this fault: a text may have several devices.
    #[error("fault 12: ManyDevices {offset}")]
    ManyDevices {
        offset: u32,
    },
    /// The outputs from the element at this byte don't lead to a device.
    #[error("fault 13: NotATree {offset}")]
    NotATree {
        offset: u32,
    },
    /// This record of a trace isn't a sender and a length. Records are counted from 1.
    #[error("fault 14: BadTrace {row}")]
    BadTrace {
        row: u32,
    },
    /// The tree has no sender of this number.
    #[error("fault 15: UnknownSender {sender}")]
    UnknownSender {
        sender: u16,
    },
    /// This line of a script isn't a command. Lines are counted from 1.
    #[error("fault 16: BadScript {line}")]
    BadScript {
        line: u32,
    },
    /// A drain made so many pulls, and packets are left.
    #[error("fault 17: TooManyPulls {pulls}")]
    TooManyPulls {
        pulls: u64,
    },
    /// A text or a tree is beyond its limit.
    #[error("fault 18: TooLarge")]
    TooLarge,
    /// The reader failed.
    #[error("fault 19: Read")]
    Read,
    /// The writer failed.
    #[error("fault 20: Write")]
    Write,
    /// This queue refused or evicted a packet though it accepted fewer packets than its capacity.
    #[error("fault 21: Unsettled {queue} {accepted} {capacity}")]
    Unsettled {
        queue: u16,
        accepted: u32,
        capacity: u32,
    },
}

impl Fault {
    ghost use Rattle.clk_packet.specs.Fault.{number_of, name_of};

    /// Its number, from 1 to 21.
    pub fn number(&self) -> u8
        ensures { result ≡ number_of self.now }
    {
        match self {
            Fault::Memory => 1,
            Fault::BadText { .. } => 2,
            Fault::UnknownClass { .. } => 3,
            Fault::BadArgument { .. } => 4,
            Fault::NameTwice { .. } => 5,
            Fault::UnknownName { .. } => 6,
            Fault::BadPort { .. } => 7,
            Fault::PortTwice { .. } => 8,
            Fault::PortMissing { .. } => 9,
            Fault::WrongKind { .. } => 10,
            Fault::NoDevice => 11,
            Fault::ManyDevices { .. } => 12,
            Fault::NotATree { .. } => 13,
            Fault::BadTrace { .. } => 14,
            Fault::UnknownSender { .. } => 15,
            Fault::BadScript { .. } => 16,
            Fault::TooManyPulls { .. } => 17,
            Fault::TooLarge => 18,
            Fault::Read => 19,
            Fault::Write => 20,
            Fault::Unsettled { .. } => 21,
        }
    }

    /// Its name, that of the variant.
    pub fn name(&self) -> &'static str
        ensures { result.now ≡ name_of self.now }
    {
        match self {
            Fault::Memory => "Memory",
            Fault::BadText { .. } => "BadText",
            Fault::UnknownClass { .. } => "UnknownClass",
            Fault::BadArgument { .. } => "BadArgument",
            Fault::NameTwice { .. } => "NameTwice",
            Fault::UnknownName { .. } => "UnknownName",
            Fault::BadPort { .. } => "BadPort",
            Fault::PortTwice { .. } => "PortTwice",
            Fault::PortMissing { .. } => "PortMissing",
            Fault::WrongKind { .. } => "WrongKind",
            Fault::NoDevice => "NoDevice",
            Fault::ManyDevices { .. } => "ManyDevices",
            Fault::NotATree { .. } => "NotATree",
            Fault::BadTrace { .. } => "BadTrace",
            Fault::UnknownSender { .. } => "UnknownSender",
            Fault::BadScript { .. } => "BadScript",
            Fault::TooManyPulls { .. } => "TooManyPulls",
            Fault::TooLarge => "TooLarge",
            Fault::Read => "Read",
            Fault::Write => "Write",
            Fault::Unsettled { .. } => "Unsettled",
        }
    }
}

impl From<AllocError> for Fault {
    ghost use Rattle.std.specs.Prelude.{◌≡◌};
    ghost use Rattle.clk_packet.specs.declared.fault.Fault.TheVariants.{Memory};

    ghost from_gives = { λ _ fault. fault ≡ Memory };

    fn from(_error: AllocError) -> Fault {
        Fault::Memory
    }
}

impl<T: Drop> From<AllocFailed<T>> for Fault {
    ghost use Rattle.std.specs.Prelude.{◌≡◌};
    ghost use Rattle.clk_packet.specs.declared.fault.Fault.TheVariants.{Memory};

    ghost from_gives = { λ _ fault. fault ≡ Memory };

    fn from(_error: AllocFailed<T>) -> Fault {
        Fault::Memory
    }
}

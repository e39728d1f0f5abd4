//! One entry of the log.

use clk_packet::Packet;

/// One look of a node at one of its inputs, as the log records it once its result is known. The visits of a node's child stand before the
/// visit that asked it.
// The fields stand by size, so that a visit takes no more bytes than they need.
#[derive(Clone, Copy, Debug, PartialEq, Eq)]
pub struct Visit {
    /// The pull of the device in which it happened, from 0.
    pub pull: u64,
    /// The counted moment of that pull, in ticks.
    pub moment: u64,
    /// The packet looked at, if there was one.
    pub got: Option<Packet>,
    /// The node: 0 is the device, and schedulers are numbered from 1 in preorder.
    pub node: u16,
    /// The input of the node, from 0.
    pub input: u16,
    /// Whether this looks at what stands at the input: it was asked, or it is a queue that is known to be empty and was not asked. If
    /// not, a DRRSched looks at the packet that it holds for the input.
    pub fresh: bool,
    /// Whether the packet is the node's result in this pull.
    pub passed: bool,
}

impl Visit {
    ghost use Rattle.std.specs.Prelude.{◌≡◌};
    ghost use Rattle.clk_sched.specs.Log.{asking};

    /// A visit that asked what stands at an input, in a pull counted from 0 at a moment in ticks. A packet that it got is the node's
    /// result.
    pub fn asking(pull: u64, moment: u64, node: u16, input: u16, got: Option<Packet>) -> Visit
        ensures { result ≡ asking pull moment node input got }
    {
        Visit {
            pull,
            moment,
            got,
            node,
            input,
            fresh: true,
            passed: got.is_some(),
        }
    }
}

//! Tree texts.

use crate::trees::COMMENTED;

/// A tree, under the name of what it shows.
#[derive(Clone, Copy)]
pub struct Text {
    pub name: &'static str,
    pub tree: &'static str,
    pub canonical: &'static str,
}

/// A canonical text leaves out comments, and writes arguments and ports that may be left out.
pub const CANONICAL_TEXT: Text = Text {
    name: "canonical-text",
    tree: COMMENTED,
    canonical: "s :: Sender(0);\nq :: Queue(1000);\nsh :: Shaper(5, 5);\nd :: ToDevice(eth0);\n\
    s [0] -> [0] q;\nq [0] -> [0] sh;\nsh [0] -> [0] d;\n",
};

//! Visits to inputs of a node that gave nothing, recorded together.

use crate::visit::Visit;

/// Consecutive inputs of a node, each of which was visited in a pull and gave nothing.
#[derive(Clone, Copy)]
pub struct IdleInputs {
    /// The number of the pull, from 0.
    pub pull: u64,
    /// The counted moment of the pull, in ticks.
    pub moment: u64,
    /// The node.
    pub node: u16,
    /// The first of the inputs.
    pub first: u16,
    /// How many inputs these are.
    pub count: u16,
}

impl IdleInputs {
    ghost use Rattle.std.specs.Prelude.{◌≡◌, ◌<◌, ◌+◌, ◌^◌, None};
    ghost use Rattle.clk_sched.specs.Log.{asking};

    /// The visit to one of these inputs, by its place among them.
    #[inline]
    pub fn visit(&self, place: u16) -> Visit
        requires { self.now.first + place < 2 ^ 16 }
        ensures { result ≡ asking self.now.pull self.now.moment self.now.node (self.now.first + place) None }
    {
        Visit::asking(self.pull, self.moment, self.node, self.first + place, None)
    }
}

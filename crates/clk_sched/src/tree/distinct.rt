//! Whether no queue stands twice in a tree.

ghost use Rattle.std.specs.Prelude.{◌≡◌, ◌++◌, ℕ, List, true};
ghost use Rattle.clk_packet.specs.Lists.{are_distinct};
ghost use Rattle.clk_sched.specs.Tree.{leaves};
ghost use Rattle.clk_sched.specs.Built.{row, leaves_of};
ghost use Rattle.clk_sched.specs.inside.Marks.{Marks, AreMarked};

use super::{Node, Tree};

/// How many queue numbers there are.
const NUMBERS: usize = 65_536;

impl Tree {
    ghost use Rattle.clk_sched.specs.Tree.{leaves_distinct, root, IsSound};

    /// Whether no queue stands twice in this tree. Walks the tree once. The contract also says that the tree is sound, as every tree is.
    pub fn leaves_distinct(&self) -> bool
        ensures distinct { result ≡ leaves_distinct self.now }
        ensures sound { IsSound (root self.now) }
    {
        // Reading a field brings the type invariant into scope: the tree is well formed.
        let _ = &self.node;
        let mut marks = [false; NUMBERS];
        self.mark(&mut marks)
    }

    // Marks the queues of this tree, up to one that is marked already. Returns whether there is none.
    #[cycle(mark)]
    fn mark(&self, marks: &mut [bool; NUMBERS]) -> bool
        ensures { (before : List ℕ) → are_distinct before ≡ true → Marks marks.old before → AreMarked result marks.new (before ++ leaves_of self.now) }
    {
        match &self.node {
            Node::Leaf(q) => {
                let place = usize::from(*q);
                let is_new = !marks[place];
                marks[place] = true;
                is_new
            }
            Node::Inner(_, inputs) => mark(inputs, marks),
        }
    }
}

/// Marks the queues of these trees, up to one that is marked already. Returns whether there is none.
#[cycle(mark)]
fn mark(trees: &[Tree], marks: &mut [bool; NUMBERS]) -> bool
    ensures { (before : List ℕ) → are_distinct before ≡ true → Marks marks.old before → AreMarked result marks.new (before ++ leaves (row trees.now)) }
{
    let [first, rest @ ..] = trees else {
        return true;
    };
    first.mark(marks) && mark(rest, marks)
}

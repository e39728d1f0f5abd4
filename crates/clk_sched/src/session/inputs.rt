//! What stands at the inputs of a node.

ghost use Rattle.std.specs.Prelude.{◌≡◌, ◌+◌, ◌<◌, ◌%◌, true, IfSome};
ghost use Rattle.std.proofs.Props.{props};
ghost use Rattle.clk_sched.specs.inside.QueuesFrom.{AreQueuesFrom};

/// What stands at an input: a queue, or a scheduler by its node number.
#[derive(Clone, Copy, Debug, PartialEq, Eq)]
pub enum Input {
    Queue(u16),
    Node(u16),
}

impl Input {
    ghost use Rattle.std.specs.Prelude.{◌↔◌, true};
    ghost use Rattle.clk_sched.specs.declared.session.inputs.Input.TheVariants.{Queue};

    /// Whether this is the queue of this leaf.
    fn is_queue(self, leaf: usize) -> bool
        ensures { result ≡ true ↔ self ≡ Queue leaf }
    {
        match self {
            Input::Queue(queue) => usize::from(queue) == leaf,
            Input::Node(_) => false,
        }
    }
}

/// What is below a node, or at an input and below it.
#[derive(Clone, Copy, Debug)]
pub struct Below {
    /// How many inputs there are.
    pub edges: u16,
    /// How many schedulers there are.
    pub nodes: u16,
    /// The least leaf.
    pub first: u16,
    /// The greatest leaf.
    pub last: u16,
}

/// The inputs of a node.
#[derive(Drop)]
pub struct Inputs {
    /// What stands at each.
    pub each: Vec<Input>,
    /// How many inputs the node and the schedulers below it have.
    pub edges: u16,
    // The least and the greatest leaf below the node, and how many schedulers are there. With all of these an entry has 32 bytes.
    first: u16,
    last: u16,
    nodes: u8,
    // Whether it is known that all inputs are queues with consecutive leaves, the least of them first.
    in_a_row: bool,
    ghost follow: { in_a_row ≡ true → AreQueuesFrom first each.items } by { Prim.hlevel props },
}

impl Inputs {
    ghost use Rattle.std.specs.Prelude.{◌^◌};
    ghost use Rattle.clk_sched.specs.inside.Places.{below_of};

    /// These inputs of a node, and what is below it.
    pub fn new(each: Vec<Input>, below: Below) -> Inputs
        requires { below.nodes < 2 ^ 8 }
        ensures each { result.each ≡ each }
        ensures below { below_of result ≡ below }
    {
        let in_a_row = match queues_from(&each) {
            Some(leaf) => leaf == below.first,
            None => false,
        };
        Inputs {
            each,
            edges: below.edges,
            first: below.first,
            last: below.last,
            nodes: below.nodes as u8,
            in_a_row,
        }
    }

    /// What is below the node, its inputs included.
    #[inline]
    pub fn below(&self) -> Below
        ensures { result ≡ below_of self.now }
    {
        Below {
            edges: self.edges,
            nodes: u16::from(self.nodes),
            first: self.first,
            last: self.last,
        }
    }

    /// The leaf of the first input, if it is known that all inputs are queues with consecutive leaves.
    #[inline]
    pub fn queues_from(&self) -> Option<u16>
        ensures { IfSome result (λ leaf. AreQueuesFrom leaf self.now.each.items) }
    {
        if self.in_a_row {
            Some(self.first)
        } else {
            None
        }
    }
}

/// The leaf of the first of these inputs, if it is known that all are queues with consecutive leaves.
fn queues_from(each: &[Input]) -> Option<u16>
    ensures { IfSome result (λ leaf. AreQueuesFrom leaf each.now) }
{
    let [Input::Queue(first), ..] = each else {
        return None;
    };
    let leaf = *first;
    if each.len() > usize::from(u16::MAX - leaf) {
        return None;
    }
    for place in 0..each.len() {
        if !each[place].is_queue(usize::from(leaf) + place) {
            return None;
        }
    }
    Some(leaf)
}

/// The input after this one, of so many, wrapping round.
// A processor compares faster than it divides.
#[inline]
pub fn input_after(input: u16, inputs: u16) -> u16
    requires { input < inputs }
    ensures { result ≡ (input + 1) % inputs }
{
    let next = input + 1;
    if next == inputs { 0 } else { next }
}

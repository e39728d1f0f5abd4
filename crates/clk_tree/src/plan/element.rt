//! The elements of a plan.

ghost use Rattle.std.specs.Prelude.{◌≡◌, ◌⊎◌, length, Err};
ghost use Rattle.clk_packet.specs.declared.fault.Fault.TheVariants.{Memory};
ghost use Rattle.clk_syntax.specs.Classes.{class_view};
ghost use Rattle.clk_tree.specs.PlanParts.{is_sender};
ghost use Rattle.clk_tree.specs.PlanTree.{is_queue, is_device};
ghost use Rattle.clk_tree.specs.inside.PlanTree.{IsOver, IsBuilt};

use clk_packet::Fault;
use clk_sched::Tree;
use clk_syntax::Class;
use std::alloc::Global;

/// An element of a plan.
#[derive(Drop)]
pub struct Element {
    /// Its name.
    pub name: Vec<u8>,
    /// Its class with all arguments.
    pub class: Class,
    /// The elements that are connected to it, by their places among all: of a queue its senders in order of declaration, of any other
    /// element the one at each input.
    pub sources: Vec<u16>,
}

impl Element {
    /// Whether it is a queue.
    pub fn is_queue(&self) -> bool
        ensures { result ≡ is_queue (class_view self.now.class) }
    {
        match self.class {
            Class::Queue(_, _) => true,
            _ => false,
        }
    }

    /// Whether it is a device.
    pub fn is_device(&self) -> bool
        ensures { result ≡ is_device (class_view self.now.class) }
    {
        match self.class {
            Class::ToDevice(_) => true,
            _ => false,
        }
    }

    /// Whether it is the sender of this number.
    pub fn is_sender(&self, number: u16) -> bool
        ensures { result ≡ is_sender number (class_view self.now.class) }
    {
        match self.class {
            Class::Sender(own) => own == number,
            _ => false,
        }
    }

    /// The tree of this scheduler over its inputs. Fault 1 if an allocation fails, and otherwise the faults of the tree's constructor.
    pub(crate) fn over(&self, alloc: Global, children: Vec<Tree>) -> Result<Tree, Fault>
        requires inputs { IsOver (class_view self.now.class) (length children.items) }
        ensures { (result ≡ Err Memory) ⊎ IsBuilt (class_view self.now.class) children.items result }
    {
        match &self.class {
            Class::Scheduler(scheduler) => {
                let over = scheduler.over(alloc, children.len())?;
                Tree::scheduler(over, children)
            }
            _ => unreachable!(),
        }
    }
}

//! The tree of a plan.

ghost use Rattle.std.specs.Prelude.{◌≡◌, ◌≤◌, ◌∷◌, [], true, map, length, slice_get, Some, IfOk, IsOkUnless};
ghost use Rattle.std.specs.List.{AllByRecursion};
ghost use Rattle.clk_packet.specs.declared.fault.Fault.TheVariants.{Memory};
ghost use Rattle.clk_packet.specs.declared.limits.TheConstants.{MAX_LEVELS};
ghost use Rattle.clk_sched.specs.Tree.{root, height};
ghost use Rattle.clk_sched.specs.Built.{row};
ghost use Rattle.clk_tree.specs.PlanTree.{queue_number, IsRowOf};
ghost use Rattle.clk_tree.specs.inside.PlanTree.{is_queue_at, IsScheduled};
ghost use Rattle.clk_tree.specs.Elements.{planned};

use crate::plan::element::Element;
use clk_packet::Fault;
use clk_sched::Tree;
use std::alloc::Global;

/// The tree that ends at an element, which is a queue or a scheduler with so many levels of schedulers at most. Fault 1 if an allocation
/// fails.
#[cycle(tree)]
pub fn tree_at(alloc: Global, elements: &[Element], place: u16, levels: u8) -> Result<Tree, Fault>
    requires levels { levels ≤ MAX_LEVELS }
    requires scheduled { IsScheduled (map planned elements.now) levels place }
    ensures tree { IfOk result (λ tree. IsRowOf (map planned elements.now) (place ∷ []) (root tree)) }
    ensures height { IfOk result (λ tree. height (root tree) ≤ levels) }
    ensures fault { IsOkUnless result Memory }
{
    let element = &elements[place as usize];
    if element.is_queue() {
        return Ok(Tree::leaf(queue_number(elements, place)));
    }
    let children = trees_at(alloc, elements, &element.sources, levels - 1)?;
    element.over(alloc, children)
}

/// The trees that end at these elements, each as by `tree_at`. Fault 1 if an allocation fails.
#[cycle(tree)]
fn trees_at(
    alloc: Global,
    elements: &[Element],
    places: &[u16],
    levels: u8,
) -> Result<Vec<Tree>, Fault>
    requires levels { levels ≤ MAX_LEVELS }
    requires scheduled { AllByRecursion (IsScheduled (map planned elements.now) levels) places.now }
    ensures trees { IfOk result (λ trees. IsRowOf (map planned elements.now) places.now (row trees.items)) }
    ensures count { IfOk result (λ trees. length trees.items ≡ length places.now) }
    ensures height { IfOk result (λ trees. height (row trees.items) ≤ levels) }
    ensures fault { IsOkUnless result Memory }
{
    let mut trees = Vec::new(alloc);
    for place in places {
        trees.push(tree_at(alloc, elements, *place, levels)?)?;
    }
    Ok(trees)
}

/// The number of the queue at a place among the elements: queues are numbered from 0 in order of declaration.
fn queue_number(elements: &[Element], place: u16) -> u16
    requires queue { is_queue_at (slice_get (map planned elements.now) place) ≡ true }
    ensures { queue_number (map planned elements.now) place ≡ Some result }
{
    let mut number = 0;
    for element in &elements[..place as usize] {
        if element.is_queue() {
            number += 1;
        }
    }
    number
}

//! The elements of a plan, made of what a text declares and connects.

ghost use Rattle.std.specs.Prelude.{◌≡◌, ◌<◌, ◌≤◌, ◌+◌, ◌++◌, ◌^◌, map, length, IfOk, OnOk, IsOkUnless};
ghost use Rattle.std.specs.List.{AllByRecursion};
ghost use Rattle.clk_packet.specs.declared.fault.Fault.TheVariants.{Memory};
ghost use Rattle.clk_packet.specs.declared.limits.TheConstants.{MAX_ELEMENTS};
ghost use Rattle.clk_syntax.specs.declared.limits.TheConstants.{MAX_TREE_BYTES};
ghost use Rattle.clk_syntax.specs.Classes.{class_view, numbers_in, is_class};
ghost use Rattle.clk_syntax.specs.Source.{elements, kept};
ghost use Rattle.clk_syntax.specs.Declarations.{class_in};
ghost use Rattle.clk_syntax.specs.Within.{IsWithin, IsDeclaredWithin, words_in};
ghost use Rattle.clk_syntax.specs.Tables.{IsTabled};
ghost use Rattle.clk_tree.specs.Plan.{all_known, planned_from, planned_at};
ghost use Rattle.clk_tree.specs.Elements.{planned};
ghost use Rattle.clk_tree.specs.inside.Kept.{known_as, names_as};

use crate::plan::element::Element;
use crate::plan::wiring::sources_of;
use clk_packet::Fault;
use clk_syntax::{Class, Declaration, Graph, Token, letters};
use std::alloc::Global;

/// The elements of a plan: those that are declared, with their classes and what is connected to them. Fault 1 if an allocation fails.
pub fn elements_of(
    alloc: Global,
    text: &[u8],
    declarations: &[Declaration],
    classes: &[Class],
    graph: &Graph,
) -> Result<Vec<Element>, Fault>
    requires tabled { IsTabled graph.now }
    requires few { length graph.now.nodes.now ≤ MAX_ELEMENTS }
    requires within { AllByRecursion (IsDeclaredWithin (length text.now)) (map kept declarations.now) }
    requires classes { map (class_in text.now) (map kept declarations.now) ≡ map is_class classes.now }
    requires all { length graph.now.nodes.now ≡ length (all_known (elements text.now (map kept declarations.now))) }
    requires words { words_in (map kept declarations.now) ≤ MAX_TREE_BYTES }
    ensures made { IfOk result (λ made. map planned made.items
        ≡ planned_from (length graph.now.nodes.now) graph.now.links.now 0 (all_known (elements text.now (map kept declarations.now)))) }
    ensures fault { IsOkUnless result Memory }
{
    let mut elements = Vec::new(alloc);
    for place in 0..declarations.len() {
        push_declared(
            alloc,
            text,
            &declarations[place].names,
            &classes[place],
            graph,
            &mut elements,
        )?;
    }
    Ok(elements)
}

/// Adds the elements of these names, which are all of one class. Fault 1 if an allocation fails.
fn push_declared(
    alloc: Global,
    text: &[u8],
    names: &[Token],
    class: &Class,
    graph: &Graph,
    elements: &mut Vec<Element>,
) -> Result<(), Fault>
    requires tabled { IsTabled graph.now }
    requires few { length graph.now.nodes.now ≤ MAX_ELEMENTS }
    requires within { AllByRecursion (IsWithin (length text.now)) names.now }
    requires room { length elements.old.items + length names.now ≤ length graph.now.nodes.now }
    requires numbers { length (numbers_in (class_view class.now)) < 2 ^ 32 }
    ensures added { OnOk result (map planned elements.new.items ≡ map planned elements.old.items
        ++ planned_from (length graph.now.nodes.now) graph.now.links.now (length elements.old.items) (names_as text.now (class_view class.now) names.now)) }
    ensures count { OnOk result (length elements.new.items ≡ length elements.old.items + length names.now) }
    ensures fault { IsOkUnless result Memory }
{
    for name in names {
        let place = elements.len() as u32;
        elements.push(element(alloc, letters(text, name), class, graph, place)?)?;
    }
    Ok(())
}

/// An element of this name and class. Fault 1 if an allocation fails.
fn element(
    alloc: Global,
    name: &[u8],
    class: &Class,
    graph: &Graph,
    place: u32,
) -> Result<Element, Fault>
    requires tabled { IsTabled graph.now }
    requires few { length graph.now.nodes.now ≤ MAX_ELEMENTS }
    requires place { place < length graph.now.nodes.now }
    requires numbers { length (numbers_in (class_view class.now)) < 2 ^ 32 }
    ensures made { IfOk result (λ e. planned e ≡ planned_at (length graph.now.nodes.now) graph.now.links.now place (known_as name.now (class_view class.now))) }
    ensures fault { IsOkUnless result Memory }
{
    Ok(Element {
        name: name.to_vec(alloc)?,
        class: class.copy(alloc)?,
        sources: sources_of(alloc, graph, place, class.role())?,
    })
}

//! The canonical text of a plan.

ghost use Rattle.std.specs.Prelude.{◌≡◌, ◌++◌, ◌∷◌, [], codes, decimal, map, slice_get, IfOk, OnOk, IsOkUnless};
ghost use Rattle.std.specs.List.{flat_map};
ghost use Rattle.clk_packet.specs.declared.fault.Fault.TheVariants.{Memory};
ghost use Rattle.clk_syntax.specs.Classes.{class_view};
ghost use Rattle.clk_tree.specs.Elements.{planned};
ghost use Rattle.clk_tree.specs.Canonical.{class_text, arguments_of, arguments_text, element_text, name_of, connection_text, inputs_text, connections_text, canonical_text};

use crate::plan::element::Element;
use clk_packet::{Fault, Kind};
use clk_syntax::Class;
use itoa::Buffer;
use std::alloc::Global;

/// The canonical text of a plan of these elements. Fault 1 if an allocation fails.
pub fn canonical_text(alloc: Global, elements: &[Element]) -> Result<Vec<u8>, Fault>
    ensures text { IfOk result (λ text. text.items ≡ canonical_text (map planned elements.now)) }
    ensures fault { IsOkUnless result Memory }
{
    let mut text = Vec::new(alloc);
    push_elements(alloc, &mut text, elements)?;
    push_all_connections(&mut text, elements)?;
    Ok(text)
}

/// Adds the line of each element. Fault 1 if an allocation fails.
fn push_elements(alloc: Global, text: &mut Vec<u8>, elements: &[Element]) -> Result<(), Fault>
    ensures lines { OnOk result (text.new.items ≡ text.old.items ++ flat_map element_text (map planned elements.now)) }
    ensures fault { IsOkUnless result Memory }
{
    for element in elements {
        push_element(alloc, text, element)?;
    }
    Ok(())
}

/// Adds the line of an element. Fault 1 if an allocation fails.
fn push_element(alloc: Global, text: &mut Vec<u8>, element: &Element) -> Result<(), Fault>
    ensures line { OnOk result (text.new.items ≡ text.old.items ++ element_text (planned element.now)) }
    ensures fault { IsOkUnless result Memory }
{
    text.extend_from_slice(&element.name)?;
    text.extend_from_slice(b" :: ")?;
    text.extend_from_slice(class_text(&element.class))?;
    push_arguments(alloc, text, &element.class)?;
    text.extend_from_slice(b";\n")?;
    Ok(())
}

/// The name of a class.
fn class_text(class: &Class) -> &'static [u8]
    ensures { result.now ≡ class_text (class_view class.now) }
{
    match class {
        Class::Sender(_) => b"Sender",
        Class::Queue(Kind::TailDrop, _) => b"Queue",
        Class::Queue(Kind::FrontDrop, _) => b"FrontDropQueue",
        Class::Scheduler(scheduler) => scheduler.name().text(),
        Class::ToDevice(_) => b"ToDevice",
    }
}

/// Adds the arguments of a class, all of them. Fault 1 if an allocation fails.
fn push_arguments(alloc: Global, text: &mut Vec<u8>, class: &Class) -> Result<(), Fault>
    ensures arguments { OnOk result (text.new.items ≡ text.old.items ++ arguments_text (arguments_of (class_view class.now))) }
    ensures fault { IsOkUnless result Memory }
{
    match class {
        Class::Sender(number) => push_numbers(text, &[u32::from(*number)]),
        Class::Queue(_, capacity) => push_numbers(text, &[*capacity]),
        Class::Scheduler(scheduler) => push_numbers(text, &scheduler.arguments(alloc)?),
        Class::ToDevice(word) => push_word(text, word),
    }
}

/// Adds a word as the one argument. Fault 1 if an allocation fails.
fn push_word(text: &mut Vec<u8>, word: &[u8]) -> Result<(), Fault>
    ensures arguments { OnOk result (text.new.items ≡ text.old.items ++ arguments_text (word.now ∷ [])) }
    ensures fault { IsOkUnless result Memory }
{
    text.extend_from_slice(b"(")?;
    text.extend_from_slice(word)?;
    text.extend_from_slice(b")")?;
    Ok(())
}

/// Adds numbers as the arguments. Fault 1 if an allocation fails.
fn push_numbers(text: &mut Vec<u8>, numbers: &[u32]) -> Result<(), Fault>
    ensures arguments { OnOk result (text.new.items ≡ text.old.items ++ arguments_text (map decimal numbers.now)) }
    ensures fault { IsOkUnless result Memory }
{
    match numbers {
        [] => Ok(()),
        [first, more @ ..] => {
            text.extend_from_slice(b"(")?;
            push_number(text, u64::from(*first))?;
            push_more_numbers(text, more)?;
            text.extend_from_slice(b")")?;
            Ok(())
        }
    }
}

/// Adds the numbers after the first. Fault 1 if an allocation fails.
fn push_more_numbers(text: &mut Vec<u8>, numbers: &[u32]) -> Result<(), Fault>
    ensures words { OnOk result (text.new.items ≡ text.old.items ++ flat_map (λ word. codes ", " ++ word) (map decimal numbers.now)) }
    ensures fault { IsOkUnless result Memory }
{
    for number in numbers {
        text.extend_from_slice(b", ")?;
        push_number(text, u64::from(*number))?;
    }
    Ok(())
}

/// Adds a number. Fault 1 if an allocation fails.
fn push_number(text: &mut Vec<u8>, number: u64) -> Result<(), Fault>
    ensures number { OnOk result (text.new.items ≡ text.old.items ++ decimal number) }
    ensures fault { IsOkUnless result Memory }
{
    text.extend_from_slice(Buffer::new().format(number).as_bytes())?;
    Ok(())
}

/// Adds the lines of all connections. Fault 1 if an allocation fails.
fn push_all_connections(text: &mut Vec<u8>, elements: &[Element]) -> Result<(), Fault>
    ensures lines { OnOk result (text.new.items ≡ text.old.items
        ++ flat_map (connections_text (map planned elements.now)) (map planned elements.now)) }
    ensures fault { IsOkUnless result Memory }
{
    for element in elements {
        push_connections(text, elements, element)?;
    }
    Ok(())
}

/// Adds the lines of the connections to one of these elements. Fault 1 if an allocation fails.
fn push_connections(
    text: &mut Vec<u8>,
    elements: &[Element],
    element: &Element,
) -> Result<(), Fault>
    ensures lines { OnOk result (text.new.items ≡ text.old.items ++ connections_text (map planned elements.now) (planned element.now)) }
    ensures fault { IsOkUnless result Memory }
{
    match element.class {
        Class::Queue(_, _) => push_senders(text, elements, &element.name, &element.sources),
        _ => push_inputs(text, elements, &element.name, &element.sources),
    }
}

/// Adds the lines of the connections to input 0 of a queue of this name. Fault 1 if an allocation fails.
fn push_senders(
    text: &mut Vec<u8>,
    elements: &[Element],
    name: &[u8],
    senders: &[u16],
) -> Result<(), Fault>
    ensures lines { OnOk result (text.new.items ≡ text.old.items
        ++ flat_map (λ s. connection_text (map planned elements.now) s 0 name.now) senders.now) }
    ensures fault { IsOkUnless result Memory }
{
    for sender in senders {
        push_connection(text, elements, *sender, 0, name)?;
    }
    Ok(())
}

/// Adds the lines of the connections to the inputs of an element of this name, one to each. Fault 1 if an allocation fails.
fn push_inputs(
    text: &mut Vec<u8>,
    elements: &[Element],
    name: &[u8],
    sources: &[u16],
) -> Result<(), Fault>
    ensures lines { OnOk result (text.new.items ≡ text.old.items ++ inputs_text (map planned elements.now) name.now 0 sources.now) }
    ensures fault { IsOkUnless result Memory }
{
    for input in 0..sources.len() {
        push_connection(text, elements, sources[input], input, name)?;
    }
    Ok(())
}

/// Adds the line of a connection from an element to an input of one of this name. Fault 1 if an allocation fails.
fn push_connection(
    text: &mut Vec<u8>,
    elements: &[Element],
    source: u16,
    input: usize,
    name: &[u8],
) -> Result<(), Fault>
    ensures line { OnOk result (text.new.items ≡ text.old.items ++ connection_text (map planned elements.now) source input name.now) }
    ensures fault { IsOkUnless result Memory }
{
    text.extend_from_slice(name_at(elements, source))?;
    text.extend_from_slice(b" [0] -> [")?;
    push_number(text, input as u64)?;
    text.extend_from_slice(b"] ")?;
    text.extend_from_slice(name)?;
    text.extend_from_slice(b";\n")?;
    Ok(())
}

/// The name of the element at a place, or nothing if there is none.
fn name_at(elements: &[Element], place: u16) -> &[u8]
    ensures { result.now ≡ name_of (slice_get (map planned elements.now) place) }
{
    match elements.get(usize::from(place)) {
        Some(element) => &element.name,
        None => b"",
    }
}

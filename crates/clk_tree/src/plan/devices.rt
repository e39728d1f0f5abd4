//! To which device the outputs of elements lead.

ghost use Rattle.std.specs.Prelude.{◌≡◌, ◌≤◌, map, take, length, slice_get};
ghost use Rattle.clk_packet.specs.declared.limits.TheConstants.{MAX_ELEMENTS};
ghost use Rattle.clk_tree.specs.PlanTree.{device_count};
ghost use Rattle.clk_tree.specs.PlanPaths.{has_output, place_fed, place_after, device_of};
ghost use Rattle.clk_tree.specs.Elements.{planned};

use crate::plan::element::Element;

/// Whether an element that has an output stands at a place.
fn has_output(elements: &[Element], place: u16) -> bool
    ensures { result ≡ has_output (slice_get (map planned elements.now) place) }
{
    if place as usize >= elements.len() {
        return false;
    }
    !elements[place as usize].is_device()
}

/// The place of the element to which another is connected, or the number of elements if there is none.
fn place_fed(elements: &[Element], place: u16) -> u16
    requires few { length elements.now ≤ MAX_ELEMENTS }
    ensures { result ≡ place_fed (map planned elements.now) place }
{
    let mut fed = 0;
    for element in elements {
        if element.sources.contains(&place) {
            return fed;
        }
        fed += 1;
    }
    fed
}

/// The place at the end of the path from an element.
fn path_end(elements: &[Element], place: u16) -> u16
    requires few { length elements.now ≤ MAX_ELEMENTS }
    ensures { result ≡ place_after (map planned elements.now) (length elements.now) place }
{
    let mut at = place;
    for left in (0..elements.len()).rev() {
        if !has_output(elements, at) {
            return at;
        }
        at = place_fed(elements, at);
    }
    at
}

/// How many devices stand before a place.
fn devices_before(elements: &[Element], place: u16) -> u16
    requires few { length elements.now ≤ MAX_ELEMENTS }
    ensures { result ≡ device_count (take place (map planned elements.now)) }
{
    let end = elements.len().min(place as usize);
    let mut count = 0;
    for element in &elements[..end] {
        if element.is_device() {
            count += 1;
        }
    }
    count
}

/// The number of the device at the end of the path from an element: devices are numbered from 0 in order of declaration.
pub fn device_of(elements: &[Element], place: u16) -> u16
    requires few { length elements.now ≤ MAX_ELEMENTS }
    ensures { result ≡ device_of (map planned elements.now) place }
{
    devices_before(elements, path_end(elements, place))
}

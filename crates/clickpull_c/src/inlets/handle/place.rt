//! A place that C has for an inlet.

ghost use Rattle.std.specs.Prelude.{◌≡◌, Option, Some};
ghost use Rattle.clk_inlet.specs.declared.inlet.Inlet.{Inlet};
ghost use Rattle.clickpull_c.specs.inside.inlets.Place.{inlet_place_owns, inlet_place_coded};

use super::InletHandle;
use std::alloc::Global;
use std::marker::Model;

/// A place that C has for an inlet: it is empty, or it has one. In C it is the struct `clk_inlet` too. If it has an inlet, it is that
/// inlet's `InletHandle`; if it is empty, it may be anything.
// A drop forgets an inlet that it has. Only empty ones are dropped here.
#[repr(C)]
#[derive(Drop)]
pub struct InletPlace {
    at: *mut u8,
    alloc: Global,
    pub ghost inlet: { Option Inlet } by { inlet_place_coded },
}

impl Model for InletPlace {
    ghost also_owns = { λ place. inlet_place_owns place.alloc place.at place.inlet };
}

impl InletPlace {
    /// A place that has this inlet.
    pub(crate) fn of(handle: InletHandle) -> InletPlace
        ensures { result.inlet ≡ Some handle.inlet }
    {
        let InletHandle { at, alloc } = handle;
        InletPlace { at, alloc }
    }
}

//! An inlet that C holds.

ghost use Rattle.std.specs.Prelude.{◌≡◌};
ghost use Rattle.std.specs.Borrow.{sem};
ghost use Rattle.clk_inlet.specs.declared.inlet.Inlet.{Inlet};
ghost use Rattle.clickpull_c.specs.inside.inlets.Handle.{inlet_handle_owns, inlet_coded};

mod place;

use crate::parts::BoxParts;
use clk_inlet::Inlet;
pub use place::InletPlace;
use std::alloc::Global;
use std::marker::Model;

/// An inlet that C holds: a pointer to it, which owns it as a box does. In C it is the struct `clk_inlet`, whose `at` isn't null.
#[repr(C)]
pub struct InletHandle {
    at: *mut u8,
    alloc: Global,
    pub ghost inlet: { Inlet } by { inlet_coded },
}

impl Model for InletHandle {
    ghost also_owns = { λ handle. inlet_handle_owns handle.alloc handle.at handle.inlet };
}

impl InletHandle {
    ghost use Rattle.clickpull_c.specs.inside.inlets.Follows.{inlet_handle_follows};

    /// The handle of an inlet.
    pub(crate) fn of(inlet: Box<Inlet>) -> InletHandle
        ensures { result.inlet ≡ inlet.value }
    {
        InletHandle::of_parts(BoxParts::of(inlet))
    }

    /// The inlet of a handle.
    pub(crate) fn into_box(self) -> Box<Inlet>
        ensures { result.value ≡ self.inlet }
    {
        self.into_parts().into_box()
    }

    /// The inlet.
    pub(crate) fn get_mut(&mut self) -> &mut Inlet
        ensures* writes_back { sem 𝓛 (inlet_handle_follows self.entry result) }
        ensures value { result.now ≡ self.old.inlet }
    {
        unsafe { &mut *self.at.cast() }
    }

    fn of_parts(parts: BoxParts<Inlet, Global>) -> InletHandle
        ensures { result.inlet ≡ parts.value }
    {
        let BoxParts { ptr, alloc } = parts;
        InletHandle {
            at: ptr.cast(),
            alloc,
        }
    }

    fn into_parts(self) -> BoxParts<Inlet, Global>
        ensures { result.value ≡ self.inlet }
    {
        let InletHandle { at, alloc } = self;
        BoxParts {
            ptr: at.cast(),
            alloc,
        }
    }
}

unsafe impl Send for InletHandle {}
